//! The jobs that operands name.
ghost use Rattle.std.specs.Prelude.{◌≡◌, ◌∷◌, []};
ghost use Rattle.fed_words.specs.Fault.{Gives};
ghost use Rattle.fed_words.specs.Item.{words_of};
ghost use Rattle.fed_words.specs.Request.{jobs_in, named_jobs};

use crate::faults::UsageFault;
use crate::identifiers::read_identifier;
use crate::utilities::Utility;
use fed_stamp::{JobId, Roster, SiteId};
use indexmap::IndexSet;
use smallvec::SmallVec;
use std::alloc::Global;

/// The jobs that operands name, of which one takes no allocation: most words name one.
pub(crate) type Jobs = SmallVec<JobId, 1>;

/// The job that an operand names, where it is the only one.
fn read_one(alloc: Global, roster: &Roster, here: SiteId, operand: &str) -> Result<Jobs, UsageFault>
    ensures { Gives (λ jobs. jobs.items) result (named_jobs roster.now here (operand.now ∷ [])) }
{
    let job = read_identifier(roster, here, operand)?;
    Ok(SmallVec::from_slice(alloc, &[job])?)
}

/// The jobs that operands name, each once, at its first place: one is looked up among those before it.
fn read_all(
    alloc: Global,
    roster: &Roster,
    here: SiteId,
    operands: &[&str],
) -> Result<Jobs, UsageFault>
    ensures { Gives (λ jobs. jobs.items) result (named_jobs roster.now here (words_of operands.now)) }
{
    let mut jobs = SmallVec::new(alloc);
    let mut seen: IndexSet<(u64, u8)> = IndexSet::new(alloc);
    for operand in operands {
        let job = read_identifier(roster, here, operand)?;
        if seen.insert((job.counter(), job.site().get()))? {
            jobs.push(job)?;
        }
    }
    Ok(jobs)
}

/// The jobs that operands name, each once, at its first place.
fn read_named(
    alloc: Global,
    roster: &Roster,
    here: SiteId,
    operands: &[&str],
) -> Result<Jobs, UsageFault>
    ensures { Gives (λ jobs. jobs.items) result (named_jobs roster.now here (words_of operands.now)) }
{
    match operands {
        [operand] => read_one(alloc, roster, here, operand),
        _ => read_all(alloc, roster, here, operands),
    }
}

/// The jobs that the operands of a utility name.
pub(crate) fn read_jobs(
    alloc: Global,
    roster: &Roster,
    here: SiteId,
    utility: Utility,
    operands: &[&str],
) -> Result<Jobs, UsageFault>
    ensures { Gives (λ jobs. jobs.items) result (jobs_in roster.now here utility (words_of operands.now)) }
{
    match utility {
        Utility::Qsub => Ok(SmallVec::new(alloc)),
        Utility::Qstat => read_named(alloc, roster, here, operands),
        Utility::Qalter | Utility::Qhold | Utility::Qrls | Utility::Qdel => {
            if operands.is_empty() {
                return Err(UsageFault::MissingOperand);
            }
            read_named(alloc, roster, here, operands)
        }
    }
}
