//! What words ask.
ghost use Rattle.std.specs.Prelude.{◌≡◌, ◌∷◌, [], IfOk, map};
ghost use Rattle.fed_lattice.specs.Results.{mapped};
ghost use Rattle.fed_model.specs.declared.commands.Command.{Command};
ghost use Rattle.fed_words.specs.Fault.{Gives};
ghost use Rattle.fed_words.specs.Item.{words_of};
ghost use Rattle.fed_words.specs.Request.{all_sites as set_of_all, jobs_in, kinds_given, request_in, request_of, values_of};
ghost use Rattle.fed_words.specs.RequestView.{asked_by};

use crate::faults::UsageFault;
use crate::jobs::read_jobs;
use crate::settings::Settings;
use crate::spelling::read_options;
use crate::utilities::Utility;
use fed_model::{
    Account, Changes, Command, HoldKind, HoldKinds, JobValues, Limit, Nodes, Priority,
};
use fed_stamp::{JobId, Roster, SITES, SiteId, SiteSet, Word};
use std::alloc::{AllocError, Global};

/// The priority of a job that is submitted without one.
const DEFAULT_PRIORITY: i16 = 0;

/// How many nodes a job asks for that is submitted without a number of them.
const DEFAULT_NODES: u64 = 1;

/// The time limit of a job that is submitted without one, in seconds.
const DEFAULT_LIMIT: u64 = 3600;

/// What words ask.
#[derive(Drop, Debug)]
pub enum Request {
    /// Commands, to be done in this order.
    Acts(Vec<Command>),
    /// A listing.
    List {
        /// Whether it is in full.
        full: bool,
        /// The jobs that are listed, each once; all jobs where there is none.
        jobs: Vec<JobId>,
    },
}

/// All sites of a roster.
fn all_sites(roster: &Roster) -> SiteSet
    ensures { result ≡ set_of_all roster.now }
{
    let mut sites = [SiteId::new(0).unwrap(); SITES];
    let count = roster.len();
    for number in 0..count {
        sites[number] = SiteId::new(number as u8).unwrap();
    }
    SiteSet::new(&sites[..count]).unwrap()
}

/// What a job is submitted with, of which this is set.
fn values(roster: &Roster, set: &Changes) -> JobValues
    ensures { result ≡ values_of roster.now set.now }
{
    let sites = match set.sites {
        Some(sites) => sites,
        None => all_sites(roster),
    };
    JobValues {
        name: set.name.unwrap_or(Word::new("STDIN").unwrap()),
        priority: set
            .priority
            .unwrap_or(Priority::new(DEFAULT_PRIORITY).unwrap()),
        nodes: set.nodes.unwrap_or(Nodes::new(DEFAULT_NODES).unwrap()),
        limit: set.limit.unwrap_or(Limit::new(DEFAULT_LIMIT).unwrap()),
        account: set.account.unwrap_or(Account::EMPTY),
        sites,
    }
}

/// The kinds of holds, by default a user hold.
fn kinds(settings: &Settings) -> HoldKinds
    ensures { result ≡ kinds_given settings.now }
{
    settings.kinds.unwrap_or(HoldKinds::only(HoldKind::User))
}

fn alterations(alloc: Global, jobs: &[JobId], changes: Changes) -> Result<Vec<Command>, AllocError>
    ensures { IfOk result (λ commands. commands.items ≡ map (λ job. Command.Alter job changes) jobs.now) }
{
    jobs.iter()
        .map(|job| Command::Alter { job: *job, changes })
        .collect(alloc)
}

fn holds(alloc: Global, jobs: &[JobId], kinds: HoldKinds) -> Result<Vec<Command>, AllocError>
    ensures { IfOk result (λ commands. commands.items ≡ map (λ job. Command.Hold job kinds) jobs.now) }
{
    jobs.iter()
        .map(|job| Command::Hold { job: *job, kinds })
        .collect(alloc)
}

fn releases(alloc: Global, jobs: &[JobId], kinds: HoldKinds) -> Result<Vec<Command>, AllocError>
    ensures { IfOk result (λ commands. commands.items ≡ map (λ job. Command.Release job kinds) jobs.now) }
{
    jobs.iter()
        .map(|job| Command::Release { job: *job, kinds })
        .collect(alloc)
}

fn deletions(alloc: Global, jobs: &[JobId]) -> Result<Vec<Command>, AllocError>
    ensures { IfOk result (λ commands. commands.items ≡ map Command.Delete jobs.now) }
{
    jobs.iter()
        .map(|job| Command::Delete { job: *job })
        .collect(alloc)
}

/// The command that submits a job.
fn submission(
    alloc: Global,
    roster: &Roster,
    settings: &Settings,
) -> Result<Vec<Command>, AllocError>
    ensures { IfOk result (λ commands.
        commands.items ≡ Command.Submit (values_of roster.now settings.now.changes) settings.now.held ∷ []) }
{
    let values = values(roster, &settings.changes);
    Ok(vec![in alloc;
        Command::Submit {
            values,
            held: settings.held
        },
    ]?)
}

/// The request of a utility.
fn make_request(
    alloc: Global,
    roster: &Roster,
    utility: Utility,
    settings: &Settings,
    jobs: &[JobId],
) -> Result<Request, AllocError>
    ensures { IfOk result (λ request. asked_by request ≡ request_of roster.now utility settings.now jobs.now) }
{
    match utility {
        Utility::Qsub => Ok(Request::Acts(submission(alloc, roster, settings)?)),
        Utility::Qalter => Ok(Request::Acts(alterations(alloc, jobs, settings.changes)?)),
        Utility::Qhold => Ok(Request::Acts(holds(alloc, jobs, kinds(settings))?)),
        Utility::Qrls => Ok(Request::Acts(releases(alloc, jobs, kinds(settings))?)),
        Utility::Qdel => Ok(Request::Acts(deletions(alloc, jobs)?)),
        Utility::Qstat => Ok(Request::List {
            full: settings.full,
            jobs: Vec::from_slice(alloc, jobs)?,
        }),
    }
}

/// What a utility is asked with these settings and operands.
fn answer(
    alloc: Global,
    roster: &Roster,
    here: SiteId,
    utility: Utility,
    settings: &Settings,
    operands: &[&str],
) -> Result<Request, UsageFault>
    ensures { let named = jobs_in roster.now here utility (words_of operands.now) in
        Gives asked_by result (mapped (request_of roster.now utility settings.now) named) }
{
    let jobs = read_jobs(alloc, roster, here, utility, operands)?;
    Ok(make_request(alloc, roster, utility, settings, jobs.as_slice())?)
}

/// What the words of a utility ask, the first of which is its name, where they are read at the site `here`: commands,
/// one for each job that the operands name or one that submits a job, or a listing. An operand without a site's name is
/// a job of `here`. Of an option given twice the last counts; a job named twice counts once, at its first place.
///
/// Words are read from left to right, a list of resources pair by pair and its sites name by name, and the first fault
/// is answered; `UsageFault` says what each is. `MissingOperand` stands behind all options. `NoMemory` is answered where
/// an allocation failed.
pub fn read_words(
    alloc: Global,
    words: &[&str],
    roster: &Roster,
    here: SiteId,
) -> Result<Request, UsageFault>
    ensures { Gives asked_by result (request_in roster.now here (words_of words.now)) }
{
    let (name, others) = words.split_first().ok_or(UsageFault::UnknownUtility)?;
    let utility = Utility::named(name).ok_or(UsageFault::UnknownUtility)?;
    let mut settings = Settings::none();
    let operands = read_options(alloc, roster, utility, others, &mut settings)?;
    answer(alloc, roster, here, utility, &settings, operands)
}
