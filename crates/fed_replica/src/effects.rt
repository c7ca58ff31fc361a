//! What operations take from the record of their job.
ghost use Rattle.std.specs.Prelude.{◌≡◌, IsTrue, IsSome, IfOk, OnErr, filter};
ghost use Rattle.fed_model.specs.Hold.{has_kind};
ghost use Rattle.fed_record.specs.JobRecord.{job_reads};
ghost use Rattle.fed_model.specs.Letter.{is_submitted};
ghost use Rattle.fed_record.specs.Operation.{has_hold_pair, has_site_pair};
ghost use Rattle.fed_model.specs.Answer.{beginning as beginning_of, has_hold_among as is_hold_among, released_holds, replaced_sites, term_in};

use fed_lattice::NoMemory;
use fed_record::{Beginning, HoldKind, HoldKinds, JobRecord, Moment, Term};
use fed_stamp::{SiteId, SiteSet, Stamp};
use std::alloc::Global;

/// Whether the job has a live pair of one of the kinds.
pub(crate) fn has_hold_among(job: &JobRecord, kinds: HoldKinds) -> bool
    ensures { result ≡ is_hold_among (job_reads job.now) kinds }
{
    (kinds.has(HoldKind::User) && job.has_hold(HoldKind::User))
        || (kinds.has(HoldKind::Operator) && job.has_hold(HoldKind::Operator))
        || (kinds.has(HoldKind::System) && job.has_hold(HoldKind::System))
}

/// All live pairs of sites.
fn site_pairs(alloc: Global, job: &JobRecord) -> Result<Vec<(SiteId, Stamp)>, NoMemory>
    ensures { IfOk result (λ v. v.items ≡ job.now.sites) }
{
    Ok(job.site_tags().collect(alloc)?)
}

/// The live pairs of holds of the kinds.
fn hold_pairs(
    alloc: Global,
    job: &JobRecord,
    kinds: HoldKinds,
) -> Result<Vec<(HoldKind, Stamp)>, NoMemory>
    ensures { IfOk result (λ v. v.items ≡ filter (λ p. has_kind kinds p.0) job.now.holds) }
{
    Ok(
        job.hold_tags()
            .filter(|pair| kinds.has(pair.0))
            .collect(alloc)?,
    )
}

/// The pairs of sites that a Set of the job removes: where it names sites, each live one.
pub(crate) fn replaced(
    alloc: Global,
    job: &JobRecord,
    sites: Option<SiteSet>,
) -> Result<Vec<(SiteId, Stamp)>, NoMemory>
    ensures pairs { IfOk result (λ v. has_site_pair v.items ≡ replaced_sites (job_reads job.now) sites) }
    ensures err { OnErr result (IsSome sites) }
{
    match sites {
        Some(_) => site_pairs(alloc, job),
        None => Ok(Vec::new(alloc)),
    }
}

/// The pairs of holds that a Release removes: the live ones of its kinds.
pub(crate) fn released(
    alloc: Global,
    job: &JobRecord,
    kinds: HoldKinds,
) -> Result<Vec<(HoldKind, Stamp)>, NoMemory>
    ensures { IfOk result (λ v. has_hold_pair v.items ≡ released_holds (job_reads job.now) kinds) }
{
    hold_pairs(alloc, job, kinds)
}

/// The job's last term. It asks that the job was granted.
pub(crate) fn granted_term(job: &JobRecord) -> Term
    requires { IsSome (job_reads job.now).stages.grant }
    ensures { result ≡ term_in (job_reads job.now).stages.grant }
{
    job.grant().unwrap().term()
}

/// What a job begins with that begins at the moment.
pub(crate) fn beginning(job: &JobRecord, moment: Moment) -> Beginning
    requires { IsTrue (is_submitted (job_reads job.now)) }
    ensures { result ≡ beginning_of (job_reads job.now) moment }
{
    let (_stamp, nodes) = job.nodes();
    let (_set, limit) = job.limit();
    Beginning::new(moment, nodes, limit)
}
