//! Facts that a type's invariant keeps. Each function does nothing: its contract is the fact, which a caller tells the
//! prover by calling it.
ghost use Rattle.fed_record.specs.Record.{AreCovered};

use crate::records::JobRecord;

/// What was touched of a job covers the stamp of each of its pairs.
pub fn tags_are_covered(job: &JobRecord)
    ensures holds { AreCovered job.now.touched job.now.holds }
    ensures sites { AreCovered job.now.touched job.now.sites }
{
    let _holds = job.hold_tags();
    let _sites = job.site_tags();
}
