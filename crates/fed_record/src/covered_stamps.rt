//! Whether the version of a job's operations covers the stamps that are read of it.
ghost use Rattle.std.specs.Prelude.{◌≡◌};
ghost use Rattle.fed_record.specs.CoveredJob.{covers_register, covers_fields, covers_stages, covers_stamps};
ghost use Rattle.fed_record.specs.JobRecord.{job_reads};

use crate::records::{JobFields, JobRecord, JobStages};
use fed_lattice::{Exact, Register};
use fed_stamp::Version;

// Whether the version covers the stamp under which the register was set, if it was.
fn is_covered<T: Exact>(version: &Version, register: &Register<T>) -> bool
    ensures { result ≡ covers_register version.now register.now }
{
    match register.get() {
        Some((stamp, _)) => version.covers(stamp),
        None => true,
    }
}

fn are_fields_covered(version: &Version, fields: &JobFields) -> bool
    ensures { result ≡ covers_fields version.now fields.now }
{
    is_covered(version, &fields.owner)
        && is_covered(version, &fields.name)
        && is_covered(version, &fields.priority)
        && is_covered(version, &fields.nodes)
        && is_covered(version, &fields.limit)
        && is_covered(version, &fields.account)
}

fn are_stages_covered(version: &Version, stages: &JobStages) -> bool
    ensures { result ≡ covers_stages version.now stages.now }
{
    let grant = match stages.grant.get() {
        Some(grant) => version.covers(grant.stamp()),
        None => true,
    };
    grant && is_covered(version, &stages.begun) && is_covered(version, &stages.finished)
}

impl JobRecord {
    /// Whether the version of its operations covers the stamp of each of its fields, of its grant, of its Begin and of its
    /// Finish, of those that it has.
    pub fn has_covered_stamps(&self) -> bool
        ensures { result ≡ covers_stamps (job_reads self.now) }
    {
        are_fields_covered(&self.touched, &self.fields)
            && are_stages_covered(&self.touched, &self.stages)
    }
}
