//! What is read of a job, before its record is made.
use fed_record::{FieldParts, HoldKind, StageParts};
use fed_stamp::{JobId, SiteId, Stamp, Version};

/// All that is read of a job.
#[derive(Drop)]
pub struct ReadJob {
    /// Its identifier.
    pub id: JobId,
    /// Its fields.
    pub fields: FieldParts,
    /// The tags of its holds, ascending.
    pub holds: Vec<(HoldKind, Stamp)>,
    /// The tags of the sites that it may run at, ascending.
    pub sites: Vec<(SiteId, Stamp)>,
    /// Its stages.
    pub stages: StageParts,
    /// The greatest counters among its operations, by site.
    pub touched: Version,
}
