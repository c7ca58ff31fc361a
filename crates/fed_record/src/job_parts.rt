//! Records of jobs made of what they read as.
ghost use Rattle.std.specs.Prelude.{◌≡◌, ◌↔◌, IfOk, IsTrue};
ghost use Rattle.std.specs.List.Sorted.{IsStrictlySortedBy};
ghost use Rattle.std.specs.Ordering.{nat_cmp};
ghost use Rattle.fed_tags.specs.Tags.{pair_cmp};
ghost use Rattle.fed_model.specs.Hold.{kind_cmp};
ghost use Rattle.fed_record.specs.Record.{AreCovered};
ghost use Rattle.fed_record.specs.JobParts.{AreRecordParts, fields_set, record_of};
ghost use Rattle.fed_record.specs.JobRecord.{job_reads};
ghost use Rattle.fed_model.specs.Letter.{is_submitted};

use crate::records::{JobFields, JobRecord, JobStages};
use fed_lattice::{Causal, Flag, NoMemory, Register, Stage};
use fed_model::{
    Account, Beginning, Ending, Fields, GrantStage, HoldKind, Limit, Nodes, Priority, Stages,
};
use fed_stamp::{SiteId, Stamp, Version, Word, site_is_in_range};
use fed_tags::TagSet;
use std::alloc::Global;

/// The fields of a submitted job, each beside the stamp of the operation that set it.
pub type FieldParts = Fields<
    (Stamp, Word),
    (Stamp, Word),
    (Stamp, Priority),
    (Stamp, Nodes),
    (Stamp, Limit),
    (Stamp, Account),
>;

/// Whether a job is deleted, the greatest stage of its grants, or none where it was never granted, and its Begin and its
/// Finish, each with its stamp.
pub type StageParts = Stages<
    bool,
    Option<GrantStage>,
    Option<(Stamp, Beginning)>,
    Option<(Stamp, Ending)>,
>;

/// What a record of a submitted job reads as. Its holds, its sites and its letter follow from these.
#[derive(Clone, Copy)]
pub struct JobParts<'a> {
    /// The fields.
    pub fields: FieldParts,
    /// The live pairs of holds, strictly ascending by kind and then by stamp.
    pub hold_tags: &'a [(HoldKind, Stamp)],
    /// The live pairs of sites, strictly ascending by site and then by stamp.
    pub site_tags: &'a [(SiteId, Stamp)],
    /// The stages.
    pub stages: StageParts,
    /// For each site the greatest counter among the stamps of the job's operations. It covers every tag.
    pub touched: Version,
}

// Whether the version covers the stamp of each pair.
fn covers_pairs<T: Copy>(version: &Version, pairs: &[(T, Stamp)]) -> bool
    ensures { IsTrue result ↔ AreCovered version.now pairs.now }
{
    for pair in pairs {
        let stamp = pair.1;
        site_is_in_range(stamp.site());
        if !version.covers(stamp) {
            return false;
        }
    }
    true
}

impl JobParts<'_> {
    /// Whether a record can be made of the parts, as `JobRecord::from_parts` asks: the pairs of `hold_tags` and of
    /// `site_tags` strictly ascend, and `touched` covers the stamp of each pair.
    pub fn are_record_parts(&self) -> bool
        ensures { IsTrue result ↔ AreRecordParts self.now }
    {
        TagSet::is_ascending(self.hold_tags)
            && TagSet::is_ascending(self.site_tags)
            && covers_pairs(&self.touched, self.hold_tags)
            && covers_pairs(&self.touched, self.site_tags)
    }
}

// The registers of a job.
fn fields_of(fields: &FieldParts) -> JobFields
    ensures { result ≡ fields_set fields.now }
{
    Fields {
        owner: Register::new(Some(fields.owner)),
        name: Register::new(Some(fields.name)),
        priority: Register::new(Some(fields.priority)),
        nodes: Register::new(Some(fields.nodes)),
        limit: Register::new(Some(fields.limit)),
        account: Register::new(Some(fields.account)),
    }
}

// The stages of a job.
fn stages_of(stages: &StageParts) -> JobStages
    ensures { result ≡ stages.now }
{
    Stages {
        deleted: Flag::new(stages.deleted),
        grant: Stage::new(stages.grant),
        begun: Register::new(stages.begun),
        finished: Register::new(stages.finished),
    }
}

impl JobRecord {
    /// The record that reads as the parts. It asks that the pairs of `hold_tags` and of `site_tags` strictly ascend, by
    /// element and then by stamp, and that `touched` covers the stamp of each pair. The record is well formed and of a
    /// job that is submitted, as every record on a board is. The only error is `NoMemory`.
    pub fn from_parts(alloc: Global, parts: &JobParts) -> Result<JobRecord, NoMemory>
        requires holds_ascend { IsStrictlySortedBy (pair_cmp kind_cmp) parts.now.hold_tags.now }
        requires sites_ascend { IsStrictlySortedBy (pair_cmp nat_cmp) parts.now.site_tags.now }
        requires holds_covered { AreCovered parts.now.touched parts.now.hold_tags.now }
        requires sites_covered { AreCovered parts.now.touched parts.now.site_tags.now }
        ensures made { IfOk result (λ r. r ≡ record_of parts.now) }
        ensures well_formed { IfOk result ⟦<JobRecord as Causal>⟧.well_formed }
        ensures submitted { IfOk result (λ r. IsTrue (is_submitted (job_reads r))) }
    {
        Ok(JobRecord {
            alloc,
            fields: fields_of(&parts.fields),
            holds: TagSet::from_pairs(alloc, parts.hold_tags)?,
            sites: TagSet::from_pairs(alloc, parts.site_tags)?,
            stages: stages_of(&parts.stages),
            touched: parts.touched,
        })
    }
}
