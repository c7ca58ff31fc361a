//! Records of jobs: what is read of a job's operations, without them.
ghost use Rattle.std.specs.Prelude.{◌≡◌, OnOk, OnErr};
ghost use Rattle.std.specs.Ordering.{nat_cmp};
ghost use Rattle.fed_tags.specs.Tags.{pair_cmp, stamped as with_tag, inserted, applied_tags};
ghost use Rattle.fed_record.specs.Changes.{hold_change, site_change};
ghost use Rattle.fed_model.specs.Hold.{kind_cmp};
ghost use Rattle.fed_record.specs.JobRecordSteps.{IsJobRecord, empty_record, changed_record, joined_record, IsJobHistory, job_record_stands_for};
ghost use Rattle.fed_record.specs.JobRecordLaws.{same_job_fields, same_job_stages, same_job_record, tells_job_records, job_record_equality, empty_is_job_record, changed_is_job_record, joined_is_job_record, job_records_assoc, job_records_comm, job_records_itself, empty_records_join, empty_record_stands, job_record_adds_change, job_records_join_histories, job_record_stands_for_sets};

use crate::operation_changes::{
    added_holds, added_sites, field_changes, removed_holds, removed_sites, stage_changes,
};
use crate::operations::Operation;
use fed_lattice::{Causal, ExactEq, Flag, NoMemory, Register, Stage};
use fed_model::{
    Account, Beginning, Ending, Fields, GrantStage, HoldKind, Limit, Nodes, Priority, Stages,
    apply_inline, copy_inline, join_inline,
};
use fed_stamp::{SiteId, Stamp, Version, Word};
use fed_tags::TagSet;
use std::alloc::Global;
use std::marker::Model;

/// The fields of a job, each a register.
pub(crate) type JobFields = Fields<
    Register<Word>,
    Register<Word>,
    Register<Priority>,
    Register<Nodes>,
    Register<Limit>,
    Register<Account>,
>;

/// The flag of deletion, the stage of grants, and the registers of Begin and Finish.
pub(crate) type JobStages = Stages<Flag, Stage<GrantStage>, Register<Beginning>, Register<Ending>>;

/// What is read of the operations of one job: its fields, the live pairs of its holds and sites, its stages, and the
/// version of its operations.
#[derive(Drop)]
pub struct JobRecord {
    pub(crate) alloc: Global,
    // what each alteration looks at lies side by side
    pub(crate) fields: JobFields,
    pub(crate) stages: JobStages,
    pub(crate) touched: Version,
    pub(crate) holds: TagSet<HoldKind>,
    pub(crate) sites: TagSet<SiteId>,
}

impl Model for JobRecord {
    ghost use Rattle.fed_record.specs.Record.{AreCovered};
    ghost use Rattle.fed_record.specs.JobRecord.{JobRecordValue};

    ghost Value = { JobRecordValue };

    ghost view = { λ r. record {
      fields = r.fields;
      holds = r.holds;
      sites = r.sites;
      stages = r.stages;
      touched = r.touched;
    } };

    ghost invariant = { λ r. AreCovered r.touched r.holds × AreCovered r.touched r.sites };
}

/// Adds the elements with the stamp. On an error both sets are as before: the holds are copied where both sets grow.
fn add_tags(
    holds: &mut TagSet<HoldKind>,
    sites: &mut TagSet<SiteId>,
    at: Stamp,
    kinds: &[HoldKind],
    numbers: &[SiteId],
) -> Result<(), NoMemory>
    ensures holds { OnOk result (holds.new ≡ inserted (pair_cmp kind_cmp) holds.old (with_tag at kinds.now)) }
    ensures sites { OnOk result (sites.new ≡ inserted (pair_cmp nat_cmp) sites.old (with_tag at numbers.now)) }
    ensures holds_unchanged { OnErr result (holds.new ≡ holds.old) }
    ensures sites_unchanged { OnErr result (sites.new ≡ sites.old) }
{
    if kinds.is_empty() {
        return sites.add(numbers, at);
    }
    if numbers.is_empty() {
        return holds.add(kinds, at);
    }
    let mut changed = holds.copy()?;
    changed.add(kinds, at)?;
    sites.add(numbers, at)?;
    *holds = changed;
    Ok(())
}

/// Adds the pairs that the operation adds, and takes out those that it removes. On an error both sets are as before.
fn change_tags(
    alloc: Global,
    holds: &mut TagSet<HoldKind>,
    sites: &mut TagSet<SiteId>,
    at: Stamp,
    operation: &Operation,
) -> Result<(), NoMemory>
    ensures holds { OnOk result
        (holds.new ≡ applied_tags (pair_cmp kind_cmp) holds.old at (hold_change operation.now)) }
    ensures sites { OnOk result (sites.new ≡ applied_tags (pair_cmp nat_cmp) sites.old at (site_change operation.now)) }
    ensures holds_unchanged { OnErr result (holds.new ≡ holds.old) }
    ensures sites_unchanged { OnErr result (sites.new ≡ sites.old) }
{
    let kinds = added_holds(alloc, operation)?;
    let numbers = added_sites(alloc, operation)?;
    add_tags(holds, sites, at, &kinds, &numbers)?;
    holds.remove(removed_holds(operation));
    sites.remove(removed_sites(operation));
    Ok(())
}

impl JobRecord {
    ghost use Rattle.std.specs.Prelude.{◌&&◌, nat_eq};
    ghost use Rattle.std.specs.Ordering.{eq_by_cmp};
    ghost use Rattle.std.specs.Cmp.Lexicographic.{pointwise};

    // Half of `==`, so that each half names what it compares.
    fn has_same_values(&self, other: &Self) -> bool
        ensures { result ≡ (same_job_fields self.now.fields other.now.fields &&
            same_job_stages self.now.stages other.now.stages) }
    {
        self.fields == other.fields && self.stages == other.stages
    }

    // The other half of `==`.
    fn has_same_tags(&self, other: &Self) -> bool
        ensures { result ≡ ((pointwise (eq_by_cmp (pair_cmp kind_cmp)) self.now.holds other.now.holds &&
            pointwise (eq_by_cmp (pair_cmp nat_cmp)) self.now.sites other.now.sites) &&
            pointwise nat_eq self.now.touched other.now.touched) }
    {
        self.holds == other.holds && self.sites == other.sites && self.touched == other.touched
    }
}

/// Records are equal where all their parts are.
impl PartialEq for JobRecord {
    ghost eq = { same_job_record };

    ghost laws = { job_record_equality };

    fn eq(&self, other: &Self) -> bool {
        self.has_same_values(other) && self.has_same_tags(other)
    }
}

/// Two records are identical exactly where they are equal.
impl ExactEq for JobRecord {
    ghost exact_eq = { tells_job_records };
}

/// A change is an operation on the job. The fields and the stages are changed in place, once the pairs are.
impl Causal for JobRecord {
    type Change = Operation;

    ghost well_formed = { IsJobRecord };

    ghost bottom = { empty_record };

    ghost applied = { changed_record };

    ghost joined = { joined_record };

    ghost is_history = { IsJobHistory };

    ghost stands_for = { job_record_stands_for };

    ghost is_inline = { ⊥ };

    fn bottom(alloc: Global) -> Self {
        JobRecord {
            alloc,
            fields: JobFields::bottom(alloc),
            holds: TagSet::new(alloc),
            sites: TagSet::new(alloc),
            stages: JobStages::bottom(alloc),
            touched: Version::default(),
        }
    }

    fn copy(&self) -> Result<Self, NoMemory> {
        Ok(JobRecord {
            alloc: self.alloc,
            fields: copy_inline(&self.fields),
            holds: self.holds.copy()?,
            sites: self.sites.copy()?,
            stages: copy_inline(&self.stages),
            touched: self.touched,
        })
    }

    fn apply(&mut self, at: Stamp, change: &Operation) -> Result<(), NoMemory> {
        change_tags(self.alloc, &mut self.holds, &mut self.sites, at, change)?;
        apply_inline(&mut self.fields, at, &field_changes(change));
        apply_inline(&mut self.stages, at, &stage_changes(at, change));
        self.touched.raise(at);
        Ok(())
    }

    fn join(&self, mine: &Version, other: &Self, theirs: &Version) -> Result<Self, NoMemory> {
        Ok(JobRecord {
            alloc: self.alloc,
            fields: join_inline(&self.fields, mine, &other.fields, theirs),
            holds: self.holds.join(mine, &other.holds, theirs)?,
            sites: self.sites.join(mine, &other.sites, theirs)?,
            stages: join_inline(&self.stages, mine, &other.stages, theirs),
            touched: self.touched.join(&other.touched),
        })
    }

    ghost well_formed_bottom = { empty_is_job_record };

    ghost well_formed_applied = { changed_is_job_record };

    ghost well_formed_joined = { joined_is_job_record };

    ghost joined_assoc = { job_records_assoc };

    ghost joined_comm = { job_records_comm };

    ghost joined_itself = { job_records_itself };

    ghost joined_bottoms = { empty_records_join };

    ghost bottom_stands = { empty_record_stands };

    ghost applied_stands = { job_record_adds_change };

    ghost joined_stands = { job_records_join_histories };

    ghost stands_same = { job_record_stands_for_sets };
}
