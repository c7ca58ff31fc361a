//! What an operation changes in each part of a job's record.
ghost use Rattle.std.specs.Prelude.{◌≡◌, ℕ, IfOk, filter};
ghost use Rattle.std.specs.List.{range_with_len};
ghost use Rattle.fed_stamp.specs.declared.sites.TheConstants.{SITES};
ghost use Rattle.fed_record.specs.Operation.{body_of};
ghost use Rattle.fed_stamp.specs.SiteSet.{has as has_site};
ghost use Rattle.fed_model.specs.Pairs.{adds_hold as is_hold_added, adds_site as is_site_added, is_site_named};
ghost use Rattle.fed_model.specs.Hold.{all_kinds};
ghost use Rattle.fed_record.specs.Changes.{field_changes_of, stage_changes_of, removed_holds as holds_removed, removed_sites as sites_removed};

use crate::operations::{JobOperation, Operation};
use fed_lattice::NoMemory;
use fed_model::{
    Account, Beginning, Ending, Fields, GrantStage, HoldKind, Limit, Nodes, Priority, Stages,
};
use fed_stamp::{SITES, SiteId, SiteSet, Stamp, Word};
use std::alloc::Global;

/// What changes in each field of a job, if anything does.
pub type JobFieldChanges = Fields<
    Option<Word>,
    Option<Word>,
    Option<Priority>,
    Option<Nodes>,
    Option<Limit>,
    Option<Account>,
>;

/// What changes in each stage of a job, if anything does.
pub type JobStageChanges = Stages<
    Option<()>,
    Option<GrantStage>,
    Option<Beginning>,
    Option<Ending>,
>;

/// What the operation changes in the fields.
pub(crate) fn field_changes(operation: &Operation) -> JobFieldChanges
    ensures { result ≡ field_changes_of operation.now }
{
    match operation {
        Operation::Submit { owner, values, .. } => Fields {
            owner: Some(*owner),
            name: Some(values.name),
            priority: Some(values.priority),
            nodes: Some(values.nodes),
            limit: Some(values.limit),
            account: Some(values.account),
        },
        Operation::OfJob(_, JobOperation::Set { changes, .. }) => Fields {
            owner: None,
            name: changes.name,
            priority: changes.priority,
            nodes: changes.nodes,
            limit: changes.limit,
            account: changes.account,
        },
        _ => Fields {
            owner: None,
            name: None,
            priority: None,
            nodes: None,
            limit: None,
            account: None,
        },
    }
}

/// What the operation with the stamp changes in the stages.
pub(crate) fn stage_changes(at: Stamp, operation: &Operation) -> JobStageChanges
    ensures { result ≡ stage_changes_of (at, operation.now) }
{
    let none = Stages {
        deleted: None,
        grant: None,
        begun: None,
        finished: None,
    };
    let Operation::OfJob(_, what) = operation else {
        return none;
    };
    match what {
        JobOperation::Delete => Stages {
            deleted: Some(()),
            ..none
        },
        JobOperation::Grant { site, term } => Stages {
            grant: Some(GrantStage::Open {
                term: *term,
                stamp: at,
                site: *site,
            }),
            ..none
        },
        JobOperation::HandBack { term } => Stages {
            grant: Some(GrantStage::Returned {
                term: *term,
                stamp: at,
            }),
            ..none
        },
        JobOperation::Begin { beginning } => Stages {
            begun: Some(*beginning),
            ..none
        },
        JobOperation::Finish { ending } => Stages {
            finished: Some(*ending),
            ..none
        },
        _ => none,
    }
}

/// Whether the operation adds the hold.
fn adds_hold(operation: &Operation, kind: HoldKind) -> bool
    ensures { result ≡ is_hold_added (body_of operation.now) kind }
{
    match operation {
        Operation::Submit { held, .. } => matches!(kind, HoldKind::User) && *held,
        Operation::OfJob(_, JobOperation::Hold { kinds }) => kinds.has(kind),
        _ => false,
    }
}

/// The set of the sites that the operation adds, if it adds any.
fn named_sites(operation: &Operation) -> Option<SiteSet>
    ensures { (site : ℕ) → is_site_added (body_of operation.now) site ≡ is_site_named result site }
{
    match operation {
        Operation::Submit { values, .. } => Some(values.sites),
        Operation::OfJob(_, JobOperation::Set { changes, .. }) => changes.sites,
        _ => None,
    }
}

/// The sites of a set, in the order of their numbers.
fn members(alloc: Global, sites: &SiteSet) -> Result<Vec<SiteId>, NoMemory>
    ensures { IfOk result (λ v. v.items ≡ filter (has_site sites.now) (range_with_len 0 SITES)) }
{
    let mut members = Vec::new(alloc);
    for number in 0..SITES as u8 {
        let site = SiteId::new(number).unwrap();
        if sites.has(site) {
            members.push(site)?;
        }
    }
    Ok(members)
}

/// The holds that the operation adds.
pub(crate) fn added_holds(alloc: Global, operation: &Operation) -> Result<Vec<HoldKind>, NoMemory>
    ensures { IfOk result (λ v. v.items ≡ filter (is_hold_added (body_of operation.now)) all_kinds) }
{
    let kinds = [HoldKind::User, HoldKind::Operator, HoldKind::System];
    Ok(
        kinds
            .iter()
            .copied()
            .filter(|kind| adds_hold(operation, *kind))
            .collect(alloc)?,
    )
}

/// The sites that the operation adds.
pub(crate) fn added_sites(alloc: Global, operation: &Operation) -> Result<Vec<SiteId>, NoMemory>
    ensures { IfOk result (λ v. v.items ≡ filter (is_site_added (body_of operation.now)) (range_with_len 0 SITES)) }
{
    match named_sites(operation) {
        Some(sites) => members(alloc, &sites),
        None => Ok(Vec::new(alloc)),
    }
}

/// The pairs of holds that the operation removes.
pub(crate) fn removed_holds(operation: &Operation) -> &[(HoldKind, Stamp)]
    ensures { result.now ≡ holds_removed operation.now }
{
    match operation {
        Operation::OfJob(_, JobOperation::Release { removed }) => removed,
        _ => &[],
    }
}

/// The pairs of sites that the operation removes.
pub(crate) fn removed_sites(operation: &Operation) -> &[(SiteId, Stamp)]
    ensures { result.now ≡ sites_removed operation.now }
{
    match operation {
        Operation::OfJob(_, JobOperation::Set { removed, .. }) => removed,
        _ => &[],
    }
}
