//! Who may do what.
ghost use Rattle.std.specs.Prelude.{◌≡◌, ◌||◌, not, IsTrue};
ghost use Rattle.fed_model.specs.Hold.{has_kind};
ghost use Rattle.fed_record.specs.JobRecord.{job_reads};
ghost use Rattle.fed_model.specs.Letter.{is_submitted};
ghost use Rattle.fed_model.specs.Permission.{is_administrator as is_role_administrator, is_operator as is_role_operator, may_alter as may_be_altered, may_hold as may_be_held, may_hold_all as may_all_be_held};

use fed_record::{HoldKind, HoldKinds, JobRecord, Role, Who};

/// Whether the role may do what an operator may.
pub(crate) fn is_operator(role: Role) -> bool
    ensures { result ≡ is_role_operator role }
{
    match role {
        Role::User => false,
        Role::Operator | Role::Administrator => true,
    }
}

/// Whether the role may do what an administrator may.
fn is_administrator(role: Role) -> bool
    ensures { result ≡ is_role_administrator role }
{
    match role {
        Role::User | Role::Operator => false,
        Role::Administrator => true,
    }
}

/// Whether somebody may alter and delete the job.
pub(crate) fn may_alter(who: &Who, job: &JobRecord) -> bool
    requires { IsTrue (is_submitted (job_reads job.now)) }
    ensures { result ≡ may_be_altered who.now (job_reads job.now) }
{
    let (_stamp, owner) = job.owner();
    owner == who.user || is_operator(who.role)
}

/// Whether somebody may set and release holds of the kind.
fn may_hold(who: &Who, job: &JobRecord, kind: HoldKind) -> bool
    requires { IsTrue (is_submitted (job_reads job.now)) }
    ensures { result ≡ may_be_held who.now (job_reads job.now) kind }
{
    match kind {
        HoldKind::User => may_alter(who, job),
        HoldKind::Operator => is_operator(who.role),
        HoldKind::System => is_administrator(who.role),
    }
}

/// Whether the kind is not among the kinds, or somebody may set and release holds of it.
fn may_hold_if(who: &Who, job: &JobRecord, kinds: HoldKinds, kind: HoldKind) -> bool
    requires { IsTrue (is_submitted (job_reads job.now)) }
    ensures { result ≡ (not (has_kind kinds kind) || may_be_held who.now (job_reads job.now) kind) }
{
    !kinds.has(kind) || may_hold(who, job, kind)
}

/// Whether somebody may set and release holds of each of the kinds.
pub(crate) fn may_hold_all(who: &Who, job: &JobRecord, kinds: HoldKinds) -> bool
    requires { IsTrue (is_submitted (job_reads job.now)) }
    ensures { result ≡ may_all_be_held who.now (job_reads job.now) kinds }
{
    may_hold_if(who, job, kinds, HoldKind::User)
        && may_hold_if(who, job, kinds, HoldKind::Operator)
        && may_hold_if(who, job, kinds, HoldKind::System)
}
