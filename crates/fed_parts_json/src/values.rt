//! The values of the parts of a job.
ghost use Rattle.std.specs.Prelude.{◌≡◌, ◌∷◌, [], length, map, IfOk, None, Some};
ghost use Rattle.serde_json.specs.Data.{string};
ghost use Rattle.serde_json.specs.View.{view};
ghost use Rattle.fed_json.specs.Numbers.{natural_value, integer_value};
ghost use Rattle.fed_json.specs.Values.{list_value, pair_value};
ghost use Rattle.fed_job_json.specs.Stamps.{stamp_value, version_value};
ghost use Rattle.fed_job_json.specs.Fields.{field_value, account_value};
ghost use Rattle.fed_job_json.specs.Grants.{stage_value, grant_value};
ghost use Rattle.fed_job_json.specs.Progress.{begun_values, done_value, progress_value};
ghost use Rattle.fed_job_json.specs.Pairs.{kind_word, kind_value, holds_value, sites_value};

use fed_job_json::Format;
use fed_record::{
    Account, Beginning, Ending, GrantStage, HoldKind, JobRecord, Limit, Nodes, Priority, Progress,
};
use fed_stamp::{SITES, SiteId, Stamp, Version, Word};
use serde_json::{Value, json};
use std::alloc::{AllocError, Global};

// An array of two, with room for no more.
fn pair(alloc: Global, first: Value, second: Value) -> Result<Value, AllocError>
    ensures { IfOk result (λ v. view v ≡ list_value (view first ∷ view second ∷ [])) }
{
    Ok(Value::Array(vec![in alloc; first, second]?))
}

/// A stamp.
pub fn write_stamp(alloc: Global, stamp: Stamp) -> Result<Value, AllocError>
    ensures { IfOk result (λ v. view v ≡ stamp_value stamp) }
{
    let counter = Value::from(stamp.counter());
    let site = Value::from(stamp.site().get());
    pair(alloc, counter, site)
}

/// A version.
pub fn write_version(alloc: Global, version: &Version) -> Result<Value, AllocError>
    requires { length version.now ≡ SITES }
    ensures { IfOk result (λ v. view v ≡ version_value version.now) }
{
    let mut counters = Vec::with_capacity(alloc, SITES)?;
    for number in 0..SITES as u8 {
        let site = SiteId::new(number).unwrap();
        counters.push(Value::from(version.get(site)))?;
    }
    Ok(Value::Array(counters))
}

pub(crate) fn name(alloc: Global, field: (Stamp, Word)) -> Result<Value, AllocError>
    ensures { IfOk result (λ v. view v ≡ field_value string (Some field)) }
{
    let (at, name) = field;
    let name = Value::try_from_str(alloc, name.as_str())?;
    pair(alloc, name, write_stamp(alloc, at)?)
}

pub(crate) fn priority(alloc: Global, field: (Stamp, Priority)) -> Result<Value, AllocError>
    ensures { IfOk result (λ v. view v ≡ field_value integer_value (Some field)) }
{
    let (at, priority) = field;
    let priority = Value::from(priority.get());
    pair(alloc, priority, write_stamp(alloc, at)?)
}

pub(crate) fn nodes(alloc: Global, field: (Stamp, Nodes)) -> Result<Value, AllocError>
    ensures { IfOk result (λ v. view v ≡ field_value natural_value (Some field)) }
{
    let (at, nodes) = field;
    let nodes = Value::from(nodes.get());
    pair(alloc, nodes, write_stamp(alloc, at)?)
}

pub(crate) fn limit(alloc: Global, field: (Stamp, Limit)) -> Result<Value, AllocError>
    ensures { IfOk result (λ v. view v ≡ field_value natural_value (Some field)) }
{
    let (at, limit) = field;
    let limit = Value::from(limit.get());
    pair(alloc, limit, write_stamp(alloc, at)?)
}

pub(crate) fn account(alloc: Global, field: (Stamp, Account)) -> Result<Value, AllocError>
    ensures { IfOk result (λ v. view v ≡ field_value account_value (Some field)) }
{
    let (at, account) = field;
    let account = Value::try_from_str(alloc, account.as_str())?;
    pair(alloc, account, write_stamp(alloc, at)?)
}

fn stage(alloc: Global, stage: GrantStage) -> Result<Value, AllocError>
    ensures { IfOk result (λ v. view v ≡ stage_value Format.Two stage) }
{
    match stage {
        GrantStage::Open { term, stamp, site } => {
            json!(in alloc; ["open", term.get(), write_stamp(alloc, stamp)?, site.get()])
        }
        GrantStage::Returned { term, stamp } => {
            json!(in alloc; ["returned", term.get(), write_stamp(alloc, stamp)?])
        }
    }
}

pub(crate) fn grant(alloc: Global, grant: Option<GrantStage>) -> Result<Value, AllocError>
    ensures { IfOk result (λ v. view v ≡ grant_value Format.Two grant) }
{
    match grant {
        Some(grant) => stage(alloc, grant),
        None => Ok(Value::Null),
    }
}

// The parts of a Begin, after a word.
fn begun_parts(
    alloc: Global,
    word: &str,
    begun: (Stamp, Beginning),
) -> Result<Vec<Value>, AllocError>
    ensures { IfOk result (λ v. map view v.items ≡ string word.now ∷ begun_values begun []) }
{
    let (at, begin) = begun;
    let word = Value::try_from_str(alloc, word)?;
    let stamp = write_stamp(alloc, at)?;
    let moment = Value::from(begin.moment.get());
    let nodes = Value::from(begin.nodes.get());
    Ok(vec![in alloc; word, stamp, moment, nodes, Value::from(begin.end)]?)
}

fn begun(alloc: Global, begun: (Stamp, Beginning)) -> Result<Value, AllocError>
    ensures { IfOk result (λ v. view v ≡ done_value (begun, None)) }
{
    Ok(Value::Array(begun_parts(alloc, "begun", begun)?))
}

fn finished(
    alloc: Global,
    begun: (Stamp, Beginning),
    finished: (Stamp, Ending),
) -> Result<Value, AllocError>
    ensures { IfOk result (λ v. view v ≡ done_value (begun, Some finished)) }
{
    let (last, end) = finished;
    let mut parts = begun_parts(alloc, "finished", begun)?;
    parts.push(write_stamp(alloc, last)?)?;
    parts.push(Value::from(end.moment.get()))?;
    parts.push(Value::from(end.status))?;
    Ok(Value::Array(parts))
}

pub(crate) fn progress(alloc: Global, progress: Progress) -> Result<Value, AllocError>
    ensures { IfOk result (λ v. view v ≡ progress_value (progress.begun, progress.finished)) }
{
    match (progress.begun, progress.finished) {
        (None, _) => Ok(Value::Null),
        (Some(begin), None) => begun(alloc, begin),
        (Some(begin), Some(end)) => finished(alloc, begin, end),
    }
}

fn word(kind: HoldKind) -> &'static str
    ensures { result.now ≡ kind_word kind }
{
    match kind {
        HoldKind::User => "u",
        HoldKind::Operator => "o",
        HoldKind::System => "s",
    }
}

fn hold(alloc: Global, kind: HoldKind, stamp: Stamp) -> Result<Value, AllocError>
    ensures { IfOk result (λ v. view v ≡ pair_value kind_value stamp_value (kind, stamp)) }
{
    let word = Value::try_from_str(alloc, word(kind))?;
    pair(alloc, word, write_stamp(alloc, stamp)?)
}

fn site(alloc: Global, site: SiteId, stamp: Stamp) -> Result<Value, AllocError>
    ensures { IfOk result (λ v. view v ≡ pair_value natural_value stamp_value (site, stamp)) }
{
    let site = Value::from(site.get());
    pair(alloc, site, write_stamp(alloc, stamp)?)
}

pub(crate) fn holds(alloc: Global, job: &JobRecord) -> Result<Value, AllocError>
    ensures { IfOk result (λ v. view v ≡ holds_value job.now.holds) }
{
    let mut values = Vec::new(alloc);
    for (kind, stamp) in job.hold_tags() {
        values.push(hold(alloc, kind, stamp)?)?;
    }
    Ok(Value::Array(values))
}

pub(crate) fn sites(alloc: Global, job: &JobRecord) -> Result<Value, AllocError>
    ensures { IfOk result (λ v. view v ≡ sites_value job.now.sites) }
{
    let mut values = Vec::new(alloc);
    for (number, stamp) in job.site_tags() {
        values.push(site(alloc, number, stamp)?)?;
    }
    Ok(Value::Array(values))
}
