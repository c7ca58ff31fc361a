//! The values of the parts of a job.
ghost use Rattle.std.specs.Prelude.{◌≡◌, ◌++◌, ◌∷◌, [], IfOk, OnOk, map, if◌then◌else◌};
ghost use Rattle.serde_json.specs.View.{view};
ghost use Rattle.fed_record.specs.JobRecord.{job_reads};
ghost use Rattle.fed_model.specs.Letter.{has_site};
ghost use Rattle.fed_looks.specs.JobObject.{begun_data, finished_data, grant_data, hold_data, holder_data, kinds_data, letter_data, site_data, sites_data};

use fed_qstat::{letter_sign, site_text};
use fed_record::{Beginning, Ending, GrantStage, JobRecord, Letter};
use fed_stamp::{Roster, SITES, SiteId, Stamp};
use serde_json::{Value, json};
use std::alloc::{AllocError, Global};

/// The letter, or null where the job is gone.
pub(crate) fn letter(alloc: Global, letter: Option<Letter>) -> Result<Value, AllocError>
    ensures { IfOk result (λ v. view v ≡ letter_data letter) }
{
    match letter {
        Some(letter) => Value::try_from_str(alloc, letter_sign(letter)),
        None => Ok(Value::Null),
    }
}

/// The name of a site.
fn site(alloc: Global, roster: &Roster, site: SiteId) -> Result<Value, AllocError>
    ensures { IfOk result (λ v. view v ≡ site_data roster.now site) }
{
    let name = site_text(alloc, roster, site)?;
    Value::try_from_str(alloc, name.as_str())
}

/// The Begin, or null where there is none.
pub(crate) fn begun(
    alloc: Global,
    roster: &Roster,
    begun: Option<(Stamp, Beginning)>,
) -> Result<Value, AllocError>
    ensures { IfOk result (λ v. view v ≡ begun_data roster.now begun) }
{
    match begun {
        Some((stamp, beginning)) => json!(in alloc; {
            "end": beginning.end,
            "moment": beginning.moment.get(),
            "nodes": beginning.nodes.get(),
            "site": site(alloc, roster, stamp.site())?,
        }),
        None => Ok(Value::Null),
    }
}

/// The Finish, or null where there is none.
pub(crate) fn finished(
    alloc: Global,
    finished: Option<(Stamp, Ending)>,
) -> Result<Value, AllocError>
    ensures { IfOk result (λ v. view v ≡ finished_data finished) }
{
    match finished {
        Some((_, ending)) => json!(in alloc; {
            "moment": ending.moment.get(),
            "status": ending.status,
        }),
        None => Ok(Value::Null),
    }
}

fn holder(alloc: Global, roster: &Roster, holder: Option<SiteId>) -> Result<Value, AllocError>
    ensures { IfOk result (λ v. view v ≡ holder_data roster.now holder) }
{
    match holder {
        Some(holder) => site(alloc, roster, holder),
        None => Ok(Value::Null),
    }
}

/// The grant of greatest term, or null where there is none.
pub(crate) fn grant(
    alloc: Global,
    roster: &Roster,
    grant: Option<GrantStage>,
) -> Result<Value, AllocError>
    ensures { IfOk result (λ v. view v ≡ grant_data roster.now grant) }
{
    match grant {
        Some(stage) => json!(in alloc; {
            "site": holder(alloc, roster, stage.holder())?,
            "term": stage.term().get(),
        }),
        None => Ok(Value::Null),
    }
}

/// Adds the letter of a kind of holds, if one of them is present.
fn push_kind(
    alloc: Global,
    values: &mut Vec<Value>,
    is_present: bool,
    letter: &str,
) -> Result<(), AllocError>
    ensures { OnOk result (map view values.new.items ≡ map view values.old.items ++ hold_data is_present letter.now) }
{
    if is_present {
        values.push(Value::try_from_str(alloc, letter)?)?;
    }
    Ok(())
}

/// The kinds of holds that are present, in the order u, o, s.
#[tactic(auto, using(std::proofs::Common::append_assoc))]
pub(crate) fn kinds(
    alloc: Global,
    user: bool,
    operator: bool,
    system: bool,
) -> Result<Value, AllocError>
    ensures { IfOk result (λ v. view v ≡ kinds_data user operator system) }
{
    let mut kinds = Vec::new(alloc);
    push_kind(alloc, &mut kinds, user, "u")?;
    push_kind(alloc, &mut kinds, operator, "o")?;
    push_kind(alloc, &mut kinds, system, "s")?;
    Ok(Value::Array(kinds))
}

/// Adds the name of the site, if the job may run there.
fn push_site(
    alloc: Global,
    values: &mut Vec<Value>,
    roster: &Roster,
    job: &JobRecord,
    number: SiteId,
) -> Result<(), AllocError>
    ensures { OnOk result (map view values.new.items ≡ map view values.old.items
        ++ (if has_site (job_reads job.now) number then site_data roster.now number ∷ [] else [])) }
{
    if job.has_site(number) {
        values.push(site(alloc, roster, number)?)?;
    }
    Ok(())
}

/// The names of the sites that a job may run at, in the order of their numbers.
pub(crate) fn sites(alloc: Global, roster: &Roster, job: &JobRecord) -> Result<Value, AllocError>
    ensures { IfOk result (λ v. view v ≡ sites_data roster.now (job_reads job.now)) }
{
    let mut values = Vec::new(alloc);
    for number in 0..SITES as u8 {
        let site = SiteId::new(number).unwrap();
        push_site(alloc, &mut values, roster, job, site)?;
    }
    Ok(Value::Array(values))
}
