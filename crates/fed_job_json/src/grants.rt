//! The stage of a job's grants read from a JSON value.
ghost use Rattle.std.specs.Prelude.{◌≡◌, length, map};
ghost use Rattle.serde_json.specs.View.{view};
ghost use Rattle.fed_lattice.specs.Results.{mapped};
ghost use Rattle.fed_json.specs.Reading.{both as read_both};
ghost use Rattle.fed_job_json.specs.Stamps.{stamp_of, site_of};
ghost use Rattle.fed_job_json.specs.Grants.{term_of, open_of, returned_of, stage_from, stage_of, grant_of};

use crate::formats::Format;
use crate::stamps::{read_site, read_stamp};
use fed_json::{Flaw, both, elements, is_word, natural};
use fed_record::{GrantStage, MAX_TERM, Term};
use serde_json::Value;

fn term(value: &Value) -> Result<Term, Flaw>
    ensures { result ≡ term_of (view value.now) }
{
    Term::new(natural(value, 1, MAX_TERM)?).ok_or(Flaw::Range)
}

fn open(term_value: &Value, stamp: &Value, site: &Value) -> Result<GrantStage, Flaw>
    ensures { result ≡ open_of (view term_value.now) (view stamp.now) (view site.now) }
{
    let (term, (stamp, site)) = both(term(term_value), both(read_stamp(stamp), read_site(site)))?;
    Ok(GrantStage::Open { term, stamp, site })
}

fn first_open(stamp: &Value, site: &Value) -> Result<GrantStage, Flaw>
    ensures { result ≡ mapped (λ p. GrantStage.Open 1 p.0 p.1) (read_both (stamp_of (view stamp.now)) (site_of (view site.now))) }
{
    let (stamp, site) = both(read_stamp(stamp), read_site(site))?;
    let term = Term::new(1).ok_or(Flaw::Range)?;
    Ok(GrantStage::Open { term, stamp, site })
}

fn returned(term_value: &Value, stamp: &Value) -> Result<GrantStage, Flaw>
    ensures { result ≡ returned_of (view term_value.now) (view stamp.now) }
{
    let (term, stamp) = both(term(term_value), read_stamp(stamp))?;
    Ok(GrantStage::Returned { term, stamp })
}

fn stage_of_one(value: &Value) -> Result<GrantStage, Flaw>
    ensures { result ≡ stage_of Format.One (view value.now) }
{
    match elements(value)? {
        [stamp, site] => first_open(stamp, site),
        _ => Err(Flaw::Shape),
    }
}

fn four(values: &[Value]) -> Result<GrantStage, Flaw>
    requires { length values.now ≡ 4 }
    ensures { result ≡ stage_from Format.Two (map view values.now) }
{
    match values {
        [word, term, stamp, site] if is_word(word, "open") => open(term, stamp, site),
        _ => Err(Flaw::Shape),
    }
}

fn three(values: &[Value]) -> Result<GrantStage, Flaw>
    requires { length values.now ≡ 3 }
    ensures { result ≡ stage_from Format.Two (map view values.now) }
{
    match values {
        [word, term, stamp] if is_word(word, "returned") => returned(term, stamp),
        _ => Err(Flaw::Shape),
    }
}

fn stage_of_two(value: &Value) -> Result<GrantStage, Flaw>
    ensures { result ≡ stage_of Format.Two (view value.now) }
{
    let values = elements(value)?;
    if values.len() == 4 {
        four(values)
    } else if values.len() == 3 {
        three(values)
    } else {
        Err(Flaw::Shape)
    }
}

/// The greatest stage of a job's grants, or none.
pub fn grant(value: &Value, format: Format) -> Result<Option<GrantStage>, Flaw>
    ensures { result ≡ grant_of format (view value.now) }
{
    if value.is_null() {
        return Ok(None);
    }
    match format {
        Format::One => Ok(Some(stage_of_one(value)?)),
        Format::Two => Ok(Some(stage_of_two(value)?)),
    }
}
