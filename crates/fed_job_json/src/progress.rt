//! The Begin and the Finish of a job read from a JSON value.
ghost use Rattle.std.specs.Prelude.{◌≡◌, None, Some, length, map};
ghost use Rattle.serde_json.specs.View.{view};
ghost use Rattle.fed_lattice.specs.Results.{mapped};
ghost use Rattle.fed_json.specs.Reading.{both as read_both};
ghost use Rattle.fed_json.specs.Numbers.{natural_in};
ghost use Rattle.fed_job_json.specs.Progress.{begun_of, finished_of, done_from, done_of, progress_of};

use crate::stamps::read_stamp;
use fed_json::{Flaw, both, elements, is_word, natural};
use fed_record::{Beginning, Ending, MAX_END, MAX_MOMENT, MAX_STATUS, Moment, Nodes, Progress};
use fed_stamp::{MAX_NODES, Stamp};
use serde_json::Value;

fn moment(value: &Value) -> Result<Moment, Flaw>
    ensures { result ≡ natural_in 0 MAX_MOMENT (view value.now) }
{
    Moment::new(natural(value, 0, MAX_MOMENT)?).ok_or(Flaw::Range)
}

fn nodes(value: &Value) -> Result<Nodes, Flaw>
    ensures { result ≡ natural_in 1 MAX_NODES (view value.now) }
{
    Nodes::new(natural(value, 1, MAX_NODES)?).ok_or(Flaw::Range)
}

fn status(value: &Value) -> Result<u8, Flaw>
    ensures { result ≡ natural_in 0 MAX_STATUS (view value.now) }
{
    let number = natural(value, 0, u64::from(MAX_STATUS))?;
    Ok(number as u8)
}

fn begun(
    stamp: &Value,
    at: &Value,
    nodes_value: &Value,
    end: &Value,
) -> Result<(Stamp, Beginning), Flaw>
    ensures { result ≡ begun_of (view stamp.now) (view at.now) (view nodes_value.now) (view end.now) }
{
    let numbers = both(nodes(nodes_value), natural(end, 0, MAX_END));
    let (stamp, (moment, (nodes, end))) = both(read_stamp(stamp), both(moment(at), numbers))?;
    if moment.get() >= end {
        return Err(Flaw::Range);
    }
    Ok((stamp, Beginning { moment, nodes, end }))
}

fn finished(stamp: &Value, at: &Value, status_value: &Value) -> Result<(Stamp, Ending), Flaw>
    ensures { result ≡ finished_of (view stamp.now) (view at.now) (view status_value.now) }
{
    let (stamp, (moment, status)) = both(
        read_stamp(stamp),
        both(moment(at), status(status_value)),
    )?;
    Ok((stamp, Ending { moment, status }))
}

fn begun_alone(
    stamp: &Value,
    at: &Value,
    nodes: &Value,
    end: &Value,
) -> Result<((Stamp, Beginning), Option<(Stamp, Ending)>), Flaw>
    ensures { result ≡ mapped (λ p. (p, None)) (begun_of (view stamp.now) (view at.now) (view nodes.now) (view end.now)) }
{
    Ok((begun(stamp, at, nodes, end)?, None))
}

fn begun_and_finished(
    begun: Result<(Stamp, Beginning), Flaw>,
    finished: Result<(Stamp, Ending), Flaw>,
) -> Result<((Stamp, Beginning), Option<(Stamp, Ending)>), Flaw>
    ensures { result ≡ mapped (λ p. (p.0, Some p.1)) (read_both begun finished) }
{
    let (begun, finished) = both(begun, finished)?;
    Ok((begun, Some(finished)))
}

fn five(values: &[Value]) -> Result<((Stamp, Beginning), Option<(Stamp, Ending)>), Flaw>
    requires { length values.now ≡ 5 }
    ensures { result ≡ done_from (map view values.now) }
{
    match values {
        [word, stamp, moment, nodes, end] if is_word(word, "begun") => {
            begun_alone(stamp, moment, nodes, end)
        }
        _ => Err(Flaw::Shape),
    }
}

fn eight(values: &[Value]) -> Result<((Stamp, Beginning), Option<(Stamp, Ending)>), Flaw>
    requires { length values.now ≡ 8 }
    ensures { result ≡ done_from (map view values.now) }
{
    match values {
        [word, stamp, moment, nodes, end, after, last, status] if is_word(word, "finished") => {
            let begun = begun(stamp, moment, nodes, end);
            begun_and_finished(begun, finished(after, last, status))
        }
        _ => Err(Flaw::Shape),
    }
}

fn done(value: &Value) -> Result<((Stamp, Beginning), Option<(Stamp, Ending)>), Flaw>
    ensures { result ≡ done_of (view value.now) }
{
    let values = elements(value)?;
    if values.len() == 5 {
        five(values)
    } else if values.len() == 8 {
        eight(values)
    } else {
        Err(Flaw::Shape)
    }
}

/// How far a job has come.
pub fn progress(value: &Value) -> Result<Progress, Flaw>
    ensures { mapped (λ p. (p.begun, p.finished)) result ≡ progress_of (view value.now) }
{
    if value.is_null() {
        return Ok(Progress {
            begun: None,
            finished: None,
        });
    }
    let (begun, finished) = done(value)?;
    Ok(Progress {
        begun: Some(begun),
        finished,
    })
}
