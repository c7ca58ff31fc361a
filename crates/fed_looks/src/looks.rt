//! What words ask for a look.
ghost use Rattle.std.specs.Prelude.{◌≡◌, IfOk, option_map};
ghost use Rattle.fed_words.specs.Item.{words_of as texts_of};
ghost use Rattle.fed_script.specs.Forms.{one, two};
ghost use Rattle.fed_script.specs.Values.{identifier, moment as moment_of};
ghost use Rattle.fed_looks.specs.Look.{alone_of, charts, each, look_behind, look_in, machines, machines_json, may_be_left_out, plan_asked, plan_but, whys};
ghost use Rattle.fed_looks.specs.LookView.{asked_by};

use crate::look_words::LookWord;
use fed_lattice::NoMemory;
use fed_record::Moment;
use fed_script::{one_word, read_id, read_moment, two_words};
use fed_stamp::{JobId, Roster, SiteId};
use std::alloc::{AllocError, Global};

/// What an operator asks a site. A look changes nothing.
#[derive(Drop, Debug)]
pub enum Look {
    /// `why JOB MOMENT`: why a job stands where it does.
    Why { job: JobId, moment: Moment },
    /// `machine MOMENT`: the nodes, what runs on them and what is reserved.
    Machine { moment: Moment },
    /// `machine-json MOMENT`: the same, as a JSON object.
    MachineJson { moment: Moment },
    /// `reservations`: what is reserved at all sites.
    Reservations,
    /// `reservations-json`: the same, as a JSON array.
    ReservationsJson,
    /// `jobs [JOB ..]`: all that is known of these jobs, or of all where none is named.
    Jobs { jobs: Vec<JobId> },
    /// `seen`: what is seen of the sites.
    Seen,
    /// `seen-json`: the same, as a JSON array.
    SeenJson,
    /// `chart MOMENT`: a picture of the machine from the moment on.
    Chart { moment: Moment },
    /// `plan MOMENT but JOB ..`: the plan where these jobs, 1 to `MAX_LEFT_OUT`, are left out of the queue.
    Plan { moment: Moment, but: Vec<JobId> },
    /// `plan-json MOMENT [but JOB ..]`: the plan where these jobs, at most `MAX_LEFT_OUT`, are left out, as a JSON object.
    PlanJson { moment: Moment, but: Vec<JobId> },
    /// `roster`: the roster that the site knows.
    Roster,
}

/// The greatest number of jobs that a plan may be asked to leave out.
pub const MAX_LEFT_OUT: usize = 1_000;

/// `JOB MOMENT`
fn read_why(roster: &Roster, here: SiteId, words: &[&str]) -> Option<Look>
    ensures { option_map asked_by result ≡ two (identifier roster.now here) moment_of whys (texts_of words.now) }
{
    let (job, moment) = two_words(words)?;
    let job = read_id(roster, here, job)?;
    let moment = read_moment(moment)?;
    Some(Look::Why { job, moment })
}

/// `MOMENT`
fn read_machine(words: &[&str]) -> Option<Look>
    ensures { option_map asked_by result ≡ one moment_of machines (texts_of words.now) }
{
    let moment = read_moment(one_word(words)?)?;
    Some(Look::Machine { moment })
}

/// `MOMENT`
fn read_machine_json(words: &[&str]) -> Option<Look>
    ensures { option_map asked_by result ≡ one moment_of machines_json (texts_of words.now) }
{
    let moment = read_moment(one_word(words)?)?;
    Some(Look::MachineJson { moment })
}

/// `MOMENT`
fn read_chart(words: &[&str]) -> Option<Look>
    ensures { option_map asked_by result ≡ one moment_of charts (texts_of words.now) }
{
    let moment = read_moment(one_word(words)?)?;
    Some(Look::Chart { moment })
}

/// `JOB ..`
fn read_jobs(
    alloc: Global,
    roster: &Roster,
    here: SiteId,
    words: &[&str],
) -> Result<Option<Vec<JobId>>, AllocError>
    ensures { IfOk result (λ jobs. option_map (λ v. v.items) jobs ≡ each (identifier roster.now here) (texts_of words.now)) }
{
    let mut jobs = Vec::new(alloc);
    for word in words {
        let Some(job) = read_id(roster, here, word) else {
            return Ok(None);
        };
        jobs.push(job)?;
    }
    Ok(Some(jobs))
}

/// Whether a plan may be asked to leave out so many jobs.
fn may_leave_out(count: usize) -> bool
    ensures { result ≡ may_be_left_out count }
{
    1 <= count && count <= MAX_LEFT_OUT
}

/// `MOMENT but JOB ..`: the moment, and the jobs that are left out.
fn read_but(
    alloc: Global,
    roster: &Roster,
    here: SiteId,
    words: &[&str],
) -> Result<Option<(Moment, Vec<JobId>)>, AllocError>
    ensures { IfOk result (λ asked. option_map (λ p. (p.0, p.1.items)) asked ≡
        plan_but roster.now here (texts_of words.now)) }
{
    let Some((time, others)) = words.split_first() else {
        return Ok(None);
    };
    let Some((but, jobs)) = others.split_first() else {
        return Ok(None);
    };
    if *but != "but" || !may_leave_out(jobs.len()) {
        return Ok(None);
    }
    let Some(moment) = read_moment(time) else {
        return Ok(None);
    };
    match read_jobs(alloc, roster, here, jobs)? {
        Some(but) => Ok(Some((moment, but))),
        None => Ok(None),
    }
}

/// `MOMENT`, or `MOMENT but JOB ..`.
fn read_plan(
    alloc: Global,
    roster: &Roster,
    here: SiteId,
    words: &[&str],
) -> Result<Option<(Moment, Vec<JobId>)>, AllocError>
    ensures { IfOk result (λ asked. option_map (λ p. (p.0, p.1.items)) asked ≡
        plan_asked roster.now here (texts_of words.now)) }
{
    match words {
        [time] => match read_moment(time) {
            Some(moment) => Ok(Some((moment, Vec::new(alloc)))),
            None => Ok(None),
        },
        _ => read_but(alloc, roster, here, words),
    }
}

/// The look, where no word is left.
fn alone(look: Look, words: &[&str]) -> Option<Look>
    ensures { option_map asked_by result ≡ alone_of (asked_by look) (texts_of words.now) }
{
    if words.is_empty() { Some(look) } else { None }
}

/// What is asked for by the words behind the first.
fn read_behind(
    alloc: Global,
    roster: &Roster,
    here: SiteId,
    asked: LookWord,
    words: &[&str],
) -> Result<Option<Look>, AllocError>
    ensures { IfOk result (λ look. option_map asked_by look ≡ look_behind roster.now here asked (texts_of words.now)) }
{
    match asked {
        LookWord::Why => Ok(read_why(roster, here, words)),
        LookWord::Machine => Ok(read_machine(words)),
        LookWord::MachineJson => Ok(read_machine_json(words)),
        LookWord::Reservations => Ok(alone(Look::Reservations, words)),
        LookWord::ReservationsJson => Ok(alone(Look::ReservationsJson, words)),
        LookWord::Jobs => match read_jobs(alloc, roster, here, words)? {
            Some(jobs) => Ok(Some(Look::Jobs { jobs })),
            None => Ok(None),
        },
        LookWord::Seen => Ok(alone(Look::Seen, words)),
        LookWord::SeenJson => Ok(alone(Look::SeenJson, words)),
        LookWord::Chart => Ok(read_chart(words)),
        LookWord::Plan => match read_but(alloc, roster, here, words)? {
            Some((moment, but)) => Ok(Some(Look::Plan { moment, but })),
            None => Ok(None),
        },
        LookWord::PlanJson => match read_plan(alloc, roster, here, words)? {
            Some((moment, but)) => Ok(Some(Look::PlanJson { moment, but })),
            None => Ok(None),
        },
        LookWord::Roster => Ok(alone(Look::Roster, words)),
    }
}

/// The look that the words of a line ask the site for, or `None` where they ask for none. Jobs and moments are read as
/// in a script.
pub fn read_look(
    alloc: Global,
    roster: &Roster,
    here: SiteId,
    words: &[&str],
) -> Result<Option<Look>, NoMemory>
    ensures { IfOk result (λ look. option_map asked_by look ≡ look_in roster.now here (texts_of words.now)) }
{
    let Some((word, others)) = words.split_first() else {
        return Ok(None);
    };
    match LookWord::named(word) {
        Some(asked) => Ok(read_behind(alloc, roster, here, asked, others)?),
        None => Ok(None),
    }
}
