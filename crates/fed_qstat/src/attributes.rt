//! What listings show of a job, piece by piece.
ghost use Rattle.std.specs.Prelude.{◌≡◌, ◌∷◌, ◌++◌, IfOk, OnOk, Some, string_bytes, if◌then◌else◌};
ghost use Rattle.fed_record.specs.JobRecord.{job_reads};
ghost use Rattle.fed_model.specs.Letter.{holder};
ghost use Rattle.fed_qstat.specs.JobText.{letters_of_kinds, sign_of_letter, text_of_begun, text_of_holder, text_of_holds, text_of_sites, text_or_dash};

use crate::identifiers::{push_site, site_text};
use fed_record::{HoldKind, HoldKinds, JobRecord, Letter};
use fed_stamp::{Roster, SITES, SiteId};
use std::alloc::{AllocError, Global};

/// The text, or `-` where it is empty.
pub(crate) fn or_dash(text: &str) -> &str
    ensures { result.now ≡ text_or_dash text.now }
{
    if text.is_empty() { "-" } else { text }
}

/// The letter that stands for the state of a job.
pub fn letter_sign(letter: Letter) -> &'static str
    ensures { result.now ≡ sign_of_letter letter }
{
    match letter {
        Letter::Exiting => "E",
        Letter::Running => "R",
        Letter::Held => "H",
        Letter::Granted => "T",
        Letter::Queued => "Q",
    }
}

/// Adds the site that a job is granted to, or `-` where there is none.
pub(crate) fn push_holder(
    text: &mut String,
    roster: &Roster,
    job: &JobRecord,
) -> Result<(), AllocError>
    ensures { OnOk result (string_bytes text.new ≡
        string_bytes text.old ++ text_of_holder roster.now (holder (job_reads job.now))) }
{
    match job.holder() {
        Some(site) => push_site(text, roster, site),
        None => text.push_str("-"),
    }
}

/// The site that a job is granted to, or `-` where there is none.
pub fn holder_text(alloc: Global, roster: &Roster, job: &JobRecord) -> Result<String, AllocError>
    ensures { IfOk result (λ text. string_bytes text ≡ text_of_holder roster.now (holder (job_reads job.now))) }
{
    let mut text = String::new(alloc);
    push_holder(&mut text, roster, job)?;
    Ok(text)
}

/// The moment of the Begin, or `-` where the job has not begun.
pub(crate) fn begun_text(alloc: Global, job: &JobRecord) -> Result<String, AllocError>
    ensures { IfOk result (λ text. string_bytes text ≡ text_of_begun (job_reads job.now).stages.begun) }
{
    match job.progress().begun {
        Some((_, beginning)) => format!(in alloc; "{}", beginning.moment.get()),
        None => String::from_str(alloc, "-"),
    }
}

/// The letters of the kinds of holds in the set, in the order u, o, s, or `n` where there is none.
pub fn hold_letters(kinds: HoldKinds) -> &'static str
    ensures { result.now ≡ letters_of_kinds kinds }
{
    match (
        kinds.has(HoldKind::User),
        kinds.has(HoldKind::Operator),
        kinds.has(HoldKind::System),
    ) {
        (false, false, false) => "n",
        (true, false, false) => "u",
        (false, true, false) => "o",
        (true, true, false) => "uo",
        (false, false, true) => "s",
        (true, false, true) => "us",
        (false, true, true) => "os",
        (true, true, true) => "uos",
    }
}

/// The letters of a job's holds.
pub fn holds_text(job: &JobRecord) -> &'static str
    ensures { result.now ≡ text_of_holds (job_reads job.now) }
{
    hold_letters(job.holds())
}

/// Adds a name, behind a `+` where it isn't the first.
fn push_name(text: &mut String, is_first: bool, name: &str) -> Result<(), AllocError>
    ensures { OnOk result (string_bytes text.new ≡
        string_bytes text.old ++ (if is_first then name.now else 43 ∷ name.now)) }
{
    if !is_first {
        text.push('+')?;
    }
    text.push_str(name)
}

/// The names of the sites that a job may run at, in the order of their numbers, joined by `+`, or `-` where there is
/// none.
pub(crate) fn sites_text(
    alloc: Global,
    roster: &Roster,
    job: &JobRecord,
) -> Result<String, AllocError>
    ensures { IfOk result (λ text. string_bytes text ≡ text_of_sites roster.now (job_reads job.now)) }
{
    let mut text = String::new(alloc);
    let mut is_first = true;
    for number in 0..SITES as u8 {
        let site = SiteId::new(number).unwrap();
        if job.has_site(site) {
            let name = site_text(alloc, roster, site)?;
            push_name(&mut text, is_first, name.as_str())?;
            is_first = false;
        }
    }
    String::from_str(alloc, or_dash(text.as_str()))
}
