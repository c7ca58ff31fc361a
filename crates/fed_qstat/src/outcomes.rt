//! The texts that answer events and misused words.
ghost use Rattle.std.specs.Prelude.{◌≡◌, IfOk, string_bytes};
ghost use Rattle.std.specs.Cow.{cow_str_bytes};
ghost use Rattle.fed_model.specs.declared.outcomes.Outcome.TheVariants.{Gap};
ghost use Rattle.fed_qstat.specs.Outcome.{answer_line, line_of_usage, text_of_outcome, text_of_reply};

use crate::identifiers::{identifier_text, site_text};
use fed_model::Outcome;
use fed_record::Reply;
use fed_stamp::{Roster, SiteId};
use fed_words::UsageFault;
use std::alloc::{AllocError, Global};
use std::borrow::CowStr;

/// The text that answers a line.
pub type AnswerText = CowStr<'static>;

/// A text, and the end of the line behind it.
fn with_line_feed(text: String) -> Result<AnswerText, AllocError>
    ensures { IfOk result (λ line. cow_str_bytes line ≡ answer_line (string_bytes text)) }
{
    let mut line = text;
    line.push('\n')?;
    Ok(CowStr::Owned(line))
}

/// The line of what a site replies to a command that it doesn't refuse.
fn reply_line(alloc: Global, roster: &Roster, reply: Reply) -> Result<AnswerText, AllocError>
    ensures { IfOk result (λ line. cow_str_bytes line ≡ answer_line (text_of_reply roster.now reply)) }
{
    match reply {
        Reply::Submitted(job) => with_line_feed(identifier_text(alloc, roster, job)?),
        Reply::Done => Ok(CowStr::Borrowed("done\n")),
        Reply::Granted => Ok(CowStr::Borrowed("granted\n")),
        Reply::Yours => Ok(CowStr::Borrowed("yours\n")),
        Reply::Reserved(reservation) => with_line_feed(identifier_text(
            alloc,
            roster,
            reservation,
        )?),
    }
}

/// The line that names the site that lacks something, behind the word that says so.
fn gap_line(alloc: Global, roster: &Roster, site: SiteId) -> Result<AnswerText, AllocError>
    ensures { IfOk result (λ line. cow_str_bytes line ≡ answer_line (text_of_outcome roster.now (Gap site))) }
{
    let name = site_text(alloc, roster, site)?;
    with_line_feed(format!(in alloc; "gap {name}")?)
}

/// The line that answers an event. One that is the same for all events of its kind takes no memory.
pub fn outcome_line(
    alloc: Global,
    roster: &Roster,
    outcome: Outcome,
) -> Result<AnswerText, AllocError>
    ensures { IfOk result (λ line. cow_str_bytes line ≡ answer_line (text_of_outcome roster.now outcome)) }
{
    match outcome {
        Outcome::Replied(reply) => reply_line(alloc, roster, reply),
        Outcome::Refused(refusal) => with_line_feed(format!(in alloc;
            "refused {}",
            refusal.number()
        )?),
        Outcome::Packet(number) => with_line_feed(format!(in alloc; "packet {number}")?),
        Outcome::Taken(taken) => {
            if taken.grew {
                Ok(CowStr::Borrowed("taken\n"))
            } else {
                Ok(CowStr::Borrowed("known\n"))
            }
        }
        Outcome::Gap(site) => gap_line(alloc, roster, site),
        Outcome::NoPacket => Ok(CowStr::Borrowed("no packet\n")),
        Outcome::NoSite => Ok(CowStr::Borrowed("no site\n")),
    }
}

/// The line that answers words of a utility that ask nothing.
pub fn usage_line(alloc: Global, fault: UsageFault) -> Result<String, AllocError>
    ensures { IfOk result (λ text. string_bytes text ≡ line_of_usage fault) }
{
    let number = fault.number();
    format!(in alloc; "usage {number}\n")
}
