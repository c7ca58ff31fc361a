//! What a site does to commands.
ghost use Rattle.std.specs.Prelude.{◌≡◌, false, Some, None, IfOk, OnErr, if◌then◌else◌};
ghost use Rattle.fed_model.specs.declared.outcomes.Outcome.{Outcome};
ghost use Rattle.fed_qstat.specs.Outcome.{answer_line, text_of_outcome, text_of_reply};
ghost use Rattle.fed_site.specs.declared.complaints.Complaint.{Complaint};
ghost use Rattle.fed_site.specs.Acts.{DoneAs};
ghost use Rattle.fed_site.specs.SiteAnswer.{text_of};
ghost use Rattle.fed_replica.specs.State.{state_of};
ghost use Rattle.fed_site.specs.Says.{after_command, after_commands, job_begun_by};

use crate::answers::{Begun, LineText, TextAnswer, both, told, undone};
use crate::complaints::{Complaint, RefusedCommand};
use crate::identifier_lines::identifier_line;
use fed_lattice::NoMemory;
use fed_model::Outcome;
use fed_qstat::outcome_line;
use fed_record::{Command, Reply, Who};
use fed_replica::{Answered, Replica};
use fed_stamp::{Roster, SiteId};
use std::alloc::{AllocError, Global};
use std::borrow::CowStr;

/// The line of a reply. It is made once the command is done, so it takes no memory.
fn reply_line(roster: &Roster, reply: Reply) -> LineText
    ensures { text_of result ≡ answer_line (text_of_reply roster.now reply) }
{
    match reply {
        Reply::Submitted(id) | Reply::Reserved(id) => {
            LineText::Identifier(identifier_line(roster, id))
        }
        Reply::Done => LineText::Other(CowStr::Borrowed("done\n")),
        Reply::Granted => LineText::Other(CowStr::Borrowed("granted\n")),
        Reply::Yours => LineText::Other(CowStr::Borrowed("yours\n")),
    }
}

/// What is said of a command that is refused.
fn refused(
    alloc: Global,
    roster: &Roster,
    command: &RefusedCommand,
) -> Result<TextAnswer, AllocError>
    ensures text { IfOk result
        (λ a. text_of a.text ≡ answer_line (text_of_outcome roster.now (Outcome.Refused command.now.refusal))) }
    ensures kept { IfOk result (λ a. a.kept ≡ false) }
    ensures complaint { IfOk result (λ a. a.complaint ≡ Some (Complaint.Refused command.now)) }
    ensures begun { IfOk result (λ a. a.begun ≡ None) }
{
    let text = outcome_line(alloc, roster, Outcome::Refused(command.refusal))?;
    let complaint = Complaint::Refused(*command);
    Ok(undone(text, complaint))
}

/// The job that a command began, where it was done.
fn job_begun(command: &Command, is_done: bool) -> Option<Begun>
    ensures { result ≡ (if is_done then job_begun_by command.now else None) }
{
    match command {
        Command::Begin { job, moment } if is_done => Some(Begun {
            job: *job,
            moment: *moment,
        }),
        _ => None,
    }
}

/// Does the command at this index of a line. Where memory is refused, nothing changes.
fn ask(
    alloc: Global,
    roster: &Roster,
    here: SiteId,
    replica: &mut Replica,
    who: &Who,
    index: usize,
    command: &Command,
) -> Result<TextAnswer, NoMemory>
    requires { replica.old.site ≡ here }
    ensures done { IfOk result (λ a. DoneAs replica.new a
        (after_command roster.now (state_of replica.old) who.now index command.now)) }
    ensures site { replica.new.site ≡ here }
    ensures unchanged { OnErr result (replica.new ≡ replica.old) }
{
    let answered = replica.answer(who, command)?;
    let Answered { said, added } = answered;
    match said {
        Ok(reply) => Ok(TextAnswer {
            text: reply_line(roster, reply),
            kept: added,
            complaint: None,
            begun: job_begun(command, added),
        }),
        Err(refusal) => {
            let command = RefusedCommand {
                index,
                who: *who,
                command: *command,
                refusal,
            };
            Ok(refused(alloc, roster, &command)?)
        }
    }
}

/// Does commands, one after another. Where memory is refused, the first of them may have been done.
fn ask_each(
    alloc: Global,
    roster: &Roster,
    here: SiteId,
    replica: &mut Replica,
    who: &Who,
    commands: &[Command],
) -> Result<TextAnswer, NoMemory>
    requires { replica.old.site ≡ here }
    ensures done { IfOk result (λ a. DoneAs replica.new a
        (after_commands roster.now (state_of replica.old) who.now 0 commands.now)) }
    ensures site { replica.new.site ≡ here }
{
    let mut all = told(CowStr::Borrowed(""));
    for (index, command) in commands.iter().enumerate() {
        let last = ask(alloc, roster, here, replica, who, index, command)?;
        all = both(alloc, all, last)?;
    }
    Ok(all)
}

/// Does commands, one after another. Where memory is refused, nothing changes: for that the replica is copied where
/// there are several, which few lines have.
pub(crate) fn act(
    alloc: Global,
    roster: &Roster,
    here: SiteId,
    replica: &mut Replica,
    who: &Who,
    commands: &[Command],
) -> Result<TextAnswer, NoMemory>
    requires { replica.old.site ≡ here }
    ensures done { IfOk result (λ a. DoneAs replica.new a
        (after_commands roster.now (state_of replica.old) who.now 0 commands.now)) }
    ensures site { replica.new.site ≡ here }
    ensures unchanged { OnErr result (replica.new ≡ replica.old) }
{
    if let [command] = commands {
        let done = ask(alloc, roster, here, replica, who, 0, command)?;
        return Ok(done);
    }
    let before = replica.copy()?;
    match ask_each(alloc, roster, here, replica, who, commands) {
        Ok(done) => Ok(done),
        Err(refused) => {
            *replica = before;
            Err(refused)
        }
    }
}
