//! What the user is told of a command that is refused: what was asked of what, and why it isn't done.

use crate::complaints::RefusedCommand;
use crate::not_retired::{not_settled_text, too_many_ranges_text};
use crate::site::Site;
use fed_qstat::{hold_letters, identifier_text, site_text};
use fed_record::{Command, JobRecord, MAX_MOMENT, Refusal, Role, Who, Window};
use fed_stamp::{JobId, MAX_NODES, Roster, SiteId};
use std::alloc::{AllocError, Global};

/// The name of a refusal.
fn name_of(refusal: Refusal) -> &'static str {
    match refusal {
        Refusal::UnknownJob => "UnknownJob",
        Refusal::NotPermitted => "NotPermitted",
        Refusal::Gone => "Gone",
        Refusal::Granted => "Granted",
        Refusal::NotOrigin => "NotOrigin",
        Refusal::Held => "Held",
        Refusal::NotEligible => "NotEligible",
        Refusal::TakenBy(_) => "TakenBy",
        Refusal::NotGranted => "NotGranted",
        Refusal::Begun => "Begun",
        Refusal::NotBegun => "NotBegun",
        Refusal::BadWindow => "BadWindow",
        Refusal::UnknownReservation => "UnknownReservation",
        Refusal::SiteFull => "SiteFull",
        Refusal::ClockFull => "ClockFull",
        Refusal::NoMemory => "NoMemory",
        Refusal::NotSettled => "NotSettled",
    }
}

/// Somebody, as a line names them.
fn asker_text(alloc: Global, who: &Who) -> Result<String, AllocError> {
    let user = who.user.as_str();
    match who.role {
        Role::User => format!(in alloc; "{user}"),
        Role::Operator => format!(in alloc; "{user}/operator"),
        Role::Administrator => format!(in alloc; "{user}/admin"),
    }
}

/// What a command would do to the job.
fn deed_text(alloc: Global, command: &Command, id: &str) -> Result<String, AllocError> {
    match command {
        Command::Alter { .. } => format!(in alloc; "alter {id}"),
        Command::Hold { kinds, .. } => {
            format!(in alloc; "hold {id} (kinds {})", hold_letters(*kinds))
        }
        Command::Release { kinds, .. } => {
            format!(in alloc; "release {id} (kinds {})", hold_letters(*kinds))
        }
        Command::Delete { .. } => format!(in alloc; "delete {id}"),
        _ => format!(in alloc; "change {id}"),
    }
}

/// The job that a command names, if any.
fn job_of(command: &Command) -> Option<JobId> {
    match command {
        Command::Alter { job, .. }
        | Command::Hold { job, .. }
        | Command::Release { job, .. }
        | Command::Delete { job }
        | Command::Grant { job, .. }
        | Command::HandBack { job }
        | Command::Decline { job }
        | Command::Begin { job, .. }
        | Command::Finish { job, .. } => Some(*job),
        Command::Submit { .. }
        | Command::Reserve { .. }
        | Command::Cancel { .. }
        | Command::Retire { .. } => None,
    }
}

/// That the job has ended, and how.
fn gone_text(alloc: Global, id: &str, job: &JobRecord) -> Result<String, AllocError> {
    match job.progress().finished {
        Some((_, ending)) => {
            let status = ending.status;
            format!(in alloc; "{id} is finished, with status {status}")
        }
        None => format!(in alloc; "{id} is deleted"),
    }
}

/// Which site the job is granted to.
fn granted_text(
    alloc: Global,
    roster: &Roster,
    id: &str,
    holder: Option<SiteId>,
) -> Result<String, AllocError> {
    match holder {
        Some(holder) => {
            let name = site_text(alloc, roster, holder)?;
            format!(in alloc; "{id} is granted to {name}")
        }
        None => format!(in alloc; "{id} is granted"),
    }
}

/// Where the job has begun.
fn begun_text(
    alloc: Global,
    roster: &Roster,
    id: &str,
    job: &JobRecord,
) -> Result<String, AllocError> {
    match job.progress().begun {
        Some((stamp, _)) => {
            let name = site_text(alloc, roster, stamp.site())?;
            format!(in alloc; "{id} has begun at {name}")
        }
        None => format!(in alloc; "{id} has begun"),
    }
}

/// A job of the board that a command names.
#[derive(Drop)]
struct NamedJob<'a> {
    id: &'a str,
    job: JobId,
    known: &'a JobRecord,
}

/// That the asker's role forbids it.
fn not_permitted_text(
    alloc: Global,
    refused: &RefusedCommand,
    named: &NamedJob<'_>,
) -> Result<String, AllocError> {
    let asker = asker_text(alloc, &refused.who)?;
    let deed = deed_text(alloc, &refused.command, named.id)?;
    if !named.known.is_submitted() {
        return format!(in alloc; "{asker} may not {deed}");
    }
    let owner = named.known.owner().1;
    let owner = owner.as_str();
    format!(in alloc; "{asker} may not {deed}, whose owner is {owner}")
}

/// Why a command that names a job that the site knows isn't done.
fn why_of_job(
    alloc: Global,
    site: &Site,
    refused: &RefusedCommand,
    named: &NamedJob<'_>,
) -> Result<String, AllocError> {
    let roster = site.roster();
    let refusal = refused.refusal;
    let (id, known) = (named.id, named.known);
    match refusal {
        Refusal::NotPermitted => not_permitted_text(alloc, refused, named),
        Refusal::Gone => gone_text(alloc, id, known),
        Refusal::Granted => granted_text(alloc, roster, id, known.holder()),
        Refusal::TakenBy(holder) => granted_text(alloc, roster, id, Some(holder)),
        Refusal::NotOrigin => {
            let origin = site_text(alloc, roster, named.job.site())?;
            format!(in alloc; "{id} was submitted at {origin}, which alone grants it")
        }
        Refusal::Held => {
            let kinds = hold_letters(known.holds());
            format!(in alloc; "{id} is held (kinds {kinds})")
        }
        Refusal::NotEligible => match refused.command {
            Command::Grant { asker, .. } => {
                let name = site_text(alloc, roster, asker)?;
                format!(in alloc; "{id} may not run at {name}")
            }
            _ => format!(in alloc; "{id} may not run there"),
        },
        Refusal::NotGranted => {
            let here = site_text(alloc, roster, site.here())?;
            format!(in alloc; "{id} is not granted to {here}")
        }
        Refusal::Begun => begun_text(alloc, roster, id, known),
        Refusal::NotBegun => format!(in alloc; "{id} has not begun"),
        _ => format!(in alloc; "{id}: {refusal}"),
    }
}

/// Why a reservation isn't made.
fn why_no_window(alloc: Global, window: &Window) -> Result<String, AllocError> {
    let Window {
        start,
        end,
        nodes,
        ..
    } = *window;
    if nodes == 0 || nodes > MAX_NODES {
        format!(in alloc; "{nodes} is no number of nodes from 1 to {MAX_NODES}")
    } else if end <= start {
        format!(in alloc; "the reservation's end, {end}, is not above its start, {start}")
    } else {
        format!(in alloc; "the reservation's end, {end}, is above {MAX_MOMENT}")
    }
}

/// Why a command that names no job isn't done.
fn why_of_site(alloc: Global, site: &Site, refused: &RefusedCommand) -> Result<String, AllocError> {
    let here = site_text(alloc, site.roster(), site.here())?;
    let asker = asker_text(alloc, &refused.who)?;
    let refusal = refused.refusal;
    match (refusal, &refused.command) {
        (Refusal::NotPermitted, Command::Reserve { .. }) => {
            format!(in alloc; "{asker} may not reserve nodes: operators and administrators may")
        }
        (Refusal::NotPermitted, Command::Cancel { reservation }) => {
            let id = identifier_text(alloc, site.roster(), *reservation)?;
            format!(in alloc; "{asker} may not cancel {id}: operators and administrators may")
        }
        (Refusal::UnknownReservation, Command::Cancel { reservation }) => {
            let id = identifier_text(alloc, site.roster(), *reservation)?;
            format!(in alloc; "{id} is no reservation that {here} knows, or is cancelled")
        }
        (Refusal::BadWindow, Command::Reserve { window }) => why_no_window(alloc, window),
        (Refusal::SiteFull, Command::Reserve { .. }) => {
            format!(in alloc; "{here} has made as many reservations as it may")
        }
        (Refusal::SiteFull, Command::Retire { .. }) => too_many_ranges_text(alloc, site),
        (Refusal::NotSettled, Command::Retire { first, last }) => {
            not_settled_text(alloc, site, *first, *last)
        }
        (Refusal::SiteFull, _) => {
            format!(in alloc; "{here} has as many jobs as may be submitted there")
        }
        _ => format!(in alloc; "{here}: {refusal}"),
    }
}

/// Why the command isn't done.
fn why_refused(alloc: Global, site: &Site, refused: &RefusedCommand) -> Result<String, AllocError> {
    let Some(job) = job_of(&refused.command) else {
        return why_of_site(alloc, site, refused);
    };
    let id = identifier_text(alloc, site.roster(), job)?;
    match site.board().job(job) {
        Some(known) if refused.refusal != Refusal::UnknownJob => {
            let named = NamedJob {
                id: id.as_str(),
                job,
                known,
            };
            why_of_job(alloc, site, refused, &named)
        }
        _ => {
            let here = site_text(alloc, site.roster(), site.here())?;
            format!(in alloc; "{id} is no job that {here} knows")
        }
    }
}

/// What was asked of what by a command that is refused, and why it isn't done.
pub fn refused_text(
    alloc: Global,
    site: &Site,
    refused: &RefusedCommand,
) -> Result<String, AllocError> {
    let number = refused.refusal.number();
    let name = name_of(refused.refusal);
    let why = why_refused(alloc, site, refused)?;
    format!(in alloc; "refused {number} ({name}): {why}")
}
