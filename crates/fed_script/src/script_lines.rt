//! What a line of a script says.
ghost use Rattle.std.specs.Prelude.{◌≡◌, IfOk, IsErr, OnErr, option_map};
ghost use Rattle.fed_lattice.specs.Results.{mapped};
ghost use Rattle.fed_words.specs.Item.{words_of as texts_of};
ghost use Rattle.fed_script.specs.Forms.{one, two};
ghost use Rattle.fed_script.specs.Line.{act as act_of, asked_at, compares, first_line, first_line_in, is_comment as are_of_comment, later_line, later_line_in, own_line, plans, ships, site_line, takes, told, user_line, verb_line, words_in};
ghost use Rattle.fed_script.specs.LineView.{said_by};
ghost use Rattle.fed_script.specs.Values.{moment as moment_of, packet as packet_of, site as site_of_roster};
ghost use Rattle.fed_words.specs.Request.{request_in};
ghost use Rattle.fed_words.specs.RequestView.{asked_by};

use crate::askers::{read_who, scheduler};
use crate::commands::{read_cancel, read_reserve, read_scheduled};
use crate::forms::{one_word, two_words};
use crate::lines::{Words, push_words};
use crate::rosters::{BoxedRoster, read_roster};
use crate::values::{read_moment, read_packet};
use crate::verbs::Verb;
use fed_lattice::NoMemory;
use fed_model::{Command, Moment, Who};
use fed_stamp::{JobId, Roster, SiteId};
use fed_words::{Request, UsageFault, read_words};
use smallvec::SmallVec;
use std::alloc::Global;

/// What a line of a script says.
#[derive(Drop)]
pub enum Line {
    /// Nothing: it is empty or a comment.
    Skip,
    /// `roster NAME:NODES ..`
    Begin {
        roster: BoxedRoster,
    },
    /// Somebody, or the site's own scheduler, asks a site to do this, one command after another.
    Act {
        site: SiteId,
        who: Who,
        commands: Vec<Command>,
    },
    /// `SITE USER qstat ..`: a site lists these jobs, or all where none is named.
    List {
        site: SiteId,
        /// Whether in full.
        full: bool,
        jobs: Vec<JobId>,
    },
    /// Somebody's words of a utility ask nothing of a site.
    Misuse {
        site: SiteId,
        fault: UsageFault,
    },
    /// `SITE ship SITE`
    Ship {
        site: SiteId,
        to: SiteId,
    },
    /// `SITE take PACKET`, a packet that was made.
    Take {
        site: SiteId,
        packet: u64,
    },
    /// `SITE plan MOMENT`
    Plan {
        site: SiteId,
        moment: Moment,
    },
    /// `equal SITE SITE`
    Compare {
        site: SiteId,
        other: SiteId,
    },
}

/// The line that asks a site for one command.
fn act(
    alloc: Global,
    site: SiteId,
    who: Who,
    command: Option<Command>,
) -> Result<Option<Line>, NoMemory>
    ensures { IfOk result (λ line. option_map said_by line ≡ act_of site who command) }
{
    let Some(command) = command else {
        return Ok(None);
    };
    Ok(Some(Line::Act {
        site,
        who,
        commands: Vec::from_slice(alloc, &[command])?,
    }))
}

/// The line of what the words of a utility were read as, but for want of memory.
fn asked_line(site: SiteId, who: Who, read: Result<Request, UsageFault>) -> Result<Line, NoMemory>
    ensures ok { IfOk result (λ line. said_by line ≡ asked_at site who (mapped asked_by read)) }
    ensures told { read ≡ Err UsageFault.NoMemory → IsErr result }
    ensures err { OnErr result (read ≡ Err UsageFault.NoMemory) }
{
    match read {
        Ok(Request::Acts(commands)) => Ok(Line::Act {
            site,
            who,
            commands,
        }),
        Ok(Request::List { full, jobs }) => Ok(Line::List { site, full, jobs }),
        Err(UsageFault::NoMemory) => Err(NoMemory),
        Err(fault) => Ok(Line::Misuse { site, fault }),
    }
}

/// What the words of a utility ask of a site.
fn read_asked(
    alloc: Global,
    roster: &Roster,
    site: SiteId,
    who: Who,
    words: &[&str],
) -> Result<Line, NoMemory>
    ensures { IfOk result (λ line. said_by line ≡ asked_at site who (request_in roster.now site (texts_of words.now))) }
{
    asked_line(site, who, read_words(alloc, words, roster, site))
}

/// `ship SITE`
fn read_ship(roster: &Roster, site: SiteId, words: &[&str]) -> Option<Line>
    ensures { option_map said_by result ≡ one (site_of_roster roster.now) (ships site) (texts_of words.now) }
{
    let to = roster.find(one_word(words)?)?;
    Some(Line::Ship { site, to })
}

/// `take PACKET`
fn read_take(made: u64, site: SiteId, words: &[&str]) -> Option<Line>
    ensures { option_map said_by result ≡ one (packet_of made) (takes site) (texts_of words.now) }
{
    let packet = read_packet(made, one_word(words)?)?;
    Some(Line::Take { site, packet })
}

/// `plan MOMENT`
fn read_plan(site: SiteId, words: &[&str]) -> Option<Line>
    ensures { option_map said_by result ≡ one moment_of (plans site) (texts_of words.now) }
{
    let moment = read_moment(one_word(words)?)?;
    Some(Line::Plan { site, moment })
}

/// What the words behind a verb say.
fn read_verb(
    alloc: Global,
    roster: &Roster,
    made: u64,
    site: SiteId,
    verb: Verb,
    words: &[&str],
) -> Result<Option<Line>, NoMemory>
    ensures { IfOk result (λ line. option_map said_by line ≡ verb_line roster.now site made verb (texts_of words.now)) }
{
    match verb {
        Verb::Ship => Ok(read_ship(roster, site, words)),
        Verb::Take => Ok(read_take(made, site, words)),
        Verb::Plan => Ok(read_plan(site, words)),
        Verb::Grant | Verb::Begin | Verb::Finish | Verb::HandBack | Verb::Decline | Verb::Retire =>
            {
                act(
                    alloc,
                    site,
                    scheduler(),
                    read_scheduled(roster, site, verb, words),
                )
            }
    }
}

/// What the words behind a user say.
fn read_user_line(
    alloc: Global,
    roster: &Roster,
    site: SiteId,
    who: Who,
    words: &[&str],
) -> Result<Option<Line>, NoMemory>
    ensures { IfOk result (λ line. option_map said_by line ≡ user_line roster.now site who (texts_of words.now)) }
{
    let Some((word, others)) = words.split_first() else {
        return Ok(Some(read_asked(alloc, roster, site, who, words)?));
    };
    if *word == "reserve" {
        act(alloc, site, who, read_reserve(roster, site, others))
    } else if *word == "cancel" {
        act(alloc, site, who, read_cancel(roster, site, others))
    } else {
        Ok(Some(read_asked(alloc, roster, site, who, words)?))
    }
}

/// What the words behind the name of a site say.
fn read_site_line(
    alloc: Global,
    roster: &Roster,
    made: u64,
    site: SiteId,
    words: &[&str],
) -> Result<Option<Line>, NoMemory>
    ensures { IfOk result (λ line. option_map said_by line ≡ site_line roster.now site made (texts_of words.now)) }
{
    let Some((word, others)) = words.split_first() else {
        return Ok(None);
    };
    match Verb::named(word) {
        Some(verb) => read_verb(alloc, roster, made, site, verb, others),
        None => match read_who(word) {
            Some(who) => read_user_line(alloc, roster, site, who, others),
            None => Ok(None),
        },
    }
}

/// `equal SITE SITE`
fn read_compare(roster: &Roster, words: &[&str]) -> Option<Line>
    ensures { option_map said_by result ≡ two (site_of_roster roster.now) (site_of_roster roster.now) compares (texts_of words.now) }
{
    let (site, other) = two_words(words)?;
    let site = roster.find(site)?;
    let other = roster.find(other)?;
    Some(Line::Compare { site, other })
}

/// What the words of a line say behind the line of the roster.
fn read_later_words(
    alloc: Global,
    roster: &Roster,
    made: u64,
    words: &[&str],
) -> Result<Option<Line>, NoMemory>
    ensures { IfOk result (λ line. option_map said_by line ≡ later_line roster.now made (texts_of words.now)) }
{
    let Some((first, others)) = words.split_first() else {
        return Ok(Some(Line::Skip));
    };
    if *first == "equal" {
        return Ok(read_compare(roster, others));
    }
    match roster.find(first) {
        Some(site) => read_site_line(alloc, roster, made, site, others),
        None => Ok(None),
    }
}

/// What the words of a line say at a site by itself: what a script's line says that has the site's name in front, where no
/// packet has a number. `None` where they can't be read.
pub fn read_own_words(
    alloc: Global,
    roster: &Roster,
    here: SiteId,
    words: &[&str],
) -> Result<Option<Line>, NoMemory>
    ensures { IfOk result (λ line. option_map said_by line ≡ own_line roster.now here (texts_of words.now)) }
{
    if words.is_empty() {
        return Ok(Some(Line::Skip));
    }
    read_site_line(alloc, roster, 0, here, words)
}

/// What the words of a line say where no line of a roster stands before.
fn read_first_words(alloc: Global, words: &[&str]) -> Result<Option<Line>, NoMemory>
    ensures { IfOk result (λ line. option_map said_by line ≡ first_line (texts_of words.now)) }
{
    let Some((first, others)) = words.split_first() else {
        return Ok(Some(Line::Skip));
    };
    if *first != "roster" {
        return Ok(None);
    }
    match read_roster(alloc, others)? {
        Some(roster) => Ok(Some(Line::Begin { roster })),
        None => Ok(None),
    }
}

/// The words of a line, which are parted by spaces and tabs, without those of a comment. `None` where the line has a byte
/// that no line may have: another than a printable ASCII character, a space or a tab.
pub fn told_words(alloc: Global, line: &[u8]) -> Result<Option<Words<'_>>, NoMemory>
    ensures { IfOk result (λ words. option_map (λ w. texts_of w.items) words ≡ words_in line.now) }
{
    let mut words = SmallVec::new(alloc);
    if !push_words(line, &mut words)? {
        return Ok(None);
    }
    if is_comment(words.as_slice()) {
        return Ok(Some(SmallVec::new(alloc)));
    }
    Ok(Some(words))
}

/// These words, or none where they are those of a comment.
fn without_comment<'a, 'w>(words: &'w [&'a str]) -> &'w [&'a str]
    ensures { texts_of result.now ≡ told (texts_of words.now) }
{
    if is_comment(words) { &[] } else { words }
}

/// Whether the words are those of a comment.
fn is_comment(words: &[&str]) -> bool
    ensures { result ≡ are_of_comment (texts_of words.now) }
{
    match words.first() {
        Some(first) => matches!(first.as_bytes(), [b'#', ..]),
        None => false,
    }
}

/// What a line says where no line of a roster stands before: it is skipped, or names the sites. `None` where it can't be
/// read.
pub fn read_first_line(alloc: Global, line: &[u8]) -> Result<Option<Line>, NoMemory>
    ensures { IfOk result (λ said. option_map said_by said ≡ first_line_in line.now) }
{
    let mut words = SmallVec::new(alloc);
    if !push_words(line, &mut words)? {
        return Ok(None);
    }
    read_first_words(alloc, without_comment(words.as_slice()))
}

/// What a line says behind the line of the roster, once `made` packets were made. `None` where it can't be read.
pub fn read_later_line(
    alloc: Global,
    roster: &Roster,
    made: u64,
    line: &[u8],
) -> Result<Option<Line>, NoMemory>
    ensures { IfOk result (λ said. option_map said_by said ≡ later_line_in roster.now made line.now) }
{
    let mut words = SmallVec::new(alloc);
    if !push_words(line, &mut words)? {
        return Ok(None);
    }
    read_later_words(alloc, roster, made, without_comment(words.as_slice()))
}
