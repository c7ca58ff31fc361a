//! Commands that the words of a script say outside of the utilities.
ghost use Rattle.std.specs.Prelude.{◌≡◌};
ghost use Rattle.fed_words.specs.Item.{words_of};
ghost use Rattle.fed_script.specs.Line.{cancels, reserves, scheduled};
ghost use Rattle.fed_script.specs.declared.verbs.Verb.TheVariants.{Grant, Begin, Finish, HandBack, Decline, Retire};

use crate::forms::{four_words, one_word, three_words, two_words};
use crate::values::{read_id, read_moment, read_status};
use crate::verbs::Verb;
use fed_model::{Command, Window};
use fed_stamp::{Roster, SiteId};
use fed_words::read_number;

/// `grant JOB ASKER`
fn read_grant(roster: &Roster, here: SiteId, words: &[&str]) -> Option<Command>
    ensures { result ≡ scheduled roster.now here Grant (words_of words.now) }
{
    let (job, asker) = two_words(words)?;
    let job = read_id(roster, here, job)?;
    let asker = roster.find(asker)?;
    Some(Command::Grant { job, asker })
}

/// `begin JOB MOMENT`
fn read_begin(roster: &Roster, here: SiteId, words: &[&str]) -> Option<Command>
    ensures { result ≡ scheduled roster.now here Begin (words_of words.now) }
{
    let (job, moment) = two_words(words)?;
    let job = read_id(roster, here, job)?;
    let moment = read_moment(moment)?;
    Some(Command::Begin { job, moment })
}

/// `finish JOB MOMENT STATUS`
fn read_finish(roster: &Roster, here: SiteId, words: &[&str]) -> Option<Command>
    ensures { result ≡ scheduled roster.now here Finish (words_of words.now) }
{
    let (job, moment, status) = three_words(words)?;
    let job = read_id(roster, here, job)?;
    let moment = read_moment(moment)?;
    let status = read_status(status)?;
    Some(Command::Finish {
        job,
        moment,
        status,
    })
}

/// `handback JOB`
fn read_hand_back(roster: &Roster, here: SiteId, words: &[&str]) -> Option<Command>
    ensures { result ≡ scheduled roster.now here HandBack (words_of words.now) }
{
    let job = read_id(roster, here, one_word(words)?)?;
    Some(Command::HandBack { job })
}

/// `decline JOB`
fn read_decline(roster: &Roster, here: SiteId, words: &[&str]) -> Option<Command>
    ensures { result ≡ scheduled roster.now here Decline (words_of words.now) }
{
    let job = read_id(roster, here, one_word(words)?)?;
    Some(Command::Decline { job })
}

/// `retire FIRST LAST`: two counters of the site, which stand without the name of a site
fn read_retire(roster: &Roster, here: SiteId, words: &[&str]) -> Option<Command>
    ensures { result ≡ scheduled roster.now here Retire (words_of words.now) }
{
    let (first, last) = two_words(words)?;
    let first = read_number(first)?;
    let last = read_number(last)?;
    Some(Command::Retire { first, last })
}

/// What a site's own scheduler asks by the words behind a verb, or `None` where they can't be read, or where the verb
/// asks for something else than a command.
pub(crate) fn read_scheduled(
    roster: &Roster,
    here: SiteId,
    verb: Verb,
    words: &[&str],
) -> Option<Command>
    ensures { result ≡ scheduled roster.now here verb (words_of words.now) }
{
    match verb {
        Verb::Grant => read_grant(roster, here, words),
        Verb::Begin => read_begin(roster, here, words),
        Verb::Finish => read_finish(roster, here, words),
        Verb::HandBack => read_hand_back(roster, here, words),
        Verb::Decline => read_decline(roster, here, words),
        Verb::Retire => read_retire(roster, here, words),
        Verb::Ship | Verb::Take | Verb::Plan => None,
    }
}

/// `reserve WHERE START END NODES`
pub(crate) fn read_reserve(roster: &Roster, here: SiteId, words: &[&str]) -> Option<Command>
    ensures { result ≡ reserves roster.now here (words_of words.now) }
{
    let (site, start, end, nodes) = four_words(words)?;
    let window = Window {
        site: roster.find(site)?,
        start: read_number(start)?,
        end: read_number(end)?,
        nodes: read_number(nodes)?,
    };
    Some(Command::Reserve { window })
}

/// `cancel ID`
pub(crate) fn read_cancel(roster: &Roster, here: SiteId, words: &[&str]) -> Option<Command>
    ensures { result ≡ cancels roster.now here (words_of words.now) }
{
    let reservation = read_id(roster, here, one_word(words)?)?;
    Some(Command::Cancel { reservation })
}
