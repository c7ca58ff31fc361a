//! What entries and lines come to at a site.
ghost use Rattle.std.specs.Prelude.{◌≡◌, ◌<◌, ◌≤◌, ◌+◌, true, Some, Ok, IfErr, IfOk, OnOk, length, map};
ghost use Rattle.std.specs.Str.{bytes_eq};
ghost use Rattle.std.specs.List.{All};
ghost use Rattle.fed_replica.specs.State.{state_of};
ghost use Rattle.fed_site.specs.Journal.{after_lines, kept_lines};
ghost use Rattle.fed_site.specs.Rosters.{roster_after, roster_after_lines};
ghost use Rattle.fed_site.specs.Says.{site_says};
ghost use Rattle.fed_site.specs.Told.{IsTold, answers_in};
ghost use Rattle.fed_journal.specs.Lines.{texts_of};
ghost use Rattle.fed_stamp.specs.declared.sites.TheConstants.{SITES};
ghost use Rattle.fed_home.specs.Fault.{StopsAt, StopsReplay};
ghost use Rattle.fed_home.specs.Header.{is_compacted};
ghost use Rattle.fed_home.specs.Replay.{AreReplies, after_heard, after_kept, begun_by, heard_text as heard_text_of, replay as replay_of, replayed_of};

use crate::faults::HomeFault;
use crate::headers::{Header, JournalFormat, read_header};
use fed_lattice::NoMemory;
use fed_site::{Site, Told};
use fed_stamp::SiteId;
use std::alloc::{AllocError, Global};

/// The texts of entries.
pub(crate) fn texts(alloc: Global, entries: &[Vec<u8>]) -> Result<Vec<&[u8]>, AllocError>
    ensures { IfOk result (λ texts. map (λ text. text.now) texts.items ≡ texts_of entries.now) }
{
    let mut texts = Vec::new(alloc);
    for entry in entries {
        texts.push(entry.as_slice())?;
    }
    Ok(texts)
}

/// A site that has begun so and has answered these lines, each of which it keeps. The first of them is this line of the
/// journal. Errors: `UnkeptEntry` of the first that it doesn't keep, and `NoMemory`.
fn replay_kept(alloc: Global, begun: Site, lines: &[&[u8]], first: u64) -> Result<Site, HomeFault>
    requires { first ≤ 3 + SITES }
    ensures read { IfOk result (λ site. after_kept first begun.roster (state_of begun.replica) (map (λ line. line.now) lines.now) ≡ Ok (replayed_of site)) }
    ensures fault { IfErr result (StopsAt (after_kept first begun.roster (state_of begun.replica) (map (λ line. line.now) lines.now))) }
{
    let mut site = begun;
    let mut number = first;
    for line in lines {
        let answered = site.answer(alloc, line)?;
        if !answered.is_kept() {
            return Err(HomeFault::UnkeptEntry { line: number });
        }
        number += 1;
    }
    Ok(site)
}

/// The line of what a site has heard of the site of this number, and an empty one where that is nothing.
pub(crate) fn heard_text(alloc: Global, site: &Site, number: usize) -> Result<Vec<u8>, NoMemory>
    requires { number < SITES }
    ensures { IfOk result (λ text. text.items ≡ heard_text_of (state_of site.now.replica) number) }
{
    let from = SiteId::new(number as u8).unwrap();
    match site.heard_line(alloc, from)? {
        Some(line) => Ok(line),
        None => Ok(Vec::new(alloc)),
    }
}

/// Answers a line. Whether it is what the site writes then of what it has heard of the site of this number.
fn hears(alloc: Global, site: &mut Site, number: usize, line: &[u8]) -> Result<bool, NoMemory>
    requires { number < SITES }
    ensures roster { OnOk result (site.new.roster ≡ roster_after site.old.roster line.now) }
    ensures after { OnOk result (state_of site.new.replica ≡ (site_says site.old.roster (state_of site.old.replica) line.now).after) }
    ensures same { IfOk result (λ same. same ≡ bytes_eq (heard_text_of (state_of site.new.replica) number) line.now) }
{
    site.answer(alloc, line)?;
    let heard = heard_text(alloc, site, number)?;
    Ok(heard.as_slice() == line)
}

/// The line of the journal that tells what was heard of the first site.
const FIRST_HEARD: u64 = 3;

/// A site that knows so much and has heard of each site of its roster what the first lines tell, and has then answered the
/// others. Errors: `UnreadHeard` of the first line that isn't what it has heard, `UnkeptEntry`, and `NoMemory`.
fn replay_heard(alloc: Global, knowing: Site, lines: &[&[u8]]) -> Result<Site, HomeFault>
    ensures read { IfOk result (λ site. after_heard (length knowing.roster) 0 knowing.roster (state_of knowing.replica) (map (λ line. line.now) lines.now) ≡ Ok (replayed_of site)) }
    ensures fault { IfErr result (StopsAt (after_heard (length knowing.roster) 0 knowing.roster (state_of knowing.replica) (map (λ line. line.now) lines.now))) }
{
    let count = knowing.roster().len();
    let mut site = knowing;
    for number in 0..count {
        let fault = HomeFault::UnreadHeard {
            line: FIRST_HEARD + number as u64,
        };
        if number >= lines.len() {
            return Err(fault);
        }
        if !hears(alloc, &mut site, number, lines[number])? {
            return Err(fault);
        }
    }
    replay_kept(alloc, site, &lines[count..], FIRST_HEARD + count as u64)
}

/// The site of a journal that was compacted, by the entries behind the header: the first is what the site knew. Errors:
/// `UnreadKnown` where it isn't, `UnreadHeard`, `UnkeptEntry` and `NoMemory`.
fn open_known(alloc: Global, header: Header, lines: &[&[u8]]) -> Result<Site, HomeFault>
    requires here { header.site < length header.roster }
    requires compacted { is_compacted header.format ≡ true }
    ensures begun { IfOk result (λ site. begun_by (map (λ line. line.now) lines.now) (Some header) ≡ Ok (replayed_of site)) }
    ensures fault { IfErr result (StopsAt (begun_by (map (λ line. line.now) lines.now) (Some header))) }
{
    let Some((text, lines)) = lines.split_first() else {
        return Err(HomeFault::UnreadKnown);
    };
    let Some(site) = Site::knowing(alloc, header.roster, header.site, text)? else {
        return Err(HomeFault::UnreadKnown);
    };
    match header.format {
        JournalFormat::Four => replay_heard(alloc, site, lines),
        _ => replay_kept(alloc, site, lines, FIRST_HEARD),
    }
}

/// The site that the entries behind a header stand for. The errors are those of `replay`.
fn open_site(alloc: Global, header: Header, lines: &[&[u8]]) -> Result<Site, HomeFault>
    requires { header.site < length header.roster }
    ensures begun { IfOk result (λ site. begun_by (map (λ line. line.now) lines.now) (Some header) ≡ Ok (replayed_of site)) }
    ensures fault { IfErr result (StopsAt (begun_by (map (λ line. line.now) lines.now) (Some header))) }
{
    if header.format.is_compacted() {
        return open_known(alloc, header, lines);
    }
    let site = Site::new(alloc, header.roster, header.site);
    replay_kept(alloc, site, lines, 2)
}

/// The site that entries stand for: the first is the header. Errors: `NoHeader` where there is no entry, `UnreadHeader`
/// where the first is no header, `UnreadKnown` where the second should be what the site knew, and isn't, `UnreadHeard` of the
/// first entry behind it that should be what it had heard, and isn't, `UnkeptEntry` of the first of the others that the site
/// doesn't keep, and `NoMemory`.
pub fn replay(alloc: Global, entries: &[Vec<u8>]) -> Result<Site, HomeFault>
    ensures replayed { IfOk result (λ site. replay_of (texts_of entries.now) ≡ Some (replayed_of site)) }
    ensures fault { IfErr result (StopsReplay (texts_of entries.now)) }
{
    let Some((first, lines)) = entries.split_first() else {
        return Err(HomeFault::NoHeader);
    };
    match read_header(alloc, first)? {
        Some(header) => {
            let lines = texts(alloc, lines)?;
            open_site(alloc, header, &lines)
        }
        None => Err(HomeFault::UnreadHeader),
    }
}

/// What is told of lines, and those of the lines that are to be kept.
#[derive(Drop)]
pub(crate) struct AnsweredLines<'a> {
    pub(crate) answers: Vec<Told>,
    pub(crate) kept: Vec<&'a [u8]>,
}

/// Answers lines one after another, with words beside the answers where these are asked for. Where memory is refused, the
/// site may have done some of them.
pub(crate) fn answer_lines<'a>(
    alloc: Global,
    site: &mut Site,
    lines: &[&'a [u8]],
    asked: bool,
) -> Result<AnsweredLines<'a>, NoMemory>
    ensures roster { IfOk result (λ answered. site.new.roster ≡
        roster_after_lines site.old.roster (map (λ line. line.now) lines.now)) }
    ensures after { IfOk result (λ answered. state_of site.new.replica ≡
        after_lines site.old.roster (state_of site.old.replica) (map (λ line. line.now) lines.now)) }
    ensures answers { IfOk result (λ answered.
        AreReplies site.old.roster (state_of site.old.replica) (map (λ line. line.now) lines.now) (answers_in answered.answers.items)) }
    ensures words { IfOk result (λ answered. All (IsTold asked) answered.answers.items) }
    ensures kept { IfOk result (λ answered. map (λ line. line.now) answered.kept.items ≡
        kept_lines site.old.roster (state_of site.old.replica) (map (λ line. line.now) lines.now)) }
{
    let mut answers = Vec::new(alloc);
    let mut kept = Vec::new(alloc);
    for line in lines {
        let answered = site.answer(alloc, line)?;
        if answered.is_kept() {
            kept.push(*line)?;
        }
        let told = Told::new(alloc, site, line, answered, asked)?;
        answers.push(told)?;
    }
    Ok(AnsweredLines { answers, kept })
}
