//! What the program does with a site.
ghost use Rattle.std.specs.Prelude.{◌≡◌, List, ℕ};
ghost use Rattle.fed_journal.specs.Files.{file_may_leave, file_seen};
ghost use Rattle.fed_home.specs.Home.{IsOpen, IsReplayed};

use crate::compacting::compact;
use crate::directories::{find_home, keep_tail, open_device, open_home};
use crate::faults::Fault;
use crate::making::make_home;
use crate::places::Directory;
use fed_home::{Home, read_header, replay};
use fed_journal::{FileDevice, Journal};
use fed_serve::{
    MAX_TAKE_BYTES, answered_status, at_most_longest, line_of_words, serve_all, take_line,
};
use fed_site::{Site, SiteAnswer, words_beside, words_of_lines};
use fed_stamp::{SITES, SiteId};
use nettle_words::{Asked, Task};
use std::alloc::{AllocError, Global};
use std::fs::{File, Files};
use std::io::{self, BufWriter, Read, Write};
use std::time::Clock;

/// The text of standard input, or its beginning where a line could not have all of it.
fn read_input(streams: &(impl Input + AllocGlobal)) -> Result<Vec<u8>, Fault> {
    let mut text = Vec::new(streams.alloc());
    streams
        .reader()
        .take(MAX_TAKE_BYTES as u64 + 1)
        .read_to_end(&mut text)
        .map_err(Fault::Input)?;
    Ok(text)
}

/// The line of these words. If `take` or `take from NAME` are all, it takes the packet of standard input.
fn read_line(streams: &(impl Input + AllocGlobal), words: &[&str]) -> Result<Vec<u8>, Fault> {
    match words {
        ["take"] | ["take", "from", _] => {
            Ok(take_line(streams.alloc(), words, &read_input(streams)?)?)
        }
        _ => Ok(line_of_words(streams.alloc(), words)?),
    }
}

/// Tells on standard error why a line isn't done as it asks, or what else there is to say of it. The status tells the
/// first also where standard error takes nothing, or where there is no memory for the words.
fn tell_user(streams: &(impl Eprint + AllocGlobal), site: &Site, line: &[u8], answer: &SiteAnswer) {
    let _ = match words_beside(streams.alloc(), site, line, answer) {
        Ok(Some(words)) => eprintln!(streams; "nettlebeam: {words}"),
        Ok(None) => Ok(()),
        Err(_) => tell_cause(streams, answer),
    };
}

/// Tells the cause alone of why a line isn't done as it asks, if so.
fn tell_cause(streams: &impl Eprint, answer: &SiteAnswer) -> io::Result<()> {
    match answer.complaint() {
        Some(complaint) => eprintln!(streams; "nettlebeam: {complaint}"),
        None => Ok(()),
    }
}

/// Writes an answer.
fn write_answer(streams: &impl Print, answer: &SiteAnswer) -> io::Result<()> {
    let mut writer = io::writer(streams);
    writer.write_all(answer.bytes())?;
    writer.flush()
}

/// Writes an answer, and tells on standard error why the line isn't done as it asks. Gives the status.
fn give_answer(
    streams: &(impl Print + Eprint + AllocGlobal),
    site: &Site,
    line: &[u8],
    answer: &SiteAnswer,
) -> Result<u8, Fault> {
    write_answer(streams, answer).map_err(Fault::Output)?;
    tell_user(streams, site, line, answer);
    Ok(answered_status(answer.complaint()))
}

/// Answers one line by a site at rest.
fn answer_line<R: Files<File = File> + Clock + AllocGlobal + Clone + Drop>(
    streams: &(impl Print + Eprint + AllocGlobal),
    home: &mut Home<FileDevice<R>>,
    line: &[u8],
) -> Result<u8, Fault>
    requires { IsOpen file_seen file_may_leave home.old }
{
    let answers = home.answer(&[line], false)?;
    match answers.first() {
        Some(told) => give_answer(streams, home.site(), line, &told.answer),
        None => Ok(0),
    }
}

/// Answers one line where what a crash left behind the journal's gate can be kept nowhere, for this cause: a line that keeps
/// nothing is answered all the same.
fn look_at<R: Files<File = File> + Clock + AllocGlobal + Clone + Drop>(
    streams: &(impl Print + Eprint + AllocGlobal),
    home: &mut Home<FileDevice<R>>,
    line: &[u8],
    fault: Fault,
) -> Result<u8, Fault>
    requires { (tail : List ℕ) × IsReplayed file_seen file_may_leave home.old tail }
{
    let Some(answers) = home.look(&[line], false)? else {
        return Err(fault);
    };
    match answers.first() {
        Some(told) => give_answer(streams, home.site(), line, &told.answer),
        None => Ok(0),
    }
}

/// Answers the line of these words.
fn answer_at<R: Files<File = File> + Clock + AllocGlobal + Clone + Drop>(
    streams: &(impl Input + Print + Eprint + AllocGlobal),
    rt: &R,
    directory: &str,
    words: &[&str],
) -> Result<u8, Fault> {
    // before the directory is locked, since standard input may be waited for
    let line = read_line(streams, words)?;
    let (mut home, cut) = find_home(rt, directory)?;
    match keep_tail(streams, rt, directory, &cut) {
        Ok(()) => {
            home.repair()?;
            answer_line(streams, &mut home, at_most_longest(&line))
        }
        Err(fault) => look_at(streams, &mut home, at_most_longest(&line), fault),
    }
}

/// The bytes of answers that are written at once.
const OUTPUT_BYTES: usize = 65_536;

/// Answers the lines of standard input, in frames where these are asked for. Where lines can't be kept
/// they are answered so, standard error says why, and the site is opened again and goes on. A journal that has become long
/// is compacted between two groups, unless its history is to be kept.
fn serve_input<R: Files<File = File> + Clock + AllocGlobal + Clone + Drop>(
    streams: &(impl Input + Print + Eprint + AllocGlobal),
    rt: &R,
    directory: &str,
    frames: bool,
    keeps_history: bool,
) -> Result<u8, Fault> {
    let home = open_home(streams, rt, directory)?;
    let mut writer = BufWriter::with_capacity(
        rt.alloc(),
        OUTPUT_BYTES,
        io::writer(streams),
    ).map_err(Fault::Output)?;
    let mut place = Directory::new(streams, rt, directory);
    let ended = serve_all(
        rt.alloc(),
        &mut place,
        home,
        &mut streams.reader(),
        &mut writer,
        frames,
        keeps_history,
    );
    match ended {
        Ok(_) => Ok(0),
        Err(stop) => Err(Fault::from(stop)),
    }
}

/// Whether a journal of these entries was compacted.
fn is_compacted(alloc: Global, entries: &[Vec<u8>]) -> Result<bool, Fault> {
    let Some(first) = entries.first() else {
        return Ok(false);
    };
    match read_header(alloc, first)? {
        Some(header) => Ok(header.format.is_compacted()),
        None => Ok(false),
    }
}

/// What a site has seen of each site of its roster.
fn seen_text(alloc: Global, site: &Site) -> Result<String, AllocError> {
    let mut text = String::new(alloc);
    let version = site.version();
    for number in 0..SITES as u8 {
        if let Some(seen) = SiteId::new(number)
            && let Some(name) = site.roster().name(seen)
        {
            let counter = version.get(seen);
            text.push_str(format!(in alloc; " {name} {counter}")?.as_str())?;
        }
    }
    Ok(text)
}

/// A line that tells how many entries a journal has, whether it was compacted, what its site has seen of each site, how many
/// jobs it knows, and how many bytes stand behind the gate, which were never answered and are cut when the site is opened.
fn report(alloc: Global, entries: &[Vec<u8>], site: &Site, behind: usize) -> Result<String, Fault> {
    let count = entries.len();
    let compacted = if is_compacted(alloc, entries)? {
        " (compacted)"
    } else {
        ""
    };
    let seen = seen_text(alloc, site)?;
    let jobs = site.board().jobs().count();
    Ok(format!(in alloc;
        "entries {count}{compacted}, seen{seen}, jobs {jobs}, unfinished bytes {behind}"
    )?)
}

/// Tells what the journal of a directory has.
fn check<R: Files<File = File> + Clock + AllocGlobal + Clone + Drop>(
    streams: &impl Print,
    rt: &R,
    directory: &str,
) -> Result<u8, Fault> {
    let device = open_device(rt, directory)?;
    let found = match Journal::open(rt.alloc(), device) {
        Ok((_, found)) => found,
        Err(unopened) => return Err(Fault::from(unopened.fault)),
    };
    let site = replay(rt.alloc(), &found.entries)?;
    let text = report(rt.alloc(), &found.entries, &site, found.tail.len())?;
    println!(streams; "{text}").map_err(Fault::Output)?;
    Ok(0)
}

/// Does what is asked, and gives the status: 0 where it is done, and 1 where the line isn't done as it asks.
pub fn do_task<R: Files<File = File> + Clock + AllocGlobal + Clone + Drop>(
    streams: &(impl Input + Print + Eprint + AllocGlobal),
    rt: &R,
    asked: &Asked,
) -> Result<u8, Fault> {
    let directory = asked.directory;
    match &asked.task {
        Task::Init { site, sites } => {
            make_home(streams, rt, directory, site, sites)?;
            Ok(0)
        }
        Task::At { words } => answer_at(streams, rt, directory, words),
        Task::Serve {
            frames,
            keeps_history,
        } => serve_input(streams, rt, directory, *frames, *keeps_history),
        Task::Compact { kept } => compact(streams, rt, directory, *kept),
        Task::Check => check(streams, rt, directory),
        Task::Words => {
            print!(streams; "{}", words_of_lines()).map_err(Fault::Output)?;
            Ok(0)
        }
    }
}
