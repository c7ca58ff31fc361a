//! The program's own words.
ghost use Rattle.std.specs.Prelude.{◌≡◌, ◌∷◌, [], ℕ, List, None, Some, IfErr, IfOk, OnOk, false, codes, map, option_map, string_bytes, true};
ghost use Rattle.clap.specs.Words.{app_of, fault_of, first_of, found_of, kind_of, rows_of, rule_of, takes};
ghost use Rattle.nettle_words.specs.CommandLine.{Answers, Asks, Checks, Compacts, Makes, Serves, TellsWords, asked_by as asked_by_words, asked_in, at as at_app, compact as compact_app, first as first_app, flag as flag_rule, init as init_app, keep as keep_rule, program, required as required_rule, rest as rest_rule, serve as serve_app, task_in, value_in, values_in, with_directory as app_with_directory, words as words_app};
ghost use Rattle.nettle_words.specs.CommandLineView.{asked_of, task_of};

use clap::error::ErrorKind;
use clap::{Arg, ArgAction, ArgMatches, Command, Error};
use std::alloc::{AllocError, Global};

/// What the program is asked to do, with a directory but where it is `words`.
#[derive(Drop)]
pub enum Task<'a> {
    /// `init`: to make it the home of a site, of the roster that the words tell.
    Init { site: &'a str, sites: Vec<&'a str> },
    /// `at`: to answer the line of these words.
    At { words: Vec<&'a str> },
    /// `serve`: to answer the lines of standard input, in frames where `--frames` stands, and never to compact the journal
    /// where `--keep-history` does.
    Serve { frames: bool, keeps_history: bool },
    /// `compact`: to compact its journal, and to keep the old one in a file of this name.
    Compact { kept: Option<&'a str> },
    /// `check`: to tell what its journal has.
    Check,
    /// `words`: to tell the words that a line of a site may begin with.
    Words,
}

/// What the program is asked.
#[derive(Drop)]
pub struct Asked<'a> {
    /// The site's directory; empty where the task has none.
    pub directory: &'a str,
    /// What to do.
    pub task: Task<'a>,
}

const ABOUT: &str = "One site of a federation of batch queues";

const INIT: &str = "Makes a directory the home of a site";

const AT: &str =
    "Answers one line, whose words are given apart; take reads the packet's text from standard input";

const SERVE: &str = "Answers each line of standard input, and an empty line behind each answer";

const FRAMES: &str =
    "Answers by a head line, STATUS BYTES BYTES, the answer, and what at tells on standard error";

const KEEP_HISTORY: &str = "Never compacts the journal";

const COMPACT: &str =
    "Makes the journal begin with what the site has, where that is shorter than all that has led to it";

const KEEP: &str = "Copies the journal first to this file, which may not be there yet";

const SITES: &str = "Each site of the roster and its nodes, in the same order at all sites";

const CHECK: &str = "Tells what the journal has, and changes nothing";

const WORDS: &str = "Tells the words that a line of a site may begin with, each behind its kind";

/// A command with a directory as its first argument.
fn with_directory<'a>(
    alloc: Global,
    name: &'a str,
    about: &'a str,
) -> Result<Command<'a>, AllocError>
    ensures { IfOk result (λ command. app_of command ≡ app_with_directory name.now) }
{
    let directory = Arg::new(alloc, "DIR")
        .required(true)
        .help("The site's directory");
    Command::new(alloc, name).about(about).arg(directory)
}

/// The last argument of a command, with one value or more.
fn rest<'a>(alloc: Global, id: &'a str, help: &'a str) -> Arg<'a>
    ensures rule { rule_of result ≡ rest_rule id.now }
    ensures local { result.global ≡ false }
{
    Arg::new(alloc, id)
        .required(true)
        .num_args(1..)
        .action(ArgAction::Append)
        .help(help)
}

/// The argument that names the site.
fn site<'a>(alloc: Global) -> Arg<'a>
    ensures rule { rule_of result ≡ required_rule (codes "SITE") }
    ensures local { result.global ≡ false }
{
    Arg::new(alloc, "SITE")
        .required(true)
        .help("The site's name")
}

fn init<'a>(alloc: Global) -> Result<Command<'a>, AllocError>
    ensures { IfOk result (λ command. app_of command ≡ init_app) }
{
    with_directory(alloc, "init", INIT)?
        .arg(site(alloc))?
        .arg(rest(alloc, "NAME:NODES", SITES))
}

fn at<'a>(alloc: Global) -> Result<Command<'a>, AllocError>
    ensures { IfOk result (λ command. app_of command ≡ at_app) }
{
    let words = rest(
        alloc,
        "WORD",
        "The words of the line, as ann qsub -l nodes=2",
    )
    .trailing_var_arg(true);
    with_directory(alloc, "at", AT)?.arg(words)
}

/// An option without a value.
fn flag<'a>(alloc: Global, name: &'a str, help: &'a str) -> Arg<'a>
    ensures rule { rule_of result ≡ flag_rule name.now }
    ensures local { result.global ≡ false }
{
    Arg::new(alloc, name)
        .long(name)
        .action(ArgAction::SetTrue)
        .help(help)
}

fn serve<'a>(alloc: Global) -> Result<Command<'a>, AllocError>
    ensures { IfOk result (λ command. app_of command ≡ serve_app) }
{
    with_directory(alloc, "serve", SERVE)?
        .arg(flag(alloc, "frames", FRAMES))?
        .arg(flag(alloc, "keep-history", KEEP_HISTORY))
}

/// The option that names the file of the old journal.
fn keep<'a>(alloc: Global) -> Arg<'a>
    ensures rule { rule_of result ≡ keep_rule }
    ensures local { result.global ≡ false }
{
    Arg::new(alloc, "FILE").long("keep").help(KEEP)
}

fn compact<'a>(alloc: Global) -> Result<Command<'a>, AllocError>
    ensures { IfOk result (λ command. app_of command ≡ compact_app) }
{
    with_directory(alloc, "compact", COMPACT)?.arg(keep(alloc))
}

/// The program with the commands that make a site and answer one line.
fn first_commands<'a>(alloc: Global) -> Result<Command<'a>, AllocError>
    ensures { IfOk result (λ command. app_of command ≡ first_app) }
{
    Command::new(alloc, "nettlebeam")
        .about(ABOUT)
        .version("1.0.0 (logic dac8208d650f15bf)")
        .subcommand_required(true)
        .subcommand(init(alloc)?)?
        .subcommand(at(alloc)?)
}

fn words<'a>(alloc: Global) -> Command<'a>
    ensures { app_of result ≡ words_app }
{
    Command::new(alloc, "words").about(WORDS)
}

/// The program's command line.
fn command<'a>(alloc: Global) -> Result<Command<'a>, AllocError>
    ensures { IfOk result (λ command. app_of command ≡ program) }
{
    first_commands(alloc)?
        .subcommand(serve(alloc)?)?
        .subcommand(compact(alloc)?)?
        .subcommand(with_directory(alloc, "check", CHECK)?)?
        .subcommand(words(alloc))
}

/// The values of an argument.
fn values<'a>(alloc: Global, matches: &ArgMatches<'a>, id: &str) -> Result<Vec<&'a str>, AllocError>
    ensures { IfOk result (λ found. map (λ w. w.now) found.items ≡ values_in id.now (rows_of (found_of matches.now))) }
{
    match matches.get_strs(id) {
        Some(found) => Vec::from_slice(alloc, found),
        None => Ok(Vec::new(alloc)),
    }
}

/// The value of an argument.
fn value<'a>(matches: &ArgMatches<'a>, id: &str) -> &'a str
    ensures { result.now ≡ value_in id.now (rows_of (found_of matches.now)) }
{
    match matches.get_str(id) {
        Some(text) => text,
        None => "",
    }
}

/// The value of an argument, if it has one.
fn given<'a>(matches: &ArgMatches<'a>, id: &str) -> Option<&'a str>
    ensures { option_map (λ text. text.now) result ≡ first_of id.now (rows_of (found_of matches.now)) }
{
    matches.get_str(id)
}

/// What a command of this name is to do.
fn task_by<'a>(alloc: Global, name: &str, found: &ArgMatches<'a>) -> Result<Task<'a>, AllocError>
    ensures { IfOk result (λ task. task_of task ≡ task_in name.now (rows_of (found_of found.now))) }
{
    match name {
        "init" => Ok(Task::Init {
            site: value(found, "SITE"),
            sites: values(alloc, found, "NAME:NODES")?,
        }),
        "at" => Ok(Task::At {
            words: values(alloc, found, "WORD")?,
        }),
        "serve" => Ok(Task::Serve {
            frames: value(found, "frames") == "true",
            keeps_history: value(found, "keep-history") == "true",
        }),
        "compact" => Ok(Task::Compact {
            kept: given(found, "FILE"),
        }),
        "check" => Ok(Task::Check),
        _ => Ok(Task::Words),
    }
}

/// What a command of this name is asked.
fn asked_by<'a>(alloc: Global, name: &str, found: &ArgMatches<'a>) -> Result<Asked<'a>, AllocError>
    ensures { IfOk result (λ asked. asked_of asked ≡ asked_in (name.now, rows_of (found_of found.now))) }
{
    Ok(Asked {
        directory: value(found, "DIR"),
        task: task_by(alloc, name, found)?,
    })
}

/// Reads the program's words: its name, and then `init`, `at`, `serve`, `compact`, `check` or `words` with its arguments. The
/// error has the text to print, also where help or the version is asked for.
pub fn read_command_line<'a>(alloc: Global, words: &'a [String]) -> Result<Asked<'a>, Error>
    ensures asked { IfOk result (λ asked. asked_by_words (map string_bytes words.now) ≡ Some (asked_of asked)) }
    ensures whole { OnOk result (fault_of program (map string_bytes words.now) ≡ []) }
    ensures passes { IfErr result (λ error. takes program (map string_bytes words.now) ≡ true → kind_of error ≡ ErrorKind.OutOfMemory) }
{
    let command = command(alloc)?;
    let matches = match command.try_get_matches_from(words) {
        Ok(matches) => matches,
        Err(error) => return Err(error),
    };
    match matches.subcommand() {
        Some((name, found)) => Ok(asked_by(alloc, name, found)?),
        None => unreachable!(),
    }
}

/// One line of words for each command: it is taken, whatever the program is called, and asks what it says. The words of
/// `at` that begin with a hyphen are taken as they stand.
pub fn commands_are_taken()
    ensures init { (name : List ℕ) → Asks name (codes "init" ∷ codes "d" ∷ codes "a" ∷ codes "a:8" ∷ codes "b:4" ∷ [])
        (record { directory = codes "d"; task = Makes (codes "a") (codes "a:8" ∷ codes "b:4" ∷ []) }) }
    ensures at { (name : List ℕ) → Asks name (codes "at" ∷ codes "d" ∷ codes "ann" ∷ codes "qdel" ∷ codes "-h" ∷ codes "--" ∷ codes "-1" ∷ [])
        (record { directory = codes "d"; task = Answers (codes "ann" ∷ codes "qdel" ∷ codes "-h" ∷ codes "--" ∷ codes "-1" ∷ []) }) }
    ensures serve { (name : List ℕ) → Asks name (codes "serve" ∷ codes "d" ∷ []) (record { directory = codes "d"; task = Serves false false }) }
    ensures frames { (name : List ℕ) → Asks name (codes "serve" ∷ codes "--frames" ∷ codes "d" ∷ []) (record { directory = codes "d"; task = Serves true false }) }
    ensures history { (name : List ℕ) → Asks name (codes "serve" ∷ codes "d" ∷ codes "--keep-history" ∷ codes "--frames" ∷ []) (record { directory = codes "d"; task = Serves true true }) }
    ensures compact { (name : List ℕ) → Asks name (codes "compact" ∷ codes "d" ∷ []) (record { directory = codes "d"; task = Compacts None }) }
    ensures keep { (name : List ℕ) → Asks name (codes "compact" ∷ codes "--keep" ∷ codes "f" ∷ codes "d" ∷ [])
        (record { directory = codes "d"; task = Compacts (Some (codes "f")) }) }
    ensures check { (name : List ℕ) → Asks name (codes "check" ∷ codes "d" ∷ []) (record { directory = codes "d"; task = Checks }) }
    ensures words { (name : List ℕ) → Asks name (codes "words" ∷ []) (record { directory = []; task = TellsWords }) }
{}
