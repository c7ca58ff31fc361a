//! The sites and the world of a script.
ghost use Rattle.std.specs.Prelude.{◌≡◌, ◌<◌, [], ◌++◌, codes, IfOk, IfSome, MatchResult, length, option_map, None, Some, string_bytes};
ghost use Rattle.std.specs.Cow.{cow_str_bytes};
ghost use Rattle.fed_stamp.specs.Roster.{IsRoster};
ghost use Rattle.fed_board.specs.Board.{board_reads};
ghost use Rattle.fed_model.specs.Limits.{IsWithinLimits};
ghost use Rattle.fed_model.specs.declared.events.Event.TheVariants.{Do};
ghost use Rattle.fed_script.specs.LineSites.{HasSites};
ghost use Rattle.fed_script.specs.LineView.{said_by};
ghost use Rattle.fed_replay.specs.ScriptWorld.{reads};
ghost use Rattle.fed_qstat.specs.Outcome.{answer_line, text_of_outcome};
ghost use Rattle.fed_qstat.specs.Listed.{listed};
ghost use Rattle.fed_machine.specs.Planned.{planned};
ghost use Rattle.fed_replay.specs.Script.{after_commands, after_event, answered, compared, does, later, says, view_at};

use fed_board::Board;
use fed_lattice::NoMemory;
use fed_machine::plan_line;
use fed_qstat::{AnswerText, listing_text, outcome_line, usage_line};
use fed_record::{Command, Moment, Who};
use fed_script::laws::lines_name_sites_of_the_roster;
use fed_script::{BoxedRoster, Line, read_later_line};
use fed_stamp::{JobId, Roster, SiteId, roster_is_lawful};
use fed_world::{Event, Outcome, World, site_sets_are_within_limits};
use std::alloc::Global;
use std::borrow::CowStr;
use std::marker::Model;

/// The sites that a script names, and the world of its run so far. It is seen as the roster and the events of the run.
#[derive(Drop)]
pub(crate) struct ScriptWorld {
    roster: BoxedRoster,
    world: World,
}

impl Model for ScriptWorld {
    ghost use Rattle.std.specs.Prelude.{◌≡◌, length};
    ghost use Rattle.fed_stamp.specs.Roster.{IsRoster};
    ghost use Rattle.fed_replay.specs.ScriptWorld.{ScriptWorldValue};

    ghost Value = { ScriptWorldValue };

    ghost view = { λ f. record { roster = f.roster; events = f.world.events } };

    ghost invariant = { λ f. (f.world.sites ≡ length f.roster) × IsRoster f.roster };
}

impl ScriptWorld {
    /// A federation in which nothing has happened yet.
    pub(crate) fn new(alloc: Global, roster: BoxedRoster) -> Result<ScriptWorld, NoMemory>
        ensures { IfOk result (λ f. f ≡ record { roster = roster; events = [] }) }
    {
        roster_is_lawful(roster.get());
        let world = World::new(alloc, roster.get())?;
        Ok(ScriptWorld { roster, world })
    }

    /// The sites.
    fn roster(&self) -> &Roster
        ensures same { result.now ≡ self.now.roster }
        ensures lawful { IsRoster self.now.roster }
    {
        self.roster.get()
    }

    /// The board of a site, whose operations are within limits.
    fn board(&self, site: SiteId) -> &Board
        requires { site < length self.now.roster }
        ensures stands { board_reads result.now ≡ view_at (reads self.now) site }
        ensures within { IsWithinLimits ((reads self.now).world.site site).set }
    {
        site_sets_are_within_limits(&self.world, site);
        self.world.board(site).unwrap()
    }

    /// The line that answers an event, where memory was not refused to it.
    fn answer(
        &self,
        alloc: Global,
        outcome: Result<Outcome, NoMemory>,
    ) -> Result<AnswerText, NoMemory>
        ensures { IfOk result (λ text. MatchResult outcome
            (λ o. cow_str_bytes text ≡ answer_line (text_of_outcome self.now.roster o)) (λ _. ⊥)) }
    {
        match outcome {
            Ok(outcome) => Ok(outcome_line(alloc, self.roster(), outcome)?),
            Err(refused) => Err(refused),
        }
    }

    /// One event more.
    fn happen(&mut self, alloc: Global, event: &Event) -> Result<AnswerText, NoMemory>
        ensures { IfOk result (λ text.
            after_event (reads self.old) event.now ≡ says (reads self.new) (cow_str_bytes text)) }
    {
        let outcome = self.world.step(event);
        self.answer(alloc, outcome)
    }

    /// Somebody asks a site for a command.
    fn ask(
        &mut self,
        alloc: Global,
        site: SiteId,
        who: &Who,
        command: &Command,
    ) -> Result<AnswerText, NoMemory>
        ensures { IfOk result (λ text.
            after_event (reads self.old) (Do site who.now command.now) ≡ says (reads self.new) (cow_str_bytes text)) }
    {
        let event = Event::Do {
            site,
            who: *who,
            command: *command,
        };
        self.happen(alloc, &event)
    }

    /// Somebody asks a site for commands, one after another.
    fn ask_each(
        &mut self,
        alloc: Global,
        site: SiteId,
        who: &Who,
        commands: &[Command],
    ) -> Result<String, NoMemory>
        ensures { IfOk result (λ text.
            after_commands (reads self.old) site who.now commands.now ≡ says (reads self.new) (string_bytes text)) }
    {
        let mut text = String::new(alloc);
        for command in commands {
            let answer = self.ask(alloc, site, who, command)?;
            text.push_str(answer.as_str())?;
        }
        Ok(text)
    }

    /// Somebody asks a site for commands, one after another. Most lines ask for one, whose answer is not copied.
    fn act(
        &mut self,
        alloc: Global,
        site: SiteId,
        who: &Who,
        commands: &[Command],
    ) -> Result<AnswerText, NoMemory>
        ensures { IfOk result (λ text.
            after_commands (reads self.old) site who.now commands.now ≡ says (reads self.new) (cow_str_bytes text)) }
    {
        match commands {
            [command] => self.ask(alloc, site, who, command),
            _ => Ok(CowStr::Owned(self.ask_each(alloc, site, who, commands)?)),
        }
    }

    /// A site lists jobs.
    fn list(
        &self,
        alloc: Global,
        site: SiteId,
        is_full: bool,
        jobs: &[JobId],
    ) -> Result<String, NoMemory>
        requires { site < length self.now.roster }
        ensures { IfOk result (λ text. string_bytes text ≡
            listed is_full self.now.roster (view_at (reads self.now) site) jobs.now) }
    {
        listing_text(alloc, self.roster(), self.board(site), is_full, jobs)
    }

    /// A site plans its machine.
    fn plan(&self, alloc: Global, site: SiteId, moment: Moment) -> Result<AnswerText, NoMemory>
        requires { site < length self.now.roster }
        ensures { IfOk result (λ text. cow_str_bytes text ≡
            planned self.now.roster (view_at (reads self.now) site) site moment) }
    {
        plan_line(alloc, self.roster(), self.board(site), site, moment)
    }

    /// Whether the boards of two sites are equal, which their versions tell.
    fn compare(&self, site: SiteId, other: SiteId) -> &'static str
        requires site { site < length self.now.roster }
        requires other { other < length self.now.roster }
        ensures { result.now ≡ answer_line (compared (reads self.now) site other) }
    {
        let here = self.board(site).version();
        let there = self.board(other).version();
        if here.le(&there) && there.le(&here) {
            "equal\n"
        } else {
            "different\n"
        }
    }

    /// Does what a line says, and gives the text that answers it.
    fn do_line(&mut self, alloc: Global, line: Line) -> Result<AnswerText, NoMemory>
        requires { HasSites (length self.old.roster) (said_by line) }
        ensures { IfOk result (λ text.
            later (reads self.old) (said_by line) ≡ says (reads self.new) (cow_str_bytes text)) }
    {
        match line {
            Line::Skip => Ok(CowStr::Borrowed("")),
            Line::Begin { .. } => Ok(CowStr::Borrowed("")),
            Line::Act {
                site,
                who,
                commands,
            } => self.act(alloc, site, &who, &commands),
            Line::List { site, full, jobs } => {
                Ok(CowStr::Owned(self.list(alloc, site, full, &jobs)?))
            }
            Line::Misuse { fault, .. } => Ok(CowStr::Owned(usage_line(alloc, fault)?)),
            Line::Ship { site, to } => self.happen(alloc, &Event::Ship { site, to }),
            Line::Take { site, packet } => self.happen(alloc, &Event::Take { site, packet }),
            Line::Plan { site, moment } => self.plan(alloc, site, moment),
            Line::Compare { site, other } => Ok(CowStr::Borrowed(self.compare(site, other))),
        }
    }

    /// Does what a line says that was read, and gives the text that answers it, or `None` where the line can't be read.
    #[tactic(auto, using(crate::proofs::ScriptWorlds::done_line))]
    fn do_read(&mut self, alloc: Global, read: Option<Line>) -> Result<Option<AnswerText>, NoMemory>
        requires { IfSome read (λ line. HasSites (length self.old.roster) (said_by line)) }
        ensures ok { IfOk result (λ text. option_map (λ t. says (Some (reads self.new)) (cow_str_bytes t)) text ≡
            option_map (does (Some (reads self.old))) (option_map said_by read)) }
        ensures unread { read ≡ None → result ≡ Ok None }
    {
        match read {
            Some(line) => Ok(Some(self.do_line(alloc, line)?)),
            None => Ok(None),
        }
    }

    /// Runs a line, and gives the text that answers it, or `None` where the line can't be read.
    pub(crate) fn run_line(
        &mut self,
        alloc: Global,
        bytes: &[u8],
    ) -> Result<Option<AnswerText>, NoMemory>
        ensures { IfOk result (λ text. option_map (λ t. says (Some (reads self.new)) (cow_str_bytes t)) text ≡
            answered (Some (reads self.old)) bytes.now) }
    {
        lines_name_sites_of_the_roster();
        let read = read_later_line(alloc, self.roster(), self.world.made(), bytes)?;
        self.do_read(alloc, read)
    }
}
