//! What the threads of a site do.
ghost use Rattle.std.specs.Prelude.{◌≡◌, ◌<◌, ◌≤◌, ◌++◌, [], IfOk, IfSome, IsNone, OnOk, None, codes, length, map, string_bytes};
ghost use Rattle.std.specs.Result.{result_err};
ghost use Rattle.fed_board.specs.Board.{board_reads};
ghost use Rattle.fed_script.specs.LineView.{said_by};
ghost use Rattle.fed_threads.specs.Calls.{Looks};
ghost use Rattle.fed_threads.specs.Seat.{known_by, starts};
ghost use Rattle.fed_qstat.specs.Listed.{listed};
ghost use Rattle.fed_qstat.specs.Outcome.{line_of_usage};
ghost use Rattle.fed_main.specs.Thread.{asks as asks_site, reads, Answers, Does, Each, LineSays, Looked, MakesPacket, Only, ThreadSays};
ghost use Rattle.fed_machine.specs.Planned.{text_of_plan};

use fed_board::Board;
use fed_machine::plan_line;
use fed_qstat::{listing_text, outcome_line, usage_line};
use fed_record::{Command, Moment, Who};
use fed_script::Line;
use fed_stamp::{JobId, Roster, SiteId};
use fed_threads::{CallFault, Federation, Gate, Next, Seat};
use fed_words::UsageFault;
use fed_world::Outcome;
use std::alloc::{AllocError, Global};
use std::sync::Wait;

/// What a thread leaves.
#[derive(Drop)]
pub(crate) struct Report {
    /// Its seat.
    pub(crate) seat: Seat,
    /// The answers of the lines that it ran.
    pub(crate) text: String,
    /// The fault that it met, if it met one.
    pub(crate) fault: Option<CallFault>,
}

/// The sites of a script, which run at the same time.
#[derive(Drop)]
pub(crate) struct Sites<'a, G> {
    /// The memory that they grow from.
    pub(crate) alloc: Global,
    /// Their names and nodes.
    pub(crate) roster: &'a Roster,
    /// Their boards, journals and queues.
    pub(crate) federation: &'a Federation<G>,
}

/// A seat, and what was answered by it so far.
#[derive(Drop)]
pub(crate) struct Log {
    seat: Seat,
    text: String,
}

/// A site, as one of its two threads has it.
#[derive(Drop)]
struct LiveSite<'a, R, G> {
    rt: &'a R,
    sites: &'a Sites<'a, G>,
    here: SiteId,
}

/// Whether a line asks the site, by a thread of the site.
fn asks(here: SiteId, line: &Line) -> bool
    ensures { result ≡ asks_site here (said_by line.now) }
{
    match line {
        Line::Act { site, .. }
        | Line::List { site, .. }
        | Line::Misuse { site, .. }
        | Line::Ship { site, .. }
        | Line::Plan { site, .. } => site.get() == here.get(),
        Line::Skip | Line::Begin { .. } | Line::Take { .. } | Line::Compare { .. } => false,
    }
}

impl Log {
    /// A seat of its own, by which nothing was answered yet.
    fn new<G: Gate>(sites: &Sites<'_, G>) -> Log
        ensures { reads result ≡ record { known = starts; text = [] } }
    {
        Log {
            seat: sites.federation.seat(),
            text: String::new(sites.alloc),
        }
    }

    /// An answer more.
    fn add(&mut self, answer: &str) -> Result<(), AllocError>
        ensures { OnOk result (reads self.new ≡
            record { known = (reads self.old).known; text = (reads self.old).text ++ answer.now }) }
    {
        self.text.push_str(answer)?;
        Ok(())
    }

    /// What the thread leaves, which ended so.
    fn report(self, ended: Result<(), CallFault>) -> Report
        ensures known { known_by result.seat ≡ (reads self).known }
        ensures text { string_bytes result.text ≡ (reads self).text }
        ensures fault { result.fault ≡ result_err ended }
    {
        let Log { seat, text } = self;
        Report {
            seat,
            text,
            fault: ended.err(),
        }
    }
}

impl<'a, R: Wait, G: Gate> LiveSite<'a, R, G> {
    /// The site with this number, or `None` where the roster has no such site.
    fn new(rt: &'a R, sites: &'a Sites<'a, G>, number: u8) -> Option<LiveSite<'a, R, G>>
        ensures none { IsNone result → length sites.now.roster.now ≤ number }
        ensures here { IfSome result (λ site. site.here ≡ number) }
        ensures inside { IfSome result (λ site. site.here < length sites.now.roster.now) }
        ensures sites { IfSome result (λ site. site.sites.now.roster.now ≡ sites.now.roster.now) }
    {
        if usize::from(number) >= sites.roster.len() {
            return None;
        }
        let here = SiteId::new(number)?;
        Some(LiveSite { rt, sites, here })
    }

    /// A copy of the site's board.
    fn board(&self, log: &mut Log) -> Result<Board, CallFault>
        ensures looks { IfOk result (λ b. Looks (reads log.old).known (reads log.new).known self.now.here (board_reads b)) }
        ensures text { (reads log.new).text ≡ (reads log.old).text }
    {
        self.sites
            .federation
            .look(self.rt, self.here, &mut log.seat)
    }

    /// Somebody asks the site for a command.
    fn ask(&self, who: &Who, command: &Command, log: &mut Log) -> Result<(), CallFault>
        ensures { OnOk result (Answers
            (Does self.now.sites.now.roster.now self.now.here who.now command.now) (reads log.old) (reads log.new)) }
    {
        let said = self
            .sites
            .federation
            .call(self.rt, self.here, who, command, &mut log.seat)?;
        let answer = outcome_line(self.sites.alloc, self.sites.roster, Outcome::from(said))?;
        log.add(answer.as_str())?;
        Ok(())
    }

    /// Somebody asks the site for commands, one after another.
    fn act(&self, who: &Who, commands: &[Command], log: &mut Log) -> Result<(), CallFault>
        ensures { OnOk result (Answers
            (Each (Does self.now.sites.now.roster.now self.now.here who.now) commands.now) (reads log.old) (reads log.new)) }
    {
        for command in commands {
            self.ask(who, command, log)?;
        }
        Ok(())
    }

    /// The site lists jobs.
    fn list(&self, is_full: bool, jobs: &[JobId], log: &mut Log) -> Result<(), CallFault>
        ensures { OnOk result (Answers
            (Looked self.now.here (λ board. listed is_full self.now.sites.now.roster.now board jobs.now))
            (reads log.old) (reads log.new)) }
    {
        let board = self.board(log)?;
        let text = listing_text(self.sites.alloc, self.sites.roster, &board, is_full, jobs)?;
        log.add(text.as_str())?;
        Ok(())
    }

    /// The site plans its machine.
    fn plan(&self, moment: Moment, log: &mut Log) -> Result<(), CallFault>
        requires { self.now.here < length self.now.sites.now.roster.now }
        ensures { OnOk result (Answers
            (Looked self.now.here (λ board. text_of_plan self.now.sites.now.roster.now board self.now.here moment))
            (reads log.old) (reads log.new)) }
    {
        let board = self.board(log)?;
        let text = plan_line(
            self.sites.alloc,
            self.sites.roster,
            &board,
            self.here,
            moment,
        )?;
        log.add(text.as_str())?;
        Ok(())
    }

    /// The site makes a packet for a site.
    fn ship(&self, to: SiteId, log: &mut Log) -> Result<(), CallFault>
        ensures { OnOk result (Answers (MakesPacket self.now.here to) (reads log.old) (reads log.new)) }
    {
        self.sites
            .federation
            .ship(self.rt, self.here, to, &mut log.seat)?;
        log.add("shipped\n")?;
        Ok(())
    }

    /// Words of a utility ask nothing.
    fn misuse(&self, fault: UsageFault, log: &mut Log) -> Result<(), CallFault>
        ensures { OnOk result (Answers (Only (line_of_usage fault)) (reads log.old) (reads log.new)) }
    {
        let answer = usage_line(self.sites.alloc, fault)?;
        log.add(answer.as_str())?;
        Ok(())
    }

    /// Does what a line says.
    fn run_line(&self, line: &Line, log: &mut Log) -> Result<(), CallFault>
        requires { self.now.here < length self.now.sites.now.roster.now }
        ensures { OnOk result (Answers
            (LineSays self.now.sites.now.roster.now self.now.here (said_by line.now)) (reads log.old) (reads log.new)) }
    {
        match line {
            Line::Act { who, commands, .. } => self.act(who, commands, log),
            Line::List { full, jobs, .. } => self.list(*full, jobs, log),
            Line::Misuse { fault, .. } => self.misuse(*fault, log),
            Line::Ship { to, .. } => self.ship(*to, log),
            Line::Plan { moment, .. } => self.plan(*moment, log),
            Line::Skip | Line::Begin { .. } | Line::Take { .. } | Line::Compare { .. } => Ok(()),
        }
    }

    /// Runs those lines that ask the site, up to the first fault.
    fn run_lines(&self, lines: &[Line], log: &mut Log) -> Result<(), CallFault>
        requires { self.now.here < length self.now.sites.now.roster.now }
        ensures { OnOk result (Answers
            (ThreadSays self.now.sites.now.roster.now self.now.here (map said_by lines.now)) (reads log.old) (reads log.new)) }
    {
        for line in lines {
            if asks(self.here, line) {
                self.run_line(line, log)?;
            }
        }
        Ok(())
    }

    /// Puts an end mark into each site's queue, also where one was refused.
    fn end_all(&self) -> Result<(), CallFault> {
        let mut ended = Ok(());
        for number in 0..self.sites.roster.len() as u8 {
            if let Some(to) = SiteId::new(number) {
                ended = ended.and(self.sites.federation.end(self.rt, to));
            }
        }
        ended
    }

    /// Takes what is in the site's queue until each site has put an end mark there, or up to the first fault.
    fn take_all(&self, seat: &mut Seat) -> Result<(), CallFault> {
        let mut ended = 0usize;
        for _ in self.rt.forever() {
            if ended >= self.sites.roster.len() {
                break;
            }
            let next = self.sites.federation.take_next(self.rt, self.here, seat)?;
            ended = ended.saturating_add(usize::from(next == Next::Ended));
        }
        Ok(())
    }
}

/// Runs the lines that ask the site with this number, and then, also after a fault, puts an end mark into each site's
/// queue.
pub(crate) fn run_lines<R: Wait, G: Gate>(
    rt: &R,
    sites: &Sites<'_, G>,
    number: u8,
    lines: &[Line],
) -> Report
    ensures { number < length sites.now.roster.now → result.fault ≡ None →
        ThreadSays sites.now.roster.now number (map said_by lines.now)
        starts (known_by result.seat) (string_bytes result.text) }
{
    let mut log = Log::new(sites);
    let Some(site) = LiveSite::new(rt, sites, number) else {
        return log.report(Ok(()));
    };
    let ran = site.run_lines(lines, &mut log);
    let ended = site.end_all();
    log.report(ran.and(ended))
}

/// Takes what comes to the site with this number.
pub(crate) fn take_all<R: Wait, G: Gate>(rt: &R, sites: &Sites<'_, G>, number: u8) -> Report
    ensures { string_bytes result.text ≡ [] }
{
    let mut log = Log::new(sites);
    let Some(site) = LiveSite::new(rt, sites, number) else {
        return log.report(Ok(()));
    };
    let ended = site.take_all(&mut log.seat);
    log.report(ended)
}
