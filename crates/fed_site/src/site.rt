//! One site by itself: what it holds, and what it answers to a line.
ghost use Rattle.std.specs.Prelude.{◌≡◌, ◌↔◌, ◌<◌, false, Some, None, IfOk, IfSome, IsTrue, OnErr, OnOk, codes, if◌then◌else◌, is_none, length, map, option_map};
ghost use Rattle.std.specs.Cow.{cow_str_bytes};
ghost use Rattle.fed_board.specs.Board.{board_reads};
ghost use Rattle.fed_script.specs.LineView.{said_by};
ghost use Rattle.fed_replica.specs.State.{empty_at, state_of};
ghost use Rattle.fed_qstat.specs.Outcome.{answer_line};
ghost use Rattle.fed_machine.specs.Planned.{plan_or_none};
ghost use Rattle.fed_site.specs.declared.complaints.Complaint.{Complaint};
ghost use Rattle.fed_site.specs.SiteAnswer.{begun_of, bytes_of, complaint_of, kept_of, text_of};
ghost use Rattle.fed_site.specs.Journal.{SaidAs, after_lines};
ghost use Rattle.fed_site.specs.Known.{heard_line as line_of_heard, known_in, unheard};
ghost use Rattle.fed_site.specs.OwnLine.{told_by};
ghost use Rattle.fed_site.specs.OwnLineView.{read_as};
ghost use Rattle.fed_site.specs.Packets.{IsPacketText};
ghost use Rattle.fed_site.specs.Rosters.{next_roster, roster_after, roster_after_lines, roster_told};
ghost use Rattle.fed_site.specs.Says.{after_line, after_next, after_own, said_of, site_says};

use crate::acts::act;
use crate::answers::{Begun, LineText, TextAnswer, told, undone};
use crate::complaints::Complaint;
use crate::knowing::{heard_line, known, known_text};
use crate::look_texts::look_text;
use crate::own_lines::{OwnLine, read_line};
use crate::packets::{ship, take};
use crate::rosters::begins;
use fed_board::Board;
use fed_lattice::NoMemory;
use fed_machine::plan_lines;
use fed_qstat::{AnswerText, listing_text, usage_line};
use fed_replica::Replica;
use fed_script::{BoxedRoster, Line};
use fed_stamp::{Roster, SiteId, Version};
use std::alloc::Global;
use std::borrow::CowStr;
use std::marker::Model;

/// What a site answers to a line.
#[derive(Drop)]
pub enum SiteAnswer {
    /// A text.
    Text(TextAnswer),
    /// The line of a packet.
    Packet { text: Vec<u8> },
}

impl SiteAnswer {
    /// The bytes to write.
    pub fn bytes(&self) -> &[u8]
        ensures { result.now ≡ bytes_of self.now }
    {
        match self {
            SiteAnswer::Text(answer) => answer.text.as_str().as_bytes(),
            SiteAnswer::Packet { text } => text,
        }
    }

    /// Whether the line changed what the site holds, so that it is to be kept.
    pub fn is_kept(&self) -> bool
        ensures { result ≡ kept_of self.now }
    {
        match self {
            SiteAnswer::Text(answer) => answer.kept,
            SiteAnswer::Packet { .. } => false,
        }
    }

    /// Why the line isn't done as it asks, if so: the first complaint of its commands.
    pub fn complaint(&self) -> Option<Complaint>
        ensures { result ≡ complaint_of self.now }
    {
        match self {
            SiteAnswer::Text(answer) => answer.complaint,
            SiteAnswer::Packet { .. } => None,
        }
    }

    /// The job that the line began, if it did.
    pub fn begun(&self) -> Option<Begun>
        ensures { result ≡ begun_of self.now }
    {
        match self {
            SiteAnswer::Text(answer) => answer.begun,
            SiteAnswer::Packet { .. } => None,
        }
    }
}

/// One site of a roster, which may go on. What it holds is its replica.
#[derive(Drop)]
pub struct Site {
    roster: BoxedRoster,
    here: SiteId,
    replica: Replica,
}

impl Model for Site {
    ghost use Rattle.std.specs.Prelude.{◌≡◌, ◌<◌, length};
    ghost use Rattle.fed_site.specs.Site.{SiteValue};

    ghost Value = { SiteValue };

    ghost view = { λ s. record { roster = s.roster; replica = s.replica } };

    ghost invariant = { λ s. (s.replica.site ≡ s.here) × (s.here < length s.roster) };
}

/// The answer of a plan, or that there is none.
fn plan_answer(plan: Option<AnswerText>) -> TextAnswer
    ensures text { text_of result.text ≡ plan_or_none (option_map cow_str_bytes plan.entry) }
    ensures kept { result.kept ≡ false }
    ensures complaint { result.complaint ≡ (if is_none plan.entry then Some Complaint.NoPlan else None) }
    ensures begun { result.begun ≡ None }
{
    match plan {
        Some(text) => told(text),
        None => undone(CowStr::Borrowed("no plan\n"), Complaint::NoPlan),
    }
}

/// The answer to a line that can't be read.
fn unreadable() -> TextAnswer
    ensures text { text_of result.text ≡ answer_line (codes "cannot be read") }
    ensures kept { result.kept ≡ false }
    ensures complaint { result.complaint ≡ Some Complaint.Unreadable }
    ensures begun { result.begun ≡ None }
{
    undone(CowStr::Borrowed("cannot be read\n"), Complaint::Unreadable)
}

/// The answer to a roster that doesn't go on with the one that is known.
fn other_roster() -> TextAnswer
    ensures text { text_of result.text ≡ answer_line (codes "other roster") }
    ensures kept { result.kept ≡ false }
    ensures complaint { result.complaint ≡ Some Complaint.OtherRoster }
    ensures begun { result.begun ≡ None }
{
    undone(CowStr::Borrowed("other roster\n"), Complaint::OtherRoster)
}

impl Site {
    /// A site that holds nothing.
    pub fn new(alloc: Global, roster: BoxedRoster, here: SiteId) -> Site
        requires { here < length roster }
        ensures roster { result.roster ≡ roster }
        ensures state { state_of result.replica ≡ empty_at here }
    {
        Site {
            roster,
            here,
            replica: Replica::new(alloc, here),
        }
    }

    /// The roster.
    pub fn roster(&self) -> &Roster
        ensures { result.now ≡ self.now.roster }
    {
        self.roster.get()
    }

    /// The site's number in the roster.
    pub fn here(&self) -> SiteId
        ensures { result ≡ (state_of self.now.replica).site }
    {
        self.here
    }

    /// For each site the greatest counter that was seen of it.
    pub fn version(&self) -> Version
        ensures { result ≡ (state_of self.now.replica).view.version }
    {
        self.replica.board().version()
    }

    /// The board.
    pub fn board(&self) -> &Board
        ensures { board_reads result.now ≡ (state_of self.now.replica).view }
    {
        self.replica.board()
    }

    /// Does what a line says.
    fn do_line(&mut self, alloc: Global, line: Line) -> Result<SiteAnswer, NoMemory>
        ensures said { IfOk result (λ a. SaidAs self.old self.new a self.old.roster
            (after_line self.old.roster (state_of self.old.replica) (said_by line))) }
        ensures unchanged { OnErr result (self.new ≡ self.old) }
    {
        let roster = self.roster.get();
        let here = self.here;
        match line {
            Line::Act { who, commands, .. } => {
                let answer = act(alloc, roster, here, &mut self.replica, &who, &commands)?;
                Ok(SiteAnswer::Text(answer))
            }
            Line::Skip => Ok(SiteAnswer::Text(told(CowStr::Borrowed("")))),
            Line::List { full, jobs, .. } => {
                let text = listing_text(alloc, roster, self.replica.board(), full, &jobs)?;
                Ok(SiteAnswer::Text(told(CowStr::Owned(text))))
            }
            Line::Misuse { fault, .. } => {
                let text = CowStr::Owned(usage_line(alloc, fault)?);
                Ok(SiteAnswer::Text(undone(text, Complaint::Misused(fault))))
            }
            Line::Ship { to, .. } => Ok(SiteAnswer::Packet {
                text: ship(alloc, &self.replica, to)?,
            }),
            Line::Plan { moment, .. } => {
                let plan = plan_lines(alloc, roster, self.replica.board(), here, moment)?;
                Ok(SiteAnswer::Text(plan_answer(plan)))
            }
            _ => Ok(SiteAnswer::Text(unreadable())),
        }
    }

    /// Is told a roster, or words that name none.
    fn take_roster(&mut self, told: Option<BoxedRoster>) -> SiteAnswer
        ensures { SaidAs self.old self.new result (roster_told self.old.roster (Some told))
            (said_of (after_next self.old.roster (state_of self.old.replica) (next_roster self.old.roster told))) }
    {
        let Some(roster) = told else {
            return SiteAnswer::Text(other_roster());
        };
        if !begins(self.roster.get(), roster.get()) {
            return SiteAnswer::Text(other_roster());
        }
        let kept = self.roster.get() != roster.get();
        self.roster = roster;
        SiteAnswer::Text(TextAnswer {
            text: LineText::Other(CowStr::Borrowed("done\n")),
            kept,
            complaint: None,
            begun: None,
        })
    }

    /// Does what a line was read as.
    fn do_own(&mut self, alloc: Global, line: OwnLine<'_>) -> Result<SiteAnswer, NoMemory>
        ensures said { IfOk result (λ a. SaidAs self.old self.new a (roster_told self.old.roster (told_by (read_as line.entry)))
            (after_own self.old.roster (state_of self.old.replica) (read_as line.entry))) }
        ensures unchanged { OnErr result (self.new ≡ self.old) }
    {
        match line {
            OwnLine::Roster(told) => Ok(self.take_roster(told)),
            OwnLine::Packet(text) => {
                let answer = take(alloc, self.roster.get(), self.here, &mut self.replica, text)?;
                Ok(SiteAnswer::Text(answer))
            }
            OwnLine::Look(look) => {
                let seen = look_text(alloc, self.roster.get(), &self.replica, &look)?;
                Ok(SiteAnswer::Text(told(CowStr::Owned(seen))))
            }
            OwnLine::Line(Some(line)) => self.do_line(alloc, line),
            OwnLine::Line(None) => Ok(SiteAnswer::Text(unreadable())),
        }
    }

    /// Answers a line. Where memory is refused, the site holds what it held.
    pub fn answer(&mut self, alloc: Global, line: &[u8]) -> Result<SiteAnswer, NoMemory>
        ensures said { IfOk result (λ a. SaidAs self.old self.new a (roster_after self.old.roster line.now)
            (site_says self.old.roster (state_of self.old.replica) line.now)) }
        ensures unchanged { OnErr result (self.new ≡ self.old) }
    {
        let said = read_line(alloc, self.roster.get(), self.here, line)?;
        self.do_own(alloc, said)
    }

    /// Answers these lines, one after another. Where memory is refused, the site may have answered some of them.
    pub fn replay(&mut self, alloc: Global, lines: &[&[u8]]) -> Result<(), NoMemory>
        ensures roster { OnOk result (self.new.roster ≡
            roster_after_lines self.old.roster (map (λ line. line.now) lines.now)) }
        ensures replay { OnOk result (state_of self.new.replica ≡
            after_lines self.old.roster (state_of self.old.replica) (map (λ line. line.now) lines.now)) }
    {
        for line in lines {
            self.answer(alloc, line)?;
        }
        Ok(())
    }

    /// The site that has answered these lines, one after another.
    pub fn open(
        alloc: Global,
        roster: BoxedRoster,
        here: SiteId,
        lines: &[&[u8]],
    ) -> Result<Site, NoMemory>
        requires { here < length roster }
        ensures roster { IfOk result (λ site. site.roster ≡ roster_after_lines roster (map (λ line. line.now) lines.now)) }
        ensures replay { IfOk result (λ site. state_of site.replica ≡
            after_lines roster (empty_at here) (map (λ line. line.now) lines.now)) }
    {
        let mut site = Site::new(alloc, roster, here);
        site.replay(alloc, lines)?;
        Ok(site)
    }

    /// The site that knows what the text tells, which `known_text` has given of a site, and that has heard nothing; `None`
    /// where the text is not of a packet of the site itself that needs nothing and tells of no site that the roster hasn't.
    pub fn knowing(
        alloc: Global,
        roster: BoxedRoster,
        here: SiteId,
        text: &[u8],
    ) -> Result<Option<Site>, NoMemory>
        requires { here < length roster }
        ensures roster { IfOk result (λ site. IfSome site (λ site. site.roster ≡ roster)) }
        ensures state { IfOk result (λ site. option_map (λ site. state_of site.replica) site ≡ known_in roster here text.now) }
    {
        match known(alloc, roster.get(), here, text)? {
            Some(replica) => Ok(Some(Site {
                roster,
                here,
                replica,
            })),
            None => Ok(None),
        }
    }

    /// The text of the packet of all that the site knows: its own, needing nothing. What was heard isn't in it.
    pub fn known_text(&self, alloc: Global) -> Result<Vec<u8>, NoMemory>
        ensures { IfOk result (λ text. IsPacketText (unheard (state_of self.now.replica)) 0 text.items) }
    {
        known_text(alloc, &self.replica)
    }

    /// The line that takes a packet which tells nothing but what was heard from the site, so that another site which knows
    /// the same has heard it too; `None` where nothing was heard.
    pub fn heard_line(&self, alloc: Global, from: SiteId) -> Result<Option<Vec<u8>>, NoMemory>
        ensures { IfOk result (λ line. option_map (λ line. line.items) line ≡
            line_of_heard (state_of self.now.replica) from) }
    {
        heard_line(alloc, &self.replica, from)
    }

    /// Whether the other site holds the same: whether it is the same site, with the same board, and has heard the same. All
    /// that a site holds is read of it.
    pub fn holds_the_same(&self, other: &Site) -> bool
        ensures same { IsTrue result ↔ (self.now.replica ≡ other.now.replica) }
        ensures read { IsTrue result ↔ (state_of self.now.replica ≡ state_of other.now.replica) }
    {
        self.replica.is_same(&other.replica)
    }
}
