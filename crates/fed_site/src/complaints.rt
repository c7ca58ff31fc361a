//! Why lines aren't done as they ask.
use crate::packets::part_text;
use fed_record::{Command, Refusal, Who};
use fed_stamp::SiteId;
use fed_wire::WireFault;
use fed_words::UsageFault;
use std::fmt;

/// A command that is refused: which of its line it is, what it is, and why it isn't done.
#[derive(Clone, Copy, PartialEq, Eq, Debug, Drop)]
pub struct RefusedCommand {
    /// Its index in the line, from 0.
    pub index: usize,
    /// Who asks for it.
    pub who: Who,
    /// The command.
    pub command: Command,
    /// Why it isn't done.
    pub refusal: Refusal,
}

/// Why a line isn't done as it asks.
#[derive(Clone, Copy, PartialEq, Eq, Debug, Drop)]
pub enum Complaint {
    /// The line can't be read.
    Unreadable,
    /// The words of a utility ask nothing.
    Misused(UsageFault),
    /// This command of the line is refused; it is the first that is.
    Refused(RefusedCommand),
    /// The text is no packet's.
    Unread(WireFault),
    /// The packet tells of a site that the roster hasn't.
    Foreign,
    /// The packet has seen more of this site's own operations than the site has made.
    Forgotten,
    /// The packet's sender is another site than this one, which is said to hand it in.
    NotFrom(SiteId),
    /// The packet needs what this site lacks, of that site.
    Gap(SiteId),
    /// What the board says runs at the site fits no machine, so that there is no plan.
    NoPlan,
    /// The roster that is told doesn't begin with the names of the one that the site knows.
    OtherRoster,
}

/// Writes the fault of a text that is no packet's.
fn write_unread<W: fmt::Write>(f: &mut fmt::Formatter<W>, fault: WireFault) -> fmt::Result {
    match fault {
        WireFault::NotJson => write!(f, "unread 1: the text is no JSON"),
        WireFault::Version(version) => {
            write!(
                f,
                "unread 2 {version}: the packet is of format {version}, not of 1, 2 or 3"
            )
        }
        WireFault::Shape { place } => {
            let part = part_text(place.part);
            let index = place.index;
            write!(
                f,
                "unread 3 {part} {index}: a part of the packet is missing or has a wrong form"
            )
        }
        WireFault::Range { place } => {
            let part = part_text(place.part);
            let index = place.index;
            write!(
                f,
                "unread 4 {part} {index}: a value of the packet is out of range"
            )
        }
        WireFault::NoMemory => write!(f, "unread 5: there was no memory for it"),
    }
}

/// One line for the user: the first words of the answer, and why.
impl fmt::Display for Complaint {
    fn fmt<W: fmt::Write>(&self, f: &mut fmt::Formatter<W>) -> fmt::Result {
        match self {
            Complaint::Unreadable => write!(
                f,
                "cannot be read: the line has no form that this site knows"
            ),
            Complaint::Misused(fault) => {
                let number = fault.number();
                write!(f, "usage {number}: {fault}")
            }
            Complaint::Refused(refused) => {
                let refusal = refused.refusal;
                let number = refusal.number();
                write!(f, "refused {number}: {refusal}")
            }
            Complaint::Unread(fault) => write_unread(f, *fault),
            Complaint::Foreign => write!(
                f,
                "foreign: the packet tells of a site that is not of this roster"
            ),
            Complaint::Forgotten => write!(
                f,
                "forgotten: the packet has seen operations of this site that its journal lacks: stop, and go on \
                with the newest journal"
            ),
            Complaint::NotFrom(_) => write!(
                f,
                "not from: the packet's sender is another site than the one that hands it in"
            ),
            Complaint::Gap(_) => write!(
                f,
                "gap: the packet rests on operations that this site has not seen yet"
            ),
            Complaint::NoPlan => write!(
                f,
                "no plan: what the packets say runs here fits no machine"
            ),
            Complaint::OtherRoster => write!(
                f,
                "other roster: it doesn't begin with the names that this site knows, in their order"
            ),
        }
    }
}
