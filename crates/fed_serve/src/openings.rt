//! Answering an input while the home of the site is compacted, and opened again.
ghost use Rattle.std.specs.Prelude.{◌≡◌, ◌≤◌, List, ℕ, Some, length, true, false, IfOk};
ghost use Rattle.std.specs.Io.KnownBytes.{Consumes};
ghost use Rattle.fed_journal.specs.Device.{Leaves};
ghost use Rattle.fed_journal.specs.Journal.{entries_in};
ghost use Rattle.fed_home.specs.Home.{IsOpen, home_device, site_of};
ghost use Rattle.fed_home.specs.Replay.{replay, replayed_of};
ghost use Rattle.fed_serve.specs.Openings.{EndsAs, IsLeft, IsLongest, longest_of, text_of};

use crate::faults::ServeFault;
use crate::serving::{Served, serve};
use fed_home::{Compaction, Home, HomeFault};
use fed_journal::Device;
use fed_site::Site;
use std::alloc::Global;
use std::io::{self, ErrorKind, Read, Write};

/// A journal of no more bytes isn't long.
pub const LEAST_BYTES: usize = 1_048_576;

/// How many times as long as a compacted one a journal is that is long, so that what compacting takes is little beside what
/// has made it so long.
pub const GROWTH: usize = 4;

/// Why a journal isn't compacted.
#[derive(Clone, Copy, Debug, Drop)]
pub enum NotCompacted {
    /// The disk can't have a second file, for this cause. Nothing is done.
    Refused(io::Error),
    /// What would be written isn't read as what the site has. Nothing is done.
    Unread,
    /// The disk failed, or there was no memory. The journal is the old one or the compacted one, and is opened again.
    Stopped(HomeFault),
}

/// Why an input is not answered to its end.
#[derive(Clone, Copy, Debug, Drop)]
pub enum Stop<F> {
    /// Serving ended so.
    Served(ServeFault),
    /// The home could not be opened again, for this cause.
    Unopened(F),
}

/// Where the home of a site is kept.
pub trait Place<D: Device + Drop> {
    /// Why a home isn't opened again.
    type Fault: Drop;

    /// What is supposed of the place: whenever a home was opened again so far, its journal's file was one that a crash might
    /// have left of the home before.
    ghost trusted: { Self → Type 0 };

    /// Whether a compacted journal may be put in the place of the one of this site. Where it may not, it has been told why.
    fn may_replace(&self, site: &Site) -> bool;

    /// Lets a home go, and opens it again.
    fn open_again(&mut self, home: Home<D>) -> Result<Home<D>, Self::Fault>
        ensures open { IfOk result (λ again. IsOpen D.seen D.may_leave again) }
        ensures found { IfOk result (λ again. trusted self.new → IsLeft D.seen D.may_leave home again) }
        ensures before { trusted self.new → trusted self.old };

    /// Tells why lines are answered `not kept`.
    fn tell_not_kept(&self, cause: HomeFault);

    /// Tells why a journal isn't compacted.
    fn tell_not_compacted(&self, cause: NotCompacted);
}

/// The most bytes of a journal that isn't long, by those that it has or would have when it is compacted.
fn longest(compacted: usize) -> usize
    ensures { result ≡ longest_of compacted }
{
    LEAST_BYTES.max(compacted.saturating_mul(GROWTH))
}

/// What came of a journal that had become long.
#[derive(Clone, Copy, Debug, Drop)]
pub struct Compacted {
    /// The most bytes that the journal may have before it is long again.
    pub longest: usize,
    /// Whether the home goes on. Else it has to be opened again, and stands for the same site.
    pub goes_on: bool,
}

/// A home that goes on, by the bytes that its journal has or would have when it is compacted.
fn going_on(compacted: usize) -> Compacted
    ensures longest { result.longest ≡ longest_of compacted }
    ensures goes_on { result.goes_on ≡ true }
{
    Compacted {
        longest: longest(compacted),
        goes_on: true,
    }
}

/// Compacts a journal that has become long, where that makes it a fourth as long at most. It is long again once it has more
/// bytes than it has now, and more than four times those of a compacted one. Where it can't be compacted it is told why.
pub fn compact_long<D: Device + Drop, P: Place<D>>(place: &P, home: &mut Home<D>) -> Compacted
    requires { IsOpen D.seen D.may_leave home.old }
    ensures open { result.goes_on ≡ true → IsOpen D.seen D.may_leave home.new }
    ensures site { site_of home.new ≡ site_of home.old }
    ensures room { result.goes_on ≡ true → length (D.seen (home_device home.new)) ≤ result.longest }
    ensures rare { result.goes_on ≡ true → IsLongest D.seen home.old home.new result.longest }
    ensures stopped { result.goes_on ≡ false → length (D.seen (home_device home.old)) ≤ result.longest }
    ensures left { result.goes_on ≡ false → Leaves (λ c. replay (entries_in c) ≡ Some (replayed_of (site_of home.old))) (D.may_leave (home_device home.new)) }
{
    let len = home.journal_len();
    if !place.may_replace(home.site()) {
        return going_on(len);
    }
    match home.compact(len / GROWTH) {
        Ok(Compaction::Done) => going_on(home.journal_len()),
        Ok(Compaction::Long { bytes }) => going_on(bytes),
        Ok(Compaction::Refused(error)) => {
            place.tell_not_compacted(NotCompacted::Refused(error));
            going_on(len)
        }
        Ok(Compaction::Unread) => {
            place.tell_not_compacted(NotCompacted::Unread);
            going_on(len)
        }
        Err(fault) => {
            place.tell_not_compacted(NotCompacted::Stopped(fault));
            Compacted {
                longest: longest(len),
                goes_on: false,
            }
        }
    }
}

/// From how many bytes on a journal is long that may have been compacted before. Where its history is to be kept, it never is.
fn first_longest(keeps_history: bool) -> usize {
    if keeps_history {
        usize::MAX
    } else {
        LEAST_BYTES
    }
}

/// Answers each line of an input, until it ends, as `serve` does. Behind lines that can't be kept, which are told, the home is
/// opened again, and answers go on behind what was kept. A journal that has become long is compacted between two groups,
/// unless its history is to be kept. Gives the home back.
///
/// Errors: those of `serve`, but for `NotKept`, and those of opening again. What was answered before is kept.
pub fn serve_all<D: Device + Drop, R: Read, W: Write, P: Place<D>>(
    alloc: Global,
    place: &mut P,
    home: Home<D>,
    reader: &mut R,
    writer: &mut W,
    frames: bool,
    keeps_history: bool,
) -> Result<Home<D>, Stop<P::Fault>>
    requires { IsOpen D.seen D.may_leave home }
    ensures open { IfOk result (λ new. IsOpen D.seen D.may_leave new) }
    ensures served { P.trusted place.new → (inputs : List (List ℕ)) × Consumes (R.remaining reader.old) (R.remaining reader.new) (text_of inputs)
        × EndsAs frames home inputs (R.remaining reader.new) (W.contents writer.old) (W.contents writer.new) result }
{
    let mut home = home;
    let mut begun = Vec::new(alloc);
    let mut most_bytes = first_longest(keeps_history);
    for _ in 0..u64::MAX {
        let end = serve(
            alloc, &mut home, &mut begun, reader, writer, frames, most_bytes,
        );
        match end {
            Ok(Served::Ended) => return Ok(home),
            Ok(Served::Long) => {
                let compacted = compact_long(place, &mut home);
                most_bytes = compacted.longest;
                if compacted.goes_on {
                    continue;
                }
            }
            Err(ServeFault::NotKept(fault)) => place.tell_not_kept(fault),
            Err(fault) => return Err(Stop::Served(fault)),
        }
        match place.open_again(home) {
            Ok(again) => home = again,
            Err(fault) => return Err(Stop::Unopened(fault)),
        }
    }
    Err(Stop::Served(ServeFault::Read(ErrorKind::Other.into())))
}
