//! Sites on a disk. Whatever a site says rests on entries that the disk has had before.
ghost use Rattle.std.specs.Prelude.{◌≡◌, ◌≢◌, ◌⊎◌, ◌≤◌, ◌<◌, ◌+◌, ◌++◌, ◌∷◌, [], List, ℕ, Ok, Some, false, length, map, min, IfErr, IfOk, IfSome, IsErrOf, MatchOption, MatchResult, OnErr, OnOk};
ghost use Rattle.std.specs.List.{All};
ghost use Rattle.fed_site.specs.Journal.{after_lines, kept_lines};
ghost use Rattle.fed_site.specs.Rosters.{roster_after_lines};
ghost use Rattle.fed_site.specs.Told.{IsTold, answers_in};
ghost use Rattle.fed_journal.specs.Device.{LeavesJust, LeavesOnly};
ghost use Rattle.fed_journal.specs.Journal.{IsBeforeOrAfter, IsRead, IsSettled, device_of, entries_in};
ghost use Rattle.fed_journal.specs.Lines.{IsLine, Stands, at_rest, recovered, texts_of};
ghost use Rattle.fed_stamp.specs.declared.sites.TheConstants.{SITES};
ghost use Rattle.fed_home.specs.Compaction.{AreEntriesOf, AreOfAnother};
ghost use Rattle.fed_home.specs.Fault.{StopsAnswers, StopsCompaction, StopsMaking, StopsOpening, StopsRepair, is_in_doubt};
ghost use Rattle.fed_home.specs.Home.{IsBeforeOrHeader};
ghost use Rattle.fed_home.specs.Replay.{AreReplies, replay as replay_of, replayed_of};

use crate::compactions::{Compaction, bytes_of, entries_from, stand_for};
use crate::faults::HomeFault;
use crate::headers::read_header;
use crate::runs::{answer_lines, replay, texts};
use fed_journal::{Device, Journal, Replacement, are_lines};
use fed_lattice::NoMemory;
use fed_site::{Site, Told};
use std::alloc::Global;

/// A site and its journal. It is read by `open`, and answers lines once `repair` has brought its file to rest.
#[derive(Drop)]
pub struct Home<D: Device + Drop> {
    alloc: Global,
    site: Site,
    journal: Journal<D>,
}

/// A device that is no home, and why.
#[derive(Drop)]
pub struct UnopenedHome<D: Device + Drop> {
    /// The device, which is to be opened again before it is used.
    pub device: D,
    /// Why it is no home.
    pub fault: HomeFault,
}

/// Writes the header to a journal that has these entries, of which there may be none.
#[tactic(auto, using(crate::proofs::Replays::header_alone, crate::proofs::Replays::header_knows, crate::proofs::Replays::header_unread))]
fn begin<D: Device + Drop>(
    alloc: Global,
    journal: &mut Journal<D>,
    entries: &[Vec<u8>],
    header: &[u8],
) -> Result<Site, HomeFault>
    requires read { (tail : List ℕ) × IsRead D.seen D.may_leave journal.old tail }
    requires entries { recovered (D.seen (device_of journal.old)) ≡ Ok (texts_of entries.now) }
    ensures settled { IfOk result (λ site. IsSettled D.seen D.may_leave journal.new) }
    ensures replayed { IfOk result (λ site. replay_of (header.now ∷ []) ≡ Some (replayed_of site)) }
    ensures made { IfOk result (λ site. (recovered (D.seen (device_of journal.old)) ≡ Ok []) × (recovered (D.seen (device_of journal.new)) ≡ Ok (header.now ∷ []))) }
    ensures any_moment { LeavesOnly D.moment D.left_since (device_of journal.old) (device_of journal.new)
        (IsBeforeOrHeader (D.seen (device_of journal.old)) header.now) }
    ensures no_error { IfOk result (λ site. D.errors (device_of journal.new) ≡ D.errors (device_of journal.old)) }
    ensures fault { IfErr result (StopsMaking (D.errors (device_of journal.old)) (D.errors (device_of journal.new)) (D.seen (device_of journal.old)) header.now) }
{
    if !entries.is_empty() {
        return Err(HomeFault::HasEntries);
    }
    let Some(named) = read_header(alloc, header)? else {
        return Err(HomeFault::UnreadHeader);
    };
    if named.format.is_compacted() {
        return Err(HomeFault::UnreadHeader);
    }
    journal.repair()?;
    journal.append(&[header])?;
    Ok(Site::new(alloc, named.roster, named.site))
}

impl<D: Device + Drop> Home<D> {
    ghost use Rattle.fed_home.specs.Home.{IsOpen, IsReplayed, gate_of, state_in, home_device, site_of};

    /// Makes the home of a new site in a file that has no entry: it is new, or was cut short before the header was
    /// acknowledged. Gives what stood behind the closed gate too, which is cut. Errors: `Damaged` and `HasEntries` of a file
    /// that isn't so, `UnreadHeader` of a header that `read_header` doesn't read, or that is of format 2 or 4, `Full`, `Failed`,
    /// `InDoubt` and `NoMemory`.
    pub fn make(
        alloc: Global,
        device: D,
        header: &[u8],
    ) -> Result<(Home<D>, Vec<u8>), UnopenedHome<D>>
        requires { LeavesJust (D.seen device) (D.may_leave device) }
        ensures open { IfOk result (λ made. IsOpen D.seen D.may_leave made.0) }
        ensures header { IfOk result (λ made. recovered (D.seen (home_device made.0)) ≡ Ok (header.now ∷ [])) }
        ensures cut { IfOk result (λ made. Stands (D.seen device) [] made.1.items) }

        // A crash at any moment of the call leaves what the file stood for, or where that was nothing, the header.
        ensures any_moment { MatchResult result
            (λ made. LeavesOnly D.moment D.left_since device (home_device made.0) (IsBeforeOrHeader (D.seen device) header.now))
            (λ unopened. LeavesOnly D.moment D.left_since device unopened.device (IsBeforeOrHeader (D.seen device) header.now)) }
        ensures no_error { IfOk result (λ made. D.errors (home_device made.0) ≡ D.errors device) }
        ensures fault { IfErr result (λ unopened. StopsMaking (D.errors device) (D.errors unopened.device) (D.seen device) header.now unopened.fault) }
    {
        match Journal::open(alloc, device) {
            Ok((mut journal, found)) => match begin(alloc, &mut journal, &found.entries, header) {
                Ok(site) => {
                    let home = Home {
                        alloc,
                        site,
                        journal,
                    };
                    Ok((home, found.tail))
                }
                Err(fault) => Err(UnopenedHome {
                    device: journal.into_device(),
                    fault,
                }),
            },
            Err(unopened) => Err(UnopenedHome {
                device: unopened.device,
                fault: HomeFault::from(unopened.fault),
            }),
        }
    }

    /// The home in a file that the disk has, as after a crash, and what stands behind the file's closed gate. Changes
    /// nothing: so that can be kept elsewhere before `repair` cuts it, and nothing is lost by a crash in between. Errors:
    /// `Damaged` of a file that is damaged, `NoHeader` of one that has no entry, `UnreadHeader` of one whose first entry is no
    /// header, `UnreadKnown` of one whose second entry should be what the site knew, and isn't, `UnreadHeard` of one where an
    /// entry behind that should be what it had heard of another, and isn't, `UnkeptEntry` of one with an entry that the site
    /// wouldn't keep there, `Failed` and `NoMemory`.
    pub fn open(alloc: Global, device: D) -> Result<(Home<D>, Vec<u8>), UnopenedHome<D>>
        requires { LeavesJust (D.seen device) (D.may_leave device) }
        ensures replayed { IfOk result (λ opened. IsReplayed D.seen D.may_leave opened.0 opened.1.items) }

        // The file is as it was, and a crash at any moment of the call leaves it so.
        ensures same { MatchResult result (λ opened. D.seen (home_device opened.0) ≡ D.seen device) (λ unopened. D.seen unopened.device ≡ D.seen device) }
        ensures any_moment { MatchResult result
            (λ opened. LeavesOnly D.moment D.left_since device (home_device opened.0) (λ c. c ≡ D.seen device))
            (λ unopened. LeavesOnly D.moment D.left_since device unopened.device (λ c. c ≡ D.seen device)) }
        ensures no_error { IfOk result (λ opened. D.errors (home_device opened.0) ≡ D.errors device) }
        ensures fault { IfErr result (λ unopened. StopsOpening (D.errors device) (D.errors unopened.device) (D.seen device) unopened.fault) }
    {
        match Journal::open(alloc, device) {
            Ok((journal, found)) => match replay(alloc, &found.entries) {
                Ok(site) => {
                    let home = Home {
                        alloc,
                        site,
                        journal,
                    };
                    Ok((home, found.tail))
                }
                Err(fault) => Err(UnopenedHome {
                    device: journal.into_device(),
                    fault,
                }),
            },
            Err(unopened) => Err(UnopenedHome {
                device: unopened.device,
                fault: HomeFault::from(unopened.fault),
            }),
        }
    }

    /// Brings the file to rest: cuts what stands behind its gate. After an `Err`, which is `Failed` or `NoMemory`, the home has
    /// to be opened again.
    pub fn repair(&mut self) -> Result<(), HomeFault>
        requires { (tail : List ℕ) × IsReplayed D.seen D.may_leave self.old tail }
        ensures open { OnOk result (IsOpen D.seen D.may_leave self.new) }
        ensures same { OnOk result (recovered (D.seen (home_device self.new)) ≡ recovered (D.seen (home_device self.old))) }
        ensures site { site_of self.new ≡ site_of self.old }

        // A crash at any moment of the call leaves the same entries.
        ensures any_moment { LeavesOnly D.moment D.left_since (home_device self.old) (home_device self.new) (λ c. recovered c ≡ recovered (D.seen (home_device self.old))) }
        ensures no_error { OnOk result (D.errors (home_device self.new) ≡ D.errors (home_device self.old)) }
        ensures fault { IfErr result (StopsRepair (D.errors (home_device self.old)) (D.errors (home_device self.new))) }
    {
        Ok(self.journal.repair()?)
    }

    /// Answers lines, one after another. Those that changed what the site holds are one group of the journal, which the disk
    /// has before an answer is given. Words that are asked for are of the site as the line left it. After an `Err` no line was
    /// answered, and the home has to be opened again. After `InDoubt` the file may have the group or not; after any other, which
    /// is `Full`, `Failed` or `NoMemory`, it has nothing of it.
    pub fn answer(&mut self, lines: &[&[u8]], asked: bool) -> Result<Vec<Told>, HomeFault>
        requires { IsOpen D.seen D.may_leave self.old }
        ensures open { IfOk result (λ answers. IsOpen D.seen D.may_leave self.new) }
        ensures answers { IfOk result (λ answers.
            AreReplies (site_of self.old).roster (state_in self.old) (map (λ line. line.now) lines.now) (answers_in answers.items)) }
        ensures words { IfOk result (λ answers. All (IsTold asked) answers.items) }
        ensures kept { IfOk result (λ answers. recovered (D.seen (home_device self.new)) ≡
            Ok (entries_in (D.seen (home_device self.old)) ++ kept_lines (site_of self.old).roster (state_in self.old) (map (λ line. line.now) lines.now))) }
        ensures roster { IfOk result (λ answers. (site_of self.new).roster ≡
            roster_after_lines (site_of self.old).roster (map (λ line. line.now) lines.now)) }
        ensures left { IfOk result (λ answers. state_in self.new ≡
            after_lines (site_of self.old).roster (state_in self.old) (map (λ line. line.now) lines.now)) }

        // A crash at any moment of the call leaves the entries from before it, with the whole group or without any of it.
        ensures any_moment { LeavesOnly D.moment D.left_since (home_device self.old) (home_device self.new)
            (IsBeforeOrAfter (entries_in (D.seen (home_device self.old)))
            (kept_lines (site_of self.old).roster (state_in self.old) (map (λ line. line.now) lines.now))) }

        // An error that doesn't leave the group in doubt leaves nothing of it, whenever a crash comes.
        ensures nothing { IfErr result (λ fault. is_in_doubt fault ≡ false →
            LeavesOnly D.moment D.left_since (home_device self.old) (home_device self.new)
            (λ c. recovered c ≡ Ok (entries_in (D.seen (home_device self.old))))) }
        ensures no_error { IfOk result (λ answers. D.errors (home_device self.new) ≡ D.errors (home_device self.old)) }
        ensures fault { IfErr result (StopsAnswers (D.errors (home_device self.old)) (D.errors (home_device self.new))
            (length (at_rest (entries_in (D.seen (home_device self.old))
            ++ kept_lines (site_of self.old).roster (state_in self.old) (map (λ line. line.now) lines.now))))) }

        // After an error the home still tells the gate behind what was acknowledged.
        ensures gate { OnErr result (gate_of self.new ≡ gate_of self.old) }
    {
        let answered = answer_lines(self.alloc, &mut self.site, lines, asked)?;
        self.journal.append(&answered.kept)?;
        Ok(answered.answers)
    }

    /// Answers lines that keep nothing, also where the file isn't at rest, as when what stands behind its gate can't be kept
    /// elsewhere. The file is left alone. `None` where one of the lines would be kept: then none is answered, and the home has to
    /// be opened again, as after `NoMemory`.
    pub fn look(&mut self, lines: &[&[u8]], asked: bool) -> Result<Option<Vec<Told>>, NoMemory>
        requires { (tail : List ℕ) × IsReplayed D.seen D.may_leave self.old tail }
        ensures keeps { IfOk result (λ looked. MatchOption looked
            (kept_lines (site_of self.old).roster (state_in self.old) (map (λ line. line.now) lines.now) ≢ [])
            (λ answers. kept_lines (site_of self.old).roster (state_in self.old) (map (λ line. line.now) lines.now) ≡ [])) }
        ensures answers { IfOk result (λ looked. IfSome looked (λ answers.
            AreReplies (site_of self.old).roster (state_in self.old) (map (λ line. line.now) lines.now) (answers_in answers.items))) }
        ensures words { IfOk result (λ looked. IfSome looked (λ answers. All (IsTold asked) answers.items)) }
        ensures device { home_device self.new ≡ home_device self.old }
        ensures replayed { IfOk result (λ looked. IfSome looked (λ answers.
            (tail : List ℕ) → IsReplayed D.seen D.may_leave self.old tail → IsReplayed D.seen D.may_leave self.new tail)) }
        ensures roster { IfOk result (λ looked. IfSome looked (λ answers. (site_of self.new).roster ≡ (site_of self.old).roster)) }
        ensures left { IfOk result (λ looked. IfSome looked (λ answers. state_in self.new ≡
            after_lines (site_of self.old).roster (state_in self.old) (map (λ line. line.now) lines.now))) }
    {
        let answered = answer_lines(self.alloc, &mut self.site, lines, asked)?;
        if answered.kept.is_empty() {
            Ok(Some(answered.answers))
        } else {
            Ok(None)
        }
    }

    /// Puts in the place of the journal one that begins with what the site has, and has no other entry. It is read again
    /// first, and stands for the same site. `Long` where it would have more than this many bytes, `Refused` where the disk
    /// can't have a second file, and `Unread` where they would not be read as what the site has: then nothing is done. After
    /// an `Err` the home has to be opened again: after `Failed` the file is the one or the other; after `Full` and `NoMemory`
    /// nothing is done.
    pub fn compact(&mut self, most_bytes: usize) -> Result<Compaction, HomeFault>
        requires { IsOpen D.seen D.may_leave self.old }
        ensures open { IfOk result (λ came. IsOpen D.seen D.may_leave self.new) }
        ensures site { site_of self.new ≡ site_of self.old }
        ensures short { IfOk result (λ came. came ≡ Compaction.Done → length (entries_in (D.seen (home_device self.new))) ≤ 2 + SITES) }
        ensures done { IfOk result (λ came. came ≡ Compaction.Done → length (D.seen (home_device self.new)) ≤ most_bytes) }
        ensures undone { IfOk result (λ came. came ≢ Compaction.Done → self.new ≡ self.old) }
        ensures long { IfOk result (λ came. (bytes : ℕ) → came ≡ Compaction.Long bytes → (most_bytes < bytes)
            × (entries : List (List ℕ)) × AreEntriesOf (replayed_of (site_of self.old)) entries × (bytes ≡ min (length (at_rest entries)) usize.MAX)) }
        ensures unread { IfOk result (λ came. came ≡ Compaction.Unread →
            (entries : List (List ℕ)) × AreEntriesOf (replayed_of (site_of self.old)) entries
            × ((¬ All IsLine entries) ⊎ AreOfAnother (replayed_of (site_of self.old)) entries)) }

        // A crash at any moment of the call leaves entries that stand for the site.
        ensures any_moment { LeavesOnly D.moment D.left_since (home_device self.old) (home_device self.new)
            (λ c. replay_of (entries_in c) ≡ Some (replayed_of (site_of self.old))) }
        ensures no_error { IfOk result (λ came. D.errors (home_device self.new) ≡ D.errors (home_device self.old)) }
        ensures fault { IfErr result (StopsCompaction (replayed_of (site_of self.old)) (D.errors (home_device self.old)) (D.errors (home_device self.new))) }
        ensures untouched { IsErrOf result HomeFault.NoMemory → self.new ≡ self.old }
        ensures full { IsErrOf result HomeFault.Full → self.new ≡ self.old }
    {
        let entries = entries_from(self.alloc, &self.site)?;
        let bytes = bytes_of(&entries);
        if bytes > most_bytes {
            return Ok(Compaction::Long { bytes });
        }
        let lines = texts(self.alloc, &entries)?;
        if !are_lines(&lines) || !stand_for(self.alloc, &entries, &self.site)? {
            return Ok(Compaction::Unread);
        }
        match self.journal.replace(&lines)? {
            Replacement::Done => {
                let _bytes = self.journal.file_len();
                Ok(Compaction::Done)
            }
            Replacement::Refused(error) => Ok(Compaction::Refused(error)),
        }
    }

    /// How many bytes the journal has.
    pub fn journal_len(&self) -> usize
        requires { IsOpen D.seen D.may_leave self.now }
        ensures { result ≡ length (D.seen (home_device self.now)) }
    {
        self.journal.file_len()
    }

    /// Where the journal's closed gate stands behind the last entry that is acknowledged, in bytes from the front; also
    /// after lines that could not be kept. A home that is opened again and tells less has lost entries.
    pub fn gate(&self) -> usize
        ensures { result ≡ gate_of self.now }
    {
        self.journal.gate()
    }

    /// The site.
    pub fn site(&self) -> &Site
        ensures { result.now ≡ site_of self.now }
    {
        &self.site
    }

    /// Gives the device back.
    pub fn into_device(self) -> D
        ensures { result ≡ home_device self }
    {
        self.journal.into_device()
    }
}
