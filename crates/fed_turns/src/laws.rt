//! Laws of turns: each site answers its lines by itself, and the texts of packets are carried between sites by whatever
//! means. Each function does nothing: its contract is the law.
ghost use Rattle.std.specs.Prelude.{◌≡◌, ◌≢◌, ◌⊎◌, ℕ, ◌<◌, ◌≤◌, Bool, false, true, List, [], ◌∷◌, ◌++◌, length, map, codes, All, Some, Ok, option_map};
ghost use Rattle.std.specs.List.{list_any};
ghost use Rattle.fed_stamp.specs.Roster.{IsRoster};
ghost use Rattle.fed_stamp.specs.Stamp.{StampValue};
ghost use Rattle.fed_model.specs.declared.beginnings.Beginning.{Beginning};
ghost use Rattle.fed_replica.specs.State.{empty_at};
ghost use Rattle.fed_delta.specs.Packet.{PacketValue};
ghost use Rattle.fed_wire.specs.Reading.{packet_in};
ghost use Rattle.fed_script.specs.Line.{Line, own_line, words_in};
ghost use Rattle.fed_script.specs.Rosters.{is_reserved};
ghost use Rattle.fed_script.specs.Values.{identifier, moment, number};
ghost use Rattle.fed_qstat.specs.Outcome.{answer_line};
ghost use Rattle.fed_model.specs.RangedEvents.{AreRanged};
ghost use Rattle.fed_model.specs.Retired.{is_within};
ghost use Rattle.fed_model.specs.Run.{run, start};
ghost use Rattle.fed_site.specs.Handed.{packet_of};
ghost use Rattle.fed_site.specs.Journal.{after_lines, kept_lines};
ghost use Rattle.fed_site.specs.Known.{heard_lines, known_in, unheard};
ghost use Rattle.fed_site.specs.Line.{packet_text};
ghost use Rattle.fed_site.specs.Packets.{IsPacketText, is_foreign};
ghost use Rattle.fed_site.specs.Rosters.{roster_after_lines};
ghost use Rattle.fed_site.specs.declared.site.SiteAnswer.{SiteAnswer};
ghost use Rattle.fed_journal.specs.Journal.{IsBeforeOrAfter, entries_in};
ghost use Rattle.fed_journal.specs.Lines.{IsLine, recovered};
ghost use Rattle.fed_home.specs.Compaction.{AreEntriesOf};
ghost use Rattle.fed_home.specs.Replay.{AreReplies, Replayed, replay};
ghost use Rattle.fed_turns.specs.Alarm.{RaisesNoAlarm};
ghost use Rattle.fed_turns.specs.Crash.{Happening, answered, cut, MayAllHappen, journal_of, lines_all, turns_from};
ghost use Rattle.fed_turns.specs.Home.{IsHomeOf, course_of, happens_at, turns_at};
ghost use Rattle.fed_turns.specs.Own.{AsksToBegin, AsksToRetire, IsOwnLine};
ghost use Rattle.fed_turns.specs.Run.{AreAnswered, StandsFor, events_from, state_at};
ghost use Rattle.fed_turns.specs.Turn.{AreBeginnings, AreCarried, MayTurns, Turn, WasShipped, after_turns, beginning, roster_at};

/// Texts make a run. The lines of sites whose rosters are beginnings of one, by their names, and may go on, among which each
/// packet that is taken is a text that a ship answered before, or reads as one, do what the same commands, ships and takes in
/// the same order do in a run of all sites: each site reads as what it holds there, what was shipped are texts of the packets
/// made there, in order, and each line is answered as there, by the roster that its site knows then. A look, a roster that is
/// told, a text that tells of a site which the roster hasn't or that another site hands in than its sender, and one of no
/// packet shipped before, which aren't taken, do nothing there; what answers them is what a site says that holds what theirs holds there. The values of the commands are in
/// range.
pub fn texts_make_a_run()
    ensures states { (whole : List (List ℕ × ℕ)) (rosters : ℕ → List (List ℕ × ℕ)) (turns : List Turn) → IsRoster whole →
        MayTurns whole (beginning rosters) turns →
        StandsFor (after_turns (beginning rosters) turns) (run (length whole) (events_from (beginning rosters) turns)) }
    ensures answers { (whole : List (List ℕ × ℕ)) (rosters : ℕ → List (List ℕ × ℕ)) (turns : List Turn) → IsRoster whole →
        MayTurns whole (beginning rosters) turns → AreAnswered (length whole) (beginning rosters) start turns }
    ensures ranged { (whole : List (List ℕ × ℕ)) (rosters : ℕ → List (List ℕ × ℕ)) (turns : List Turn) → IsRoster whole →
        MayTurns whole (beginning rosters) turns → AreRanged (events_from (beginning rosters) turns) }
{}

/// No false alarms. After such lines a text that was shipped, or reads as one that was, has seen no operation of the site's
/// own that this one lacks: `unread` and `forgotten` are never answered to it, whatever texts that weren't taken came before.
/// `foreign` is answered just where it tells of a site that the site's roster hasn't; so never where that has all sites. A
/// line that names who hands the text in is told so where that isn't the packet's sender, and else answered as without it.
pub fn no_false_alarms()
    ensures alarms { (whole : List (List ℕ × ℕ)) (rosters : ℕ → List (List ℕ × ℕ)) (turns : List Turn) (i : ℕ) (line text : List ℕ) → IsRoster whole →
        MayTurns whole (beginning rosters) turns → packet_text line ≡ Some text →
        WasShipped (after_turns (beginning rosters) turns).shipped text →
        RaisesNoAlarm ((after_turns (beginning rosters) turns).roster i) ((after_turns (beginning rosters) turns).site i) line text }
    ensures known { (whole : List (List ℕ × ℕ)) (rosters : ℕ → List (List ℕ × ℕ)) (turns : List Turn) (i : ℕ) (text : List ℕ) (packet : PacketValue) → IsRoster whole →
        MayTurns whole (beginning rosters) turns → WasShipped (after_turns (beginning rosters) turns).shipped text →
        packet_in (packet_of text) ≡ Ok packet → length whole ≤ length ((after_turns (beginning rosters) turns).roster i) →
        is_foreign ((after_turns (beginning rosters) turns).roster i) packet ≡ false }
{}

/// No job begins at two sites: whatever two sites read of a job's Begin, its stamp and what it began with, is the same.
pub fn no_job_begins_at_two_sites()
    ensures { (whole : List (List ℕ × ℕ)) (rosters : ℕ → List (List ℕ × ℕ)) (turns : List Turn) (i j : ℕ) (job : StampValue)
        (one other : StampValue × Beginning) → IsRoster whole → MayTurns whole (beginning rosters) turns →
        (((after_turns (beginning rosters) turns).site i).view.job job).stages.begun ≡ Some one →
        (((after_turns (beginning rosters) turns).site j).view.job job).stages.begun ≡ Some other → one ≡ other }
{}

/// Begins are answered once. Of all lines that ask to begin a job, at whatever sites and however often, one at most is
/// answered `done`: among turns, among lines that were answered where sites crash, and also where a crash left a line
/// standing whose answer nobody saw, which counts by the answer that nobody saw.
pub fn begins_are_answered_once()
    ensures turns { (whole : List (List ℕ × ℕ)) (rosters : ℕ → List (List ℕ × ℕ)) (early between later : List Turn) (t u : Turn) (job : StampValue) →
        IsRoster whole → MayTurns whole (beginning rosters) (early ++ t ∷ between ++ u ∷ later) →
        AsksToBegin (roster_at rosters early t) t.site t.line job →
        AsksToBegin (roster_at rosters (early ++ t ∷ between) u) u.site u.line job →
        t.answer ≡ answer_line (codes "done") → u.answer ≢ answer_line (codes "done") }
    ensures happenings { (whole : List (List ℕ × ℕ)) (rosters : ℕ → List (List ℕ × ℕ)) (early between later : List Happening) (t u : Turn) (job : StampValue) →
        IsRoster whole → MayAllHappen whole (beginning rosters) (early ++ answered t ∷ between ++ answered u ∷ later) →
        AsksToBegin ((course_of rosters early).roster t.site) t.site t.line job →
        AsksToBegin ((course_of rosters (early ++ answered t ∷ between)).roster u.site) u.site u.line job →
        t.answer ≡ answer_line (codes "done") → u.answer ≢ answer_line (codes "done") }
    ensures left { (whole : List (List ℕ × ℕ)) (rosters : ℕ → List (List ℕ × ℕ)) (happenings : List Happening) (early between later : List Turn) (t u : Turn)
        (job : StampValue) → IsRoster whole → MayAllHappen whole (beginning rosters) happenings →
        turns_from (beginning rosters) happenings ≡ early ++ t ∷ between ++ u ∷ later →
        AsksToBegin (roster_at rosters early t) t.site t.line job →
        AsksToBegin (roster_at rosters (early ++ t ∷ between) u) u.site u.line job →
        t.answer ≡ answer_line (codes "done") → u.answer ≢ answer_line (codes "done") }
{}

/// Retired jobs are begun no more. Behind a line that asks a job's site to retire a range with the job's counter, and that is
/// answered `done`, no line that asks to begin the job is answered `done`, at whatever site and whether or not that site has
/// heard of it: among turns, among lines that were answered where sites crash, and also where a crash left a line standing
/// whose answer nobody saw, which counts by the answer that nobody saw.
pub fn retired_jobs_are_begun_no_more()
    ensures turns { (whole : List (List ℕ × ℕ)) (rosters : ℕ → List (List ℕ × ℕ)) (early between later : List Turn) (t u : Turn) (job : StampValue) →
        IsRoster whole → MayTurns whole (beginning rosters) (early ++ t ∷ between ++ u ∷ later) →
        AsksToRetire (roster_at rosters early t) t.site t.line job →
        AsksToBegin (roster_at rosters (early ++ t ∷ between) u) u.site u.line job →
        t.answer ≡ answer_line (codes "done") → u.answer ≢ answer_line (codes "done") }
    ensures happenings { (whole : List (List ℕ × ℕ)) (rosters : ℕ → List (List ℕ × ℕ)) (early between later : List Happening) (t u : Turn) (job : StampValue) →
        IsRoster whole → MayAllHappen whole (beginning rosters) (early ++ answered t ∷ between ++ answered u ∷ later) →
        AsksToRetire ((course_of rosters early).roster t.site) t.site t.line job →
        AsksToBegin ((course_of rosters (early ++ answered t ∷ between)).roster u.site) u.site u.line job →
        t.answer ≡ answer_line (codes "done") → u.answer ≢ answer_line (codes "done") }
    ensures left { (whole : List (List ℕ × ℕ)) (rosters : ℕ → List (List ℕ × ℕ)) (happenings : List Happening) (early between later : List Turn) (t u : Turn)
        (job : StampValue) → IsRoster whole → MayAllHappen whole (beginning rosters) happenings →
        turns_from (beginning rosters) happenings ≡ early ++ t ∷ between ++ u ∷ later →
        AsksToRetire (roster_at rosters early t) t.site t.line job →
        AsksToBegin (roster_at rosters (early ++ t ∷ between) u) u.site u.line job →
        t.answer ≡ answer_line (codes "done") → u.answer ≢ answer_line (codes "done") }
{}

/// Crashes. Where sites crash, and of the lines whose answers nobody saw the journal has all or none, what is left are
/// lines as above. A site that is opened from the lines that its journal keeps knows the roster and holds what they have
/// left, and reads as what it holds in their run.
pub fn crashes_leave_turns()
    ensures turns { (whole : List (List ℕ × ℕ)) (rosters : ℕ → List (List ℕ × ℕ)) (happenings : List Happening) →
        MayAllHappen whole (beginning rosters) happenings →
        MayTurns whole (beginning rosters) (turns_from (beginning rosters) happenings) }
    ensures known { (rosters : ℕ → List (List ℕ × ℕ)) (happenings : List Happening) (i : ℕ) →
        roster_after_lines (rosters i) (journal_of (rosters i) i happenings) ≡ (course_of rosters happenings).roster i }
    ensures held { (rosters : ℕ → List (List ℕ × ℕ)) (happenings : List Happening) (i : ℕ) →
        after_lines (rosters i) (empty_at i) (journal_of (rosters i) i happenings) ≡ (course_of rosters happenings).site i }
    ensures opened { (whole : List (List ℕ × ℕ)) (rosters : ℕ → List (List ℕ × ℕ)) (happenings : List Happening) (i : ℕ) → IsRoster whole →
        MayAllHappen whole (beginning rosters) happenings →
        after_lines (rosters i) (empty_at i) (journal_of (rosters i) i happenings)
        ≡ state_at i ((run (length whole) (events_from (beginning rosters) (turns_from (beginning rosters) happenings))).site i) }
{}

/// What a site knows after such lines is read of its text again. So a journal that is compacted can begin with that text, in
/// the place of all that has led to it.
pub fn known_texts_are_read_again()
    ensures { (whole : List (List ℕ × ℕ)) (rosters : ℕ → List (List ℕ × ℕ)) (turns : List Turn) (i : ℕ) (text : List ℕ) → IsRoster whole →
        MayTurns whole (beginning rosters) turns → i < length ((after_turns (beginning rosters) turns).roster i) →
        IsPacketText (unheard ((after_turns (beginning rosters) turns).site i)) 0 text →
        known_in ((after_turns (beginning rosters) turns).roster i) i text ≡ Some (unheard ((after_turns (beginning rosters) turns).site i)) }
{}

/// What a site holds after such lines is restored of its text and the lines of what it has heard: what is known by the text
/// holds, once it has taken these lines, all that the site held. So the site of such a run can be compacted at any time.
pub fn compacted_sites_are_restored()
    ensures { (whole : List (List ℕ × ℕ)) (rosters : ℕ → List (List ℕ × ℕ)) (turns : List Turn) (i : ℕ) (text : List ℕ) (n : ℕ) → IsRoster whole →
        MayTurns whole (beginning rosters) turns → IsRoster ((after_turns (beginning rosters) turns).roster i) →
        i < length ((after_turns (beginning rosters) turns).roster i) →
        IsPacketText (unheard ((after_turns (beginning rosters) turns).site i)) 0 text →
        length ((after_turns (beginning rosters) turns).roster i) ≤ n →
        option_map (λ s. after_lines ((after_turns (beginning rosters) turns).roster i) s
        (heard_lines ((after_turns (beginning rosters) turns).site i) 0 n))
        (known_in ((after_turns (beginning rosters) turns).roster i) i text)
        ≡ Some ((after_turns (beginning rosters) turns).site i) }
{}

/// The entries of a compacted journal are read as the site that wrote them. After such lines the entries that a site writes,
/// its header, what it knows and what it has heard of each site of its roster, are read as a site that knows this roster and
/// holds all that the site held, where no site of the roster has a reserved name (`turns`). No header and no line names a
/// roster that has one: so the entries that the site of a home writes stand for that site again (`homes`). No entry has a
/// line feed, whatever the site of a roster knows (`lines`): so `Home::compact` never answers `Unread` of such a home.
pub fn compacted_journals_are_read()
    ensures turns { (whole : List (List ℕ × ℕ)) (rosters : ℕ → List (List ℕ × ℕ)) (turns : List Turn) (i : ℕ) (entries : List (List ℕ)) → IsRoster whole →
        MayTurns whole (beginning rosters) turns → IsRoster ((after_turns (beginning rosters) turns).roster i) →
        i < length ((after_turns (beginning rosters) turns).roster i) →
        list_any (λ site. is_reserved site.0) ((after_turns (beginning rosters) turns).roster i) ≡ false →
        AreEntriesOf (record {
          roster = (after_turns (beginning rosters) turns).roster i;
          state = (after_turns (beginning rosters) turns).site i;
        }) entries →
        replay entries ≡ Some (record {
          roster = (after_turns (beginning rosters) turns).roster i;
          state = (after_turns (beginning rosters) turns).site i;
        }) }
    ensures homes { (whole : List (List ℕ × ℕ)) (rosters : ℕ → List (List ℕ × ℕ)) (i : ℕ) (happenings : List Happening) (file : List ℕ) (now : Replayed)
        (entries : List (List ℕ)) → IsRoster whole → MayAllHappen whole (beginning rosters) happenings →
        IsHomeOf rosters i happenings file → replay (entries_in file) ≡ Some now →
        AreEntriesOf now entries → replay entries ≡ Some now }
    ensures lines { (now : Replayed) (entries : List (List ℕ)) → IsRoster now.roster → AreEntriesOf now entries → All IsLine entries }
{}

/// What happens adds to a site's journal what is kept of its lines there, by the roster that the site knew and what it held
/// (`added`), of a group of lines that were answered as of all of them (`answered`). Where a crash left the journal as it was,
/// or with all that is kept of a group, that is what happened (`crashed`).
pub fn journals_go_on()
    ensures added { (rosters : ℕ → List (List ℕ × ℕ)) (happenings later : List Happening) (i : ℕ) →
        journal_of (rosters i) i (happenings ++ later) ≡ journal_of (rosters i) i happenings
        ++ kept_lines ((course_of rosters happenings).roster i) ((course_of rosters happenings).site i) (lines_all i later) }
    ensures answered { (i : ℕ) (turns : List Turn) → All (λ t. t.site ≡ i) turns →
        lines_all i (map answered turns) ≡ map (λ t. t.line) turns }
    ensures crashed { (rosters : ℕ → List (List ℕ × ℕ)) (happenings : List Happening) (i : ℕ) (lines entries : List (List ℕ)) →
        (entries ≡ journal_of (rosters i) i happenings)
        ⊎ (entries ≡ journal_of (rosters i) i happenings
        ++ kept_lines ((course_of rosters happenings).roster i) ((course_of rosters happenings).site i) lines) →
        (stand : Bool) × (entries ≡ journal_of (rosters i) i (happenings ++ cut i lines stand ∷ [])) }
{}

/// Homes go on. A home is that of a site of the roster that it knows (`named`). A file that `Home::make` has left is the home
/// of a site where nothing has happened (`made`). The site that its entries stand for is that of the run of what has happened
/// (`opened`). Lines that `Home::answer` answers are what happens next (`answered`), and what a crash leaves at any moment of
/// that call is a home too, where these lines stand or are cut (`crashed`). A file that stands for the same entries is the same
/// home, as after `Home::open` and `Home::repair` (`same`), and so is that of a site where nothing of what happens next is
/// (`others`). To compact a journal is no happening: a file whose entries stand for the same site is the same home, as what
/// `Home::compact` leaves, and what a crash leaves at any moment of that call (`compacted`). So all these laws hold with
/// compactions between any two lines. The premises of `made`, `answered`, `crashed` and `compacted` are what the contracts of
/// these calls ensure, that texts were carried, and that the rosters that the site knows are beginnings of the whole.
pub fn homes_go_on()
    ensures named { (rosters : ℕ → List (List ℕ × ℕ)) (i : ℕ) (happenings : List Happening) (file : List ℕ) →
        IsHomeOf rosters i happenings file →
        IsRoster ((course_of rosters happenings).roster i) × (i < length ((course_of rosters happenings).roster i)) }
    ensures made { (header file : List ℕ) (now : Replayed) → replay (entries_in file) ≡ Some now →
        recovered file ≡ Ok (header ∷ []) →
        (i : ℕ) × ((rosters : ℕ → List (List ℕ × ℕ)) → rosters i ≡ now.roster → IsHomeOf rosters i [] file) }
    ensures opened { (whole : List (List ℕ × ℕ)) (rosters : ℕ → List (List ℕ × ℕ)) (i : ℕ) (happenings : List Happening) (file : List ℕ) → IsRoster whole →
        MayAllHappen whole (beginning rosters) happenings → IsHomeOf rosters i happenings file →
        replay (entries_in file) ≡ Some (record {
          roster = (course_of rosters happenings).roster i;
          state = state_at i ((run (length whole) (events_from (beginning rosters) (turns_from (beginning rosters) happenings))).site i);
        }) }
    ensures answered { (whole : List (List ℕ × ℕ)) (rosters : ℕ → List (List ℕ × ℕ)) (i : ℕ) (happenings : List Happening) (old new : List ℕ) (now : Replayed)
        (lines : List (List ℕ)) (answers : List SiteAnswer) → MayAllHappen whole (beginning rosters) happenings →
        IsHomeOf rosters i happenings old → replay (entries_in old) ≡ Some now →
        AreReplies now.roster now.state lines answers →
        recovered new ≡ Ok (entries_in old ++ kept_lines now.roster now.state lines) →
        AreCarried now.roster (course_of rosters happenings).shipped now.state lines → AreBeginnings whole now.roster lines →
        MayAllHappen whole (beginning rosters) (happenings ++ map answered (turns_at i lines answers))
        × IsHomeOf rosters i (happenings ++ map answered (turns_at i lines answers)) new }
    ensures crashed { (whole : List (List ℕ × ℕ)) (rosters : ℕ → List (List ℕ × ℕ)) (i : ℕ) (happenings : List Happening) (old file : List ℕ) (now : Replayed)
        (lines : List (List ℕ)) → MayAllHappen whole (beginning rosters) happenings →
        IsHomeOf rosters i happenings old → replay (entries_in old) ≡ Some now →
        IsBeforeOrAfter (entries_in old) (kept_lines now.roster now.state lines) file →
        AreCarried now.roster (course_of rosters happenings).shipped now.state lines → AreBeginnings whole now.roster lines →
        (stand : Bool) × MayAllHappen whole (beginning rosters) (happenings ++ cut i lines stand ∷ [])
        × IsHomeOf rosters i (happenings ++ cut i lines stand ∷ []) file }
    ensures same { (rosters : ℕ → List (List ℕ × ℕ)) (i : ℕ) (happenings : List Happening) (old new : List ℕ) →
        recovered new ≡ recovered old → IsHomeOf rosters i happenings old → IsHomeOf rosters i happenings new }
    ensures others { (rosters : ℕ → List (List ℕ × ℕ)) (i : ℕ) (happenings later : List Happening) (file : List ℕ) →
        All (λ h. happens_at h ≢ i) later → IsHomeOf rosters i happenings file →
        IsHomeOf rosters i (happenings ++ later) file }
    ensures compacted { (rosters : ℕ → List (List ℕ × ℕ)) (i : ℕ) (happenings : List Happening) (old new : List ℕ) (now : Replayed) →
        replay (entries_in old) ≡ Some now → replay (entries_in new) ≡ Some now →
        IsHomeOf rosters i happenings old → IsHomeOf rosters i happenings new }
{}

/// What the words of a line say at a site by itself: it asks that site, for what is in range, or ships from it to a site of
/// the roster. It names no sites, compares none, and takes no packet by a number.
pub fn own_lines_ask_their_site()
    ensures { (roster : List (List ℕ × ℕ)) (here : ℕ) (words : List (List ℕ)) (line : Line) → IsRoster roster →
        own_line roster here words ≡ Some line → IsOwnLine roster here line }
{}

/// A line of the word `begin`, the identifier of a job and a moment asks to begin that job.
pub fn begin_lines_ask_to_begin()
    ensures { (roster : List (List ℕ × ℕ)) (here : ℕ) (line id when : List ℕ) (job : StampValue) (at : ℕ) →
        words_in line ≡ Some (codes "begin" ∷ id ∷ when ∷ []) → identifier roster here id ≡ Some job →
        moment when ≡ Some at → AsksToBegin roster here line job }
{}

/// A line of the word `retire` and two numbers asks to retire each job of the site whose counter is in the range.
pub fn retire_lines_ask_to_retire()
    ensures { (roster : List (List ℕ × ℕ)) (here : ℕ) (line from to : List ℕ) (job : StampValue) (first last : ℕ) →
        words_in line ≡ Some (codes "retire" ∷ from ∷ to ∷ []) → number from ≡ Some first → number to ≡ Some last →
        job.site ≡ here → is_within first last job.counter ≡ true → AsksToRetire roster here line job }
{}
