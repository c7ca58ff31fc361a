//! Laws of what sites say and keep. Each function does nothing: its contract is the law.
ghost use Rattle.std.specs.Prelude.{◌≡◌, ◌<◌, ◌≤◌, ℕ, List, [], Some, drop, false, true, length, nat_lt};
ghost use Rattle.std.specs.List.{list_any};
ghost use Rattle.fed_stamp.specs.Roster.{IsRoster, name_at};
ghost use Rattle.fed_lattice.specs.History.{History};
ghost use Rattle.fed_model.specs.Body.{Body};
ghost use Rattle.fed_model.specs.Lawful.{IsLawful};
ghost use Rattle.fed_model.specs.Limits.{IsWithinLimits};
ghost use Rattle.fed_model.specs.View.{View, view};
ghost use Rattle.fed_easy.specs.RosterPlan.{plan_in, plan_in_without};
ghost use Rattle.fed_replica.specs.State.{State, IsMadeFor};
ghost use Rattle.fed_site.specs.Journal.{after_lines, kept_lines};
ghost use Rattle.fed_site.specs.Known.{IsHeardOf, heard_lines, known_in, unheard};
ghost use Rattle.fed_site.specs.Packets.{IsPacketText};
ghost use Rattle.fed_site.specs.Rosters.{begins, roster_after, roster_after_lines};
ghost use Rattle.fed_site.specs.Says.{site_says};

use fed_board::records_that_read_the_same_are_equal;
use fed_delta::Packet;

/// A line that isn't kept changes nothing.
pub fn lines_that_are_not_kept_change_nothing()
    ensures state { (roster : List (List ℕ × ℕ)) (s : State) (line : List ℕ) →
        (site_says roster s line).kept ≡ false → (site_says roster s line).after ≡ s }
    ensures roster { (roster : List (List ℕ × ℕ)) (s : State) (line : List ℕ) →
        (site_says roster s line).kept ≡ false → roster_after roster line ≡ roster }
{}

/// The roster that a site knows once it has answered a line is a roster that begins with the names of the one from before.
/// So a site keeps its number, and so does each site that it has heard of.
pub fn rosters_go_on()
    ensures roster { (roster : List (List ℕ × ℕ)) (line : List ℕ) → IsRoster roster → IsRoster (roster_after roster line) }
    ensures begins { (roster : List (List ℕ × ℕ)) (line : List ℕ) → begins roster (roster_after roster line) ≡ true }
    ensures numbers { (known sites : List (List ℕ × ℕ)) (i : ℕ) → begins known sites ≡ true → i < length known →
        name_at sites i ≡ name_at known i }
{}

/// The replay of the lines that were kept leaves what all the lines have left, and keeps them all again.
pub fn kept_lines_are_enough()
    ensures roster { (roster : List (List ℕ × ℕ)) (s : State) (lines : List (List ℕ)) →
        roster_after_lines roster (kept_lines roster s lines) ≡ roster_after_lines roster lines }
    ensures state { (roster : List (List ℕ × ℕ)) (s : State) (lines : List (List ℕ)) →
        after_lines roster s (kept_lines roster s lines) ≡ after_lines roster s lines }
    ensures again { (roster : List (List ℕ × ℕ)) (s : State) (lines : List (List ℕ)) →
        kept_lines roster s (kept_lines roster s lines) ≡ kept_lines roster s lines }
{}

/// What a site knows is read of its text again, where it knows a lawful set of operations within limits, of sites of the
/// roster alone. So its journal can begin from that text.
pub fn known_texts_are_read_again()
    ensures { (roster : List (List ℕ × ℕ)) (s : State) (ops : History Body) (text : List ℕ) →
        IsLawful ops → IsWithinLimits ops → s.view ≡ view ops → s.site < length roster →
        list_any (λ counter. nat_lt 0 counter) (drop (length roster) s.view.version) ≡ false →
        IsPacketText (unheard s) 0 text → known_in roster s.site text ≡ Some (unheard s) }
{}

/// What was heard is restored by its lines. A site of the roster that knows a set of operations within limits, of sites of the
/// roster alone, and that has heard of each site a part of that, reads as before once it begins from what it knows and takes
/// the lines of what it has heard. So the lines behind a site's text complete its journal.
pub fn heard_lines_restore()
    ensures { (roster : List (List ℕ × ℕ)) (s : State) (ops : History Body) (n : ℕ) → IsRoster roster →
        IsWithinLimits ops → s.view ≡ view ops →
        list_any (λ counter. nat_lt 0 counter) (drop (length roster) s.view.version) ≡ false →
        IsHeardOf roster s → length roster ≤ n → after_lines roster (unheard s) (heard_lines s 0 n) ≡ s }
{}

/// Two packets that a site makes for another are equal.
pub fn one_packet_is_made(x: &Packet, y: &Packet)
    ensures { (s : State) (to : ℕ) → IsMadeFor s to x.now → IsMadeFor s to y.now → x.now ≡ y.now }
{
    records_that_read_the_same_are_equal(x.delta().changes(), y.delta().changes());
}

/// The plan that leaves out no job is the plan of the site: so `plan-json MOMENT` tells what `plan MOMENT` does.
pub fn plans_without_no_job_are_plans()
    ensures { (roster : List (List ℕ × ℕ)) (v : View) (site moment : ℕ) →
        plan_in_without [] roster v site moment ≡ plan_in roster v site moment }
{}
