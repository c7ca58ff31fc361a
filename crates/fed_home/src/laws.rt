//! Laws of what a crash leaves. Each function does nothing: its contract is the law.
ghost use Rattle.std.specs.Prelude.{◌≡◌, ◌≢◌, ◌⊎◌, ◌++◌, ℕ, List, Some, Ok, Err};
ghost use Rattle.fed_replica.specs.State.{State};
ghost use Rattle.fed_site.specs.Journal.{after_lines, kept_lines};
ghost use Rattle.fed_site.specs.Rosters.{roster_after_lines};
ghost use Rattle.fed_journal.specs.Journal.{IsBeforeOrAfter, entries_in};
ghost use Rattle.fed_home.specs.Replay.{after_kept, replay, site_after};
ghost use Rattle.fed_home.specs.declared.faults.HomeFault.TheVariants.{UnkeptEntry};

/// What a crash of `Home::answer` leaves is, when it is opened, the site before the lines or the site that has answered them
/// all. These are the moments that the clause `any_moment` of that call speaks of.
pub fn crashes_leave_all_lines_or_none()
    ensures { (entries lines : List (List ℕ)) (roster : List (List ℕ × ℕ)) (s : State) (file : List ℕ) →
        replay entries ≡ Some (record { roster = roster; state = s }) → IsBeforeOrAfter entries (kept_lines roster s lines) file →
        (replay (entries_in file) ≡ Some (record { roster = roster; state = s }))
        ⊎ (replay (entries_in file) ≡ Some (record { roster = roster_after_lines roster lines; state = after_lines roster s lines })) }
{}

/// Entries behind a header are read where a site keeps each of them again, and only there. What a site has kept is: so entries
/// that stood for a site stand, with what it keeps of more lines behind them, for the site that has answered these, and
/// `UnkeptEntry` comes of no journal that homes have written.
pub fn kept_entries_are_read()
    ensures again { (number : ℕ) (roster : List (List ℕ × ℕ)) (s : State) (lines : List (List ℕ)) →
        kept_lines roster s lines ≡ lines → after_kept number roster s lines ≡ Ok (site_after roster lines s) }
    ensures others { (number line : ℕ) (roster : List (List ℕ × ℕ)) (s : State) (lines : List (List ℕ)) →
        after_kept number roster s lines ≡ Err (UnkeptEntry line) → kept_lines roster s lines ≢ lines }
    ensures more { (entries lines : List (List ℕ)) (roster : List (List ℕ × ℕ)) (s : State) →
        replay entries ≡ Some (record { roster = roster; state = s }) →
        replay (entries ++ kept_lines roster s lines)
        ≡ Some (record { roster = roster_after_lines roster lines; state = after_lines roster s lines }) }
{}
