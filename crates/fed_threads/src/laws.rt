//! Laws of settled lists. Each function does nothing: its contract is the law.
ghost use Rattle.std.specs.Prelude.{◌≡◌, ◌≤◌, ℕ, Bool, List, length};
ghost use Rattle.fed_stamp.specs.declared.sites.TheConstants.{SITES};
ghost use Rattle.fed_model.specs.declared.events.Event.{Event};
ghost use Rattle.fed_model.specs.Run.{run};
ghost use Rattle.fed_threads.specs.declared.journal.Claim.{Claim};
ghost use Rattle.fed_threads.specs.declared.journal.Entry.{Entry};
ghost use Rattle.fed_threads.specs.Placing.{IsPlacing};
ghost use Rattle.fed_threads.specs.declared.fault.CloseFault.{CloseFault};
ghost use Rattle.fed_threads.specs.Settle.{AreReplays, HasItsOutcomes, IsCloseFault, IsSettled};

/// There is only one placing, whatever may be placed when; so journals and claims have only one settled list.
pub fn there_is_one_placing()
    ensures placing { (ready : List ℕ → ℕ → Bool) (start sites others : List ℕ) →
        IsPlacing ready start sites → IsPlacing ready start others → sites ≡ others }
    ensures settled { (journals : List (List Entry)) (seats : List (List Claim)) (events others : List Event) →
        IsSettled journals seats events → IsSettled journals seats others → events ≡ others }
{}

/// Journals and claims that are settled to some list meet no fault but want of memory.
pub fn settled_journals_meet_no_fault()
    ensures { (journals : List (List Entry)) (seats : List (List Claim)) (events : List Event) (fault : CloseFault) →
        IsSettled journals seats events → IsCloseFault journals seats fault → fault ≡ CloseFault.NoMemory }
{}

/// Where entries are settled, the board of each site, once the events are run, is that of the replay of its journal.
pub fn settled_boards_are_replays()
    ensures { (journals : List (List Entry)) (seats : List (List Claim)) (events : List Event) → length journals ≤ SITES →
        IsSettled journals seats events → AreReplays journals (run (length journals) events) }
{}

/// The entries of settled journals were answered as the run of the events answers, a ship with its own place.
pub fn settled_outcomes_are_those_of_the_run()
    ensures { (journals : List (List Entry)) (seats : List (List Claim)) (events : List Event) →
        IsSettled journals seats events → HasItsOutcomes journals seats events }
{}
