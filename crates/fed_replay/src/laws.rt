//! Laws of what scripts do. Each function does nothing: its contract is the law.
ghost use Rattle.std.specs.Prelude.{◌≡◌, ◌↔◌, ◌≤◌, ℕ, List, None, Some, IsTrue};
ghost use Rattle.fed_stamp.specs.declared.sites.TheConstants.{SITES};
ghost use Rattle.fed_stamp.specs.Roster.{is_node_count};
ghost use Rattle.fed_model.specs.View.{view};
ghost use Rattle.fed_easy.specs.Machine.{first_fault, running_in};
ghost use Rattle.fed_model.specs.declared.events.Event.{Event};
ghost use Rattle.fed_model.specs.RangedEvents.{AreRanged};
ghost use Rattle.fed_model.specs.Run.{run};
ghost use Rattle.fed_replay.specs.Script.{Answered, IsRun, Script, State, answered, same_version, view_at};

/// The world of a script is that of a run, whatever lines were run.
pub fn scripts_are_runs()
    ensures { (state : State) (bytes : List ℕ) (answer : Answered State) → IsRun state →
        answered state bytes ≡ Some answer → IsRun answer.after }
{}

/// In a script the boards of two sites read the same exactly where their versions are the same. So `equal` compares
/// versions alone.
pub fn boards_of_one_version_read_the_same()
    ensures { (s : Script) (site other : ℕ) → IsRun (Some s) →
        IsTrue (same_version (view_at s site).version (view_at s other).version) ↔ (view_at s site ≡ view_at s other) }
{}

/// In a run of events whose values are in range nothing is wrong with the machine of a site, as long as its nodes are a
/// site's: of each of the 16 sites there are 10,000 jobs at most, and what runs came of a Begin in range.
pub fn machines_of_runs_are_never_refused()
    ensures { (n : ℕ) (events : List Event) (site nodes : ℕ) → n ≤ SITES → AreRanged events → IsTrue (is_node_count nodes) →
        first_fault nodes (running_in site (view ((run n events).site site).set)) ≡ None }
{}
