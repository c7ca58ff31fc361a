//! What registers, stages and flags hold, by functions that compute: for each history there is one value that stands
//! for it. Each function does nothing: its contract is the law.
ghost use Rattle.std.specs.Prelude.{◌≡◌, ◌↔◌, Bool, Option};
ghost use Rattle.fed_stamp.specs.Stamp.{StampValue};
ghost use Rattle.fed_lattice.specs.Flag.{flag_stands_for, has_changes};
ghost use Rattle.fed_lattice.specs.History.{History, OneEach};
ghost use Rattle.fed_lattice.specs.Latest.{latest};
ghost use Rattle.fed_lattice.specs.Register.{register_stands_for};
ghost use Rattle.fed_lattice.specs.Stage.{greatest_value, stage_stands_for};

use crate::exacts::Exact;

/// Where different changes have different stamps, a register that stands for them holds the latest of them, and no
/// other register stands for them.
pub fn registers_hold_the_latest<T: Exact>()
    ensures { (x : Option (StampValue × T)) (h : History T) → OneEach h → register_stands_for x h ↔ (x ≡ latest h) }
{}

/// A stage that stands for changes holds the greatest value of them, and no other stage stands for them.
pub fn stages_hold_the_greatest<T: Exact>()
    ensures { (x : Option T) (h : History T) → stage_stands_for T.cmp x h ↔ (x ≡ greatest_value T.cmp h) }
{}

/// A flag that stands for changes tells whether there are any, and no other flag stands for them. What the changes are
/// does not matter.
pub fn flags_tell_whether_changed<T>()
    ensures { (x : Bool) (h : History T) → flag_stands_for x h ↔ (x ≡ has_changes h) }
{}
