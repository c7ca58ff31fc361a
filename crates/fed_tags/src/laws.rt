//! How far a pair has come in a join. The function does nothing: its contract is the law.
ghost use Rattle.std.specs.Prelude.{◌≡◌, ◌||◌, Bool, max};
ghost use Rattle.fed_tags.specs.Tags.{pair_state};
ghost use Rattle.fed_lattice.specs.Stays.{stays};

/// A pair is in a join at the later of the two sides' states, in the order in which a pair goes through them: not met,
/// live, live with its stamp covered, removed.
pub fn joins_take_the_later_state()
    ensures { (mine mine_covers other other_covers : Bool) →
        pair_state (stays mine mine_covers other other_covers) (mine_covers || other_covers)
        ≡ max (pair_state mine mine_covers) (pair_state other other_covers) }
{}
