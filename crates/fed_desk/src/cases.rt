//! How the first refusal of a table that applies is found.
ghost use Rattle.std.specs.Prelude.{◌≡◌};
ghost use Rattle.fed_model.specs.Desk.{first_of};

use fed_record::Refusal;

/// The first refusal of a table that applies, where each stands beside whether it does, or `None` where none applies.
pub fn first_refusal(cases: &[(bool, Refusal)]) -> Option<Refusal>
    ensures { result ≡ first_of cases.now }
{
    for (applies, refusal) in cases {
        if *applies {
            return Some(*refusal);
        }
    }
    None
}
