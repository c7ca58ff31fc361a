//! The kinds of faults of a piece of JSON.
ghost use Rattle.std.specs.Prelude.{◌≡◌};
ghost use Rattle.fed_json.specs.Reading.{both as read_both};

/// Why a piece of JSON can't be read.
#[derive(Clone, Copy, PartialEq, Eq, Debug)]
pub enum Flaw {
    /// It is not of the form that stands in its place.
    Shape,
    /// It is of that form, and some value is out of its range.
    Range,
}

/// What two pieces are read as. A fault of shape of either comes before one of range.
pub fn both<A: Drop, B: Drop>(
    first: Result<A, Flaw>,
    second: Result<B, Flaw>,
) -> Result<(A, B), Flaw>
    ensures { result ≡ read_both first second }
{
    match (first, second) {
        (Ok(x), Ok(y)) => Ok((x, y)),
        (Err(Flaw::Shape), _) | (_, Err(Flaw::Shape)) => Err(Flaw::Shape),
        _ => Err(Flaw::Range),
    }
}
