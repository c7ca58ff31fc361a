//! How whole numbers are read of JSON values.
ghost use Rattle.std.specs.Prelude.{◌≡◌};
ghost use Rattle.serde_json.specs.View.{view};
ghost use Rattle.fed_json.specs.Numbers.{natural_in, integer_of};

use crate::flaws::Flaw;
use serde_json::Value;

/// The number, which is to be from `least` to `most`: `Shape` where it is no whole number, and `Range` where it is outside
/// of these.
pub fn natural(value: &Value, least: u64, most: u64) -> Result<u64, Flaw>
    ensures { result ≡ natural_in least most (view value.now) }
{
    let number = value.as_number().ok_or(Flaw::Shape)?;
    if number.is_f64() {
        return Err(Flaw::Shape);
    }
    match number.as_u64() {
        Some(number) if least <= number && number <= most => Ok(number),
        _ => Err(Flaw::Range),
    }
}

/// The whole number, of either sign, or `Shape` where it is none.
pub fn integer(value: &Value) -> Result<i128, Flaw>
    ensures { result ≡ integer_of (view value.now) }
{
    match (value.as_u64(), value.as_i64()) {
        (Some(number), _) => Ok(i128::from(number)),
        (None, Some(number)) if number < 0 => Ok(i128::from(number)),
        _ => Err(Flaw::Shape),
    }
}
