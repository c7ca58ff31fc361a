//! Values as JSON, one a line.
ghost use Rattle.std.specs.Prelude.{◌≡◌, IfOk, false, string_bytes};
ghost use Rattle.serde_json.specs.View.{view};
ghost use Rattle.serde_json.specs.Written.{has_float};
ghost use Rattle.fed_looks.specs.JsonLine.{json_line as line_of_value};

use serde_json::Value;
use std::alloc::{AllocError, Global};

/// The line of a value, compact: of one that has no float in it, as no look has.
pub fn json_line(alloc: Global, value: &Value) -> Result<String, AllocError>
    requires { has_float (view value.now) ≡ false }
    ensures { IfOk result (λ text. string_bytes text ≡ line_of_value (view value.now)) }
{
    let mut text = value.to_string(alloc)?;
    text.push_str("\n")?;
    Ok(text)
}
