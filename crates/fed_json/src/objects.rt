//! How the members of a JSON object are read by their names, and told to be all.
ghost use Rattle.std.specs.Prelude.{◌≡◌, map, length};
ghost use Rattle.std.specs.Bool.{OnTrue};
ghost use Rattle.std.specs.List.{zip};
ghost use Rattle.serde_json.specs.View.{view};
ghost use Rattle.serde_json.specs.Find.{get};
ghost use Rattle.fed_lattice.specs.Results.{mapped};
ghost use Rattle.fed_json.specs.Reading.{or_shape};
ghost use Rattle.fed_json.specs.Objects.{has_names as has_just_names, object_value};

use crate::flaws::Flaw;
use serde_json::Value;

/// Whether it is an object with exactly these names, which ascend.
pub fn has_names(value: &Value, names: &[&str]) -> bool
    ensures { result ≡ has_just_names (map (λ n. n.now) names.now) (view value.now) }
{
    let Some(members) = value.as_object() else {
        return false;
    };
    let mut wanted = names;
    for name in members.keys() {
        let [first, rest @ ..] = wanted else {
            return false;
        };
        if name.as_str() != *first {
            return false;
        }
        wanted = rest;
    }
    wanted.is_empty()
}

/// Whether it is an object with exactly these names, which ascend. If so, `members`, which must be as long as `names`,
/// then has the values of its members, in the order of their names. If not, some of `members` may have been set.
pub fn read_members<'a>(value: &'a Value, names: &[&str], members: &mut [&'a Value]) -> bool
    requires { length members.old ≡ length names.now }
    ensures named { result ≡ has_just_names (map (λ n. n.now) names.now) (view value.now) }
    ensures members { OnTrue result (view value.now ≡ object_value (zip (map (λ n. n.now) names.now) (map (λ m. view m.now) members.new))) }
{
    let Some(entries) = value.as_object() else {
        return false;
    };
    if entries.len() != names.len() {
        return false;
    }
    for (index, (name, member)) in entries.iter().enumerate() {
        if name.as_str() != names[index] {
            return false;
        }
        members[index] = member;
    }
    true
}

/// The member of this name, or `Shape` where there is none.
pub fn member<'a>(value: &'a Value, name: &str) -> Result<&'a Value, Flaw>
    ensures { mapped (λ v. view v.now) result ≡ or_shape (get name.now (view value.now)) }
{
    value.get(name).ok_or(Flaw::Shape)
}
