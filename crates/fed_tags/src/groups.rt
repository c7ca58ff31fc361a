//! Groups: elements, each with its tags, by element.
ghost use Rattle.std.specs.Prelude.{◌≡◌, ◌≤◌, IfOk, IfErr, OnOk, OnErr, insert, option_map, vec_len};
ghost use Rattle.std.specs.BTreeMap.{is_at};
ghost use Rattle.std.specs.List.Sorted.{IsStrictlySortedBy};
ghost use Rattle.std.specs.Map.{keys_of, lookup};
ghost use Rattle.fed_tags.specs.Groups.{IsGroupOf, IsGapFor};

use crate::tags::Tags;
use fed_lattice::{Exact, NoMemory};

/// The place of an element's group, or the place where it would stand.
pub(crate) fn find<T: Exact>(groups: &[(T, Tags)], element: &T) -> Result<usize, usize>
    requires { IsStrictlySortedBy T.cmp (keys_of groups.now) }
    ensures found { IfOk result (IsGroupOf T.cmp groups.now element.now) }
    ensures absent { IfErr result (IsGapFor T.cmp groups.now element.now) }
{
    groups.binary_search_by(|group| group.0.cmp(element))
}

/// The tags of an element, where it has a group.
pub(crate) fn tags_of<'a, T: Exact>(groups: &'a [(T, Tags)], element: &T) -> Option<&'a Tags>
    requires { IsStrictlySortedBy T.cmp (keys_of groups.now) }
    ensures value { option_map (λ tags. tags.now) result ≡ lookup (is_at (T.cmp element.now)) groups.now }
{
    match find(groups, element) {
        Ok(place) => Some(&groups[place].1),
        Err(_) => None,
    }
}

/// Puts a group at a place. The first group takes room for itself alone: most sets of a job have one element, and a
/// vector that grows takes room for four. On an error the groups are as before.
pub(crate) fn put<T: Exact>(
    groups: &mut Vec<(T, Tags)>,
    place: usize,
    group: (T, Tags),
) -> Result<(), NoMemory>
    requires { place ≤ vec_len groups.old }
    ensures ok { OnOk result (groups.new.items ≡ insert groups.old.items place group) }
    ensures unchanged { OnErr result (groups.new.items ≡ groups.old.items) }
{
    if groups.is_empty() {
        groups.try_reserve_exact(1)?;
    }
    groups.insert(place, group)?;
    Ok(())
}
