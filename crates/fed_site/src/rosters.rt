//! Rosters that go on.
ghost use Rattle.std.specs.Prelude.{◌≡◌};
ghost use Rattle.fed_site.specs.Rosters.{begins as begins_with};

use fed_stamp::{Roster, SITES, SiteId};

/// Whether the names of a roster stand first in another, in their order.
pub(crate) fn begins(known: &Roster, new: &Roster) -> bool
    ensures { result ≡ begins_with known.now new.now }
{
    let _count = known.len();
    for number in 0..SITES as u8 {
        let Some(site) = SiteId::new(number) else {
            return false;
        };
        match (known.name(site), new.name(site)) {
            (Some(name), Some(new_name)) => {
                if name != new_name {
                    return false;
                }
            }
            (Some(_), None) => return false,
            (None, _) => return true,
        }
    }
    true
}
