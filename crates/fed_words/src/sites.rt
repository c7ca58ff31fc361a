//! Names of sites.
ghost use Rattle.std.specs.Prelude.{◌≡◌};
ghost use Rattle.fed_words.specs.Site.{site_in};

use crate::faults::UsageFault;
use fed_stamp::{Roster, SiteId, is_site_name, roster_is_lawful};

/// The site of this name. `malformed` where the text hasn't the form of a site's name, and `UnknownSite` where the
/// roster has no site of this name.
pub fn read_site(malformed: UsageFault, roster: &Roster, name: &str) -> Result<SiteId, UsageFault>
    ensures { result ≡ site_in malformed roster.now name.now }
{
    roster_is_lawful(roster);
    match roster.find(name) {
        Some(site) => Ok(site),
        None if is_site_name(name) => Err(UsageFault::UnknownSite),
        None => Err(malformed),
    }
}
