//! The text of identifiers.
ghost use Rattle.std.specs.Prelude.{◌≡◌, ◌++◌, IfOk, OnOk, string_bytes};
ghost use Rattle.fed_qstat.specs.Identifier.{text_of_identifier, text_of_site};

use fed_stamp::{JobId, Roster, SiteId};
use itoa::Buffer;
use std::alloc::{AllocError, Global};

/// The room that is made for an identifier: a counter has up to 10 digits, a dot and a name of up to 15 characters stand
/// behind it, and the end of a line may follow.
const IDENTIFIER_BYTES: usize = 27;

/// Adds the name of a site, or `#` and its number where the roster has no such site.
pub(crate) fn push_site(text: &mut String, roster: &Roster, site: SiteId) -> Result<(), AllocError>
    ensures { OnOk result (string_bytes text.new ≡ string_bytes text.old ++ text_of_site roster.now site) }
{
    match roster.name(site) {
        Some(name) => text.push_str(name),
        None => write!(text, "#{}", site.get()),
    }
}

/// The name of a site, or `#` and its number where the roster has no such site.
pub fn site_text(alloc: Global, roster: &Roster, site: SiteId) -> Result<String, AllocError>
    ensures { IfOk result (λ text. string_bytes text ≡ text_of_site roster.now site) }
{
    let mut text = String::new(alloc);
    push_site(&mut text, roster, site)?;
    Ok(text)
}

/// Adds the identifier of a job or of a reservation: its counter in decimal, a dot and its site.
pub(crate) fn push_identifier(
    text: &mut String,
    roster: &Roster,
    id: JobId,
) -> Result<(), AllocError>
    ensures { OnOk result (string_bytes text.new ≡ string_bytes text.old ++ text_of_identifier roster.now id) }
{
    let mut counter = Buffer::new();
    text.push_str(counter.format(id.counter()))?;
    text.push('.')?;
    push_site(text, roster, id.site())
}

/// The identifier of a job or of a reservation: its counter in decimal, a dot and its site.
pub fn identifier_text(alloc: Global, roster: &Roster, id: JobId) -> Result<String, AllocError>
    ensures { IfOk result (λ text. string_bytes text ≡ text_of_identifier roster.now id) }
{
    let mut text = String::with_capacity(alloc, IDENTIFIER_BYTES)?;
    push_identifier(&mut text, roster, id)?;
    Ok(text)
}
