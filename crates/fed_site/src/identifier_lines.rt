//! The line of an identifier, which takes no memory.
ghost use Rattle.std.specs.Prelude.{◌≡◌, ◌≤◌, ◌++◌, IfSome, length, slice_get};
ghost use Rattle.std.specs.Option.{option_copied, option_map};
ghost use Rattle.arrayvec.specs.ArrayString.{array_string_len};
ghost use Rattle.fed_stamp.specs.declared.words.TheConstants.{MAX_NAME};
ghost use Rattle.fed_qstat.specs.Identifier.{text_of_identifier, text_of_site};
ghost use Rattle.fed_qstat.specs.Outcome.{answer_line};

use arrayvec::ArrayString;
use fed_stamp::{JobId, Roster, SiteId, roster_is_lawful};
use itoa::Buffer;

/// How many bytes it has at most: a counter has up to 10 digits, a dot, a name of up to 15 characters and a line feed stand
/// behind it.
const IDENTIFIER_BYTES: usize = 27;

/// The line of an identifier, held in the value itself.
pub type IdentifierLine = ArrayString<IDENTIFIER_BYTES>;

/// The name of a site of the roster, which is short.
fn short_name(roster: &Roster, site: SiteId) -> Option<&str>
    ensures same { option_copied result ≡ option_map (λ s. s.0) (slice_get roster.now site) }
    ensures short { IfSome result (λ name. length name.now ≤ MAX_NAME) }
{
    roster_is_lawful(roster);
    roster.name(site)
}

/// Adds the name of a site, or `#` and its number where the roster has no such site.
fn push_site(line: &mut IdentifierLine, roster: &Roster, site: SiteId)
    requires { array_string_len line.old ≤ 11 }
    ensures bytes { line.new.bytes ≡ line.old.bytes ++ text_of_site roster.now site }
    ensures len { array_string_len line.new ≤ 26 }
{
    match short_name(roster, site) {
        Some(name) => line.push_str(name),
        None => {
            let mut number = Buffer::new();
            line.push_str("#");
            line.push_str(number.format(site.get()));
        }
    }
}

/// The line of the identifier of a job or of a reservation: its counter in decimal, a dot and its site.
pub(crate) fn identifier_line(roster: &Roster, id: JobId) -> IdentifierLine
    ensures { result.bytes ≡ answer_line (text_of_identifier roster.now id) }
{
    let mut counter = Buffer::new();
    let mut line = ArrayString::new();
    line.push_str(counter.format(id.counter() as u32));
    line.push_str(".");
    push_site(&mut line, roster, id.site());
    line.push_str("\n");
    line
}
