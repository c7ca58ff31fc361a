//! The columns of the short listing.
ghost use Rattle.std.specs.Prelude.{◌≡◌, ◌+◌, ◌-◌, ◌<◌, ◌≤◌, ℕ, List, ◌++◌, ◌∷◌, [], OnOk, length, replicate, string_bytes};
ghost use Rattle.std.specs.Fmt.{decimal};
ghost use Rattle.fed_stamp.specs.declared.rosters.TheConstants.{MAX_NODES};
ghost use Rattle.fed_model.specs.declared.limits.TheConstants.{MAX_LIMIT};
ghost use Rattle.fed_qstat.specs.Columns.{left_in, right_in};
ghost use Rattle.fed_qstat.specs.Identifier.{text_of_identifier};

use crate::identifiers::push_identifier;
use fed_stamp::{JobId, Roster, Word, roster_is_lawful, stamp_is_in_range};
use itoa::write_digits;
use std::alloc::AllocError;
use std::str;

/// How many spaces are added at most.
const MAX_SPACES: usize = 19;

/// As many spaces as are added at most.
const SPACES: &str = "                   ";

/// How wide the columns of a number of nodes and a limit are, with a space on each side.
const ROW: usize = 20;

/// Adds spaces.
fn push_spaces(text: &mut String, count: usize) -> Result<(), AllocError>
    requires { count ≤ MAX_SPACES }
    ensures { OnOk result (string_bytes text.new ≡ string_bytes text.old ++ replicate count 32) }
{
    text.push_str(&SPACES[..count])
}

/// Adds the identifier of a job left in 18, and a space.
pub(crate) fn push_id_column(
    text: &mut String,
    roster: &Roster,
    id: JobId,
) -> Result<(), AllocError>
    ensures { OnOk result (string_bytes text.new ≡
        string_bytes text.old ++ (left_in 18 (text_of_identifier roster.now id) ++ 32 ∷ [])) }
{
    // by these an identifier is ASCII
    roster_is_lawful(roster);
    stamp_is_in_range(id);
    let start = text.as_str().len();
    push_identifier(text, roster, id)?;
    let count = text.as_str().len() - start;
    push_spaces(text, 18usize.saturating_sub(count) + 1)
}

/// Adds a name left in 16, and a space.
pub(crate) fn push_word(text: &mut String, word: &Word) -> Result<(), AllocError>
    ensures { OnOk result (string_bytes text.new ≡ string_bytes text.old ++ (left_in 16 word.now ++ 32 ∷ [])) }
{
    let name = word.as_str();
    text.push_str(name)?;
    push_spaces(text, 16usize.saturating_sub(name.len()) + 1)
}

/// Adds a space, and a number right in a width.
pub(crate) fn push_right(text: &mut String, width: usize, digits: &str) -> Result<(), AllocError>
    requires { width ≤ 18 }
    ensures { OnOk result (string_bytes text.new ≡ string_bytes text.old ++ 32 ∷ right_in width digits.now) }
{
    push_spaces(text, width.saturating_sub(digits.len()) + 1)?;
    text.push_str(digits)
}

/// Writes a number right in a width and a space before it into a row, so that it ends at a place up to which spaces stand.
fn write_right(row: &mut [u8], end: usize, width: usize, number: u64)
    requires digits { length (decimal number) ≤ width }
    requires column { width < end }
    requires row { end ≤ length row.old }
    ensures { (rest : List ℕ) → row.old ≡ replicate end 32 ++ rest →
        row.new ≡ replicate (end - (width + 1)) 32 ++ (32 ∷ right_in width (decimal number) ++ rest) }
{
    let _start = write_digits(number, row, end);
}

/// Adds a number of nodes right in 8 and a limit right in 9, each with a space before it, and a space.
pub(crate) fn push_nodes_and_limit(
    text: &mut String,
    nodes: u64,
    limit: u64,
) -> Result<(), AllocError>
    requires nodes { nodes ≤ MAX_NODES }
    requires limit { limit ≤ MAX_LIMIT }
    ensures { OnOk result (string_bytes text.new ≡ string_bytes text.old ++
        (32 ∷ right_in 8 (decimal nodes) ++ (32 ∷ right_in 9 (decimal limit) ++ 32 ∷ []))) }
{
    let mut row = [b' '; ROW];
    write_right(&mut row, ROW - 1, 9, limit);
    write_right(&mut row, ROW - 11, 8, nodes);
    // digits and spaces are ASCII, and so text
    text.push_str(unsafe { str::from_utf8_unchecked(&row) })
}
