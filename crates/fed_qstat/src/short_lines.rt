//! The short listing.
ghost use Rattle.std.specs.Prelude.{◌≡◌, ◌≤◌, ◌++◌, [], ◌∷◌, IsTrue, OnOk, Some, string_bytes};
ghost use Rattle.std.specs.Fmt.{decimal, signed_decimal};
ghost use Rattle.std.specs.List.{join_with_byte};
ghost use Rattle.fed_stamp.specs.declared.rosters.TheConstants.{MAX_NODES};
ghost use Rattle.fed_model.specs.declared.limits.TheConstants.{MAX_LIMIT};
ghost use Rattle.fed_record.specs.JobRecord.{job_reads};
ghost use Rattle.fed_model.specs.Letter.{is_submitted, letter as letter_of};
ghost use Rattle.fed_qstat.specs.Columns.{left_in, right_in};
ghost use Rattle.fed_qstat.specs.Identifier.{text_of_identifier};
ghost use Rattle.fed_qstat.specs.Short.{line_in_short};

use crate::attributes::{letter_sign, push_holder};
use crate::padding::{push_id_column, push_nodes_and_limit, push_right, push_word};
use fed_record::{JobRecord, Letter};
use fed_stamp::{JobId, Roster, Word};
use itoa::Buffer;
use std::alloc::AllocError;

/// Adds the columns that stand left: the identifier, the name and the owner; and the letter.
fn push_left_columns(
    text: &mut String,
    roster: &Roster,
    id: JobId,
    name: &Word,
    owner: &Word,
    letter: &str,
) -> Result<(), AllocError>
    ensures { OnOk result (string_bytes text.new ≡ string_bytes text.old ++ join_with_byte 32
        (left_in 18 (text_of_identifier roster.now id) ∷ left_in 16 name.now ∷ left_in 16 owner.now ∷ letter.now ∷ [])) }
{
    push_id_column(text, roster, id)?;
    push_word(text, name)?;
    push_word(text, owner)?;
    text.push_str(letter)
}

/// Adds the columns that are numbers, with a space before and behind them.
fn push_numbers(text: &mut String, priority: i16, nodes: u64, limit: u64) -> Result<(), AllocError>
    requires nodes { nodes ≤ MAX_NODES }
    requires limit { limit ≤ MAX_LIMIT }
    ensures { OnOk result (string_bytes text.new ≡ string_bytes text.old ++ 32 ∷
        (join_with_byte 32 (right_in 6 (signed_decimal priority) ∷ right_in 8 (decimal nodes) ∷ right_in 9 (decimal limit) ∷ [])
        ++ 32 ∷ [])) }
{
    let mut digits = Buffer::new();
    push_right(text, 6, digits.format(priority))?;
    push_nodes_and_limit(text, nodes, limit)
}

/// Adds the line that shows a job with this letter. Its columns are parted by one space: the identifier left in 18, the
/// name left in 16, the owner left in 16, the letter, the priority right in 6, the nodes right in 8, the limit right in
/// 9, and the granted site or `-`. A longer text isn't cut. A line feed ends the line.
pub(crate) fn push_short_line(
    text: &mut String,
    roster: &Roster,
    id: JobId,
    job: &JobRecord,
    letter: Letter,
) -> Result<(), AllocError>
    requires submitted { IsTrue (is_submitted (job_reads job.now)) }
    requires letter { letter_of (job_reads job.now) ≡ Some letter }
    ensures { OnOk result (string_bytes text.new ≡ string_bytes text.old ++ line_in_short roster.now id (job_reads job.now)) }
{
    let (_, name) = job.name();
    let (_, owner) = job.owner();
    let sign = letter_sign(letter);
    push_left_columns(text, roster, id, &name, &owner, sign)?;
    let priority = job.priority().1.get();
    let (nodes, limit) = (job.nodes().1.get(), job.limit().1.get());
    push_numbers(text, priority, nodes, limit)?;
    push_holder(text, roster, job)?;
    text.push('\n')?;
    Ok(())
}
