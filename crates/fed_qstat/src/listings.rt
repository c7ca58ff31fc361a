//! Listings of the jobs of a board.
ghost use Rattle.std.specs.Prelude.{◌≡◌, ◌≢◌, ◌↔◌, ◌++◌, [], IfOk, IsTrue, OnOk, Some, string_bytes};
ghost use Rattle.std.specs.List.Sorted.{IsStrictlySortedBy};
ghost use Rattle.fed_stamp.specs.Stamp.{StampValue};
ghost use Rattle.fed_lattice.specs.Latest.{stamp_cmp};
ghost use Rattle.fed_lattice.specs.Sets.{Has};
ghost use Rattle.fed_record.specs.JobRecord.{job_reads};
ghost use Rattle.fed_model.specs.Letter.{is_submitted, letter as letter_of};
ghost use Rattle.fed_board.specs.Board.{board_reads};
ghost use Rattle.fed_qstat.specs.Full.{lines_in_full};
ghost use Rattle.fed_qstat.specs.Layout.{lines_in};
ghost use Rattle.fed_qstat.specs.Listing.{listing, shown_text};
ghost use Rattle.fed_qstat.specs.Short.{line_in_short};

use crate::full_lines::full_lines;
use crate::short_lines::push_short_line;
use fed_board::{Board, board_is_covered, board_is_in_order};
use fed_lattice::NoMemory;
use fed_record::{JobRecord, Letter};
use fed_stamp::{JobId, Roster};
use std::alloc::{AllocError, Global};

/// The room that is made for the lines of jobs that are named: most listings that name a job name one, by one line.
const NAMED_BYTES: usize = 112;

/// How a listing shows a job.
#[derive(Clone, Copy, PartialEq, Eq, Debug)]
enum Layout {
    /// By one line.
    Short,
    /// By twelve lines.
    Full,
}

/// Adds the lines that show a job with this letter.
fn push_lines(
    alloc: Global,
    text: &mut String,
    roster: &Roster,
    layout: Layout,
    id: JobId,
    job: &JobRecord,
    letter: Letter,
) -> Result<(), AllocError>
    requires submitted { IsTrue (is_submitted (job_reads job.now)) }
    requires letter { letter_of (job_reads job.now) ≡ Some letter }
    ensures { OnOk result (string_bytes text.new ≡
        string_bytes text.old ++ lines_in layout roster.now id (job_reads job.now)) }
{
    match layout {
        Layout::Short => push_short_line(text, roster, id, job, letter),
        Layout::Full => {
            let lines = full_lines(alloc, roster, id, job, letter)?;
            text.push_str(lines.as_str())
        }
    }
}

/// Adds the lines of a job, or nothing where it is gone.
fn push_job(
    alloc: Global,
    text: &mut String,
    roster: &Roster,
    layout: Layout,
    id: JobId,
    job: &JobRecord,
) -> Result<(), AllocError>
    ensures { OnOk result (string_bytes text.new ≡
        string_bytes text.old ++ shown_text (lines_in layout roster.now) id (job_reads job.now)) }
{
    if !job.is_submitted() {
        return Ok(());
    }
    match job.letter() {
        Some(letter) => push_lines(alloc, text, roster, layout, id, job, letter),
        None => Ok(()),
    }
}

/// Adds the lines of the job with this identifier, or nothing where the board has no such job or it is gone.
fn push_named(
    alloc: Global,
    text: &mut String,
    roster: &Roster,
    layout: Layout,
    board: &Board,
    id: JobId,
) -> Result<(), AllocError>
    ensures { OnOk result (string_bytes text.new ≡
        string_bytes text.old ++ shown_text (lines_in layout roster.now) id ((board_reads board.now).job id)) }
{
    match board.job(id) {
        Some(job) => push_job(alloc, text, roster, layout, id, job),
        None => Ok(()),
    }
}

/// The identifiers in the order of their stamps, each once.
fn distinct(alloc: Global, ids: &[JobId]) -> Result<Vec<JobId>, AllocError>
    ensures ascending { IfOk result (λ v. IsStrictlySortedBy stamp_cmp v.items) }
    ensures members { IfOk result (λ v. (id : StampValue) → Has v.items id ↔ Has ids.now id) }
{
    let mut distinct = Vec::from_slice(alloc, ids)?;
    distinct.sort()?;
    distinct.dedup();
    Ok(distinct)
}

/// The lines of all jobs.
fn list_all(
    alloc: Global,
    roster: &Roster,
    layout: Layout,
    board: &Board,
) -> Result<String, AllocError>
    ensures { IfOk result (λ text. string_bytes text ≡ listing (lines_in layout roster.now) (board_reads board.now) []) }
{
    board_is_covered(board);
    let mut text = String::new(alloc);
    for (id, job) in board.jobs() {
        push_job(alloc, &mut text, roster, layout, *id, job)?;
    }
    Ok(text)
}

/// The lines of the jobs that are named, of which there is one.
fn list_named(
    alloc: Global,
    roster: &Roster,
    layout: Layout,
    board: &Board,
    asked: &[JobId],
) -> Result<String, AllocError>
    requires { asked.now ≢ [] }
    ensures { IfOk result (λ text. string_bytes text ≡ listing (lines_in layout roster.now) (board_reads board.now) asked.now) }
{
    board_is_covered(board);
    board_is_in_order(board);
    let mut text = String::with_capacity(alloc, NAMED_BYTES)?;
    let ids = distinct(alloc, asked)?;
    for id in &ids {
        push_named(alloc, &mut text, roster, layout, board, *id)?;
    }
    Ok(text)
}

fn lines_of(
    alloc: Global,
    roster: &Roster,
    layout: Layout,
    board: &Board,
    ids: &[JobId],
) -> Result<String, NoMemory>
    ensures { IfOk result (λ text. string_bytes text ≡ listing (lines_in layout roster.now) (board_reads board.now) ids.now) }
{
    if ids.is_empty() {
        Ok(list_all(alloc, roster, layout, board)?)
    } else {
        Ok(list_named(alloc, roster, layout, board, ids)?)
    }
}

/// The short listing: a line for each job on the board that isn't gone and is named, or for each that isn't gone
/// where none is named, in the order of their stamps. A job that is named twice is shown once, and an identifier that
/// no job has is passed over. Where jobs are named, the others on the board take no time.
pub fn list(
    alloc: Global,
    board: &Board,
    roster: &Roster,
    ids: &[JobId],
) -> Result<String, NoMemory>
    ensures { IfOk result (λ text. string_bytes text ≡ listing (line_in_short roster.now) (board_reads board.now) ids.now) }
{
    lines_of(alloc, roster, Layout::Short, board, ids)
}

/// The full listing: twelve lines for each job that the short listing has a line for.
pub fn full(
    alloc: Global,
    board: &Board,
    roster: &Roster,
    ids: &[JobId],
) -> Result<String, NoMemory>
    ensures { IfOk result (λ text. string_bytes text ≡ listing (lines_in_full roster.now) (board_reads board.now) ids.now) }
{
    lines_of(alloc, roster, Layout::Full, board, ids)
}
