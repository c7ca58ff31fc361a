//! What is looked at of a job.
ghost use Rattle.std.specs.Prelude.{◌≡◌, ◌≤◌, ◌&&◌, is_none};
ghost use Rattle.fed_record.specs.JobRecord.{job_reads};
ghost use Rattle.fed_model.specs.Letter.{is_held};
ghost use Rattle.fed_model.specs.Answer.{term_in};

use fed_record::{JobRecord, MAX_TERM};

/// Whether a hold keeps the job from beginning.
pub(crate) fn is_held_up(job: &JobRecord) -> bool
    ensures { result ≡ (is_held (job_reads job.now) && is_none (job_reads job.now).stages.begun) }
{
    job.is_held() && job.progress().begun.is_none()
}

/// The greatest term of the job's grants, or 0 where it has none.
pub(crate) fn last_term(job: &JobRecord) -> u64
    ensures term { result ≡ term_in (job_reads job.now).stages.grant }
    ensures most { result ≤ MAX_TERM }
{
    match job.grant() {
        Some(stage) => stage.term().get(),
        None => 0,
    }
}
