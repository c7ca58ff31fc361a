//! The desk of a job's origin.
ghost use Rattle.std.specs.Prelude.{◌≡◌, IsTrue};
ghost use Rattle.fed_record.specs.JobRecord.{job_reads};
ghost use Rattle.fed_model.specs.Letter.{is_submitted};
ghost use Rattle.fed_board.specs.Board.{board_reads};
ghost use Rattle.fed_model.specs.View.{View};
ghost use Rattle.fed_model.specs.Desk.{decision, first_of, grant_refusals};

use fed_board::Board;
use fed_model::Decision;
use fed_record::{JobRecord, Refusal};
use fed_stamp::{JobId, SiteId};

/// Why the site `me` refuses to grant the job to the site `asker`: the first that applies of `UnknownJob`, `Gone`,
/// `NotOrigin`, `Held`, `NotEligible` and `TakenBy`. `None` where none applies: the job may be granted to the asker, or
/// already is.
pub fn grant_refusal(board: &Board, me: SiteId, job: JobId, asker: SiteId) -> Option<Refusal>
    ensures { result ≡ first_of (grant_refusals (board_reads board.now) me job asker) }
{
    match decide(board, me, job, asker) {
        Decision::Refused(refusal) => Some(refusal),
        Decision::Grant | Decision::Yours => None,
    }
}

/// What the site `me`, as the origin of the job, decides where the site `asker` asks for it: the first refusal that
/// applies, of the numbers 1, 3, 5, 6, 7 and 8; else `Yours` where the job is granted to the asker; else `Grant`. It
/// changes nothing and takes no memory.
pub fn decide(board: &Board, me: SiteId, job: JobId, asker: SiteId) -> Decision
    ensures { result ≡ decision (board_reads board.now) me job asker }
{
    match board.job(job) {
        Some(record) => decide_on(record, me, job, asker),
        None => Decision::Refused(Refusal::UnknownJob),
    }
}

/// What `decide` answers on each board that has this record for the job. It asks that the job is submitted, which holds
/// of every record on a board.
pub fn decide_on(found: &JobRecord, me: SiteId, job: JobId, asker: SiteId) -> Decision
    requires { IsTrue (is_submitted (job_reads found.now)) }
    ensures { (v : View) → v.job job ≡ job_reads found.now → result ≡ decision v me job asker }
{
    if found.is_gone() {
        return Decision::Refused(Refusal::Gone);
    }
    if job.site() != me {
        return Decision::Refused(Refusal::NotOrigin);
    }
    match found.holder() {
        Some(site) if site == asker => Decision::Yours,
        Some(site) => Decision::Refused(Refusal::TakenBy(site)),
        None if found.is_held() => Decision::Refused(Refusal::Held),
        None if !found.has_site(asker) => Decision::Refused(Refusal::NotEligible),
        None => Decision::Grant,
    }
}
