//! The stages of a job read from JSON values.
ghost use Rattle.std.specs.Prelude.{◌≡◌};
ghost use Rattle.fed_job_json.specs.Job.{stages_of};
ghost use Rattle.fed_job_json.specs.Members.{members_value};

use fed_job_json::grants::grant;
use fed_job_json::progress::progress;
use fed_job_json::{Format, JobMembers};
use fed_json::{Flaw, both, truth};
use fed_record::{StageParts, Stages};

/// Whether it is deleted, its grant, and how far it has come.
pub(crate) fn stages(members: &JobMembers<'_>, format: Format) -> Result<StageParts, Flaw>
    ensures { result ≡ stages_of format (members_value members.now) }
{
    let others = both(grant(members.grant, format), progress(members.progress));
    match both(truth(members.deleted), others) {
        Ok(read) => {
            let (deleted, (grant, progress)) = read;
            Ok(Stages {
                deleted,
                grant,
                begun: progress.begun,
                finished: progress.finished,
            })
        }
        Err(flaw) => Err(flaw),
    }
}
