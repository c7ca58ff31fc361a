//! The members of a job's JSON object.
ghost use Rattle.std.specs.Prelude.{◌≡◌, IfSome, is_some};
ghost use Rattle.serde_json.specs.View.{view};
ghost use Rattle.fed_json.specs.Objects.{has_names};
ghost use Rattle.fed_job_json.specs.Job.{job_names};
ghost use Rattle.fed_job_json.specs.Members.{members_value};

use crate::formats::Format;
use fed_json::read_members;
use serde_json::Value;

// The names of a job's members. Format 1 has all but the first.
const NAMES: [&str; 13] = [
    "account", "deleted", "grant", "holds", "id", "limit", "name", "nodes", "owner", "priority",
    "progress", "sites", "touched",
];

/// The values of a job's members.
#[derive(Clone, Copy)]
pub struct JobMembers<'a> {
    /// The account beside its stamp, which format 1 does not have.
    pub account: Option<&'a Value>,
    /// Whether the job is deleted.
    pub deleted: &'a Value,
    /// The greatest stage of its grants, or null.
    pub grant: &'a Value,
    /// The live pairs of its holds.
    pub holds: &'a Value,
    /// The stamp that it is known by.
    pub id: &'a Value,
    /// Its limit of wall time beside its stamp.
    pub limit: &'a Value,
    /// Its name beside its stamp.
    pub name: &'a Value,
    /// The nodes that it asks for beside their stamp.
    pub nodes: &'a Value,
    /// Who submitted it, beside a stamp.
    pub owner: &'a Value,
    /// Its priority beside its stamp.
    pub priority: &'a Value,
    /// How far it has come.
    pub progress: &'a Value,
    /// The live pairs of its sites.
    pub sites: &'a Value,
    /// The greatest counters among its operations, by site.
    pub touched: &'a Value,
}

/// The members of the object, or none where it does not have exactly a job's names, in their order.
pub fn job_members<'a>(job: &'a Value, format: Format) -> Option<JobMembers<'a>>
    ensures named { is_some result ≡ has_names (job_names format) (view job.now) }
    ensures members { IfSome result (λ members. members_value members ≡ view job.now) }
{
    let first = match format {
        Format::One => 1,
        Format::Two => 0,
    };
    // Until a member is read, and in format 1 for the account, the object itself stands at its index.
    let mut members = [job; NAMES.len()];
    if !read_members(job, &NAMES[first..], &mut members[first..]) {
        return None;
    }
    Some(JobMembers {
        account: match format {
            Format::One => None,
            Format::Two => Some(members[0]),
        },
        deleted: members[1],
        grant: members[2],
        holds: members[3],
        id: members[4],
        limit: members[5],
        name: members[6],
        nodes: members[7],
        owner: members[8],
        priority: members[9],
        progress: members[10],
        sites: members[11],
        touched: members[12],
    })
}
