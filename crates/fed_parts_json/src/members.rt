//! The members of a job, put into an object one after another. The last name comes first: an object looks for the place of
//! a name from its first one on, so that each is found at once.
ghost use Rattle.std.specs.Prelude.{◌≡◌, IsTrue, OnOk};
ghost use Rattle.serde_json.specs.View.{members_view};
ghost use Rattle.fed_record.specs.JobRecord.{job_reads};
ghost use Rattle.fed_model.specs.Letter.{is_submitted};
ghost use Rattle.fed_parts_json.specs.Members.{sites_to_owner, nodes_to_limit, holds_to_account};

use crate::values::{account, grant, holds, limit, name, nodes, priority, progress, sites};
use fed_record::JobRecord;
use serde_json::{Map, Value, put};
use std::alloc::{AllocError, Global};

#[tactic(auto, unfolding(crate::specs::Members::sites_to_owner))]
pub(crate) fn put_sites_to_owner(
    members: &mut Map<String, Value>,
    alloc: Global,
    job: &JobRecord,
) -> Result<(), AllocError>
    requires { IsTrue (is_submitted (job_reads job.now)) }
    ensures { OnOk result (members_view members.new.entries ≡ sites_to_owner job.now (members_view members.old.entries)) }
{
    put(members, alloc, "sites", sites(alloc, job)?)?;
    put(members, alloc, "progress", progress(alloc, job.progress())?)?;
    put(members, alloc, "priority", priority(alloc, job.priority())?)?;
    put(members, alloc, "owner", name(alloc, job.owner())?)?;
    Ok(())
}

#[tactic(auto, unfolding(crate::specs::Members::nodes_to_limit))]
pub(crate) fn put_nodes_to_limit(
    members: &mut Map<String, Value>,
    alloc: Global,
    job: &JobRecord,
) -> Result<(), AllocError>
    requires { IsTrue (is_submitted (job_reads job.now)) }
    ensures { OnOk result (members_view members.new.entries ≡ nodes_to_limit job.now (members_view members.old.entries)) }
{
    put(members, alloc, "nodes", nodes(alloc, job.nodes())?)?;
    put(members, alloc, "name", name(alloc, job.name())?)?;
    put(members, alloc, "limit", limit(alloc, job.limit())?)?;
    Ok(())
}

#[tactic(auto, unfolding(crate::specs::Members::holds_to_account))]
pub(crate) fn put_holds_to_account(
    members: &mut Map<String, Value>,
    alloc: Global,
    job: &JobRecord,
) -> Result<(), AllocError>
    requires { IsTrue (is_submitted (job_reads job.now)) }
    ensures { OnOk result (members_view members.new.entries ≡ holds_to_account job.now (members_view members.old.entries)) }
{
    put(members, alloc, "holds", holds(alloc, job)?)?;
    put(members, alloc, "grant", grant(alloc, job.grant())?)?;
    put(members, alloc, "deleted", Value::from(job.deleted()))?;
    put(members, alloc, "account", account(alloc, job.account())?)?;
    Ok(())
}
