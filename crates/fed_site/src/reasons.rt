//! What the user is told of a line: why it isn't done as it asks, and what else there is to say.

use crate::answers::Begun;
use crate::complaints::Complaint;
use crate::misused::misused_text;
use crate::other_rosters::other_roster_text;
use crate::refused::refused_text;
use crate::site::Site;
use fed_easy::used_nodes;
use fed_lattice::NoMemory;
use fed_qstat::{identifier_text, site_text};
use fed_stamp::SiteId;
use std::alloc::Global;

/// That a packet needs what this site lacks of another.
fn gap_text(alloc: Global, site: &Site, lacking: SiteId) -> Result<String, NoMemory> {
    let name = site_text(alloc, site.roster(), lacking)?;
    Ok(format!(in alloc;
        "gap {name}: the packet rests on operations of {name} that this site has not seen: \
        take one that its sender makes for this site, or one from {name}"
    )?)
}

/// That the sender of a packet is another site than the one that hands it in.
fn not_from_text(alloc: Global, site: &Site, from: SiteId) -> Result<String, NoMemory> {
    let name = site_text(alloc, site.roster(), from)?;
    Ok(format!(in alloc;
        "not from {name}: the packet's sender is another site, and {name} hands in its own packets alone"
    )?)
}

/// What is said of the cause alone.
fn cause_text(alloc: Global, complaint: &Complaint) -> Result<String, NoMemory> {
    Ok(format!(in alloc; "{complaint}")?)
}

/// Why a line isn't done as it asks, with what was asked of what.
pub fn reason_text(
    alloc: Global,
    site: &Site,
    line: &[u8],
    complaint: &Complaint,
) -> Result<String, NoMemory> {
    let told = match complaint {
        Complaint::Refused(refused) => Some(refused_text(alloc, site, refused)?),
        Complaint::Misused(fault) => misused_text(alloc, site, line, *fault)?,
        Complaint::NotFrom(from) => Some(not_from_text(alloc, site, *from)?),
        Complaint::Gap(lacking) => Some(gap_text(alloc, site, *lacking)?),
        Complaint::OtherRoster => other_roster_text(alloc, site, line)?,
        _ => None,
    };
    match told {
        Some(text) => Ok(text),
        None => cause_text(alloc, complaint),
    }
}

/// That the site is beyond its nodes where this job began, if it is.
fn beyond_text(alloc: Global, site: &Site, begun: Begun) -> Result<Option<String>, NoMemory> {
    let roster = site.roster();
    let here = site.here();
    let nodes = roster.nodes(here).unwrap_or(0);
    let used = used_nodes(site.board(), here, begun.moment.get());
    if used <= nodes {
        return Ok(None);
    }
    let id = identifier_text(alloc, roster, begun.job)?;
    let name = site_text(alloc, roster, here)?;
    Ok(Some(format!(in alloc;
        "{id} has begun, and {name} is beyond its nodes: running jobs and reservations use {used} of {nodes}"
    )?))
}

/// What is said of a line that was done: where it began a job, that the site is beyond its nodes, if so. A job begins
/// whatever the use of the machine is.
pub fn warning_text(
    alloc: Global,
    site: &Site,
    begun: Option<Begun>,
) -> Result<Option<String>, NoMemory> {
    match begun {
        Some(begun) => beyond_text(alloc, site, begun),
        None => Ok(None),
    }
}
