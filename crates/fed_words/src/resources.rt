//! Lists of resources.
ghost use Rattle.std.specs.Prelude.{◌≡◌, ◌∷◌, ◌++◌, [], List};
ghost use Rattle.fed_words.specs.declared.resources.Resource.{Resource};
ghost use Rattle.fed_words.specs.Fault.{Gives};
ghost use Rattle.fed_words.specs.Resource.{last_resources, resource_in, resources_in, sites_in, value_in};

use crate::faults::UsageFault;
use crate::numbers::{read_limit, read_nodes};
use crate::sites::read_site;
use fed_model::{Limit, Nodes};
use fed_stamp::{Roster, SiteSet};
use std::alloc::Global;

/// A resource with its value.
#[derive(Clone, Copy, PartialEq, Eq, Debug)]
pub enum Resource {
    /// `nodes`
    Nodes(Nodes),
    /// `walltime`
    Limit(Limit),
    /// `sites`
    Sites(SiteSet),
}

/// What a list of resources sets.
#[derive(Clone, Copy, PartialEq, Eq, Debug)]
pub struct Resources {
    /// How many nodes.
    pub nodes: Option<Nodes>,
    /// The time limit.
    pub limit: Option<Limit>,
    /// The sites.
    pub sites: Option<SiteSet>,
}

impl Resources {
    /// No resource.
    pub(crate) fn none() -> Resources
        ensures { result ≡ last_resources [] }
    {
        Resources {
            nodes: None,
            limit: None,
            sites: None,
        }
    }

    /// One resource more, which takes the place of an earlier one of its name.
    pub(crate) fn with(self, resource: Resource) -> Resources
        ensures { (given : List Resource) → self ≡ last_resources given →
            result ≡ last_resources (given ++ resource ∷ []) }
    {
        match resource {
            Resource::Nodes(nodes) => Resources {
                nodes: Some(nodes),
                ..self
            },
            Resource::Limit(limit) => Resources {
                limit: Some(limit),
                ..self
            },
            Resource::Sites(sites) => Resources {
                sites: Some(sites),
                ..self
            },
        }
    }
}

/// The sites that a value of `sites` names.
fn read_sites(alloc: Global, roster: &Roster, value: &str) -> Result<SiteSet, UsageFault>
    ensures { Gives (λ set. set) result (sites_in roster.now value.now) }
{
    let mut sites = Vec::new(alloc);
    for name in value.split('+') {
        let site = read_site(UsageFault::BadValue, roster, name)?;
        sites.push(site)?;
    }
    Ok(SiteSet::new(&sites).unwrap())
}

/// The resource of this name, with the value that the text writes.
fn read_value(
    alloc: Global,
    roster: &Roster,
    name: &str,
    value: &str,
) -> Result<Resource, UsageFault>
    ensures { Gives (λ resource. resource) result (value_in roster.now name.now value.now) }
{
    if name == "nodes" {
        let nodes = read_nodes(value).ok_or(UsageFault::BadValue)?;
        Ok(Resource::Nodes(nodes))
    } else if name == "walltime" {
        let limit = read_limit(value).ok_or(UsageFault::BadValue)?;
        Ok(Resource::Limit(limit))
    } else if name == "sites" {
        let sites = read_sites(alloc, roster, value)?;
        Ok(Resource::Sites(sites))
    } else {
        Err(UsageFault::BadValue)
    }
}

/// The resource of a pair `resource=value`.
fn read_resource(alloc: Global, roster: &Roster, pair: &str) -> Result<Resource, UsageFault>
    ensures { Gives (λ resource. resource) result (resource_in roster.now pair.now) }
{
    match pair.split_once('=') {
        Some((name, value)) => read_value(alloc, roster, name, value),
        None => Err(UsageFault::BadValue),
    }
}

/// What a list of `resource=value` pairs, joined by single commas, sets; of a resource given twice the last counts.
///
/// The first fault of the pairs in their order, and in a value of `sites` of its names in their order: `BadValue` where
/// a pair has no `=`, names no resource, or has a value out of its range or form; `UnknownSite` where the roster has no
/// site of a name; `NoMemory` where an allocation failed.
pub fn read_resources(alloc: Global, roster: &Roster, text: &str) -> Result<Resources, UsageFault>
    ensures { Gives (λ resources. resources) result (resources_in roster.now text.now) }
{
    let mut resources = Resources::none();
    for pair in text.split(',') {
        let resource = read_resource(alloc, roster, pair)?;
        resources = resources.with(resource);
    }
    Ok(resources)
}
