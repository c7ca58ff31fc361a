//! The roster of a federation: its sites, and how many nodes each has.
ghost use Rattle.std.specs.Prelude.{◌≡◌, ◌<◌, ◌≤◌, ◌↔◌, length, slice_get, IsTrue, IsOk, IfSome};
ghost use Rattle.std.specs.Option.{option_copied, option_map};
ghost use Rattle.fed_stamp.specs.Indexes.{least_index};
ghost use Rattle.fed_stamp.specs.Roster.{IsRoster, is_site_name as has_form_of_site_name, is_node_count as may_be_node_count, is_misnamed, is_repeated, has_wrong_nodes, is_named, first_fault as fault_of, number_of, ok_unless, sites_of, places};

use crate::sites::{SITES, SiteId};
use crate::words::Word;
use std::marker::Model;
use thiserror::Error;

/// How many nodes a site has at most.
pub const MAX_NODES: u64 = 1_000_000;

/// What is wrong with a list of sites. An index is that of the site in the list, from 0.
#[derive(Clone, Copy, PartialEq, Eq, Debug, Error)]
pub enum RosterFault {
    /// There is no site, or there are more than 16.
    #[error("a federation has 1 to 16 sites")]
    Count,
    /// The name of a site is not 1 to 15 characters, of which the first is an ASCII letter, and each
    /// other one an ASCII letter, an ASCII digit or `-`.
    #[error("the name of site {index} is not a letter and up to 14 letters, digits or hyphens")]
    Name { index: usize },
    /// A site has the name of an earlier one. The index is that of the later of the two.
    #[error("the name of site {index} is that of an earlier site")]
    Twice { index: usize },
    /// The number of a site's nodes is not from 1 to `MAX_NODES`.
    #[error("the nodes of site {index} are not from 1 to 1000000")]
    Nodes { index: usize },
}

impl RosterFault {
    /// The number of the fault: 1 for `Count`, 2 for `Name`, 3 for `Twice` and 4 for `Nodes`.
    pub fn number(self) -> u8
        ensures { result ≡ number_of self }
    {
        match self {
            RosterFault::Count => 1,
            RosterFault::Name { .. } => 2,
            RosterFault::Twice { .. } => 3,
            RosterFault::Nodes { .. } => 4,
        }
    }
}

/// The sites of a federation, 1 to 16 of them with different names, in an order that gives each its
/// `SiteId`.
#[derive(Clone, Copy, PartialEq, Eq, Debug)]
pub struct Roster {
    // the sites in order, each with its number of nodes, then `None`
    sites: [Option<(Word, u64)>; SITES],
}

impl Model for Roster {
    ghost use Rattle.std.specs.Prelude.{◌≡◌, ℕ, List};
    ghost use Rattle.fed_stamp.specs.Roster.{IsRoster, places, sites_in};

    ghost Value = { List (List ℕ × ℕ) };

    ghost view = { λ r. sites_in r.sites };

    ghost invariant = { λ r. (places (sites_in r.sites) ≡ r.sites) × IsRoster (sites_in r.sites) };

    ghost inverse = { λ v. record { sites = places v } };

    ghost inverse_ok = { λ r h i. record { sites = h.0 i } };
}

/// Whether a text has the form of a site's name: 1 to 15 characters, of which the first is an ASCII letter, and each
/// other one an ASCII letter, an ASCII digit or `-`.
#[tactic(auto, unfolding(crate::specs::Roster::is_site_name))]
pub fn is_site_name(text: &str) -> bool
    ensures { result ≡ has_form_of_site_name text.now }
{
    if Word::new(text).is_none() {
        return false;
    }
    for byte in text.as_bytes() {
        if !byte.is_ascii_alphanumeric() && *byte != b'-' {
            return false;
        }
    }
    true
}

/// Whether a site may have this number of nodes.
fn is_node_count(nodes: u64) -> bool
    ensures { result ≡ may_be_node_count nodes }
{
    1 <= nodes && nodes <= MAX_NODES
}

/// The least index of a name that is not of a site name's form.
fn first_misnamed(sites: &[(&str, u64)]) -> Option<usize>
    ensures { result ≡ least_index (is_misnamed (sites_of sites.now)) (length (sites_of sites.now)) }
{
    for i in 0..sites.len() {
        if !is_site_name(sites[i].0) {
            return Some(i);
        }
    }
    None
}

/// Whether a site has the name of an earlier one.
fn is_name_repeated(sites: &[(&str, u64)], index: usize) -> bool
    requires { index < length sites.now }
    ensures { result ≡ is_repeated (sites_of sites.now) index }
{
    for i in 0..index {
        if sites[i].0 == sites[index].0 {
            return true;
        }
    }
    false
}

/// The least index of a name that an earlier site has.
fn first_repeated(sites: &[(&str, u64)]) -> Option<usize>
    ensures { result ≡ least_index (is_repeated (sites_of sites.now)) (length (sites_of sites.now)) }
{
    for i in 0..sites.len() {
        if is_name_repeated(sites, i) {
            return Some(i);
        }
    }
    None
}

/// The least index of a number of nodes that no site may have.
fn first_with_wrong_nodes(sites: &[(&str, u64)]) -> Option<usize>
    ensures { result ≡ least_index (has_wrong_nodes (sites_of sites.now)) (length (sites_of sites.now)) }
{
    for i in 0..sites.len() {
        if !is_node_count(sites[i].1) {
            return Some(i);
        }
    }
    None
}

/// The first fault of a list of sites.
#[tactic(auto, unfolding(crate::specs::Roster::first_fault), using(crate::proofs::RosterLemmas::length_sites))]
fn first_fault(sites: &[(&str, u64)]) -> Option<RosterFault>
    ensures { result ≡ fault_of (sites_of sites.now) }
{
    if sites.is_empty() || sites.len() > SITES {
        return Some(RosterFault::Count);
    }
    if let Some(index) = first_misnamed(sites) {
        return Some(RosterFault::Name { index });
    }
    if let Some(index) = first_repeated(sites) {
        return Some(RosterFault::Twice { index });
    }
    if let Some(index) = first_with_wrong_nodes(sites) {
        return Some(RosterFault::Nodes { index });
    }
    None
}

/// The places of a lawful list of sites.
fn stored(sites: &[(&str, u64)]) -> [Option<(Word, u64)>; SITES]
    requires { IsRoster (sites_of sites.now) }
    ensures { result ≡ places (sites_of sites.now) }
{
    let mut stored = [None; SITES];
    for i in 0..sites.len() {
        let (name, nodes) = sites[i];
        if let Some(word) = Word::new(name) {
            stored[i] = Some((word, nodes));
        }
    }
    stored
}

impl Roster {
    /// The roster of these sites, each a name and a number of nodes. A site is named by 1 to 15
    /// characters, of which the first is an ASCII letter, and each other one an ASCII letter, an ASCII
    /// digit or `-`; it has 1 to `MAX_NODES` nodes. Where something is wrong, the fault of the least
    /// number is answered, and of it the one of the least index.
    pub fn new(sites: &[(&str, u64)]) -> Result<Roster, RosterFault>
        ensures same { result ≡ ok_unless (fault_of (sites_of sites.now)) (sites_of sites.now) }
        ensures lawful { IsOk result ↔ IsRoster (sites_of sites.now) }
    {
        match first_fault(sites) {
            Some(fault) => Err(fault),
            None => Ok(Roster {
                sites: stored(sites),
            }),
        }
    }

    /// How many sites there are, from 1 to 16.
    pub fn len(&self) -> usize
        ensures same { result ≡ length self.now }
        ensures roster { IsRoster self.now }
    {
        let mut len = 0;
        for site in &self.sites {
            if site.is_some() {
                len += 1;
            }
        }
        len
    }

    /// The name of a site, or `None` where the roster has no site of this number.
    pub fn name(&self, site: SiteId) -> Option<&str>
        ensures { option_copied result ≡ option_map (λ s. s.0) (slice_get self.now site) }
    {
        match &self.sites[site.get() as usize] {
            Some((name, _)) => Some(name.as_str()),
            None => None,
        }
    }

    /// How many nodes a site has, from 1 to `MAX_NODES`, or `None` where the roster has no site of this
    /// number.
    pub fn nodes(&self, site: SiteId) -> Option<u64>
        ensures same { result ≡ option_map (λ s. s.1) (slice_get self.now site) }
        ensures in_range { IfSome result (λ n. (1 ≤ n) × (n ≤ MAX_NODES)) }
    {
        match self.sites[site.get() as usize] {
            Some((_, nodes)) => Some(nodes),
            None => None,
        }
    }

    /// The site of this name, or `None` where the roster has no such site.
    pub fn find(&self, name: &str) -> Option<SiteId>
        ensures { result ≡ least_index (is_named self.now name.now) (length self.now) }
    {
        for i in 0..SITES {
            if let Some((word, _)) = &self.sites[i] {
                if word.as_str() == name {
                    return SiteId::new(i as u8);
                }
            }
        }
        None
    }
}
