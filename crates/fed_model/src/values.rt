//! What a job is submitted with, and what an alteration sets anew.
use crate::accounts::Account;
use crate::limits::Limit;
use crate::node_counts::Nodes;
use crate::priorities::Priority;
use fed_stamp::{SiteSet, Word};

/// What a job is submitted with.
#[derive(Clone, Copy, PartialEq, Eq, Debug)]
pub struct JobValues {
    /// Its name.
    pub name: Word,
    /// How soon it is wanted: the greater comes first.
    pub priority: Priority,
    /// How many nodes it runs on.
    pub nodes: Nodes,
    /// How long it may run, in seconds.
    pub limit: Limit,
    /// What it is charged to.
    pub account: Account,
    /// Where it may run.
    pub sites: SiteSet,
}

/// The values that an alteration of a job names; the others stay.
#[derive(Clone, Copy, PartialEq, Eq, Debug)]
pub struct Changes {
    /// The new name.
    pub name: Option<Word>,
    /// The new priority.
    pub priority: Option<Priority>,
    /// The new number of nodes.
    pub nodes: Option<Nodes>,
    /// The new time limit, in seconds.
    pub limit: Option<Limit>,
    /// The new account.
    pub account: Option<Account>,
    /// The sites that take the place of those seen.
    pub sites: Option<SiteSet>,
}
