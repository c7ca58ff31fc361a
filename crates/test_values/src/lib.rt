//! Values that the tests of several crates use: sites, stamps, users, and what they submit.
#![tactic(auto)]

use fed_model::{Account, Changes, Command, JobValues, Limit, Nodes, Priority, Role, Who};
use fed_stamp::{Roster, SiteId, SiteSet, Stamp, Word};

/// Two sites: argonne, which is site 0 and has 8 nodes, and lemont, which has 4.
pub fn two_sites() -> Roster {
    Roster::new(&[("argonne", 8), ("lemont", 4)]).unwrap()
}

/// The site with this number, or site 0 where none has it.
pub fn site(number: u8) -> SiteId {
    SiteId::new(number).unwrap_or_default()
}

/// The sites of `two_sites`.
pub fn both_sites() -> SiteSet {
    SiteSet::new(&[site(0), site(1)]).unwrap()
}

/// The stamp with this counter of the site with this number, or the least stamp where there is none.
pub fn stamp(counter: u64, number: u8) -> Stamp {
    Stamp::new(counter, site(number)).unwrap_or_default()
}

/// ann, who has no role.
pub fn ann() -> Who {
    Who {
        user: Word::new("ann").unwrap(),
        role: Role::User,
    }
}

/// bob, who has no role.
pub fn bob() -> Who {
    Who {
        user: Word::new("bob").unwrap(),
        role: Role::User,
    }
}

/// root, an administrator.
pub fn root() -> Who {
    Who {
        user: Word::new("root").unwrap(),
        role: Role::Administrator,
    }
}

/// What a job is submitted with that may run at these sites, where nothing else is said.
pub fn values(sites: SiteSet) -> JobValues {
    JobValues {
        name: Word::new("STDIN").unwrap(),
        priority: Priority::new(0).unwrap(),
        nodes: Nodes::new(1).unwrap(),
        limit: Limit::new(3600).unwrap(),
        account: Account::EMPTY,
        sites,
    }
}

/// Submits a job that may run at both sites of `two_sites`.
pub fn submission() -> Command {
    Command::Submit {
        values: values(both_sites()),
        held: false,
    }
}

/// An alteration that sets nothing.
pub const UNCHANGED: Changes = Changes {
    name: None,
    priority: None,
    nodes: None,
    limit: None,
    account: None,
    sites: None,
};
