//! Values that merge, and jobs as kept: `fed_stamp`, `fed_lattice`, `fed_tags` and `fed_record`.
use fed_lattice::{Both, Causal, Exact, ExactEq, Flag, NoMemory, Register, Stage, Table};
use fed_record::{
    Account, Fields, HoldKind, HoldKinds, JobParts, JobRecord, Limit, Moment, Nodes, Operation,
    Priority, Reservation, Stages, Window,
};
use fed_stamp::{ClockFull, JobId, Roster, RosterFault, SiteId, SiteSet, Stamp, Version, Word};
use fed_tags::{TagChange, TagSet};
use std::process::Abort;
use test_values::{ann, both_sites, values};

#[test]
fn stamps(rt: HostRuntime) {
    let site: SiteId = SiteId::new(3).expect(&rt, "a site");
    let at: Stamp = Stamp::new(7, site).expect(&rt, "a stamp");
    let one: Version = Version::new([1; 16]).expect(&rt, "a version");
    let later: Version = one.with(at);
    assert!(rt; site.get() == 3 && at.counter() == 7 && at.site() == site);
    assert!(rt; one.get(site) == 1 && !one.covers(at) && later.covers(at));
    assert!(rt; one.join(&later) == later && one.meet(&later) == one);
    assert!(rt; one.le(&later) && !later.le(&one));
    assert!(rt; one.next(site) == Ok(Stamp::new(2, site).unwrap_or(at)));
    let full = Version::new([1_000_000_000; 16]).expect(&rt, "a version");
    assert!(rt; full.next(site) == Err(ClockFull) && ClockFull.number() == 1);
}

#[test]
fn rosters(rt: HostRuntime) {
    let argonne = SiteId::new(0).unwrap();
    let ann: Word = Word::new("ann").expect(&rt, "a name");
    let sites: SiteSet = SiteSet::new(&[argonne]).expect(&rt, "a set");
    assert!(rt; ann.as_str() == "ann" && sites.has(argonne));
    let roster: Roster = Roster::new(&[("argonne", 8), ("lemont", 4)]).expect(&rt, "a roster");
    assert!(rt; roster.len() == 2 && roster.find("argonne") == Some(argonne));
    assert!(rt; roster.name(argonne) == Some("argonne") && roster.nodes(argonne) == Some(8));
    let fault: RosterFault = Roster::new(&[("argonne", 0)]).expect_err(&rt, "no nodes");
    assert!(rt; fault == RosterFault::Nodes { index: 0 } && fault.number() == 4);
}

/// What a change comes to: a value that has it, joined with a copy of itself.
fn changed<V: Causal + ExactEq + Drop>(
    rt: &(impl Abort + AllocGlobal),
    at: Stamp,
    change: &V::Change,
) -> V {
    let mut value = V::bottom(rt.alloc());
    value.apply(at, change).expect(rt, "memory");
    let copy: Result<V, NoMemory> = value.copy();
    let seen = Version::default().with(at);
    let joined = value.join(&seen, &copy.expect(rt, "memory"), &seen);
    joined.expect(rt, "memory")
}

/// Whether two exact values are one.
fn is_same<T: Exact>(one: T, other: T) -> bool {
    one == other
}

#[test]
fn values_that_merge(rt: HostRuntime) {
    let at: JobId = Stamp::new(1, SiteId::new(0).unwrap()).unwrap();
    assert!(rt; changed::<Register<u64>>(&rt, at, &5).get() == Some((at, 5)));
    assert!(rt; changed::<Flag>(&rt, at, &()).get());
    assert!(rt;
        changed::<Stage<u64>>(&rt, at, &5)
            .get()
            .is_some_and(|it| is_same(it, 5))
    );
    let both = changed::<Both<Register<u64>, Flag>>(&rt, at, &(Some(5), None));
    assert!(rt; both.first.get() == Some((at, 5)) && !both.second.get());
    let table = changed::<Table<u64, Flag>>(&rt, at, &(9, ()));
    assert!(rt; table.len() == 1 && table.get(9).is_some());
}

#[test]
fn tag_sets(rt: HostRuntime) {
    let alloc = rt.alloc();
    let (seven, at) = (7u8, Stamp::new(1, SiteId::new(0).unwrap()).unwrap());
    let added = vec![in alloc; seven].expect(&rt, "memory");
    let set = changed::<TagSet<u8>>(&rt, at, &TagChange::new(added, Vec::new(alloc)));
    assert!(rt; set.has(&seven) && set.tags(&seven) == [at].as_slice());
    assert!(rt; set.elements().eq([seven]));
    let pairs = [(seven, at)];
    assert!(rt; TagSet::is_ascending(&pairs));
    let again = TagSet::from_pairs(alloc, &pairs).expect(&rt, "memory");
    assert!(rt; again == set);
}

#[test]
fn numbers(rt: HostRuntime) {
    assert!(rt;
        Priority::new(-1024).map(|it| it.get()) == Some(-1024) && Priority::new(1024).is_none()
    );
    assert!(rt;
        Nodes::new(1_000_000).map(|it| it.get()) == Some(1_000_000) && Nodes::new(0).is_none()
    );
    assert!(rt;
        Limit::new(10_000_000).map(|it| it.get()) == Some(10_000_000) && Limit::new(0).is_none()
    );
    assert!(rt;
        Moment::new(0).map(|it| it.get()) == Some(0) && Moment::new(1_000_000_000_001).is_none()
    );
    let account: Account = Account::new("chem").expect(&rt, "an account");
    assert!(rt; account.as_str() == "chem" && Account::new("9x").is_none());
}

/// The parts of a job that was submitted by this operation alone, and is held.
fn parts<'a>(
    at: JobId,
    holds: &'a [(HoldKind, Stamp)],
    sites: &'a [(SiteId, Stamp)],
) -> JobParts<'a> {
    JobParts {
        fields: Fields {
            owner: (at, ann().user),
            name: (at, values(both_sites()).name),
            priority: (at, Priority::new(0).unwrap()),
            nodes: (at, Nodes::new(1).unwrap()),
            limit: (at, Limit::new(3600).unwrap()),
            account: (at, Account::EMPTY),
        },
        hold_tags: holds,
        site_tags: sites,
        stages: Stages {
            deleted: false,
            grant: None,
            begun: None,
            finished: None,
        },
        touched: Version::default().with(at),
    }
}

#[test]
fn records(rt: HostRuntime) {
    let argonne = SiteId::new(0).unwrap();
    let at = Stamp::new(1, argonne).unwrap();
    let (holds, sites) = ([(HoldKind::User, at)], [(argonne, at)]);
    let parts = parts(at, &holds, &sites);
    assert!(rt; parts.are_record_parts());
    let record: JobRecord = JobRecord::from_parts(rt.alloc(), &parts).expect(&rt, "memory");
    assert!(rt; record.is_submitted());
    assert!(rt; record.owner() == parts.fields.owner && record.name() == parts.fields.name);
    assert!(rt; record.priority() == parts.fields.priority && record.nodes() == parts.fields.nodes);
    assert!(rt; record.limit() == parts.fields.limit && record.account() == parts.fields.account);
    assert!(rt; record.holds() == HoldKinds::USER && record.hold_tags().eq([(HoldKind::User, at)]));
    assert!(rt; record.sites().eq([argonne]) && record.site_tags().eq([(argonne, at)]));
    assert!(rt; !record.deleted() && record.grant().is_none() && record.progress().begun.is_none());
    assert!(rt;
        record.touched() == parts.touched && record.letter() == Some(fed_model::Letter::Held)
    );
}

#[test]
fn reservations(rt: HostRuntime) {
    let site = SiteId::new(0).unwrap();
    let at = Stamp::new(1, site).unwrap();
    let (start, end, nodes) = (50, 60, 8);
    let window = Window {
        site,
        start,
        end,
        nodes,
    };
    let reserved = changed::<Reservation>(&rt, at, &Operation::Reserve { window });
    assert!(rt; reserved == Reservation::from_parts(at, Some(window)) && reserved.is_made());
    assert!(rt; reserved.stamp() == at && reserved.window() == Some(window));
}
