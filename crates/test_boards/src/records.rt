//! Records of jobs, also where memory may be refused. A call answers as with ample memory, or by want of memory; then it leaves
//! the record as before, and answers as with ample memory when it is asked again. So the tests pass whichever allocation
//! fails, which `rt try --test --fail-alloc N` does for the Nth.
ghost use Rattle.std.specs.Prelude.{◌≡◌, IsTrue, IfOk};
ghost use Rattle.fed_record.specs.JobRecord.{job_reads};
ghost use Rattle.fed_model.specs.Letter.{is_submitted as is_job_submitted};

use fed_lattice::{Causal, NoMemory};
use fed_record::{
    Fields, HoldKind, HoldKinds, JobOperation, JobParts, JobRecord, JobValues, Operation, Stages,
};
use fed_stamp::{JobId, SiteSet, Stamp, Version};
use std::alloc::Global;
use std::process::Abort;
use test_values::{ann, site, stamp, values};

/// The job of these tests, submitted at site 2.
fn job() -> JobId {
    stamp(5, 2)
}

/// The values of a submission to the sites 1 and 4.
fn first_values() -> JobValues {
    values(SiteSet::new(&[site(4), site(1)]).unwrap())
}

fn copied(rt: &impl Abort, record: &JobRecord) -> JobRecord {
    match record.copy() {
        Ok(copy) => copy,
        Err(NoMemory) => record.copy().expect(rt, "memory"),
    }
}

/// Adds the operation. A failed allocation leaves the record.
fn applied(rt: &impl Abort, record: &mut JobRecord, at: Stamp, operation: &Operation) {
    let before = copied(rt, record);
    if record.apply(at, operation).is_err() {
        assert!(rt; *record == before);
        record.apply(at, operation).expect(rt, "memory");
    }
}

fn joined(
    rt: &impl Abort,
    record: &JobRecord,
    seen: &Version,
    other: &JobRecord,
    known: &Version,
) -> JobRecord {
    match record.join(seen, other, known) {
        Ok(joined) => joined,
        Err(NoMemory) => record.join(seen, other, known).expect(rt, "memory"),
    }
}

/// The record of a job that was submitted held.
fn held(rt: &(impl Abort + AllocGlobal)) -> JobRecord {
    let submit = Operation::Submit {
        owner: ann().user,
        values: first_values(),
        held: true,
    };
    let mut record = JobRecord::bottom(rt.alloc());
    applied(rt, &mut record, job(), &submit);
    record
}

/// Releases the hold of the submission.
fn release(rt: &(impl Abort + AllocGlobal)) -> Operation {
    let pairs = [(HoldKind::User, job())];
    let removed = match Vec::from_slice(rt.alloc(), &pairs) {
        Ok(removed) => removed,
        Err(_) => Vec::from_slice(rt.alloc(), &pairs).expect(rt, "memory"),
    };
    Operation::OfJob(job(), JobOperation::Release { removed })
}

#[test]
fn failed_allocations_of_a_record(rt: HostRuntime) {
    let mut here = held(&rt);
    let mut there = copied(&rt, &here);
    let hold = Operation::OfJob(
        job(),
        JobOperation::Hold {
            kinds: HoldKinds::USER | HoldKinds::SYSTEM,
        },
    );
    applied(&rt, &mut here, stamp(6, 2), &release(&rt));
    applied(&rt, &mut there, stamp(6, 3), &hold);
    let mine = Version::default().with(stamp(6, 2));
    let theirs = Version::default().with(job()).with(stamp(6, 3));
    let both = joined(&rt, &here, &mine, &there, &theirs);
    let at = stamp(6, 3);
    assert!(rt;
        both.hold_tags()
            .eq([(HoldKind::User, at), (HoldKind::System, at)])
    );
}

/// The record that is made of what this one reads as is equal to it. Its readers alone show that.
fn made_again(alloc: Global, seen: &JobRecord) -> Result<JobRecord, NoMemory>
    requires { IsTrue (is_job_submitted (job_reads seen.now)) }
    ensures { IfOk result (λ made. made ≡ seen.now) }
{
    let holds: Vec<_> = seen.hold_tags().collect(alloc)?;
    let sites: Vec<_> = seen.site_tags().collect(alloc)?;
    let progress = seen.progress();
    let parts = JobParts {
        fields: Fields {
            owner: seen.owner(),
            name: seen.name(),
            priority: seen.priority(),
            nodes: seen.nodes(),
            limit: seen.limit(),
            account: seen.account(),
        },
        hold_tags: &holds,
        site_tags: &sites,
        stages: Stages {
            deleted: seen.deleted(),
            grant: seen.grant(),
            begun: progress.begun,
            finished: progress.finished,
        },
        touched: seen.touched(),
    };
    JobRecord::from_parts(alloc, &parts)
}

#[test]
fn failed_allocations_of_parts(rt: HostRuntime) {
    let seen = held(&rt);
    assert!(rt; seen.is_submitted());
    let again = match made_again(rt.alloc(), &seen) {
        Ok(made) => made,
        Err(NoMemory) => made_again(rt.alloc(), &seen).expect(&rt, "memory"),
    };
    assert!(rt; again == seen);
}

/// A hold that is set a thousand times, and released each time.
#[test]
fn released_holds_leave_no_tag_behind(rt: HostRuntime) {
    let mut record = JobRecord::bottom(rt.alloc());
    let kinds = HoldKinds::USER;
    let hold = Operation::OfJob(job(), JobOperation::Hold { kinds });
    for turn in 0..1000u64 {
        let at = stamp(2 * turn + 6, 3);
        applied(&rt, &mut record, at, &hold);
        assert!(rt; record.hold_tags().eq([(HoldKind::User, at)]));
        let removed = Vec::from_slice(rt.alloc(), &[(HoldKind::User, at)]).expect(&rt, "memory");
        let release = Operation::OfJob(job(), JobOperation::Release { removed });
        applied(&rt, &mut record, stamp(2 * turn + 7, 3), &release);
        assert!(rt; record.hold_tags().next().is_none());
    }
}
