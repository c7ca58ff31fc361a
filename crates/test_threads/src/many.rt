//! Many threads at once: at each of four sites four users and one taking thread. What they did is settled, and its list of
//! events run again through a world, with the same outcomes and boards.
use fed_record::{Changes, Command, HoldKinds, Priority, Refusal, Reply, Who};
use fed_stamp::{JobId, Roster, SiteId};
use fed_threads::{CallFault, Dropped, Federation, Next, OpenGate, Run, Seat};
use fed_world::{Event, Outcome, run};
use std::alloc::{AllocError, Global};
use std::process::Abort;
use std::sync::Wait;
use std::thread;
use std::thread::{JoinHandle, Threads};
use test_values::{UNCHANGED, ann, site, submission};

/// How many sites there are.
const COUNT: u8 = 4;
/// How many users each site has.
const USERS: u8 = 4;
/// How many jobs each user submits.
const JOBS: u8 = 5;

/// What the users ask.
#[derive(Clone, Copy)]
struct Questions {
    who: Who,
    submission: Command,
    changes: Changes,
}

/// What a thread has done: its seat, and whether each call was answered as it should be.
#[derive(Drop)]
struct Report {
    seat: Seat,
    is_well: bool,
}

/// The job that was submitted, if the call was answered so.
fn submitted(said: Result<Result<Reply, Refusal>, CallFault>) -> Option<JobId> {
    match said {
        Ok(said) => match said {
            Ok(reply) => match reply {
                Reply::Submitted(job) => Some(job),
                _ => None,
            },
            Err(_) => None,
        },
        Err(_) => None,
    }
}

/// Submits a job, gives it another priority and holds it. The job, where all is done.
fn one_job<R: Wait>(
    rt: &R,
    federation: &Federation<OpenGate>,
    here: SiteId,
    questions: &Questions,
    seat: &mut Seat,
) -> Option<JobId> {
    let who = &questions.who;
    let job = submitted(federation.call(rt, here, who, &questions.submission, seat))?;
    let changes = questions.changes;
    let altered = federation.call(rt, here, who, &Command::Alter { job, changes }, seat);
    let kinds = HoldKinds::USER;
    let held = federation.call(rt, here, who, &Command::Hold { job, kinds }, seat);
    let is_done = altered == Ok(Ok(Reply::Done)) && held == Ok(Ok(Reply::Done));
    is_done.then_some(job)
}

/// Submits jobs, ships to each site in turn, and looks. Whether all was answered as it should be.
fn submit_all<R: Wait>(
    rt: &R,
    federation: &Federation<OpenGate>,
    here: SiteId,
    questions: &Questions,
    seat: &mut Seat,
) -> Option<()> {
    for turn in 0..JOBS {
        let job = one_job(rt, federation, here, questions, seat)?;
        federation
            .ship(rt, here, SiteId::new(turn % COUNT)?, seat)
            .ok()?;
        let board = federation.look(rt, here, seat).ok()?;
        board.job(job)?;
    }
    Some(())
}

/// What a user does, and then an end mark to each site.
fn ask_all<R: Wait>(
    rt: &R,
    federation: &Federation<OpenGate>,
    here: SiteId,
    questions: &Questions,
) -> Report {
    let mut seat = federation.seat();
    let mut is_well = submit_all(rt, federation, here, questions, &mut seat).is_some();
    for number in 0..COUNT {
        if let Some(to) = SiteId::new(number) {
            is_well = federation.end(rt, to).is_ok() && is_well;
        }
    }
    Report { seat, is_well }
}

/// Drops every third parcel of a site and takes the others, until each user has sent an end mark.
fn take_all<R: Wait>(rt: &R, federation: &Federation<OpenGate>, here: SiteId) -> Report {
    let mut seat = federation.seat();
    let mut ended = 0u8;
    let mut turn = 0u8;
    let mut is_well = true;
    for _ in rt.forever() {
        if ended >= COUNT * USERS || !is_well {
            break;
        }
        turn = if turn >= 2 { 0 } else { turn + 1 };
        let is_end = if turn == 0 {
            federation
                .drop_next(rt, here)
                .map(|dropped| dropped == Dropped::Ended)
        } else {
            federation
                .take_next(rt, here, &mut seat)
                .map(|next| next == Next::Ended)
        };
        match is_end {
            Ok(is_end) => ended = ended.saturating_add(u8::from(is_end)),
            Err(_) => is_well = false,
        }
    }
    Report { seat, is_well }
}

/// What the user with this number does, at the sites in turn.
fn user_asks<R: Wait>(
    rt: &R,
    federation: &Federation<OpenGate>,
    number: u8,
    questions: &Questions,
) -> Report {
    match SiteId::new(number % COUNT) {
        Some(here) => ask_all(rt, federation, here, questions),
        None => idle(federation),
    }
}

/// What is taken at the site with this number.
fn site_takes<R: Wait>(rt: &R, federation: &Federation<OpenGate>, number: u8) -> Report {
    match SiteId::new(number) {
        Some(here) => take_all(rt, federation, here),
        None => idle(federation),
    }
}

/// A thread that does nothing.
fn idle(federation: &Federation<OpenGate>) -> Report {
    let seat = federation.seat();
    let is_well = false;
    Report { seat, is_well }
}

/// A thread's work: under way, or done by the thread that was to start it.
#[derive(Drop)]
enum Work {
    Started(JoinHandle<Report>),
    Done(Report),
}

impl Work {
    fn report<R: Threads>(self, rt: &R) -> Report {
        match self {
            Work::Started(thread) => thread.join(rt),
            Work::Done(report) => report,
        }
    }
}

/// The reports of all users and all taking threads.
fn run_all<R: Threads + Wait + Sync>(
    rt: &R,
    alloc: Global,
    federation: &Federation<OpenGate>,
    questions: &Questions,
) -> Result<Vec<Report>, AllocError> {
    thread::scope(
        thread::scope_env(),
        rt,
        move |scope| -> Result<Vec<Report>, AllocError> {
            let mut works = Vec::with_capacity(alloc, 20)?;
            let mut reports = Vec::with_capacity(alloc, 20)?;
            for number in 0..COUNT * USERS {
                let work = match scope.spawn(move || user_asks(rt, federation, number, questions)) {
                    Ok(thread) => Work::Started(thread),
                    Err(_) => Work::Done(user_asks(rt, federation, number, questions)),
                };
                works.push(work)?;
            }
            for number in 0..COUNT {
                let work = match scope.spawn(move || site_takes(rt, federation, number)) {
                    Ok(thread) => Work::Started(thread),
                    Err(_) => Work::Done(site_takes(rt, federation, number)),
                };
                works.push(work)?;
            }
            for work in works {
                reports.push(work.report(rt))?;
            }
            Ok(reports)
        },
    )
}

/// The site of an event.
fn site_of(event: &Event) -> SiteId {
    match event {
        Event::Do { site, .. } | Event::Ship { site, .. } | Event::Take { site, .. } => *site,
    }
}

/// Whether an entry's outcome is that of a run: of a shipment the entry has its place, and the run a number.
fn is_same(kept: Outcome, said: Outcome) -> bool {
    match (kept, said) {
        (Outcome::Packet(_), Outcome::Packet(_)) => true,
        _ => kept == said,
    }
}

/// Whether a world that runs the events comes to the same outcomes and boards.
fn runs_again(rt: &impl Abort, alloc: Global, roster: &Roster, closed: &Run) -> bool {
    let (world, outcomes) = run(alloc, roster, closed.order()).expect(rt, "a world");
    let mut next = [0usize; 16];
    for (event, said) in closed.order().iter().zip(&outcomes) {
        let here = site_of(event);
        let place = &mut next[here.get() as usize];
        let journal = closed.journal(here).expect(rt, "a journal");
        if !is_same(journal.get(*place).expect(rt, "an entry").outcome, *said) {
            return false;
        }
        *place = place.saturating_add(1);
    }
    for number in 0..COUNT {
        if closed.board(site(number)) != world.board(site(number)) {
            return false;
        }
    }
    true
}

fn all_questions(rt: &impl Abort) -> Questions {
    let mut changes = UNCHANGED;
    changes.priority = Priority::new(9);
    Questions {
        who: ann(),
        submission: submission(),
        changes,
    }
}

/// One federation, its threads, its end, and its list of events run again.
fn is_settled<R: Abort + Threads + Wait + Sync>(rt: &R, alloc: Global) -> bool {
    let questions = all_questions(rt);
    let sites = [("argonne", 8), ("lemont", 4), ("fermi", 2), ("ames", 1)];
    let roster = Roster::new(&sites).expect(rt, "a roster");
    let federation = Federation::open(alloc, &roster, OpenGate).expect(rt, "memory");
    let mut seats = Vec::new(alloc);
    for report in run_all(rt, alloc, &federation, &questions).expect(rt, "memory") {
        assert!(rt; report.is_well);
        seats.push(report.seat).expect(rt, "memory");
    }
    let closed = federation.close(seats).expect(rt, "a run");
    // three commands and a shipment for each job at least
    let least = 4 * usize::from(COUNT) * usize::from(USERS) * usize::from(JOBS);
    closed.order().len() >= least && runs_again(rt, alloc, &roster, &closed)
}

#[test]
fn many_threads_are_settled(rt: HostRuntime) {
    let alloc = rt.alloc();
    for _ in 0..10 {
        assert!(rt; is_settled(&rt, alloc));
    }
}
