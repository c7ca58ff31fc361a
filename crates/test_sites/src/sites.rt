//! Sites by themselves, what they hold as text, and sites that begin from that. Where memory may be refused, a call answers as with ample memory, or by want of memory; then it
//! leaves all as before, and answers as with ample memory when it is asked again. So the tests pass whichever allocation
//! fails, which `rt try --test --fail-alloc N` does for the Nth.
ghost use Rattle.std.specs.Prelude.{◌≡◌};

use fed_script::BoxedRoster;
use fed_site::{Complaint, Site};
use fed_stamp::{Roster, SiteId};
use std::process::Abort;
use test_values::two_sites;

/// The roster, in a box for which one request for memory may be refused.
fn held(rt: &(impl Abort + AllocGlobal), roster: Roster) -> BoxedRoster
    ensures { result ≡ roster }
{
    match BoxedRoster::new(rt.alloc(), roster) {
        Ok(held) => held,
        Err(_) => BoxedRoster::new(rt.alloc(), roster).expect(rt, "memory"),
    }
}

/// The site with this number of two.
fn site_of(rt: &(impl Abort + AllocGlobal), number: u8) -> Site {
    let roster = two_sites();
    let here = SiteId::new(number).expect(rt, "a site");
    assert!(rt; usize::from(here.get()) < roster.len());
    Site::new(rt.alloc(), held(rt, roster), here)
}

/// What is told of the first job.
const FIRST_JOB: &[u8] =
    b"{\"account\":\"\",\"begun\":{\"end\":3600,\"moment\":0,\"nodes\":1,\"site\":\"argonne\"},\
    \"deleted\":false,\"finished\":null,\"grant\":{\"site\":\"argonne\",\"term\":1},\"holds\":[],\
    \"id\":\"1.argonne\",\"letter\":\"R\",\"limit\":3600,\"name\":\"STDIN\",\"nodes\":1,\"owner\":\"ann\",\
    \"priority\":0,\"sites\":[\"argonne\",\"lemont\"]}\n";

/// The plan that begins a job while another is left out.
const FIRST_PLAN: &[u8] =
    b"{\"head\":null,\"starts\":[{\"account\":\"\",\"begun\":null,\"deleted\":false,\"finished\":null,\
    \"grant\":null,\"holds\":[],\"id\":\"1.argonne\",\"letter\":\"Q\",\"limit\":3600,\"name\":\"STDIN\",\
    \"nodes\":1,\"owner\":\"ann\",\"priority\":0,\"sites\":[\"argonne\",\"lemont\"]}]}\n";

/// The machine on which the first job runs beside a reservation.
const MACHINE: &[u8] =
    b"{\"free\":3,\"nodes\":8,\"reserved\":[{\"end\":60,\"id\":\"6.argonne\",\"nodes\":4,\"start\":50}],\
    \"running\":[{\"account\":\"\",\"begun\":{\"end\":3600,\"moment\":0,\"nodes\":1,\"site\":\"argonne\"},\
    \"deleted\":false,\"finished\":null,\"grant\":{\"site\":\"argonne\",\"term\":1},\"holds\":[],\
    \"id\":\"1.argonne\",\"letter\":\"R\",\"limit\":3600,\"name\":\"STDIN\",\"nodes\":1,\"owner\":\"ann\",\
    \"priority\":0,\"sites\":[\"argonne\",\"lemont\"]}]}\n";

/// Lines of a site with their answers.
const LINES: [(&[u8], &[u8]); 18] = [
    (b"ann qsub", b"1.argonne\n"),
    (b"ann qsub -h", b"2.argonne\n"),
    (b"plan-json 0 but 2", FIRST_PLAN),
    (b"ann qdel 2 9", b"done\nrefused 1\n"),
    (b"grant 1 argonne", b"granted\n"),
    (b"begin 1 0", b"done\n"),
    (b"plan 0", b""),
    (
        b"why 1 0",
        b"begun at argonne since 0 on 1 nodes until 3600\n",
    ),
    (b"machine 0", b"nodes 8, free 7\nrun 1.argonne 1 3600\n"),
    (b"reservations", b""),
    (b"jobs 1", FIRST_JOB),
    (b"seen", b"argonne 5 5\nlemont 0 0\n"),
    (
        b"seen-json",
        b"[{\"known\":5,\"site\":\"argonne\",\"told\":5},{\"known\":0,\"site\":\"lemont\",\"told\":0}]\n",
    ),
    (b"roster", b"argonne:8 lemont:4\n"),
    (b"take {}", b"unread 3 whole 0\n"),
    (b"oz/operator reserve argonne 50 60 4", b"6.argonne\n"),
    (
        b"reservations-json",
        b"[{\"end\":60,\"id\":\"6.argonne\",\"nodes\":4,\"site\":\"argonne\",\"start\":50}]\n",
    ),
    (b"machine-json 50", MACHINE),
];

#[test]
fn failed_allocations_of_a_site(rt: HostRuntime) {
    let mut site = site_of(&rt, 0);
    for (line, answer) in LINES {
        if let Ok(answered) = site.answer(rt.alloc(), line) {
            assert!(rt; answered.bytes() == answer);
            continue;
        }
        // the site is as before, and answers as with ample memory
        let answered = site.answer(rt.alloc(), line).expect(&rt, "memory");
        assert!(rt; answered.bytes() == answer);
    }
}

#[test]
fn failed_allocations_of_an_opening(rt: HostRuntime) {
    let lines: [&[u8]; 3] = [b"ann qsub", b"ann qsub -h", b"grant 1 argonne"];
    let here = SiteId::new(0).expect(&rt, "a site");
    let opened = match Site::open(rt.alloc(), held(&rt, two_sites()), here, &lines) {
        Ok(site) => site,
        Err(_) => Site::open(rt.alloc(), held(&rt, two_sites()), here, &lines).expect(
            &rt, "memory",
        ),
    };
    assert!(rt; opened.version().get(here) == 3);
}

/// What a site that holds nothing knows, as argonne.
const NOTHING: &[u8] = b"{\"format\":2,\"jobs\":[],\"need\":[0,0,0,0,0,0,0,0,0,0,0,0,0,0,0,0],\
    \"reached\":[0,0,0,0,0,0,0,0,0,0,0,0,0,0,0,0],\"reservations\":[],\"sender\":0}";

/// The same of lemont, of what needs something, and of what tells of a third site.
const OTHERS: [&[u8]; 6] = [
    b"{\"format\":2,\"jobs\":[],\"need\":[0,0,0,0,0,0,0,0,0,0,0,0,0,0,0,0],\
    \"reached\":[0,0,0,0,0,0,0,0,0,0,0,0,0,0,0,0],\"reservations\":[],\"sender\":1}",
    b"{\"format\":2,\"jobs\":[],\"need\":[1,0,0,0,0,0,0,0,0,0,0,0,0,0,0,0],\
    \"reached\":[1,0,0,0,0,0,0,0,0,0,0,0,0,0,0,0],\"reservations\":[],\"sender\":0}",
    b"{\"format\":2,\"jobs\":[],\"need\":[0,0,0,0,0,0,0,0,0,0,0,0,0,0,0,0],\
    \"reached\":[0,0,1,0,0,0,0,0,0,0,0,0,0,0,0,0],\"reservations\":[],\"sender\":0}",
    b"",
    b"nothing",
    b"{}",
];

/// A packet of lemont with a job of bob's, which argonne has not heard of.
const TOLD: &[u8] =
    b"take {\"format\":2,\"jobs\":[{\"account\":[\"\",[1,1]],\"deleted\":false,\"grant\":null,\"holds\":[],\
    \"id\":[1,1],\"limit\":[3600,[1,1]],\"name\":[\"STDIN\",[1,1]],\"nodes\":[1,[1,1]],\"owner\":[\"bob\",[1,1]],\
    \"priority\":[0,[1,1]],\"progress\":null,\"sites\":[[0,[1,1]],[1,[1,1]]],\
    \"touched\":[0,1,0,0,0,0,0,0,0,0,0,0,0,0,0,0]}],\"need\":[0,0,0,0,0,0,0,0,0,0,0,0,0,0,0,0],\
    \"reached\":[0,1,0,0,0,0,0,0,0,0,0,0,0,0,0,0],\"reservations\":[],\"sender\":1}";

/// The line that restores that argonne has heard of lemont's first operation.
const HEARD: &[u8] = b"take {\"format\":2,\"jobs\":[],\"need\":[0,1,0,0,0,0,0,0,0,0,0,0,0,0,0,0],\
    \"reached\":[0,1,0,0,0,0,0,0,0,0,0,0,0,0,0,0],\"reservations\":[],\"sender\":1}";

/// What argonne knows by a text. A refused request is made again.
fn knowing(rt: &(impl Abort + AllocGlobal), text: &[u8]) -> Option<Site> {
    let here = SiteId::new(0).expect(rt, "a site");
    match Site::knowing(rt.alloc(), held(rt, two_sites()), here, text) {
        Ok(site) => site,
        Err(_) => Site::knowing(rt.alloc(), held(rt, two_sites()), here, text).expect(rt, "memory"),
    }
}

#[test]
fn texts_that_no_site_knows_are_none(rt: HostRuntime) {
    for text in OTHERS {
        assert!(rt; knowing(&rt, text).is_none());
    }
}

/// What a site knows, as text. A refused request is made again.
fn known(rt: &(impl Abort + AllocGlobal), site: &Site) -> Vec<u8> {
    match site.known_text(rt.alloc()) {
        Ok(text) => text,
        Err(_) => site.known_text(rt.alloc()).expect(rt, "memory"),
    }
}

/// Whether the line that restores what was heard of lemont is this one. A refused request is made again.
fn is_heard(rt: &(impl Abort + AllocGlobal), site: &Site, wanted: &[u8]) -> bool {
    let from = SiteId::new(1).expect(rt, "a site");
    let line = match site.heard_line(rt.alloc(), from) {
        Ok(line) => line,
        Err(_) => site.heard_line(rt.alloc(), from).expect(rt, "memory"),
    };
    line.is_some_and(|line| line.as_slice() == wanted)
}

/// A refused request is made again.
fn answers(rt: &(impl Abort + AllocGlobal), site: &mut Site, line: &[u8], text: &[u8]) -> bool {
    match site.answer(rt.alloc(), line) {
        Ok(answered) => answered.bytes() == text,
        Err(_) => site
            .answer(rt.alloc(), line)
            .is_ok_and(|answered| answered.bytes() == text),
    }
}

// What is known tells nothing of what was heard; the line restores it.
#[test]
fn failed_allocations_of_what_is_known(rt: HostRuntime) {
    let mut argonne = site_of(&rt, 0);
    assert!(rt; known(&rt, &argonne).as_slice() == NOTHING);
    assert!(rt; answers(&rt, &mut argonne, b"ann qsub -h -A phys", b"1.argonne\n"));
    assert!(rt; answers(&rt, &mut argonne, TOLD, b"taken\n"));
    assert!(rt; is_heard(&rt, &argonne, HEARD));
    let mut again = knowing(&rt, &known(&rt, &argonne)).expect(&rt, "a site");
    assert!(rt; !again.holds_the_same(&argonne));
    assert!(rt; answers(&rt, &mut again, HEARD, b"known\n"));
    assert!(rt; again.holds_the_same(&argonne));
}

// No packet brings this complaint about: it takes over a million jobs that run.
#[test]
fn having_no_plan_has_words(rt: HostRuntime) {
    let text = Complaint::NoPlan.to_string(rt.alloc());
    let words = "no plan: what the packets say runs here fits no machine";
    assert!(rt; text.is_ok_and(|text| text.as_str() == words));
}
