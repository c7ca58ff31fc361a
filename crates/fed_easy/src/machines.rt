//! The machine of a site.
ghost use Rattle.std.specs.Prelude.{◌≡◌, ◌++◌, ◌∷◌, [], None, Err, List, length, IfOk, IfSome};
ghost use Rattle.fed_stamp.specs.Indexes.{least_index};
ghost use Rattle.fed_stamp.specs.Roster.{ok_unless};
ghost use Rattle.fed_record.specs.JobRecord.{job_reads};
ghost use Rattle.fed_board.specs.Board.{board_reads};
ghost use Rattle.fed_easy.specs.declared.machines.Running.{Running};
ghost use Rattle.fed_easy.specs.Machine.{IsEither, MachineValue, first_fault as fault_of, is_bad, is_entry as may_be_entry, number_of, running_in, running_of};

use fed_board::Board;
use fed_lattice::NoMemory;
use fed_record::{JobRecord, MAX_END};
use fed_stamp::{MAX_NODES, SiteId};
use std::alloc::Global;
use std::marker::Model;
use thiserror::Error;

/// How many entries a machine has at most.
pub const MAX_RUNNING: usize = 1_000_000;

/// Nodes that are in use until before a second, and for one second at least.
#[derive(Clone, Copy, PartialEq, Eq, Debug)]
pub struct Running {
    /// How many nodes.
    pub nodes: u64,
    /// The second at which they are free.
    pub end: u64,
}

/// What is wrong with a machine. An index is that of the entry in the list, from 0.
#[derive(Clone, Copy, PartialEq, Eq, Debug, Drop, Error)]
pub enum MachineFault {
    /// The machine's nodes are not from 1 to `MAX_NODES`.
    #[error("a machine has 1 to 1000000 nodes")]
    Nodes,
    /// There are more than `MAX_RUNNING` entries.
    #[error("a machine has at most 1000000 running entries")]
    TooMany,
    /// The nodes of an entry are not from 1 to `MAX_NODES`, or its end is above `MAX_END`.
    #[error("the nodes of entry {index} are not from 1 to 1000000, or its end is above 1000010000000")]
    Entry { index: usize },
    /// An allocation failed.
    #[error("out of memory")]
    NoMemory,
}

impl MachineFault {
    /// The number of the fault: 1 for `Nodes`, 2 for `TooMany`, 3 for `Entry` and 4 for `NoMemory`.
    pub fn number(self) -> u8
        ensures { result ≡ number_of self }
    {
        match self {
            MachineFault::Nodes => 1,
            MachineFault::TooMany => 2,
            MachineFault::Entry { .. } => 3,
            MachineFault::NoMemory => 4,
        }
    }
}

/// A site's nodes, and what runs on them.
#[derive(Drop, Debug)]
pub struct Machine {
    nodes: u64,
    running: Vec<Running>,
}

impl Model for Machine {
    ghost use Rattle.std.specs.Prelude.{◌≡◌, None};
    ghost use Rattle.fed_easy.specs.Machine.{MachineValue, first_fault};

    ghost Value = { MachineValue };

    ghost view = { λ m. record { nodes = m.nodes; running = m.running.items } };

    ghost invariant = { λ m. first_fault m.nodes m.running.items ≡ None };
}

// Whether a machine may have the entry.
fn is_entry(entry: Running) -> bool
    ensures { result ≡ may_be_entry entry }
{
    1 <= entry.nodes && entry.nodes <= MAX_NODES && entry.end <= MAX_END
}

// The least index of an entry that no machine may have.
fn first_bad(running: &[Running]) -> Option<usize>
    ensures { result ≡ least_index (is_bad running.now) (length running.now) }
{
    for i in 0..running.len() {
        if !is_entry(running[i]) {
            return Some(i);
        }
    }
    None
}

// The first fault of a machine's parts.
fn first_fault(nodes: u64, running: &[Running]) -> Option<MachineFault>
    ensures { result ≡ fault_of nodes running.now }
{
    if nodes < 1 || nodes > MAX_NODES {
        return Some(MachineFault::Nodes);
    }
    if running.len() > MAX_RUNNING {
        return Some(MachineFault::TooMany);
    }
    match first_bad(running) {
        Some(index) => Some(MachineFault::Entry { index }),
        None => None,
    }
}

/// The entry of the job, if the site has begun it and it is not finished.
pub fn running_job(job: &JobRecord, site: SiteId) -> Option<Running>
    ensures { result ≡ running_of site (job_reads job.now) }
{
    let progress = job.progress();
    if progress.finished.is_some() {
        return None;
    }
    match progress.begun {
        Some((stamp, beginning)) => {
            if stamp.site() == site {
                Some(Running {
                    nodes: beginning.nodes.get(),
                    end: beginning.end,
                })
            } else {
                None
            }
        }
        None => None,
    }
}

// The entries of the jobs that the site has begun and that are not finished, in the order of their stamps.
fn running_jobs(alloc: Global, board: &Board, site: SiteId) -> Result<Vec<Running>, NoMemory>
    ensures { IfOk result (λ entries. entries.items ≡ running_in site (board_reads board.now)) }
{
    let mut entries = Vec::new(alloc);
    for (_, job) in board.jobs() {
        if let Some(entry) = running_job(job, site) {
            entries.push(entry)?;
        }
    }
    Ok(entries)
}

// The index of the first entry that no machine may have, once one more stands at this index, behind the others.
fn bad_with(bad: Option<usize>, index: usize, entry: Running) -> Option<usize>
    ensures { (running : List Running) → index ≡ length running →
        bad ≡ least_index (is_bad running) (length running) →
        result ≡ least_index (is_bad (running ++ entry ∷ [])) (length (running ++ entry ∷ [])) }
{
    match bad {
        Some(first) => Some(first),
        None => { if is_entry(entry) { None } else { Some(index) } }
    }
}

// The first fault of the machine of a site's jobs. It takes no memory.
fn first_fault_on(board: &Board, site: SiteId, nodes: u64) -> Option<MachineFault>
    ensures { result ≡ fault_of nodes (running_in site (board_reads board.now)) }
{
    if nodes < 1 || nodes > MAX_NODES {
        return Some(MachineFault::Nodes);
    }
    let mut count = 0usize;
    let mut bad = None;
    for (_, job) in board.jobs() {
        let Some(entry) = running_job(job, site) else {
            continue;
        };
        if count == MAX_RUNNING {
            return Some(MachineFault::TooMany);
        }
        bad = bad_with(bad, count, entry);
        count += 1;
    }
    match bad {
        Some(index) => Some(MachineFault::Entry { index }),
        None => None,
    }
}

impl Machine {
    /// The machine of so many nodes, from 1 to `MAX_NODES`, with these entries, at most `MAX_RUNNING`, each of 1 to
    /// `MAX_NODES` nodes and with an end of at most `MAX_END`. Where something is wrong, the fault of the least number is
    /// answered, and of it the one of the least index.
    pub fn new(nodes: u64, running: Vec<Running>) -> Result<Machine, MachineFault>
        ensures { result ≡ ok_unless (fault_of nodes running.items) (record { nodes = nodes; running = running.items }) }
    {
        match first_fault(nodes, &running) {
            Some(fault) => Err(fault),
            None => Ok(Machine { nodes, running }),
        }
    }

    /// How many nodes it has, from 1 to `MAX_NODES`.
    pub fn nodes(&self) -> u64
        ensures same { result ≡ self.now.nodes }
        ensures known { fault_of self.now.nodes self.now.running ≡ None }
    {
        self.nodes
    }

    /// What runs on it.
    pub fn running(&self) -> &[Running]
        ensures { result.now ≡ self.now.running }
    {
        &self.running
    }
}

/// The machine of so many nodes with an entry for each job that the site has begun and that is not finished, in the
/// order of their stamps. It is refused as `Machine::new` refuses it, also where an allocation fails; `NoMemory` is
/// answered where nothing else is wrong.
pub fn machine_of(
    alloc: Global,
    board: &Board,
    site: SiteId,
    nodes: u64,
) -> Result<Machine, MachineFault>
    ensures machine { let entries = running_in site (board_reads board.now) in
        IsEither result MachineFault.NoMemory
        (ok_unless (fault_of nodes entries) (record { nodes = nodes; running = entries })) }
    ensures fault { IfSome (fault_of nodes (running_in site (board_reads board.now))) (λ fault. result ≡ Err fault) }
{
    match running_jobs(alloc, board, site) {
        Ok(entries) => Machine::new(nodes, entries),
        Err(_) => match first_fault_on(board, site, nodes) {
            Some(fault) => Err(fault),
            None => Err(MachineFault::NoMemory),
        },
    }
}
