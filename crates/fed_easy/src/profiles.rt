//! The use of a machine as a step function.
ghost use Rattle.std.specs.Prelude.{◌≡◌, ◌↔◌, ℕ, ◌+◌, ◌≤◌, ◌<◌, ◌^◌, true, map, min, suc, if◌then◌else◌, IsTrue, OnOk};
ghost use Rattle.fed_easy.specs.Profile.{IsAfter, IsProfile, is_step, level_at, nodes_in, raised};
ghost use Rattle.fed_easy.specs.Use.{is_during, HasRoom, IsLeastRoom};

use fed_lattice::NoMemory;
use std::alloc::Global;

/// From this second on, until that of the next step, so many nodes are in use.
#[derive(Clone, Copy)]
pub(crate) struct Step {
    /// The second at which it begins.
    pub(crate) from: u64,
    /// The nodes in use from then on.
    pub(crate) nodes: u64,
}

/// The use of a machine from a second on, as steps in ascending order. What is in use beyond the machine's nodes
/// counts as one node beyond them.
#[derive(Drop)]
pub(crate) struct Profile {
    /// The machine's nodes.
    pub(crate) capacity: u64,
    /// The second from which on the use is told.
    pub(crate) start: u64,
    /// The nodes in use from then until the first step.
    pub(crate) nodes: u64,
    /// The steps behind the start, the earlier first.
    pub(crate) steps: Vec<Step>,
}

// Makes the second the second of a step, with the nodes in use as before.
fn split(steps: &mut Vec<Step>, nodes: u64, second: u64) -> Result<(), NoMemory>
    ensures same { OnOk result ((u : ℕ) → level_at nodes steps.new.items u ≡ level_at nodes steps.old.items u) }
    ensures after { OnOk result ((t : ℕ) → t < second → IsAfter t steps.old.items → IsAfter t steps.new.items) }
    ensures step { OnOk result (is_step second steps.new.items ≡ true) }
    ensures kept { OnOk result ((t : ℕ) → is_step t steps.old.items ≡ true → is_step t steps.new.items ≡ true) }
{
    let mut level = nodes;
    let mut count = 0;
    for step in &*steps {
        if step.from == second {
            return Ok(());
        }
        if second < step.from {
            break;
        }
        level = step.nodes;
        count += 1;
    }
    steps.insert(
        count,
        Step {
            from: second,
            nodes: level,
        },
    )?;
    Ok(())
}

// Makes the two seconds those of steps, the former unless it is the start.
fn split_both(
    steps: &mut Vec<Step>,
    start: u64,
    nodes: u64,
    from: u64,
    until: u64,
) -> Result<(), NoMemory>
    requires lasts { from < until }
    requires begins { start ≤ from }
    requires after { IsAfter start steps.old.items }
    ensures same { OnOk result ((u : ℕ) → level_at nodes steps.new.items u ≡ level_at nodes steps.old.items u) }
    ensures after { OnOk result (IsAfter start steps.new.items) }
    ensures from { OnOk result (start < from → is_step from steps.new.items ≡ true) }
    ensures until { OnOk result (is_step until steps.new.items ≡ true) }
{
    if start < from {
        split(steps, nodes, from)?;
    }
    split(steps, nodes, until)
}

// So many nodes more, where what is beyond the capacity counts as one node beyond it.
fn counted(nodes: u64, more: u64, capacity: u64) -> u64
    requires { capacity < 2 ^ 63 }
    ensures { result ≡ min (nodes + more) (suc capacity) }
{
    nodes.saturating_add(more).min(capacity + 1)
}

// The step with so many nodes more, if it stands from the one second on and before the other.
fn raised_step(step: Step, from: u64, until: u64, nodes: u64, capacity: u64) -> Step
    requires { capacity < 2 ^ 63 }
    ensures { result ≡ raised capacity from until nodes step }
{
    if from <= step.from && step.from < until {
        Step {
            from: step.from,
            nodes: counted(step.nodes, nodes, capacity),
        }
    } else {
        step
    }
}

// Adds the nodes to each step from the one second on and before the other. It looks at the steps before the latter
// alone.
fn raise(steps: &mut Vec<Step>, from: u64, until: u64, nodes: u64, capacity: u64)
    requires capacity { capacity < 2 ^ 63 }
    requires after { (t : ℕ) × IsAfter t steps.old.items }
    ensures { steps.new.items ≡ map (raised capacity from until nodes) steps.old.items }
{
    for i in 0..steps.len() {
        let step = steps[i];
        if until <= step.from {
            break;
        }
        steps[i] = raised_step(step, from, until, nodes, capacity);
    }
}

impl Profile {
    /// Whether so many nodes more have room from the start on for so many seconds. It looks at the steps in that time
    /// alone.
    pub(crate) fn fits(&self, nodes: u64, limit: u64) -> bool
        requires profile { IsProfile self.now }
        requires narrow { nodes ≤ self.now.capacity }
        requires long { 0 < limit }
        requires end { self.now.start + limit < 2 ^ 64 }
        ensures { IsTrue result ↔ HasRoom self.now.capacity (nodes_in self.now) nodes self.now.start (self.now.start + limit) }
    {
        let most = self.capacity - nodes;
        let until = self.start + limit;
        if most < self.nodes {
            return false;
        }
        for step in &self.steps {
            if until <= step.from {
                return true;
            }
            if most < step.nodes {
                return false;
            }
        }
        true
    }

    /// The least second, from the start on, at which so many nodes more have room for so many seconds. It looks at each
    /// step once.
    pub(crate) fn shadow(&self, nodes: u64, limit: u64) -> u64
        requires profile { IsProfile self.now }
        requires narrow { nodes ≤ self.now.capacity }
        requires long { 0 < limit }
        ensures { IsLeastRoom self.now.capacity (nodes_in self.now) nodes limit self.now.start result }
    {
        let most = self.capacity - nodes;
        let mut candidate = self.start;
        let mut has_room = self.nodes <= most;
        for step in &self.steps {
            if !has_room {
                candidate = step.from;
            } else if limit <= step.from - candidate {
                return candidate;
            }
            has_room = step.nodes <= most;
        }
        candidate
    }

    /// Adds nodes that are in use from the one second, not before the start, until before the other. At most two steps
    /// are added.
    pub(crate) fn add(&mut self, from: u64, until: u64, nodes: u64) -> Result<(), NoMemory>
        requires profile { IsProfile self.old }
        requires begins { self.old.start ≤ from }
        requires lasts { from < until }
        ensures profile { OnOk result (IsProfile self.new) }
        ensures nodes { OnOk result ((u : ℕ) → self.old.start ≤ u → nodes_in self.new u ≡ (if is_during from until u
            then min (nodes_in self.old u + nodes) (suc self.old.capacity) else nodes_in self.old u)) }
        ensures start { OnOk result (self.new.start ≡ self.old.start) }
        ensures capacity { OnOk result (self.new.capacity ≡ self.old.capacity) }
    {
        split_both(&mut self.steps, self.start, self.nodes, from, until)?;
        let first = Step {
            from: self.start,
            nodes: self.nodes,
        };
        raise(&mut self.steps, from, until, nodes, self.capacity);
        self.nodes = raised_step(first, from, until, nodes, self.capacity).nodes;
        Ok(())
    }
}
