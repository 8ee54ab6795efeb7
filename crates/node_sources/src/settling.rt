// The sources of a round once its workers have ended.
ghost use Rattle.std.specs.Prelude.{◌≡◌, ◌+◌, ◌-◌, ◌≤◌, [], ◌∷◌, ◌++◌, ℕ, length, map, All, IfOk, OnOk, slice_index_or};
ghost use Rattle.search_log.specs.Weights.{total, Each};
ghost use Rattle.node_deques.specs.Steps.{HasAllPasses};
ghost use Rattle.node_sources.specs.Source.{waiting};
ghost use Rattle.node_sources.specs.Seats.{handle_of, right_of, AreSeated};
ghost use Rattle.node_sources.specs.Settled.{IsSettled};
ghost use Rattle.node_sources.specs.Joins.{LeadsInto, IsJoined, AreServed, AreJoined, IsApart, IsLeftOf};

use crate::reach::{Reach, of_deque};
use crate::source::NodeSource;
use node_deques::{DequeNode, NodeDeque};
use sched_base::{List, NoMemory};
use search_rounds::WaitingNode;
use std::alloc::Global;
use std::collections::VecDeque;

/// What the sources of a round have once its workers have ended.
#[derive(Drop)]
pub struct Settled {
    /// The nodes that each worker has by itself, the first worker first.
    pub lists: Vec<List<WaitingNode>>,
    /// The nodes that nobody took out of a deque.
    pub rest: List<WaitingNode>,
}

// The parts of sources.
#[derive(Drop)]
struct Apart {
    deques: Vec<NodeDeque>,
    lists: Vec<List<WaitingNode>>,
    reaches: Vec<Reach>,
}

// Takes sources apart.
fn take_apart(alloc: Global, sources: Vec<NodeSource>) -> Result<Apart, NoMemory>
    ensures { IfOk result (IsApart sources.items) }
{
    let mut apart = Apart {
        deques: Vec::new(alloc),
        lists: Vec::new(alloc),
        reaches: Vec::new(alloc),
    };
    let mut rest = VecDeque::from(sources);
    while let Some(source) = rest.pop_front() {
        add_parts(&mut apart, source)?;
    }
    Ok(apart)
}

// Adds the parts of one source behind the others.
fn add_parts(apart: &mut Apart, source: NodeSource) -> Result<(), NoMemory>
    ensures deques { OnOk result (apart.new.deques.items ≡ apart.old.deques.items ++ source.deque ∷ []) }
    ensures lists { OnOk result (apart.new.lists.items ≡ apart.old.lists.items ++ source.list ∷ []) }
    ensures reaches { OnOk result (apart.new.reaches.items ≡ apart.old.reaches.items ++ source.reaches) }
{
    let NodeSource {
        number: _,
        deque,
        list,
        mut reaches,
    } = source;
    apart.deques.push(deque)?;
    apart.lists.push(List::from_vec(Vec::from(list)))?;
    apart.reaches.append(&mut reaches)?;
    Ok(())
}

// Joins what one reach took into its owner's deque.
fn join(deques: &mut [NodeDeque], reach: Reach)
    requires low { 1 ≤ reach.owner }
    requires high { reach.owner ≤ length deques.old }
    requires deque { LeadsInto deques.old reach }
    ensures { IsJoined reach deques.old deques.new }
{
    let Reach { owner, thief } = reach;
    deques[owner as usize - 1].join(thief);
}

// Joins what all reaches took into their owners' deques.
fn join_all(deques: &mut [NodeDeque], reaches: Vec<Reach>)
    requires { AreServed reaches.items deques.old }
    ensures { AreJoined reaches.items deques.old deques.new }
{
    let mut rest = VecDeque::from(reaches);
    while let Some(reach) = rest.pop_front() {
        join(deques, reach);
    }
}

// Adds nodes of a deque behind others.
fn add_left(rest: &mut Vec<WaitingNode>, left: Vec<DequeNode>) -> Result<(), NoMemory>
    ensures { OnOk result (rest.new.items ≡ rest.old.items ++ map waiting left.items) }
{
    let mut left = VecDeque::from(left);
    while let Some(node) = left.pop_front() {
        rest.push(of_deque(node))?;
    }
    Ok(())
}

// The nodes that nobody took.
fn empty_all(alloc: Global, deques: Vec<NodeDeque>) -> Result<Vec<WaitingNode>, NoMemory>
    requires { Each (λ d. HasAllPasses d.view) deques.items }
    ensures { IfOk result (λ rest. IsLeftOf deques.items rest.items) }
{
    let mut rest = Vec::new(alloc);
    let mut deques = VecDeque::from(deques);
    while let Some(deque) = deques.pop_front() {
        let left = deque.into_left(alloc)?;
        add_left(&mut rest, left)?;
    }
    Ok(rest)
}

/// Empties the sources of a round after its workers have ended. Only want of memory is an error.
pub fn settle(alloc: Global, sources: Vec<NodeSource>) -> Result<Settled, NoMemory>
    requires { AreSeated sources.items }
    ensures { IfOk result (IsSettled sources.items) }
{
    let Apart {
        mut deques,
        lists,
        reaches,
    } = take_apart(alloc, sources)?;
    join_all(&mut deques, reaches);
    let rest = empty_all(alloc, deques)?;
    Ok(Settled {
        lists,
        rest: List::from_vec(rest),
    })
}
