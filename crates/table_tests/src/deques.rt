//! Deques of nodes: the owner pops, and a thief steals.

ghost use Rattle.std.specs.Prelude.{◌≡◌, ◌≤◌, ◌<◌, All};

use node_deques::{DequeNode, NodeDeque, Steal, Thief};
use precedence_tree::Node;
use std::alloc::Global;
use std::test::Fail;
use std::thread::{Threads, join_mut};
use worked_projects::{TWINS, build};

/// How many nodes an owner pushes in the test with two threads.
const PUSHES: u32 = 3000;

/// How often the owner and the thief try to take one there.
const TRIES: u32 = 1000;

/// Pushes the root, which is a node of every project, with this place. Whether it was accepted.
fn push_root(deque: &mut NodeDeque, place: u32) -> bool
    requires place { place < PUSHES }
    requires terms { All (λ t. (t.from ≤ 0) × (PUSHES ≤ t.to)) deque.old.view.terms }
    ensures deque { deque.new.deque ≡ deque.old.deque }
    ensures terms { deque.new.view.terms ≡ deque.old.view.terms }
    ensures passes { deque.new.view.passes ≡ deque.old.view.passes }
    ensures split_off { deque.new.view.split_off ≡ deque.old.view.split_off }
{
    deque.push(place, Node::root()).is_ok()
}

/// Whether a node was popped.
fn pop_one(deque: &mut NodeDeque) -> bool
    ensures deque { deque.new.deque ≡ deque.old.deque }
    ensures passes { deque.new.view.passes ≡ deque.old.view.passes }
    ensures split_off { deque.new.view.split_off ≡ deque.old.view.split_off }
{
    deque.pop().is_some()
}

/// The place of a node; none where there is none.
fn place_of(node: Option<DequeNode>) -> Option<u32> {
    match node {
        Some(node) => Some(node.place),
        None => None,
    }
}

/// How many nodes there are, and the numbers of the first and the last.
fn numbers_of(nodes: &[DequeNode]) -> (usize, Option<u32>, Option<u32>) {
    match nodes {
        [first, .., last] => (nodes.len(), Some(first.number), Some(last.number)),
        _ => (nodes.len(), None, None),
    }
}

/// The place of a node that was stolen; none where there was none.
fn stolen_place(stolen: Steal<DequeNode>) -> Option<u32> {
    match stolen {
        Steal::Success(node) => Some(node.place),
        Steal::Empty | Steal::Retry => None,
    }
}

/// Pushes the root so many times, with the places from 0 on. How many were accepted.
fn push_some(deque: &mut NodeDeque, pushes: u32) -> u64
    requires few { pushes ≤ PUSHES }
    requires terms { All (λ t. (t.from ≤ 0) × (PUSHES ≤ t.to)) deque.old.view.terms }
    ensures deque { deque.new.deque ≡ deque.old.deque }
    ensures passes { deque.new.view.passes ≡ deque.old.view.passes }
    ensures split_off { deque.new.view.split_off ≡ deque.old.view.split_off }
{
    let mut accepted: u64 = 0;
    for place in 0..pushes {
        if push_root(deque, place) {
            accepted = accepted.saturating_add(1);
        }
    }
    accepted
}

/// The places of the node that the owner pops and of the one that the thief steals then.
fn last_and_first(deque: &mut NodeDeque, thief: &mut Thief) -> (Option<u32>, Option<u32>)
    ensures deque { deque.new.deque ≡ deque.old.deque }
    ensures terms { deque.new.view.terms ≡ deque.old.view.terms }
    ensures passes { deque.new.view.passes ≡ deque.old.view.passes }
    ensures split_off { deque.new.view.split_off ≡ deque.old.view.split_off }
    ensures thief_deque { thief.new.deque ≡ thief.old.deque }
    ensures thief_passes { thief.new.view.passes ≡ thief.old.view.passes }
{
    let last = place_of(deque.pop());
    let first = stolen_place(thief.steal());
    (last, first)
}

#[test]
fn the_owner_takes_the_last_and_a_thief_the_first(rt: HostRuntime) -> Result<(), Fail> {
    let project = build(rt.alloc(), &TWINS)?;
    let mut deque = NodeDeque::new(rt.alloc(), &project, 0, PUSHES)?;
    let mut thief = deque.thief()?;
    assert_eq!(rt; last_and_first(&mut deque, &mut thief), (None, None));
    assert_eq!(rt; push_some(&mut deque, 4), 4);
    assert_eq!(rt; last_and_first(&mut deque, &mut thief), (Some(3), Some(0)));
    deque.join(thief);
    let left = deque.into_left(rt.alloc())?;
    assert_eq!(rt; numbers_of(left.as_slice()), (2, Some(2), Some(1)));
    Ok(())
}

/// Pops nodes. How many it took.
fn pop_some(deque: &mut NodeDeque) -> u64
    ensures deque { deque.new.deque ≡ deque.old.deque }
    ensures passes { deque.new.view.passes ≡ deque.old.view.passes }
    ensures split_off { deque.new.view.split_off ≡ deque.old.view.split_off }
{
    let mut popped: u64 = 0;
    for _ in 0..TRIES {
        if pop_one(deque) {
            popped = popped.saturating_add(1);
        }
    }
    popped
}

/// Pushes nodes and pops some. How many were accepted, and how many it took.
fn push_and_pop(deque: &mut NodeDeque) -> (u64, u64)
    requires { All (λ t. (t.from ≤ 0) × (PUSHES ≤ t.to)) deque.old.view.terms }
    ensures deque { deque.new.deque ≡ deque.old.deque }
    ensures passes { deque.new.view.passes ≡ deque.old.view.passes }
    ensures split_off { deque.new.view.split_off ≡ deque.old.view.split_off }
{
    let accepted = push_some(deque, PUSHES);
    let popped = pop_some(deque);
    (accepted, popped)
}

/// Tries to take nodes. How many it took.
fn steal_some(thief: &mut Thief) -> u64
    ensures deque { thief.new.deque ≡ thief.old.deque }
    ensures passes { thief.new.view.passes ≡ thief.old.view.passes }
{
    let mut stolen: u64 = 0;
    for _ in 0..TRIES {
        if stolen_place(thief.steal()).is_some() {
            stolen = stolen.saturating_add(1);
        }
    }
    stolen
}

/// The owner and a thief, each in a thread of its own.
fn work_both<R: Threads + Sync>(
    rt: &R,
    deque: &mut NodeDeque,
    thief: &mut Thief,
) -> ((u64, u64), u64)
    requires { All (λ t. (t.from ≤ 0) × (PUSHES ≤ t.to)) deque.old.view.terms }
    ensures deque { deque.new.deque ≡ deque.old.deque }
    ensures passes { deque.new.view.passes ≡ deque.old.view.passes }
    ensures split_off { deque.new.view.split_off ≡ deque.old.view.split_off }
    ensures thief_deque { thief.new.deque ≡ thief.old.deque }
    ensures thief_passes { thief.new.view.passes ≡ thief.old.view.passes }
{
    join_mut(rt, &mut || push_and_pop(deque), &mut || steal_some(thief))
}

#[test]
fn each_node_is_popped_stolen_or_left(rt: HostRuntime) -> Result<(), Fail> {
    let project = build(rt.alloc(), &TWINS)?;
    let mut deque = NodeDeque::new(rt.alloc(), &project, 0, PUSHES)?;
    let mut thief = deque.thief()?;
    let ((accepted, popped), stolen) = work_both(&rt, &mut deque, &mut thief);
    deque.join(thief);
    let left = deque.into_left(rt.alloc())?;
    assert_eq!(rt; accepted, u64::from(PUSHES));
    let taken = popped.saturating_add(stolen);
    assert_eq!(rt; taken.saturating_add(left.len() as u64), accepted);
    Ok(())
}

/// That the value may go to another thread.
fn is_sent<T: Send>(_value: &T) {}

#[test]
fn both_handles_cross_threads(rt: HostRuntime) -> Result<(), Fail> {
    let project = build(rt.alloc(), &TWINS)?;
    let mut deque = NodeDeque::new(rt.alloc(), &project, 0, 1)?;
    is_sent(&deque.thief()?);
    is_sent(&deque);
    Ok(())
}
