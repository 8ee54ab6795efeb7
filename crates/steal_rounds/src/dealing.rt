// Dealing out the nodes of a frontier.
ghost use Rattle.std.specs.Prelude.{◌≡◌, ◌<◌, ℕ, vec_len, length, All, Contains, IfOk, OnOk};
ghost use Rattle.search_log.specs.Weights.{total};
ghost use Rattle.steal_rounds.specs.Dealt.{all_dealt, Adds, AreDealt};

use sched_base::{List, NoMemory};
use search_rounds::WaitingNode;
use std::alloc::Global;
use std::collections::VecDeque;

// As many empty lists as there are workers.
fn empty_lists(alloc: Global, count: usize) -> Result<Vec<Vec<WaitingNode>>, NoMemory>
    ensures len { IfOk result (λ lists. vec_len lists ≡ count) }
    ensures none { IfOk result (λ lists. length (all_dealt lists.items) ≡ 0) }
{
    let mut lists = Vec::with_capacity(alloc, count)?;
    for _ in 0..count {
        lists.push(Vec::new(alloc))?;
    }
    Ok(lists)
}

// Puts a node behind those of a list.
fn add(lists: &mut Vec<Vec<WaitingNode>>, turn: usize, node: WaitingNode) -> Result<(), NoMemory>
    requires { turn < vec_len lists.old }
    ensures len { vec_len lists.new ≡ vec_len lists.old }
    ensures adds { OnOk result (Adds node (all_dealt lists.old.items) (all_dealt lists.new.items)) }
{
    lists[turn].push(node)?;
    Ok(())
}

// Whose turn is next.
fn next_turn(turn: usize, count: usize) -> usize
    requires { turn < count }
    ensures { result < count }
{
    if turn + 1 < count { turn + 1 } else { 0 }
}

/// Deals nodes in turn, the first list first. Each list has them in their order.
pub(crate) fn deal(
    alloc: Global,
    frontier: List<WaitingNode>,
    count: usize,
) -> Result<Vec<Vec<WaitingNode>>, NoMemory>
    requires { 0 < count }
    ensures len { IfOk result (λ lists. vec_len lists ≡ count) }
    ensures dealt { IfOk result (λ lists. AreDealt frontier (all_dealt lists.items)) }
{
    let mut lists = empty_lists(alloc, count)?;
    let mut rest = VecDeque::from(frontier.into_vec());
    let mut turn = 0;
    while let Some(node) = rest.pop_front() {
        add(&mut lists, turn, node)?;
        turn = next_turn(turn, count);
    }
    Ok(lists)
}
