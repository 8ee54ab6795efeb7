// The sources of the workers of a round, before they begin.
ghost use Rattle.std.specs.Prelude.{◌≡◌, ◌≢◌, ◌⊎◌, ◌+◌, ◌≤◌, ◌<◌, [], ◌∷◌, length, vec_len, All, IfOk, OnOk, slice_index_or};
ghost use Rattle.rcpsp_model.specs.Project.{numbers_from};
ghost use Rattle.precedence_tree.specs.Node.{StandsFor};
ghost use Rattle.search_log.specs.Weights.{Each};
ghost use Rattle.node_sources.specs.Settled.{AreNew};
ghost use Rattle.node_sources.specs.Seating.{others_behind, ReachesOthers, IsLone, SplitsOff, with_reach, KeepsNew, numbers_of, ReachesMore};

use crate::reach::Reach;
use crate::source::NodeSource;
use node_deques::NodeDeque;
use project_net::Project;
use sched_base::NoMemory;
use search_rounds::WaitingNode;
use std::alloc::Global;
use std::collections::VecDeque;

/// How many places each worker has for the new rows of a round; before those of the first worker there are as many for the rows
/// of the table on which the round began.
pub const ROOM: u32 = 67_108_864;

// A source without reaches.
fn lone_source(
    alloc: Global,
    project: &Project,
    number: u32,
    dealt: Vec<WaitingNode>,
) -> Result<NodeSource, NoMemory>
    requires number { number ≤ 32 }
    requires nodes { All (λ w. StandsFor project.now w.node) dealt.items }
    ensures { IfOk result (IsLone project.now number dealt) }
{
    let deque = NodeDeque::new(alloc, project, number * ROOM, (number + 1) * ROOM)?;
    Ok(NodeSource {
        number,
        deque,
        list: VecDeque::from(dealt),
        reaches: Vec::new(alloc),
    })
}

// The sources without reaches.
fn lone_sources(
    alloc: Global,
    project: &Project,
    dealt: Vec<Vec<WaitingNode>>,
) -> Result<Vec<NodeSource>, NoMemory>
    requires few { vec_len dealt ≤ 32 }
    requires nodes { Each (λ list. All (λ w. StandsFor project.now w.node) list.items) dealt.items }
    ensures len { IfOk result (λ sources. vec_len sources ≡ vec_len dealt) }
    ensures new { IfOk result (λ sources. AreNew project.now dealt.items sources.items) }
    ensures alone { IfOk result (λ sources. Each (λ s. s.reaches ≡ []) sources.items) }
{
    let mut sources = Vec::with_capacity(alloc, dealt.len())?;
    let mut dealt = VecDeque::from(dealt);
    while let Some(nodes) = dealt.pop_front() {
        let number = sources.len() as u32 + 1;
        let source = lone_source(alloc, project, number, nodes)?;
        sources.push(source)?;
    }
    Ok(sources)
}

// A reach into the deque of a source.
fn reach_into(source: &mut NodeSource) -> Result<Reach, NoMemory>
    ensures { IfOk result (λ reach. SplitsOff source.old reach source.new) }
{
    let thief = source.deque.thief()?;
    Ok(Reach {
        owner: source.number,
        thief,
    })
}

// Gives a source a reach, behind those that it has.
fn hold(source: &mut NodeSource, reach: Reach) -> Result<(), NoMemory>
    ensures { OnOk result (source.new ≡ with_reach reach source.old) }
{
    source.reaches.push(reach)?;
    Ok(())
}

// Gives one source a reach into the deque of another.
fn add_reach(sources: &mut [NodeSource], index: usize, other: usize) -> Result<(), NoMemory>
    requires index { index < length sources.old }
    requires other { other < length sources.old }
    requires apart { other ≢ index }
    ensures len { length sources.new ≡ length sources.old }
    ensures new { OnOk result (KeepsNew sources.old sources.new) }
    ensures more { OnOk result (ReachesMore index (slice_index_or (numbers_of sources.old) other 0 ∷ []) sources.old sources.new) }
{
    let reach = reach_into(&mut sources[other])?;
    hold(&mut sources[index], reach)?;
    Ok(())
}

// The number, from 0, of the source that comes so many steps behind one, where the first comes behind the last.
fn behind(index: usize, steps: usize, count: usize) -> usize
    requires index { index < count }
    requires some { 0 < steps }
    requires steps { steps < count }
    requires few { count ≤ 32 }
    ensures within { result < count }
    ensures other { result ≢ index }
    ensures place { (result ≡ index + steps) ⊎ (result + count ≡ index + steps) }
{
    let place = index + steps;
    if place < count { place } else { place - count }
}

// Gives one source its reaches into the deques of the others, that of the next one first.
fn add_reaches(sources: &mut [NodeSource], index: usize) -> Result<(), NoMemory>
    requires few { length sources.old ≤ 32 }
    requires index { index < length sources.old }
    requires numbers { numbers_of sources.old ≡ numbers_from 1 (length sources.old) }
    ensures len { length sources.new ≡ length sources.old }
    ensures new { OnOk result (KeepsNew sources.old sources.new) }
    ensures more { OnOk result (ReachesMore index (others_behind (index + 1) (length sources.old)) sources.old sources.new) }
{
    let count = sources.len();
    for steps in 1..count {
        add_reach(sources, index, behind(index, steps, count))?;
    }
    Ok(())
}

/// A source for each list of nodes, of the workers from 1 on, which reaches into the deque of each other worker, that of the
/// next one first. Only want of memory is an error.
pub fn seat(
    alloc: Global,
    project: &Project,
    dealt: Vec<Vec<WaitingNode>>,
) -> Result<Vec<NodeSource>, NoMemory>
    requires few { vec_len dealt ≤ 32 }
    requires nodes { Each (λ list. All (λ w. StandsFor project.now w.node) list.items) dealt.items }
    ensures new { IfOk result (λ sources. AreNew project.now dealt.items sources.items) }
    ensures reaches { IfOk result (λ sources. Each (ReachesOthers (vec_len dealt)) sources.items) }
{
    let mut sources = lone_sources(alloc, project, dealt)?;
    for index in 0..sources.len() {
        add_reaches(&mut sources, index)?;
    }
    Ok(sources)
}
