//! Fronts of all depths: walks down the tree, each by other placed children.

ghost use Rattle.std.specs.Prelude.{◌≤◌, IfOk};
ghost use Rattle.precedence_tree.specs.Node.{StandsFor};

use crate::children::{is_eligible, least_start};
use precedence_tree::{Child, Children, Entry, Node, children, follow};
use project_net::Project;
use sched_base::{List, NoMemory};
use std::alloc::Global;
use std::process::Abort;

/// How fronts are found.
#[derive(Clone, Copy)]
pub struct Walks {
    /// How many walks to placed children there are.
    pub number: u8,
    /// How many jobs more each front of a walk has that is kept.
    pub apart: u8,
}

/// The fronts that are kept.
pub type Fronts = Vec<List<Entry>>;

/// The node one entry on.
fn next(
    rt: &impl Abort,
    alloc: Global,
    project: &Project,
    node: &Node,
    entry: Entry,
) -> Result<Node, NoMemory>
    requires { StandsFor project.now node.now }
    ensures { IfOk result (StandsFor project.now) }
{
    match follow(alloc, project, node, entry)? {
        Some(next) => Ok(next),
        None => panic!(rt; "{entry:?} doesn't follow"),
    }
}

/// The node of a front.
pub fn node_of(
    rt: &impl Abort,
    alloc: Global,
    project: &Project,
    front: &[Entry],
) -> Result<Node, NoMemory>
    ensures { IfOk result (StandsFor project.now) }
{
    let mut node = Node::root();
    for entry in front {
        node = next(rt, alloc, project, &node, *entry)?;
    }
    Ok(node)
}

/// The entry that was placed last.
pub fn newest(node: &Node) -> Option<Entry> {
    let depth = node.depth();
    if depth == 0 {
        return None;
    }
    Some(node.entry(depth))
}

/// The last entries of the children that are placed.
fn placed_entries(alloc: Global, children: &Children) -> Result<Vec<Entry>, NoMemory> {
    let mut all = Vec::new(alloc);
    for child in children.as_slice() {
        if let Child::Placed(node) = child {
            if let Some(entry) = newest(node) {
                all.push(entry)?;
            }
        }
    }
    Ok(all)
}

/// The last entry of the placed child with this number among them, counted round.
fn entry_after(
    rt: &impl Abort,
    alloc: Global,
    project: &Project,
    front: &[Entry],
    number: usize,
) -> Result<Option<Entry>, NoMemory> {
    let node = node_of(rt, alloc, project, front)?;
    let children = children(alloc, project, &node)?;
    let placed = placed_entries(alloc, &children)?;
    if placed.is_empty() {
        return Ok(None);
    }
    Ok(placed.get(number % placed.len()).copied())
}

/// Where a walk goes.
#[derive(Clone, Copy)]
enum Way {
    /// To placed children: at first each walk to others, and then all walks alike, so that fronts of the same jobs are met.
    Down(u8),
    /// To the lowest eligible job in its first mode as long as the budgets are kept, even where the child is shut.
    Quick,
}

/// Which of the placed children a walk goes to.
fn turn(walk: u8, depth: u8) -> usize {
    let depth = usize::from(depth);
    if depth < 4 {
        usize::from(walk) * 5 + depth
    } else {
        depth * 3
    }
}

/// The lowest eligible job in its first mode, at its least start.
fn quick_entry(project: &Project, front: &[Entry]) -> Option<Entry> {
    for done in 0..project.jobs() {
        let job = done + 1;
        if is_eligible(project, front, job) {
            let start = least_start(project, front, job, 1);
            return Some(Entry {
                job,
                mode: 1,
                start,
            });
        }
    }
    None
}

/// The same, where it may follow.
fn quick_entry_after(
    rt: &impl Abort,
    alloc: Global,
    project: &Project,
    front: &[Entry],
) -> Result<Option<Entry>, NoMemory> {
    let Some(entry) = quick_entry(project, front) else {
        return Ok(None);
    };
    let node = node_of(rt, alloc, project, front)?;
    match follow(alloc, project, &node, entry)? {
        Some(_) => Ok(Some(entry)),
        None => Ok(None),
    }
}

/// The entry that a walk places next.
fn next_entry(
    rt: &impl Abort,
    alloc: Global,
    project: &Project,
    front: &[Entry],
    way: Way,
    depth: u8,
) -> Result<Option<Entry>, NoMemory> {
    match way {
        Way::Down(walk) => entry_after(rt, alloc, project, front, turn(walk, depth)),
        Way::Quick => quick_entry_after(rt, alloc, project, front),
    }
}

/// Keeps the front.
fn keep(alloc: Global, front: &[Entry], fronts: &mut Fronts) -> Result<(), NoMemory> {
    let kept = front.to_vec(alloc)?;
    fronts.push(List::from_vec(kept))?;
    Ok(())
}

/// Walks from the root as far as there is an entry to place.
fn walk(
    rt: &impl Abort,
    alloc: Global,
    project: &Project,
    way: Way,
    apart: u8,
    fronts: &mut Fronts,
) -> Result<(), NoMemory>
    requires { 1 ≤ apart }
{
    let mut front = Vec::new(alloc);
    for depth in 0..project.jobs() {
        if depth % apart == 0 {
            keep(alloc, front.as_slice(), fronts)?;
        }
        match next_entry(rt, alloc, project, front.as_slice(), way, depth)? {
            Some(entry) => front.push(entry)?,
            None => return Ok(()),
        }
    }
    keep(alloc, front.as_slice(), fronts)
}

/// The fronts of all walks.
pub fn fronts_of(
    rt: &impl Abort,
    alloc: Global,
    project: &Project,
    walks: Walks,
) -> Result<Fronts, NoMemory>
    requires { 1 ≤ walks.apart }
{
    let mut fronts = Vec::new(alloc);
    for number in 0..walks.number {
        walk(
            rt,
            alloc,
            project,
            Way::Down(number),
            walks.apart,
            &mut fronts,
        )?;
    }
    walk(rt, alloc, project, Way::Quick, walks.apart, &mut fronts)?;
    Ok(fronts)
}
