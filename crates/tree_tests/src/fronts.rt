//! The eligible jobs and the children of fronts, and what a node keeps.

ghost use Rattle.precedence_tree.specs.Node.{StandsFor};

use crate::nodes::walk;
use precedence_tree::{
    Child, Children, Entry, Node, Shut, child, children, children_of, eligible, expand, follow,
    is_leaf, schedule,
};
use project_net::{Project, Schedule};
use rcpsp_model::Placing;
use sched_base::{Job, JobSet, NoMemory};
use std::alloc::Global;
use std::process::Abort;
use std::test::Fail;
use worked_projects::{
    AFTER_A_BREAK, ASKS_TOO_MUCH, BUDGETS_ALONE, EntryRow, LATE_BREAK, LONGER_MODE, NO_LENGTH,
    SHORT_OR_CHEAP, TWO_IN_TURN, WorkedProject, build,
};

/// A job in a mode: placed at a start, or shut.
#[derive(Clone, Copy, PartialEq, Eq)]
enum Line {
    Placed(u8, u8, u32),
    Shut(u8, u8, Shut),
}

/// A front of a project, with its eligible jobs and its children.
struct Case {
    name: &'static str,
    project: WorkedProject,
    front: &'static [EntryRow],
    eligible: &'static [u8],
    children: &'static [Line],
}

/// Whether the set has these jobs and no others.
fn is_set(set: JobSet, jobs: &[u8]) -> bool {
    for job in jobs {
        if *job < 1 || 128 < *job || !set.has(Job(*job)) {
            return false;
        }
    }
    set.count() as usize == jobs.len()
}

/// The job that a node placed last.
fn newest(node: &Node) -> Option<Entry> {
    let depth = node.depth();
    if depth == 0 {
        return None;
    }
    Some(node.entry(depth))
}

fn is_line(child: &Child<Node>, line: Line) -> bool {
    match child {
        Child::Placed(node) => match newest(node) {
            Some(entry) => line == Line::Placed(entry.job, entry.mode, entry.start),
            None => false,
        },
        Child::Shut { job, mode, why } => line == Line::Shut(*job, *mode, *why),
    }
}

/// Whether the children are these, in this order.
fn are_lines(children: &Children, lines: &[Line]) -> bool {
    let all = children.as_slice();
    if all.len() != lines.len() {
        return false;
    }
    for place in 0..lines.len() {
        if !is_line(&all[place], lines[place]) {
            return false;
        }
    }
    true
}

const FOUR_PLACED: &[EntryRow] = &[(3, 1, 0), (2, 1, 0), (1, 1, 0), (4, 1, 0)];

const ALL_PLACED: &[EntryRow] = &[(3, 1, 0), (2, 1, 0), (1, 1, 0), (4, 1, 0), (5, 1, 3)];

const SHORT_PLACED: &[EntryRow] = &[(1, 1, 0), (2, 1, 0)];

static CASES: [Case; 10] = [
    Case {
        name: "the root",
        project: NO_LENGTH,
        front: &[],
        eligible: &[3, 5],
        children: &[Line::Placed(3, 1, 0), Line::Placed(5, 1, 0)],
    },
    Case {
        name: "a start after what is in use",
        project: NO_LENGTH,
        front: FOUR_PLACED,
        eligible: &[5],
        children: &[Line::Placed(5, 1, 3)],
    },
    Case {
        name: "a leaf",
        project: NO_LENGTH,
        front: ALL_PLACED,
        eligible: &[],
        children: &[],
    },
    Case {
        name: "a start after the predecessors",
        project: TWO_IN_TURN,
        front: &[(1, 1, 0), (2, 1, 0), (3, 1, 3)],
        eligible: &[4],
        children: &[Line::Placed(4, 1, 5)],
    },
    Case {
        name: "more than there is",
        project: ASKS_TOO_MUCH,
        front: &[(1, 1, 0)],
        eligible: &[2, 3],
        children: &[Line::Shut(2, 1, Shut::NoCapacity(1)), Line::Placed(3, 1, 0)],
    },
    Case {
        name: "a needless mode",
        project: LONGER_MODE,
        front: &[(1, 1, 0)],
        eligible: &[2, 3],
        children: &[
            Line::Placed(2, 1, 0),
            Line::Shut(2, 2, Shut::Inefficient(1)),
            Line::Placed(3, 1, 0),
        ],
    },
    Case {
        name: "a budget for the cheap mode",
        project: SHORT_OR_CHEAP,
        front: SHORT_PLACED,
        eligible: &[3],
        children: &[Line::Shut(3, 1, Shut::NoBudget(1)), Line::Placed(3, 2, 0)],
    },
    Case {
        name: "the second budget used up",
        project: BUDGETS_ALONE,
        front: &[(1, 2, 0)],
        eligible: &[2],
        children: &[Line::Placed(2, 1, 0), Line::Shut(2, 2, Shut::NoBudget(2))],
    },
    Case {
        name: "less at first",
        project: AFTER_A_BREAK,
        front: &[(1, 1, 0), (3, 1, 2)],
        eligible: &[2],
        children: &[Line::Placed(2, 1, 4)],
    },
    Case {
        name: "no time before the break",
        project: LATE_BREAK,
        front: &[],
        eligible: &[1],
        children: &[Line::Placed(1, 1, 3)],
    },
];

/// Whether the node has these children.
fn bears(alloc: Global, project: &Project, node: &Node, lines: &[Line]) -> Result<bool, NoMemory>
    requires { StandsFor project.now node.now }
{
    let expansion = expand(alloc, project, node)?;
    let all = children_of(alloc, project, &expansion)?;
    Ok(are_lines(&all, lines))
}

/// Compares the eligible jobs and the children of the front of a case, in its project.
fn compare_front(
    rt: &impl Abort,
    alloc: Global,
    project: &Project,
    case: &Case,
) -> Result<(), Fail> {
    let node = walk(rt, alloc, project, case.front)?;
    let jobs = eligible(project, &node);
    assert!(rt; is_set(jobs, case.eligible), "{}", case.name);
    let has_children = bears(alloc, project, &node, case.children)?;
    assert!(rt; has_children, "{}", case.name);
    Ok(())
}

fn compare_case(rt: &impl Abort, alloc: Global, case: &Case) -> Result<(), Fail> {
    let project = build(alloc, &case.project)?;
    compare_front(rt, alloc, &project, case)
}

#[test]
fn children_of_fronts(rt: HostRuntime) -> Result<(), Fail> {
    for case in &CASES {
        compare_case(&rt, rt.alloc(), case)?;
    }
    Ok(())
}

/// Job 1 of the late break, after the break.
const AFTER_THE_BREAK: Line = Line::Placed(1, 1, 3);

/// The children of the root, without an expansion.
fn compare_children(rt: &impl Abort, alloc: Global, project: &Project) -> Result<(), NoMemory> {
    let all = children(alloc, project, &Node::root())?;
    assert!(rt; are_lines(&all, &[AFTER_THE_BREAK]));
    Ok(())
}

/// One child of the root.
fn compare_child(rt: &impl Abort, alloc: Global, project: &Project) -> Result<(), NoMemory> {
    let root = Node::root();
    assert_eq!(rt; project.jobs(), 1);
    assert!(rt; project.has_mode(1, 1));
    assert!(rt; eligible(project, &root).has(Job(1)));
    let one = child(alloc, project, &root, 1, 1)?;
    assert!(rt; is_line(&one, AFTER_THE_BREAK));
    Ok(())
}

/// No node follows where the job starts too early.
fn follow_early(rt: &impl Abort, alloc: Global, project: &Project) -> Result<(), NoMemory> {
    let early = Entry {
        job: 1,
        mode: 1,
        start: 0,
    };
    let next = follow(alloc, project, &Node::root(), early)?;
    assert!(rt; next.is_none());
    Ok(())
}

fn compare_ways(rt: &impl Abort, alloc: Global, project: &Project) -> Result<(), Fail> {
    compare_children(rt, alloc, project)?;
    compare_child(rt, alloc, project)?;
    follow_early(rt, alloc, project)?;
    Ok(())
}

#[test]
fn other_ways_to_a_child(rt: HostRuntime) -> Result<(), Fail> {
    let project = build(rt.alloc(), &LATE_BREAK)?;
    compare_ways(&rt, rt.alloc(), &project)
}

fn compare_copy(rt: &impl Abort, alloc: Global, project: &Project) -> Result<(), Fail> {
    let node = walk(rt, alloc, project, FOUR_PLACED)?;
    let copy = node.try_copy()?;
    assert_eq!(rt; (copy.depth(), copy.last(), copy.end()), (4, 0, 3));
    assert_eq!(rt; (node.depth(), node.last(), node.end()), (4, 0, 3));
    Ok(())
}

#[test]
fn a_copy_is_apart(rt: HostRuntime) -> Result<(), Fail> {
    let project = build(rt.alloc(), &NO_LENGTH)?;
    compare_copy(&rt, rt.alloc(), &project)
}

/// Whether the schedule gives the jobs their first modes and these starts.
fn starts_at(plan: &Schedule, starts: &[u32]) -> bool {
    if plan.len() != starts.len() || starts.len() > 128 {
        return false;
    }
    for place in 0..starts.len() {
        let placing = Placing {
            mode: 1,
            start: starts[place],
        };
        if plan.place(place as u8 + 1) != placing {
            return false;
        }
    }
    true
}

fn compare_schedule(rt: &impl Abort, alloc: Global, project: &Project) -> Result<(), Fail> {
    let leaf = walk(rt, alloc, project, ALL_PLACED)?;
    assert!(rt; is_leaf(project, &leaf));
    let plan = schedule(alloc, project, &leaf)?;
    assert!(rt; starts_at(&plan, &[0, 0, 0, 0, 3]));
    Ok(())
}

#[test]
fn schedule_of_a_leaf(rt: HostRuntime) -> Result<(), Fail> {
    let project = build(rt.alloc(), &NO_LENGTH)?;
    compare_schedule(&rt, rt.alloc(), &project)
}

/// What the node of two placed jobs, the second in the short mode, keeps.
fn compare_kept(rt: &impl Abort, alloc: Global, project: &Project) -> Result<(), Fail> {
    let node = walk(rt, alloc, project, SHORT_PLACED)?;
    let counts = (
        project.jobs(),
        project.renewables(),
        project.nonrenewables(),
    );
    assert_eq!(rt; counts, (4, 1, 1));
    assert_eq!(rt; node.used(project, 1), 3);
    assert_eq!(rt; node.rest_need(project, 1), 1);
    assert_eq!(rt; node.rest_work(project, 1), 2);
    assert!(rt; node.newest_active().is_some());
    assert_eq!(rt; node.older_active(project).len(), 0);
    Ok(())
}

#[test]
fn what_a_node_keeps(rt: HostRuntime) -> Result<(), Fail> {
    let project = build(rt.alloc(), &SHORT_OR_CHEAP)?;
    compare_kept(&rt, rt.alloc(), &project)
}
