//! Bounds of the schedules that complete a front, and the resource of which too little is left.

ghost use Rattle.precedence_tree.specs.Node.{StandsFor};

use crate::nodes::walk;
use plan_bounds::{budget_gap, lower, tail_bound, work_bound};
use precedence_tree::Node;
use project_net::Project;
use std::alloc::Global;
use std::process::Abort;
use std::test::Fail;
use worked_projects::{
    AFTER_A_BREAK, EntryRow, LATE_BREAK, NEEDS_DIFFER, NO_LENGTH, SHORT_OR_CHEAP, THREE_IN_TURN,
    TWO_IN_TURN, WorkedProject, build,
};

/// A front of a project, with its bounds and its gap.
struct Case {
    name: &'static str,
    project: WorkedProject,
    front: &'static [EntryRow],
    tail: u32,
    works: &'static [Option<u32>],
    lower: u32,
    gap: Option<u8>,
}

/// Whether the node has these work bounds, one for each renewable resource.
fn are_works(project: &Project, node: &Node, works: &[Option<u32>]) -> bool
    requires { StandsFor project.now node.now }
{
    if works.len() != project.renewables() as usize {
        return false;
    }
    for done in 0..project.renewables() {
        if work_bound(project, node, done + 1) != works[done as usize] {
            return false;
        }
    }
    true
}

static CASES: [Case; 12] = [
    Case {
        name: "a job in use",
        project: TWO_IN_TURN,
        front: &[(1, 1, 0), (2, 1, 0)],
        tail: 3,
        works: &[Some(4)],
        lower: 4,
        gap: None,
    },
    Case {
        name: "two placed, one at a time",
        project: THREE_IN_TURN,
        front: &[(1, 1, 0), (2, 1, 0), (3, 1, 2)],
        tail: 4,
        works: &[Some(6)],
        lower: 6,
        gap: None,
    },
    Case {
        name: "a capacity of nothing",
        project: WorkedProject {
            capacities: &[0],
            ..THREE_IN_TURN
        },
        front: &[],
        tail: 2,
        works: &[None],
        lower: 2,
        gap: None,
    },
    Case {
        name: "all but one placed",
        project: NO_LENGTH,
        front: &[(3, 1, 0), (2, 1, 0), (1, 1, 0), (4, 1, 0)],
        tail: 3,
        works: &[Some(4)],
        lower: 4,
        gap: None,
    },
    Case {
        name: "a leaf",
        project: NO_LENGTH,
        front: &[(5, 1, 0), (3, 1, 0), (2, 1, 0), (1, 1, 0), (4, 1, 2)],
        tail: 5,
        works: &[Some(4)],
        lower: 5,
        gap: None,
    },
    Case {
        name: "a cheap job",
        project: SHORT_OR_CHEAP,
        front: &[(1, 1, 0), (2, 2, 0)],
        tail: 4,
        works: &[Some(3)],
        lower: 4,
        gap: None,
    },
    Case {
        name: "too little of the only one",
        project: WorkedProject {
            budgets: &[1],
            ..SHORT_OR_CHEAP
        },
        front: &[],
        tail: 2,
        works: &[Some(2)],
        lower: 2,
        gap: Some(1),
    },
    Case {
        name: "the mode that needs less",
        project: NEEDS_DIFFER,
        front: &[(1, 1, 0), (2, 2, 0)],
        tail: 4,
        works: &[Some(5)],
        lower: 5,
        gap: None,
    },
    Case {
        name: "a job after two",
        project: NEEDS_DIFFER,
        front: &[(1, 1, 0), (2, 1, 0), (3, 1, 0), (4, 1, 1)],
        tail: 4,
        works: &[Some(5)],
        lower: 5,
        gap: None,
    },
    Case {
        name: "less at first",
        project: AFTER_A_BREAK,
        front: &[],
        tail: 3,
        works: &[Some(5)],
        lower: 5,
        gap: None,
    },
    Case {
        name: "after less at first",
        project: AFTER_A_BREAK,
        front: &[(1, 1, 0), (2, 1, 2)],
        tail: 5,
        works: &[Some(6)],
        lower: 6,
        gap: None,
    },
    Case {
        name: "a break",
        project: LATE_BREAK,
        front: &[],
        tail: 3,
        works: &[Some(4)],
        lower: 4,
        gap: None,
    },
];

/// Compares the bounds and the gap of a node with those of the case.
fn compare(rt: &impl Abort, project: &Project, node: &Node, case: &Case)
    requires { StandsFor project.now node.now }
{
    assert_eq!(rt; tail_bound(project, node), case.tail, "{}", case.name);
    assert!(rt; are_works(project, node, case.works), "{}", case.name);
    assert_eq!(rt; lower(project, node), case.lower, "{}", case.name);
    assert_eq!(rt; budget_gap(project, node), case.gap, "{}", case.name);
}

/// Compares the bounds of the front of a case, in its project.
fn compare_front(
    rt: &impl Abort,
    alloc: Global,
    project: &Project,
    case: &Case,
) -> Result<(), Fail> {
    let node = walk(rt, alloc, project, case.front)?;
    compare(rt, project, &node, case);
    Ok(())
}

fn compare_case(rt: &impl Abort, alloc: Global, case: &Case) -> Result<(), Fail> {
    let project = build(alloc, &case.project)?;
    compare_front(rt, alloc, &project, case)
}

#[test]
fn bounds_of_fronts(rt: HostRuntime) -> Result<(), Fail> {
    for case in &CASES {
        compare_case(&rt, rt.alloc(), case)?;
    }
    Ok(())
}
