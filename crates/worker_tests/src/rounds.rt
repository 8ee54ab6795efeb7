//! A search between its rounds: what becomes of the root where no round runs, and the terms of the first round.

ghost use Rattle.std.specs.Prelude.{◌≤◌, IfSome};
ghost use Rattle.rcpsp_model.specs.Schedule.{end_of, entries, IsFeasible};

use plan_bounds::budget_gap;
use precedence_tree::Node;
use project_net::{Project, Schedule};
use proof_log::Verdict;
use sched_base::{Fate, NoMemory};
use search_rounds::{Best, Found, Search, Terms, found_gap};
use serial_scheme::first_plan;
use std::alloc::Global;
use std::process::Abort;
use std::test::Fail;
use worked_projects::{
    ALL_AT_ONCE, BUDGETS_ALONE, ONE_LONG_JOB, SHORT_OR_CHEAP, THREE_IN_TURN, TWO_IN_TURN,
    WorkedProject, build,
};

/// A project, the verdict on it where no node may be expanded, and what then becomes of the root.
struct Case {
    project: WorkedProject,
    verdict: Verdict,
    fate: Fate,
}

static CASES: [Case; 6] = [
    Case {
        project: TWO_IN_TURN,
        verdict: Verdict::Limit {
            duration: Some(5),
            lower: 4,
        },
        fate: Fate::Left(4),
    },
    Case {
        project: ALL_AT_ONCE,
        verdict: Verdict::Optimal { duration: 3 },
        fate: Fate::TailBound,
    },
    Case {
        project: THREE_IN_TURN,
        verdict: Verdict::Optimal { duration: 6 },
        fate: Fate::WorkBound(1),
    },
    Case {
        project: BUDGETS_ALONE,
        verdict: Verdict::Limit {
            duration: None,
            lower: 1,
        },
        fate: Fate::Left(1),
    },
    Case {
        project: ONE_LONG_JOB,
        verdict: Verdict::Optimal { duration: 10000 },
        fate: Fate::TailBound,
    },
    // One budget unit, where two are the least that is needed.
    Case {
        project: WorkedProject {
            budgets: &[1],
            ..SHORT_OR_CHEAP
        },
        verdict: Verdict::Infeasible,
        fate: Fate::Budget(1),
    },
];

/// What a search found that runs no round.
fn without_rounds(
    alloc: Global,
    project: &Project,
    plan: Option<Schedule>,
) -> Result<Found, NoMemory>
    requires feasible { IfSome plan (IsFeasible project.now) }
    requires soon { IfSome plan (λ s. end_of project.now (entries s) ≤ 1290000) }
{
    let best = Best::of_plan(project, plan);
    match budget_gap(project, &Node::root()) {
        Some(resource) => {
            let gap = found_gap(alloc, project, resource, best)?;
            gap.tell(alloc)
        }
        None => {
            let going = Search::begin(alloc, project, best)?;
            let ended = going.finish(alloc, project, 0)?;
            ended.tell(alloc)
        }
    }
}

/// The terms of the first round of a search without a plan, and how many nodes it takes; none where it doesn't run.
fn first_round(
    alloc: Global,
    project: &Project,
    nodes: u32,
) -> Result<Option<(Terms, usize)>, NoMemory>
    requires { nodes ≤ 100000 }
{
    if budget_gap(project, &Node::root()).is_some() {
        return Ok(None);
    }
    let best = Best::of_plan(project, None);
    let mut going = Search::begin(alloc, project, best)?;
    if !going.has_more(nodes) {
        return Ok(None);
    }
    let terms = going.next_terms(project, nodes);
    let frontier = going.take_frontier(alloc);
    Ok(Some((terms, frontier.len())))
}

/// Compares a log of the root alone with the case.
fn compare(rt: &impl Abort, found: &Found, case: &Case) {
    assert_eq!(rt; found.verdict, case.verdict);
    let log = found.log.as_slice();
    assert_eq!(rt; log.len(), 1);
    assert_eq!(rt; log[0].fate, case.fate);
    let origins = found.origins.as_slice();
    assert_eq!(rt; origins.len(), 1);
    assert_eq!(rt; origins[0].round, 1);
    assert_eq!(rt; origins[0].worker, 0);
    assert_eq!(rt; origins[0].turn, 1);
    assert_eq!(rt; found.starts.len(), 0);
}

fn compare_root(
    rt: &impl Abort,
    alloc: Global,
    project: &Project,
    case: &Case,
) -> Result<(), NoMemory> {
    let plan = first_plan(alloc, project)?;
    let found = without_rounds(alloc, project, plan)?;
    compare(rt, &found, case);
    Ok(())
}

fn compare_case(rt: &impl Abort, alloc: Global, case: &Case) -> Result<(), Fail> {
    let project = build(alloc, &case.project)?;
    Ok(compare_root(rt, alloc, &project, case)?)
}

#[test]
fn the_root_alone(rt: HostRuntime) -> Result<(), Fail> {
    for case in &CASES {
        compare_case(&rt, rt.alloc(), case)?;
    }
    Ok(())
}

/// The verdict where neither a plan is given nor a round runs.
fn judge_unplanned(rt: &impl Abort, alloc: Global, project: &Project) -> Result<(), NoMemory> {
    let found = without_rounds(alloc, project, None)?;
    let limit = Verdict::Limit {
        duration: None,
        lower: 4,
    };
    assert_eq!(rt; found.verdict, limit);
    assert!(rt; found.best.is_none());
    Ok(())
}

#[test]
fn without_a_plan(rt: HostRuntime) -> Result<(), Fail> {
    let project = build(rt.alloc(), &TWO_IN_TURN)?;
    Ok(judge_unplanned(&rt, rt.alloc(), &project)?)
}

fn compare_terms(rt: &impl Abort, alloc: Global, project: &Project) -> Result<(), NoMemory> {
    for (nodes, quota) in [(1, 1), (31, 31), (33, 32)] {
        let taken = first_round(alloc, project, nodes)?;
        let terms = Terms {
            number: 1,
            quota,
            best: None,
        };
        assert_eq!(rt; taken, Some((terms, 1)));
    }
    let none = first_round(alloc, project, 0)?;
    assert_eq!(rt; none, None);
    Ok(())
}

#[test]
fn the_first_round(rt: HostRuntime) -> Result<(), Fail> {
    let project = build(rt.alloc(), &TWO_IN_TURN)?;
    Ok(compare_terms(&rt, rt.alloc(), &project)?)
}
