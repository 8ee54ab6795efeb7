//! Whole searches, by one worker and by several.

ghost use Rattle.std.specs.Prelude.{◌≤◌};

use project_net::Project;
use proof_log::{LogLine, Verdict};
use sched_base::{Fate, NoMemory, OpenGate};
use search_rounds::Found;
use std::alloc::Global;
use std::process::Abort;
use std::test::Fail;
use std::thread::Threads;
use steal_rounds::search;
use worked_projects::{
    EIGHTEEN_JOBS_TIGHT, NEEDS_DIFFER, NO_LENGTH, SHORT_OR_CHEAP, TWINS, TWO_IN_TURN,
    WorkedProject, build,
};

/// A line of a log: its job, its mode, its start, and what it says.
type Line = (u8, u8, Option<u32>, Fate);

const EXPANDED: Fate = Fate::Expanded;

/// A search of one worker that may expand so many nodes.
struct Case {
    name: &'static str,
    project: &'static WorkedProject,
    nodes: u32,
    verdict: Verdict,
    log: &'static [Line],
}

static CASES: [Case; 5] = [
    Case {
        name: "two in turn",
        project: &TWO_IN_TURN,
        nodes: 100000,
        verdict: Verdict::Optimal { duration: 5 },
        log: &[
            (0, 0, None, EXPANDED),
            (1, 1, Some(0), EXPANDED),
            (2, 1, Some(0), EXPANDED),
            (3, 1, Some(3), Fate::TailBound),
            (3, 1, Some(0), EXPANDED),
            (2, 1, Some(2), Fate::TailBound),
        ],
    },
    Case {
        name: "two in turn, three expansions",
        project: &TWO_IN_TURN,
        nodes: 3,
        verdict: Verdict::Limit {
            duration: Some(5),
            lower: 4,
        },
        log: &[
            (0, 0, None, EXPANDED),
            (1, 1, Some(0), EXPANDED),
            (2, 1, Some(0), EXPANDED),
            (3, 1, Some(3), Fate::TailBound),
            (3, 1, Some(0), Fate::Left(4)),
        ],
    },
    Case {
        name: "jobs without length",
        project: &NO_LENGTH,
        nodes: 100000,
        verdict: Verdict::Optimal { duration: 5 },
        log: &[
            (0, 0, None, EXPANDED),
            (3, 1, Some(0), EXPANDED),
            (2, 1, Some(0), EXPANDED),
            (1, 1, Some(0), EXPANDED),
            (4, 1, Some(0), EXPANDED),
            (5, 1, Some(3), Fate::Leaf),
            (5, 1, Some(0), EXPANDED),
            (4, 1, Some(2), Fate::Leaf),
            (5, 1, Some(0), EXPANDED),
            (1, 1, Some(0), Fate::Cutset(7)),
            (5, 1, Some(0), EXPANDED),
            (2, 1, Some(0), Fate::Cutset(9)),
            (5, 1, Some(0), EXPANDED),
            (3, 1, Some(0), Fate::Cutset(11)),
        ],
    },
    Case {
        name: "twins",
        project: &TWINS,
        nodes: 100000,
        verdict: Verdict::Optimal { duration: 6 },
        log: &[
            (0, 0, None, EXPANDED),
            (1, 1, Some(0), EXPANDED),
            (2, 1, Some(0), EXPANDED),
            (3, 1, Some(0), EXPANDED),
            (4, 1, Some(1), EXPANDED),
            (5, 1, Some(4), Fate::TailBound),
            (5, 1, Some(1), EXPANDED),
            (4, 1, Some(3), Fate::TailBound),
            (3, 1, Some(0), EXPANDED),
            (2, 1, Some(0), Fate::Cutset(4)),
        ],
    },
    Case {
        name: "short or cheap",
        project: &SHORT_OR_CHEAP,
        nodes: 100000,
        verdict: Verdict::Optimal { duration: 4 },
        log: &[
            (0, 0, None, EXPANDED),
            (1, 1, Some(0), EXPANDED),
            (2, 1, Some(0), EXPANDED),
            (3, 1, None, Fate::Budget(1)),
            (3, 2, Some(0), Fate::TailBound),
            (2, 2, Some(0), Fate::TailBound),
            (3, 1, Some(0), EXPANDED),
            (2, 1, None, Fate::Budget(1)),
            (2, 2, Some(0), Fate::TailBound),
            (3, 2, Some(0), Fate::TailBound),
        ],
    },
];

fn line_of(line: &LogLine) -> Line {
    (line.job, line.mode, line.start, line.fate)
}

fn compare(rt: &impl Abort, case: &Case, found: &Found) {
    assert_eq!(rt; found.verdict, case.verdict, "{}", case.name);
    let lines = found.log.as_slice();
    assert_eq!(rt; lines.len(), case.log.len(), "{}", case.name);
    for (line, expected) in lines.iter().zip(case.log) {
        assert_eq!(rt; line_of(line), *expected, "{}", case.name);
    }
    for origin in found.origins.as_slice() {
        assert!(rt; origin.worker < 2, "{}", case.name);
    }
}

fn search_alone<R: Threads + Sync + Abort>(
    rt: &R,
    alloc: Global,
    project: &Project,
    case: &Case,
) -> Result<(), NoMemory>
    requires { case.now.nodes ≤ 100000 }
{
    let ended = search(rt, alloc, project, 1, case.nodes, &OpenGate)?;
    let found = ended.tell(alloc)?;
    compare(rt, case, &found);
    Ok(())
}

fn search_case<R: Threads + Sync + Abort>(rt: &R, alloc: Global, case: &Case) -> Result<(), Fail>
    requires { case.now.nodes ≤ 100000 }
{
    let project = build(alloc, case.project)?;
    Ok(search_alone(rt, alloc, &project, case)?)
}

#[test]
fn searches_of_one_worker(rt: HostRuntime) -> Result<(), Fail> {
    for case in &CASES {
        search_case(&rt, rt.alloc(), case)?;
    }
    Ok(())
}

/// Projects that are searched by crews of several sizes.
static SHARED: [&WorkedProject; 5] = [
    &TWO_IN_TURN,
    &TWINS,
    &NO_LENGTH,
    &NEEDS_DIFFER,
    &EIGHTEEN_JOBS_TIGHT,
];

const EXPANSIONS: u32 = 5000;

/// Two searches that reached their end say the same.
fn agree(verdict: Verdict, other: Verdict) -> bool {
    match (verdict, other) {
        (Verdict::Limit { .. }, _) | (_, Verdict::Limit { .. }) => true,
        (verdict, other) => verdict == other,
    }
}

/// The verdict of a search by so many workers.
fn verdict_of<R: Threads + Sync>(
    rt: &R,
    alloc: Global,
    project: &Project,
    workers: u32,
) -> Result<Verdict, NoMemory>
    requires some { 1 ≤ workers }
    requires few { workers ≤ 32 }
{
    let ended = search(rt, alloc, project, workers, EXPANSIONS, &OpenGate)?;
    Ok(ended.without_log().verdict)
}

fn compare_crews<R: Threads + Sync + Abort>(
    rt: &R,
    alloc: Global,
    project: &Project,
) -> Result<(), NoMemory> {
    let alone = verdict_of(rt, alloc, project, 1)?;
    for workers in [2, 3, 32] {
        let verdict = verdict_of(rt, alloc, project, workers)?;
        assert!(rt; agree(alone, verdict), "{} workers", workers);
    }
    Ok(())
}

fn search_by_crews<R: Threads + Sync + Abort>(
    rt: &R,
    alloc: Global,
    worked: &WorkedProject,
) -> Result<(), Fail> {
    let project = build(alloc, worked)?;
    Ok(compare_crews(rt, alloc, &project)?)
}

#[test]
fn searches_of_several_workers(rt: HostRuntime) -> Result<(), Fail> {
    for worked in &SHARED {
        search_by_crews(&rt, rt.alloc(), worked)?;
    }
    Ok(())
}
