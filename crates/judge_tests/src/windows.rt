//! Windows of the jobs, the steps that narrow them, and what refutes an end.

ghost use Rattle.std.specs.Prelude.{◌≤◌};

use project_net::{BuildRefusal, Project};
use sched_base::NoMemory;
use std::alloc::Global;
use std::process::Abort;
use std::test::Fail;
use window_refuter::{
    BoundLine, BoundStep, Judged, Window, Windows, bound_line, narrowing_steps, parse_bound_line,
    refute, refutes, window_bound,
};
use worked_projects::{
    AFTER_A_BREAK, ALL_AT_ONCE, ASKS_TOO_MUCH, EIGHTEEN_JOBS, LATE_BREAK, LONGER_MODE,
    SHORT_OR_CHEAP, THREE_IN_TURN, TWO_IN_TURN, WorkedProject, build,
};

/// A project, and its window bound.
struct Case {
    name: &'static str,
    project: WorkedProject,
    bound: u32,
}

static CASES: [Case; 8] = [
    Case {
        name: "two jobs in conflict",
        project: TWO_IN_TURN,
        bound: 5,
    },
    Case {
        name: "three jobs that ask for all there is",
        project: THREE_IN_TURN,
        bound: 6,
    },
    Case {
        name: "a critical path alone",
        project: ALL_AT_ONCE,
        bound: 3,
    },
    Case {
        name: "a longer mode",
        project: LONGER_MODE,
        bound: 5,
    },
    Case {
        name: "less in the first periods",
        project: AFTER_A_BREAK,
        bound: 5,
    },
    Case {
        name: "none in one period",
        project: LATE_BREAK,
        bound: 4,
    },
    Case {
        name: "more than there ever is, up to the horizon",
        project: ASKS_TOO_MUCH,
        bound: 6,
    },
    Case {
        name: "the short modes, whatever they need",
        project: SHORT_OR_CHEAP,
        bound: 2,
    },
];

/// The window bound of a project, where it is above 0 and its steps refute the period before it.
fn bound_if_shown(alloc: Global, project: &Project) -> Result<Option<u32>, NoMemory> {
    let found = window_bound(alloc, project)?;
    let bound = found.bound;
    if bound < 1 || 1_290_001 < bound {
        return Ok(None);
    }
    let is_shown = refutes(project, bound - 1, found.steps.as_slice());
    Ok(is_shown.then_some(bound))
}

fn shown_bound(alloc: Global, worked: &WorkedProject) -> Result<Option<u32>, BuildRefusal> {
    let project = build(alloc, worked)?;
    Ok(bound_if_shown(alloc, &project)?)
}

#[test]
fn bounds(rt: HostRuntime) -> Result<(), Fail> {
    for case in &CASES {
        let bound = shown_bound(rt.alloc(), &case.project)?;
        assert_eq!(rt; bound, Some(case.bound), "{}", case.name);
    }
    Ok(())
}

#[test]
fn bound_of_eighteen_jobs(rt: HostRuntime) -> Result<(), Fail> {
    let bound = shown_bound(rt.alloc(), &EIGHTEEN_JOBS)?;
    assert!(rt; bound.is_some_and(|bound| bound <= 18));
    Ok(())
}

/// An end, steps, and whether they refute it.
type Refutation = (u32, &'static [BoundStep], bool);

/// Of the two jobs in conflict.
static REFUTATIONS: [Refutation; 12] = [
    (
        4,
        &[BoundStep::Disjoint(2, 3, 1), BoundStep::Empty(2)],
        true,
    ),
    (
        4,
        &[BoundStep::Disjoint(2, 3, 1), BoundStep::Empty(3)],
        true,
    ),
    (
        5,
        &[BoundStep::Disjoint(2, 3, 1), BoundStep::Empty(2)],
        false,
    ),
    (4, &[BoundStep::Head(1, 2), BoundStep::Empty(2)], false),
    (
        4,
        &[
            BoundStep::Disjoint(2, 3, 1),
            BoundStep::Disjoint(2, 3, 1),
            BoundStep::Empty(2),
        ],
        false,
    ),
    (4, &[BoundStep::Disjoint(2, 3, 1)], false),
    (
        4,
        &[BoundStep::Disjoint(2, 3, 2), BoundStep::Empty(2)],
        false,
    ),
    (4, &[BoundStep::Empty(2)], false),
    (
        4,
        &[
            BoundStep::Disjoint(2, 3, 1),
            BoundStep::Empty(2),
            BoundStep::Empty(2),
        ],
        false,
    ),
    (4, &[], false),
    (3, &[BoundStep::Work(1, 0, 3)], true),
    (3, &[BoundStep::Work(1, 0, 4)], false),
];

fn compare_refutations(rt: &impl Abort, project: &Project) {
    for (end, steps, is_refuted) in &REFUTATIONS {
        if *end <= 1_290_000 {
            assert_eq!(rt; refutes(project, *end, steps), *is_refuted, "{end}");
        }
    }
}

#[test]
fn refutations(rt: HostRuntime) -> Result<(), Fail> {
    let project = build(rt.alloc(), &TWO_IN_TURN)?;
    compare_refutations(&rt, &project);
    Ok(())
}

/// The end 4 is refuted, and the end 5 is not.
fn refute_ends(rt: &impl Abort, alloc: Global, project: &Project) -> Result<(), NoMemory> {
    let early = refute(alloc, project, 4)?;
    assert!(rt; early.is_some());
    let late = refute(alloc, project, 5)?;
    assert!(rt; late.is_none());
    Ok(())
}

#[test]
fn two_ends(rt: HostRuntime) -> Result<(), Fail> {
    let project = build(rt.alloc(), &TWO_IN_TURN)?;
    Ok(refute_ends(&rt, rt.alloc(), &project)?)
}

/// Windows of a caller's own: job 2 runs from period 1 to 4 in any case, which leaves no room for job 3 by period 5.
static OWN: [Window; 4] = [
    Window {
        earliest_start: 0,
        latest_finish: 5,
    },
    Window {
        earliest_start: 1,
        latest_finish: 4,
    },
    Window {
        earliest_start: 0,
        latest_finish: 5,
    },
    Window {
        earliest_start: 0,
        latest_finish: 5,
    },
];

fn refute_own(rt: &impl Abort, alloc: Global, project: &Project) -> Result<(), NoMemory> {
    let narrowing = narrowing_steps(alloc, project)?;
    assert_eq!(rt; project.jobs(), 4);
    let windows = Windows::of(&OWN, 5);
    let found = windows.refute(alloc, project, narrowing.as_slice())?;
    assert!(rt; found.is_some());
    Ok(())
}

#[test]
fn own_windows(rt: HostRuntime) -> Result<(), Fail> {
    let project = build(rt.alloc(), &TWO_IN_TURN)?;
    Ok(refute_own(&rt, rt.alloc(), &project)?)
}

/// Lines as bytes, and what they say.
static LINES: [(&[u8], Option<BoundLine>); 18] = [
    (b"psplib-bound 1", Some(BoundLine::Title)),
    (b"psplib-bound 2", None),
    (b"bound 0", Some(BoundLine::Bound(0))),
    (b"bound 999999999", Some(BoundLine::Bound(999_999_999))),
    (b"bound 1000000000", None),
    (b"bound 05", None),
    (b"bound", None),
    (b"H 1 255", Some(BoundLine::Step(BoundStep::Head(1, 255)))),
    (b"H 1 256", None),
    (b"Q 0 2", Some(BoundLine::Step(BoundStep::Tail(0, 2)))),
    (
        b"D 2 3 1",
        Some(BoundLine::Step(BoundStep::Disjoint(2, 3, 1))),
    ),
    (b"D 2 3", None),
    (
        b"E 1 0 1290000",
        Some(BoundLine::Step(BoundStep::Work(1, 0, 1_290_000))),
    ),
    (b"F 2", Some(BoundLine::Step(BoundStep::Empty(2)))),
    (b"F 2 ", None),
    (b"F  2", None),
    (b"end", Some(BoundLine::End)),
    (b"", None),
];

/// Whether the line is written as these bytes and an LF.
fn is_written(line: BoundLine, bytes: &[u8]) -> bool {
    let text = bound_line(line);
    let written = text.as_slice();
    written.len() == bytes.len() + 1 && written.starts_with(bytes) && written.ends_with(b"\n")
}

#[test]
fn lines(rt: HostRuntime) {
    for (bytes, line) in &LINES {
        assert_eq!(rt; parse_bound_line(bytes), *line);
        if let Some(line) = line {
            assert!(rt; is_written(*line, bytes));
        }
    }
}

/// Steps judged one by one in the first windows of the two jobs in conflict for the end 4.
static JUDGED: [(BoundStep, Judged); 6] = [
    (BoundStep::Head(1, 2), Judged::NotAllowed),
    (BoundStep::Tail(2, 4), Judged::NotAllowed),
    (BoundStep::Disjoint(2, 3, 1), Judged::Further),
    (BoundStep::Disjoint(2, 3, 1), Judged::NotAllowed),
    (BoundStep::Work(1, 0, 4), Judged::NotAllowed),
    (BoundStep::Empty(2), Judged::Contradiction),
];

/// Whether each step, in the first windows for the end and after the steps before it, is judged as said.
fn are_judged(project: &Project, end: u32, steps: &[(BoundStep, Judged)]) -> bool
    requires { end ≤ 1290000 }
{
    let mut windows = Windows::new(project, end);
    for (step, judged) in steps {
        if windows.take(project, *step) != *judged {
            return false;
        }
    }
    true
}

#[test]
fn judgements(rt: HostRuntime) -> Result<(), Fail> {
    let project = build(rt.alloc(), &TWO_IN_TURN)?;
    assert!(rt; are_judged(&project, 4, &JUDGED));
    Ok(())
}

fn compare_first(rt: &impl Abort, project: &Project) {
    let windows = Windows::new(project, 4);
    let whole = Window {
        earliest_start: 0,
        latest_finish: 4,
    };
    assert_eq!(rt; windows.end(), 4);
    assert!(rt; windows.as_slice() == [whole; 4].as_slice());
}

#[test]
fn first_windows(rt: HostRuntime) -> Result<(), Fail> {
    let project = build(rt.alloc(), &TWO_IN_TURN)?;
    compare_first(&rt, &project);
    Ok(())
}
