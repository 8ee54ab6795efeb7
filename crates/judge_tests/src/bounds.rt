//! The text of a bound with its steps: what it comes to, and what is written.

ghost use Rattle.std.specs.Prelude.{◌≤◌};

use bound_checker::{BoundChecker, BoundRefusal, bound_text};
use project_net::Project;
use sched_base::{List, NoMemory};
use std::alloc::Global;
use std::process::Abort;
use std::test::Fail;
use window_refuter::{BoundStep, WindowBound, refutes, window_bound};
use worked_projects::{
    AFTER_A_BREAK, EIGHTEEN_JOBS, THREE_IN_TURN, TWO_IN_TURN, WorkedProject, build,
};

/// A text, and what it comes to: its bound, or the line that may not stand there.
type Judgement = (&'static [u8], Result<u32, BoundRefusal>);

/// Of the two jobs in conflict.
static JUDGEMENTS: [Judgement; 14] = [
    (b"psplib-bound 1\nbound 5\nD 2 3 1\nF 2\nend\n", Ok(5)),
    (b"psplib-bound 1\nbound 0\nend\n", Ok(0)),
    (
        b"psplib-bound 1\nbound 6\nD 2 3 1\nF 2\nend\n",
        Err(BoundRefusal { line: 3 }),
    ),
    (
        b"psplib-bound 1\nbound 5\nH 1 2\nF 2\nend\n",
        Err(BoundRefusal { line: 3 }),
    ),
    (
        b"psplib-bound 1\nbound 5\nD 2 3 1\nD 2 3 1\nF 2\nend\n",
        Err(BoundRefusal { line: 4 }),
    ),
    (
        b"psplib-bound 1\nbound 5\nD 2 3 1\nend\n",
        Err(BoundRefusal { line: 4 }),
    ),
    (
        b"psplib-bound 1\nbound 5\nD 2 3 1\nF 2\nend\nx",
        Err(BoundRefusal { line: 6 }),
    ),
    (
        b"psplib-bound 1\nbound 5\nD 2 3 1\nF 2\nend",
        Err(BoundRefusal { line: 5 }),
    ),
    (b"psplib-bound 2\n", Err(BoundRefusal { line: 1 })),
    (
        b"psplib-bound 1\nbound 1290002\n",
        Err(BoundRefusal { line: 2 }),
    ),
    (b"psplib-bound 1\nbound 05\n", Err(BoundRefusal { line: 2 })),
    (
        b"psplib-bound 1\nbound 0\nF 1\nend\n",
        Err(BoundRefusal { line: 3 }),
    ),
    (b"", Err(BoundRefusal { line: 1 })),
    (
        b"psplib-bound 1\n                                                                 ",
        Err(BoundRefusal { line: 2 }),
    ),
];

/// What a text comes to, in pieces of so many bytes.
fn judge(alloc: Global, project: &Project, text: &[u8], size: usize) -> Result<u32, BoundRefusal>
    requires { 1 ≤ size }
{
    let mut checker = BoundChecker::new(alloc, project);
    for piece in text.chunks(size) {
        let _ = checker.feed(piece);
    }
    checker.finish()
}

fn compare_judgements(rt: &impl Abort, alloc: Global, project: &Project) {
    for (text, judgement) in &JUDGEMENTS {
        assert_eq!(rt; judge(alloc, project, text, 1), *judgement);
        assert_eq!(rt; judge(alloc, project, text, 7), *judgement);
        assert_eq!(rt; judge(alloc, project, text, 100), *judgement);
    }
}

#[test]
fn judgements(rt: HostRuntime) -> Result<(), Fail> {
    let project = build(rt.alloc(), &TWO_IN_TURN)?;
    compare_judgements(&rt, rt.alloc(), &project);
    Ok(())
}

/// Projects whose windows show a bound above 0.
static BOUNDED: [WorkedProject; 4] = [TWO_IN_TURN, THREE_IN_TURN, AFTER_A_BREAK, EIGHTEEN_JOBS];

/// What the text of a bound comes to.
fn judge_bound(
    alloc: Global,
    project: &Project,
    found: &WindowBound,
) -> Result<Result<u32, BoundRefusal>, NoMemory> {
    let text = bound_text(alloc, found)?;
    Ok(judge(alloc, project, text.as_slice(), 64))
}

/// What is written of the project's bound comes to that bound.
fn compare_written(rt: &impl Abort, alloc: Global, project: &Project) -> Result<(), NoMemory> {
    let found = window_bound(alloc, project)?;
    let judged = judge_bound(alloc, project, &found)?;
    assert_eq!(rt; judged, Ok(found.bound));
    Ok(())
}

fn write_bound(rt: &impl Abort, alloc: Global, worked: &WorkedProject) -> Result<(), Fail> {
    let project = build(alloc, worked)?;
    Ok(compare_written(rt, alloc, &project)?)
}

#[test]
fn written_bounds(rt: HostRuntime) -> Result<(), Fail> {
    for worked in &BOUNDED {
        write_bound(&rt, rt.alloc(), worked)?;
    }
    Ok(())
}

/// The text of the greatest bound, with a step of each kind.
const WRITTEN: &[u8; 70] =
    b"psplib-bound 1\nbound 1290001\nH 1 2\nQ 2 3\nD 4 5 6\nE 7 80 900\nF 255\nend\n";

#[test]
fn written_text(rt: HostRuntime) -> Result<(), Fail> {
    let steps = Vec::from_array(
        rt.alloc(),
        [
            BoundStep::Head(1, 2),
            BoundStep::Tail(2, 3),
            BoundStep::Disjoint(4, 5, 6),
            BoundStep::Work(7, 80, 900),
            BoundStep::Empty(255),
        ],
    )?;
    let found = WindowBound {
        bound: 1_290_001,
        steps: List::from_vec(steps),
    };
    let text = bound_text(rt.alloc(), &found)?;
    assert!(rt; text.as_slice() == WRITTEN.as_slice());
    Ok(())
}

/// The steps without the one in some place.
fn without(alloc: Global, steps: &[BoundStep], place: usize) -> Result<List<BoundStep>, NoMemory> {
    let mut others = Vec::new(alloc);
    for (other, step) in steps.iter().enumerate() {
        if other != place {
            others.push(*step)?;
        }
    }
    Ok(List::from_vec(others))
}

/// Whether the bound is accepted without one of its steps exactly where the steps that are left refute the period before it.
fn is_judged_without(
    alloc: Global,
    project: &Project,
    found: &WindowBound,
    place: usize,
) -> Result<bool, NoMemory> {
    let bound = found.bound;
    if bound < 1 || 1_290_001 < bound {
        return Ok(false);
    }
    let steps = without(alloc, found.steps.as_slice(), place)?;
    let is_shown = refutes(project, bound - 1, steps.as_slice());
    let judged = judge_bound(alloc, project, &WindowBound { bound, steps })?;
    Ok(judged.is_ok() == is_shown)
}

/// Leaves out each step of the project's bound in turn.
fn leave_out_steps(rt: &impl Abort, alloc: Global, project: &Project) -> Result<(), NoMemory> {
    let found = window_bound(alloc, project)?;
    for place in 0..found.steps.as_slice().len() {
        let is_judged = is_judged_without(alloc, project, &found, place)?;
        assert!(rt; is_judged);
    }
    Ok(())
}

fn leave_out(rt: &impl Abort, alloc: Global, worked: &WorkedProject) -> Result<(), Fail> {
    let project = build(alloc, worked)?;
    Ok(leave_out_steps(rt, alloc, &project)?)
}

#[test]
fn steps_left_out(rt: HostRuntime) -> Result<(), Fail> {
    for worked in &BOUNDED {
        leave_out(&rt, rt.alloc(), worked)?;
    }
    Ok(())
}
