//! Bounds that the program writes and judges, and those with an edit.

use crate::runs::{Outside, accepts, check, text_of, told};
use scheduler::Status;
use worked_projects::{
    AFTER_A_BREAK, EIGHTEEN_JOBS, LONGER_MODE, THREE_IN_TURN, TWO_IN_TURN, WorkedProject,
};

/// The text of a bound, and what comes of it.
type Judgement = (&'static str, Status, &'static str);

/// Of the two jobs in conflict.
const JUDGEMENTS: &[Judgement] = &[
    (
        "psplib-bound 1\nbound 5\nD 2 3 1\nF 2\nend\n",
        Status::Done,
        "accepted bound 5\n",
    ),
    (
        "psplib-bound 1\nbound 0\nend\n",
        Status::Done,
        "accepted bound 0\n",
    ),
    (
        "psplib-bound 1\nbound 6\nD 2 3 1\nF 2\nend\n",
        Status::ReportRefused,
        "bound refused: line 3\n",
    ),
    (
        "psplib-bound 1\nbound 5\nH 1 2\nF 2\nend\n",
        Status::ReportRefused,
        "bound refused: line 3\n",
    ),
    (
        "psplib-bound 1\nbound 5\nD 2 3 1\nD 2 3 1\nF 2\nend\n",
        Status::ReportRefused,
        "bound refused: line 4\n",
    ),
    (
        "psplib-bound 1\nbound 5\nend\n",
        Status::ReportRefused,
        "bound refused: line 3\n",
    ),
    ("", Status::ReportRefused, "bound refused: line 1\n"),
];

#[test]
fn bounds_are_judged(rt: HostRuntime) {
    let project = text_of(&rt, &TWO_IN_TURN);
    for (bound, status, text) in JUDGEMENTS {
        let outside = Outside {
            step: 7,
            ..Outside::of(&project, bound.as_bytes())
        };
        check(&rt, "verify p r", &outside, (*status, text));
    }
}

/// A project, what its bound's text begins with, and what is said of the text.
type Case = (&'static WorkedProject, &'static str, &'static str);

const CASES: &[Case] = &[
    (
        &TWO_IN_TURN,
        "psplib-bound 1\nbound 5\n",
        "accepted bound 5\n",
    ),
    (
        &THREE_IN_TURN,
        "psplib-bound 1\nbound 6\n",
        "accepted bound 6\n",
    ),
    (
        &LONGER_MODE,
        "psplib-bound 1\nbound 5\n",
        "accepted bound 5\n",
    ),
    (
        &AFTER_A_BREAK,
        "psplib-bound 1\nbound 5\n",
        "accepted bound 5\n",
    ),
];

#[test]
fn written_bounds_are_accepted(rt: HostRuntime) {
    for (worked, begins, accepted) in CASES {
        let project = text_of(&rt, worked);
        let (status, bound) = told(&rt, "bound p", &Outside::of(&project, b""));
        assert_eq!(rt; status, Status::Done);
        assert!(rt; bound.as_slice().starts_with(begins.as_bytes()));
        let outside = Outside::of(&project, &bound);
        check(&rt, "verify p r", &outside, (Status::Done, accepted));
    }
}

#[test]
fn bounds_of_larger_projects_are_accepted(rt: HostRuntime) {
    let eighteen = text_of(&rt, &EIGHTEEN_JOBS);
    let (_, forty) = told(&rt, "make 42 40 modes=3", &Outside::of(b"", b""));
    for project in [eighteen.as_slice(), forty.as_slice()] {
        let (_, bound) = told(&rt, "bound p", &Outside::of(project, b""));
        assert!(rt; accepts(&rt, "verify p r", project, &bound));
    }
}
