//! Projects that are worked out by hand, solved by one worker: the report, byte for byte.

use crate::runs::{Outside, check_with, text_of, told};
use scheduler::Status;
use worked_projects::{
    AFTER_A_BREAK, ALL_AT_ONCE, ASKS_TOO_MUCH, BUDGETS_ALONE, EIGHTEEN_JOBS, LATE_BREAK,
    LONGER_MODE, NEEDS_DIFFER, NO_LENGTH, ONE_LONG_JOB, SHORT_OR_CHEAP, THREE_IN_TURN, TWINS,
    TWO_IN_TURN, WorkedProject,
};

/// A project, the options behind `solve p`, and what comes of it.
struct Case {
    project: &'static WorkedProject,
    options: &'static str,
    status: Status,
    text: &'static str,
}

/// Two jobs that take no time, one after the other.
const TWO_IDLE: WorkedProject = WorkedProject {
    jobs: &[(&[(0, &[], &[])], &[2]), (&[(0, &[], &[])], &[])],
    capacities: &[],
    budgets: &[],
    calendar: &[],
};

/// Both short modes fit into the budget exactly.
const RICH: WorkedProject = WorkedProject {
    budgets: &[6],
    ..SHORT_OR_CHEAP
};

/// The budget pays for no schedule.
const POOR: WorkedProject = WorkedProject {
    budgets: &[1],
    ..SHORT_OR_CHEAP
};

const CASES: &[Case] = &[
    Case {
        project: &TWO_IN_TURN,
        options: "",
        status: Status::Done,
        text: "psplib-report 1\nverdict optimal\nduration 5\nlower 5\njob 1 1 0\njob 2 1 0\njob 3 1 3\njob 4 1 5\nlog yes\n- - - E\n1 1 0 E\n2 1 0 E\n3 1 3 T\n3 1 0 E\n2 1 2 T\nend\n",
    },
    Case {
        project: &TWO_IN_TURN,
        options: "log=no nodes=6 workers=1",
        status: Status::Done,
        text: "psplib-report 1\nverdict optimal\nduration 5\nlower 5\njob 1 1 0\njob 2 1 0\njob 3 1 3\njob 4 1 5\nlog no\nend\n",
    },
    Case {
        project: &ALL_AT_ONCE,
        options: "",
        status: Status::Done,
        text: "psplib-report 1\nverdict optimal\nduration 3\nlower 3\njob 1 1 0\njob 2 1 0\njob 3 1 0\njob 4 1 3\nlog yes\n- - - T\nend\n",
    },
    Case {
        project: &TWO_IN_TURN,
        options: "nodes=0",
        status: Status::Limit,
        text: "psplib-report 1\nverdict limit\nduration 5\nlower 4\njob 1 1 0\njob 2 1 0\njob 3 1 3\njob 4 1 5\nlog yes\n- - - O 4\nend\n",
    },
    Case {
        project: &TWO_IN_TURN,
        options: "nodes=3",
        status: Status::Limit,
        text: "psplib-report 1\nverdict limit\nduration 5\nlower 4\njob 1 1 0\njob 2 1 0\njob 3 1 3\njob 4 1 5\nlog yes\n- - - E\n1 1 0 E\n2 1 0 E\n3 1 3 T\n3 1 0 O 4\nend\n",
    },
    Case {
        project: &ASKS_TOO_MUCH,
        options: "",
        status: Status::Infeasible,
        text: "psplib-report 1\nverdict infeasible\nduration -\nlower -\nlog yes\n- - - E\n1 1 0 E\n2 1 - X 1\n3 1 0 E\n2 1 - X 1\nend\n",
    },
    Case {
        project: &SHORT_OR_CHEAP,
        options: "",
        status: Status::Done,
        text: "psplib-report 1\nverdict optimal\nduration 4\nlower 4\njob 1 1 0\njob 2 2 0\njob 3 2 0\njob 4 1 4\nlog yes\n- - - E\n1 1 0 E\n2 1 0 E\n3 1 - N 1\n3 2 0 T\n2 2 0 T\n3 1 0 E\n2 1 - N 1\n2 2 0 T\n3 2 0 T\nend\n",
    },
    Case {
        project: &RICH,
        options: "",
        status: Status::Done,
        text: "psplib-report 1\nverdict optimal\nduration 2\nlower 2\njob 1 1 0\njob 2 1 0\njob 3 1 0\njob 4 1 2\nlog yes\n- - - T\nend\n",
    },
    Case {
        project: &POOR,
        options: "",
        status: Status::Infeasible,
        text: "psplib-report 1\nverdict infeasible\nduration -\nlower -\nlog yes\n- - - N 1\nend\n",
    },
    Case {
        project: &TWO_IDLE,
        options: "",
        status: Status::Done,
        text: "psplib-report 1\nverdict optimal\nduration 0\nlower 0\njob 1 1 0\njob 2 1 0\nlog yes\n- - - T\nend\n",
    },
    Case {
        project: &ONE_LONG_JOB,
        options: "",
        status: Status::Done,
        text: "psplib-report 1\nverdict optimal\nduration 10000\nlower 10000\njob 1 1 0\nlog yes\n- - - T\nend\n",
    },
    Case {
        project: &NO_LENGTH,
        options: "",
        status: Status::Done,
        text: "psplib-report 1\nverdict optimal\nduration 5\nlower 5\njob 1 1 0\njob 2 1 0\njob 3 1 0\njob 4 1 0\njob 5 1 3\nlog yes\n- - - E\n3 1 0 E\n2 1 0 E\n1 1 0 E\n4 1 0 E\n5 1 3 L\n5 1 0 E\n4 1 2 L\n5 1 0 E\n1 1 0 C 7\n5 1 0 E\n2 1 0 C 9\n5 1 0 E\n3 1 0 C 11\nend\n",
    },
    Case {
        project: &TWINS,
        options: "",
        status: Status::Done,
        text: "psplib-report 1\nverdict optimal\nduration 6\nlower 6\njob 1 1 0\njob 2 1 0\njob 3 1 0\njob 4 1 1\njob 5 1 4\njob 6 1 6\nlog yes\n- - - E\n1 1 0 E\n2 1 0 E\n3 1 0 E\n4 1 1 E\n5 1 4 T\n5 1 1 E\n4 1 3 T\n3 1 0 E\n2 1 0 C 4\nend\n",
    },
    Case {
        project: &NEEDS_DIFFER,
        options: "",
        status: Status::Done,
        text: "psplib-report 1\nverdict optimal\nduration 6\nlower 6\njob 1 1 0\njob 2 1 0\njob 3 1 0\njob 4 1 1\njob 5 1 4\njob 6 1 6\nlog yes\n- - - E\n1 1 0 E\n2 1 0 E\n3 1 0 E\n4 1 1 E\n5 1 4 T\n5 1 1 E\n4 1 3 T\n2 2 0 E\n3 1 0 E\n4 1 1 E\n5 1 4 T\n5 1 1 E\n4 1 3 T\n3 1 0 E\n2 1 0 C 4\n2 2 0 C 10\nend\n",
    },
    Case {
        project: &THREE_IN_TURN,
        options: "",
        status: Status::Done,
        text: "psplib-report 1\nverdict optimal\nduration 6\nlower 6\njob 1 1 0\njob 2 1 0\njob 3 1 2\njob 4 1 4\njob 5 1 6\nlog yes\n- - - W 1\nend\n",
    },
    Case {
        project: &LONGER_MODE,
        options: "",
        status: Status::Done,
        text: "psplib-report 1\nverdict optimal\nduration 5\nlower 5\njob 1 1 0\njob 2 1 0\njob 3 1 3\njob 4 1 5\nlog yes\n- - - E\n1 1 0 E\n2 1 0 E\n3 1 3 T\n2 2 - M 1\n3 1 0 E\n2 1 2 T\n2 2 - M 1\nend\n",
    },
    Case {
        project: &BUDGETS_ALONE,
        options: "nodes=0",
        status: Status::Limit,
        text: "psplib-report 1\nverdict limit\nduration -\nlower 1\nlog yes\n- - - O 1\nend\n",
    },
    Case {
        project: &BUDGETS_ALONE,
        options: "log=yes",
        status: Status::Done,
        text: "psplib-report 1\nverdict optimal\nduration 1\nlower 1\njob 1 1 0\njob 2 2 0\nlog yes\n- - - E\n1 1 0 E\n2 1 - N 1\n2 2 0 L\n1 2 0 T\n2 1 0 T\n2 2 0 T\nend\n",
    },
    Case {
        project: &AFTER_A_BREAK,
        options: "nodes=0",
        status: Status::Limit,
        text: "psplib-report 1\nverdict limit\nduration 7\nlower 5\njob 1 1 0\njob 2 1 2\njob 3 1 5\njob 4 1 7\nlog yes\n- - - O 5\nend\n",
    },
    Case {
        project: &AFTER_A_BREAK,
        options: "",
        status: Status::Done,
        text: "psplib-report 1\nverdict optimal\nduration 7\nlower 7\njob 1 1 0\njob 2 1 2\njob 3 1 5\njob 4 1 7\nlog yes\n- - - E\n1 1 0 E\n2 1 2 E\n3 1 5 T\n3 1 2 E\n2 1 4 T\nend\n",
    },
    Case {
        project: &LATE_BREAK,
        options: "",
        status: Status::Done,
        text: "psplib-report 1\nverdict optimal\nduration 6\nlower 6\njob 1 1 3\nlog yes\n- - - E\n1 1 3 L\nend\n",
    },
];

#[test]
fn worked_projects_are_solved(rt: HostRuntime) {
    for case in CASES {
        let text = text_of(&rt, case.project);
        let words = ("solve p", case.options);
        check_with(&rt, words, &text, (case.status, case.text));
    }
}

#[test]
fn eighteen_jobs_are_solved_by_any_number_of_workers(rt: HostRuntime) {
    let want =
        "psplib-report 1\nverdict optimal\nduration 18\nlower 18\njob 1 1 0\njob 2 1 0\njob 3 1 0\njob 4 1 0\njob 5 1 3\njob 6 1 3\njob 7 1 4\njob 8 1 4\njob 9 1 5\njob 10 1 2\njob 11 1 7\njob 12 1 8\njob 13 1 9\njob 14 1 8\njob 15 1 12\njob 16 1 13\njob 17 1 10\njob 18 1 18\nlog yes\n- - - T\nend\n";
    let text = text_of(&rt, &EIGHTEEN_JOBS);
    for options in ["workers=1", "workers=2", "workers=8"] {
        check_with(&rt, ("solve p", options), &text, (Status::Done, want));
    }
}

/// What two workers may report of two jobs in turn after three expansions: either of the two is left.
const EITHER_LEFT: [&str; 2] = [
    "psplib-report 1\nverdict limit\nduration 5\nlower 4\njob 1 1 0\njob 2 1 0\njob 3 1 3\njob 4 1 5\nlog yes\n- - - E\n1 1 0 E\n2 1 0 E\n3 1 3 T\n3 1 0 O 4\nend\n",
    "psplib-report 1\nverdict limit\nduration 5\nlower 4\njob 1 1 0\njob 2 1 0\njob 3 1 3\njob 4 1 5\nlog yes\n- - - E\n1 1 0 E\n2 1 0 O 4\n3 1 0 E\n2 1 2 T\nend\n",
];

#[test]
fn two_workers_leave_one_of_two(rt: HostRuntime) {
    let text = text_of(&rt, &TWO_IN_TURN);
    let (status, report) = told(&rt, "solve p nodes=3 workers=2", &Outside::of(&text, b""));
    assert_eq!(rt; status, Status::Limit);
    let [first, second] = EITHER_LEFT;
    assert!(rt; report.as_slice() == first.as_bytes() || report.as_slice() == second.as_bytes());
}
