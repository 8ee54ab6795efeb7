//! Plans of projects that are worked out by hand, and searches that begin with plans from tries.

use crate::runs::{Outside, accepts, check_with, report_of, text_of, told};
use scheduler::Status;
use worked_projects::{
    AFTER_A_BREAK, ASKS_TOO_MUCH, BUDGETS_ALONE, EIGHTEEN_JOBS_TIGHT, TWO_IN_TURN, WorkedProject,
};

/// A project, the options behind `plan p`, and what comes of it.
struct Case {
    project: &'static WorkedProject,
    options: &'static str,
    status: Status,
    text: &'static str,
}

/// The first plan places job 3 beside job 2, so that job 4 waits for it and job 5 for both: it ends at 9. Passes back and forth put
/// jobs 3 and 5 behind job 4, side by side.
const SHORTENED: WorkedProject = WorkedProject {
    jobs: &[
        (&[(0, &[0], &[])], &[2, 3, 5]),
        (&[(1, &[1], &[])], &[4]),
        (&[(3, &[1], &[])], &[6]),
        (&[(3, &[2], &[])], &[6]),
        (&[(3, &[1], &[])], &[6]),
        (&[(0, &[0], &[])], &[]),
    ],
    capacities: &[2],
    budgets: &[],
    calendar: &[],
};

const CASES: &[Case] = &[
    Case {
        project: &SHORTENED,
        options: "",
        status: Status::Done,
        text: "duration 7\njob 1 1 0\njob 2 1 0\njob 3 1 4\njob 4 1 1\njob 5 1 4\njob 6 1 7\n",
    },
    Case {
        project: &TWO_IN_TURN,
        options: "",
        status: Status::Done,
        text: "duration 5\njob 1 1 0\njob 2 1 0\njob 3 1 3\njob 4 1 5\n",
    },
    Case {
        project: &TWO_IN_TURN,
        options: "tries=0",
        status: Status::Done,
        text: "duration 5\njob 1 1 0\njob 2 1 0\njob 3 1 3\njob 4 1 5\n",
    },
    Case {
        project: &AFTER_A_BREAK,
        options: "",
        status: Status::Done,
        text: "duration 7\njob 1 1 0\njob 2 1 2\njob 3 1 5\njob 4 1 7\n",
    },
    Case {
        project: &ASKS_TOO_MUCH,
        options: "",
        status: Status::Limit,
        text: "duration -\n",
    },
    Case {
        project: &ASKS_TOO_MUCH,
        options: "tries=20",
        status: Status::Limit,
        text: "duration -\n",
    },
    Case {
        project: &BUDGETS_ALONE,
        options: "",
        status: Status::Limit,
        text: "duration -\n",
    },
];

#[test]
fn worked_projects_are_planned(rt: HostRuntime) {
    for case in CASES {
        let text = text_of(&rt, case.project);
        let words = ("plan p", case.options);
        check_with(&rt, words, &text, (case.status, case.text));
    }
}

/// The plans of two jobs whose modes need one of two budgets each: the one mode for the one job, and the other for the other.
const EITHER_WAY: [&str; 2] = [
    "duration 1\njob 1 1 0\njob 2 2 0\n",
    "duration 1\njob 1 2 0\njob 2 1 0\n",
];

#[test]
fn tries_find_a_plan_where_there_is_no_first_one(rt: HostRuntime) {
    let project = text_of(&rt, &BUDGETS_ALONE);
    let (status, plan) = told(&rt, "plan p tries=100", &Outside::of(&project, b""));
    assert_eq!(rt; status, Status::Done);
    let [one, other] = EITHER_WAY;
    assert!(rt; plan.as_slice() == one.as_bytes() || plan.as_slice() == other.as_bytes());
}

#[test]
fn the_same_tries_make_the_same_plan(rt: HostRuntime) {
    let project = text_of(&rt, &EIGHTEEN_JOBS_TIGHT);
    let outside = Outside::of(&project, b"");
    let (status, first) = told(&rt, "plan p tries=100", &outside);
    assert_eq!(rt; status, Status::Done);
    let (_, again) = told(&rt, "plan p tries=100", &outside);
    assert_eq!(rt; again.as_slice(), first.as_slice());
}

#[test]
fn reports_of_searches_from_tries_are_accepted(rt: HostRuntime) {
    let project = text_of(&rt, &EIGHTEEN_JOBS_TIGHT);
    for options in ["tries=100 nodes=300", "nodes=300 workers=4 tries=100"] {
        let report = report_of(&rt, &project, options);
        assert!(rt; accepts(&rt, "check p r", &project, &report));
    }
}
