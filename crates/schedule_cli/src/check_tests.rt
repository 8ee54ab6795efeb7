//! Reports that are judged: those that the program prints, and those with an edit.

use crate::runs::{Outside, accepts, check, report_of, text_of};
use scheduler::Status;
use std::alloc::{AllocError, Global};
use std::process::Abort;
use std::thread::Threads;
use worked_projects::{
    AFTER_A_BREAK, EIGHTEEN_JOBS, EIGHTEEN_JOBS_TIGHT, LATE_BREAK, NEEDS_DIFFER, NO_LENGTH, TWINS,
    TWO_IN_TURN, WorkedProject,
};

/// An edit of a report: from a line on so many lines give way to another text. And the refusal: its line and its reason.
type Edit = (usize, usize, &'static str, (u32, u8));

/// A report, and edits of it.
struct Case {
    project: &'static WorkedProject,
    options: &'static str,
    edits: &'static [Edit],
}

/// A line that is a byte longer than any may be.
const DIGITS: &str = "01234567890123456789012345678901234567890123456789012345678901234\n";

const CASES: &[Case] = &[
    Case {
        project: &TWO_IN_TURN,
        options: "",
        edits: &[
            (9, 1, "log no\n", (9, 1)),
            (13, 1, "3 1 3 E\n", (14, 2)),
            (11, 1, "1 1 0 T\n", (11, 3)),
            (13, 1, "3 1 3 O 5\n", (13, 3)),
            (3, 2, "duration 4\nlower 4\n", (8, 4)),
            (7, 1, "job 3 1 2\n", (8, 4)),
            (4, 1, "lower 4\n", (4, 5)),
            (16, 1, "", (16, 7)),
            (17, 0, "end\n", (17, 8)),
        ],
    },
    Case {
        project: &TWO_IN_TURN,
        options: "nodes=0",
        edits: &[(4, 1, "lower 3\n", (4, 5)), (10, 1, "- - - O 3\n", (10, 3))],
    },
    Case {
        project: &TWINS,
        options: "",
        edits: &[
            (21, 1, "2 1 0 C 10\n", (21, 6)),
            (21, 1, "2 1 0 C 99\n", (21, 6)),
            (21, 1, "2 1 0 C 0\n", (21, 6)),
            (21, 1, "2 1 0 C 3\n", (21, 6)),
            (21, 1, "2 1 0 C 04\n", (21, 1)),
            (13, 0, "- - - E\n", (13, 2)),
            (2, 1, DIGITS, (2, 1)),
        ],
    },
    Case {
        project: &NO_LENGTH,
        options: "",
        edits: &[(16, 1, "5 1 3 E\n", (16, 3))],
    },
    Case {
        project: &NEEDS_DIFFER,
        options: "",
        edits: &[(28, 1, "2 2 0 C 4\n", (28, 6))],
    },
];

/// Where a line of a text begins, counted from 1; the end of the text where there are fewer lines.
pub fn begin_of(text: &[u8], line: usize) -> usize {
    let mut begin = 0;
    let mut number = 1;
    for (place, byte) in text.iter().enumerate() {
        if number < line && *byte == b'\n' {
            number += 1;
            begin = place + 1;
        }
    }
    if number < line { text.len() } else { begin }
}

/// The text with an edit.
fn edited(alloc: Global, text: &[u8], edit: &Edit) -> Result<Vec<u8>, AllocError> {
    let (from, gone, new, _) = *edit;
    let mut other = Vec::new(alloc);
    let begin = begin_of(text, from).min(text.len());
    let rest = begin_of(text, from.saturating_add(gone)).min(text.len());
    other.extend_from_slice(&text[..begin])?;
    other.extend_from_slice(new.as_bytes())?;
    other.extend_from_slice(&text[rest..])?;
    Ok(other)
}

/// Judges a report that comes in single bytes, and in large pieces.
fn check_report<R: Threads + Abort + Sync + AllocGlobal>(
    rt: &R,
    project: &[u8],
    report: &[u8],
    want: (Status, &str),
) {
    for step in [1, 65_536] {
        let outside = Outside {
            step,
            ..Outside::of(project, report)
        };
        check(rt, "check p r", &outside, want);
    }
}

/// Judges an edit of a report.
fn check_edit<R: Threads + Abort + Sync + AllocGlobal>(
    rt: &R,
    project: &[u8],
    report: &[u8],
    edit: &Edit,
) {
    let (line, reason) = edit.3;
    let other = edited(rt.alloc(), report, edit).expect(rt, "memory");
    let want = format!(in rt.alloc(); "report refused: line {line} reason {reason}\n").expect(
        rt, "memory",
    );
    check_report(rt, project, &other, (Status::ReportRefused, want.as_str()));
}

#[test]
fn edits_are_refused(rt: HostRuntime) {
    for case in CASES {
        let project = text_of(&rt, case.project);
        let report = report_of(&rt, &project, case.options);
        for edit in case.edits {
            check_edit(&rt, &project, &report, edit);
        }
    }
}

/// A project, the options of its search, and what is told of the report.
const ACCEPTED: &[(&WorkedProject, &str, &str)] = &[
    (&TWO_IN_TURN, "", "accepted optimal 5\n"),
    (&TWO_IN_TURN, "nodes=0", "accepted limit 4\n"),
    (&AFTER_A_BREAK, "", "accepted optimal 7\n"),
    (&AFTER_A_BREAK, "nodes=0", "accepted limit 5\n"),
    (&LATE_BREAK, "", "accepted optimal 6\n"),
    (&EIGHTEEN_JOBS, "", "accepted optimal 18\n"),
];

#[test]
fn reports_are_accepted(rt: HostRuntime) {
    for (worked, options, told) in ACCEPTED {
        let project = text_of(&rt, worked);
        let report = report_of(&rt, &project, options);
        check_report(&rt, &project, &report, (Status::Done, told));
    }
}

#[test]
fn reports_of_several_workers_are_accepted(rt: HostRuntime) {
    let project = text_of(&rt, &EIGHTEEN_JOBS_TIGHT);
    for options in [
        "nodes=5000 workers=1",
        "nodes=5000 workers=2",
        "nodes=5000 workers=8",
    ] {
        let report = report_of(&rt, &project, options);
        assert!(&rt; accepts(&rt, "check p r", &project, &report));
    }
}

/// The options of a search of two jobs in turn, and what is told of its report over a shelf whose sixth call fails: the second read
/// of the report.
const FAILING: &[(&str, Status, &str)] = &[
    ("", Status::ReadFault, ""),
    (
        "log=no",
        Status::ReportRefused,
        "report refused: line 9 reason 1\n",
    ),
];

#[test]
fn a_refused_report_is_not_read_on(rt: HostRuntime) {
    let project = text_of(&rt, &TWO_IN_TURN);
    for (options, status, told) in FAILING {
        let report = report_of(&rt, &project, options);
        let outside = Outside {
            failing_reads: &[6],
            ..Outside::of(&project, &report)
        };
        check(&rt, "check p r", &outside, (*status, told));
    }
}
