//! Reports on small projects: those that hold, by hand, and what edits of them break first.

use log_checker::{Checker, Refused};
use project_net::Project;
use rcpsp_model::Verdict;
use std::alloc::{AllocError, Global};
use std::process::Abort;
use std::test::Fail;
use worked_projects::{NEEDS_DIFFER, TWINS, TWO_IN_TURN, build};

/// A report that holds, and what its verdict is.
struct Worked {
    report: &'static str,
    verdict: Verdict,
}

/// On the twins.
const ALIKE: Worked = Worked {
    verdict: Verdict::Optimal { duration: 6 },
    report: "psplib-report 1
verdict optimal
duration 6
lower 6
job 1 1 0
job 2 1 0
job 3 1 0
job 4 1 1
job 5 1 4
job 6 1 6
log yes
- - - E
1 1 0 E
2 1 0 E
3 1 0 E
4 1 1 E
5 1 4 T
5 1 1 E
4 1 3 T
3 1 0 E
2 1 0 C 4
end",
};

/// On two jobs, one after the other.
const IN_TURN: Worked = Worked {
    verdict: Verdict::Optimal { duration: 5 },
    report: "psplib-report 1
verdict optimal
duration 5
lower 5
job 1 1 0
job 2 1 0
job 3 1 3
job 4 1 5
log yes
- - - E
1 1 0 E
2 1 0 E
3 1 3 T
3 1 0 E
2 1 2 T
end",
};

/// On the same jobs, where nothing may be expanded.
const LEFT_AT_ONCE: Worked = Worked {
    verdict: Verdict::Limit {
        duration: Some(5),
        lower: 4,
    },
    report: "psplib-report 1
verdict limit
duration 5
lower 4
job 1 1 0
job 2 1 0
job 3 1 3
job 4 1 5
log yes
- - - O 4
end",
};

/// On the twins of which one has two modes.
const TWO_MODES: Worked = Worked {
    verdict: Verdict::Optimal { duration: 6 },
    report: "psplib-report 1
verdict optimal
duration 6
lower 6
job 1 1 0
job 2 1 0
job 3 1 0
job 4 1 1
job 5 1 4
job 6 1 6
log yes
- - - E
1 1 0 E
2 1 0 E
3 1 0 E
4 1 1 E
5 1 4 T
5 1 1 E
4 1 3 T
2 2 0 E
3 1 0 E
4 1 1 E
5 1 4 T
5 1 1 E
4 1 3 T
3 1 0 E
2 1 0 C 4
2 2 0 C 10
end",
};

/// An edit: from which line on how many lines give way to which others; and the refusal, if there is one.
type Edit = (usize, usize, &'static [&'static str], Option<(u32, u8)>);

const ALIKE_EDITS: &[Edit] = &[
    (23, 0, &[], None),
    // Line 4 of the log cites a later one.
    (
        15,
        7,
        &[
            "3 1 0 C 6",
            "3 1 0 E",
            "2 1 0 E",
            "4 1 1 E",
            "5 1 4 T",
            "5 1 1 E",
            "4 1 3 T",
        ],
        None,
    ),
    (1, 1, &["psplib-report 2"], Some((1, 1))),
    (4, 1, &["lower 5"], Some((4, 5))),
    (9, 1, &["job 5 1 3"], Some((10, 4))),
    (12, 0, &["- - - E"], Some((13, 2))),
    (17, 1, &["5 1 4 E"], Some((18, 2))),
    (16, 1, &["4 1 1 T"], Some((16, 3))),
    (21, 1, &["2 1 0 C 10"], Some((21, 6))),
    (21, 1, &["2 1 0 C 3"], Some((21, 6))),
    (21, 1, &[], Some((21, 2))),
    (22, 1, &[], Some((22, 7))),
    (22, 0, &["5 1 4 T"], Some((22, 8))),
    (23, 0, &["end"], Some((23, 8))),
];

const IN_TURN_EDITS: &[Edit] = &[
    (17, 0, &[], None),
    (9, 1, &["log no"], Some((9, 1))),
    (13, 1, &["3 1 3 E"], Some((14, 2))),
    (11, 1, &["1 1 0 T"], Some((11, 3))),
    (13, 1, &["3 1 3 O 5"], Some((13, 3))),
    (3, 2, &["duration 4", "lower 4"], Some((8, 4))),
    (7, 1, &["job 3 1 2"], Some((8, 4))),
    (4, 1, &["lower 4"], Some((4, 5))),
    (16, 1, &[], Some((16, 7))),
    (17, 0, &["end"], Some((17, 8))),
];

const LEFT_AT_ONCE_EDITS: &[Edit] = &[
    (12, 0, &[], None),
    (4, 1, &["lower 3"], Some((4, 5))),
    (10, 1, &["- - - O 3"], Some((10, 3))),
];

const TWO_MODES_EDITS: &[Edit] = &[
    (30, 0, &[], None),
    // Of the cited front only the used need is greater.
    (28, 1, &["2 2 0 C 4"], Some((28, 6))),
];

fn append_lines(text: &mut Vec<u8>, lines: &[&str]) -> Result<(), AllocError> {
    for line in lines {
        text.extend_from_slice(line.as_bytes())?;
        text.push(b'\n')?;
    }
    Ok(())
}

/// The text of a report with an edit, which may come after its last line.
fn edited(alloc: Global, report: &str, edit: &Edit) -> Result<Vec<u8>, AllocError> {
    let (from, gone, new, _) = *edit;
    let mut text = Vec::new(alloc);
    let mut number = 0;
    for (index, line) in report.split('\n').enumerate() {
        number = index + 1;
        if number == from {
            append_lines(&mut text, new)?;
        }
        if number < from || from.saturating_add(gone) <= number {
            append_lines(&mut text, &[line])?;
        }
    }
    if number < from {
        append_lines(&mut text, new)?;
    }
    Ok(text)
}

/// What a checker says of a text that comes in pieces of so many bytes.
fn judged(alloc: Global, project: &Project, text: &[u8], size: usize) -> Result<Verdict, Refused> {
    let mut checker = Checker::new(alloc, project);
    for piece in text.chunks(size.max(1)) {
        let _ = checker.feed(piece);
    }
    checker.finish()
}

/// Tries an edit of a report, whole and in single bytes.
fn try_edit(
    rt: &impl Abort,
    alloc: Global,
    project: &Project,
    worked: &Worked,
    edit: &Edit,
) -> Result<(), AllocError> {
    let expected = match edit.3 {
        Some((line, reason)) => Err(Refused::Report { line, reason }),
        None => Ok(worked.verdict),
    };
    let text = edited(alloc, worked.report, edit)?;
    for size in [text.len(), 1] {
        assert_eq!(rt; judged(alloc, project, &text, size), expected);
    }
    Ok(())
}

fn try_edits(
    rt: &impl Abort,
    alloc: Global,
    project: &Project,
    worked: &Worked,
    edits: &[Edit],
) -> Result<(), AllocError> {
    for edit in edits {
        try_edit(rt, alloc, project, worked, edit)?;
    }
    Ok(())
}

#[test]
fn reports_on_twins(rt: HostRuntime) -> Result<(), Fail> {
    let project = build(rt.alloc(), &TWINS)?;
    Ok(try_edits(&rt, rt.alloc(), &project, &ALIKE, ALIKE_EDITS)?)
}

#[test]
fn reports_on_two_in_turn(rt: HostRuntime) -> Result<(), Fail> {
    let project = build(rt.alloc(), &TWO_IN_TURN)?;
    Ok(try_edits(&rt, rt.alloc(), &project, &IN_TURN, IN_TURN_EDITS)?)
}

#[test]
fn reports_of_what_is_left(rt: HostRuntime) -> Result<(), Fail> {
    let project = build(rt.alloc(), &TWO_IN_TURN)?;
    Ok(try_edits(&rt, rt.alloc(), &project, &LEFT_AT_ONCE, LEFT_AT_ONCE_EDITS)?)
}

#[test]
fn reports_on_needs(rt: HostRuntime) -> Result<(), Fail> {
    let project = build(rt.alloc(), &NEEDS_DIFFER)?;
    Ok(try_edits(&rt, rt.alloc(), &project, &TWO_MODES, TWO_MODES_EDITS)?)
}
