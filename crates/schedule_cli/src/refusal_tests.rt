//! The refusals of a project text, as the program tells them: a canonical text with one edit.

use crate::runs::{Outside, check};
use scheduler::Status;
use std::alloc::{AllocError, Global};

/// The canonical text of four jobs on one resource, without its last LF.
const CANONICAL: &str = "************************************************************************
file with basedata            :  -
initial value random generator:  0
************************************************************************
projects                      :  1
jobs (incl. supersource/sink ):  4
horizon                       :  5
RESOURCES
  - renewable                 :  1   R
  - nonrenewable              :  0   N
  - doubly constrained        :  0   D
************************************************************************
PROJECT INFORMATION:
pronr.  #jobs rel.date duedate tardcost  MPM-Time
1 4 0 0 0 0
************************************************************************
PRECEDENCE RELATIONS:
jobnr.    #modes  #successors   successors
1 1 2 2 3
2 1 1 4
3 1 1 4
4 1 0
************************************************************************
REQUESTS/DURATIONS:
jobnr. mode duration R 1
------------------------------------------------------------------------
1 1 0 0
2 1 3 2
3 1 2 2
4 1 0 0
************************************************************************
RESOURCEAVAILABILITIES:
R 1
3
************************************************************************";

/// How many lines the canonical text has.
const LINES: usize = 35;

/// The text keeps its lines before a number, gets new ones, and keeps its lines from a number on.
#[derive(Clone, Copy)]
struct Edit<'a> {
    before: usize,
    new: &'a str,
    from: usize,
}

/// Appends the lines of the canonical text from one index up to another.
fn append_lines(text: &mut String, from: usize, end: usize) -> Result<(), AllocError> {
    for (index, line) in CANONICAL.split('\n').enumerate() {
        if from <= index && index < end {
            text.push_str(line)?;
            text.push('\n')?;
        }
    }
    Ok(())
}

/// The canonical text with an edit.
fn edited(alloc: Global, edit: &Edit<'_>) -> Result<String, AllocError> {
    let mut text = String::new(alloc);
    append_lines(&mut text, 0, edit.before.saturating_sub(1))?;
    text.push_str(edit.new)?;
    append_lines(&mut text, edit.from.saturating_sub(1), LINES)?;
    Ok(text)
}

/// Edits of the canonical text, each with what is told of it.
const REFUSED: &[(Edit, &str)] = &[
    // a header line that is missing
    (
        Edit {
            before: 7,
            new: "",
            from: 8,
        },
        "bad project: code 2 line 7\n",
    ),
    // a word that is no number
    (
        Edit {
            before: 20,
            new: "2 1 x 4\n",
            from: 21,
        },
        "bad project: code 3 line 20\n",
    ),
    // a duration that is too long
    (
        Edit {
            before: 28,
            new: "2 1 10001 2\n",
            from: 29,
        },
        "bad project: code 4 line 28\n",
    ),
    // more jobs than there may be
    (
        Edit {
            before: 6,
            new: "jobs (incl. supersource/sink ):  129\n",
            from: 7,
        },
        "bad project: code 4 line 6\n",
    ),
    // two projects
    (
        Edit {
            before: 5,
            new: "projects                      :  2\n",
            from: 6,
        },
        "bad project: code 5 line 5\n",
    ),
    // a doubly constrained resource
    (
        Edit {
            before: 11,
            new: "  - doubly constrained        :  1   D\n",
            from: 12,
        },
        "bad project: code 6 line 11\n",
    ),
    // another job than the next
    (
        Edit {
            before: 21,
            new: "4 1 1 4\n",
            from: 22,
        },
        "bad project: code 7 line 21\n",
    ),
    // a word behind the successors
    (
        Edit {
            before: 20,
            new: "2 1 1 4 4\n",
            from: 21,
        },
        "bad project: code 7 line 20\n",
    ),
    // another mode than the next
    (
        Edit {
            before: 28,
            new: "2 2 3 2\n",
            from: 29,
        },
        "bad project: code 8 line 28\n",
    ),
    // a job without a mode
    (
        Edit {
            before: 20,
            new: "2 0 1 4\n",
            from: 21,
        },
        "bad project: code 9 line 20\n",
    ),
    // a successor that is no job
    (
        Edit {
            before: 20,
            new: "2 1 1 5\n",
            from: 21,
        },
        "bad project: code 10 line 20\n",
    ),
    // a cycle
    (
        Edit {
            before: 20,
            new: "2 1 2 3 4\n3 1 2 2 4\n",
            from: 22,
        },
        "bad project: code 11 line 20\n",
    ),
    // a text that ends before its modes
    (
        Edit {
            before: 25,
            new: "",
            from: 36,
        },
        "bad project: code 12 line 25\n",
    ),
    // a word behind the last job
    (
        Edit {
            before: 22,
            new: "4 1 0 9\n",
            from: 23,
        },
        "bad project: code 13 line 22\n",
    ),
    // a line behind the last part
    (
        Edit {
            before: 36,
            new: "x\n",
            from: 36,
        },
        "bad project: code 13 line 36\n",
    ),
];

#[test]
fn each_edit_is_refused(rt: HostRuntime) {
    for (edit, told) in REFUSED {
        let text = edited(rt.alloc(), edit).expect(&rt, "memory");
        let outside = Outside::of(text.as_bytes(), b"");
        check(&rt, "solve p", &outside, (Status::BadProject, told));
    }
}

#[test]
fn the_empty_text(rt: HostRuntime) {
    let want = (Status::BadProject, "bad project: code 12 line 1\n");
    check(&rt, "solve p", &Outside::of(b"", b""), want);
}

#[test]
fn a_text_that_is_too_long(rt: HostRuntime) {
    let text = vec![in rt.alloc(); b' '; 4_194_305].expect(&rt, "memory");
    let want = (Status::BadProject, "bad project: code 1 line 0\n");
    check(&rt, "solve p", &Outside::of(&text, b""), want);
}
