//! What the layout has of a text, and the faults for which one is refused.

use psplib_layout::{Content, Fault, ReadError, Refusal, Source, read_content};
use std::alloc::{AllocError, Global};
use std::process::Abort;
use std::test::Fail;

const TEXT: &[u8] = b"************************************************************************
file with basedata            :  -
initial value random generator:  0
************************************************************************
projects                      :  1
jobs (incl. supersource/sink ):  4
horizon                       :  5
RESOURCES
  - renewable                 :  1   R
  - nonrenewable              :  0   N
  - doubly constrained        :  0   D
************************************************************************
PROJECT INFORMATION:
pronr.  #jobs rel.date duedate tardcost  MPM-Time
1 4 0 0 0 0
************************************************************************
PRECEDENCE RELATIONS:
jobnr.    #modes  #successors   successors
1 1 2 2 3
2 1 1 4
3 1 1 4
4 1 0
************************************************************************
REQUESTS/DURATIONS:
jobnr. mode duration R 1
------------------------------------------------------------------------
1 1 0 0
2 1 3 2
3 1 2 2
4 1 0 0
************************************************************************
RESOURCEAVAILABILITIES:
R 1
3
************************************************************************
";

/// Two modes, two kinds of resource, CR before each LF, a row that goes on, and a mark at the end.
const WRAPPED: &[u8] = b"****\r
projects :1 5\r
jobs:4\r
horizon:\r
RESOURCES\r
- renewable : 1 R\r
- nonrenewable : 1 N\r
- doubly constrained : 0 D\r
PROJECT INFORMATION:\r
PRECEDENCE RELATIONS:\r
jobnr.\r
1 1 2 2\r
      3\r
2 2 1 4\r
3 02 2 4 4\r
4 1 0\r
REQUESTS/DURATIONS:\r
jobnr.\r
1 1 0 0 0\r
2 1 2 1 3\r
  2 4 1 1\r
3 1 2 1 3 2 4\r
1 1\r
4 1 0 0 0\r
RESOURCEAVAILABILITIES:\r
R 1 N 1\r
2 4\r
\x1A";

/// The text with another line of this number, or without it.
fn edited(alloc: Global, line: usize, new: Option<&[u8]>) -> Result<Vec<u8>, AllocError> {
    let mut text = Vec::new(alloc);
    for (index, old) in TEXT.split(|byte| *byte == b'\n').enumerate() {
        let kept = if index == line.saturating_sub(1) {
            new
        } else {
            Some(old)
        };
        if let Some(bytes) = kept {
            text.extend_from_slice(bytes)?;
            text.push(b'\n')?;
        }
    }
    Ok(text)
}

fn refusal_of(alloc: Global, text: &[u8]) -> Option<Refusal> {
    match read_content(alloc, text) {
        Err(ReadError::Refused(refusal)) => Some(refusal),
        _ => None,
    }
}

/// A line of the text gives way to another, or goes: the fault, and its line.
type Edit = (usize, Option<&'static [u8]>, Fault, u32);

const REFUSALS: &[Edit] = &[
    (7, None, Fault::MissingPart, 7),
    (7, Some(b"horizon 5"), Fault::MissingPart, 7),
    (5, Some(b"projects"), Fault::MissingPart, 5),
    (6, Some(b"jobs : "), Fault::NotANumber, 6),
    (6, Some(b"jobs : 129"), Fault::OutOfLimit, 6),
    (6, Some(b"jobs : 0"), Fault::OutOfLimit, 6),
    (9, Some(b"- renewable : 17"), Fault::OutOfLimit, 9),
    (20, Some(b"2 1 x 4"), Fault::NotANumber, 20),
    (28, Some(b"2 1 10001 2"), Fault::OutOfLimit, 28),
    (
        28,
        Some(b"2 1 99999999999999999999999999 2"),
        Fault::OutOfLimit,
        28,
    ),
    (5, Some(b"projects : 2"), Fault::NotOneProject, 5),
    (
        11,
        Some(b"- doubly constrained : 1"),
        Fault::DoublyConstrained,
        11,
    ),
    (21, Some(b"4 1 1 4"), Fault::WrongJobNumber, 21),
    (28, Some(b"2 2 3 2"), Fault::WrongModeNumber, 28),
    (20, Some(b"2 0 1 4"), Fault::NoModes, 20),
    (20, Some(b"2 17 1 4"), Fault::OutOfLimit, 20),
    (20, Some(b"2 1 1 5"), Fault::SuccessorOutOfRange, 20),
    (20, Some(b"2 1 1 0"), Fault::SuccessorOutOfRange, 20),
    (20, Some(b"2 1 1 4 4"), Fault::WrongJobNumber, 20),
    (34, None, Fault::TextEnds, 36),
    (22, Some(b"4 1 0 7"), Fault::WordsLeft, 22),
    (22, Some(b"4 1 0\n7"), Fault::MissingPart, 23),
    (35, Some(b"more"), Fault::WordsLeft, 35),
    (17, Some(b"PRECEDENCE"), Fault::TextEnds, 37),
];

/// Compares what the text with an edit is refused for.
fn compare_refusal(rt: &impl Abort, alloc: Global, edit: &Edit) -> Result<(), AllocError> {
    let (line, new, fault, at) = *edit;
    let text = edited(alloc, line, new)?;
    let wanted = Refusal { fault, line: at };
    let found = refusal_of(alloc, &text);
    assert_eq!(rt; found, Some(wanted), "line {line}: {fault:?}");
    Ok(())
}

#[test]
fn refusals(rt: HostRuntime) -> Result<(), Fail> {
    for edit in REFUSALS {
        compare_refusal(&rt, rt.alloc(), edit)?;
    }
    Ok(())
}

#[test]
fn a_text_that_is_too_long(rt: HostRuntime) -> Result<(), Fail> {
    let blanks = vec![in rt.alloc(); b' '; 4_194_305]?;
    let long = Refusal {
        fault: Fault::TextTooLong,
        line: 0,
    };
    assert_eq!(rt; refusal_of(rt.alloc(), &blanks), Some(long));
    Ok(())
}

fn numbers_of(content: &Content, alloc: Global) -> Result<Vec<u32>, AllocError> {
    let mut numbers = Vec::new(alloc);
    numbers.push(content.header.jobs)?;
    for row in content.rows.as_slice() {
        numbers.push(row.modes)?;
        numbers.extend_from_slice(row.successors.as_slice())?;
    }
    for modes in content.modes.as_slice() {
        for mode in modes.as_slice() {
            numbers.push(mode.duration)?;
            numbers.extend_from_slice(mode.requests.as_slice())?;
            numbers.extend_from_slice(mode.needs.as_slice())?;
        }
    }
    numbers.extend_from_slice(content.amounts.capacities.as_slice())?;
    numbers.extend_from_slice(content.amounts.budgets.as_slice())?;
    Ok(numbers)
}

/// Texts with the numbers of their contents.
const CONTENTS: &[(&[u8], &[u32])] = &[
    (
        TEXT,
        &[4, 1, 2, 3, 1, 4, 1, 4, 1, 0, 0, 3, 2, 2, 2, 0, 0, 3],
    ),
    (
        WRAPPED,
        &[
            4, 1, 2, 3, 2, 4, 2, 4, 4, 1, 0, 0, 0, 2, 1, 3, 4, 1, 1, 2, 1, 3, 4, 1, 1, 0, 0, 0, 2,
            4,
        ],
    ),
];

/// Compares the numbers of what a text has.
fn compare_content<R: Abort + AllocGlobal>(
    rt: &R,
    text: &[u8],
    wanted: &[u32],
) -> Result<(), Fail> {
    let content = read_content(rt.alloc(), text)?;
    let numbers = numbers_of(&content, rt.alloc())?;
    assert_eq!(rt; numbers.as_slice(), wanted);
    Ok(())
}

#[test]
fn contents(rt: HostRuntime) -> Result<(), Fail> {
    for (text, wanted) in CONTENTS {
        compare_content(&rt, text, wanted)?;
    }
    Ok(())
}

#[test]
fn lines_of_jobs(rt: HostRuntime) -> Result<(), Fail> {
    let source = Source::new(rt.alloc(), WRAPPED)?;
    let content = source.content(rt.alloc())?;
    let lines = [12, 14, 15, 16];
    assert_eq!(rt; content.header.jobs, 4);
    for (index, line) in lines.iter().enumerate() {
        assert_eq!(rt; source.job_line(&content, index as u32 + 1)?, *line);
    }
    Ok(())
}

/// Texts that end too soon, and on which line.
const SHORT_TEXTS: &[(&[u8], u32)] = &[(b"", 1), (b"projects : 1", 1), (b"\nprojects : 1\n", 3)];

#[test]
fn short_texts(rt: HostRuntime) {
    for (text, line) in SHORT_TEXTS {
        let wanted = Refusal {
            fault: Fault::TextEnds,
            line: *line,
        };
        assert_eq!(rt; refusal_of(rt.alloc(), text), Some(wanted));
    }
}
