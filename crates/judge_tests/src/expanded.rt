//! A log with as many expanded lines as there may be, and with one more.

use log_checker::{Checker, Refused};
use project_net::Project;
use std::alloc::{AllocError, Global};
use std::process::Abort;
use std::test::Fail;
use worked_projects::{DraftRow, WorkedProject, build};

/// A job of one period that asks for nothing.
const ALONE: DraftRow = (&[(1, &[], &[])], &[]);

/// How many of them there are.
const JOBS: u8 = 20;

/// Jobs in no order, so that each order of them is a path of the tree.
const SIDE_BY_SIDE: WorkedProject = WorkedProject {
    jobs: &[ALONE; 20],
    capacities: &[],
    budgets: &[],
    calendar: &[],
};

/// The lines before the log, of which there are 25.
const HEADING: &str = "psplib-report 1
verdict optimal
duration 1
lower 1
job 1 1 0
job 2 1 0
job 3 1 0
job 4 1 0
job 5 1 0
job 6 1 0
job 7 1 0
job 8 1 0
job 9 1 0
job 10 1 0
job 11 1 0
job 12 1 0
job 13 1 0
job 14 1 0
job 15 1 0
job 16 1 0
job 17 1 0
job 18 1 0
job 19 1 0
job 20 1 0
log yes
";

/// The lowest job from one on that isn't placed.
fn unplaced_from(placed: &[u8], first: u8) -> Option<u8> {
    for job in first..JOBS + 1 {
        if !placed.contains(&job) {
            return Some(job);
        }
    }
    None
}

/// Goes on to the next front of the tree: one job deeper, or else to the next sibling of the front or of one above it.
fn advance(placed: &mut Vec<u8>) -> Result<(), AllocError> {
    let mut first = 1;
    for _ in 0..JOBS + 1 {
        match unplaced_from(placed, first) {
            Some(job) => {
                placed.push(job)?;
                return Ok(());
            }
            None => match placed.pop() {
                Some(last) => first = last.saturating_add(1),
                None => return Ok(()),
            },
        }
    }
    Ok(())
}

/// The line of a front, which is expanded unless it has all jobs.
fn line_of(alloc: Global, placed: &[u8]) -> Result<String, AllocError> {
    match placed.last() {
        None => format!(in alloc; "- - - E\n"),
        Some(job) if placed.len() < JOBS as usize => format!(in alloc; "{job} 1 0 E\n"),
        Some(job) => format!(in alloc; "{job} 1 0 L\n"),
    }
}

/// Feeds a text in pieces of so many bytes.
fn feed(checker: &mut Checker<'_>, text: &str, size: usize) -> Result<(), Refused> {
    for piece in text.as_bytes().chunks(size.max(1)) {
        checker.feed(piece)?;
    }
    Ok(())
}

/// What came of the lines of a log, up to one that is refused.
#[derive(Debug, PartialEq, Eq, Drop)]
struct Fed {
    /// The line that was fed last, from the first of the report.
    line: u32,
    /// How many lines before it are expanded.
    expanded: u32,
    refusal: Option<Refused>,
}

/// Feeds the lines of the whole tree, from the root's on, in pieces of so many bytes, until one is refused.
fn feed_tree(alloc: Global, checker: &mut Checker<'_>, size: usize) -> Result<Fed, AllocError> {
    let mut placed = Vec::new(alloc);
    let mut expanded = 0u32;
    for line in 26..200_000 {
        let text = line_of(alloc, &placed)?;
        if let Err(refused) = feed(checker, &text, size) {
            return Ok(Fed {
                line,
                expanded,
                refusal: Some(refused),
            });
        }
        if placed.len() < JOBS as usize {
            expanded = expanded.saturating_add(1);
        }
        advance(&mut placed)?;
    }
    Ok(Fed {
        line: 200_000,
        expanded,
        refusal: None,
    })
}

/// 100,000 lines may be expanded, and the next is refused.
fn expand_too_many(
    rt: &impl Abort,
    alloc: Global,
    project: &Project,
    size: usize,
) -> Result<(), AllocError> {
    let mut checker = Checker::new(alloc, project);
    assert_eq!(rt; feed(&mut checker, HEADING, size), Ok(()));
    let fed = feed_tree(alloc, &mut checker, size)?;
    let expected = Fed {
        line: 158_215,
        expanded: 100_000,
        refusal: Some(Refused::Report {
            line: 158_215,
            reason: 9,
        }),
    };
    assert_eq!(rt; fed, expected);
    Ok(())
}

fn expand_by(rt: &impl Abort, alloc: Global, size: usize) -> Result<(), Fail> {
    let project = build(alloc, &SIDE_BY_SIDE)?;
    Ok(expand_too_many(rt, alloc, &project, size)?)
}

#[test]
fn too_many_expanded(rt: HostRuntime) -> Result<(), Fail> {
    expand_by(&rt, rt.alloc(), 64)
}

#[test]
fn too_many_expanded_by_bytes(rt: HostRuntime) -> Result<(), Fail> {
    expand_by(&rt, rt.alloc(), 1)
}
