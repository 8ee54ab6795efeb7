//! Words, texts and faults, as the status tells them.

use crate::runs::{Outside, check, text_of};
use scheduler::Status;
use std::alloc::{AllocError, Global};
use worked_projects::TWO_IN_TURN;

/// A line for each of 128 jobs: what stands before its number, the number, and what stands behind it.
fn append_jobs(
    alloc: Global,
    text: &mut String,
    before: &str,
    behind: &str,
) -> Result<(), AllocError> {
    for done in 0..128u8 {
        let line = format!(in alloc; "{before}{}{behind}\n", done + 1)?;
        text.push_str(line.as_str())?;
    }
    Ok(())
}

/// The text of 128 jobs of duration 0.
fn many_jobs(alloc: Global) -> Result<String, AllocError> {
    let mut text = String::from_str(
        alloc,
        "projects: 1\njobs: 128\nhorizon: 0\nRESOURCES\n- renewable: 0\n- nonrenewable: 0\n- doubly constrained: 0\nPROJECT INFORMATION:\nPRECEDENCE RELATIONS:\njobnr.\n",
    )?;
    append_jobs(alloc, &mut text, "", " 1 0")?;
    text.push_str("REQUESTS/DURATIONS:\njobnr.\n")?;
    append_jobs(alloc, &mut text, "", " 1 0")?;
    text.push_str("RESOURCEAVAILABILITIES:\n")?;
    Ok(text)
}

/// The report on them.
fn empty_report(alloc: Global) -> Result<String, AllocError> {
    let mut text = String::from_str(
        alloc,
        "psplib-report 1\nverdict optimal\nduration 0\nlower 0\n",
    )?;
    append_jobs(alloc, &mut text, "job ", " 1 0")?;
    text.push_str("log no\nend\n")?;
    Ok(text)
}

#[test]
fn as_many_jobs_as_there_may_be_are_solved(rt: HostRuntime) {
    let text = many_jobs(rt.alloc()).expect(&rt, "memory");
    let want = empty_report(rt.alloc()).expect(&rt, "memory");
    let want = (Status::Done, want.as_str());
    check(
        &rt,
        "solve p log=no",
        &Outside::of(text.as_bytes(), b""),
        want,
    );
}

/// Words that are no command, and the place of the first that can't stand.
const REFUSED: &[(&str, u32)] = &[
    ("", 1),
    ("check p", 3),
    ("plan", 2),
    ("plan p tries=1000001", 3),
    ("solve p tries=1 log=no tries=1", 5),
];

#[test]
fn words_that_are_no_command_are_told(rt: HostRuntime) {
    for (words, place) in REFUSED {
        let want = format!(in rt.alloc(); "bad words: word {place}\n").expect(&rt, "memory");
        check(
            &rt,
            words,
            &Outside::of(b"", b""),
            (Status::BadWords, want.as_str()),
        );
    }
}

/// Words, the calls of the shelf and of the sink that fail, and what comes of it.
type Faulty = (
    &'static str,
    &'static [u64],
    &'static [u64],
    Status,
    &'static str,
);

const FAULTY: &[Faulty] = &[
    ("solve p", &[3], &[], Status::ReadFault, ""),
    ("solve q", &[], &[], Status::ReadFault, ""),
    (
        "solve p",
        &[],
        &[2],
        Status::WriteFault,
        "psplib-report 1\n",
    ),
    ("show p", &[3], &[], Status::ReadFault, ""),
    ("show p", &[], &[1], Status::WriteFault, ""),
    ("make 42 3", &[1], &[1], Status::WriteFault, ""),
];

#[test]
fn faults_are_told_by_the_status(rt: HostRuntime) {
    let text = text_of(&rt, &TWO_IN_TURN);
    for (words, reads, writes, status, written) in FAULTY {
        let outside = Outside {
            failing_reads: reads,
            failing_writes: writes,
            ..Outside::of(&text, b"")
        };
        check(&rt, words, &outside, (*status, written));
    }
}
