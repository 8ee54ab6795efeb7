//! Runs of the program over an outside in memory.

use project_net::print_project;
use sched_base::{Gate, MemShelf, MemSink, OpenGate};
use scheduler::{Status, run};
use std::alloc::{AllocError, Global};
use std::process::Abort;
use std::thread::Threads;
use worked_projects::{WorkedProject, build};

/// More bytes than any run of these tests writes.
const ROOM: usize = 4_194_304;

/// What a run meets outside.
#[derive(Clone, Copy)]
pub struct Outside<'a> {
    /// The text under the name `p`: a project.
    pub project: &'a [u8],
    /// The text under the name `r`: a report, or a bound.
    pub judged: &'a [u8],
    /// The calls of the shelf that fail, from 1.
    pub failing_reads: &'a [u64],
    /// The calls of the sink that fail, from 1.
    pub failing_writes: &'a [u64],
    /// How many bytes a read gives at most, and a write takes.
    pub step: usize,
}

impl<'a> Outside<'a> {
    /// A project and what is judged, where no call fails.
    pub fn of(project: &'a [u8], judged: &'a [u8]) -> Outside<'a> {
        Outside {
            project,
            judged,
            failing_reads: &[],
            failing_writes: &[],
            step: 65_536,
        }
    }
}

/// A name and a text.
fn named(alloc: Global, name: &str, text: &[u8]) -> Result<(String, Vec<u8>), AllocError> {
    let text = text.to_vec(alloc)?;
    Ok((String::from_str(alloc, name)?, text))
}

/// The shelf.
fn shelf_of(alloc: Global, outside: &Outside<'_>) -> Result<MemShelf, AllocError> {
    let mut texts = Vec::new(alloc);
    texts.push(named(alloc, "p", outside.project)?)?;
    texts.push(named(alloc, "r", outside.judged)?)?;
    let failing = outside.failing_reads.to_vec(alloc)?;
    Ok(MemShelf::new(texts, failing, outside.step.max(1)))
}

/// The words, from a text in which blanks separate them.
fn words_of(alloc: Global, text: &str) -> Result<Vec<String>, AllocError> {
    let mut words = Vec::new(alloc);
    for word in text.split_whitespace() {
        words.push(String::from_str(alloc, word)?)?;
    }
    Ok(words)
}

/// Runs the program on these words past a gate: its status, and what it writes.
pub fn told_past<R: Threads + Abort + Sync + AllocGlobal, G: Gate + Sync>(
    rt: &R,
    words: &str,
    outside: &Outside<'_>,
    gate: &G,
) -> (Status, Vec<u8>) {
    let words = words_of(rt.alloc(), words).expect(rt, "memory");
    let mut shelf = shelf_of(rt.alloc(), outside).expect(rt, "memory");
    let failing = outside
        .failing_writes
        .to_vec(rt.alloc())
        .expect(rt, "memory");
    let step = outside.step.max(1);
    let mut out = MemSink::new(rt.alloc(), ROOM, failing, step).expect(rt, "memory");
    let status = run(rt, rt.alloc(), &words, &mut shelf, &mut out, gate);
    let written = out.bytes().to_vec(rt.alloc()).expect(rt, "memory");
    (status, written)
}

/// Runs the program on these words: its status, and what it writes.
pub fn told<R: Threads + Abort + Sync + AllocGlobal>(
    rt: &R,
    words: &str,
    outside: &Outside<'_>,
) -> (Status, Vec<u8>) {
    told_past(rt, words, outside, &OpenGate)
}

/// Runs the program on these words, and compares its status and what it writes.
pub fn check<R: Threads + Abort + Sync + AllocGlobal>(
    rt: &R,
    words: &str,
    outside: &Outside<'_>,
    want: (Status, &str),
) {
    let (status, written) = told(rt, words, outside);
    assert_eq!(rt; status, want.0);
    assert_eq!(rt; written.as_slice(), want.1.as_bytes());
}

/// Checks the words that begin with a command on the project, and end with options.
pub fn check_with<R: Threads + Abort + Sync + AllocGlobal>(
    rt: &R,
    words: (&str, &str),
    project: &[u8],
    want: (Status, &str),
) {
    let (command, options) = words;
    let words = format!(in rt.alloc(); "{command} {options}").expect(rt, "memory");
    check(rt, words.as_str(), &Outside::of(project, b""), want);
}

/// The canonical text of a project.
pub fn text_of<R: Abort + AllocGlobal>(rt: &R, project: &WorkedProject) -> Vec<u8> {
    let project = build(rt.alloc(), project).expect(rt, "a project");
    print_project(rt.alloc(), &project).expect(rt, "memory")
}

/// The report that is printed of a project, by a search with these options.
pub fn report_of<R: Threads + Abort + Sync + AllocGlobal>(
    rt: &R,
    project: &[u8],
    options: &str,
) -> Vec<u8> {
    let words = format!(in rt.alloc(); "solve p {options}").expect(rt, "memory");
    let (_, report) = told(rt, words.as_str(), &Outside::of(project, b""));
    report
}

/// Whether the program, on these words, accepts what is under the name `r`.
pub fn accepts<R: Threads + Abort + Sync + AllocGlobal>(
    rt: &R,
    words: &str,
    project: &[u8],
    judged: &[u8],
) -> bool {
    let (status, _) = told(rt, words, &Outside::of(project, judged));
    status == Status::Done
}
