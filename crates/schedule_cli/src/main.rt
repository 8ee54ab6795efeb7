//! The program: it solves a project that is read from a file, and writes a report; it judges a report; it prints projects,
//! those that are read and those that are made; it makes plans; it shows lower bounds, and judges them; and it solves a made
//! project.
#![tactic(auto)]

#[cfg(test)]
mod bound_tests;
#[cfg(test)]
mod check_tests;
#[cfg(test)]
mod crew_tests;
mod file_shelf;
#[cfg(test)]
mod hostile_tests;
#[cfg(test)]
mod plan_tests;
#[cfg(test)]
mod print_tests;
mod progress;
#[cfg(test)]
mod refusal_tests;
#[cfg(test)]
mod runs;
#[cfg(test)]
mod solve_tests;
mod std_sink;
#[cfg(test)]
mod tests;
#[cfg(test)]
mod trial_tests;

use crate::file_shelf::FileShelf;
use crate::progress::Progress;
use crate::std_sink::StdSink;
use plan_words::{Command, parse_words};
use scheduler::{Status, run};
use std::alloc::{AllocError, Global};
use std::env::{Env, FillError};
use std::io::IsTerminal;
use std::process::ExitCode;
use std::rt::Files;
use std::thread::Threads;
use std::time::Clock;

/// What the program says on standard error where its words are no command.
const USAGE: &str =
    "usage: schedule_cli solve PROJECT [workers=W] [nodes=L] [log=yes|log=no] [tries=N]
       schedule_cli check PROJECT REPORT
       schedule_cli show PROJECT
       schedule_cli plan PROJECT [tries=N]
       schedule_cli bound PROJECT
       schedule_cli verify PROJECT BOUND
       schedule_cli make SEED JOBS [modes=M]
       schedule_cli trial SEED JOBS [modes=M] [workers=W] [nodes=L]
solve  searches for a shortest schedule of the project in a file, and writes a report
check  judges a report on the project; docs/FORMATS.md has a table of the reasons for which one is refused
show   writes the project in its canonical form
plan   writes a plan of the project, which need not be a shortest one
bound  writes a number of periods before which no schedule of the project ends, with the steps that show it
verify judges such a text
make   writes a project that is made from a seed: SEED 0 to 999999999, JOBS 3 to 128
trial  makes such a project, searches it, and writes the verdict alone
W      how many workers search, 1 to 32; 1 if left out
L      how many nodes they may expand, 0 to 100000; 50000 if left out
N      how many tries make the plan, or the plan that the search begins with, 0 to 1000000; 0 if left out
log    whether the report has the log of the search; yes if left out
M      how many modes a made job has, 1 to 4; 1 if left out
status 0 optimal, accepted or written; 1 infeasible; 2 the node limit, or no plan; 3 the report or the bound is refused;
       4 bad words; 5 bad project; 6 a read failed; 7 a write failed; 8 no memory";

/// The most bytes of a word that are asked for at first.
const USUAL_WORD: usize = 4_096;

/// A word of so many bytes at most, from the command line.
fn word_of(alloc: Global, bytes: &[u8]) -> Result<String, AllocError> {
    match str::from_utf8(bytes) {
        Ok(text) => String::from_str(alloc, text),
        Err(_) => Ok(String::new(alloc)),
    }
}

/// The word at a place of the command line, if there is one. One that is no text in UTF-8 is given as the empty word, which
/// can't stand anywhere.
fn word_at<R: Env + AllocGlobal>(rt: &R, place: usize) -> Result<Option<String>, AllocError> {
    let mut size = USUAL_WORD;
    for _ in 0..20 {
        let mut bytes = vec![in rt.alloc(); 0u8; size]?;
        match rt.arg(place, &mut bytes) {
            Ok(length) => return Ok(Some(word_of(rt.alloc(), &bytes[..length])?)),
            Err(FillError::NotPresent) => return Ok(None),
            Err(FillError::TooLong) => size *= 2,
        }
    }
    Err(AllocError)
}

/// The words after the program's name.
fn words_after_name<R: Env + AllocGlobal>(rt: &R) -> Result<Vec<String>, AllocError> {
    let mut words = Vec::new(rt.alloc());
    for place in 1..usize::MAX {
        match word_at(rt, place)? {
            Some(word) => words.push(word)?,
            None => break,
        }
    }
    Ok(words)
}

/// How many nodes the words allow a search to expand; none where they are no search.
fn nodes_of(words: &[String]) -> Option<u32> {
    match parse_words(words) {
        Ok(Command::Solve { request, .. }) => Some(request.nodes),
        Ok(Command::Trial { nodes, .. }) => Some(nodes),
        _ => None,
    }
}

/// Runs the program over files and the standard output. A person who watches is told how far a search is.
fn run_on_system<R: Files + Print + Eprint + Clock + Threads + Sync + AllocGlobal>(
    rt: &R,
    words: &[String],
    is_watched: bool,
) -> Status {
    let Ok(mut out) = StdSink::new(rt.alloc(), rt) else {
        return Status::NoMemory;
    };
    let mut shelf = FileShelf::new(rt);
    let nodes = if is_watched { nodes_of(words) } else { None };
    let gate = Progress::new(rt, nodes);
    let status = run(rt, rt.alloc(), words, &mut shelf, &mut out, &gate);
    gate.clear();
    status.after(out.hand_on())
}

fn main(rt: HostRuntime) -> ExitCode {
    let is_watched = rt.stderr().is_terminal();
    let status = match words_after_name(&rt) {
        Ok(words) => run_on_system(&rt, &words, is_watched),
        Err(AllocError) => Status::NoMemory,
    };
    if status == Status::BadWords {
        let _ = rt.eprintln(USAGE);
    }
    ExitCode::from(status.number())
}
