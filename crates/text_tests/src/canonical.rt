//! Worked projects: each is read from its text, and printed as its canonical text.

use project_net::print_project;
use psplib_reader::read_project;
use std::alloc::{AllocError, Global};
use std::process::Abort;

/// What the canonical texts of projects differ in.
#[derive(Clone, Copy)]
pub struct Worked<'a> {
    pub counts: (u8, u8, u8),
    pub horizon: u32,
    pub precedence: &'a str,
    pub heading: &'a str,
    pub modes: &'a str,
    pub amounts: &'a str,
    /// The number of rows of the calendar, and the rows; empty where there is none.
    pub calendar: &'a str,
}

const STARS: &str = "************************************************************************\n";

const HYPHENS: &str = "------------------------------------------------------------------------\n";

/// The header of a canonical text.
fn append_header(alloc: Global, text: &mut String, worked: &Worked<'_>) -> Result<(), AllocError> {
    let (jobs, renewables, nonrenewables) = worked.counts;
    let horizon = worked.horizon;
    text.push_str("file with basedata            :  -\ninitial value random generator:  0\n")?;
    text.push_str(STARS)?;
    let title = format!(in alloc;
        "projects                      :  1\njobs (incl. supersource/sink ):  {jobs}\nhorizon                       :  {horizon}\nRESOURCES\n"
    )?;
    text.push_str(title.as_str())?;
    let counts = format!(in alloc;
        "  - renewable                 :  {renewables}   R\n  - nonrenewable              :  {nonrenewables}   N\n"
    )?;
    text.push_str(counts.as_str())?;
    text.push_str("  - doubly constrained        :  0   D\n")?;
    text.push_str(STARS)?;
    let information = format!(in alloc;
        "PROJECT INFORMATION:\npronr.  #jobs rel.date duedate tardcost  MPM-Time\n1 {jobs} 0 0 0 0\n"
    )?;
    text.push_str(information.as_str())
}

/// The parts behind the header.
fn append_parts(text: &mut String, worked: &Worked<'_>) -> Result<(), AllocError> {
    text.push_str("PRECEDENCE RELATIONS:\njobnr.    #modes  #successors   successors\n")?;
    text.push_str(worked.precedence)?;
    text.push_str(STARS)?;
    text.push_str("REQUESTS/DURATIONS:\n")?;
    text.push_str(worked.heading)?;
    text.push_str("\n")?;
    text.push_str(HYPHENS)?;
    text.push_str(worked.modes)?;
    text.push_str(STARS)?;
    text.push_str("RESOURCEAVAILABILITIES:\n")?;
    text.push_str(worked.amounts)?;
    text.push_str(STARS)?;
    if !worked.calendar.is_empty() {
        text.push_str("CALENDAR:\nresource from to capacity\n")?;
        text.push_str(worked.calendar)?;
        text.push_str(STARS)?;
    }
    Ok(())
}

/// The canonical text of a project.
pub fn canonical_text(alloc: Global, worked: &Worked<'_>) -> Result<String, AllocError> {
    let mut text = String::from_str(alloc, STARS)?;
    append_header(alloc, &mut text, worked)?;
    text.push_str(STARS)?;
    append_parts(&mut text, worked)?;
    Ok(text)
}

/// Reads a project from its text, and compares its canonical text.
pub fn check_printed<R: Abort + AllocGlobal>(rt: &R, text: &[u8], canonical: &str) {
    let project = read_project(rt.alloc(), text).expect(rt, "a project");
    let printed = print_project(rt.alloc(), &project).expect(rt, "memory");
    assert_eq!(rt; printed.as_slice(), canonical.as_bytes());
}

/// A canonical text is read as the project that is printed as it.
pub fn check_canonical<R: Abort + AllocGlobal>(rt: &R, worked: &Worked<'_>) {
    let text = canonical_text(rt.alloc(), worked).expect(rt, "memory");
    check_printed(rt, text.as_bytes(), text.as_str());
}

/// Two jobs ask for one resource between a first and a last job.
pub const ONE_RESOURCE: Worked<'static> = Worked {
    counts: (4, 1, 0),
    horizon: 5,
    precedence: "1 1 2 2 3\n2 1 1 4\n3 1 1 4\n4 1 0\n",
    heading: "jobnr. mode duration R 1",
    modes: "1 1 0 0\n2 1 3 2\n3 1 2 2\n4 1 0 0\n",
    amounts: "R 1\n3\n",
    calendar: "",
};

/// Two of four jobs have two modes, and there is a budget.
const TWO_MODES: Worked<'static> = Worked {
    counts: (4, 1, 1),
    horizon: 8,
    precedence: "1 1 2 2 3\n2 2 1 4\n3 2 1 4\n4 1 0\n",
    heading: "jobnr. mode duration R 1 N 1",
    modes: "1 1 0 0 0\n2 1 2 1 3\n2 4 1 1\n3 1 2 1 3\n2 4 1 1\n4 1 0 0 0\n",
    amounts: "R 1 N 1\n2 4\n",
    calendar: "",
};

/// Three jobs of duration 2 stand side by side, and one can run at a time.
const THREE_SIDE_BY_SIDE: Worked<'static> = Worked {
    counts: (5, 1, 0),
    horizon: 6,
    precedence: "1 1 3 2 3 4\n2 1 1 5\n3 1 1 5\n4 1 1 5\n5 1 0\n",
    heading: "jobnr. mode duration R 1",
    modes: "1 1 0 0\n2 1 2 1\n3 1 2 1\n4 1 2 1\n5 1 0 0\n",
    amounts: "R 1\n1\n",
    calendar: "",
};

/// One of six jobs has two modes.
const ONE_CHOICE: Worked<'static> = Worked {
    counts: (6, 1, 1),
    horizon: 7,
    precedence: "1 1 2 2 3\n2 2 2 4 5\n3 1 2 4 5\n4 1 1 6\n5 1 1 6\n6 1 0\n",
    heading: "jobnr. mode duration R 1 N 1",
    modes: "1 1 0 0 0\n2 1 1 1 3\n2 1 2 1\n3 1 1 1 0\n4 1 3 2 0\n5 1 2 2 0\n6 1 0 0 0\n",
    amounts: "R 1 N 1\n3 10\n",
    calendar: "",
};

/// Two jobs that may change places come before two others.
const TWINS: Worked<'static> = Worked {
    counts: (6, 1, 0),
    horizon: 7,
    precedence: "1 1 2 2 3\n2 1 2 4 5\n3 1 2 4 5\n4 1 1 6\n5 1 1 6\n6 1 0\n",
    heading: "jobnr. mode duration R 1",
    modes: "1 1 0 0\n2 1 1 1\n3 1 1 1\n4 1 3 2\n5 1 2 2\n6 1 0 0\n",
    amounts: "R 1\n3\n",
    calendar: "",
};

/// Two jobs that wait for nothing need two nonrenewable resources.
const TWO_BUDGETS: Worked<'static> = Worked {
    counts: (2, 0, 2),
    horizon: 2,
    precedence: "1 2 0\n2 2 0\n",
    heading: "jobnr. mode duration N 1 N 2",
    modes: "1 1 1 3 0\n2 1 0 3\n2 1 1 3 0\n2 1 0 3\n",
    amounts: "N 1 N 2\n3 3\n",
    calendar: "",
};

/// Jobs come before jobs of lower numbers.
const LATER_FIRST: Worked<'static> = Worked {
    counts: (5, 1, 0),
    horizon: 5,
    precedence: "1 1 1 4\n2 1 1 1\n3 1 1 2\n4 1 0\n5 1 0\n",
    heading: "jobnr. mode duration R 1",
    modes: "1 1 0 0\n2 1 0 0\n3 1 0 0\n4 1 3 2\n5 1 2 2\n",
    amounts: "R 1\n3\n",
    calendar: "",
};

/// Two jobs of duration 0, and no resource.
const NO_RESOURCE: Worked<'static> = Worked {
    counts: (2, 0, 0),
    horizon: 0,
    precedence: "1 1 1 2\n2 1 0\n",
    heading: "jobnr. mode duration",
    modes: "1 1 0\n2 1 0\n",
    amounts: "",
    calendar: "",
};

/// As `ONE_RESOURCE`, with room for both jobs at once.
const ROOM_FOR_BOTH: Worked<'static> = Worked {
    amounts: "R 1\n4\n",
    ..ONE_RESOURCE
};

/// As `ONE_RESOURCE`, with a job that asks for more than there is.
const TOO_MUCH: Worked<'static> = Worked {
    modes: "1 1 0 0\n2 1 3 5\n3 1 2 2\n4 1 0 0\n",
    ..ONE_RESOURCE
};

/// As `TWO_MODES`, with a budget that no modes keep.
const TOO_SMALL_A_BUDGET: Worked<'static> = Worked {
    amounts: "R 1 N 1\n2 1\n",
    ..TWO_MODES
};

/// As `TWO_MODES`, with a budget that all modes keep.
const WHOLE_BUDGET: Worked<'static> = Worked {
    amounts: "R 1 N 1\n2 6\n",
    ..TWO_MODES
};

/// One job with the greatest numbers.
const GREATEST_NUMBERS: Worked<'static> = Worked {
    counts: (1, 1, 0),
    horizon: 10000,
    precedence: "1 1 0\n",
    heading: "jobnr. mode duration R 1",
    modes: "1 1 10000 1000000\n",
    amounts: "R 1\n1000000\n",
    calendar: "",
};

/// Eighteen jobs, most of them in a short and a cheap mode, with two resources of each kind.
const EIGHTEEN_JOBS: Worked<'static> = Worked {
    counts: (18, 2, 2),
    horizon: 95,
    precedence: "1 1 3 2 3 4
2 2 2 5 6
3 2 2 7 8
4 2 2 9 10
5 2 1 11
6 2 2 11 12
7 2 1 12
8 2 1 13
9 2 2 13 14
10 2 1 14
11 2 1 15
12 2 2 15 16
13 2 1 16
14 2 1 17
15 2 1 18
16 2 1 18
17 2 1 18
18 1 0
",
    heading: "jobnr. mode duration R 1 R 2 N 1 N 2",
    modes: "1 1 0 0 0 0 0
2 1 3 4 2 5 2
2 5 2 2 2 1
3 1 4 3 3 4 3
2 6 2 2 2 1
4 1 2 2 4 3 3
2 4 1 3 1 1
5 1 4 4 0 6 1
2 7 2 0 3 0
6 1 2 3 2 2 4
2 4 2 1 1 2
7 1 3 0 4 4 2
2 5 0 2 2 1
8 1 5 2 3 5 5
2 8 1 2 2 2
9 1 3 3 3 3 2
2 5 2 2 1 1
10 1 4 4 0 4 4
2 7 2 0 2 2
11 1 5 5 2 7 3
2 9 3 1 3 1
12 1 3 2 3 2 2
2 5 1 2 1 1
13 1 4 3 2 4 3
2 6 2 1 2 1
14 1 2 2 2 3 1
2 4 1 1 1 0
15 1 6 6 1 6 5
2 9 4 1 3 2
16 1 3 3 4 2 3
2 5 2 3 1 1
17 1 4 2 3 3 2
2 6 1 2 1 1
18 1 0 0 0 0 0
",
    amounts: "R 1 R 2 N 1 N 2\n14 10 70 45\n",
    calendar: "",
};

/// As `EIGHTEEN_JOBS`, with a smaller budget.
const SMALLER_BUDGET: Worked<'static> = Worked {
    amounts: "R 1 R 2 N 1 N 2\n14 10 70 30\n",
    ..EIGHTEEN_JOBS
};

/// A line for each of so many jobs, with its number and then the same words.
fn numbered(alloc: Global, jobs: u8, words: &str) -> Result<String, AllocError> {
    let mut lines = String::new(alloc);
    for before in 0..jobs {
        let job = before + 1;
        let line = format!(in alloc; "{job} {words}\n")?;
        lines.push_str(line.as_str())?;
    }
    Ok(lines)
}

/// The project `TWO_MODES` as the library's files have it, with LF for CR and LF.
const LIBRARY_TEXT: &str = "************************************************************************
file with basedata            : mm4_.bas
initial value random generator: 12345
************************************************************************
projects                      :  1
jobs (incl. supersource/sink ):  4
horizon                       :  8
RESOURCES
  - renewable                 :  1   R
  - nonrenewable              :  1   N
  - doubly constrained        :  0   D
************************************************************************
PROJECT INFORMATION:
pronr.  #jobs rel.date duedate tardcost  MPM-Time
    1      2      0        4        0        2
************************************************************************
PRECEDENCE RELATIONS:
jobnr.    #modes  #successors   successors
   1        1          2           2
                                   3
   2        2          1           4
   3        2          1           4
   4        1          0
************************************************************************
REQUESTS/DURATIONS:
jobnr. mode duration  R 1  N 1
------------------------------------------------------------------------
  1      1     0       0    0
  2      1     2       1    3
         2     4       1    1
  3      1     2       1    3
         2     4       1    1
  4      1     0       0    0
************************************************************************
RESOURCEAVAILABILITIES:
  R 1  N 1
    2    4
************************************************************************\n";

/// The text with CR before each LF, and the byte 0x1A behind all.
fn with_marks(alloc: Global, text: &str) -> Result<Vec<u8>, AllocError> {
    let mut marked = Vec::new(alloc);
    for byte in text.as_bytes() {
        if *byte == b'\n' {
            marked.push(b'\r')?;
        }
        marked.push(*byte)?;
    }
    marked.push(0x1A)?;
    Ok(marked)
}

#[test]
fn a_file_of_the_library_has_a_canonical_text(rt: HostRuntime) {
    let text = with_marks(rt.alloc(), LIBRARY_TEXT).expect(&rt, "memory");
    let canonical = canonical_text(rt.alloc(), &TWO_MODES).expect(&rt, "memory");
    check_printed(&rt, &text, canonical.as_str());
}

#[test]
fn canonical_texts_of_single_mode_projects_are_printed(rt: HostRuntime) {
    check_canonical(&rt, &ONE_RESOURCE);
    check_canonical(&rt, &THREE_SIDE_BY_SIDE);
    check_canonical(&rt, &TWINS);
    check_canonical(&rt, &LATER_FIRST);
    check_canonical(&rt, &NO_RESOURCE);
}

#[test]
fn canonical_texts_of_projects_with_modes_are_printed(rt: HostRuntime) {
    check_canonical(&rt, &TWO_MODES);
    check_canonical(&rt, &ONE_CHOICE);
    check_canonical(&rt, &TWO_BUDGETS);
}

#[test]
fn canonical_texts_of_other_amounts_are_printed(rt: HostRuntime) {
    check_canonical(&rt, &ROOM_FOR_BOTH);
    check_canonical(&rt, &TOO_MUCH);
    check_canonical(&rt, &TOO_SMALL_A_BUDGET);
    check_canonical(&rt, &WHOLE_BUDGET);
    check_canonical(&rt, &GREATEST_NUMBERS);
}

#[test]
fn canonical_texts_of_eighteen_jobs_are_printed(rt: HostRuntime) {
    check_canonical(&rt, &EIGHTEEN_JOBS);
    check_canonical(&rt, &SMALLER_BUDGET);
}

#[test]
fn the_canonical_text_of_the_most_jobs_is_printed(rt: HostRuntime) {
    let rows = numbered(rt.alloc(), 128, "1 0").expect(&rt, "memory");
    let worked = Worked {
        counts: (128, 0, 0),
        horizon: 0,
        precedence: rows.as_str(),
        heading: "jobnr. mode duration",
        modes: rows.as_str(),
        amounts: "",
        calendar: "",
    };
    check_canonical(&rt, &worked);
}
