//! Words that are a command, and the first word that can't stand.

use plan_words::{BadWords, Command, Recipe, Request, parse_words};
use std::alloc::{AllocError, Global};

/// The words of a line, with one blank between two.
fn words_in(alloc: Global, line: &str) -> Result<Vec<String>, AllocError> {
    let mut words = Vec::new(alloc);
    if line.is_empty() {
        return Ok(words);
    }
    for word in line.split(' ') {
        words.push(String::from_str(alloc, word)?)?;
    }
    Ok(words)
}

/// Words that are a command.
const COMMANDS: &[(&str, Command)] = &[
    (
        "solve p",
        Command::Solve {
            project: "p",
            request: Request {
                workers: 1,
                nodes: 50_000,
                tries: 0,
                log: true,
            },
        },
    ),
    (
        "solve p tries=7 log=no nodes=0 workers=32",
        Command::Solve {
            project: "p",
            request: Request {
                workers: 32,
                nodes: 0,
                tries: 7,
                log: false,
            },
        },
    ),
    (
        "solve solve log=yes nodes=000100000",
        Command::Solve {
            project: "solve",
            request: Request {
                workers: 1,
                nodes: 100_000,
                tries: 0,
                log: true,
            },
        },
    ),
    (
        "check p r",
        Command::Check {
            project: "p",
            report: "r",
        },
    ),
    ("show log=no", Command::Show { project: "log=no" }),
    (
        "make 999999999 128",
        Command::Make(Recipe {
            seed: 999_999_999,
            jobs: 128,
            modes: 1,
        }),
    ),
    (
        "make 0 03 modes=4",
        Command::Make(Recipe {
            seed: 0,
            jobs: 3,
            modes: 4,
        }),
    ),
    (
        "trial 1 3",
        Command::Trial {
            recipe: Recipe {
                seed: 1,
                jobs: 3,
                modes: 1,
            },
            workers: 1,
            nodes: 50_000,
        },
    ),
    (
        "trial 1 3 workers=2 nodes=5 modes=2",
        Command::Trial {
            recipe: Recipe {
                seed: 1,
                jobs: 3,
                modes: 2,
            },
            workers: 2,
            nodes: 5,
        },
    ),
    (
        "plan p",
        Command::Plan {
            project: "p",
            tries: 0,
        },
    ),
    (
        "plan p tries=1000000",
        Command::Plan {
            project: "p",
            tries: 1_000_000,
        },
    ),
    ("bound p", Command::Bound { project: "p" }),
    (
        "verify p b",
        Command::Verify {
            project: "p",
            bound: "b",
        },
    ),
];

#[test]
fn words_that_are_a_command(rt: HostRuntime) {
    for (line, want) in COMMANDS {
        let words = words_in(rt.alloc(), line).expect(&rt, "memory");
        assert!(&rt; parse_words(words.as_slice()) == Ok(*want), "{line}");
    }
}

/// Words that are no command, and the place of the first that can't stand.
const REFUSED: &[(&str, u32)] = &[
    ("", 1),
    ("--help", 1),
    ("solve", 2),
    ("solve p log=NO", 3),
    ("solve p log=", 3),
    ("solve p workers=0", 3),
    ("solve p workers=33", 3),
    ("solve p workers=+1", 3),
    ("solve p nodes=100001", 3),
    ("solve p nodes=0000000001", 3),
    ("solve p modes=1", 3),
    ("solve p tries=1000001", 3),
    ("solve p log=yes log=yes", 4),
    ("solve p log=no log=yes", 4),
    ("solve p tries=1 tries=2", 4),
    ("solve p nodes=1 workers=2 nodes=1", 5),
    ("solve p nodes=1 workers=2 log=no log=no", 6),
    ("solve p q", 3),
    ("check", 2),
    ("check p", 3),
    ("check p r s", 4),
    ("check p r log=no", 4),
    ("show", 2),
    ("show p q", 3),
    ("make", 2),
    ("make x 3", 2),
    ("make -1 3", 2),
    ("make 1000000000 3", 2),
    ("make 1", 3),
    ("make 1 2", 3),
    ("make 1 129", 3),
    ("make 1 3 4", 4),
    ("make 1 3 modes=", 4),
    ("make 1 3 modes=0", 4),
    ("make 1 3 modes=5", 4),
    ("make 1 3 mode=2", 4),
    ("make 1 3 workers=2", 4),
    ("make 1 3 modes=2 modes=2", 5),
    ("make 1 3 modes=5 modes=2", 4),
    ("trial", 2),
    ("trial 1", 3),
    ("trial 1 2", 3),
    ("trial 1 3 log=no", 4),
    ("trial 1 3 workers=33", 4),
    ("trial 1 3 nodes=1 workers=2 modes=5", 6),
    ("trial 1 3 modes=1 nodes=1 modes=1", 6),
    ("trial 1 3 tries=1", 4),
    ("plan", 2),
    ("plan p nodes=1", 3),
    ("plan p tries=1 tries=1", 4),
    ("bound", 2),
    ("bound p tries=1", 3),
    ("verify p", 3),
    ("verify p b q", 4),
];

#[test]
fn words_that_are_none(rt: HostRuntime) {
    for (line, place) in REFUSED {
        let words = words_in(rt.alloc(), line).expect(&rt, "memory");
        let want = Err(BadWords { place: *place });
        assert!(&rt; parse_words(words.as_slice()) == want, "{line}");
    }
}
