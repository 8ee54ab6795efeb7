//! Two workers, each held at some of its passes until the other has come far enough: both are at work at once, one takes a node
//! from the other, and one closes a node by a record of the other. And a crew of eight.

use crate::runs::{Outside, accepts, report_of, text_of, told, told_past};
use project_net::Project;
use proof_log::Verdict;
use sched_base::{Fate, Gate, NoMemory};
use scheduler::Status;
use search_rounds::Found;
use std::alloc::Global;
use std::process::Abort;
use std::sync::atomic::{AtomicU64, Ordering};
use std::test::Fail;
use std::thread::Threads;
use steal_rounds::search;
use worked_projects::{BUDGETS_ALONE, NO_LENGTH, TWO_IN_TURN, build};

/// A hold lasts so many turns at most.
const MOST_TURNS: u32 = 100_000_000;

/// A worker is held at a pass, counted from 1, until the other has entered a pass of its own.
struct Hold {
    worker: u32,
    pass: u64,
    others: u64,
}

/// A gate that holds two workers, and counts their passes.
#[derive(Drop)]
struct Holds {
    holds: &'static [Hold],
    first: AtomicU64,
    second: AtomicU64,
    run_out: AtomicU64,
}

impl Holds {
    fn new(holds: &'static [Hold]) -> Holds {
        Holds {
            holds,
            first: AtomicU64::new(0),
            second: AtomicU64::new(0),
            run_out: AtomicU64::new(0),
        }
    }

    /// Waits until the other worker has entered so many passes.
    fn wait(&self, other: &AtomicU64, passes: u64) {
        for _ in 0..MOST_TURNS {
            if other.load(Ordering::SeqCst) >= passes {
                return;
            }
        }
        self.run_out.fetch_add(1, Ordering::SeqCst);
    }

    /// Counts a pass of a worker, and holds it there where it is to be held.
    fn enter(&self, worker: u32, own: &AtomicU64, other: &AtomicU64) {
        let pass = own.fetch_add(1, Ordering::SeqCst).saturating_add(1);
        for hold in self.holds {
            if hold.worker == worker && hold.pass == pass {
                self.wait(other, hold.others);
            }
        }
    }

    /// No hold has run out.
    fn held(&self) -> bool {
        self.run_out.load(Ordering::SeqCst) == 0
    }
}

impl Gate for Holds {
    fn pass(&self, worker: u32) {
        if worker == 1 {
            self.enter(worker, &self.first, &self.second);
        } else {
            self.enter(worker, &self.second, &self.first);
        }
    }
}

/// Each worker is held at its first pass until the other has entered its own.
const MEETING: &[Hold] = &[
    Hold {
        worker: 1,
        pass: 1,
        others: 1,
    },
    Hold {
        worker: 2,
        pass: 1,
        others: 1,
    },
];

/// Worker 2 begins once worker 1 has expanded the root, and worker 1 goes on once worker 2 has expanded a node.
const STEALING: &[Hold] = &[
    Hold {
        worker: 2,
        pass: 1,
        others: 2,
    },
    Hold {
        worker: 1,
        pass: 2,
        others: 2,
    },
];

/// Worker 2 begins once worker 1 has expanded the root. Worker 1 goes on once worker 2 has expanded two nodes, and worker 2 once
/// worker 1 has expanded six more.
const CLOSING: &[Hold] = &[
    Hold {
        worker: 2,
        pass: 1,
        others: 2,
    },
    Hold {
        worker: 1,
        pass: 2,
        others: 3,
    },
    Hold {
        worker: 2,
        pass: 3,
        others: 8,
    },
];

#[test]
fn both_workers_enter(rt: HostRuntime) {
    let text = text_of(&rt, &TWO_IN_TURN);
    let gate = Holds::new(MEETING);
    let (status, _) = told_past(&rt, "solve p workers=2", &Outside::of(&text, b""), &gate);
    assert_eq!(rt; status, Status::Done);
    assert!(rt; gate.held());
    assert!(rt; gate.first.load(Ordering::SeqCst) > 0);
    assert!(rt; gate.second.load(Ordering::SeqCst) > 0);
}

/// The worker expanded a node.
fn has_expanded(found: &Found, worker: u32) -> bool {
    for (line, origin) in found.log.as_slice().iter().zip(found.origins.as_slice()) {
        if line.fate == Fate::Expanded && origin.worker == worker {
            return true;
        }
    }
    false
}

/// Searches a project of budgets alone by two workers, of whom the second has to take a node from the first.
fn search_stealing<R: Threads + Abort + Sync>(
    rt: &R,
    alloc: Global,
    project: &Project,
) -> Result<(), NoMemory> {
    let gate = Holds::new(STEALING);
    let ended = search(rt, alloc, project, 2, 100_000, &gate)?;
    let found = ended.tell(alloc)?;
    assert!(rt; gate.held());
    assert_eq!(rt; found.verdict, Verdict::Optimal { duration: 1 });
    assert!(rt; has_expanded(&found, 2));
    Ok(())
}

#[test]
fn a_node_is_stolen(rt: HostRuntime) -> Result<(), Fail> {
    let project = build(rt.alloc(), &BUDGETS_ALONE)?;
    Ok(search_stealing(&rt, rt.alloc(), &project)?)
}

#[test]
fn a_live_record_closes(rt: HostRuntime) {
    let want =
        "psplib-report 1\nverdict optimal\nduration 5\nlower 5\njob 1 1 0\njob 2 1 0\njob 3 1 0\njob 4 1 0\njob 5 1 3\nlog yes\n- - - E\n3 1 0 E\n2 1 0 E\n1 1 0 E\n4 1 0 E\n5 1 3 L\n5 1 0 E\n4 1 2 L\n5 1 0 E\n1 1 0 C 7\n5 1 0 C 13\n5 1 0 E\n3 1 0 E\n2 1 0 C 9\nend\n";
    let text = text_of(&rt, &NO_LENGTH);
    let gate = Holds::new(CLOSING);
    let (status, report) = told_past(&rt, "solve p workers=2", &Outside::of(&text, b""), &gate);
    assert!(rt; gate.held());
    assert_eq!(rt; status, Status::Done);
    assert_eq!(rt; report.as_slice(), want.as_bytes());
}

#[test]
fn a_report_of_eight_workers_is_accepted(rt: HostRuntime) {
    let (_, project) = told(&rt, "make 1 40", &Outside::of(b"", b""));
    let report = report_of(&rt, &project, "workers=8 nodes=2000");
    assert!(rt; accepts(&rt, "check p r", &project, &report));
}
