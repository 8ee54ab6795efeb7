use sched_base::Gate;
use std::sync::atomic::{AtomicU64, Ordering};
use std::time::Clock;

/// A gate that holds nobody. Where a person watches, it counts who passes, and about once a second it says on one line of standard
/// error how far the search is.
#[derive(Drop)]
pub struct Progress<'r, R> {
    rt: &'r R,
    // How many nodes may be expanded; none where nobody watches.
    nodes: Option<u32>,
    passes: AtomicU64,
    // The moment at which the line was last written, or that at which the search began.
    told: AtomicU64,
    begun: u64,
}

/// So many milliseconds lie between two lines.
const BETWEEN: u64 = 1_000;

/// The moment of the clock, in milliseconds; 0 where it can't be read.
fn moment_of(clock: &impl Clock) -> u64 {
    match clock.monotonic() {
        Ok(time) => time
            .as_secs()
            .saturating_mul(1_000)
            .saturating_add(u64::from(time.subsec_millis())),
        Err(_) => 0,
    }
}

impl<'r, R: Clock + Eprint> Progress<'r, R> {
    /// The gate of a search that begins now, and may expand so many nodes where a person watches.
    pub fn new(rt: &'r R, nodes: Option<u32>) -> Progress<'r, R> {
        let begun = moment_of(rt);
        Progress {
            rt,
            nodes,
            passes: AtomicU64::new(0),
            told: AtomicU64::new(begun),
            begun,
        }
    }

    /// Whether the line is to be written: a second after the last time, by one of those who pass.
    fn is_due(&self) -> bool {
        let now = moment_of(self.rt);
        let last = self.told.load(Ordering::SeqCst);
        last.saturating_add(BETWEEN) <= now
            && self
                .told
                .compare_exchange(last, now, Ordering::SeqCst, Ordering::SeqCst)
                .is_ok()
    }

    /// Takes the line away, if it was written.
    pub fn clear(&self) {
        if self.told.load(Ordering::SeqCst) != self.begun {
            let _ = eprint!(self.rt; "\r\x1b[K");
        }
    }
}

impl<'r, R: Clock + Eprint> Gate for Progress<'r, R> {
    fn pass(&self, _worker: u32) {
        let Some(nodes) = self.nodes else {
            return;
        };
        let before = self.passes.fetch_add(1, Ordering::SeqCst);
        if self.is_due() {
            let _ = eprint!(self.rt; "\rabout {before} of {nodes} expansions\x1b[K");
        }
    }
}
