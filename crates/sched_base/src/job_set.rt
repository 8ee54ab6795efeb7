ghost use Rattle.std.specs.Prelude.{◌≡◌, ℕ, ◌-◌, ◌<◌, ◌≤◌, ◌==◌, ◌||◌, ◌↔◌, true, false, IsTrue, IfSome, IfNone, count_ones};

use crate::job::Job;

/// A set of the jobs 1 to 128: job j is bit j - 1.
#[derive(Clone, Copy, Debug, PartialEq, Eq)]
pub struct JobSet(pub u128);

impl JobSet {
    ghost use Rattle.sched_base.specs.JobSet.{member, IsNextMember};

    /// The set without a job.
    pub fn empty() -> JobSet
        ensures { (i : ℕ) → member result i ≡ false }
    {
        JobSet(0)
    }

    /// Whether the job is in the set.
    pub fn has(self, job: Job) -> bool
        requires low { 1 ≤ job.0 }
        requires high { job.0 ≤ 128 }
        ensures { result ≡ member self job.0 }
    {
        self.0 & (1 << (job.0 - 1)) != 0
    }

    /// The set with the job.
    pub fn with(self, job: Job) -> JobSet
        requires low { 1 ≤ job.0 }
        requires high { job.0 ≤ 128 }
        ensures { (i : ℕ) → 1 ≤ i → member result i ≡ (member self i || (i == job.0)) }
    {
        JobSet(self.0 | (1 << (job.0 - 1)))
    }

    /// The jobs of either set.
    pub fn union(self, other: JobSet) -> JobSet
        ensures { (i : ℕ) → member result i ≡ (member self i || member other i) }
    {
        JobSet(self.0 | other.0)
    }

    /// Whether the other set has each job of this one.
    pub fn is_within(self, other: JobSet) -> bool
        ensures { IsTrue result ↔ ((i : ℕ) → 1 ≤ i → member self i ≡ true → member other i ≡ true) }
    {
        self.union(other) == other
    }

    /// The lowest job of the set above a number up to 128, if it has one: from 0 on, each job of the set once, in order.
    pub fn next_after(self, above: u8) -> Option<Job>
        requires { above ≤ 128 }
        ensures some { IfSome result (λ job. IsNextMember self above job.0) }
        ensures high { IfSome result (λ job. job.0 ≤ 128) }
        ensures none { IfNone result ((i : ℕ) → above < i → member self i ≡ false) }
    {
        if above == 128 {
            return None;
        }
        let rest = self.0 >> above;
        if rest == 0 {
            return None;
        }
        Some(Job(above + 1 + rest.trailing_zeros() as u8))
    }

    /// How many jobs the set has.
    pub fn count(self) -> u32
        ensures { result ≡ count_ones self.0 }
    {
        self.0.count_ones()
    }
}
