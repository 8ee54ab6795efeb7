use std::collections::LinkedList;

/// What a round begins with.
#[derive(Clone, Copy, Debug, PartialEq, Eq)]
pub struct RoundTerms {
    /// The best end before the round, in periods.
    pub start: u64,
    /// How many tickets its workers may win, at most 4,096.
    pub quota: u64,
    /// The greatest number of a worker, 1 to 32.
    pub workers: u64,
}

/// How often a worker has published. No value of it is ever made: contracts speak of it.
pub struct WorkerCount {
    /// The number of the worker; 0 is that of the pass that comes with the table, which publishes nothing.
    pub worker: u64,
    /// How often it has published.
    pub count: u64,
}

/// What a pass has seen and done. No value of it is ever made: contracts speak of it.
pub struct PassView {
    /// The number of its worker. The pass that comes with the table has the number 0.
    pub number: u64,
    /// What its round began with.
    pub terms: RoundTerms,
    /// The least best that it has seen, its own offers among them, in periods.
    pub least_seen: u64,
    /// The ends that it has offered, in periods.
    pub offers: LinkedList<u64>,
    /// How many tickets it has won.
    pub won: u64,
    /// How many tickets it was refused.
    pub refused: u64,
    /// Its own published count: how often it has published.
    pub own: u64,
    /// The published counts of the passes that were joined into it.
    pub joined_counts: LinkedList<WorkerCount>,
    /// The published counts that it has loaded, the latest first, and those that passes joined into it had.
    pub seen_counts: LinkedList<WorkerCount>,
    /// How many passes it stands for: itself, and those that were joined into it. A pass that was
    /// joined into another stands for none.
    pub passes: u64,
    /// The workers whose passes were split off it, the first one first.
    pub split_off: LinkedList<u64>,
}
