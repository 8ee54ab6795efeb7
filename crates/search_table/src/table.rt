ghost use Rattle.std.specs.Prelude.{◌≡◌, ◌≢◌, ℕ, ◌+◌, ◌*◌, ◌<◌, ◌≤◌, [], length, min, IfOk};
ghost use Rattle.atomic_table.specs.Seated.{TableId};
ghost use Rattle.search_table.specs.Lists.{Lacks, least};
ghost use Rattle.search_table.specs.Counts.{made_by, seen_of};
ghost use Rattle.search_table.specs.Passes.{IsLive};
ghost use Rattle.search_table.specs.Views.{first_view, with_best, with_offer, with_publication, with_count, with_worker, worker_view, joint_view};

use crate::pass::Pass;
use crate::rule::{
    DrawTicket, JoinPasses, LoadBest, LoadCount, NextWorker, OfferEnd, PublishOne, RoundRule,
    SplitWorker,
};
use crate::view::{PassView, RoundTerms};
use atomic_table::{Seat, Table};
use sched_base::NoMemory;
use std::alloc::Global;
use std::marker::{Brand, Model};

type Words = Table<(), PassView, RoundTerms, RoundRule, Global>;

/// The place of the best among the words.
const BEST: usize = 0;

/// The place of the tickets.
const TICKETS: usize = 8;

/// How many words there are at most: eight for each that changes, which are the best, the tickets and a count for each
/// worker, so that no two of them lie within 64 bytes and a step on one doesn't slow those on others.
const MOST_WORDS: usize = 272;

/// The best end, the tickets and the published counts of one round. Its workers share it by reference.
#[derive(Drop)]
pub struct RoundTable {
    words: Words,
}

impl Model for RoundTable {
    ghost Value = { TableId };

    ghost view = { λ t. t.words.shared.table_id };

    ghost invariant = { λ t. t.words.shared.table_id.slots ≡ 0 };
}

/// The answer to a draw.
#[derive(Clone, Copy, Debug, PartialEq, Eq)]
pub enum Draw {
    /// A ticket of the quota.
    Ticket,
    /// The quota was spent. So many tickets had been drawn before, at least the quota.
    Spent(u64),
}

/// What a round ends with.
#[derive(Clone, Copy, Debug, PartialEq, Eq)]
pub struct RoundEnd {
    /// The least of the start value and of all ends that were offered, in periods.
    pub best: u64,
    /// How many tickets were drawn, those that were refused among them.
    pub tickets: u64,
}

impl RoundTable {
    ghost use Rattle.search_table.specs.Drawn.{Drawn};

    /// A table whose best is the given one, in periods, from which no ticket was drawn and where nobody has published,
    /// and the pass of number 0.
    ///
    /// `workers` is 1 to 32, and the quota at most 4,096. Only want of memory is an error.
    pub fn new(
        alloc: Global,
        best: u64,
        quota: u64,
        workers: u32,
    ) -> Result<(RoundTable, Pass), NoMemory>
        requires low { 1 ≤ workers }
        requires high { workers ≤ 32 }
        requires quota { quota ≤ 4096 }
        ensures table { IfOk result (λ p. p.1.table ≡ p.0) }
        ensures view { IfOk result (λ p. p.1.view
            ≡ first_view (record { start = best; quota = quota; workers = workers })) }
    {
        let terms = RoundTerms {
            start: best,
            quota,
            workers: workers as u64,
        };
        let mut first = [0; MOST_WORDS];
        first[BEST] = best;
        let count = 16 + 8 * workers as usize;
        let (words, seat) = Words::of_words(alloc, &first[..count], &terms)?;
        let pass = Pass {
            number: 0,
            terms,
            own: 0,
            seat,
        };
        Ok((RoundTable { words }, pass))
    }

    /// A pass for a worker, which has seen what the first one has and has done nothing.
    ///
    /// The first one is the pass of number 0, and has not split off that worker before.
    pub fn split(&self, pass: &mut Pass, worker: u32) -> Pass
        requires table { pass.old.table ≡ self.now }
        requires first { pass.old.view.number ≡ 0 }
        requires low { 1 ≤ worker }
        requires high { worker ≤ pass.old.view.terms.workers }
        requires once { Lacks pass.old.view.split_off worker }
        ensures table { pass.new.table ≡ pass.old.table }
        ensures view { pass.new.view ≡ with_worker worker pass.old.view }
        ensures split_table { result.table ≡ pass.old.table }
        ensures split_view { result.view ≡ worker_view worker pass.old.view }
    {
        let seat = split_seat_for::<Brand>(&self.words, &mut pass.seat, worker as u64);
        Pass {
            number: worker,
            terms: pass.terms,
            own: 0,
            seat,
        }
    }

    /// Puts all that the other pass has seen and done into this one.
    pub fn join(&self, into: &mut Pass, other: Pass)
        requires table { into.old.table ≡ self.now }
        requires other { other.table ≡ self.now }
        ensures table { into.new.table ≡ into.old.table }
        ensures view { into.new.view ≡ joint_view into.old.view other.view }
    {
        let shared = &self.words.shared;
        let other_seat = other.into_seat();
        shared.join_seat::<JoinPasses>(&mut into.seat, other_seat);
    }

    /// The best at this step, in periods: at most all that the pass had seen or offered.
    pub fn best(&self, pass: &mut Pass) -> u64
        requires { pass.old.table ≡ self.now }
        ensures table { pass.new.table ≡ pass.old.table }
        ensures view { pass.new.view ≡ with_best result pass.old.view }

        ensures seen { result ≤ pass.old.view.least_seen }
        ensures offered { result ≤ least pass.old.view.terms.start pass.old.view.offers }
    {
        self.words.shared.load::<LoadBest>(&mut pass.seat, BEST)
    }

    /// Lowers the best to `end`, in periods, where that is less, and gives the best before it, all in one step.
    pub fn offer(&self, pass: &mut Pass, end: u64) -> u64
        requires { pass.old.table ≡ self.now }
        ensures table { pass.new.table ≡ pass.old.table }
        ensures view { pass.new.view ≡ with_offer end result pass.old.view }

        ensures seen { result ≤ pass.old.view.least_seen }
        ensures offered { result ≤ least pass.old.view.terms.start pass.old.view.offers }
    {
        let shared = &self.words.shared;
        shared.fetch_min::<OfferEnd>(&mut pass.seat, BEST, end)
    }

    /// Draws a ticket, in one step.
    ///
    /// A pass that was refused a ticket draws no more.
    pub fn draw(&self, pass: &mut Pass) -> Draw
        requires table { pass.old.table ≡ self.now }
        requires unrefused { pass.old.view.refused ≡ 0 }
        ensures table { pass.new.table ≡ pass.old.table }
        ensures drawn { Drawn pass.old.view pass.new.view result }
        ensures within { pass.new.view.won ≤ pass.new.view.terms.quota }
    {
        let shared = &self.words.shared;
        let drawn = shared.fetch_add::<DrawTicket>(&mut pass.seat, TICKETS, 1);
        if drawn < pass.terms.quota {
            Draw::Ticket
        } else {
            Draw::Spent(drawn)
        }
    }

    /// Raises the pass's own published count by one, and gives the count before, in one step.
    ///
    /// The pass is a worker's, and has published less than 4,294,967,295 times.
    pub fn publish(&self, pass: &mut Pass) -> u64
        requires table { pass.old.table ≡ self.now }
        requires worker { 1 ≤ pass.old.view.number }
        requires room { pass.old.view.own < 4294967295 }
        ensures table { pass.new.table ≡ pass.old.table }
        ensures view { pass.new.view ≡ with_publication pass.old.view }
        ensures own { result ≡ pass.old.view.own }
    {
        let shared = &self.words.shared;
        let place = count_place(pass.number);
        let before = shared.fetch_add::<PublishOne>(&mut pass.seat, place, 1);
        pass.own += 1;
        before
    }

    /// The published count of a worker at this step: at least all that the pass had seen of it.
    pub fn published(&self, pass: &mut Pass, worker: u32) -> u64
        requires table { pass.old.table ≡ self.now }
        requires low { 1 ≤ worker }
        requires high { worker ≤ pass.old.view.terms.workers }
        ensures table { pass.new.table ≡ pass.old.table }
        ensures view { pass.new.view ≡ with_count worker result pass.old.view }

        ensures no_less { seen_of worker pass.old.view ≤ result }
        ensures greatest { seen_of worker pass.new.view ≡ result }
        ensures others { (other : ℕ) → other ≢ worker → seen_of other pass.new.view ≡ seen_of other pass.old.view }
    {
        let shared = &self.words.shared;
        let place = count_place(worker);
        shared.load::<LoadCount>(&mut pass.seat, place)
    }

    /// Ends the round, once each pass that was split off has been joined into the pass of number 0.
    pub fn close_with(self, pass: Pass) -> RoundEnd
        requires table { pass.table ≡ self }
        requires first { pass.view.number ≡ 0 }
        requires all { pass.view.passes ≡ 1 + length pass.view.split_off }

        ensures best { result.best ≡ least pass.view.terms.start pass.view.offers }
        ensures seen { result.best ≤ pass.view.least_seen }

        ensures tickets { result.tickets ≡ pass.view.won + pass.view.refused }
        ensures won { pass.view.won ≡ min result.tickets pass.view.terms.quota }
        ensures spent { 0 < pass.view.refused → pass.view.won ≡ pass.view.terms.quota }

        // Of each worker no more was seen than it published.
        ensures published { (worker : ℕ) → 1 ≤ worker → worker ≤ pass.view.terms.workers → seen_of worker pass.view ≤ made_by worker pass.view }
    {
        let RoundTable { words } = self;
        let closed = words.close_with(pass.into_seat());
        let best = closed.word(BEST);
        let tickets = closed.word(TICKETS);
        closed.free();
        RoundEnd { best, tickets }
    }
}

/// The place of a worker's published count among the words.
fn count_place(worker: u32) -> usize
    ensures { result ≡ 8 + 8 * worker }
{
    8 + 8 * worker as usize
}

/// The seat of a worker's pass; the caller picks the worker for the proof.
fn split_seat_for<N: NextWorker>(
    words: &Words,
    seat: &mut Seat<(), PassView>,
    worker: u64,
) -> Seat<(), PassView>
    requires table { seat.old.table_id ≡ words.now.shared.table_id }
    requires words { 0 < words.now.shared.table_id.words }
    requires live { IsLive seat.old.me.0 }
    requires first { seat.old.me.0.number ≡ 0 }
    requires picked { worker ≡ N.worker }
    requires low { 1 ≤ worker }
    requires high { worker ≤ seat.old.me.0.terms.workers }
    requires once { Lacks seat.old.me.0.split_off worker }
    ensures table { seat.new.table_id ≡ seat.old.table_id }
    ensures view { seat.new.me ≡ (with_worker worker seat.old.me.0, seat.old.me.1) }
    ensures split_table { result.table_id ≡ seat.old.table_id }
    ensures split_view { result.me ≡ (worker_view worker seat.old.me.0, []) }
{
    words.shared.split_seat::<SplitWorker<N>>(seat)
}
