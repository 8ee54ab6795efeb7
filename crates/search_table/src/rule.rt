ghost use Rattle.std.specs.Prelude.{ℕ};
ghost use Rattle.search_table.specs.BetweenSteps.{HoldsBetweenSteps};
ghost use Rattle.search_table.specs.Steps.{Loads, Offers, Draws, Publishes, LoadsCount};
ghost use Rattle.search_table.specs.Views.{first_view, with_worker, worker_view, joint_view, spent_view};

use crate::view::{PassView, RoundTerms};
use atomic_table::{Join, Play, Split, TableRule};
use std::marker::{Brand, PhantomData};

/// The rule of the table, which every kind of step keeps.
pub(crate) struct RoundRule;

impl TableRule<(), PassView, RoundTerms> for RoundRule {
    ghost holds = { HoldsBetweenSteps };

    ghost first = { first_view };
}

/// A load of the best.
pub(crate) struct LoadBest;

impl Play<(), PassView> for LoadBest {
    ghost then = { Loads };
}

/// A fetch-min of the best.
pub(crate) struct OfferEnd;

impl Play<(), PassView> for OfferEnd {
    ghost then = { Offers };
}

/// A fetch-add of the tickets.
pub(crate) struct DrawTicket;

impl Play<(), PassView> for DrawTicket {
    ghost then = { Draws };
}

/// A fetch-add of the published count of the pass's own worker.
pub(crate) struct PublishOne;

impl Play<(), PassView> for PublishOne {
    ghost then = { Publishes };
}

/// A load of a worker's published count.
pub(crate) struct LoadCount;

impl Play<(), PassView> for LoadCount {
    ghost then = { LoadsCount };
}

/// The worker whose pass is split off, which the caller of a split picks.
pub(crate) trait NextWorker {
    ghost worker: { ℕ };
}

impl NextWorker for Brand {
    ghost worker = { 0 };
}

/// A split of the first pass.
pub(crate) struct SplitWorker<N> {
    next: PhantomData<N>,
}

impl<N: NextWorker> Split<PassView> for SplitWorker<N> {
    ghost left = { λ v. with_worker N.worker v };

    ghost right = { λ v. worker_view N.worker v };
}

/// A join of two passes.
pub(crate) struct JoinPasses;

impl Join<PassView> for JoinPasses {
    ghost both = { λ v w. joint_view v w };

    ghost spent = { spent_view };
}
