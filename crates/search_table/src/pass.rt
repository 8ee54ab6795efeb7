ghost use Rattle.std.specs.Prelude.{◌≡◌, [], ◌≤◌};
ghost use Rattle.search_table.specs.Passes.{IsLive};

use crate::view::{PassView, RoundTerms};
use atomic_table::Seat;
use std::marker::Model;

/// A worker's right to take steps on a table, with what it has seen and done.
#[derive(Drop)]
pub struct Pass {
    pub(crate) number: u32,
    pub(crate) terms: RoundTerms,
    pub(crate) own: u64,
    pub(crate) seat: Seat<(), PassView>,
}

impl Model for Pass {
    ghost use Rattle.search_table.specs.PassState.{PassState, KeepsView};

    ghost Value = { PassState };

    ghost view = { λ p. record { table = p.seat.table_id; view = p.seat.me.0 } };

    ghost invariant = { λ p. KeepsView p.number p.terms p.own p.seat.table_id p.seat.me };
}

impl Pass {
    /// The number of its worker, from 1 on, or 0 for the pass that came with the table.
    pub fn number(&self) -> u32
        ensures number { result ≡ self.now.view.number }
        ensures in_range { result ≤ self.now.view.terms.workers }
    {
        self.number
    }

    /// Its own published count: how often it has published.
    pub fn own(&self) -> u64
        ensures own { result ≡ self.now.view.own }
        ensures none { self.now.view.number ≡ 0 → result ≡ 0 }
    {
        self.own
    }

    /// The seat by itself.
    pub(crate) fn into_seat(self) -> Seat<(), PassView>
        ensures table { result.table_id ≡ self.table }
        ensures view { result.me ≡ (self.view, []) }
        ensures live { IsLive self.view }
    {
        let Pass {
            number: _,
            terms: _,
            own: _,
            seat,
        } = self;
        seat
    }
}
