ghost use Rattle.std.specs.Prelude.{◌≡◌, ◌≤◌, ◌<◌, true, false, [], Some, IsSome, length, map, min, take, is_err, is_some, string_bytes, IfOk, OnOk, OnErr, IfSome, IfNone};
ghost use Rattle.sched_base.specs.Outside.{Begins, Takes, HasCause, text_under};
ghost use Rattle.sched_base.specs.Memory.{ShelfState, next_count, count_after, begin_fails, read_fails, has_text};
ghost use Rattle.sched_base.specs.InHand.{text_at};

use crate::faults::Failed;
use crate::listed::is_listed;
use crate::outside::Shelf;
use crate::texts::{InHand, give, place_of};
use std::marker::Model;

/// A shelf over texts in memory, whose listed calls fail.
#[derive(Drop)]
pub struct MemShelf {
    texts: Vec<(String, Vec<u8>)>,
    hand: Option<InHand>,
    failing: Vec<u64>,
    step: usize,
    calls: u64,
    faults: u64,
}

impl Model for MemShelf {
    ghost use Rattle.std.specs.Prelude.{◌≤◌, map, string_bytes};
    ghost use Rattle.sched_base.specs.Memory.{ShelfState};
    ghost use Rattle.sched_base.specs.InHand.{left_of, IsWithin};

    ghost Value = { ShelfState };

    ghost view = { λ s. record {
      texts = map (λ t. (string_bytes t.0, t.1.items)) s.texts.items;
      left = left_of (map (λ t. (string_bytes t.0, t.1.items)) s.texts.items) s.hand;
      failing = s.failing.items;
      step = s.step;
      calls = s.calls;
      faults = s.faults;
    } };

    ghost invariant = { λ s. IsWithin (map (λ t. (string_bytes t.0, t.1.items)) s.texts.items) s.hand × (1 ≤ s.step) };
}

impl MemShelf {
    /// A shelf of these texts that gives at most `step` bytes in a read. Calls of `begin` and `read` are numbered
    /// together from 1; those in `failing` fail, and so does the `begin` of a name that no text has. Of two texts
    /// with one name the first counts.
    pub fn new(texts: Vec<(String, Vec<u8>)>, failing: Vec<u64>, step: usize) -> MemShelf
        requires { 1 ≤ step }
        ensures { result ≡ record { texts = map (λ t. (string_bytes t.0, t.1.items)) texts.items; left = []; failing = failing.items; step = step; calls = 0; faults = 0 } }
    {
        MemShelf {
            texts,
            hand: None,
            failing,
            step,
            calls: 0,
            faults: 0,
        }
    }
    /// What is left of the text in hand.
    fn left(&self) -> &[u8]
        ensures { result.now ≡ self.now.left }
    {
        match self.hand {
            None => &[],
            Some(hand) => {
                let text = self.texts[hand.text].1.as_slice();
                &text[text.len() - hand.left..]
            }
        }
    }
}

impl Shelf for MemShelf {
    ghost use Rattle.std.specs.Prelude.{Some};

    ghost texts = { λ s. Some s.texts };

    ghost left = { λ s. s.left };

    ghost faults = { λ s. s.faults };

    fn begin(&mut self, name: &str) -> Result<(), Failed>
        ensures begun { OnOk result (Begins (Some self.old.texts) name.now self.new.left) }
        ensures put_down { OnErr result (self.new.left ≡ []) }
        ensures texts { self.new.texts ≡ self.old.texts }
        ensures cause { HasCause self.old.faults self.new.faults result }

        // Which calls fail.
        ensures fails { is_err result ≡ begin_fails self.old name.now }
        ensures calls { self.new.calls ≡ next_count self.old.calls }
        ensures faults { self.new.faults ≡ count_after (begin_fails self.old name.now) self.old.faults }
        ensures failing { self.new.failing ≡ self.old.failing }
        ensures step { self.new.step ≡ self.old.step }
    {
        let is_listed = is_listed(&self.failing, self.calls);
        self.calls = self.calls.saturating_add(1);
        self.hand = None;
        let place = place_of(&self.texts, name);
        match place {
            Some(text) if !is_listed => {
                let left = self.texts[text].1.len();
                self.hand = Some(InHand { text, left });
                Ok(())
            }
            _ => {
                self.faults = self.faults.saturating_add(1);
                Err(Failed)
            }
        }
    }

    #[tactic(auto, using(crate::proofs::TakenRests::taken_of_last))]
    fn read(&mut self, piece: &mut [u8]) -> Result<usize, Failed>
        ensures bound { IfOk result (λ n. n ≤ length piece.new) }
        ensures taken { IfOk result (λ n. Takes self.old.left self.new.left piece.new n) }
        ensures kept { OnErr result (self.new.left ≡ self.old.left) }
        ensures texts { self.new.texts ≡ self.old.texts }
        ensures cause { HasCause self.old.faults self.new.faults result }

        // Which calls fail, and what the others give.
        ensures fails { is_err result ≡ read_fails self.old }
        ensures count { IfOk result (λ n. n ≡ min (length piece.new) (min self.old.step (length self.old.left))) }
        ensures calls { self.new.calls ≡ next_count self.old.calls }
        ensures faults { self.new.faults ≡ count_after (read_fails self.old) self.old.faults }
        ensures failing { self.new.failing ≡ self.old.failing }
        ensures step { self.new.step ≡ self.old.step }
    {
        let is_listed = is_listed(&self.failing, self.calls);
        self.calls = self.calls.saturating_add(1);
        if is_listed {
            self.faults = self.faults.saturating_add(1);
            return Err(Failed);
        }
        let count = give(self.left(), self.step, piece);
        if let Some(hand) = self.hand {
            self.hand = Some(InHand {
                text: hand.text,
                left: hand.left - count,
            });
        }
        Ok(count)
    }
}
