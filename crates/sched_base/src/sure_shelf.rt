ghost use Rattle.std.specs.Prelude.{◌≡◌, ◌≤◌, [], Some, length, map, min, string_bytes, IsOk, IfOk, OnOk, OnErr};
ghost use Rattle.sched_base.specs.Outside.{Begins, Takes, HasCause};
ghost use Rattle.sched_base.specs.Memory.{SureShelfState};

use crate::faults::Failed;
use crate::outside::Shelf;
use crate::texts::{InHand, give, place_of};
use std::marker::Model;

/// A shelf over texts in memory that never fails; a name that no text has gives the empty text.
#[derive(Drop)]
pub struct SureShelf {
    texts: Vec<(String, Vec<u8>)>,
    hand: Option<InHand>,
}

impl Model for SureShelf {
    ghost use Rattle.std.specs.Prelude.{map, string_bytes};
    ghost use Rattle.sched_base.specs.Memory.{SureShelfState};
    ghost use Rattle.sched_base.specs.InHand.{left_of, IsWithin};

    ghost Value = { SureShelfState };

    ghost view = { λ s. record {
      texts = map (λ t. (string_bytes t.0, t.1.items)) s.texts.items;
      left = left_of (map (λ t. (string_bytes t.0, t.1.items)) s.texts.items) s.hand;
    } };

    ghost invariant = { λ s. IsWithin (map (λ t. (string_bytes t.0, t.1.items)) s.texts.items) s.hand };
}

impl SureShelf {
    /// A shelf of these texts. Of two texts with one name the first counts.
    pub fn new(texts: Vec<(String, Vec<u8>)>) -> SureShelf
        ensures { result ≡ record { texts = map (λ t. (string_bytes t.0, t.1.items)) texts.items; left = [] } }
    {
        SureShelf { texts, hand: None }
    }

    /// What is left of the text in hand.
    fn left(&self) -> &[u8]
        ensures { result.now ≡ self.now.left }
    {
        match self.hand {
            None => &[],
            Some(hand) => {
                let text = self.texts[hand.text].1.as_slice();
                &text[text.len() - hand.left..]
            }
        }
    }
}

impl Shelf for SureShelf {
    ghost use Rattle.std.specs.Prelude.{Some};

    ghost texts = { λ s. Some s.texts };

    ghost left = { λ s. s.left };

    ghost faults = { λ _. 0 };

    #[tactic(auto, using(crate::proofs::NamedTexts::no_text))]
    fn begin(&mut self, name: &str) -> Result<(), Failed>
        ensures begun { OnOk result (Begins (Some self.old.texts) name.now self.new.left) }
        ensures put_down { OnErr result (self.new.left ≡ []) }
        ensures texts { self.new.texts ≡ self.old.texts }
        ensures cause { HasCause 0 0 result }
        ensures ok { IsOk result }
    {
        let place = place_of(&self.texts, name);
        self.hand = None;
        if let Some(text) = place {
            let left = self.texts[text].1.len();
            self.hand = Some(InHand { text, left });
            return Ok(());
        }
        Ok(())
    }

    #[tactic(auto, using(crate::proofs::TakenRests::taken_of_last))]
    fn read(&mut self, piece: &mut [u8]) -> Result<usize, Failed>
        ensures bound { IfOk result (λ n. n ≤ length piece.new) }
        ensures taken { IfOk result (λ n. Takes self.old.left self.new.left piece.new n) }
        ensures kept { OnErr result (self.new.left ≡ self.old.left) }
        ensures texts { self.new.texts ≡ self.old.texts }
        ensures cause { HasCause 0 0 result }
        ensures ok { IsOk result }

        // A read gives as much as there is room for.
        ensures count { IfOk result (λ n. n ≡ min (length piece.new) (length self.old.left)) }
    {
        let count = give(self.left(), usize::MAX, piece);
        if let Some(hand) = self.hand {
            self.hand = Some(InHand {
                text: hand.text,
                left: hand.left - count,
            });
        }
        Ok(count)
    }
}
