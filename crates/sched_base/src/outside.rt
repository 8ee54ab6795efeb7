ghost use Rattle.std.specs.Prelude.{◌≡◌, ◌≤◌, ℕ, List, [], Option, length, take, IfOk, OnOk, OnErr, IsSome, MatchResult};
ghost use Rattle.sched_base.specs.Outside.{Begins, Takes, Gains, HasCause};

use crate::faults::Failed;

/// Texts that are read by name, one at a time.
pub trait Shelf {
    /// The texts with their names, where the shelf tells them; of two with one name the first counts.
    ghost texts: { Self → Option (List (List ℕ × List ℕ)) };

    /// What is left of the text in hand, where the shelf tells its texts; nothing where no text is in hand.
    ghost left: { Self → List ℕ };

    /// How many calls failed, up to the end of a `u64`.
    ghost faults: { Self → ℕ };

    /// Takes the text of a name in hand, whole. After `Failed` no text is in hand.
    fn begin(&mut self, name: &str) -> Result<(), Failed>
        ensures begun { OnOk result (Begins (texts self.old) name.now (left self.new)) }
        ensures put_down { OnErr result (IsSome (texts self.old) → left self.new ≡ []) }
        ensures texts { texts self.new ≡ texts self.old }
        ensures cause { HasCause (faults self.old) (faults self.new) result };

    /// Fills the front of the piece with the next bytes of the text in hand, and says how many. None are given to a
    /// piece with room only where nothing is left. `Failed` takes nothing.
    fn read(&mut self, piece: &mut [u8]) -> Result<usize, Failed>
        ensures bound { IfOk result (λ n. n ≤ length piece.new) }
        ensures taken { IfOk result (λ n. IsSome (texts self.old) → Takes (left self.old) (left self.new) piece.new n) }
        ensures kept { OnErr result (IsSome (texts self.old) → left self.new ≡ left self.old) }
        ensures texts { texts self.new ≡ texts self.old }
        ensures cause { HasCause (faults self.old) (faults self.new) result };
}

/// Where bytes are written to.
pub trait Sink {
    /// The bytes held, where the sink tells them.
    ghost held: { Self → Option (List ℕ) };

    /// How many calls failed, up to the end of a `u64`.
    ghost faults: { Self → ℕ };

    /// Appends the front of the piece, and says how many bytes; at least one where there is one. `Failed` appends
    /// nothing.
    fn write(&mut self, piece: &[u8]) -> Result<usize, Failed>
        ensures bound { IfOk result (λ n. n ≤ length piece.now) }
        ensures some { IfOk result (λ n. 1 ≤ length piece.now → 1 ≤ n) }
        ensures gained { IfOk result (λ n. Gains (held self.old) (held self.new) (take n piece.now)) }
        ensures kept { OnErr result (Gains (held self.old) (held self.new) []) }
        ensures cause { HasCause (faults self.old) (faults self.new) result };
}

/// What each worker passes at the start of its part in a round, and after each node that it expanded. It may wait.
pub trait Gate {
    fn pass(&self, worker: u32);
}

/// The gate that holds nobody.
#[derive(Clone, Copy, Debug, PartialEq, Eq)]
pub struct OpenGate;

impl Gate for OpenGate {
    fn pass(&self, _worker: u32) {}
}
