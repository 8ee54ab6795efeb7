ghost use Rattle.std.specs.Prelude.{◌≡◌, ◌≤◌, ◌+◌, ◌++◌, ◌||◌, false, [], length, nat_lt, take, IsOk, IfOk, OnErr};
ghost use Rattle.sched_base.specs.Outside.{Gains, HasCause};
ghost use Rattle.sched_base.specs.Memory.{SureSinkState, told};

use crate::faults::{Failed, NoMemory};
use crate::outside::Sink;
use std::alloc::Global;
use std::marker::Model;

/// A sink over memory that is taken once, which never fails: bytes past its room aren't kept.
#[derive(Drop)]
pub struct SureSink {
    room: Vec<u8>,
    used: usize,
    has_lost: bool,
}

impl Model for SureSink {
    ghost use Rattle.std.specs.Prelude.{◌≤◌, length, take};
    ghost use Rattle.sched_base.specs.Memory.{SureSinkState};

    ghost Value = { SureSinkState };

    ghost view = { λ s. record {
      kept = take s.used s.room.items;
      room = length s.room.items;
      has_lost = s.has_lost;
    } };

    ghost invariant = { λ s. s.used ≤ length s.room.items };
}

/// Puts the piece behind the bytes that are used.
fn keep(room: &mut [u8], used: usize, piece: &[u8])
    requires { used + length piece.now ≤ length room.old }
    ensures { take (used + length piece.now) room.new ≡ take used room.old ++ piece.now }
{
    room[used..used + piece.len()].copy_from_slice(piece);
}

impl SureSink {
    /// A sink that keeps the first `room` bytes.
    pub fn new(alloc: Global, room: usize) -> Result<SureSink, NoMemory>
        ensures { IfOk result (λ s. s ≡ record { kept = []; room = room; has_lost = false }) }
    {
        let room = vec![in alloc; 0; room]?;
        Ok(SureSink {
            room,
            used: 0,
            has_lost: false,
        })
    }

    /// The bytes kept.
    pub fn bytes(&self) -> &[u8]
        ensures { result.now ≡ self.now.kept }
    {
        &self.room[..self.used]
    }
}

impl Sink for SureSink {
    ghost use Rattle.sched_base.specs.Memory.{told};

    ghost held = { told };

    ghost faults = { λ _. 0 };

    #[tactic(auto, using(crate::proofs::KeptPieces::gains_kept, crate::proofs::KeptPieces::kept_of_room))]
    fn write(&mut self, piece: &[u8]) -> Result<usize, Failed>
        ensures bound { IfOk result (λ n. n ≤ length piece.now) }
        ensures some { IfOk result (λ n. 1 ≤ length piece.now → 1 ≤ n) }
        ensures gained { IfOk result (λ n. Gains (told self.old) (told self.new) (take n piece.now)) }
        ensures kept { OnErr result (Gains (told self.old) (told self.new) []) }
        ensures cause { HasCause 0 0 result }
        ensures ok { IsOk result }

        // All bytes are taken, and those that fit are kept.
        ensures count { IfOk result (λ n. n ≡ length piece.now) }
        ensures fitting { self.new.kept ≡ take self.old.room (self.old.kept ++ piece.now) }
        ensures lost { self.new.has_lost ≡ (self.old.has_lost || nat_lt self.old.room (length self.old.kept + length piece.now)) }
        ensures room { self.new.room ≡ self.old.room }
    {
        let count = piece.len().min(self.room.len() - self.used);
        keep(&mut self.room, self.used, &piece[..count]);
        self.used += count;
        self.has_lost = self.has_lost | (count < piece.len());
        Ok(piece.len())
    }
}
