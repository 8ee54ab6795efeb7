ghost use Rattle.std.specs.Prelude.{◌≡◌, ◌≤◌, ◌-◌, Some, [], length, min, take, is_err, IfOk, OnErr};
ghost use Rattle.sched_base.specs.Outside.{Gains, HasCause};
ghost use Rattle.sched_base.specs.Memory.{SinkState, next_count, count_after, write_fails};

use crate::faults::{Failed, NoMemory};
use crate::listed::is_listed;
use crate::outside::Sink;
use std::alloc::Global;
use std::marker::Model;

/// A sink over memory that is taken once, whose listed calls fail.
#[derive(Drop)]
pub struct MemSink {
    room: Vec<u8>,
    used: usize,
    failing: Vec<u64>,
    step: usize,
    calls: u64,
    faults: u64,
}

impl Model for MemSink {
    ghost use Rattle.std.specs.Prelude.{◌≤◌, length, take};
    ghost use Rattle.sched_base.specs.Memory.{SinkState};

    ghost Value = { SinkState };

    ghost view = { λ s. record {
      held = take s.used s.room.items;
      room = length s.room.items;
      failing = s.failing.items;
      step = s.step;
      calls = s.calls;
      faults = s.faults;
    } };

    ghost invariant = { λ s. (s.used ≤ length s.room.items) × (1 ≤ s.step) };
}

impl MemSink {
    /// A sink that holds at most `room` bytes and takes at most `step` of them in a write, of which the calls with
    /// the numbers in `failing`, from 1, fail.
    pub fn new(
        alloc: Global,
        room: usize,
        failing: Vec<u64>,
        step: usize,
    ) -> Result<MemSink, NoMemory>
        requires { 1 ≤ step }
        ensures { IfOk result (λ s. s ≡ record { held = []; room = room; failing = failing.items; step = step; calls = 0; faults = 0 }) }
    {
        let room = vec![in alloc; 0; room]?;
        Ok(MemSink {
            room,
            used: 0,
            failing,
            step,
            calls: 0,
            faults: 0,
        })
    }

    /// The bytes held.
    pub fn bytes(&self) -> &[u8]
        ensures { result.now ≡ self.now.held }
    {
        &self.room[..self.used]
    }
}

impl Sink for MemSink {
    ghost use Rattle.std.specs.Prelude.{Some};

    ghost held = { λ s. Some s.held };

    ghost faults = { λ s. s.faults };

    fn write(&mut self, piece: &[u8]) -> Result<usize, Failed>
        ensures bound { IfOk result (λ n. n ≤ length piece.now) }
        ensures some { IfOk result (λ n. 1 ≤ length piece.now → 1 ≤ n) }
        ensures gained { IfOk result (λ n. Gains (Some self.old.held) (Some self.new.held) (take n piece.now)) }
        ensures kept { OnErr result (Gains (Some self.old.held) (Some self.new.held) []) }
        ensures cause { HasCause self.old.faults self.new.faults result }

        // Which calls fail, and what the others take.
        ensures fails { is_err result ≡ write_fails self.old piece.now }
        ensures count { IfOk result (λ n. n ≡ min (length piece.now) (min self.old.step (self.old.room - length self.old.held))) }
        ensures calls { self.new.calls ≡ next_count self.old.calls }
        ensures faults { self.new.faults ≡ count_after (write_fails self.old piece.now) self.old.faults }
        ensures room { self.new.room ≡ self.old.room }
        ensures failing { self.new.failing ≡ self.old.failing }
        ensures step { self.new.step ≡ self.old.step }
    {
        let is_listed = is_listed(&self.failing, self.calls);
        self.calls = self.calls.saturating_add(1);
        let free = self.room.len() - self.used;
        if is_listed || (!piece.is_empty() && free == 0) {
            self.faults = self.faults.saturating_add(1);
            return Err(Failed);
        }
        let count = piece.len().min(self.step).min(free);
        self.room[self.used..self.used + count].copy_from_slice(&piece[..count]);
        self.used += count;
        Ok(count)
    }
}
