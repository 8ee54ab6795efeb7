use sched_base::{Failed, NoMemory};
use std::alloc::AllocError;

/// Why a run stops before it has anything to tell.
#[derive(Clone, Copy, Debug, PartialEq, Eq)]
pub enum Stop {
    /// A call of the shelf failed.
    ReadFault,
    /// Memory was refused.
    NoMemory,
}

impl From<AllocError> for Stop {
    ghost use Rattle.std.specs.Prelude.{◌≡◌};
    ghost use Rattle.scheduler.specs.declared.stop.Stop.TheVariants.{NoMemory};

    ghost from_gives = { λ _ stop. stop ≡ NoMemory };

    fn from(_refused: AllocError) -> Stop {
        Stop::NoMemory
    }
}

impl From<Failed> for Stop {
    ghost use Rattle.std.specs.Prelude.{◌≡◌};
    ghost use Rattle.scheduler.specs.declared.stop.Stop.TheVariants.{ReadFault};

    ghost from_gives = { λ _ stop. stop ≡ ReadFault };

    fn from(_failed: Failed) -> Stop {
        Stop::ReadFault
    }
}

impl From<NoMemory> for Stop {
    ghost use Rattle.std.specs.Prelude.{◌≡◌};
    ghost use Rattle.scheduler.specs.declared.stop.Stop.TheVariants as stops;

    ghost from_gives = { λ _ stop. stop ≡ stops.NoMemory };

    fn from(_refused: NoMemory) -> Stop {
        Stop::NoMemory
    }
}
