ghost use Rattle.std.specs.Prelude.{◌≡◌};
ghost use Rattle.psplib_layout.specs.Rule.{lesser, exactly, between, ordered};

use crate::fault::Fault;

/// The limits of a number, and the faults of one that is below or above them.
#[derive(Clone, Copy, Debug, PartialEq, Eq)]
pub struct Rule {
    /// The least number that keeps the rule.
    pub least: u32,
    /// The greatest number that keeps it.
    pub most: u32,
    /// The least number that has the fault `below`; a still lesser one is as far out as one above `most`.
    pub floor: u32,
    /// The fault of a number that is less than `least`, from `floor` on.
    pub below: Fault,
    /// The fault of a number that is greater than `most` or less than `floor`.
    pub above: Fault,
}

impl Rule {
    /// The number is this one.
    pub fn exactly(n: u32, fault: Fault) -> Rule
        ensures { result ≡ exactly n fault }
    {
        Rule {
            least: n,
            most: n,
            floor: 0,
            below: fault,
            above: fault,
        }
    }

    /// The number is from `least` to `most`.
    pub fn between(least: u32, most: u32) -> Rule
        ensures { result ≡ between least most }
    {
        Rule {
            least,
            most,
            floor: 0,
            below: Fault::OutOfLimit,
            above: Fault::OutOfLimit,
        }
    }

    /// The number is from `floor` to `most`, and by the order of the calendar's rows it is no less than `least`.
    pub fn ordered(floor: u32, least: u32, most: u32) -> Rule
        ensures { result ≡ ordered floor least most }
    {
        Rule {
            least,
            most,
            floor,
            below: Fault::CalendarOrder,
            above: Fault::OutOfLimit,
        }
    }

    /// The fault of a number that is less than `least`.
    pub fn lesser(self, n: u32) -> Fault
        ensures { result ≡ lesser self n }
    {
        if n < self.floor {
            self.above
        } else {
            self.below
        }
    }
}
