ghost use Rattle.std.specs.Prelude.{◌≡◌, ◌+◌, ◌≤◌, Ok};
ghost use Rattle.psplib_layout.specs.Availabilities.{all_amounts};
ghost use Rattle.psplib_layout.specs.Layout.{no_amounts, listed_in, availabilities_in};
ghost use Rattle.psplib_layout.specs.Part.{part_in};
ghost use Rattle.psplib_layout.specs.Place.{Gives, rest_at};
ghost use Rattle.psplib_layout.specs.Reading.{read_wanted};

use crate::content::{Amounts, Header};
use crate::fault::ReadError;
use crate::place::Place;
use crate::rule::Rule;
use crate::source::Source;
use sched_base::List;
use std::alloc::Global;

fn no_amounts(alloc: Global) -> Amounts
    ensures { result ≡ no_amounts }
{
    Amounts {
        capacities: List::new(alloc),
        budgets: List::new(alloc),
    }
}

impl Source<'_> {
    #[tactic(auto, unfolding(crate::specs::Availabilities::all_amounts))]
    fn all_amounts_at(
        &self,
        alloc: Global,
        at: Place,
        header: Header,
    ) -> Result<(Amounts, Place), ReadError>
        ensures { Gives (λ x. (x.0, rest_at self.now.words x.1)) result
            (read_wanted self.now.end (all_amounts header.renewables header.nonrenewables) (rest_at self.now.words at)) }
    {
        let amount = Rule::between(0, 1_000_000);
        let (capacities, at) = self.numbers_at(alloc, at, header.renewables, amount)?;
        let (budgets, at) = self.numbers_at(alloc, at, header.nonrenewables, amount)?;
        let amounts = Amounts {
            capacities: List::from_vec(capacities),
            budgets: List::from_vec(budgets),
        };
        Ok((amounts, at))
    }

    #[tactic(auto, unfolding(crate::specs::Part::part_in))]
    fn amounts_at(
        &self,
        alloc: Global,
        at: Place,
        header: Header,
    ) -> Result<(Amounts, Place), ReadError>
        ensures { Gives (λ x. (x.0, rest_at self.now.words x.1)) result
            (part_in self.now.end (all_amounts header.renewables header.nonrenewables) (rest_at self.now.words at)) }
    {
        let (amounts, at) = self.all_amounts_at(alloc, at, header)?;
        let at = self.line_end_at(at)?;
        Ok((amounts, at))
    }

    #[tactic(auto, unfolding(crate::specs::Layout::listed_in))]
    fn listed_at(
        &self,
        alloc: Global,
        at: Place,
        header: Header,
    ) -> Result<(Amounts, Place), ReadError>
        ensures { Gives (λ x. (x.0, rest_at self.now.words x.1)) result
            (listed_in self.now.end header (rest_at self.now.words at)) }
    {
        let amounts = self.any_line_at(at)?;
        self.amounts_at(alloc, amounts, header)
    }

    /// The availabilities part: the capacities and budgets, and the place behind it.
    #[tactic(auto, unfolding(crate::specs::Layout::availabilities_in))]
    pub fn availabilities_at(
        &self,
        alloc: Global,
        at: Place,
        header: Header,
    ) -> Result<(Amounts, Place), ReadError>
        requires renewables { header.renewables ≤ 16 }
        requires nonrenewables { header.nonrenewables ≤ 16 }
        ensures { Gives (λ x. (x.0, rest_at self.now.words x.1)) result
            (availabilities_in self.now.end header (rest_at self.now.words at)) }
    {
        let behind = self.title_at(at, b"RESOURCEAVAILABILITIES:")?;
        if header.renewables + header.nonrenewables == 0 {
            return Ok((no_amounts(alloc), behind));
        }
        self.listed_at(alloc, behind, header)
    }
}
