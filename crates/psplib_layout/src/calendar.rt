ghost use Rattle.std.specs.Prelude.{◌≡◌, ◌≤◌, Ok, length, All};
ghost use Rattle.psplib_layout.specs.Calendar.{free_from, cal_row, cal_rows, no_row, whole_calendar};
ghost use Rattle.psplib_layout.specs.Layout.{listed_rows_in, calendar_in};
ghost use Rattle.psplib_layout.specs.Part.{part_in};
ghost use Rattle.psplib_layout.specs.Place.{Gives, rest_at};
ghost use Rattle.psplib_layout.specs.Reading.{read_wanted};

use crate::fault::{Fault, ReadError, refused};
use crate::place::Place;
use crate::rule::Rule;
use crate::source::Source;
use rcpsp_model::CalRow;
use sched_base::List;
use std::alloc::Global;

fn no_row() -> CalRow
    ensures { result ≡ no_row }
{
    CalRow {
        resource: 1,
        begin: 0,
        until: 0,
        capacity: 0,
    }
}

/// The first period at which a row of this resource may begin behind another row.
fn free_from(before: CalRow, resource: u32) -> u32
    ensures { result ≡ free_from before resource }
{
    if u32::from(before.resource) == resource {
        before.until
    } else {
        0
    }
}

impl Source<'_> {
    #[tactic(auto, unfolding(crate::specs::Calendar::cal_row))]
    fn cal_row_at(
        &self,
        at: Place,
        capacities: &[u32],
        before: CalRow,
    ) -> Result<(CalRow, Place), ReadError>
        requires few { length capacities.now ≤ 16 }
        requires capacities { All (λ c. c ≤ 1000000) capacities.now }
        requires resource { 1 ≤ before.resource }
        requires until { before.until ≤ 10000 }
        ensures { Gives (λ x. (x.0, rest_at self.now.words x.1)) result
            (read_wanted self.now.end (cal_row capacities.now before) (rest_at self.now.words at)) }
    {
        let resources = capacities.len() as u32;
        let no_lower = Rule::ordered(1, u32::from(before.resource), resources);
        let (resource, at) = self.number_at(at, no_lower)?;
        let free = Rule::ordered(0, free_from(before, resource), 9_999);
        let (begin, at) = self.number_at(at, free)?;
        let (until, at) = self.number_at(at, Rule::ordered(0, begin + 1, 10_000))?;
        let most = capacities[resource as usize - 1];
        let (capacity, at) = self.number_at(at, Rule::between(0, most))?;
        let row = CalRow {
            resource: resource as u8,
            begin,
            until,
            capacity,
        };
        Ok((row, at))
    }

    fn cal_rows_at(
        &self,
        alloc: Global,
        at: Place,
        capacities: &[u32],
        count: u32,
    ) -> Result<(Vec<CalRow>, Place), ReadError>
        requires few { length capacities.now ≤ 16 }
        requires capacities { All (λ c. c ≤ 1000000) capacities.now }
        ensures { Gives (λ x. (x.0.items, rest_at self.now.words x.1)) result
            (read_wanted self.now.end (cal_rows count capacities.now no_row) (rest_at self.now.words at)) }
    {
        let mut rows = Vec::with_capacity(alloc, count as usize)?;
        let mut before = no_row();
        let mut at = at;
        for _ in 0..count {
            let (row, behind) = self.cal_row_at(at, capacities, before)?;
            rows.push(row)?;
            before = row;
            at = behind;
        }
        Ok((rows, at))
    }

    #[tactic(auto, unfolding(crate::specs::Calendar::whole_calendar))]
    fn whole_calendar_at(
        &self,
        alloc: Global,
        at: Place,
        capacities: &[u32],
    ) -> Result<(Vec<CalRow>, Place), ReadError>
        requires few { length capacities.now ≤ 16 }
        requires capacities { All (λ c. c ≤ 1000000) capacities.now }
        ensures { Gives (λ x. (x.0.items, rest_at self.now.words x.1)) result
            (read_wanted self.now.end (whole_calendar capacities.now) (rest_at self.now.words at)) }
    {
        let (count, at) = self.number_at(at, Rule::between(0, 256))?;
        self.cal_rows_at(alloc, at, capacities, count)
    }

    #[tactic(auto, unfolding(crate::specs::Part::part_in))]
    fn all_cal_rows_at(
        &self,
        alloc: Global,
        at: Place,
        capacities: &[u32],
    ) -> Result<(List<CalRow>, Place), ReadError>
        requires few { length capacities.now ≤ 16 }
        requires capacities { All (λ c. c ≤ 1000000) capacities.now }
        ensures { Gives (λ x. (x.0, rest_at self.now.words x.1)) result
            (part_in self.now.end (whole_calendar capacities.now) (rest_at self.now.words at)) }
    {
        let (rows, at) = self.whole_calendar_at(alloc, at, capacities)?;
        let at = self.line_end_at(at)?;
        Ok((List::from_vec(rows), at))
    }

    #[tactic(auto, unfolding(crate::specs::Layout::listed_rows_in))]
    fn listed_rows_at(
        &self,
        alloc: Global,
        at: Place,
        capacities: &[u32],
    ) -> Result<List<CalRow>, ReadError>
        requires few { length capacities.now ≤ 16 }
        requires capacities { All (λ c. c ≤ 1000000) capacities.now }
        ensures { Gives (λ rows. rows) result
            (listed_rows_in self.now.end capacities.now (rest_at self.now.words at)) }
    {
        let heading = self.any_line_at(at)?;
        let (rows, at) = self.all_cal_rows_at(alloc, heading, capacities)?;
        let _end = self.no_more_at(at)?;
        Ok(rows)
    }

    /// The calendar part, behind which no line is left: its rows, or none where no line is left in its place.
    pub fn calendar_at(
        &self,
        alloc: Global,
        at: Place,
        capacities: &[u32],
    ) -> Result<List<CalRow>, ReadError>
        requires few { length capacities.now ≤ 16 }
        requires capacities { All (λ c. c ≤ 1000000) capacities.now }
        ensures { Gives (λ rows. rows) result
            (calendar_in self.now.end capacities.now (rest_at self.now.words at)) }
    {
        if at.line >= self.words.lines() {
            return Ok(List::new(alloc));
        }
        if !self.has_title(at, b"CALENDAR:") {
            return Err(refused(Fault::WordsLeft, self.words.line_number(at.line)));
        }
        let behind = Place {
            line: at.line + 1,
            word: 0,
        };
        self.listed_rows_at(alloc, behind, capacities)
    }
}
