ghost use Rattle.std.specs.Prelude.{◌≡◌, ◌+◌, ◌≤◌, Ok, map, length, All};
ghost use Rattle.psplib_layout.specs.Layout.{mode_counts, requests_in};
ghost use Rattle.psplib_layout.specs.Part.{part_in};
ghost use Rattle.psplib_layout.specs.Place.{Gives, rest_at};
ghost use Rattle.psplib_layout.specs.Reading.{read_wanted};
ghost use Rattle.psplib_layout.specs.Requests.{mode_row, mode_rows, job_modes, all_modes};

use crate::content::{Header, JobRow};
use crate::fault::{Fault, ReadError};
use crate::place::Place;
use crate::rule::Rule;
use crate::source::Source;
use rcpsp_model::Mode;
use sched_base::List;
use std::alloc::Global;

impl Source<'_> {
    #[tactic(auto, unfolding(crate::specs::Requests::mode_row))]
    fn mode_row_at(
        &self,
        alloc: Global,
        at: Place,
        header: Header,
        mode: u32,
    ) -> Result<(Mode, Place), ReadError>
        requires { mode ≤ 16 }
        ensures { Gives (λ x. (x.0, rest_at self.now.words x.1)) result
            (read_wanted self.now.end (mode_row header.renewables header.nonrenewables mode) (rest_at self.now.words at)) }
    {
        let (_, at) = self.number_at(at, Rule::exactly(mode, Fault::WrongModeNumber))?;
        let (duration, at) = self.number_at(at, Rule::between(0, 10_000))?;
        let amount = Rule::between(0, 1_000_000);
        let (requests, at) = self.numbers_at(alloc, at, header.renewables, amount)?;
        let (needs, at) = self.numbers_at(alloc, at, header.nonrenewables, amount)?;
        let row = Mode {
            duration,
            requests: List::from_vec(requests),
            needs: List::from_vec(needs),
        };
        Ok((row, at))
    }

    fn mode_rows_at(
        &self,
        alloc: Global,
        at: Place,
        header: Header,
        count: u32,
    ) -> Result<(Vec<Mode>, Place), ReadError>
        requires { count ≤ 16 }
        ensures { Gives (λ x. (x.0.items, rest_at self.now.words x.1)) result
            (read_wanted self.now.end (mode_rows count header.renewables header.nonrenewables 1) (rest_at self.now.words at)) }
    {
        let mut modes = Vec::with_capacity(alloc, count as usize)?;
        let mut at = at;
        for index in 0..count {
            let (mode, behind) = self.mode_row_at(alloc, at, header, index + 1)?;
            modes.push(mode)?;
            at = behind;
        }
        Ok((modes, at))
    }

    #[tactic(auto, unfolding(crate::specs::Requests::job_modes))]
    fn job_modes_at(
        &self,
        alloc: Global,
        at: Place,
        header: Header,
        job: u32,
        count: u32,
    ) -> Result<(List<Mode>, Place), ReadError>
        requires job { job ≤ 128 }
        requires count { count ≤ 16 }
        ensures { Gives (λ x. (x.0, rest_at self.now.words x.1)) result
            (read_wanted self.now.end (job_modes header.renewables header.nonrenewables job count) (rest_at self.now.words at)) }
    {
        let (_, at) = self.number_at(at, Rule::exactly(job, Fault::WrongJobNumber))?;
        let (modes, at) = self.mode_rows_at(alloc, at, header, count)?;
        Ok((List::from_vec(modes), at))
    }

    fn all_modes_at(
        &self,
        alloc: Global,
        at: Place,
        header: Header,
        rows: &[JobRow],
    ) -> Result<(Vec<List<Mode>>, Place), ReadError>
        requires few { length rows.now ≤ 128 }
        requires modes { All (λ row. row.modes ≤ 16) rows.now }
        ensures { Gives (λ x. (x.0.items, rest_at self.now.words x.1)) result
            (read_wanted self.now.end (all_modes header.renewables header.nonrenewables 1 (mode_counts rows.now)) (rest_at self.now.words at)) }
    {
        let mut modes = Vec::with_capacity(alloc, rows.len())?;
        let mut at = at;
        let mut job = 1;
        for row in rows {
            let (of_job, behind) = self.job_modes_at(alloc, at, header, job, row.modes)?;
            modes.push(of_job)?;
            at = behind;
            job += 1;
        }
        Ok((modes, at))
    }

    #[tactic(auto, unfolding(crate::specs::Part::part_in))]
    fn modes_at(
        &self,
        alloc: Global,
        at: Place,
        header: Header,
        rows: &[JobRow],
    ) -> Result<(List<List<Mode>>, Place), ReadError>
        requires few { length rows.now ≤ 128 }
        requires modes { All (λ row. row.modes ≤ 16) rows.now }
        ensures { Gives (λ x. (x.0, rest_at self.now.words x.1)) result
            (part_in self.now.end (all_modes header.renewables header.nonrenewables 1 (mode_counts rows.now)) (rest_at self.now.words at)) }
    {
        let (modes, at) = self.all_modes_at(alloc, at, header, rows)?;
        let at = self.line_end_at(at)?;
        Ok((List::from_vec(modes), at))
    }

    /// The requests part: the modes of each job, and the place behind it.
    #[tactic(auto, unfolding(crate::specs::Layout::requests_in))]
    pub fn requests_at(
        &self,
        alloc: Global,
        at: Place,
        header: Header,
        rows: &[JobRow],
    ) -> Result<(List<List<Mode>>, Place), ReadError>
        requires few { length rows.now ≤ 128 }
        requires modes { All (λ row. row.modes ≤ 16) rows.now }
        ensures { Gives (λ x. (x.0, rest_at self.now.words x.1)) result
            (requests_in self.now.end header rows.now (rest_at self.now.words at)) }
    {
        let heading = self.title_at(at, b"REQUESTS/DURATIONS:")?;
        let modes = self.any_line_at(heading)?;
        self.modes_at(alloc, modes, header, rows)
    }
}
