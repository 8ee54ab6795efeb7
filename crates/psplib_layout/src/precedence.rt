ghost use Rattle.std.specs.Prelude.{◌≡◌, ◌+◌, ◌≤◌, min, Ok};
ghost use Rattle.psplib_layout.specs.Layout.{rows_begin_in, precedence_in};
ghost use Rattle.psplib_layout.specs.Part.{part_in};
ghost use Rattle.psplib_layout.specs.Place.{Gives, rest_at};
ghost use Rattle.psplib_layout.specs.Precedence.{mode_count, successor, job_row, job_rows, all_rows};
ghost use Rattle.psplib_layout.specs.Reading.{read_wanted};

use crate::content::{Header, JobRow};
use crate::fault::{Fault, ReadError};
use crate::place::Place;
use crate::rule::Rule;
use crate::source::Source;
use sched_base::List;
use std::alloc::Global;

/// The most modes that all jobs have together.
const MOST_MODES: u32 = 512;

fn mode_count(room: u32) -> Rule
    ensures { result ≡ mode_count room }
{
    Rule {
        least: 1,
        most: if room < 16 { room } else { 16 },
        floor: 0,
        below: Fault::NoModes,
        above: Fault::OutOfLimit,
    }
}

fn successor(jobs: u32) -> Rule
    ensures { result ≡ successor jobs }
{
    Rule {
        least: 1,
        most: jobs,
        floor: 0,
        below: Fault::SuccessorOutOfRange,
        above: Fault::SuccessorOutOfRange,
    }
}

impl Source<'_> {
    #[tactic(auto, unfolding(crate::specs::Precedence::job_row))]
    fn job_row_at(
        &self,
        alloc: Global,
        at: Place,
        jobs: u32,
        job: u32,
        room: u32,
    ) -> Result<(JobRow, Place), ReadError>
        requires jobs { jobs ≤ 128 }
        requires job { job ≤ 128 }
        ensures { Gives (λ x. (x.0, rest_at self.now.words x.1)) result
            (read_wanted self.now.end (job_row jobs job room) (rest_at self.now.words at)) }
    {
        let (_, at) = self.number_at(at, Rule::exactly(job, Fault::WrongJobNumber))?;
        let (modes, at) = self.number_at(at, mode_count(room))?;
        let (count, at) = self.number_at(at, Rule::between(0, 128))?;
        let (successors, at) = self.numbers_at(alloc, at, count, successor(jobs))?;
        let row = JobRow {
            modes,
            successors: List::from_vec(successors),
        };
        Ok((row, at))
    }

    fn job_rows_at(
        &self,
        alloc: Global,
        at: Place,
        jobs: u32,
    ) -> Result<(Vec<JobRow>, Place), ReadError>
        requires { jobs ≤ 128 }
        ensures { Gives (λ x. (x.0.items, rest_at self.now.words x.1)) result
            (read_wanted self.now.end (all_rows jobs) (rest_at self.now.words at)) }
    {
        let mut rows = Vec::with_capacity(alloc, jobs as usize)?;
        let mut room = MOST_MODES;
        let mut at = at;
        for index in 0..jobs {
            let (row, behind) = self.job_row_at(alloc, at, jobs, index + 1, room)?;
            room = room.saturating_sub(row.modes);
            rows.push(row)?;
            at = behind;
        }
        Ok((rows, at))
    }

    #[tactic(auto, unfolding(crate::specs::Part::part_in))]
    fn rows_at(
        &self,
        alloc: Global,
        at: Place,
        jobs: u32,
    ) -> Result<(List<JobRow>, Place), ReadError>
        requires { jobs ≤ 128 }
        ensures { Gives (λ x. (x.0, rest_at self.now.words x.1)) result
            (part_in self.now.end (all_rows jobs) (rest_at self.now.words at)) }
    {
        let (rows, at) = self.job_rows_at(alloc, at, jobs)?;
        let at = self.line_end_at(at)?;
        Ok((List::from_vec(rows), at))
    }

    /// The place where the rows of the precedence part begin: behind its title and one line more.
    #[tactic(auto, unfolding(crate::specs::Layout::rows_begin_in))]
    pub(crate) fn rows_begin_at(&self, at: Place) -> Result<Place, ReadError>
        ensures { Gives (λ x. rest_at self.now.words x) result
            (rows_begin_in self.now.end (rest_at self.now.words at)) }
    {
        let title = self.first_with(at, b"PRECEDENCERELATIONS:")?;
        let heading = self.any_line_at(title)?;
        self.any_line_at(heading)
    }

    /// The precedence part: a row for each job, and the place behind it.
    #[tactic(auto, unfolding(crate::specs::Layout::precedence_in))]
    pub fn precedence_at(
        &self,
        alloc: Global,
        at: Place,
        header: Header,
    ) -> Result<(List<JobRow>, Place), ReadError>
        requires { header.jobs ≤ 128 }
        ensures { Gives (λ x. (x.0, rest_at self.now.words x.1)) result
            (precedence_in self.now.end header (rest_at self.now.words at)) }
    {
        let rows = self.rows_begin_at(at)?;
        self.rows_at(alloc, rows, header.jobs)
    }
}
