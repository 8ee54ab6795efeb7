ghost use Rattle.std.specs.Prelude.{◌≡◌, ◌≤◌, length, map, All, IfOk};
ghost use Rattle.psplib_layout.specs.Layout.{IsWithinContentLimits, project_of as described};
ghost use Rattle.project_net.specs.Draft.{IsWithinLimits, project_of};
ghost use Rattle.psplib_reader.specs.Drafted.{drafted};

use project_net::{Draft, DraftJob, Mode};
use psplib_layout::{Content, JobRow};
use sched_base::{List, NoMemory};
use std::alloc::Global;

/// The same job numbers, a byte each.
fn job_numbers(alloc: Global, numbers: &[u32]) -> Result<List<u8>, NoMemory>
    requires { All (λ number. number ≤ 128) numbers.now }
    ensures { IfOk result (λ jobs. jobs ≡ numbers.now) }
{
    let mut jobs = Vec::with_capacity(alloc, numbers.len())?;
    for number in numbers {
        jobs.push(*number as u8)?;
    }
    Ok(List::from_vec(jobs))
}

/// The jobs of a draft, one for each row; the modes go over into them.
fn draft_jobs(
    alloc: Global,
    rows: &[JobRow],
    modes: List<List<Mode>>,
) -> Result<List<DraftJob>, NoMemory>
    requires rows { length rows.now ≡ length modes }
    requires successors { All (λ row. All (λ s. s ≤ 128) row.successors) rows.now }
    ensures { IfOk result (λ jobs. jobs ≡ drafted rows.now modes) }
{
    let mut jobs = Vec::with_capacity(alloc, rows.len())?;
    for of_job in modes.into_vec() {
        let place = jobs.len();
        let row = &rows[place];
        let successors = job_numbers(alloc, row.successors.as_slice())?;
        jobs.push(DraftJob {
            modes: of_job,
            successors,
        })?;
    }
    Ok(List::from_vec(jobs))
}

/// The draft of the project that a content describes.
pub fn draft_of(alloc: Global, content: Content) -> Result<Draft, NoMemory>
    requires { IsWithinContentLimits content }
    ensures project { IfOk result (λ draft. project_of draft ≡ described content) }
    ensures limits { IfOk result IsWithinLimits }
{
    let Content {
        rows,
        modes,
        amounts,
        calendar,
        ..
    } = content;
    let jobs = draft_jobs(alloc, rows.as_slice(), modes)?;
    Ok(Draft {
        jobs,
        capacities: amounts.capacities,
        budgets: amounts.budgets,
        calendar,
    })
}
