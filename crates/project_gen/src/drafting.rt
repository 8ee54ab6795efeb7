//! From what is drawn to a draft.

ghost use Rattle.std.specs.Prelude.{◌≡◌, ◌≤◌, length, map, IfOk};
ghost use Rattle.std.specs.List.{range_with_len};
ghost use Rattle.project_gen.specs.Drafting.{followers_in, successors_in, job_in, made_draft};

use crate::drawing::{Drawn, Predecessors, draw_jobs};
use crate::needs::budgets;
use project_net::{Draft, DraftJob, Mode};
use rand_core::Rng;
use sched_base::{List, NoMemory};
use std::alloc::Global;

/// The jobs that have the job among their predecessors, which are given from job 2 on.
fn followers(alloc: Global, predecessors: &[Predecessors], job: u8) -> Result<Vec<u8>, NoMemory>
    requires { length predecessors.now ≤ 126 }
    ensures { IfOk result (λ found. found.items ≡ followers_in predecessors.now job) }
{
    let mut found = Vec::new(alloc);
    for place in 0..predecessors.len() {
        if predecessors[place].contains(job) {
            found.push(place as u8 + 2)?;
        }
    }
    Ok(found)
}

/// The successors of a job: those that drew it, or the last job where none did.
fn successors(
    alloc: Global,
    predecessors: &[Predecessors],
    job: u8,
    jobs: u8,
) -> Result<List<u8>, NoMemory>
    requires { length predecessors.now ≤ 126 }
    ensures { IfOk result (λ found. found ≡ successors_in jobs predecessors.now job) }
{
    if job == jobs {
        return Ok(List::new(alloc));
    }
    let mut found = followers(alloc, predecessors, job)?;
    if found.is_empty() {
        found.push(jobs)?;
    }
    Ok(List::from_vec(found))
}

/// The jobs of the draft, each with its modes, which go over into it.
fn draft_jobs(
    alloc: Global,
    predecessors: &[Predecessors],
    modes: List<List<Mode>>,
) -> Result<List<DraftJob>, NoMemory>
    requires predecessors { length predecessors.now ≤ 126 }
    requires few { length modes ≤ 128 }
    ensures { IfOk result (λ drafted. drafted ≡ map (job_in (length modes) predecessors.now modes) (range_with_len 1 (length modes))) }
{
    let jobs = modes.len() as u8;
    let mut drafted = Vec::with_capacity(alloc, modes.len())?;
    for of_job in modes.into_vec() {
        let job = drafted.len() as u8 + 1;
        let successors = successors(alloc, predecessors, job, jobs)?;
        drafted.push(DraftJob {
            modes: of_job,
            successors,
        })?;
    }
    Ok(List::from_vec(drafted))
}

/// The draft of a project that is made of the words of a generator.
pub fn draft_of<R: Rng>(alloc: Global, rng: &mut R, jobs: u8, modes: u8) -> Result<Draft, NoMemory>
    requires some { 3 ≤ jobs }
    requires few { jobs ≤ 128 }
    requires some_mode { 1 ≤ modes }
    requires few_modes { modes ≤ 4 }
    ensures { IfOk result (λ draft. draft ≡ made_draft jobs modes (R.stream rng.old)) }
{
    let Drawn {
        predecessors,
        modes: of_jobs,
    } = draw_jobs(alloc, rng, jobs, modes)?;
    let drafted = draft_jobs(alloc, predecessors.as_slice(), of_jobs)?;
    let budgets = budgets(alloc, drafted.as_slice(), modes)?;
    let capacities = vec![in alloc; 8, 8]?;
    Ok(Draft {
        jobs: drafted,
        capacities: List::from_vec(capacities),
        budgets,
        calendar: List::new(alloc),
    })
}
