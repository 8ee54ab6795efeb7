use project_net::{BuildRefusal, CalRow, Draft, DraftJob, Mode, Project};
use sched_base::{List, NoMemory};
use std::alloc::Global;

/// A mode: its duration in periods, its request of each renewable resource, and its need of each nonrenewable one.
pub type ModeRow = (u32, &'static [u32], &'static [u32]);

/// A job: its modes and its direct successors.
pub type DraftRow = (&'static [ModeRow], &'static [u8]);

/// A project by its rows. Job j stands at place j - 1, and so does each resource.
#[derive(Clone, Copy)]
pub struct WorkedProject {
    /// The jobs.
    pub jobs: &'static [DraftRow],
    /// What there is of each renewable resource in each period.
    pub capacities: &'static [u32],
    /// What there is of each nonrenewable resource in all.
    pub budgets: &'static [u32],
    /// The rows of the calendar.
    pub calendar: &'static [CalRow],
}

/// The list of these numbers.
fn numbers(alloc: Global, items: &[u32]) -> Result<List<u32>, NoMemory> {
    let items = items.to_vec(alloc)?;
    Ok(List::from_vec(items))
}

/// The mode of a row.
fn mode(alloc: Global, row: &ModeRow) -> Result<Mode, NoMemory> {
    let requests = numbers(alloc, row.1)?;
    let needs = numbers(alloc, row.2)?;
    Ok(Mode {
        duration: row.0,
        requests,
        needs,
    })
}

/// The job of a row.
fn job(alloc: Global, row: &DraftRow) -> Result<DraftJob, NoMemory> {
    let mut modes = Vec::new(alloc);
    for row in row.0 {
        let mode = mode(alloc, row)?;
        modes.push(mode)?;
    }
    let successors = row.1.to_vec(alloc)?;
    Ok(DraftJob {
        modes: List::from_vec(modes),
        successors: List::from_vec(successors),
    })
}

/// The draft of a project.
///
/// # Errors
///
/// [`NoMemory`] where memory was refused.
pub fn draft(alloc: Global, worked: &WorkedProject) -> Result<Draft, NoMemory> {
    let mut jobs = Vec::new(alloc);
    for row in worked.jobs {
        let job = job(alloc, row)?;
        jobs.push(job)?;
    }
    let capacities = numbers(alloc, worked.capacities)?;
    let budgets = numbers(alloc, worked.budgets)?;
    let calendar = worked.calendar.to_vec(alloc)?;
    Ok(Draft {
        jobs: List::from_vec(jobs),
        capacities,
        budgets,
        calendar: List::from_vec(calendar),
    })
}

/// The project of a draft, behind a pointer, so that a test owns no more than that.
///
/// # Errors
///
/// [`BuildRefusal`] where the draft is none of a project, or memory was refused.
pub fn build_draft(alloc: Global, draft: Draft) -> Result<Box<Project>, BuildRefusal> {
    let project = Project::build(alloc, draft)?;
    match Box::new(alloc, project) {
        Ok(project) => Ok(project),
        Err(_) => Err(BuildRefusal::NoMemory),
    }
}

/// The project itself.
///
/// # Errors
///
/// [`BuildRefusal`] where the rows are no project, or memory was refused.
pub fn build(alloc: Global, worked: &WorkedProject) -> Result<Box<Project>, BuildRefusal> {
    let draft = draft(alloc, worked)?;
    build_draft(alloc, draft)
}
