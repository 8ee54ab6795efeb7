//! A project of as many jobs as there can be, made by plain arithmetic.

use project_net::{CalRow, Draft, DraftJob, Mode};
use sched_base::{List, NoMemory};
use std::alloc::Global;

const JOBS: u8 = 128;

/// There is room for three or four jobs at once.
const CAPACITIES: [u32; 2] = [10, 9];

/// What there is of the one nonrenewable resource: less than all quick modes need.
const BUDGET: u32 = 130;

/// Periods in which there is less.
const CALENDAR: [CalRow; 3] = [
    CalRow {
        resource: 1,
        begin: 40,
        until: 44,
        capacity: 3,
    },
    CalRow {
        resource: 1,
        begin: 90,
        until: 92,
        capacity: 0,
    },
    CalRow {
        resource: 2,
        begin: 20,
        until: 30,
        capacity: 4,
    },
];

fn mode(alloc: Global, duration: u32, requests: [u32; 2], need: u32) -> Result<Mode, NoMemory> {
    let requests = requests.to_vec(alloc)?;
    let needs = vec![in alloc; need]?;
    Ok(Mode {
        duration,
        requests: List::from_vec(requests),
        needs: List::from_vec(needs),
    })
}

/// The modes of a job: a quick one, and a slow one that takes less. Of three jobs one has a third mode that is like its
/// second, and one has a third that can't run.
fn modes(alloc: Global, job: u8) -> Result<List<Mode>, NoMemory> {
    let job = u32::from(job);
    let quick = 1 + job * 7 % 6;
    let slow = quick + 1 + job % 4;
    let first = 2 + job % 3;
    let second = 1 + job * 5 % 4;
    let need = job % 5;
    let mut all = Vec::new(alloc);
    let by_quick = mode(alloc, quick, [first, second], need)?;
    all.push(by_quick)?;
    let by_slow = mode(alloc, slow, [first - 1, second - 1], need / 2)?;
    all.push(by_slow)?;
    if job % 3 == 0 {
        let like_it = mode(alloc, slow, [first - 1, second - 1], need / 2)?;
        all.push(like_it)?;
    }
    if job % 3 == 1 {
        let too_much = mode(alloc, 1, [first, CAPACITIES[1] + 1], need)?;
        all.push(too_much)?;
    }
    Ok(List::from_vec(all))
}

/// The seventh job after this one and the eleventh, where they exist.
fn successors(alloc: Global, job: u8) -> Result<List<u8>, NoMemory> {
    let mut all = Vec::new(alloc);
    if job <= JOBS - 7 {
        all.push(job + 7)?;
    }
    if job <= JOBS - 11 {
        all.push(job + 11)?;
    }
    Ok(List::from_vec(all))
}

/// The draft of 128 jobs.
pub fn large_draft(alloc: Global) -> Result<Draft, NoMemory> {
    let mut jobs = Vec::new(alloc);
    for done in 0..JOBS {
        let modes = modes(alloc, done + 1)?;
        let successors = successors(alloc, done + 1)?;
        jobs.push(DraftJob { modes, successors })?;
    }
    let capacities = CAPACITIES.to_vec(alloc)?;
    let budgets = vec![in alloc; BUDGET]?;
    let calendar = CALENDAR.to_vec(alloc)?;
    Ok(Draft {
        jobs: List::from_vec(jobs),
        capacities: List::from_vec(capacities),
        budgets: List::from_vec(budgets),
        calendar: List::from_vec(calendar),
    })
}
