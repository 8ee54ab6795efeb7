//! Whether a schedule is feasible, without a walk over its periods: the usage of a resource rises only where a job starts,
//! and what there is of it changes only where a stretch begins.

ghost use Rattle.std.specs.Prelude.{◌≡◌, ℕ, ◌<◌, ◌≤◌, ◌↔◌, IsTrue, [], ◌∷◌, length, All};
ghost use Rattle.rcpsp_model.specs.Project.{IsJob, IsMode, IsRenewable, IsNonrenewable, job_count};
ghost use Rattle.rcpsp_model.specs.Schedule.{IsFeasible, KeepsBudgets, KeepsCapacities, entries, usage, used};
ghost use Rattle.project_net.specs.Feasible.{IsPlaced, EndsBeforeSuccessors, entry_in, FitsAtStart, FitsAtBegin, KeepsCapacity};
ghost use Rattle.project_net.specs.Stretches.{AreStretches};

use crate::project::Project;
use crate::schedule::Schedule;
use crate::stretches::Stretch;
use rcpsp_model::Entry;

/// The entry of a job in a schedule.
fn entry_of(project: &Project, schedule: &Schedule, job: u8) -> Entry
    requires job { IsJob project.now job }
    requires placed { IsPlaced project.now schedule.now }
    ensures entry { result ≡ entry_in schedule.now job }
    ensures mode { IsMode project.now job result.mode }
    ensures start { result.start ≤ 999999999 }
{
    let _ = project;
    let place = schedule.place(job);
    Entry {
        job,
        mode: place.mode,
        start: place.start,
    }
}

/// Whether no successor of a job starts before the job's finish.
fn ends_before_successors(project: &Project, schedule: &Schedule, job: u8) -> bool
    requires job { IsJob project.now job }
    requires placed { IsPlaced project.now schedule.now }
    ensures { IsTrue result ↔ EndsBeforeSuccessors project.now schedule.now job }
{
    project.known();
    let entry = entry_of(project, schedule, job);
    let finish = entry.start + project.duration(job, entry.mode);
    let successors = project.succs(job);
    let mut last = 0;
    while let Some(next) = successors.next_after(last) {
        if schedule.place(next.0).start < finish {
            return false;
        }
        last = next.0;
    }
    true
}

/// Whether each job starts after its predecessors.
fn keeps_order(project: &Project, schedule: &Schedule) -> bool
    requires { IsPlaced project.now schedule.now }
    ensures { IsTrue result ↔ ((i : ℕ) → IsJob project.now i → EndsBeforeSuccessors project.now schedule.now i) }
{
    for done in 0..project.jobs() {
        if !ends_before_successors(project, schedule, done + 1) {
            return false;
        }
    }
    true
}

/// What the jobs of a schedule need of a nonrenewable resource, 0 to 128,000,000.
fn needed(project: &Project, schedule: &Schedule, resource: u8) -> u32
    requires resource { IsNonrenewable project.now resource }
    requires placed { IsPlaced project.now schedule.now }
    ensures { result ≡ used project.now (entries schedule.now) resource }
{
    let mut needed = 0;
    for done in 0..project.jobs() {
        let entry = entry_of(project, schedule, done + 1);
        needed += project.need(done + 1, entry.mode, resource);
    }
    needed
}

/// Whether the needs of the jobs keep each budget.
fn keeps_budgets(project: &Project, schedule: &Schedule) -> bool
    requires { IsPlaced project.now schedule.now }
    ensures { IsTrue result ↔ KeepsBudgets project.now (entries schedule.now) }
{
    for done in 0..project.nonrenewables() {
        if needed(project, schedule, done + 1) > project.budget(done + 1) {
            return false;
        }
    }
    true
}

/// What an entry takes of a renewable resource in a period, 0 to 1,000,000.
fn load_of(project: &Project, entry: Entry, resource: u8, period: u32) -> u32
    requires job { IsJob project.now entry.job }
    requires mode { IsMode project.now entry.job entry.mode }
    requires start { entry.start ≤ 999999999 }
    requires resource { IsRenewable project.now resource }
    ensures value { result ≡ usage project.now (entry ∷ []) resource period }
    ensures limit { result ≤ 1000000 }
{
    let finish = entry.start + project.duration(entry.job, entry.mode);
    if period < entry.start || finish <= period {
        return 0;
    }
    project.request(entry.job, entry.mode, resource)
}

/// What the jobs of a schedule take of a renewable resource in a period, 0 to 128,000,000.
fn usage_at(project: &Project, schedule: &Schedule, resource: u8, period: u32) -> u32
    requires resource { IsRenewable project.now resource }
    requires placed { IsPlaced project.now schedule.now }
    ensures { result ≡ usage project.now (entries schedule.now) resource period }
{
    let mut usage = 0;
    for done in 0..project.jobs() {
        let entry = entry_of(project, schedule, done + 1);
        usage += load_of(project, entry, resource, period);
    }
    usage
}

/// Whether the usage of a renewable resource where a job starts is at most what there is, or the job doesn't add to it.
fn fits_at_start(project: &Project, schedule: &Schedule, resource: u8, job: u8) -> bool
    requires resource { IsRenewable project.now resource }
    requires job { IsJob project.now job }
    requires placed { IsPlaced project.now schedule.now }
    ensures { IsTrue result ↔ FitsAtStart project.now schedule.now resource job }
{
    let entry = entry_of(project, schedule, job);
    project.request(job, entry.mode, resource) == 0
        || usage_at(project, schedule, resource, entry.start)
            <= project.capacity_at(resource, entry.start)
}

/// Whether each job fits where it starts, or doesn't add to the usage of the resource.
fn fits_at_starts(project: &Project, schedule: &Schedule, resource: u8) -> bool
    requires resource { IsRenewable project.now resource }
    requires placed { IsPlaced project.now schedule.now }
    ensures { IsTrue result ↔ ((j : ℕ) → IsJob project.now j → FitsAtStart project.now schedule.now resource j) }
{
    for done in 0..project.jobs() {
        if !fits_at_start(project, schedule, resource, done + 1) {
            return false;
        }
    }
    true
}

/// Whether the usage of a renewable resource where a stretch begins is at most what there is.
fn fits_at_begins(
    project: &Project,
    schedule: &Schedule,
    resource: u8,
    stretches: &[Stretch],
) -> bool
    requires resource { IsRenewable project.now resource }
    requires placed { IsPlaced project.now schedule.now }
    ensures { IsTrue result ↔ ((i : ℕ) → i < length stretches.now → FitsAtBegin project.now schedule.now resource stretches.now i) }
{
    for stretch in stretches {
        if usage_at(project, schedule, resource, stretch.begin) > stretch.capacity {
            return false;
        }
    }
    true
}

/// Whether the usage of a renewable resource is at most what there is in each period.
fn keeps_capacity(project: &Project, schedule: &Schedule, resource: u8) -> bool
    requires resource { IsRenewable project.now resource }
    requires placed { IsPlaced project.now schedule.now }
    ensures { IsTrue result ↔ KeepsCapacity project.now (entries schedule.now) resource }
{
    let stretches = project.stretches(resource);
    fits_at_begins(project, schedule, resource, stretches)
        && fits_at_starts(project, schedule, resource)
}

/// Whether the usage of each renewable resource is at most what there is in each period.
fn keeps_capacities(project: &Project, schedule: &Schedule) -> bool
    requires { IsPlaced project.now schedule.now }
    ensures { IsTrue result ↔ KeepsCapacities project.now (entries schedule.now) }
{
    for done in 0..project.renewables() {
        if !keeps_capacity(project, schedule, done + 1) {
            return false;
        }
    }
    true
}

/// Whether a schedule with a placing for each job is feasible.
pub fn is_feasible(project: &Project, schedule: &Schedule) -> bool
    requires whole { length schedule.now ≡ job_count project.now }
    requires starts { All (λ p. p.start ≤ 999999999) schedule.now }
    ensures { IsTrue result ↔ IsFeasible project.now schedule.now }
{
    project.known();
    if !project.has_modes_of(schedule) {
        return false;
    }
    keeps_budgets(project, schedule)
        && keeps_order(project, schedule)
        && keeps_capacities(project, schedule)
}
