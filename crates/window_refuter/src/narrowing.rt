ghost use Rattle.std.specs.Prelude.{◌≡◌, ◌+◌, ◌<◌, ◌≤◌, ◌↔◌, length, All, IsTrue};
ghost use Rattle.rcpsp_model.specs.Project.{Before, job_count};
ghost use Rattle.window_refuter.specs.declared.step.BoundStep.TheVariants.{Head, Tail, Disjoint};
ghost use Rattle.window_refuter.specs.Windows.{NoneIsEmpty};
ghost use Rattle.window_refuter.specs.Steps.{IsConflict, with_start, with_finish};
ghost use Rattle.window_refuter.specs.Narrowing.{IsGrounded, IsTaken};

use crate::emptiness::{earliest_finish, latest_start, window};
use crate::least::{conflict, is_job};
use crate::step::BoundStep;
use crate::window::Window;
use mode_rules::least_duration;
use project_net::Project;
use sched_base::Job;

/// Gives a job another earliest start.
#[tactic(auto, unfolding(crate::specs::Steps::with_start, crate::specs::Windows::window_of))]
fn set_start(windows: &mut [Window], job: u8, start: u32)
    requires low { 1 ≤ job }
    requires high { job ≤ length windows.old }
    ensures { windows.new ≡ with_start windows.old job start }
{
    windows[job as usize - 1].earliest_start = start;
}

/// Gives a job another latest finish.
#[tactic(auto, unfolding(crate::specs::Steps::with_finish, crate::specs::Windows::window_of))]
fn set_finish(windows: &mut [Window], job: u8, finish: u32)
    requires low { 1 ≤ job }
    requires high { job ≤ length windows.old }
    ensures { windows.new ≡ with_finish windows.old job finish }
{
    windows[job as usize - 1].latest_finish = finish;
}

/// Whether the second job is a direct successor of the first.
pub(crate) fn is_pair(project: &Project, first: u8, second: u8) -> bool
    ensures { IsTrue result ↔ Before project.now first second }
{
    project.known();
    is_job(project, first) && is_job(project, second) && project.succs(first).has(Job(second))
}

/// Whether the project has the pair or the conflict that a step rests on.
pub(crate) fn is_grounded(project: &Project, step: BoundStep) -> bool
    ensures { IsTrue result ↔ IsGrounded project.now step }
{
    match step {
        BoundStep::Head(first, second) | BoundStep::Tail(first, second) => {
            is_pair(project, first, second)
        }
        BoundStep::Disjoint(first, second, resource) => {
            conflict(project, first, second, resource)
        }
        BoundStep::Work(_, _, _) | BoundStep::Empty(_) => false,
    }
}

/// Raises the earliest start of the second job to the earliest finish of the first, where that is greater.
fn raise_head(project: &Project, windows: &mut [Window], first: u8, second: u8) -> bool
    requires before { Before project.now first second }
    requires size { length windows.old ≡ job_count project.now }
    requires starts { All (λ w. w.earliest_start ≤ 1290000) windows.old }
    ensures { IsTaken project.now windows.old (Head first second) result windows.new }
{
    project.known();
    let finish = earliest_finish(project, windows, first);
    if finish <= window(windows, second).earliest_start {
        return false;
    }
    set_start(windows, second, finish);
    true
}

/// Lowers the latest finish of the first job to the latest start of the second, where that is less.
fn lower_tail(project: &Project, windows: &mut [Window], first: u8, second: u8) -> bool
    requires before { Before project.now first second }
    requires size { length windows.old ≡ job_count project.now }
    ensures { IsTaken project.now windows.old (Tail first second) result windows.new }
{
    project.known();
    let start = latest_start(project, windows, second);
    if window(windows, first).latest_finish <= start {
        return false;
    }
    set_finish(windows, first, start);
    true
}

/// Puts the second job after the first, where the other order has no room in their windows.
fn order(project: &Project, windows: &mut [Window], first: u8, second: u8, resource: u8) -> bool
    requires conflict { IsConflict project.now first second resource }
    requires size { length windows.old ≡ job_count project.now }
    requires starts { All (λ w. w.earliest_start ≤ 1290000) windows.old }
    ensures { IsTaken project.now windows.old (Disjoint first second resource) result windows.new }
{
    let latest = window(windows, first).latest_finish;
    let room = earliest_finish(project, windows, second) + least_duration(project, first);
    if room <= latest {
        return false;
    }
    let earliest = window(windows, second).earliest_start;
    let finish = earliest_finish(project, windows, first);
    let start = latest_start(project, windows, second);
    if finish <= earliest && latest <= start {
        return false;
    }
    set_start(windows, second, earliest.max(finish));
    set_finish(windows, first, latest.min(start));
    true
}

/// Takes a step that narrows a window, where it does.
pub(crate) fn narrow(project: &Project, windows: &mut [Window], step: BoundStep) -> bool
    requires grounded { IsGrounded project.now step }
    requires size { length windows.old ≡ job_count project.now }
    requires starts { All (λ w. w.earliest_start ≤ 1290000) windows.old }
    ensures { IsTaken project.now windows.old step result windows.new }
{
    match step {
        BoundStep::Head(first, second) => raise_head(project, windows, first, second),
        BoundStep::Tail(first, second) => lower_tail(project, windows, first, second),
        BoundStep::Disjoint(first, second, resource) => {
            order(project, windows, first, second, resource)
        }
        BoundStep::Work(_, _, _) | BoundStep::Empty(_) => false,
    }
}
