//! The modes of a plan in hand: changed by chance, and mended where they need more than there is.

ghost use Rattle.std.specs.Prelude.{◌≡◌, length};
ghost use Rattle.rcpsp_model.specs.Project.{IsJob, IsMode, IsNonrenewable, nonrenewables};
ghost use Rattle.project_net.specs.Feasible.{IsPlaced};

use crate::draws::{draw, draw_job, draw_mode};
use crate::places::{place_of, set_mode};
use mode_rules::{executable, inefficient};
use project_net::Project;
use rand_pcg::Lcg64Xsh32;
use rcpsp_model::Placing;

/// The most jobs whose modes are changed at once.
const CHANGES: u32 = 3;

/// How many changes, for each job, are tried to bring the needs within the budgets.
const MENDS: u32 = 10;

/// How many changes are tried to use what the budgets leave.
const SHORTER: u32 = 5;

/// Another mode that a job is drawn, or the one that it has where the one drawn can't run or is inefficient.
fn drawn_mode(rng: &mut Lcg64Xsh32, project: &Project, job: u8, mode: u8) -> u8
    requires job { IsJob project.now job }
    requires mode { IsMode project.now job mode }
    ensures { IsMode project.now job result }
{
    let drawn = draw_mode(rng, project, job);
    if executable(project, job, drawn) && inefficient(project, job, drawn).is_none() {
        return drawn;
    }
    mode
}

/// The lowest mode of a job that can run, or the first where none can.
fn first_mode(project: &Project, job: u8) -> u8
    requires { IsJob project.now job }
    ensures { IsMode project.now job result }
{
    for mode in 1..project.modes(job) + 1 {
        if executable(project, job, mode) {
            return mode;
        }
    }
    1
}

/// Gives each job its lowest mode that can run.
pub fn take_first_modes(project: &Project, places: &mut [Placing])
    requires { IsPlaced project.now places.old }
    ensures { IsPlaced project.now places.new }
{
    for done in 0..project.jobs() {
        let mode = first_mode(project, done + 1);
        set_mode(project, places, done + 1, mode);
    }
}

/// Changes the modes of a few jobs.
pub fn change_modes(project: &Project, places: &mut [Placing], rng: &mut Lcg64Xsh32)
    requires { IsPlaced project.now places.old }
    ensures { IsPlaced project.now places.new }
{
    'changes: for _ in 0..draw(rng, CHANGES + 1) {
        let job = draw_job(rng, project);
        let mode = place_of(project, places, job).mode;
        let drawn = drawn_mode(rng, project, job, mode);
        set_mode(project, places, job, drawn);
    }
}

/// Draws two modes for a job, and gives it the one that takes less time.
fn draw_shorter(project: &Project, places: &mut [Placing], rng: &mut Lcg64Xsh32, job: u8)
    requires job { IsJob project.now job }
    requires placed { IsPlaced project.now places.old }
    ensures { IsPlaced project.now places.new }
{
    let mode = place_of(project, places, job).mode;
    let first = drawn_mode(rng, project, job, mode);
    let second = drawn_mode(rng, project, job, first);
    if project.duration(job, second) < project.duration(job, first) {
        set_mode(project, places, job, second);
    } else {
        set_mode(project, places, job, first);
    }
}

/// Draws modes for all jobs, more often short ones.
pub fn draw_modes(project: &Project, places: &mut [Placing], rng: &mut Lcg64Xsh32)
    requires { IsPlaced project.now places.old }
    ensures { IsPlaced project.now places.new }
{
    for done in 0..project.jobs() {
        draw_shorter(project, places, rng, done + 1);
    }
}

/// What the jobs need of a nonrenewable resource.
fn needed(project: &Project, places: &[Placing], resource: u8) -> u32
    requires placed { IsPlaced project.now places.now }
    requires resource { IsNonrenewable project.now resource }
{
    let mut needed: u32 = 0;
    for done in 0..project.jobs() {
        let mode = place_of(project, places, done + 1).mode;
        needed = needed.saturating_add(project.need(done + 1, mode, resource));
    }
    needed
}

/// Sums up what the jobs need of each nonrenewable resource.
fn sum_needs(project: &Project, places: &[Placing], needs: &mut [u32])
    requires placed { IsPlaced project.now places.now }
    requires needs { length needs.old ≡ nonrenewables project.now }
{
    for done in 0..project.nonrenewables() {
        needs[done as usize] = needed(project, places, done + 1);
    }
}

/// What is needed of a resource once a job with one need has another one.
fn after_change(needed: u32, before: u32, after: u32) -> u32 {
    needed.saturating_sub(before).saturating_add(after)
}

/// By how much the needs exceed the budgets, all together.
fn excess(project: &Project, needs: &[u32]) -> u32
    requires { length needs.now ≡ nonrenewables project.now }
{
    let mut excess: u32 = 0;
    for done in 0..project.nonrenewables() {
        let over = needs[done as usize].saturating_sub(project.budget(done + 1));
        excess = excess.saturating_add(over);
    }
    excess
}

/// By how much they exceed them once a job has changed from one mode to another.
fn excess_after(project: &Project, needs: &[u32], job: u8, from: u8, into: u8) -> u32
    requires job { IsJob project.now job }
    requires from { IsMode project.now job from }
    requires into { IsMode project.now job into }
    requires needs { length needs.now ≡ nonrenewables project.now }
{
    let mut excess: u32 = 0;
    for done in 0..project.nonrenewables() {
        let before = project.need(job, from, done + 1);
        let after = project.need(job, into, done + 1);
        let needed = after_change(needs[done as usize], before, after);
        excess = excess.saturating_add(needed.saturating_sub(project.budget(done + 1)));
    }
    excess
}

/// Carries a change of a job's mode over into the sums of needs.
fn change_needs(project: &Project, needs: &mut [u32], job: u8, from: u8, into: u8)
    requires job { IsJob project.now job }
    requires from { IsMode project.now job from }
    requires into { IsMode project.now job into }
    requires needs { length needs.old ≡ nonrenewables project.now }
{
    for done in 0..project.nonrenewables() {
        let before = project.need(job, from, done + 1);
        let after = project.need(job, into, done + 1);
        needs[done as usize] = after_change(needs[done as usize], before, after);
    }
}

/// Changes the modes by chance until the needs keep the budgets, never so that they exceed them by more, and says whether they
/// do in the end.
pub fn mend(
    project: &Project,
    places: &mut [Placing],
    needs: &mut [u32],
    rng: &mut Lcg64Xsh32,
) -> bool
    requires placed { IsPlaced project.now places.old }
    requires needs { length needs.old ≡ nonrenewables project.now }
    ensures { IsPlaced project.now places.new }
{
    sum_needs(project, places, needs);
    let mut over = excess(project, needs);
    'mends: for _ in 0..MENDS * u32::from(project.jobs()) {
        if over == 0 {
            return true;
        }
        let job = draw_job(rng, project);
        let mode = place_of(project, places, job).mode;
        let drawn = drawn_mode(rng, project, job, mode);
        let now = excess_after(project, needs, job, mode, drawn);
        if now <= over {
            change_needs(project, needs, job, mode, drawn);
            set_mode(project, places, job, drawn);
            over = now;
        }
    }
    over == 0
}

/// Changes modes of plans that keep the budgets by chance into shorter ones, as far as the needs still keep them.
pub fn shorten(project: &Project, places: &mut [Placing], needs: &mut [u32], rng: &mut Lcg64Xsh32)
    requires placed { IsPlaced project.now places.old }
    requires needs { length needs.old ≡ nonrenewables project.now }
    ensures { IsPlaced project.now places.new }
{
    'changes: for _ in 0..SHORTER {
        let job = draw_job(rng, project);
        let mode = place_of(project, places, job).mode;
        let drawn = drawn_mode(rng, project, job, mode);
        let is_shorter = project.duration(job, drawn) < project.duration(job, mode);
        if is_shorter && excess_after(project, needs, job, mode, drawn) == 0 {
            change_needs(project, needs, job, mode, drawn);
            set_mode(project, places, job, drawn);
        }
    }
}
