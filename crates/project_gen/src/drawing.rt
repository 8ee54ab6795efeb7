//! What is drawn for the jobs: whom they follow, and their modes.

ghost use Rattle.std.specs.Prelude.{◌≡◌, ◌*◌, ◌<◌, ◌≤◌, if◌then◌else◌, [], ◌∷◌, IfOk, OnOk};
ghost use Rattle.project_gen.specs.Draws.{after, draw, two_draws};
ghost use Rattle.project_gen.specs.Made.{has_budgets, need_words, mode_words, drawn_needs, drawn_mode, drawn_modes, drawn_predecessors, idle_mode, is_either};
ghost use Rattle.project_gen.specs.Drafting.{AreDrawn};

use project_net::Mode;
use rand_core::Rng;
use sched_base::{List, NoMemory};
use std::alloc::Global;

/// The two jobs that are drawn to come before a job; they may be the same.
#[derive(Clone, Copy, Debug, PartialEq, Eq)]
pub struct Predecessors {
    /// The one that is drawn first.
    pub first: u8,
    /// The other.
    pub second: u8,
}

impl Predecessors {
    /// Whether the job is one of the two.
    pub fn contains(self, job: u8) -> bool
        ensures { result ≡ is_either job self }
    {
        self.first == job || self.second == job
    }
}

/// What is drawn for a project.
#[derive(Drop)]
pub struct Drawn {
    /// The predecessors of the jobs from 2 to the last but one.
    pub predecessors: List<Predecessors>,
    /// The modes of all jobs.
    pub modes: List<List<Mode>>,
}

/// The next word, modulo the bound.
fn draw<R: Rng>(rng: &mut R, bound: u32) -> u32
    requires { 1 ≤ bound }
    ensures value { result ≡ draw (R.stream rng.old) 0 bound }
    ensures below { result < bound }
    ensures left { R.stream rng.new ≡ after 1 (R.stream rng.old) }
{
    rng.next_u32() % bound
}

/// The next two words, each modulo the bound.
fn draw_two<R: Rng>(alloc: Global, rng: &mut R, bound: u32) -> Result<List<u32>, NoMemory>
    requires { 1 ≤ bound }
    ensures numbers { IfOk result (λ numbers. numbers ≡ two_draws (R.stream rng.old) 0 bound) }
    ensures left { OnOk result (R.stream rng.new ≡ after 2 (R.stream rng.old)) }
{
    let first = draw(rng, bound);
    let second = draw(rng, bound);
    let numbers = vec![in alloc; first, second]?;
    Ok(List::from_vec(numbers))
}

/// Whether there are nonrenewable resources: where the jobs have several modes.
pub fn has_budgets(modes: u8) -> bool
    ensures { result ≡ has_budgets modes }
{
    2 <= modes
}

/// Two needs, 0 to 9 each, where there are nonrenewable resources, else none.
fn draw_needs<R: Rng>(alloc: Global, rng: &mut R, modes: u8) -> Result<List<u32>, NoMemory>
    ensures needs { IfOk result (λ needs. needs ≡ drawn_needs modes (R.stream rng.old) 0) }
    ensures left { OnOk result (R.stream rng.new ≡ after (need_words modes) (R.stream rng.old)) }
{
    if !has_budgets(modes) {
        return Ok(List::new(alloc));
    }
    draw_two(alloc, rng, 10)
}

/// A mode of jobs with so many modes: 1 to 10 periods, the requests of two renewable resources, 0 to 5 each, and needs.
fn draw_mode<R: Rng>(alloc: Global, rng: &mut R, modes: u8) -> Result<Mode, NoMemory>
    ensures mode { IfOk result (λ mode. mode ≡ drawn_mode modes (R.stream rng.old)) }
    ensures left { OnOk result (R.stream rng.new ≡ after (mode_words modes) (R.stream rng.old)) }
{
    let duration = 1 + draw(rng, 10);
    let requests = draw_two(alloc, rng, 6)?;
    let needs = draw_needs(alloc, rng, modes)?;
    Ok(Mode {
        duration,
        requests,
        needs,
    })
}

/// The modes of a job, of which there are so many.
fn draw_modes<R: Rng>(alloc: Global, rng: &mut R, modes: u8) -> Result<List<Mode>, NoMemory>
    ensures modes { IfOk result (λ drawn. drawn ≡ drawn_modes modes (R.stream rng.old)) }
    ensures left { OnOk result (R.stream rng.new ≡ after (modes * mode_words modes) (R.stream rng.old)) }
{
    let mut drawn = Vec::with_capacity(alloc, modes as usize)?;
    for _ in 0..modes {
        let mode = draw_mode(alloc, rng, modes)?;
        drawn.push(mode)?;
    }
    Ok(List::from_vec(drawn))
}

/// The predecessors of a job, each one before it.
fn draw_predecessors<R: Rng>(rng: &mut R, job: u8) -> Predecessors
    requires low { 2 ≤ job }
    requires high { job ≤ 128 }
    ensures value { result ≡ drawn_predecessors job (R.stream rng.old) }
    ensures left { R.stream rng.new ≡ after 2 (R.stream rng.old) }
{
    let before = u32::from(job) - 1;
    let first = draw(rng, before);
    let second = draw(rng, before);
    Predecessors {
        first: 1 + first as u8,
        second: 1 + second as u8,
    }
}

/// Two needs of nothing where there are nonrenewable resources, else none.
fn idle_needs(alloc: Global, modes: u8) -> Result<List<u32>, NoMemory>
    ensures { IfOk result (λ needs. needs ≡ (if has_budgets modes then 0 ∷ 0 ∷ [] else [])) }
{
    if !has_budgets(modes) {
        return Ok(List::new(alloc));
    }
    let needs = vec![in alloc; 0, 0]?;
    Ok(List::from_vec(needs))
}

/// The one mode of a job that takes nothing.
fn idle_modes(alloc: Global, modes: u8) -> Result<List<Mode>, NoMemory>
    ensures { IfOk result (λ idle. idle ≡ idle_mode modes ∷ []) }
{
    let requests = vec![in alloc; 0, 0]?;
    let needs = idle_needs(alloc, modes)?;
    let idle = vec![in alloc;
        Mode {
            duration: 0,
            requests: List::from_vec(requests),
            needs,
        },
    ]?;
    Ok(List::from_vec(idle))
}

/// What is drawn for a project of so many jobs, each but the first and the last of so many modes.
pub fn draw_jobs<R: Rng>(alloc: Global, rng: &mut R, jobs: u8, modes: u8) -> Result<Drawn, NoMemory>
    requires some { 3 ≤ jobs }
    requires few { jobs ≤ 128 }
    ensures { IfOk result (AreDrawn jobs modes (R.stream rng.old)) }
{
    let mut predecessors = Vec::with_capacity(alloc, jobs as usize)?;
    let mut of_jobs = Vec::with_capacity(alloc, jobs as usize)?;
    let first = idle_modes(alloc, modes)?;
    of_jobs.push(first)?;
    for job in 2..jobs {
        let before = draw_predecessors(rng, job);
        predecessors.push(before)?;
        let drawn = draw_modes(alloc, rng, modes)?;
        of_jobs.push(drawn)?;
    }
    let last = idle_modes(alloc, modes)?;
    of_jobs.push(last)?;
    Ok(Drawn {
        predecessors: List::from_vec(predecessors),
        modes: List::from_vec(of_jobs),
    })
}
