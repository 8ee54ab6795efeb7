//! The tries.

ghost use Rattle.std.specs.Prelude.{◌≡◌, ◌≤◌, ◌⊎◌, length, IfOk};
ghost use Rattle.rcpsp_model.specs.Project.{job_count};
ghost use Rattle.project_net.specs.Feasible.{IsPlaced};
ghost use Rattle.plan_search.specs.Tools.{AreFor};

use crate::draws::draw;
use crate::modes::{change_modes, draw_modes, mend, shorten};
use crate::places::{finish_of, place_of, plan_end};
use crate::room::Room;
use crate::scheme::{Direction, place_all};
use project_net::Project;
use rand_pcg::Lcg64Xsh32;
use rcpsp_model::Placing;
use sched_base::NoMemory;
use std::alloc::Global;

/// The seed and the stream of the generator, the same for all projects.
const SEED: u64 = 7;

const STREAM: u64 = 54;

/// One try in so many begins anew, all of them at first.
const ANEW: u32 = 30;

/// What a try works with, all of it made before the first one.
#[derive(Drop)]
pub struct Tools {
    /// By which the jobs are ordered, that of job j at place j - 1.
    pub keys: Vec<u32>,
    /// What the modes need of each nonrenewable resource.
    pub needs: Vec<u32>,
    /// All that there is of the renewable resources.
    pub whole: Room,
    /// What is left of it.
    pub room: Room,
    /// What is drawn.
    pub rng: Lcg64Xsh32,
}

/// The tools for a project.
pub fn tools_for(alloc: Global, project: &Project) -> Result<Tools, NoMemory>
    ensures { IfOk result (AreFor project.now) }
{
    let keys = vec![in alloc; 0; usize::from(project.jobs())]?;
    let needs = vec![in alloc; 0; usize::from(project.nonrenewables())]?;
    let whole = Room::whole(alloc, project)?;
    let room = Room::empty(alloc, project, &whole)?;
    let rng = Lcg64Xsh32::new(SEED, STREAM);
    Ok(Tools {
        keys,
        needs,
        whole,
        room,
        rng,
    })
}

/// Orders the jobs by their starts, four for each period, and up to a number more that is drawn for each.
fn order_by_starts(
    project: &Project,
    places: &[Placing],
    keys: &mut [u32],
    rng: &mut Lcg64Xsh32,
    width: u32,
)
    requires placed { IsPlaced project.now places.now }
    requires keys { length keys.old ≡ job_count project.now }
    requires width { 1 ≤ width }
{
    for done in 0..project.jobs() {
        let start = place_of(project, places, done + 1).start;
        keys[done as usize] = start.saturating_mul(4).saturating_add(draw(rng, width));
    }
}

/// Orders the jobs by falling tails, four for each period, and up to a number more that is drawn for each.
fn order_by_tails(project: &Project, keys: &mut [u32], rng: &mut Lcg64Xsh32, width: u32)
    requires keys { length keys.old ≡ job_count project.now }
    requires width { 1 ≤ width }
{
    for done in 0..project.jobs() {
        let tail = project.tail(done + 1).saturating_mul(4);
        keys[done as usize] = (u32::MAX - tail).saturating_sub(draw(rng, width));
    }
}

/// Orders the jobs by falling finish.
fn order_by_finishes(project: &Project, places: &[Placing], keys: &mut [u32])
    requires placed { IsPlaced project.now places.now }
    requires keys { length keys.old ≡ job_count project.now }
{
    for done in 0..project.jobs() {
        keys[done as usize] = u32::MAX - finish_of(project, places, done + 1);
    }
}

/// The greatest tail.
fn longest_tail(project: &Project) -> u32
    ensures { result ≤ 1280000 }
{
    let mut longest = 0;
    for done in 0..project.jobs() {
        longest = longest.max(project.tail(done + 1));
    }
    longest
}

/// Places the jobs in the order of the keys, then pulls them together by a pass back and one forth: whether there is a plan.
fn place(project: &Project, places: &mut [Placing], tools: &mut Tools) -> bool
    requires placed { IsPlaced project.now places.old }
    requires tools { AreFor project.now tools.old }
    ensures placed { IsPlaced project.now places.new }
    ensures tools { AreFor project.now tools.new }
{
    if !scheme(project, places, tools, Direction::Forward) {
        return false;
    }
    let end = plan_end(project, places);
    order_by_finishes(project, places, &mut tools.keys);
    if !scheme(project, places, tools, Direction::Backward { end }) {
        return false;
    }
    order_by_starts(project, places, &mut tools.keys, &mut tools.rng, 1);
    scheme(project, places, tools, Direction::Forward)
}

/// Places the jobs in the order of the keys beside nothing: whether there was room for all.
fn scheme(
    project: &Project,
    places: &mut [Placing],
    tools: &mut Tools,
    direction: Direction,
) -> bool
    requires placed { IsPlaced project.now places.old }
    requires tools { AreFor project.now tools.old }
    ensures placed { IsPlaced project.now places.new }
    ensures tools { AreFor project.now tools.new }
{
    tools.room.reset(&tools.whole);
    place_all(
        project,
        places,
        tools.keys.as_slice(),
        &mut tools.room,
        direction,
    )
}

/// Draws modes and an order anew: whether the modes keep the budgets.
fn begin_anew(project: &Project, places: &mut [Placing], tools: &mut Tools) -> bool
    requires placed { IsPlaced project.now places.old }
    requires tools { AreFor project.now tools.old }
    ensures placed { IsPlaced project.now places.new }
    ensures tools { AreFor project.now tools.new }
{
    draw_modes(project, places, &mut tools.rng);
    let width = 1 + draw(&mut tools.rng, 1 + longest_tail(project));
    order_by_tails(project, &mut tools.keys, &mut tools.rng, width);
    mend(project, places, &mut tools.needs, &mut tools.rng)
}

/// Changes the modes and the order of a plan with this end: whether the modes keep the budgets.
fn vary(project: &Project, places: &mut [Placing], tools: &mut Tools, end: u32) -> bool
    requires placed { IsPlaced project.now places.old }
    requires tools { AreFor project.now tools.old }
    ensures placed { IsPlaced project.now places.new }
    ensures tools { AreFor project.now tools.new }
{
    change_modes(project, places, &mut tools.rng);
    let widest = 1 + 3 * end.min(1_300_000);
    let width = 1 + draw(&mut tools.rng, widest);
    order_by_starts(project, places, &mut tools.keys, &mut tools.rng, width);
    mend(project, places, &mut tools.needs, &mut tools.rng)
}

/// Makes another plan of one with this end, or one anew of none: its end, or `None` where nothing comes of it.
fn try_once(
    project: &Project,
    places: &mut [Placing],
    tools: &mut Tools,
    end: Option<u32>,
) -> Option<u32>
    requires placed { IsPlaced project.now places.old }
    requires tools { AreFor project.now tools.old }
    ensures placed { IsPlaced project.now places.new }
    ensures tools { AreFor project.now tools.new }
{
    let keeps_budgets = match end {
        Some(end) => vary(project, places, tools, end),
        None => begin_anew(project, places, tools),
    };
    if !keeps_budgets {
        return None;
    }
    shorten(project, places, &mut tools.needs, &mut tools.rng);
    if !place(project, places, tools) {
        return None;
    }
    Some(plan_end(project, places))
}

/// Keeps what a try made where it ends no later than what was kept before: the end of what is kept.
fn keep(kept: &mut [Placing], made: &[Placing], end: Option<u32>, found: u32) -> Option<u32>
    requires { length kept.old ≡ length made.now }
    ensures { (kept.new ≡ kept.old) ⊎ (kept.new ≡ made.now) }
{
    match end {
        Some(least) if least < found => end,
        _ => {
            kept.copy_from_slice(made);
            Some(found)
        }
    }
}

/// So many tries from a plan with this end, or from none: the end of the plan that is kept, if there is one. They take no memory.
pub fn run_tries(
    project: &Project,
    kept: &mut [Placing],
    made: &mut [Placing],
    tools: &mut Tools,
    end: Option<u32>,
    tries: u32,
) -> Option<u32>
    requires kept { IsPlaced project.now kept.old }
    requires made { IsPlaced project.now made.old }
    requires tools { AreFor project.now tools.old }
    ensures { IsPlaced project.now kept.new }
{
    let mut least = end;
    for number in 0..tries {
        made.copy_from_slice(kept);
        let from = if number < tries / ANEW { None } else { least };
        match try_once(project, made, tools, from) {
            Some(found) => least = keep(kept, made, least, found),
            None => (),
        }
    }
    least
}
