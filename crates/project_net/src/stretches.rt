//! What there is of the renewable resources, as stretches of periods.

ghost use Rattle.std.specs.Prelude.{◌≡◌, ℕ, ◌+◌, ◌≤◌, ◌<◌, ◌++◌, length, IfOk, OnOk};
ghost use Rattle.rcpsp_model.specs.Project.{IsRenewable};
ghost use Rattle.rcpsp_model.specs.Schedule.{calm};
ghost use Rattle.project_net.specs.Stretches.{begin_of, AreStretches, AreAllStretches, row_stretches};

use crate::network::Network;
use rcpsp_model::CalRow;
use sched_base::NoMemory;
use std::alloc::Global;

/// Periods in which there is one amount of a renewable resource: those from the first up to that of the next stretch, and in
/// the last stretch all later ones.
#[derive(Clone, Copy, Debug, PartialEq, Eq)]
pub struct Stretch {
    /// The first period, 0 to 10,000.
    pub begin: u32,
    /// What there is of the resource in each of the periods: 0 to 1,000,000.
    pub capacity: u32,
}

/// The stretches of all renewable resources, one resource's after another's.
#[derive(Drop)]
pub struct StretchTable {
    /// The stretches.
    pub stretches: Vec<Stretch>,
    /// The place of each resource's first stretch, and last how many stretches there are.
    pub firsts: Vec<usize>,
    /// The greatest end of a row of the calendar, 0 where there is none: from this period on each capacity is whole.
    pub calm: u32,
}

/// Appends what a row adds to the stretches of its resource, which reach up to a period.
fn push_row(
    stretches: &mut Vec<Stretch>,
    at: u32,
    capacity: u32,
    row: &CalRow,
) -> Result<(), NoMemory>
    ensures { OnOk result (stretches.new.items ≡ stretches.old.items ++ row_stretches at capacity row.now) }
{
    if at < row.begin {
        stretches.push(Stretch {
            begin: at,
            capacity,
        })?;
    }
    stretches.push(Stretch {
        begin: row.begin,
        capacity: row.capacity,
    })?;
    Ok(())
}

/// The stretches of a renewable resource.
fn stretches_of(alloc: Global, network: &Network, resource: u8) -> Result<Vec<Stretch>, NoMemory>
    requires { IsRenewable network.now resource }
    ensures { IfOk result (λ v. AreStretches network.now resource v.items) }
{
    network.known();
    let capacity = network.capacity(resource);
    let mut stretches = Vec::new(alloc);
    let mut at = 0;
    for row in network.calendar() {
        if row.resource != resource {
            continue;
        }
        push_row(&mut stretches, at, capacity, row)?;
        at = row.until;
    }
    stretches.push(Stretch {
        begin: at,
        capacity,
    })?;
    Ok(stretches)
}

/// The greatest end of a row.
#[tactic(auto, unfolding(rcpsp_model::specs::Schedule::calm))]
fn calm(network: &Network) -> u32
    ensures { result ≡ calm network.now }
{
    let mut calm = 0;
    for row in network.calendar() {
        calm = calm.max(row.until);
    }
    calm
}

/// The stretches of all renewable resources.
pub fn stretch_table(alloc: Global, network: &Network) -> Result<StretchTable, NoMemory>
    ensures { IfOk result (AreAllStretches network.now) }
{
    let mut stretches = Vec::new(alloc);
    let mut firsts = Vec::new(alloc);
    firsts.push(0)?;
    for done in 0..network.renewables() {
        let own = stretches_of(alloc, network, done + 1)?;
        stretches.extend_from_slice(own.as_slice())?;
        firsts.push(stretches.len())?;
    }
    let calm = calm(network);
    Ok(StretchTable {
        stretches,
        firsts,
        calm,
    })
}

/// How many stretches begin no later than the period.
fn begun_by(stretches: &[Stretch], period: u32) -> usize
    requires { (i j : ℕ) → i < j → j < length stretches.now → begin_of stretches.now i < begin_of stretches.now j }
    ensures within { result ≤ length stretches.now }
    ensures begun { (i : ℕ) → i < result → begin_of stretches.now i ≤ period }
    ensures ahead { (i : ℕ) → result ≤ i → i < length stretches.now → period < begin_of stretches.now i }
{
    stretches.partition_point(|stretch| stretch.begin <= period)
}

/// The place of the last stretch that begins no later than the period.
pub fn place_at(stretches: &[Stretch], period: u32) -> usize
    requires some { 1 ≤ length stretches.now }
    requires first { begin_of stretches.now 0 ≡ 0 }
    requires rising { (i j : ℕ) → i < j → j < length stretches.now → begin_of stretches.now i < begin_of stretches.now j }
    ensures within { result < length stretches.now }
    ensures begun { begin_of stretches.now result ≤ period }
    ensures next { result + 1 < length stretches.now → period < begin_of stretches.now (result + 1) }
{
    begun_by(stretches, period) - 1
}
