//! Why no front comes of a job in one of its modes, whatever else is placed.

ghost use Rattle.std.specs.Prelude.{◌≡◌, ℕ, ◌-◌, ◌≤◌, ◌↔◌, IsTrue, IfOk, IfSome, IfNone};
ghost use Rattle.rcpsp_model.specs.Project.{IsJob, IsMode, IsRenewable, IsNonrenewable, request, need};
ghost use Rattle.rcpsp_model.specs.Chain.{IsLeast};
ghost use Rattle.rcpsp_model.specs.Modes.{TakesNoMore, IsInefficientBy, IsEfficient, IsExecutable, LacksCapacity};
ghost use Rattle.project_net.specs.Causes.{mode_count, AreCauses, AreFirstCauses, AreAllCauses};

use crate::network::Network;
use sched_base::NoMemory;
use std::alloc::Global;

/// The causes for which no front comes of a job in a mode.
#[derive(Clone, Copy)]
pub struct ModeCauses {
    /// The lowest renewable resource of which the mode, where it takes time, asks more than its capacity.
    pub lacking: Option<u8>,
    /// The lowest mode that makes the mode inefficient.
    pub inefficient: Option<u8>,
}

/// The lowest renewable resource of which a mode that takes time asks more than its capacity.
fn lacking(network: &Network, job: u8, mode: u8) -> Option<u8>
    requires job { IsJob network.now job }
    requires mode { IsMode network.now job mode }
    ensures some { IfSome result (IsLeast (LacksCapacity network.now job mode)) }
    ensures none { IfNone result (IsExecutable network.now job mode) }
{
    if network.duration(job, mode) == 0 {
        return None;
    }
    for resource in 1..network.renewables() + 1 {
        if network.request(job, mode, resource) > network.capacity(resource) {
            return Some(resource);
        }
    }
    None
}

/// Whether the job in the one mode asks no more of any renewable resource than in the other.
fn asks_no_more(network: &Network, job: u8, one: u8, other: u8) -> bool
    requires job { IsJob network.now job }
    requires one { IsMode network.now job one }
    requires other { IsMode network.now job other }
    ensures { IsTrue result
        ↔ ((k : ℕ) → IsRenewable network.now k → request network.now job one k ≤ request network.now job other k) }
{
    for resource in 1..network.renewables() + 1 {
        if network.request(job, one, resource) > network.request(job, other, resource) {
            return false;
        }
    }
    true
}

/// Whether the job in the one mode needs no more of any nonrenewable resource than in the other.
fn needs_no_more(network: &Network, job: u8, one: u8, other: u8) -> bool
    requires job { IsJob network.now job }
    requires one { IsMode network.now job one }
    requires other { IsMode network.now job other }
    ensures { IsTrue result
        ↔ ((l : ℕ) → IsNonrenewable network.now l → need network.now job one l ≤ need network.now job other l) }
{
    for resource in 1..network.nonrenewables() + 1 {
        if network.need(job, one, resource) > network.need(job, other, resource) {
            return false;
        }
    }
    true
}

/// Whether the job takes no more in the one mode than in the other: neither time, nor of any resource.
fn takes_no_more(network: &Network, job: u8, one: u8, other: u8) -> bool
    requires job { IsJob network.now job }
    requires one { IsMode network.now job one }
    requires other { IsMode network.now job other }
    ensures { IsTrue result ↔ TakesNoMore network.now job one other }
{
    network.duration(job, one) <= network.duration(job, other)
        && asks_no_more(network, job, one, other)
        && needs_no_more(network, job, one, other)
}

/// Whether the mode is inefficient by the other: the other takes no more, and takes less or has the lower number
/// (Sprecher, Hartmann and Drexl 1997).
fn is_inefficient_by(network: &Network, job: u8, mode: u8, other: u8) -> bool
    requires job { IsJob network.now job }
    requires mode { IsMode network.now job mode }
    requires other { IsMode network.now job other }
    ensures { IsTrue result ↔ IsInefficientBy network.now job mode other }
{
    takes_no_more(network, job, other, mode)
        && (other < mode || !takes_no_more(network, job, mode, other))
}

/// The lowest mode that makes a mode of a job inefficient.
fn inefficient(network: &Network, job: u8, mode: u8) -> Option<u8>
    requires job { IsJob network.now job }
    requires mode { IsMode network.now job mode }
    ensures by { IfSome result (IsLeast (IsInefficientBy network.now job mode)) }
    ensures none { IfNone result (IsEfficient network.now job mode) }
{
    for other in 1..network.modes(job) + 1 {
        if is_inefficient_by(network, job, mode, other) {
            return Some(other);
        }
    }
    None
}

/// The causes for which no front comes of a job in a mode.
fn causes_of(network: &Network, job: u8, mode: u8) -> ModeCauses
    requires job { IsJob network.now job }
    requires mode { IsMode network.now job mode }
    ensures { AreCauses network.now job mode result }
{
    ModeCauses {
        lacking: lacking(network, job, mode),
        inefficient: inefficient(network, job, mode),
    }
}

/// Appends the causes of a job's modes to those of the jobs before it.
fn push_causes(network: &Network, job: u8, causes: &mut Vec<ModeCauses>) -> Result<(), NoMemory>
    requires job { IsJob network.now job }
    requires before { AreFirstCauses network.now (mode_count network.now (job - 1)) causes.old.items }
    ensures { IfOk result (λ _. AreFirstCauses network.now (mode_count network.now job) causes.new.items) }
{
    for mode in 1..network.modes(job) + 1 {
        causes.push(causes_of(network, job, mode))?;
    }
    Ok(())
}

/// The causes of all modes, one job's after another's.
pub fn all_causes(alloc: Global, network: &Network) -> Result<Vec<ModeCauses>, NoMemory>
    ensures { IfOk result (λ v. AreAllCauses network.now v.items) }
{
    let mut causes = Vec::new(alloc);
    for done in 0..network.jobs() {
        push_causes(network, done + 1, &mut causes)?;
    }
    Ok(causes)
}
