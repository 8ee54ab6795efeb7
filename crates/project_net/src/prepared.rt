ghost use Rattle.std.specs.Prelude.{IfOk};
ghost use Rattle.rcpsp_model.specs.Project.{IsAcyclic};
ghost use Rattle.project_net.specs.Prepared.{IsPrepared};

use crate::causes::{ModeCauses, all_causes};
use crate::chains::tails;
use crate::least::{LeastValues, least_values};
use crate::network::Network;
use crate::order::{jobs_in_order, ranks};
use crate::stretches::{StretchTable, stretch_table};
use sched_base::NoMemory;
use std::alloc::Global;

/// What a project keeps beside its network, made once.
#[derive(Drop)]
pub struct Prepared {
    /// The jobs in order.
    pub order: Vec<u8>,
    /// What each job takes at least.
    pub least: LeastValues,
    /// Periods from a job's start to the end of a longest chain, by job.
    pub tails: Vec<u32>,
    /// The place of each job in the order, from 1, by job.
    pub ranks: Vec<u8>,
    /// The stretches of the renewable resources.
    pub stretches: StretchTable,
    /// What excludes each mode, one job's modes after another's.
    pub causes: Vec<ModeCauses>,
}

/// What is kept of a network without a cycle.
pub fn prepare(alloc: Global, network: &Network) -> Result<Prepared, NoMemory>
    requires { IsAcyclic network.now }
    ensures { IfOk result (IsPrepared network.now) }
{
    network.known();
    let order = jobs_in_order(alloc, network)?;
    let least = least_values(alloc, network)?;
    let tails = tails(alloc, network, order.as_slice(), least.durations.as_slice())?;
    let ranks = ranks(alloc, network, order.as_slice())?;
    let stretches = stretch_table(alloc, network)?;
    let causes = all_causes(alloc, network)?;
    Ok(Prepared {
        order,
        least,
        tails,
        ranks,
        stretches,
        causes,
    })
}
