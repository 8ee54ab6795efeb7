ghost use Rattle.std.specs.Prelude.{◌≡◌, ◌≤◌, OnOk, OnErr};
ghost use Rattle.rcpsp_model.specs.Tree.{IsLeaf};
ghost use Rattle.precedence_tree.specs.Node.{StandsFor};
ghost use Rattle.tree_worker.specs.Offers.{OffersLeaf};

use precedence_tree::{Node, schedule};
use project_net::{Project, Schedule};
use sched_base::NoMemory;
use search_table::{Pass, RoundTable};
use std::alloc::Global;

/// Offers the end of a leaf and keeps its schedule, where the end is less than the best that was loaded.
///
/// For want of memory for the schedule nothing is offered.
pub fn offer_leaf(
    alloc: Global,
    project: &Project,
    table: &RoundTable,
    pass: &mut Pass,
    node: &Node,
    best: u64,
    plan: &mut Option<Schedule>,
) -> Result<(), NoMemory>
    requires table { pass.old.table ≡ table.now }
    requires node { StandsFor project.now node.now }
    requires leaf { IsLeaf project.now node.now.front }
    requires loaded { pass.old.view.least_seen ≡ best }
    ensures table { pass.new.table ≡ pass.old.table }
    ensures offers { OnOk result (OffersLeaf project.now node.now.front best pass.old.view pass.new.view plan.old plan.new) }
    ensures view { pass.new.view ≡ record pass.old.view { offers = pass.new.view.offers; least_seen = pass.new.view.least_seen } }
    ensures err { OnErr result (pass.new.view ≡ pass.old.view) }
    ensures lower { pass.new.view.least_seen ≤ pass.old.view.least_seen }
{
    let end = u64::from(node.end());
    if end >= best {
        return Ok(());
    }
    let own = schedule(alloc, project, node)?;
    table.offer(pass, end);
    *plan = Some(own);
    Ok(())
}
