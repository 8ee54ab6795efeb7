//! Nodes of fronts that are given by their rows.

ghost use Rattle.std.specs.Prelude.{IfOk};
ghost use Rattle.precedence_tree.specs.Node.{StandsFor};

use precedence_tree::{Node, node_of};
use project_net::Project;
use std::alloc::Global;
use std::process::Abort;
use std::test::Fail;
use worked_projects::{EntryRow, entries};

/// The node of a front.
pub fn walk(
    rt: &impl Abort,
    alloc: Global,
    project: &Project,
    front: &[EntryRow],
) -> Result<Node, Fail>
    ensures { IfOk result (StandsFor project.now) }
{
    let front = entries(alloc, front)?;
    match node_of(alloc, project, front.as_slice())? {
        Some(node) => Ok(node),
        None => panic!(rt; "no front"),
    }
}
