// The order in which nodes that wait stand in the tree.
ghost use Rattle.std.specs.Prelude.{IsPermutation};

use precedence_tree::Node;
use sched_base::NoMemory;
use search_rounds::WaitingNode;
use std::cmp::Ordering;

// Which of two nodes comes first in the preorder of the tree: children stand by job and then by mode, behind their parent.
fn preorder(node: &Node, other: &Node) -> Ordering {
    let depth = node.depth();
    let other_depth = other.depth();
    let both = if depth < other_depth {
        depth
    } else {
        other_depth
    };
    for place in 1..both + 1 {
        let entry = node.entry(place);
        let against = other.entry(place);
        if entry.job != against.job {
            return entry.job.cmp(&against.job);
        }
        if entry.mode != against.mode {
            return entry.mode.cmp(&against.mode);
        }
    }
    depth.cmp(&other_depth)
}

/// Puts nodes into the preorder of the tree.
pub(crate) fn sort(nodes: &mut Vec<WaitingNode>) -> Result<(), NoMemory>
    ensures { IsPermutation nodes.old.items nodes.new.items }
{
    nodes.sort_by(|one, other| preorder(&one.node, &other.node))?;
    Ok(())
}
