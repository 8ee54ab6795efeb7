// A worker's reach into the deques of others.
ghost use Rattle.std.specs.Prelude.{◌≡◌, IfSome, IfNone};
ghost use Rattle.node_sources.specs.Source.{waiting};
ghost use Rattle.node_sources.specs.Thefts.{StealsBy, Steals};

use node_deques::{DequeNode, Steal, Thief};
use search_rounds::WaitingNode;
use std::thread::yield_now;

/// How often a worker tries to take a node from one deque before it goes on to the next.
const TRIES: u32 = 4;

/// How often a worker that found no node asks all others once more before it gives up. In between it lets other threads run.
const TURNS: u32 = 500;

/// A right to take nodes from the deque of another worker, and what came by it.
#[derive(Drop)]
pub struct Reach {
    /// The number of the worker.
    pub owner: u32,
    pub thief: Thief,
}

// One try to take a node.
fn try_once(reach: &mut Reach) -> Option<DequeNode>
    ensures kept { IfNone result (reach.new ≡ reach.old) }
    ensures stolen { IfSome result (λ x. StealsBy reach.old x reach.new) }
{
    match reach.thief.steal() {
        Steal::Success(node) => Some(node),
        Steal::Empty | Steal::Retry => None,
    }
}

// A few tries to take a node.
fn try_some(reach: &mut Reach) -> Option<DequeNode>
    ensures kept { IfNone result (reach.new ≡ reach.old) }
    ensures stolen { IfSome result (λ x. StealsBy reach.old x reach.new) }
{
    for _ in 0..TRIES {
        match try_once(reach) {
            Some(node) => return Some(node),
            None => (),
        }
    }
    None
}

// Takes a node from the first deque that gives one.
fn ask_all(reaches: &mut [Reach]) -> Option<DequeNode>
    ensures kept { IfNone result (reaches.new ≡ reaches.old) }
    ensures stolen { IfSome result (λ x. Steals reaches.old x reaches.new) }
{
    for index in 0..reaches.len() {
        match try_some(&mut reaches[index]) {
            Some(node) => return Some(node),
            None => (),
        }
    }
    None
}

/// Takes a node from the first deque that gives one, or gives up after a time in which none did.
///
/// The others may be about to put nodes: a worker that gave up at once would leave them the rest of the round.
pub(crate) fn steal(reaches: &mut [Reach]) -> Option<DequeNode>
    ensures kept { IfNone result (reaches.new ≡ reaches.old) }
    ensures stolen { IfSome result (λ x. Steals reaches.old x reaches.new) }
{
    if reaches.is_empty() {
        return None;
    }
    for _ in 0..TURNS {
        match ask_all(reaches) {
            Some(node) => return Some(node),
            None => yield_now(),
        }
    }
    None
}

/// A node of a deque, with its place.
pub(crate) fn of_deque(node: DequeNode) -> WaitingNode
    ensures { result ≡ waiting node }
{
    let DequeNode {
        number: _,
        place,
        node,
    } = node;
    WaitingNode { place, node }
}
