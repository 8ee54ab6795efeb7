// The source of a worker's nodes.
ghost use Rattle.std.specs.Prelude.{◌≡◌, [], IfSome, IfNone, OnOk, OnErr};
ghost use Rattle.rcpsp_model.specs.Project.{Project as ProjectValue};
ghost use Rattle.precedence_tree.specs.Node.{StandsFor};
ghost use Rattle.node_sources.specs.Places.{IsOwnPlace};
ghost use Rattle.node_sources.specs.Source.{IsSourceOf};
ghost use Rattle.node_sources.specs.Seats.{Stays};
ghost use Rattle.node_sources.specs.Steps.{Takes, with_first, Puts};

use crate::reach::{Reach, of_deque, steal};
use node_deques::NodeDeque;
use precedence_tree::Node;
use sched_base::NoMemory;
use search_rounds::WaitingNode;
use std::collections::VecDeque;
use std::marker::Model;

/// Where a worker of a round takes its next node.
#[derive(Drop)]
pub struct NodeSource {
    pub(crate) number: u32,
    pub(crate) deque: NodeDeque,
    // What the worker was dealt, with what its deque refused before it.
    pub(crate) list: VecDeque<WaitingNode>,
    // The others' deques, that of the next worker first.
    pub(crate) reaches: Vec<Reach>,
}

impl Model for NodeSource {
    ghost use Rattle.node_sources.specs.Source.{SourceState};

    ghost Value = { SourceState };

    ghost view = { λ s. record { number = s.number; deque = s.deque; list = s.list.items; reaches = s.reaches.items } };
}

impl NodeSource {
    /// Takes the next node, if one is found: the one that was put last and lies in the worker's deque, or else the first one that
    /// the worker has by itself, or else one from the deque of another worker, which may be missed there while others take some.
    pub fn take(&mut self) -> Option<WaitingNode>
        ensures stays { Stays self.old self.new }
        ensures kept { IfNone result (self.new ≡ self.old) }
        ensures none { IfNone result (self.old.list ≡ []) }
        ensures taken { IfSome result (λ w. Takes self.old w self.new) }
    {
        match self.deque.pop() {
            Some(node) => Some(of_deque(node)),
            None => self.take_listed(),
        }
    }

    // Takes the next node where the deque is empty.
    fn take_listed(&mut self) -> Option<WaitingNode>
        ensures stays { Stays self.old self.new }
        ensures kept { IfNone result (self.new ≡ self.old) }
        ensures none { IfNone result (self.old.list ≡ []) }
        ensures taken { IfSome result (λ w. Takes self.old w self.new) }
    {
        match self.list.pop_front() {
            Some(node) => Some(node),
            None => self.steal(),
        }
    }

    // Takes a node from the deque of another worker.
    fn steal(&mut self) -> Option<WaitingNode>
        ensures stays { Stays self.old self.new }
        ensures kept { IfNone result (self.new ≡ self.old) }
        ensures taken { IfSome result (λ w. Takes self.old w self.new) }
    {
        let node = steal(&mut self.reaches)?;
        Some(of_deque(node))
    }

    /// Puts a node with a place of the worker's own: into its deque, or before the nodes that it has by itself, where there is no
    /// other worker or the deque can't grow.
    pub fn put(&mut self, place: u32, node: Node) -> Result<(), NoMemory>
        requires node { (P : ProjectValue) × IsSourceOf P self.old × StandsFor P node }
        requires place { IsOwnPlace self.old.number place }
        ensures stays { Stays self.old self.new }
        ensures put { OnOk result (Puts self.old place node self.new) }
        ensures kept { OnErr result (self.new ≡ self.old) }
    {
        if self.reaches.is_empty() {
            return self.put_back(WaitingNode { place, node });
        }
        match self.deque.push(place, node) {
            Ok(()) => Ok(()),
            Err(node) => self.put_back(WaitingNode { place, node }),
        }
    }

    /// Puts a node that was taken before those that the worker has by itself.
    pub fn put_back(&mut self, node: WaitingNode) -> Result<(), NoMemory>
        requires { (P : ProjectValue) × IsSourceOf P self.old × StandsFor P node.node }
        ensures stays { Stays self.old self.new }
        ensures back { OnOk result (self.new ≡ with_first self.old node.place node.node) }
        ensures kept { OnErr result (self.new ≡ self.old) }
    {
        self.list.push_front(node)?;
        Ok(())
    }
}
