ghost use Rattle.std.specs.Prelude.{◌≡◌, ◌+◌, ◌≤◌, List, [], ◌∷◌, ◌++◌, length, Contains, All, IfOk, IfErr, OnOk, OnErr, IfSome, IfNone, IsPermutation};
ghost use Rattle.crossbeam_deque.specs.Handles.{worker_deque, worker_flavor, worker_port, worker_view};
ghost use Rattle.node_deques.specs.declared.node.DequeNode.{DequeNode as Taken};
ghost use Rattle.node_deques.specs.Nodes.{IsOnEach};
ghost use Rattle.node_deques.specs.Steps.{Pops, HasAllPasses, HasAllTaken};
ghost use Rattle.node_deques.specs.Views.{new_view, with_terms, next_node, with_accepted, with_taken, with_thief, thief_view, joint_view};

use crate::node::DequeNode;
use crate::rule::{AgreeOn, Agreed, DequeRule, JoinThief, Pop, Push, SplitThief};
use crate::thief::Thief;
use crate::view::DequeView;
use crossbeam_deque::Worker;
use precedence_tree::Node;
use project_net::Project;
use sched_base::NoMemory;
use std::alloc::Global;
use std::marker::{Brand, Model};

type Nodes = Worker<DequeNode, Global, DequeView, DequeRule>;

/// How many nodes a new deque has room for.
const FIRST_ROOM: usize = 64;

/// A worker's own deque of nodes. It pops what it pushed last.
#[derive(Drop)]
pub struct NodeDeque {
    nodes: Nodes,
    accepted: u32,
}

impl Model for NodeDeque {
    ghost use Rattle.crossbeam_deque.specs.Handles.{worker_deque, worker_view};
    ghost use Rattle.node_deques.specs.Handles.{HandleState, IsOwnersEnd};

    ghost Value = { HandleState };

    ghost view = { λ d. record { deque = worker_deque d.nodes; view = worker_view d.nodes } };

    ghost invariant = { λ d. IsOwnersEnd d.nodes d.accepted };
}

impl NodeDeque {
    /// An empty deque, of nodes of the project whose places are at least `from` and less than `to`. Only want of memory is an
    /// error.
    pub fn new(alloc: Global, project: &Project, from: u32, to: u32) -> Result<Self, NoMemory>
        ensures { IfOk result (λ deque. deque.view ≡ new_view (record { project = project.now; from = from; to = to } ∷ [])) }
    {
        let mut nodes = Nodes::lifo_as(alloc, FIRST_ROOM)?;
        agree_on::<Brand>(&mut nodes, project, from, to);
        Ok(NodeDeque { nodes, accepted: 0 })
    }

    /// A handle for another worker, which has taken nothing. Only want of memory is an error.
    pub fn thief(&mut self) -> Result<Thief, NoMemory>
        ensures deque { self.new.deque ≡ self.old.deque }
        ensures split { OnOk result (self.new.view ≡ with_thief self.old.view) }
        ensures kept { OnErr result (self.new.view ≡ self.old.view) }
        ensures thief_deque { IfOk result (λ thief. thief.deque ≡ self.old.deque) }
        ensures thief { IfOk result (λ thief. thief.view ≡ thief_view self.old.view) }
    {
        let handle = self.nodes.stealer()?;
        let pass = self.nodes.another::<SplitThief>();
        Ok(Thief { handle, pass })
    }

    /// Accepts a node with its place, or hands it back and changes nothing, where the deque can't grow.
    pub fn push(&mut self, place: u32, node: Node) -> Result<(), Node>
        requires { IsOnEach self.old.view.terms (next_node self.old.view place node) }
        ensures deque { self.new.deque ≡ self.old.deque }
        ensures accepted { OnOk result (self.new.view ≡ with_accepted (next_node self.old.view place node ∷ []) self.old.view) }
        ensures kept { OnErr result (self.new.view ≡ self.old.view) }
        ensures back { IfErr result (λ back. back ≡ node) }
    {
        let Some(accepted) = self.accepted.checked_add(1) else {
            return Err(node);
        };
        let next = DequeNode {
            number: self.accepted,
            place,
            node,
        };
        match self.nodes.push_as::<Push>(next) {
            Ok(()) => {
                self.accepted = accepted;
                Ok(())
            }
            Err(DequeNode { node, .. }) => Err(node),
        }
    }

    /// The node that was accepted last of those that nobody took; none where the deque is empty.
    pub fn pop(&mut self) -> Option<DequeNode>
        ensures deque { self.new.deque ≡ self.old.deque }
        ensures popped { IfSome result (λ x. Pops self.old.view (x ∷ []) self.new.view) }
        ensures kept { IfNone result (self.new.view ≡ self.old.view) }
        ensures none { IfNone result (HasAllTaken self.old.view) }
    {
        self.nodes.pop_as::<Pop>()
    }

    /// Joins what a thief took into what the owner took.
    pub fn join(&mut self, thief: Thief)
        requires { thief.deque ≡ self.old.deque }
        ensures deque { self.new.deque ≡ self.old.deque }
        ensures view { self.new.view ≡ joint_view self.old.view thief.view }
    {
        let pass = thief.into_pass();
        self.nodes.absorb::<JoinThief>(pass);
    }

    /// The nodes that nobody took, once all thieves are joined. Only want of memory is an error.
    ///
    /// What was taken and what is left is what was accepted, each node once.
    pub fn into_left(self, alloc: Global) -> Result<Vec<DequeNode>, NoMemory>
        requires { HasAllPasses self.view }
        ensures once { IfOk result (λ left. IsPermutation (self.view.taken ++ left.items) self.view.accepted) }
    {
        let mut deque = self;
        let mut left = Vec::new(alloc);
        deque.empty_into(&mut left)?;
        Ok(left)
    }

    // Pops into the list, until a pop shows that the deque was empty.
    fn empty_into(&mut self, left: &mut Vec<DequeNode>) -> Result<(), NoMemory>
        ensures taken { (more : List Taken) × (self.new.view ≡ with_taken more self.old.view) × (left.new.items ≡ left.old.items ++ more) }
        ensures all { OnOk result (HasAllTaken self.new.view) }
    {
        loop {
            left.reserve(1)?;
            match self.pop() {
                Some(node) => left.push_reserved(node),
                None => return Ok(()),
            }
        }
    }
}

// Adds terms, which the caller picks for the proof, to those of a deque that has accepted nothing.
fn agree_on<A: Agreed>(nodes: &mut Nodes, project: &Project, from: u32, to: u32)
    requires port { worker_port nodes.old ≡ 0 }
    requires none { (worker_view nodes.old).accepted ≡ [] }
    requires picked { A.terms ≡ record { project = project.now; from = from; to = to } }
    ensures deque { worker_deque nodes.new ≡ worker_deque nodes.old }
    ensures flavor { worker_flavor nodes.new ≡ worker_flavor nodes.old }
    ensures port { worker_port nodes.new ≡ worker_port nodes.old }
    ensures view { worker_view nodes.new ≡ with_terms (record { project = project.now; from = from; to = to }) (worker_view nodes.old) }
{
    let _ = project;
    let _ = (from, to);
    nodes.another::<AgreeOn<A>>();
}
