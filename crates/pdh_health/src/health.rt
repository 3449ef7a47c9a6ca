//! How healthy the nodes of a line are.

ghost use Rattle.std.specs.Prelude.{◌≡◌, ◌<◌, ℕ, if◌then◌else◌, List, [], ◌∷◌, ◌++◌, IfOk};
ghost use Rattle.std.specs.List.{find};
ghost use Rattle.pdh_placed.specs.declared.placed.Placed.{Placed};
ghost use Rattle.pdh_health.specs.declared.plan.NodePlan.{NodePlan};
ghost use Rattle.pdh_health.specs.Nodes.{last_place};
ghost use Rattle.pdh_health.specs.Lines.{is_path, numbers_at as numbers_in, is_trouble, AreInOrder, NodesStandFor, IsFoundOfLine, StandsFor};

use crate::node::{Node, is_same};
use crate::node_health::{LineHealth, NodeNumbers};
use crate::plan::NodePlan;
use pdh_placed::{Placed, PlacedWatch};
use pdh_shape::Path;
use pdh_watch::Kind;
use std::alloc::{AllocError, Global};

/// Follows the nodes of a line by their events. Only `open` and `finish` take memory.
#[derive(Drop)]
pub struct Health {
    nodes: Vec<Node>,
    events: u64,
    // the first event that isn't an alignment, and the last one
    first: Option<Placed>,
    last: Option<Placed>,
}

// What the receiver of a node counted, if it is among these.
fn find_numbers(numbers: &[NodeNumbers], path: Path) -> Option<NodeNumbers>
    ensures { result ≡ find (λ own. is_path path own.path) numbers.now }
{
    numbers.iter().copied().find(|own| is_same(path, own.path))
}

// What it counted; nothing where it isn't among these.
fn numbers_at(numbers: &[NodeNumbers], path: Path) -> NodeNumbers
    ensures { result ≡ numbers_in numbers.now path }
{
    find_numbers(numbers, path).unwrap_or(NodeNumbers {
        path,
        bits: 0,
        frames: 0,
        judged: 0,
        right: 0,
    })
}

// Shows an event to each node.
fn note_each(nodes: &mut Vec<Node>, placed: &Placed)
    ensures { (rate : ℕ) (plans : List NodePlan) (events : List Placed) → NodesStandFor nodes.old.items rate plans events
        → AreInOrder (events ++ placed.now ∷ []) → NodesStandFor nodes.new.items rate plans (events ++ placed.now ∷ []) }
{
    for index in 0..nodes.len() {
        nodes[index].note_own(placed);
    }
}

// An event that isn't an alignment.
fn trouble_of(placed: &Placed) -> Option<Placed>
    ensures { result ≡ (if is_trouble placed.now then Some placed.now else None) }
{
    if placed.event.kind != Kind::ALIGNED {
        return Some(*placed);
    }
    None
}

impl Health {
    /// No event has come, on a line with these nodes and so many bits in a second.
    pub fn open(alloc: Global, rate: u64, plans: &[NodePlan]) -> Result<Health, AllocError>
        requires { 0 < rate }
        ensures { IfOk result (λ health. StandsFor health rate plans.now []) }
    {
        let mut nodes = Vec::with_capacity(alloc, plans.len())?;
        for plan in plans {
            let node = Node::open(alloc, rate, *plan)?;
            nodes.push(node)?;
        }
        Ok(Health {
            nodes,
            events: 0,
            first: None,
            last: None,
        })
    }

    /// What was found of the line, where the recording has so many bits and the receivers of its nodes counted this; or the refusal
    /// of memory.
    pub fn finish(
        self,
        alloc: Global,
        bits: u64,
        numbers: &[NodeNumbers],
    ) -> Result<LineHealth, AllocError>
        requires { 0 < bits }
        ensures { IfOk result (λ found. (rate : ℕ) (plans : List NodePlan) (events : List Placed) → StandsFor self rate plans events
            → AreInOrder events → last_place events < bits → IsFoundOfLine rate bits plans numbers.now events found) }
    {
        let Health {
            nodes,
            events,
            first,
            last,
        } = self;
        let mut found = Vec::with_capacity(alloc, nodes.len())?;
        for node in nodes {
            let own = numbers_at(numbers, node.path());
            found.push(node.finish(bits, &own))?;
        }
        Ok(LineHealth {
            events,
            first,
            last,
            nodes: found,
        })
    }
}

impl PlacedWatch for Health {
    ghost use Rattle.pdh_health.specs.Lines.{Saw};
    ghost use Rattle.pdh_health.specs.LineLaws.{saw_none, saw_joined};

    ghost saw = { Saw };

    ghost saw_nothing = { saw_none };

    ghost saw_join = { saw_joined };

    fn note(&mut self, placed: &Placed) {
        note_each(&mut self.nodes, placed);
        let trouble = trouble_of(placed);
        let events = self.events.saturating_add(1);
        let first = self.first.or(trouble);
        let last = trouble.or(self.last);
        self.events = events;
        self.first = first;
        self.last = last;
    }
}
