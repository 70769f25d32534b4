// Walks over the blocks, over all ports, and over the ports of a block.
ghost use Rattle.std.specs.Prelude.{◌≡◌, ◌<◌, ◌≤◌, MatchOption, Some, None};
ghost use Rattle.port_tables.specs.Limits.{port_slots};
ghost use Rattle.multi_tables.specs.TableReads.{seen_in};
ghost use Rattle.multiportgraph.specs.Walks.{is_seen, node_held, step_nodes, step_nodes_back, step_all_ports, step_all_ports_back, step_node_ports};
ghost use Rattle.multiportgraph.specs.WalkNumbers.{nodes_values, ports_values, node_ports_values};
ghost use Rattle.multiportgraph.specs.WellFormed.{MultiWf};
ghost use Rattle.multiportgraph.specs.WalkScans.{held_in, block_slot, ports_in};
ghost use Rattle.port_tables.specs.Lists.{on_first, on_last};
ghost use Rattle.multi_tables.specs.Scans.{end_before};

use crate::iter::{NodePorts, Nodes, Ports};
use crate::multiportgraph::MultiPortGraph;
use multi_tables::marks::flagged;
use port_tables::index::{NODE_SLOTS, NodeIndex, PORT_SLOTS, PortIndex};
use port_tables::node_entry::NodeSlot;
use port_tables::numbers::wide;
use port_tables::sides::{ports_from, ports_to};

// Of `count` items those before what was given last from the back.
pub(crate) fn end_before(back: u32, count: usize) -> usize
    ensures { (result ≡ end_before back count) × (result ≤ count) }
{
    back.checked_sub(1)
        .map_or(count, |last| count.min(wide(last)))
}

// Whether a node slot holds a block.
// The flag stays beside the slot, as in `block_links` of multi_tables.
fn is_block(slot: NodeSlot, hidden: bool) -> bool
    ensures { result ≡ block_slot slot.entry hidden }
{
    !hidden && slot.is_node()
}

impl MultiPortGraph {
    // Whether the block that a cursor holds is still there. Stays beside the other graph's: each asks its own graph what it contains.
    #[tactic(auto, unfolding(crate::specs::Walks::node_held))]
    fn node_held(&self, held: u32) -> bool
        ensures { result ≡ node_held self.now held }
    {
        held.checked_sub(1)
            .is_none_or(|node| self.contains_node(NodeIndex(node)))
    }

    // Whether a port is a block's.
    #[tactic(auto, using(crate::specs::StartSteps::seen_told))]
    fn port_seen(&self, port: u32) -> bool
        ensures { result ≡ is_seen (seen_in self.now.graph.port_meta self.now.copy_node port) }
    {
        self.block_port(PortIndex(port)).is_ok()
    }

    // Whether the port that a cursor holds is still there.
    // Stays beside the other graph's, as `node_held`.
    #[tactic(auto, unfolding(crate::specs::WalkScans::held_in))]
    pub(crate) fn held_seen(&self, held: u32) -> bool
        ensures { result ≡ held_in self.now.graph.port_meta self.now.copy_node held }
    {
        held.checked_sub(1).is_none_or(|port| self.port_seen(port))
    }

    // The first port of a block from one slot on and below another.
    // Stays beside `last_port`: a range and its reverse are two types.
    fn first_port(&self, from: usize, end: usize) -> Option<usize>
        requires { end ≤ port_slots }
        ensures { (result ≡ on_first None Some (ports_in self.now.graph.port_meta self.now.copy_node from end)) × MatchOption result (Unit {0}) (λ p. p < end) }
    {
        (from..end).find(|port| self.port_seen(*port as u32))
    }

    // The last one.
    fn last_port(&self, from: usize, end: usize) -> Option<usize>
        requires { end ≤ port_slots }
        ensures { (result ≡ on_last None Some (ports_in self.now.graph.port_meta self.now.copy_node from end)) × MatchOption result (Unit {0}) (λ p. p < end) }
    {
        (from..end).rev().find(|port| self.port_seen(*port as u32))
    }
}

// Two methods, as next and next_back of the library's iterators. Both ask for what is held by themselves: a range that is left, as an Option, would be taken apart
// in both; no plainer.
impl Nodes {
    #[tactic(auto, using(crate::specs::WalkSteps::nodes_front_gone, crate::specs::WalkSteps::nodes_back_gone))]
    pub fn step(self, graph: &MultiPortGraph) -> Option<(NodeIndex, Nodes)>
        ensures { (result ≡ step_nodes graph.now self) × (nodes_values result ≡ nodes_values (step_nodes graph.now self)) }
    {
        let front = self.front;
        let back = self.back;
        if !graph.node_held(front) || !graph.node_held(back) {
            return None;
        }
        let slots = graph.graph.node_table();
        let end = end_before(back, NODE_SLOTS);
        let n = (wide(front)..end).find(|n| is_block(slots[*n], flagged(&graph.copy_node, *n)))?;
        Some((
            NodeIndex(n as u32),
            Nodes {
                front: n as u32 + 1,
                ..self
            },
        ))
    }

    #[tactic(auto, using(crate::specs::WalkSteps::back_front_gone, crate::specs::WalkSteps::back_back_gone))]
    pub fn step_back(self, graph: &MultiPortGraph) -> Option<(NodeIndex, Nodes)>
        ensures { (result ≡ step_nodes_back graph.now self) × (nodes_values result ≡ nodes_values (step_nodes_back graph.now self)) }
    {
        let front = self.front;
        let back = self.back;
        if !graph.node_held(front) || !graph.node_held(back) {
            return None;
        }
        let slots = graph.graph.node_table();
        let end = end_before(back, NODE_SLOTS);
        let n = (wide(front)..end)
            .rev()
            .find(|n| is_block(slots[*n], flagged(&graph.copy_node, *n)))?;
        Some((
            NodeIndex(n as u32),
            Nodes {
                back: n as u32 + 1,
                ..self
            },
        ))
    }
}

// Two methods, as next and next_back of the library's iterators.
impl Ports {
    #[tactic(auto, using(crate::specs::WalkSteps::ports_front_gone, crate::specs::WalkSteps::ports_back_gone, crate::specs::WalkSteps::ports_item_lem, crate::specs::WalkSteps::ports_none))]
    pub fn step(self, graph: &MultiPortGraph) -> Option<(PortIndex, Ports)>
        requires { MultiWf graph.now }
        ensures { (result ≡ step_all_ports graph.now self) × (ports_values result ≡ ports_values (step_all_ports graph.now self)) }
    {
        let front = self.front;
        let back = self.back;
        if !graph.held_seen(front) || !graph.held_seen(back) {
            return None;
        }
        let end = end_before(back, PORT_SLOTS);
        let port = graph.first_port(wide(front), end)?;
        Some((
            PortIndex(port as u32),
            Ports {
                front: port as u32 + 1,
                ..self
            },
        ))
    }

    #[tactic(auto, using(crate::specs::WalkSteps::ports_back_front_gone, crate::specs::WalkSteps::ports_back_back_gone, crate::specs::WalkSteps::ports_back_item, crate::specs::WalkSteps::ports_back_none))]
    pub fn step_back(self, graph: &MultiPortGraph) -> Option<(PortIndex, Ports)>
        requires { MultiWf graph.now }
        ensures { (result ≡ step_all_ports_back graph.now self) × (ports_values result ≡ ports_values (step_all_ports_back graph.now self)) }
    {
        let front = self.front;
        let back = self.back;
        if !graph.held_seen(front) || !graph.held_seen(back) {
            return None;
        }
        let end = end_before(back, PORT_SLOTS);
        let port = graph.last_port(wide(front), end)?;
        Some((
            PortIndex(port as u32),
            Ports {
                back: port as u32 + 1,
                ..self
            },
        ))
    }
}

impl NodePorts {
    #[tactic(auto, using(crate::specs::WalkSteps::both_refused, crate::specs::WalkSteps::both_found, crate::specs::WalkSteps::node_ports_gone, crate::specs::WalkSteps::node_ports_item, crate::specs::WalkSteps::node_ports_none))]
    pub fn step(self, graph: &MultiPortGraph) -> Option<(PortIndex, NodePorts)>
        requires { MultiWf graph.now }
        ensures { (result ≡ step_node_ports graph.now self) × (node_ports_values result ≡ node_ports_values (step_node_ports graph.now self)) }
    {
        let sides = self.sides;
        let held = self.held;
        let meta = graph.block(self.node).ok()?;
        let port = ports_from(meta, sides).max(wide(held));
        if !graph.held_seen(held) || ports_to(meta, sides) <= port {
            return None;
        }
        Some((
            PortIndex(port as u32),
            NodePorts {
                held: port as u32 + 1,
                ..self
            },
        ))
    }
}
