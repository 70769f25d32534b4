// Walks as cursors by value: a step takes the cursor, reads the present graph where it lies, and gives the item with the next cursor.
// A cursor holds the number given last, one higher than it; 0 at the start. It ends where what it holds is gone. Stays a number: a walk goes on from it.
// Cursors, no Iterator: the graph may change between two steps, so a walk borrows none.
ghost use Rattle.std.specs.Prelude.{◌≡◌};
ghost use Rattle.portgraph.specs.Model.{Wf};
ghost use Rattle.portgraph.specs.Walks.{node_held, step_nodes, nodes_step_numbers, step_ports, ports_step_numbers, start_ports, ports_start_numbers, step_offsets, offsets_step_numbers, start_offsets, offsets_start_numbers};

use crate::alloc::NoSuchNode;
use crate::link_iter::{node_left, ports_left};
use crate::portgraph::PortGraph;
use port_tables::index::{NODE_SLOTS, NodeIndex, PortIndex, PortOffset};
use port_tables::numbers::wide;
use port_tables::sides::Sides;

// A walk over the nodes, by ascending number.
#[derive(Clone, Copy)]
pub struct Nodes {
    pub held: u32,
}

// A walk over the ports of a node.
#[derive(Clone, Copy)]
pub struct NodePorts {
    pub node: NodeIndex,
    pub sides: Sides,
    pub held: u32,
}

// A walk over the port offsets of a node.
#[derive(Clone, Copy)]
pub struct NodePortOffsets {
    pub ports: NodePorts,
}

impl PortGraph {
    // Starts a walk over the nodes.
    pub fn nodes_iter(&self) -> Nodes
        ensures { result.held ≡ 0 }
    {
        Nodes { held: 0 }
    }

    // Starts a walk over the ports of a node on one side or both.
    pub fn ports(&self, node: NodeIndex, sides: Sides) -> Result<NodePorts, NoSuchNode>
        ensures { (result ≡ start_ports self.now node sides) × (ports_start_numbers result ≡ ports_start_numbers (start_ports self.now node sides)) }
    {
        self.node_meta_valid(node).ok_or(NoSuchNode)?;
        Ok(NodePorts {
            node,
            sides,
            held: 0,
        })
    }

    // Starts a walk over the port offsets of a node on one side or both.
    pub fn port_offsets(&self, node: NodeIndex, sides: Sides) -> Result<NodePortOffsets, NoSuchNode>
        ensures { (result ≡ start_offsets self.now node sides) × (offsets_start_numbers result ≡ offsets_start_numbers (start_offsets self.now node sides)) }
    {
        let ports = self.ports(node, sides)?;
        Ok(NodePortOffsets { ports })
    }

    // Whether the node that a cursor holds is still there.
    fn node_held(&self, held: u32) -> bool
        ensures { result ≡ node_held self.now held }
    {
        held.checked_sub(1)
            .is_none_or(|n| self.contains_node(NodeIndex(n)))
    }
}

impl Nodes {
    #[tactic(auto, using(crate::specs::WalkLaws::step_where_gone))]
    pub fn step(self, graph: &PortGraph) -> Option<(NodeIndex, Nodes)>
        ensures { (result ≡ step_nodes graph.now self.held) × (nodes_step_numbers result ≡ nodes_step_numbers (step_nodes graph.now self.held)) }
    {
        if !graph.node_held(self.held) {
            return None;
        }
        let n = (wide(self.held)..NODE_SLOTS).find(|n| graph.node_meta[*n].is_node())?;
        Some((NodeIndex(n as u32), Nodes { held: n as u32 + 1 }))
    }
}

impl NodePorts {
    #[tactic(auto, using(crate::specs::LinkWalkSteps::left_fits, crate::specs::LinkWalkSteps::port_gone, crate::specs::LinkWalkSteps::port_over, crate::specs::LinkWalkSteps::port_given))]
    pub fn step(self, graph: &PortGraph) -> Option<(PortIndex, NodePorts)>
        requires { Wf graph.now }
        ensures { (result ≡ step_ports graph.now self) × (ports_step_numbers result ≡ ports_step_numbers (step_ports graph.now self)) }
    {
        let meta = node_left(&graph.node_meta, &graph.port_meta, self.node, self.held)?;
        let port = ports_left(meta, self.sides, self.held).next()?;
        Some((
            PortIndex(port as u32),
            NodePorts {
                held: port as u32 + 1,
                ..self
            },
        ))
    }
}

impl NodePortOffsets {
    pub fn step(self, graph: &PortGraph) -> Option<(PortOffset, NodePortOffsets)>
        requires { Wf graph.now }
        ensures { (result ≡ step_offsets graph.now self) × (offsets_step_numbers result ≡ offsets_step_numbers (step_offsets graph.now self)) }
    {
        let (port, ports) = self.ports.step(graph)?;
        let offset = graph.port_offset(port)?;
        Some((offset, NodePortOffsets { ports }))
    }
}
