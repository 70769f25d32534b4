// Readers of the hidden node of a split port, over the lower graph. What reads the tables alone uses `reads` of multi_tables instead.
// Where there is nothing they stay at 0, as their definitions: who calls them knows that there is something.
ghost use Rattle.std.specs.Prelude.{◌≡◌};
ghost use Rattle.portgraph.specs.Model.{Wf};
ghost use Rattle.multiportgraph.specs.Reading.{far_port, owner_of, port_of, position_of, copy_node, copy_side};

use crate::multiportgraph::MultiPortGraph;
use multi_tables::marks::flagged;
use port_tables::direction::Direction;
use port_tables::index::{NodeIndex, PortIndex, PortOffset};
use port_tables::numbers::wide;
use portgraph::portgraph::PortGraph;

// The port that a port is linked with; 0 for none.
#[tactic(auto, unfolding(crate::specs::Reading::far_port))]
pub(crate) fn far_port(graph: &PortGraph, port: u32) -> u32
    ensures { result ≡ far_port graph.now port }
{
    graph
        .port_link(PortIndex(port))
        .ok()
        .flatten()
        .map_or(0, |far| far.0)
}

// The node that has a port; 0 for a port that is not live.
#[tactic(auto, unfolding(crate::specs::Reading::owner_of))]
pub(crate) fn owner_of(graph: &PortGraph, port: u32) -> u32
    ensures { result ≡ owner_of graph.now port }
{
    graph.port_node(PortIndex(port)).map_or(0, |node| node.0)
}

// The port of a node at a side and position; 0 where there is none.
#[tactic(auto, unfolding(crate::specs::Reading::port_of))]
pub(crate) fn port_of(graph: &PortGraph, node: u32, direction: Direction, index: u16) -> u32
    requires { Wf graph.now }
    ensures { result ≡ port_of graph.now node direction index }
{
    let offset = PortOffset { direction, index };
    graph
        .port_index(NodeIndex(node), offset)
        .map_or(0, |port| port.0)
}

// The position of a port on its side; 0 for a port that is not live.
#[tactic(auto, unfolding(crate::specs::Reading::position_of))]
pub(crate) fn position_of(graph: &PortGraph, port: u32) -> u16
    ensures { result ≡ position_of graph.now port }
{
    graph
        .port_offset(PortIndex(port))
        .map_or(0, |offset| offset.index)
}

impl MultiPortGraph {
    // The hidden node of a split port.
    #[tactic(auto, unfolding(crate::specs::Reading::copy_node))]
    pub(crate) fn copy_node_of(&self, port: u32) -> u32
        ensures { result ≡ copy_node self.now port }
    {
        owner_of(&self.graph, far_port(&self.graph, port))
    }

    // The side of a hidden node that has its copy port.
    #[tactic(auto, unfolding(crate::specs::Reading::copy_side), using(crate::specs::CodeFormSteps::split_told))]
    pub(crate) fn copy_side(&self, node: u32) -> Direction
        requires { Wf self.now.graph }
        ensures { result ≡ copy_side self.now node }
    {
        let graph = &self.graph;
        if graph.num_ports(NodeIndex(node), Direction::Incoming) == 1
            && (graph.num_ports(NodeIndex(node), Direction::Outgoing) != 1
                || self.is_split(port_of(graph, node, Direction::Incoming, 0)))
        {
            return Direction::Incoming;
        }
        Direction::Outgoing
    }
}
