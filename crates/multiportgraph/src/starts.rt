// Starts of walks: over everything never refused, at a node or port refused as a lookup is.
ghost use Rattle.std.specs.Prelude.{◌≡◌};
ghost use Rattle.multiportgraph.specs.Wires.{start_wires};
ghost use Rattle.multiportgraph.specs.Walks.{start_node_ports, start_subports, start_port_links, start_links, start_neighbours, start_connections};
ghost use Rattle.multiportgraph.specs.WalkNumbers.{node_ports_start_numbers, node_subports_start_numbers, port_links_start_numbers, node_links_start_numbers, neighbours_start_numbers, node_connections_start_numbers};

use crate::iter::{
    Neighbours, NodeConnections, NodeLinks, NodePorts, NodeSubports, Nodes, PortLinks, Ports, Wires,
};
use crate::multiportgraph::MultiPortGraph;
use multi_tables::answers::Refusal;
use multi_tables::marks::either_flagged;
use multi_tables::scans::Held;
use port_tables::index::{NodeIndex, PortIndex, PortRange};
use port_tables::sides::Sides;

impl MultiPortGraph {
    // Starts a walk over the blocks.
    pub fn nodes_iter(&self) -> Nodes
        ensures { (result.front ≡ 0) × (result.back ≡ 0) }
    {
        Nodes { front: 0, back: 0 }
    }

    // Starts a walk over all ports of blocks.
    pub fn ports_iter(&self) -> Ports
        ensures { (result.front ≡ 0) × (result.back ≡ 0) }
    {
        Ports { front: 0, back: 0 }
    }

    // Starts a walk over all wires.
    pub fn wires(&self) -> Wires
        ensures { result ≡ start_wires }
    {
        Wires {
            held: Held::default(),
        }
    }

    // Starts a walk over the ports of a block on one side or both.
    #[tactic(auto, using(crate::specs::LookupSteps::start_refused, crate::specs::LookupSteps::start_made, crate::specs::StartSteps::passed_told, port_tables::specs::TableSteps::with_numbers))]
    pub fn ports(&self, node: NodeIndex, sides: Sides) -> Result<NodePorts, Refusal>
        ensures { (result ≡ start_node_ports self.now node sides) × (node_ports_start_numbers result ≡ node_ports_start_numbers (start_node_ports self.now node sides)) }
    {
        self.block(node)?;
        Ok(NodePorts {
            node,
            sides,
            held: 0,
        })
    }

    // Starts a walk over the subports of a block on one side or both.
    #[tactic(auto, using(crate::specs::LookupSteps::start_refused, crate::specs::LookupSteps::start_made, crate::specs::StartSteps::passed_told, port_tables::specs::TableSteps::with_numbers, crate::specs::StartSteps::held_first))]
    pub fn subports(&self, node: NodeIndex, sides: Sides) -> Result<NodeSubports, Refusal>
        ensures { (result ≡ start_subports self.now node sides) × (node_subports_start_numbers result ≡ node_subports_start_numbers (start_subports self.now node sides)) }
    {
        self.block(node)?;
        Ok(NodeSubports {
            node,
            sides,
            held: Held::default(),
        })
    }

    // Starts a walk over the links of a port.
    #[tactic(auto, using(port_tables::specs::TableSteps::with_numbers, crate::specs::StartSteps::port_links_made, crate::specs::StartSteps::port_links_refused, crate::specs::StartSteps::passed_told))]
    pub fn port_links(&self, port: PortIndex) -> Result<PortLinks, Refusal>
        ensures { (result ≡ start_port_links self.now port) × (port_links_start_numbers result ≡ port_links_start_numbers (start_port_links self.now port)) }
    {
        self.block_port(port)?;
        Ok(PortLinks {
            port,
            front: 0,
            back: 0,
        })
    }

    // Starts a walk over the links of a block; links to the ports of a range are left out.
    #[tactic(auto, using(crate::specs::LookupSteps::start_refused, crate::specs::LookupSteps::start_made, crate::specs::StartSteps::passed_told, port_tables::specs::TableSteps::with_numbers, crate::specs::StartSteps::held_first))]
    pub fn links(
        &self,
        node: NodeIndex,
        sides: Sides,
        skip: PortRange,
    ) -> Result<NodeLinks, Refusal>
        ensures { (result ≡ start_links self.now node sides skip.from skip.to) × (node_links_start_numbers result ≡ node_links_start_numbers (start_links self.now node sides skip.from skip.to)) }
    {
        self.block(node)?;
        Ok(NodeLinks {
            node,
            sides,
            skip,
            held: Held::default(),
        })
    }

    // Starts a walk over the neighbours of a block; with the flag, links to its own outgoing ports are left out.
    #[tactic(auto, using(crate::specs::LookupSteps::start_refused, crate::specs::LookupSteps::start_made, crate::specs::StartSteps::passed_told, port_tables::specs::TableSteps::with_numbers, crate::specs::StartSteps::held_first))]
    pub fn neighbours(
        &self,
        node: NodeIndex,
        sides: Sides,
        ignore_self: bool,
    ) -> Result<Neighbours, Refusal>
        ensures { (result ≡ start_neighbours self.now node sides ignore_self) × (neighbours_start_numbers result ≡ neighbours_start_numbers (start_neighbours self.now node sides ignore_self)) }
    {
        self.block(node)?;
        Ok(Neighbours {
            node,
            sides,
            ignore_self,
            held: Held::default(),
        })
    }

    // Starts a walk over the links from one block's outgoing side to another block.
    #[tactic(auto, unfolding(crate::specs::Walks::start_between), using(crate::specs::StartSteps::start_hidden, crate::specs::StartSteps::start_visible))]
    pub fn get_connections(
        &self,
        from: NodeIndex,
        to: NodeIndex,
    ) -> Result<NodeConnections, Refusal>
        ensures { (result ≡ start_connections self.now from to) × (node_connections_start_numbers result ≡ node_connections_start_numbers (start_connections self.now from to)) }
    {
        if !self.graph.contains_node(from) || !self.graph.contains_node(to) {
            return Err(Refusal::UnknownNode);
        }
        if either_flagged(&self.copy_node, from.0, to.0) {
            return Err(Refusal::HiddenNode);
        }
        Ok(NodeConnections {
            node: from,
            target: to,
            held: Held::default(),
        })
    }
}
