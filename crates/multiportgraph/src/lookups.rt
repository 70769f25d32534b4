// Lookups on blocks and their ports. A node or port that is not live, or hidden, is refused.
ghost use Rattle.std.specs.Prelude.{◌≡◌};
ghost use Rattle.multi_tables.specs.NamedEnds.{block_port};
ghost use Rattle.multiportgraph.specs.Wires.{is_block};
ghost use Rattle.multiportgraph.specs.Lookups.{direction_of, node_of, offset_of, port_index_of, num_ports_of, capacity_of, contains_port_of, empty_of, direction_numbers, node_numbers, offset_numbers, port_numbers, count_numbers};
ghost use Rattle.multiportgraph.specs.WellFormed.{MultiWf};
ghost use Rattle.multiportgraph.specs.CodeForms.{block_found};

use crate::ends::position_of;
use crate::multiportgraph::MultiPortGraph;
use multi_tables::answers::Refusal;
use multi_tables::marks::flagged;
use port_tables::direction::Direction;
use port_tables::index::{NodeIndex, PortIndex, PortOffset};
use port_tables::node_entry::NodeMeta;
use port_tables::numbers::wide;

impl MultiPortGraph {
    // A block's meta data, or why the node is refused.
    #[tactic(auto, unfolding(crate::specs::CodeForms::block_found), using(crate::specs::CodeFormSteps::hidden_told))]
    pub(crate) fn block(&self, node: NodeIndex) -> Result<NodeMeta, Refusal>
        ensures { result ≡ block_found self.now node.0 }
    {
        let found = self.graph.node_meta_valid(node);
        let meta = found.ok_or(Refusal::UnknownNode)?;
        if flagged(&self.copy_node, wide(node.0)) {
            return Err(Refusal::HiddenNode);
        }
        Ok(meta)
    }

    // The block that has a port, and the side, or why the port is refused.
    pub(crate) fn block_port(&self, port: PortIndex) -> Result<(NodeIndex, Direction), Refusal>
        ensures { result ≡ block_port self.now.graph.port_meta self.now.copy_node port.0 }
    {
        self.wire_tables().block_port(port)
    }

    // The side of a port.
    #[tactic(auto, unfolding(crate::specs::Lookups::direction_of), using(crate::specs::StartSteps::block_is, crate::specs::StartSteps::direction_refused, crate::specs::StartSteps::passed_told, port_tables::specs::TableSteps::with_numbers))]
    pub fn port_direction(&self, port: PortIndex) -> Result<Direction, Refusal>
        ensures { (result ≡ direction_of self.now port.0) × (direction_numbers result ≡ direction_numbers (direction_of self.now port.0)) }
    {
        let (_, direction) = self.block_port(port)?;
        Ok(direction)
    }

    // The block that has a port.
    #[tactic(auto, unfolding(crate::specs::Lookups::node_of), using(crate::specs::StartSteps::block_is, crate::specs::StartSteps::node_refused, crate::specs::StartSteps::passed_told, port_tables::specs::TableSteps::with_numbers))]
    pub fn port_node(&self, port: PortIndex) -> Result<NodeIndex, Refusal>
        ensures { (result ≡ node_of self.now port.0) × (node_numbers result ≡ node_numbers (node_of self.now port.0)) }
    {
        let (node, _) = self.block_port(port)?;
        Ok(node)
    }

    // The side and position of a port.
    #[tactic(auto, using(port_tables::specs::TableSteps::with_numbers, crate::specs::LookupSteps::offset_found, crate::specs::StartSteps::block_is, crate::specs::StartSteps::offset_refused, crate::specs::StartSteps::passed_told))]
    pub fn port_offset(&self, port: PortIndex) -> Result<PortOffset, Refusal>
        ensures { (result ≡ offset_of self.now port.0) × (offset_numbers result ≡ offset_numbers (offset_of self.now port.0)) }
    {
        let (_, direction) = self.block_port(port)?;
        Ok(PortOffset {
            direction,
            index: position_of(&self.graph, port.0),
        })
    }

    // The port at a side and position of a block.
    #[tactic(auto, using(crate::specs::LookupSteps::index_refused, crate::specs::LookupSteps::index_found, crate::specs::StartSteps::passed_told, port_tables::specs::TableSteps::with_numbers))]
    pub fn port_index(
        &self,
        node: NodeIndex,
        offset: PortOffset,
    ) -> Result<Option<PortIndex>, Refusal>
        requires { MultiWf self.now }
        ensures { (result ≡ port_index_of self.now node.0 offset) × (port_numbers result ≡ port_numbers (port_index_of self.now node.0 offset)) }
    {
        self.block(node)?;
        Ok(self.graph.port_index(node, offset))
    }

    // The number of ports of a block on one side.
    #[tactic(auto, using(port_tables::specs::TableSteps::with_numbers, crate::specs::LookupSteps::ports_refused, crate::specs::LookupSteps::ports_counted, crate::specs::StartSteps::passed_told))]
    pub fn num_ports(&self, node: NodeIndex, direction: Direction) -> Result<usize, Refusal>
        ensures { (result ≡ num_ports_of self.now node.0 direction) × (count_numbers result ≡ count_numbers (num_ports_of self.now node.0 direction)) }
    {
        let meta = self.block(node)?;
        Ok(meta.num_ports(direction))
    }

    // The slots of a block's ports.
    #[tactic(auto, using(crate::specs::LookupSteps::capacity_refused, crate::specs::StartSteps::passed_told))]
    pub fn node_port_capacity(&self, node: NodeIndex) -> Result<usize, Refusal>
        ensures { (result ≡ capacity_of self.now node.0) × (count_numbers result ≡ count_numbers (capacity_of self.now node.0)) }
    {
        let meta = self.block(node)?;
        Ok(meta.capacity())
    }

    // Whether a node is a block.
    #[tactic(auto, using(crate::specs::LookupSteps::block_at))]
    pub fn contains_node(&self, node: NodeIndex) -> bool
        ensures { result ≡ is_block self.now node.0 }
    {
        self.block(node).is_ok()
    }

    // Whether a port is a block's.
    #[tactic(auto, using(crate::specs::StartSteps::contains_told))]
    pub fn contains_port(&self, port: PortIndex) -> bool
        ensures { result ≡ contains_port_of self.now port.0 }
    {
        self.block_port(port).is_ok()
    }

    // Whether there is no node and no port.
    #[tactic(auto, unfolding(crate::specs::Lookups::empty_of))]
    pub fn is_empty(&self) -> bool
        ensures { result ≡ empty_of self.now }
    {
        self.graph.is_empty()
    }
}
