// Walks over the links of a block: its links, its neighbours and its connections to another block.
ghost use Rattle.std.specs.Prelude.{◌≡◌, ◌<◌};
ghost use Rattle.port_tables.specs.Limits.{port_slots};
ghost use Rattle.multiportgraph.specs.Walks.{step_links, step_neighbours, step_connections};
ghost use Rattle.multiportgraph.specs.WalkNumbers.{node_links_values, neighbours_values, node_connections_values};
ghost use Rattle.multiportgraph.specs.WellFormed.{MultiWf};
ghost use Rattle.multi_tables.specs.Scans.{first_found, link_port};
ghost use Rattle.multiportgraph.specs.Wires.{held_at};
ghost use Rattle.multiportgraph.specs.WalkScans.{block_left, self_filter};

use crate::iter::{Neighbours, NodeConnections, NodeLinks};
use crate::multiportgraph::MultiPortGraph;
use multi_tables::answers::{SubportIndex, SubportLink};
use multi_tables::scans::{Held, LinkFilter};
use port_tables::direction::Direction;
use port_tables::index::NodeIndex;
use port_tables::sides::{Sides, ports_from, ports_to};
use port_tables::tables::owner_in;

// What a cursor holds that gave this subport, or a link from it, last.
// Stays a function: it asks that the port lies within the tables, which `From` could not.
pub(crate) fn held_at(subport: SubportIndex) -> Held
    requires { subport.port.0 < port_slots }
    ensures { result ≡ held_at subport }
{
    let port = subport.port;
    Held {
        port: port.0 + 1,
        offset: subport.subport_offset,
    }
}

impl MultiPortGraph {
    // The first link of a block beyond what a cursor holds; none where the block or the port held is gone or hidden.
    #[tactic(auto, using(crate::specs::WalkSteps::both_refused, crate::specs::WalkSteps::both_found, crate::specs::LinkWalkSteps::left_gone))]
    fn next_of_block(
        &self,
        node: NodeIndex,
        sides: Sides,
        filter: LinkFilter,
        held: Held,
    ) -> Option<SubportLink>
        requires { MultiWf self.now }
        ensures { (result ≡ first_found (block_left self.now node.0 sides filter held.port held.offset)) × (link_port 0 result < port_slots) }
    {
        let meta = self.block(node).ok()?;
        if !self.held_seen(held.port) {
            return None;
        }
        self.wire_tables().next_beyond(filter, ports_from(meta, sides), ports_to(meta, sides), held)
    }
}

impl NodeLinks {
    #[tactic(auto, using(port_tables::specs::TableSteps::with_numbers, crate::specs::LinkWalkSteps::links_none))]
    pub fn step(self, graph: &MultiPortGraph) -> Option<(SubportLink, NodeLinks)>
        requires { MultiWf graph.now }
        ensures { (result ≡ step_links graph.now self) × (node_links_values result ≡ node_links_values (step_links graph.now self)) }
    {
        let filter = LinkFilter::Skip(self.skip);
        let link = graph.next_of_block(self.node, self.sides, filter, self.held)?;
        Some((
            link,
            NodeLinks {
                held: held_at(link.from),
                ..self
            },
        ))
    }
}

// Which links lead to neighbours.
fn self_filter(node: NodeIndex, ignore_self: bool) -> LinkFilter
    ensures { result ≡ self_filter node ignore_self }
{
    if ignore_self {
        LinkFilter::NotOutputOf(node)
    } else {
        LinkFilter::All
    }
}

impl Neighbours {
    #[tactic(auto, using(crate::specs::LinkWalkSteps::neighbours_item_lem, crate::specs::LinkWalkSteps::neighbours_none))]
    pub fn step(self, graph: &MultiPortGraph) -> Option<(NodeIndex, Neighbours)>
        requires { MultiWf graph.now }
        ensures { (result ≡ step_neighbours graph.now self) × (neighbours_values result ≡ neighbours_values (step_neighbours graph.now self)) }
    {
        let filter = self_filter(self.node, self.ignore_self);
        let link = graph.next_of_block(self.node, self.sides, filter, self.held)?;
        let to = link.to;
        let far = to.port;
        Some((
            NodeIndex(owner_in(graph.graph.owner_table(), far.0)),
            Neighbours {
                held: held_at(link.from),
                ..self
            },
        ))
    }
}

impl NodeConnections {
    #[tactic(auto, using(crate::specs::LinkWalkSteps::connections_gone, crate::specs::LinkWalkSteps::connections_none))]
    pub fn step(self, graph: &MultiPortGraph) -> Option<(SubportLink, NodeConnections)>
        requires { MultiWf graph.now }
        ensures { (result ≡ step_connections graph.now self) × (node_connections_values result ≡ node_connections_values (step_connections graph.now self)) }
    {
        if !graph.contains_node(self.target) {
            return None;
        }
        let side = Sides::One(Direction::Outgoing);
        let filter = LinkFilter::To(self.target);
        let link = graph.next_of_block(self.node, side, filter, self.held)?;
        Some((
            link,
            NodeConnections {
                held: held_at(link.from),
                ..self
            },
        ))
    }
}
