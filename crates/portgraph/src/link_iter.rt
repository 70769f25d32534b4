// Walks over the links of a node and over all ports, as cursors by value: a cursor holds the port given last, one higher than
// its number; 0 at the start. Stays a number: a walk goes on from it.
// A step searches the tables where they lie, so that it copies no more of the graph than one node slot.
// Cursors, no Iterator: the graph may change between two steps, so a walk borrows none.
ghost use Rattle.std.specs.Prelude.{◌≡◌, ◌-◌, ◌≤◌, ◌<◌, IfSome};
ghost use Rattle.port_tables.specs.Limits.{port_slots};
ghost use Rattle.port_tables.specs.ResizeLinks.{BlockFits};
ghost use Rattle.portgraph.specs.Model.{Wf};
ghost use Rattle.portgraph.specs.LinkWalks.{is_port_in, held_in, is_kept, link_kept, is_of, link_to, step_links, links_numbers, start_links, links_start_numbers, step_neighbours, neighbours_numbers, start_neighbours, neighbours_start_numbers, step_connections, connections_numbers, start_connections, connections_start_numbers, step_all_ports, all_ports_numbers, link_in, first_where, before, node_left, ports_left, own_ports};

use crate::alloc::NoSuchNode;
use crate::portgraph::{PortGraph, meta_of};
use port_tables::direction::Direction;
use port_tables::index::{NODE_SLOTS, NodeIndex, PORT_SLOTS, PortIndex, PortRange};
use port_tables::node_entry::{NodeMeta, NodeSlot};
use port_tables::numbers::wide;
use port_tables::sides::{Sides, ports_from, ports_to};
use port_tables::tables::{at, far_in, owner_in};
use std::ops::Range;

// A link, from the port where it was found.
#[derive(Clone, Copy)]
pub struct Link {
    pub from: PortIndex,
    pub to: PortIndex,
}

// A walk over the links of a node; links to the ports of a range are left out.
// Stays flat, as the next two: with a NodePorts in it `self.ports.node` would stand for `self.node`, and connections have no sides.
#[derive(Clone, Copy)]
pub struct NodeLinks {
    pub node: NodeIndex,
    pub sides: Sides,
    pub skip: PortRange,
    pub held: u32,
}

// A walk over the neighbours of a node, one for each link; with the flag, links to outgoing ports of the node itself are left
// out.
#[derive(Clone, Copy)]
pub struct Neighbours {
    pub node: NodeIndex,
    pub sides: Sides,
    pub ignore_self: bool,
    pub held: u32,
}

// A walk over the links from one node's outgoing side to another node.
#[derive(Clone, Copy)]
pub struct NodeConnections {
    pub node: NodeIndex,
    pub target: NodeIndex,
    pub held: u32,
}

// A walk over all ports, by ascending number.
#[derive(Clone, Copy)]
pub struct Ports {
    pub held: u32,
}

// Whether a port is live. Reads the number alone, as `is_of` below: an entry read would be taken apart again; no plainer.
#[tactic(auto, unfolding(crate::specs::LinkWalks::is_port_in, port_tables::specs::Entries::port_entry))]
fn is_port_in(owners: &[u32; PORT_SLOTS], port: usize) -> bool
    ensures { result ≡ is_port_in owners.now port }
{
    0 < at(owners, port)
}

// Whether the port that a cursor holds is still there.
#[tactic(auto, unfolding(crate::specs::LinkWalks::held_in))]
fn held_in(owners: &[u32; PORT_SLOTS], held: u32) -> bool
    ensures { result ≡ held_in owners.now held }
{
    held.checked_sub(1)
        .is_none_or(|port| is_port_in(owners, wide(port)))
}

// Whether there is a link and its far port, given one higher than its number, lies outside a range. The range is tested here and in multi_tables, each by its
// own definition, in one line.
// The far port stays a word, as the table and the definition have it; no plainer.
#[tactic(auto, unfolding(crate::specs::LinkWalks::is_kept))]
fn is_kept(far: u32, skip: PortRange) -> bool
    ensures { result ≡ is_kept far skip.from skip.to }
{
    far.checked_sub(1)
        .is_some_and(|port| port < skip.from || skip.to <= port)
}

// The first of these ports whose link leads outside a range.
fn next_link(links: &[u32; PORT_SLOTS], mut left: Range<usize>, skip: PortRange) -> Option<usize>
    ensures is { result ≡ before left.end (first_where (link_kept links.now skip.from skip.to) left.start (left.end - left.start)) }
    ensures within { IfSome result (λ p. p < left.end) }
{
    left.find(|port| is_kept(at(links, *port), skip))
}

// Whether an owner's number is that of a port of a node.
#[tactic(auto, unfolding(crate::specs::LinkWalks::is_of, port_tables::specs::Entries::port_entry))]
fn is_of(owner: u32, node: u32) -> bool
    ensures { result ≡ is_of node owner }
{
    owner.checked_sub(1).is_some_and(|code| code / 2 == node)
}

// Whether a port is linked with a port of a node. Takes two tables and no graph: it reads no more.
#[tactic(auto, unfolding(crate::specs::LinkWalks::link_to, port_tables::specs::Tables::far_in))]
fn link_to<'a>(
    links: &'a [u32; PORT_SLOTS],
    owners: &'a [u32; PORT_SLOTS],
    node: u32,
    port: usize,
) -> bool
    ensures { result ≡ link_to links.now owners.now node port }
{
    at(links, port)
        .checked_sub(1)
        .is_some_and(|far| is_of(at(owners, wide(far)), node))
}

// The first of these ports that is linked with a port of a node.
fn next_link_to<'a>(
    links: &'a [u32; PORT_SLOTS],
    owners: &'a [u32; PORT_SLOTS],
    mut left: Range<usize>,
    node: u32,
) -> Option<usize>
    ensures is { result ≡ before left.end (first_where (link_to links.now owners.now node) left.start (left.end - left.start)) }
    ensures within { IfSome result (λ p. p < left.end) }
{
    left.find(|port| link_to(links, owners, node, *port))
}

// The first live port from a slot on.
fn next_port(owners: &[u32; PORT_SLOTS], from: usize) -> Option<usize>
    ensures is { result ≡ before port_slots (first_where (is_port_in owners.now) from (port_slots - from)) }
    ensures within { IfSome result (λ p. p < port_slots) }
{
    (from..PORT_SLOTS).find(|port| is_port_in(owners, *port))
}

// The node at which a walk goes on; none where it is gone, or the port that the walk holds.
#[tactic(auto, unfolding(crate::specs::LinkWalks::node_left), using(crate::specs::LookupSteps::length_of_map, crate::specs::LookupSteps::node_outside))]
pub(crate) fn node_left<'a>(
    nodes: &'a [NodeSlot; NODE_SLOTS],
    owners: &'a [u32; PORT_SLOTS],
    node: NodeIndex,
    held: u32,
) -> Option<NodeMeta>
    ensures { result ≡ node_left nodes.now owners.now node.0 held }
{
    if !held_in(owners, held) {
        return None;
    }
    meta_of(nodes, node)
}

// The ports that a walk over a node's ports has left.
#[tactic(auto, unfolding(crate::specs::LinkWalks::ports_left), using(crate::specs::WalkLaws::ports_end_within))]
pub(crate) fn ports_left(meta: NodeMeta, sides: Sides, held: u32) -> Range<usize>
    requires { BlockFits meta }
    ensures { (result ≡ ports_left meta sides held) × (result.end ≤ port_slots) }
{
    ports_from(meta, sides).max(wide(held))..ports_to(meta, sides)
}

// A node's outgoing ports, where the flag asks to leave them out.
// Else none: a range without ports says that, and an Option would be tested at each port.
#[tactic(auto, unfolding(crate::specs::LinkWalks::own_ports))]
fn own_ports(meta: NodeMeta, flag: bool) -> PortRange
    requires { BlockFits meta }
    ensures { result ≡ own_ports meta flag }
{
    if !flag {
        return PortRange { from: 0, to: 0 };
    }
    let outgoing = Sides::One(Direction::Outgoing);
    PortRange {
        from: ports_from(meta, outgoing) as u32,
        to: ports_to(meta, outgoing) as u32,
    }
}

// The link of a port.
fn link_at(links: &[u32; PORT_SLOTS], port: usize) -> Link
    requires { port < port_slots }
    ensures { result ≡ link_in links.now port }
{
    Link {
        from: PortIndex(port as u32),
        to: PortIndex(far_in(links, port)),
    }
}

impl PortGraph {
    // Starts a walk over the links of a node on one side or both, without those to a range of ports.
    pub fn links(
        &self,
        node: NodeIndex,
        sides: Sides,
        skip: PortRange,
    ) -> Result<NodeLinks, NoSuchNode>
        ensures { (result ≡ start_links self.now node sides skip) × (links_start_numbers result ≡ links_start_numbers (start_links self.now node sides skip)) }
    {
        self.node_meta_valid(node).ok_or(NoSuchNode)?;
        Ok(NodeLinks {
            node,
            sides,
            skip,
            held: 0,
        })
    }

    // Starts a walk over the neighbours of a node on one side or both.
    pub fn neighbours(
        &self,
        node: NodeIndex,
        sides: Sides,
        ignore_self: bool,
    ) -> Result<Neighbours, NoSuchNode>
        ensures { (result ≡ start_neighbours self.now node sides ignore_self) × (neighbours_start_numbers result ≡ neighbours_start_numbers (start_neighbours self.now node sides ignore_self)) }
    {
        self.node_meta_valid(node).ok_or(NoSuchNode)?;
        Ok(Neighbours {
            node,
            sides,
            ignore_self,
            held: 0,
        })
    }

    // Starts a walk over the links from one node's outgoing side to another node.
    pub fn get_connections(
        &self,
        from: NodeIndex,
        to: NodeIndex,
    ) -> Result<NodeConnections, NoSuchNode>
        ensures { (result ≡ start_connections self.now from to) × (connections_start_numbers result ≡ connections_start_numbers (start_connections self.now from to)) }
    {
        self.node_meta_valid(from).ok_or(NoSuchNode)?;
        self.node_meta_valid(to).ok_or(NoSuchNode)?;
        Ok(NodeConnections {
            node: from,
            target: to,
            held: 0,
        })
    }

    // Starts a walk over all ports.
    pub fn ports_iter(&self) -> Ports
        ensures { result.held ≡ 0 }
    {
        Ports { held: 0 }
    }
}

impl NodeLinks {
    #[tactic(auto, unfolding(crate::specs::LinkWalks::step_links), using(crate::specs::LinkWalkSteps::left_fits, crate::specs::LinkWalkSteps::step_gone, crate::specs::LinkWalkSteps::step_over, crate::specs::LinkWalkSteps::step_given))]
    pub fn step(self, graph: &PortGraph) -> Option<(Link, NodeLinks)>
        requires { Wf graph.now }
        ensures { (result ≡ step_links graph.now self) × (links_numbers result ≡ links_numbers (step_links graph.now self)) }
    {
        let meta = node_left(&graph.node_meta, &graph.port_meta, self.node, self.held)?;
        let left = ports_left(meta, self.sides, self.held);
        let port = next_link(&graph.port_link, left, self.skip)?;
        Some((
            link_at(&graph.port_link, port),
            NodeLinks {
                held: port as u32 + 1,
                ..self
            },
        ))
    }
}

impl Neighbours {
    #[tactic(auto, unfolding(crate::specs::LinkWalks::step_neighbours), using(crate::specs::LinkWalkSteps::left_fits, crate::specs::LinkWalkSteps::own_left, crate::specs::LinkWalkSteps::step_gone, crate::specs::LinkWalkSteps::step_over, crate::specs::LinkWalkSteps::step_given))]
    pub fn step(self, graph: &PortGraph) -> Option<(NodeIndex, Neighbours)>
        requires { Wf graph.now }
        ensures { (result ≡ step_neighbours graph.now self) × (neighbours_numbers result ≡ neighbours_numbers (step_neighbours graph.now self)) }
    {
        let meta = node_left(&graph.node_meta, &graph.port_meta, self.node, self.held)?;
        let left = ports_left(meta, self.sides, self.held);
        let skip = own_ports(meta, self.ignore_self);
        let port = next_link(&graph.port_link, left, skip)?;
        let far = far_in(&graph.port_link, port);
        Some((
            NodeIndex(owner_in(&graph.port_meta, far)),
            Neighbours {
                held: port as u32 + 1,
                ..self
            },
        ))
    }
}

impl NodeConnections {
    #[tactic(auto, unfolding(crate::specs::LinkWalks::step_connections), using(crate::specs::LinkWalkSteps::left_fits, crate::specs::LinkWalkSteps::step_gone, crate::specs::LinkWalkSteps::step_over, crate::specs::LinkWalkSteps::step_given))]
    pub fn step(self, graph: &PortGraph) -> Option<(Link, NodeConnections)>
        requires { Wf graph.now }
        ensures { (result ≡ step_connections graph.now self) × (connections_numbers result ≡ connections_numbers (step_connections graph.now self)) }
    {
        let meta = node_left(&graph.node_meta, &graph.port_meta, self.node, self.held)?;
        let left = ports_left(meta, Sides::One(Direction::Outgoing), self.held);
        let port = next_link_to(&graph.port_link, &graph.port_meta, left, self.target.0)?;
        Some((
            link_at(&graph.port_link, port),
            NodeConnections {
                held: port as u32 + 1,
                ..self
            },
        ))
    }
}

impl Ports {
    #[tactic(auto, using(crate::specs::LinkWalkSteps::ports_gone, crate::specs::LinkWalkSteps::ports_given, crate::specs::LinkWalkSteps::ports_over, crate::specs::LinkWalkSteps::stopped, crate::specs::LinkWalkSteps::not_stopped))]
    pub fn step(self, graph: &PortGraph) -> Option<(PortIndex, Ports)>
        ensures { (result ≡ step_all_ports graph.now self) × (all_ports_numbers result ≡ all_ports_numbers (step_all_ports graph.now self)) }
    {
        if !held_in(&graph.port_meta, self.held) {
            return None;
        }
        let port = next_port(&graph.port_meta, wide(self.held))?;
        Some((
            PortIndex(port as u32),
            Ports {
                held: port as u32 + 1,
            },
        ))
    }
}
