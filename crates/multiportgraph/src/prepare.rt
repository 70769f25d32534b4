// Preparing an end of a link: by the cases of mark and link.
ghost use Rattle.std.specs.Prelude.{◌≡◌, ◌+◌, ◌-◌, ◌*◌, ◌≤◌};
ghost use Rattle.port_tables.specs.Limits.{node_slots, node_ports, port_slots};
ghost use Rattle.port_tables.specs.Tables.{at, link_count};
ghost use Rattle.portgraph.specs.Calls.{with_links};
ghost use Rattle.multi_tables.specs.TableReads.{copy_at, subports_at, hang_on, last_beside};
ghost use Rattle.multiportgraph.specs.CodeForms.{prepared_as};
ghost use Rattle.multiportgraph.specs.HiddenNodes.{split, grow, prepare, copy_incoming, copy_outgoing};
ghost use Rattle.multiportgraph.specs.Needs.{need_of};
ghost use Rattle.multiportgraph.specs.Tidy.{left_incoming, left_outgoing};
ghost use Rattle.multiportgraph.specs.Presumed.{OnBlock, LinkedPort, GrowPort};

use crate::multiportgraph::MultiPortGraph;
use crate::needs::Need;
use multi_tables::answers::Refusal;
use multi_tables::marks::{put_flag, put_marks};
use multi_tables::seen::SidedPort;
use port_tables::direction::Direction;
use port_tables::index::NodeIndex;
use port_tables::node_entry::NodeMeta;
use port_tables::numbers::wide;
use port_tables::tables::far_in;
use portgraph::portgraph::PortGraph;

// A new hidden node with two subports: its counts, and where the copy port and the first subport stand in its block.
#[derive(Clone, Copy)]
pub struct SplitShape {
    pub incoming: usize,
    pub outgoing: usize,
    pub copy: u32,
    pub subports: u32,
}

impl SplitShape {
    // The one for a port of this side.
    pub fn new(direction: Direction) -> Self
        ensures { (result.incoming ≡ copy_incoming direction) × (result.outgoing ≡ copy_outgoing direction) × (result.copy ≡ copy_at direction) × (result.subports ≡ subports_at direction) }
    {
        match direction {
            Direction::Incoming => SplitShape {
                incoming: 2,
                outgoing: 1,
                copy: 2,
                subports: 0,
            },
            Direction::Outgoing => SplitShape {
                incoming: 1,
                outgoing: 2,
                copy: 0,
                subports: 1,
            },
        }
    }
}

// The counts of a hidden node with so many subports on this side.
pub fn hidden_counts(direction: Direction, subports: usize) -> (usize, usize)
    ensures { result ≡ (left_incoming direction subports, left_outgoing direction subports) }
{
    match direction {
        Direction::Incoming => (subports, 1),
        Direction::Outgoing => (1, subports),
    }
}

// The slot of the subport that follows `count` others, by that of the copy port.
fn last_beside(direction: Direction, copy: u32, count: usize) -> u32
    requires { (copy ≤ port_slots) × (count ≤ port_slots) }
    ensures { result ≡ last_beside direction copy count }
{
    match direction {
        Direction::Incoming => copy.saturating_sub(1),
        Direction::Outgoing => copy + 1 + count as u32,
    }
}

// A linked port of the lower graph hangs on the copy port, and its old link is at the first subport.
fn hang(graph: &mut PortGraph, port: u32, copy: u32, first: u32)
    requires { (graph.old.link_count ≤ node_slots * node_ports) × (link_count (at graph.old.port_link port) ≡ 1) }
    ensures { graph.new ≡ with_links graph.old (hang_on graph.old.port_link port copy first) (graph.old.link_count - link_count (at graph.old.port_link port) + 2) }
{
    let held = graph.cut_link(port);
    graph.draw_link(port, copy);
    graph.draw_link(first, held.saturating_sub(1));
}

impl MultiPortGraph {
    // Unsplit and linked: a hidden node with 2 subports is made, the old link moves to offset 0, and offset 1 is given.
    #[tactic(auto, using(crate::specs::PrepareSteps::or_err, crate::specs::PrepareSteps::split_full, port_tables::specs::TableSteps::passed_on))]
    fn split(&mut self, port: SidedPort) -> Result<(u32, u16), Refusal>
        requires { LinkedPort self.old port.port port.side }
        ensures { (self.new, result) ≡ prepared_as self.old (split self.old port.port port.side) }
    {
        let shape = SplitShape::new(port.side);
        let (node, first) = self
            .graph
            .add_node_lent(shape.incoming, shape.outgoing)
            .or(Err(Refusal::NoRoom))?;
        let copy = first.0 + shape.copy;
        let old = first.0 + shape.subports;
        hang(&mut self.graph, port.port, copy, old);
        put_marks(&mut self.multiport, copy, true, port.port, true);
        put_flag(&mut self.copy_node, wide(node.0), true);
        self.copy_node_count += 1;
        self.subport_count += 2;
        Ok((old + 1, 1))
    }

    // One more subport at the end of a split port's hidden node, which has these meta data. The copy port's mark moves with it.
    fn grow(
        &mut self,
        port: SidedPort,
        node: NodeIndex,
        meta: NodeMeta,
    ) -> Result<(u32, u16), Refusal>
        requires { GrowPort self.old port.port port.side node.0 meta }
        ensures { (self.new, result) ≡ prepared_as self.old (grow self.old node.0 port.side) }
    {
        let copy = far_in(self.graph.link_table(), wide(port.port));
        let count = meta.num_ports(port.side);
        let (incoming, outgoing) = hidden_counts(port.side, count + 1);
        self.graph
            .set_num_ports_quiet_lent(node, incoming, outgoing)
            .or(Err(Refusal::NoRoom))?;
        let moved = far_in(self.graph.link_table(), wide(port.port));
        put_marks(&mut self.multiport, copy, false, moved, true);
        self.subport_count += 1;
        Ok((last_beside(port.side, moved, count), count as u16))
    }

    // The end that a link of this port takes, which needs this: the inner port and its offset.
    #[tactic(auto, using(crate::specs::NeedLaws::prepared_for_lem))]
    pub(crate) fn prepare(&mut self, port: SidedPort, need: Need) -> Result<(u32, u16), Refusal>
        requires { OnBlock self.old port.port port.side × (need ≡ need_of self.old port.port port.side) }
        ensures { (self.new, result) ≡ prepared_as self.old (prepare self.old port.port port.side) }
    {
        match need {
            Need::Ready(x, o) => Ok((x, o)),
            Need::Grow(node, meta) => self.grow(port, node, meta),
            Need::Split => self.split(port),
        }
    }
}
