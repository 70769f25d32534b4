// Adding and removing nodes: the free lists of node slots and of blocks of port slots.
ghost use Rattle.std.specs.Prelude.{◌≡◌, ◌+◌, ◌*◌, ◌≤◌, ◌<◌};
ghost use Rattle.port_tables.specs.Limits.{node_slots, port_slots};
ghost use Rattle.port_tables.specs.Tables.{at, fill_range, head_at, put_head, chain_block, BlockWithin};
ghost use Rattle.portgraph.specs.Model.{Wf};
ghost use Rattle.portgraph.specs.Calls.{find_slot, find_block, rest_of, grown, slot_after, add_node, add_numbers, remove_node, remove_numbers};

use crate::portgraph::{PortGraph, meta_of};
use port_tables::index::{FREE_LISTS, NODE_SLOTS, NodeIndex, PORT_SLOTS, PortIndex};
use port_tables::node_entry::{NodeMeta, NodeSlot};
use port_tables::numbers::wide;
use port_tables::resize_links::too_many_ports;
use port_tables::tables::{at, chain_block, cut_range, fill, head_at, own_block, put_head};

// Why a node is not added.
#[derive(Clone, Copy)]
pub enum AddError {
    TooManyPorts,
    NoRoom,
}

// The node named is not live.
#[derive(Clone, Copy)]
pub struct NoSuchNode;

// By value with its answer, the form asked for (docs/DECISIONS.md). Each call has a struct of its own: one for all would be written out with its answer,
// as Answered<Result<(NodeIndex, PortIndex), AddError>>, in every signature and definition, and is no plainer. A refusal is returned beside the graph, which
// `?` would not give back.
#[derive(Clone, Copy)]
pub struct NodeAdded {
    pub graph: PortGraph,
    // The node, and its first port; 0 for a node without ports, which stays a number: the meta data of such a node have 0 there too.
    pub answer: Result<(NodeIndex, PortIndex), AddError>,
}

// A struct of its own, as NodeAdded.
#[derive(Clone, Copy)]
pub struct NodeRemoved {
    pub graph: PortGraph,
    pub answer: Result<(), NoSuchNode>,
}

// The node slot that is taken next: the one freed last, else the next at the end.
// A table's word stays as it is held, one higher than the number, 0 for none: it is stored again as it is, and the definitions read it so.
#[tactic(auto, unfolding(crate::specs::Calls::find_slot_under))]
pub fn find_slot(free: u32, len: usize) -> Option<usize>
    ensures { result ≡ find_slot free len }
{
    match free.checked_sub(1) {
        None => (len < NODE_SLOTS).then_some(len),
        Some(slot) => Some(wide(slot)),
    }
}

// The block that is taken next: the one of exactly this size freed last, else the end. Stays beside `find_slot`: a block has a size, and one of 0 takes nothing.
#[tactic(auto, unfolding(crate::specs::Calls::find_block_under))]
pub fn find_block(heads: &[u32; FREE_LISTS], len: usize, size: usize) -> Option<usize>
    requires { (len ≤ port_slots) × (size ≤ port_slots) }
    ensures { result ≡ find_block heads.now len size }
{
    if size == 0 {
        return Some(0);
    }
    match head_at(heads, size).checked_sub(1) {
        None => (len + size <= PORT_SLOTS).then_some(len),
        Some(first) => Some(wide(first)),
    }
}

// The first of a list of free ones after its first is taken, which names the next.
// These stay words of a table, as in `find_slot`; so do those that `take_head` answers, and that `grown` and `slot_after` take.
#[tactic(auto, unfolding(crate::specs::Calls::rest_of))]
pub fn rest_of(head: u32, next: u32) -> u32
    ensures { result ≡ rest_of head next }
{
    if head == 0 { 0 } else { next }
}

// Takes the first free block of a size off its list, and answers what the list began with; of an empty one nothing is taken.
#[tactic(auto)]
pub fn take_head(
    heads: &mut [u32; FREE_LISTS],
    links: &[u32; PORT_SLOTS],
    first: usize,
    size: usize,
) -> u32
    ensures { (result ≡ head_at heads.old size)
        × (heads.new ≡ put_head heads.old size (rest_of (head_at heads.old size) (at links.now first))) }
{
    let head = head_at(heads, size);
    put_head(heads, size, rest_of(head, at(links, first)));
    head
}

// A node's block comes before the other free ones of its size, and its slots have no owner.
// Takes three tables and no graph, as `take_head` takes two: it reads and writes no more.
#[tactic(auto)]
pub fn give_block<'a>(
    heads: &'a mut [u32; FREE_LISTS],
    links: &'a mut [u32; PORT_SLOTS],
    owners: &'a mut [u32; PORT_SLOTS],
    meta: NodeMeta,
)
    requires { BlockWithin meta }
    ensures { (heads.new ≡ put_head heads.old meta.capacity (meta.first_port.0 + 1))
        × (links.new ≡ chain_block links.old meta.first_port.0 meta.capacity (head_at heads.old meta.capacity))
        × (owners.new ≡ fill_range owners.old meta.first_port.0 meta.capacity 0) }
{
    let first = meta.first_port.0;
    let size = meta.capacity();
    chain_block(links, wide(first), size, head_at(heads, size));
    fill(owners, first, meta.capacity, 0);
    put_head(heads, size, first + 1);
}

// A table's used length, where something of this size is taken: from the list, else at the end.
#[tactic(auto, unfolding(crate::specs::Calls::grown))]
pub fn grown(head: u32, len: usize, size: usize) -> usize
    requires { (len ≤ 2 * port_slots) × (size ≤ port_slots) }
    ensures { result ≡ grown head len size }
{
    if head == 0 { len + size } else { len }
}

// The slot of a free entry that is given one higher than its number, or another slot where there is none.
#[tactic(auto, unfolding(crate::specs::Calls::slot_after))]
pub fn slot_after(code: u32, other: usize) -> usize
    requires { other < node_slots }
    ensures { (result ≡ slot_after code other) × (result < node_slots) }
{
    match code.checked_sub(1) {
        Some(slot) if wide(slot) < NODE_SLOTS => wide(slot),
        _ => other,
    }
}

impl PortGraph {
    // Adds a node with a block of exactly incoming + outgoing slots.
    pub fn add_node(mut self, incoming: usize, outgoing: usize) -> NodeAdded
        requires { Wf self }
        ensures { (result ≡ add_node self incoming outgoing) × (add_numbers result.answer ≡ add_numbers (add_node self incoming outgoing).answer) }
    {
        let answer = self.add_node_lent(incoming, outgoing);
        NodeAdded {
            graph: self,
            answer,
        }
    }

    // The same in place.
    #[tactic(auto, unfolding(crate::specs::Calls::add_node_under, crate::specs::Calls::place_node), using(crate::specs::SlotSteps::node_slot_fits, crate::specs::SlotSteps::new_block_fits, crate::specs::SlotSteps::found_slot_rest, crate::specs::SlotSteps::found_block_rest, crate::specs::SlotSteps::stores_after, crate::specs::WfFacts::node_count_fits, crate::specs::WfFacts::port_count_fits))]
    pub fn add_node_lent(
        &mut self,
        incoming: usize,
        outgoing: usize,
    ) -> Result<(NodeIndex, PortIndex), AddError>
        requires { Wf self.old }
        ensures { (self.new ≡ (add_node self.old incoming outgoing).graph)
            × (result ≡ (add_node self.old incoming outgoing).answer)
            × (add_numbers result ≡ add_numbers (add_node self.old incoming outgoing).answer) }
    {
        if too_many_ports(incoming, outgoing) {
            return Err(AddError::TooManyPorts);
        }
        let size = incoming + outgoing;
        let node = find_slot(self.node_free, self.node_len).ok_or(AddError::NoRoom)?;
        let first = find_block(&self.port_free, self.port_len, size).ok_or(AddError::NoRoom)?;
        let meta = NodeMeta::new(first, incoming, outgoing, size);
        let free = rest_of(self.node_free, self.node_meta[node].next_free());
        let after = slot_after(free, node);
        self.node_meta[after] = self.node_meta[after].with_prev(0);
        self.node_meta[node] = NodeSlot::new_node(meta);
        self.node_len = grown(self.node_free, self.node_len, 1);
        self.node_free = free;
        let head = take_head(&mut self.port_free, &self.port_link, first, size);
        self.port_len = grown(head, self.port_len, size);
        fill(&mut self.port_link, first as u32, size as u16, 0);
        own_block(&mut self.port_meta, node as u32, meta);
        self.node_count += 1;
        self.port_count += size;
        Ok((NodeIndex(node as u32), PortIndex(first as u32)))
    }

    // Removes a node with the links of its ports. Its slot and its block are taken first from then on.
    pub fn remove_node(mut self, node: NodeIndex) -> NodeRemoved
        requires { Wf self }
        ensures { (result ≡ remove_node self node.0) × (remove_numbers result.answer ≡ remove_numbers (remove_node self node.0).answer) }
    {
        let answer = self.remove_node_lent(node);
        NodeRemoved {
            graph: self,
            answer,
        }
    }

    // The same in place.
    #[tactic(auto, unfolding(crate::specs::Calls::remove_node, crate::specs::Calls::free_node), using(port_tables::specs::Limits::neighbours_fit, crate::specs::LookupSteps::found_block_fits, crate::specs::SlotSteps::stores_after, crate::specs::WfFacts::node_free_fits))]
    pub fn remove_node_lent(&mut self, node: NodeIndex) -> Result<(), NoSuchNode>
        requires { Wf self.old }
        ensures { (self.new ≡ (remove_node self.old node.0).graph)
            × (result ≡ (remove_node self.old node.0).answer)
            × (remove_numbers result ≡ remove_numbers (remove_node self.old node.0).answer) }
    {
        let meta = meta_of(&self.node_meta, node).ok_or(NoSuchNode)?;
        let place = wide(node.0);
        let after = slot_after(self.node_free, place);
        self.node_meta[after] = self.node_meta[after].with_prev((node.0 + 1) as u16);
        self.node_meta[place] = NodeSlot::new_free(0, self.node_free as u16);
        self.node_free = node.0 + 1;
        let cuts = cut_range(&mut self.port_link, meta.first(), meta.capacity());
        give_block(
            &mut self.port_free,
            &mut self.port_link,
            &mut self.port_meta,
            meta,
        );
        self.node_count = self.node_count.saturating_sub(1);
        self.port_count = self.port_count.saturating_sub(meta.port_count());
        self.link_count = self.link_count.saturating_sub(cuts);
        Ok(())
    }
}
