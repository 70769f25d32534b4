// The leaves: each works on one table by reference, the move list beside it where events are told.
// A leaf without a clause tests its numbers.
ghost use Rattle.std.specs.Prelude.{◌≡◌, ◌+◌, ◌-◌, ◌*◌, ◌≤◌, ◌<◌, set, [], ◌∷◌};
ghost use Rattle.std.proofs.lemmas.List.Edits.{sets};
ghost use Rattle.port_tables.specs.Limits.{port_slots};
ghost use Rattle.port_tables.specs.Tables.{at, far_in, owner_in, put, fill_range, head_at, put_head, own_block, link_both, cut, cut_range, cut_count, link_count, move_port, shift, transfer, chain_block, told_link, drop_events, shift_events, moved_at, BlockWithin, ShiftFits};

use crate::index::{FREE_LISTS, NODE_PORTS, PORT_SLOTS};
use crate::node_entry::NodeMeta;
use crate::numbers::wide;

// What a table holds at a slot; 0 outside.
// Stays a number: 0 is what a slot with nothing in it holds, and the definition reads one outside so.
#[tactic(auto, unfolding(crate::specs::Tables::at))]
pub fn at(table: &[u32; PORT_SLOTS], slot: usize) -> u32
    ensures { result ≡ at table.now slot }
{
    table.get(slot).copied().unwrap_or(0)
}

// The slot that a slot is linked with; 0 for none, which no caller asks for.
#[tactic(auto, unfolding(crate::specs::Tables::far_in))]
pub fn far_in(links: &[u32; PORT_SLOTS], slot: usize) -> u32
    ensures { result ≡ far_in links.now slot }
{
    at(links, slot).saturating_sub(1)
}

// The node that has a port; 0 for a port that is not live, which no caller asks for.
#[tactic(auto, unfolding(crate::specs::Tables::owner_in, crate::specs::Entries::port_entry))]
pub fn owner_in(owners: &[u32; PORT_SLOTS], port: u32) -> u32
    ensures { result ≡ owner_in owners.now port }
{
    at(owners, wide(port)).saturating_sub(1) / 2
}

// Stores a number at a slot; outside nothing changes. Stays beside `store`: each says its own table's definition.
// Tests and indexes, as the stores below do: the slot is read off the test, where what `get_mut` lends would be matched on; no plainer.
#[tactic(auto, unfolding(crate::specs::Tables::put))]
pub fn put(table: &mut [u32; PORT_SLOTS], slot: usize, value: u32)
    ensures { table.new ≡ put table.old slot value }
{
    if slot < PORT_SLOTS {
        table[slot] = value;
    }
}

// The number of links after one is cut, by what the link table held; no link is one that was there.
pub fn without_link(count: usize, far: u32) -> usize
    ensures { result ≡ count - link_count far }
{
    count.saturating_sub(link_count(far))
}

// Sets `count` slots from `first` on; a range that runs past the table is left alone. Takes both as a block's meta data has them: half the callers hand these on.
#[tactic(auto, unfolding(crate::specs::Tables::fill_range))]
pub fn fill(table: &mut [u32; PORT_SLOTS], first: u32, count: u16, value: u32)
    ensures { table.new ≡ fill_range table.old first count value }
{
    let start = wide(first);
    let n = usize::from(count);
    if start + n <= PORT_SLOTS {
        table[start..start + n].fill(value);
    }
}

// The first free block of a size, one higher than its first slot; 0 for none.
// A table's word stays as it is held, as in `cut`: a block that is freed stores it again.
// Stays beside at: each says its own table's definition, so that one function over the size would stand below both as a third.
#[tactic(auto, unfolding(crate::specs::Tables::head_at))]
pub fn head_at(heads: &[u32; FREE_LISTS], size: usize) -> u32
    ensures { result ≡ head_at heads.now size }
{
    heads.get(size).copied().unwrap_or(0)
}

// Makes another block the first free one of its size.
// Stays beside `put`, as `head_at` beside `at`.
#[tactic(auto, unfolding(crate::specs::Tables::put_head))]
pub fn put_head(heads: &mut [u32; FREE_LISTS], size: usize, value: u32)
    ensures { heads.new ≡ put_head heads.old size value }
{
    if 0 < size && size <= NODE_PORTS {
        heads[size] = value;
    }
}

// The slots of a block get their owner: the node, incoming ports first, then outgoing; what is left is free.
#[tactic(auto, unfolding(crate::specs::Tables::own_block))]
pub fn own_block(owners: &mut [u32; PORT_SLOTS], node: u32, meta: NodeMeta)
    requires { (node ≤ port_slots) × BlockWithin meta }
    ensures { owners.new ≡ own_block owners.old node meta }
{
    let first = meta.first_port.0;
    let incoming = meta.incoming;
    let outgoing = meta.outgoing;
    let capacity = meta.capacity;
    let count = incoming + outgoing;
    fill(owners, first, incoming, 2 * node + 1);
    fill(owners, first + u32::from(incoming), outgoing, 2 * node + 2);
    fill(owners, first + u32::from(count), capacity - count, 0);
}

// Links two ports with one another.
#[tactic(auto, unfolding(crate::specs::Tables::link_both))]
pub fn link_both(links: &mut [u32; PORT_SLOTS], a: u32, b: u32)
    ensures { links.new ≡ link_both links.old a b }
{
    if wide(a) < PORT_SLOTS && wide(b) < PORT_SLOTS {
        put(links, wide(a), b + 1);
        put(links, wide(b), a + 1);
    }
}

// Cuts the link of a port at both ends, and answers what the table held for it.
// A table's word stays as it is held, one higher than the number, 0 for none: it is stored again as it is, and the definitions read it so.
#[tactic(auto, unfolding(crate::specs::Tables::cut, crate::specs::Tables::cut_far))]
pub fn cut(links: &mut [u32; PORT_SLOTS], port: usize) -> u32
    ensures { (result ≡ at links.old port) × (links.new ≡ cut links.old port) }
{
    let far = at(links, port);
    if let Some(other) = far.checked_sub(1) {
        put(links, port, 0);
        put(links, wide(other), 0);
    }
    far
}

// 1 for a link, 0 for none.
#[tactic(auto, unfolding(crate::specs::Tables::link_count))]
pub fn link_count(far: u32) -> usize
    ensures { result ≡ link_count far }
{
    usize::from(far != 0)
}

// Cuts the links of `count` ports from `first` on, one after the other, and answers how many there were.
// Counts from 0, as the loops below: the definitions go by the number of ports; no plainer.
// That the ports lie within the table stays a clause: the definitions take any first port and number, and a type that held it would be none of theirs.
#[tactic(auto, using(crate::specs::TableSteps::cut_range_first, crate::specs::TableSteps::cut_range_none, crate::specs::TableSteps::cut_count_first, crate::specs::TableSteps::cut_count_none, crate::specs::TableSteps::link_count_at_most_one))]
pub fn cut_range(links: &mut [u32; PORT_SLOTS], first: usize, count: usize) -> usize
    requires { first + count ≤ port_slots }
    ensures { (result ≡ cut_count links.old first count) × (links.new ≡ cut_range links.old first count) }
{
    let mut n: usize = 0;
    for k in 0..count {
        n += link_count(cut(links, first + k));
    }
    n
}

// A port moves to another slot with its link; what stood at the old slot stays there.
#[tactic(auto, unfolding(crate::specs::Tables::move_port, crate::specs::Tables::relink))]
pub fn move_port(links: &mut [u32; PORT_SLOTS], old: usize, new: usize)
    requires { new ≤ port_slots }
    ensures { links.new ≡ move_port links.old old new }
{
    let far = at(links, old);
    put(links, new, far);
    if let Some(other) = far.checked_sub(1) {
        put(links, wide(other), new as u32 + 1);
    }
}

// A free block is put before the others of its size: its first slot holds the one that was first.
#[tactic(auto, unfolding(crate::specs::Tables::chain_block))]
pub fn chain_block(links: &mut [u32; PORT_SLOTS], first: usize, size: usize, head: u32)
    ensures { links.new ≡ chain_block links.old first size head }
{
    if size != 0 {
        put(links, first, head);
    }
}

// Stores a number in a lent list; outside nothing changes.
#[tactic(auto, using(crate::specs::TableSteps::set_out))]
pub fn store(list: &mut [u32], place: usize, value: u32)
    ensures { list.new ≡ set list.old place value }
{
    if place < list.len() {
        list[place] = value;
    }
}

// Writes an event of the move list.
// Kind and link stay numbers: the move list is the caller's, three numbers an event.
#[tactic(auto, using(crate::specs::TableSteps::stored_event))]
fn put_event(moves: &mut [u32], event: u32, port: u32, kind: u32, number: u32)
    ensures { moves.new ≡ sets moves.old (3 * event) (port ∷ kind ∷ number ∷ []) }
{
    let place = 3 * wide(event);
    store(moves, place, port);
    store(moves, place + 1, kind);
    store(moves, place + 2, number);
}

// What an event tells of a link: the port, or 4294967295 for none.
// Stays a number, as the rest of an event.
#[tactic(auto, unfolding(crate::specs::Tables::told_link))]
fn told_link(far: u32) -> u32
    ensures { result ≡ told_link far }
{
    far.checked_sub(1).unwrap_or(u32::MAX)
}

// Cuts the links of `count` ports from `first` on as ports that are removed, tells each, and answers how many links there were.
// The place of an event stays beside the list: a list lent from that place on would have to be long enough. Into an empty list nothing is told, nor made ready to be.
#[tactic(auto, using(crate::specs::TableSteps::cut_range_first, crate::specs::TableSteps::cut_range_none, crate::specs::TableSteps::cut_count_first, crate::specs::TableSteps::cut_count_none, crate::specs::TableSteps::link_count_at_most_one, crate::specs::TableSteps::drop_events_first, crate::specs::TableSteps::drop_events_none, crate::specs::TableSteps::told_first, crate::specs::TableSteps::untold))]
pub fn drop_ports(
    links: &mut [u32; PORT_SLOTS],
    moves: &mut [u32],
    event: usize,
    first: usize,
    count: usize,
) -> usize
    requires { (first + count ≤ port_slots) × (event + count ≤ port_slots) }
    ensures { (result ≡ cut_count links.old first count)
        × (links.new ≡ cut_range links.old first count)
        × (moves.new ≡ sets moves.old (3 * event) (drop_events links.old first count)) }
{
    if moves.is_empty() {
        return cut_range(links, first, count);
    }
    let mut n: usize = 0;
    for k in 0..count {
        let far = cut(links, first + k);
        put_event(
            moves,
            (event + k) as u32,
            (first + k) as u32,
            1,
            told_link(far),
        );
        n += link_count(far);
    }
    n
}

// Ports that move: `count` ports from the slot `from` on go to the slots from `to` on.
// ShiftFits stays a clause: a shift is made before its block is known to fit.
#[derive(Clone, Copy)]
pub struct Shift {
    pub from: usize,
    pub to: usize,
    pub count: usize,
}

impl Shift {
    // Which of these ports moves k-th: from the first one on, or from the last one down.
    // Chosen at each step: a range and its reverse are two types.
    fn place(self, ascending: bool, k: usize) -> usize
        requires { k < self.count }
        ensures { (result < self.count) × (result ≡ moved_at ascending self.count k) }
    {
        if ascending { k } else { self.count - (k + 1) }
    }

    // Ports move within their block: from the first one where they go down, else from the last, so that none is overwritten.
    #[tactic(auto, unfolding(crate::specs::Tables::shift), using(crate::specs::TableSteps::move_up_first, crate::specs::TableSteps::move_up_none, crate::specs::TableSteps::move_down_first, crate::specs::TableSteps::move_down_none))]
    pub fn move_ports(self, links: &mut [u32; PORT_SLOTS], ascending: bool)
        requires { ShiftFits self }
        ensures { links.new ≡ shift links.old ascending self.from self.to self.count }
    {
        for k in 0..self.count {
            let at = self.place(ascending, k);
            move_port(links, self.from + at, self.to + at);
        }
    }

    // Ports move to another block, the first one first; the old slots are left without a link.
    #[tactic(auto, using(crate::specs::TableSteps::transfer_first, crate::specs::TableSteps::transfer_none))]
    pub fn transfer_ports(self, links: &mut [u32; PORT_SLOTS])
        requires { ShiftFits self }
        ensures { links.new ≡ transfer links.old self.from self.to self.count }
    {
        for k in 0..self.count {
            move_port(links, self.from + k, self.to + k);
            put(links, self.from + k, 0);
        }
    }

    // Tells the ports that move, in the order in which they do; none where the list is empty.
    #[tactic(auto, unfolding(crate::specs::Tables::shift_events), using(crate::specs::TableSteps::move_up_events_first, crate::specs::TableSteps::move_up_events_none, crate::specs::TableSteps::move_down_events_first, crate::specs::TableSteps::move_down_events_none, crate::specs::TableSteps::told_first, crate::specs::TableSteps::untold))]
    pub fn tell_moves(self, moves: &mut [u32], event: usize, ascending: bool)
        requires { (event + self.count ≤ port_slots) × ShiftFits self }
        ensures { moves.new ≡ sets moves.old (3 * event) (shift_events ascending self.from self.to self.count) }
    {
        if moves.is_empty() {
            return;
        }
        for k in 0..self.count {
            let at = self.place(ascending, k);
            put_event(
                moves,
                (event + k) as u32,
                (self.from + at) as u32,
                0,
                (self.to + at) as u32,
            );
        }
    }
}
