// What a resize does to the link table alone, as leaves: which counts fit inside a block, and where kept and dropped ports go.
ghost use Rattle.std.specs.Prelude.{◌≡◌, ◌+◌, ◌*◌, ◌≤◌, ◌<◌, ltb};
ghost use Rattle.std.proofs.lemmas.List.Edits.{sets};
ghost use Rattle.port_tables.specs.Limits.{port_slots, node_ports};
ghost use Rattle.port_tables.specs.Entries.{meta_of};
ghost use Rattle.port_tables.specs.Tables.{BlockWithin};
ghost use Rattle.port_tables.specs.ResizeLinks.{round_up, same_counts, fits_inside, first_slot, kept_incoming, kept_outgoing, drop_links, drop_count, drop_told, inside_links, anew_links};

use crate::direction::Direction;
use crate::index::{NODE_PORTS, PORT_SLOTS};
use crate::node_entry::NodeMeta;
use crate::sides::{Sides, ports_from};
use crate::tables::{Shift, drop_ports, fill};

// Whether a node can't have so many ports.
// Incoming and outgoing stay two numbers, here and in the calls that name them: portgraph has them so.
pub fn too_many_ports(incoming: usize, outgoing: usize) -> bool
    ensures { result ≡ ltb node_ports (incoming + outgoing) }
{
    NODE_PORTS < incoming.saturating_add(outgoing)
}

// A total rounded up to a power of two; 1 for a total of 0.
#[tactic(auto, using(crate::specs::ResizeLinkSteps::round_up_power))]
pub fn round_up(total: usize) -> usize
    requires { total ≤ port_slots }
    ensures { result ≡ round_up total }
{
    total.next_power_of_two()
}

// A node's meta data, and the counts that it is to have. The node stays beside: no method here reads it.
// BlockWithin and the bound of the new counts stay clauses: `is_same` and `kept_incoming` take any, and a type that held them would ask them of these.
#[derive(Clone, Copy)]
pub struct Resize {
    pub meta: NodeMeta,
    pub incoming: usize,
    pub outgoing: usize,
}

impl Resize {
    // Whether the node has these counts already.
    #[tactic(auto, unfolding(crate::specs::ResizeLinks::same_counts))]
    pub fn is_same(self) -> bool
        ensures { result ≡ same_counts self.meta self.incoming self.outgoing }
    {
        self.incoming == self.meta.incoming() && self.outgoing == self.meta.outgoing()
    }

    // Whether these counts are done within the node's block.
    #[tactic(auto, unfolding(crate::specs::ResizeLinks::fits_inside))]
    pub fn fits_inside(self) -> bool
        requires { self.incoming + self.outgoing ≤ node_ports }
        ensures { result ≡ fits_inside self.meta self.incoming self.outgoing }
    {
        let total = self.total();
        0 < total && total < self.meta.capacity()
    }

    // How many ports the node is to have.
    pub fn total(self) -> usize
        requires { self.incoming + self.outgoing ≤ node_ports }
        ensures { result ≡ self.incoming + self.outgoing }
    {
        self.incoming + self.outgoing
    }

    // The node's new meta data, with a block from `first` on.
    pub fn meta_at(self, first: usize, capacity: usize) -> NodeMeta
        requires { (self.incoming + self.outgoing ≤ node_ports) × (first ≤ port_slots) × (capacity ≤ node_ports) }
        ensures { result ≡ meta_of first self.incoming self.outgoing capacity }
    {
        NodeMeta::new(first, self.incoming, self.outgoing, capacity)
    }

    // How many incoming ports stay.
    // Stays beside `kept_outgoing`: each reads two fields of its own, and one over the side would match for both; no plainer.
    pub fn kept_incoming(self) -> usize
        ensures { result ≡ kept_incoming self.meta self.incoming }
    {
        self.meta.incoming().min(self.incoming)
    }

    // How many outgoing ports stay.
    pub fn kept_outgoing(self) -> usize
        ensures { result ≡ kept_outgoing self.meta self.outgoing }
    {
        self.meta.outgoing().min(self.outgoing)
    }

    // The incoming ports that stay, as they go to a block from `first` on.
    pub fn incoming_shift(self, first: usize) -> Shift
        ensures { (result.from ≡ first_slot self.meta) × (result.to ≡ first) × (result.count ≡ kept_incoming self.meta self.incoming) }
    {
        Shift {
            from: self.meta.first(),
            to: first,
            count: self.kept_incoming(),
        }
    }

    // The outgoing ports that stay, as they go to a block from `first` on.
    pub fn outgoing_shift(self, first: usize) -> Shift
        requires { first + self.incoming ≤ port_slots }
        ensures { (result.from ≡ first_slot self.meta + self.meta.incoming) × (result.to ≡ first + self.incoming)
            × (result.count ≡ kept_outgoing self.meta self.outgoing) }
    {
        Shift {
            from: ports_from(self.meta, Sides::One(Direction::Outgoing)),
            to: first + self.incoming,
            count: self.kept_outgoing(),
        }
    }

    // Drops the highest positions of each side, incoming ones first, and answers how many links there were. Each side's are a first port and a number here and
    // where else they are dropped, not a range, which would be taken apart again.
    #[tactic(auto, unfolding(crate::specs::ResizeLinks::drop_links, crate::specs::ResizeLinks::drop_count, crate::specs::ResizeLinks::drop_told, crate::specs::ResizeLinks::drop_incoming), using(crate::specs::ResizeLinkSteps::cut_count_small, crate::specs::ResizeLinkSteps::told_after))]
    pub fn drop_both(self, links: &mut [u32; PORT_SLOTS], moves: &mut [u32]) -> usize
        requires { BlockWithin self.meta }
        ensures { (result ≡ drop_count links.old self.meta self.incoming self.outgoing)
            × (links.new ≡ drop_links links.old self.meta self.incoming self.outgoing)
            × (moves.new ≡ sets moves.old 0 (drop_told links.old self.meta self.incoming self.outgoing)) }
    {
        let first = self.meta.first();
        let old_in = self.meta.incoming();
        let old_out = self.meta.outgoing();
        let kept_in = self.kept_incoming();
        let kept_out = self.kept_outgoing();
        let a = drop_ports(links, moves, 0, first + kept_in, old_in - kept_in);
        let b = drop_ports(
            links,
            moves,
            old_in - kept_in,
            first + old_in + kept_out,
            old_out - kept_out,
        );
        a + b
    }

    // Moves the outgoing ports that stay, and clears new slots and slots no longer used.
    #[tactic(auto, unfolding(crate::specs::ResizeLinks::inside_links))]
    pub fn inside_links(self, links: &mut [u32; PORT_SLOTS])
        requires { BlockWithin self.meta × (self.incoming + self.outgoing ≤ self.meta.capacity) × (self.meta.capacity ≤ node_ports) }
        ensures { links.new ≡ inside_links links.old self.meta self.incoming self.outgoing }
    {
        let first = self.meta.first();
        let old_in = self.meta.incoming();
        let old_out = self.meta.outgoing();
        let total = self.total();
        let shift = self.outgoing_shift(first);
        shift.move_ports(links, self.incoming < old_in);
        fill(
            links,
            (first + old_in) as u32,
            self.incoming.saturating_sub(old_in) as u16,
            0,
        );
        fill(
            links,
            (first + self.incoming + old_out) as u32,
            self.outgoing.saturating_sub(old_out) as u16,
            0,
        );
        fill(
            links,
            (first + total) as u32,
            (old_in + old_out).saturating_sub(total) as u16,
            0,
        );
    }

    // Clears the slots of a new block, and moves the ports that stay into it.
    #[tactic(auto, unfolding(crate::specs::ResizeLinks::anew_links))]
    pub fn anew_links(self, links: &mut [u32; PORT_SLOTS], new_first: usize, size: usize)
        requires { BlockWithin self.meta × (self.incoming + self.outgoing ≤ size) × (size ≤ node_ports) × (new_first + size ≤ port_slots) }
        ensures { links.new ≡ anew_links links.old self.meta self.incoming self.outgoing new_first size }
    {
        fill(links, new_first as u32, size as u16, 0);
        self.incoming_shift(new_first).transfer_ports(links);
        self.outgoing_shift(new_first).transfer_ports(links);
    }
}
