// Changing a node's counts of ports, within its block or in a new one, with the list of moves.
ghost use Rattle.std.specs.Prelude.{◌≡◌, true, ◌+◌, ◌*◌, ◌≤◌, ◌<◌, length, Ok, Some};
ghost use Rattle.std.proofs.lemmas.List.Edits.{sets};
ghost use Rattle.port_tables.specs.Limits.{node_slots, node_ports};
ghost use Rattle.portgraph.specs.Model.{Wf};
ghost use Rattle.portgraph.specs.Calls.{find_block};
ghost use Rattle.portgraph.specs.Parts.{Resizes};
ghost use Rattle.portgraph.specs.Resize.{set_by, told_by, plan_counts, inside_told, anew_told, inside, anew, set_num_ports, moves_after, set_numbers};
ghost use Rattle.port_tables.specs.ResizeLinks.{BlockFits, round_up};

use crate::alloc::{find_block, give_block, grown, take_head};
use crate::portgraph::{PortGraph, meta_of};
use port_tables::index::{NODE_SLOTS, NodeIndex};
use port_tables::node_entry::NodeSlot;
use port_tables::numbers::wide;
use port_tables::resize_links::{Resize, round_up, too_many_ports};
use port_tables::tables::{cut_range, own_block};

// Why a node's counts are not changed.
#[derive(Clone, Copy)]
pub enum SetError {
    TooManyPorts,
    // The node is not live.
    UnknownNode,
    // The move list is shorter than three numbers for each port of the node.
    MovesTooShort,
    NoRoom,
}

// A struct of its own, as NodeAdded.
#[derive(Clone, Copy)]
pub struct PortsSet {
    pub graph: PortGraph,
    // So many events stand in the move list.
    pub answer: Result<usize, SetError>,
}

impl PortGraph {
    // Gives a node other counts within its block, and answers how many events are told.
    #[tactic(auto, unfolding(crate::specs::Resize::resize_inside, crate::specs::Resize::inside_told), using(crate::specs::ResizeSteps::told_on, crate::specs::ResizeSteps::length_drop_told))]
    fn resize_ports_inplace(&mut self, node: NodeIndex, resize: Resize, moves: &mut [u32]) -> usize
        requires { Wf self.old × (node.0 < node_slots) × (resize.incoming + resize.outgoing ≤ resize.meta.capacity) × BlockFits resize.meta }
        ensures { (self.new ≡ (set_by self.old node.0 resize.incoming resize.outgoing (inside resize.meta)).graph)
            × (Ok result ≡ (set_by self.old node.0 resize.incoming resize.outgoing (inside resize.meta)).answer)
            × (moves.new ≡ sets moves.old 0 (inside_told self.old resize.meta resize.incoming resize.outgoing)) }
    {
        let first = resize.meta.first();
        let old_in = resize.meta.incoming();
        let old_out = resize.meta.outgoing();
        let outputs = resize.outgoing_shift(first);
        let events = (old_in - resize.kept_incoming()) + (old_out - outputs.count);
        let new_meta = resize.meta_at(first, resize.meta.capacity());
        let cuts = resize.drop_both(&mut self.port_link, moves);
        outputs.tell_moves(moves, events, resize.incoming < old_in);
        resize.inside_links(&mut self.port_link);
        own_block(&mut self.port_meta, node.0, new_meta);
        self.node_meta[wide(node.0)] = NodeSlot::new_node(new_meta);
        self.port_count = self.port_count.saturating_sub(resize.meta.port_count()) + resize.total();
        self.link_count = self.link_count.saturating_sub(cuts);
        events + outputs.count
    }

    // Gives a node other counts in a new block, and answers how many events are told; only then its old block is free.
    #[tactic(auto, unfolding(crate::specs::Resize::resize_anew, crate::specs::Resize::anew_told, port_tables::specs::Tables::shift_events), using(crate::specs::ResizeSteps::room_found, crate::specs::ResizeSteps::told_on_both, crate::specs::ResizeSteps::length_drop_told, crate::specs::ResizeSteps::length_move_up_events, crate::specs::SlotSteps::found_block_rest, crate::specs::WfFacts::port_len_fits, crate::specs::WfFacts::port_count_fits))]
    fn resize_ports_anew(
        &mut self,
        node: NodeIndex,
        resize: Resize,
        new_first: usize,
        moves: &mut [u32],
    ) -> usize
        requires { Wf self.old × (node.0 < node_slots) × (resize.incoming + resize.outgoing ≤ node_ports) × BlockFits resize.meta
            × (find_block self.old.port_free self.old.port_len (round_up (resize.incoming + resize.outgoing)) ≡ Some new_first) }
        ensures { (self.new ≡ (set_by self.old node.0 resize.incoming resize.outgoing (anew resize.meta new_first)).graph)
            × (Ok result ≡ (set_by self.old node.0 resize.incoming resize.outgoing (anew resize.meta new_first)).answer)
            × (moves.new ≡ sets moves.old 0 (anew_told self.old resize.meta resize.incoming resize.outgoing new_first)) }
    {
        let meta = resize.meta;
        let first = meta.first();
        let old_in = meta.incoming();
        let old_out = meta.outgoing();
        let size = round_up(resize.total());
        let inputs = resize.incoming_shift(new_first);
        let outputs = resize.outgoing_shift(new_first);
        let events = (old_in - inputs.count) + (old_out - outputs.count);
        let new_meta = resize.meta_at(new_first, size);
        let head = take_head(&mut self.port_free, &self.port_link, new_first, size);
        self.port_len = grown(head, self.port_len, size);
        let cuts = resize.drop_both(&mut self.port_link, moves);
        inputs.tell_moves(moves, events, true);
        outputs.tell_moves(moves, events + inputs.count, true);
        resize.anew_links(&mut self.port_link, new_first, size);
        own_block(&mut self.port_meta, node.0, new_meta);
        self.node_meta[wide(node.0)] = NodeSlot::new_node(new_meta);
        let more = cut_range(&mut self.port_link, first, meta.capacity());
        give_block(
            &mut self.port_free,
            &mut self.port_link,
            &mut self.port_meta,
            meta,
        );
        self.port_count = self.port_count.saturating_sub(meta.port_count()) + resize.total();
        self.link_count = self.link_count.saturating_sub(cuts).saturating_sub(more);
        events + (inputs.count + outputs.count)
    }

    // Changes the number of ports of a node. Every port that is moved or removed is told in `moves`, three numbers each:
    // the port; 0 for moved and 1 for removed; the new port, or what it was linked with (4294967295 for nothing).
    pub fn set_num_ports(
        mut self,
        node: NodeIndex,
        incoming: usize,
        outgoing: usize,
        moves: &mut [u32],
    ) -> PortsSet
        requires { Wf self }
        ensures { (result ≡ set_num_ports self node.0 incoming outgoing (length moves.old))
            × (moves.new ≡ moves_after self node.0 incoming outgoing moves.old)
            × (set_numbers result.answer ≡ set_numbers (set_num_ports self node.0 incoming outgoing (length moves.old)).answer) }
    {
        let answer = self.set_num_ports_lent(node, incoming, outgoing, moves);
        PortsSet {
            graph: self,
            answer,
        }
    }

    // The same in place.
    #[tactic(auto, unfolding(crate::specs::Resize::set_num_ports_under, crate::specs::Resize::plan_of_under, crate::specs::Resize::moves_after_under), using(crate::specs::LookupSteps::entry_of_meta, crate::specs::LookupSteps::found_block_fits, crate::specs::WfFacts::port_len_fits, crate::specs::WfFacts::port_count_fits))]
    pub fn set_num_ports_lent(
        &mut self,
        node: NodeIndex,
        incoming: usize,
        outgoing: usize,
        moves: &mut [u32],
    ) -> Result<usize, SetError>
        requires { Wf self.old }
        ensures { (self.new ≡ (set_num_ports self.old node.0 incoming outgoing (length moves.old)).graph)
            × (result ≡ (set_num_ports self.old node.0 incoming outgoing (length moves.old)).answer)
            × (moves.new ≡ moves_after self.old node.0 incoming outgoing moves.old)
            × (set_numbers result ≡ set_numbers (set_num_ports self.old node.0 incoming outgoing (length moves.old)).answer) }
    {
        if too_many_ports(incoming, outgoing) {
            return Err(SetError::TooManyPorts);
        }
        let meta = meta_of(&self.node_meta, node).ok_or(SetError::UnknownNode)?;
        if moves.len() < 3 * meta.port_count() {
            return Err(SetError::MovesTooShort);
        }
        let resize = Resize {
            meta,
            incoming,
            outgoing,
        };
        self.resize_told(node, resize, moves)
    }

    // Gives a node with these meta data other counts. What moves is told as far as the list goes: of an empty one nothing.
    #[tactic(auto, using(crate::specs::ResizeSteps::round_up_fits, crate::specs::ResizeSteps::fits_below))]
    fn resize_told(
        &mut self,
        node: NodeIndex,
        resize: Resize,
        moves: &mut [u32],
    ) -> Result<usize, SetError>
        requires { Resizes self.old node.0 resize.meta resize.incoming resize.outgoing }
        ensures { (self.new ≡ (set_by self.old node.0 resize.incoming resize.outgoing (plan_counts self.old resize.meta resize.incoming resize.outgoing)).graph)
            × (result ≡ (set_by self.old node.0 resize.incoming resize.outgoing (plan_counts self.old resize.meta resize.incoming resize.outgoing)).answer)
            × (moves.new ≡ sets moves.old 0 (told_by self.old resize.incoming resize.outgoing (plan_counts self.old resize.meta resize.incoming resize.outgoing))) }
    {
        if resize.is_same() {
            return Ok(0);
        }
        if resize.fits_inside() {
            return Ok(self.resize_ports_inplace(node, resize, moves));
        }
        let size = round_up(resize.total());
        let new_first = find_block(&self.port_free, self.port_len, size).ok_or(SetError::NoRoom)?;
        Ok(self.resize_ports_anew(node, resize, new_first, moves))
    }

    // The same for a caller who reads no move list: what it gives for one that is long enough.
    #[tactic(auto, unfolding(crate::specs::Resize::set_num_ports_under, crate::specs::Resize::plan_of_under))]
    pub fn resize_quiet_lent(&mut self, node: NodeIndex, resize: Resize) -> Result<usize, SetError>
        requires { Resizes self.old node.0 resize.meta resize.incoming resize.outgoing }
        ensures { (self.new ≡ (set_num_ports self.old node.0 resize.incoming resize.outgoing (3 * node_ports)).graph)
            × (result ≡ (set_num_ports self.old node.0 resize.incoming resize.outgoing (3 * node_ports)).answer)
            × (set_numbers result ≡ set_numbers (set_num_ports self.old node.0 resize.incoming resize.outgoing (3 * node_ports)).answer) }
    {
        self.resize_told(node, resize, &mut [])
    }

    // set_num_ports in place, for a caller who reads no move list: what it gives for one that is long enough.
    // Stays beside `set_num_ports_lent`, which refuses a short list between what both begin with and what both end with; no plainer.
    #[tactic(auto, unfolding(crate::specs::Resize::set_num_ports_under, crate::specs::Resize::plan_of_under), using(crate::specs::LookupSteps::entry_of_meta, crate::specs::LookupSteps::found_block_fits, crate::specs::WfFacts::port_len_fits, crate::specs::WfFacts::port_count_fits))]
    pub fn set_num_ports_quiet_lent(
        &mut self,
        node: NodeIndex,
        incoming: usize,
        outgoing: usize,
    ) -> Result<usize, SetError>
        requires { Wf self.old }
        ensures { (self.new ≡ (set_num_ports self.old node.0 incoming outgoing (3 * node_ports)).graph)
            × (result ≡ (set_num_ports self.old node.0 incoming outgoing (3 * node_ports)).answer)
            × (set_numbers result ≡ set_numbers (set_num_ports self.old node.0 incoming outgoing (3 * node_ports)).answer) }
    {
        if too_many_ports(incoming, outgoing) {
            return Err(SetError::TooManyPorts);
        }
        let meta = meta_of(&self.node_meta, node).ok_or(SetError::UnknownNode)?;
        let resize = Resize {
            meta,
            incoming,
            outgoing,
        };
        self.resize_quiet_lent(node, resize)
    }
}
