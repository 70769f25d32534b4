// The first link that a walk finds from a port and offset on, over lent tables: one offset, one port, a row of ports, a block.
ghost use Rattle.std.specs.Prelude.{◌≡◌, ◌+◌, ◌-◌, ◌≤◌, ◌<◌, cond, leb, min};
ghost use Rattle.port_tables.specs.Limits.{port_slots};
ghost use Rattle.std.specs.List.{filter};
ghost use Rattle.multi_tables.specs.Forms.{seen_as, subport#, wire_to};
ghost use Rattle.multi_tables.specs.TableReads.{seen_in, wire_in};
ghost use Rattle.multi_tables.specs.Scans.{first_found, link_port, span_first, span_count, not_own_output, passes_in, links_in, port_links_in, links_rest, beyond_in, block_links_in};

use crate::answers::{SubportIndex, SubportLink};
use crate::marks::flagged;
use crate::reads::place_in;
use crate::seen::SidedPort;
use crate::wire_tables::WireTables;
use port_tables::direction::Direction;
use port_tables::index::{NodeIndex, PORT_SLOTS, PortIndex, PortRange};
use port_tables::node_entry::NodeSlot;
use port_tables::numbers::wide;
use port_tables::sides::{Sides, ports_from, ports_to};
use port_tables::tables::owner_in;

// Which links a walk gives, by the port that they lead to.
// Stays an enum: what a walk leaves out is data of its cursor, and the definitions match on it.
#[derive(Clone, Copy)]
pub enum LinkFilter {
    All,
    // Not to a port of a range.
    Skip(PortRange),
    NotOutputOf(NodeIndex),
    To(NodeIndex),
}

// Ends of a port: those at offsets from `from` on and below `end`. The port's first end is at the slot `first`. No number lies beyond the tables.
#[derive(Clone, Copy)]
pub struct PortEnds {
    pub port: u32,
    pub first: usize,
    pub from: usize,
    pub end: usize,
    ghost first_fits: { first ≤ port_slots },
    ghost end_fits: { end ≤ port_slots },
}

// What a walk gave last: the port, one higher than its number, with 0 at the start, and the offset. Stays a number, as in the walks: one past the
// last port is where a walk goes on.
#[derive(Clone, Copy, Default)]
pub struct Held {
    pub port: u32,
    pub offset: u16,
}

impl Held {
    // Where a walk over the ports from `from` on goes on: the port, and the offset.
    pub fn start(self, from: usize) -> (usize, usize)
        ensures { result ≡ cond (leb self.port from) (from, 0) (self.port - 1, self.offset + 1) }
    {
        let place = wide(self.port);
        if place <= from {
            (from, 0)
        } else {
            (place - 1, usize::from(self.offset) + 1)
        }
    }
}

impl WireTables<'_> {
    // The slot of a port's first end.
    #[tactic(auto, unfolding(crate::specs::Scans::span_first))]
    pub fn span_first(self, port: SidedPort) -> usize
        ensures { (result ≡ span_first self.entry.marks.now self.entry.links.now self.entry.owners.now port.port port.side) × (result ≤ port_slots) }
    {
        if flagged(self.marks, wide(port.port)) {
            return self.first_in(port).min(PORT_SLOTS);
        }
        wide(port.port).min(PORT_SLOTS)
    }

    // How many ends a port has.
    #[tactic(auto, unfolding(crate::specs::Scans::span_count), using(crate::specs::TableReadSteps::subports_bound))]
    pub fn span_count(self, port: SidedPort) -> usize
        ensures { (result ≡ span_count self.entry.marks.now self.entry.links.now self.entry.owners.now port.port port.side) × (result ≤ port_slots) }
    {
        if flagged(self.marks, wide(port.port)) {
            return self.subports_in(port);
        }
        1
    }

    // Whether a port is no outgoing port of a node.
    #[tactic(auto, unfolding(crate::specs::NamedEnds::block_port), using(crate::specs::NamedEndSteps::block_found, crate::specs::NamedEndSteps::block_unseen))]
    fn not_own_output(self, node: NodeIndex, port: u32) -> bool
        ensures { result ≡ not_own_output node.0 (seen_as (seen_in self.entry.owners.now self.entry.flags.now port)) }
    {
        let Ok((other, direction)) = self.block_port(PortIndex(port)) else {
            return true;
        };
        other != node || direction == Direction::Incoming
    }

    // Whether a link to a port is given.
    fn passes(self, only: LinkFilter, port: u32) -> bool
        ensures { result ≡ passes_in self.entry.owners.now self.entry.flags.now only port }
    {
        match only {
            LinkFilter::All => true,
            LinkFilter::Skip(range) => port < range.from || range.to <= port,
            LinkFilter::NotOutputOf(node) => self.not_own_output(node, port),
            LinkFilter::To(node) => owner_in(self.owners, port) == node.0,
        }
    }

    // The link of the end at a slot, if it has one that is given. That its port is the one named stays a clause, here and below: definitions make links of any
    // numbers, and a type that held it would be none of theirs; no plainer.
    #[tactic(auto, using(crate::specs::ScanSteps::end_outside, crate::specs::ScanSteps::end_nothing, crate::specs::ScanSteps::end_given))]
    pub fn link_at(
        self,
        only: LinkFilter,
        port: u32,
        slot: usize,
        offset: u16,
    ) -> Option<SubportLink>
        ensures { (result ≡ first_found (filter (λ w. passes_in self.entry.owners.now self.entry.flags.now only w.to.port.0)
            (wire_to (subport# port offset) (wire_in self.entry.links.now self.entry.owners.now self.entry.flags.now slot))))
            × (link_port port result ≡ port) }
    {
        if PORT_SLOTS <= slot {
            return None;
        }
        let to = self.wire_end_in(slot as u32)?;
        let far = to.port;
        if !self.passes(only, far.0) {
            return None;
        }
        Some(SubportLink {
            from: SubportIndex::new_multi(PortIndex(port), offset),
            to,
            place: place_in(self.owners, far.0),
        })
    }

    // The first link at these ends. Stays a loop, as the search behind it and the one from the back: what `find_map` gives is told of the runs of its closure, and
    // the invariant here of links. The test is a pattern, here and in the searches like it: `is_some` was tried, and the proof of what is returned did not close.
    #[tactic(auto, using(crate::specs::ScanSteps::scan_turn, crate::specs::ScanSteps::scan_found, crate::specs::ScanSteps::scan_done))]
    pub fn scan_port(self, only: LinkFilter, ends: PortEnds) -> Option<SubportLink>
        ensures { (result ≡ first_found (filter (λ w. passes_in self.entry.owners.now self.entry.flags.now only w.to.port.0)
            (links_in self.entry.links.now self.entry.owners.now self.entry.flags.now ends.port ends.first ends.from (ends.end - ends.from))))
            × (link_port ends.port result ≡ ends.port) }
    {
        for offset in ends.from..ends.end {
            let found = self.link_at(only, ends.port, ends.first + offset, offset as u16);
            if let Some(_) = found {
                return found;
            }
        }
        None
    }

    // The first link of a port at an offset from `from` on.
    #[tactic(auto, using(crate::specs::ScanSteps::port_links_none))]
    fn port_link_from(self, only: LinkFilter, port: u32, from: usize) -> Option<SubportLink>
        ensures { (result ≡ first_found (filter (λ w. passes_in self.entry.owners.now self.entry.flags.now only w.to.port.0)
            (port_links_in self.entry.marks.now self.entry.links.now self.entry.owners.now self.entry.flags.now port from)))
            × (link_port port result ≡ port) }
    {
        let (_, side) = self.block_port(PortIndex(port)).ok()?;
        let sided = SidedPort { port, side };
        let first = self.span_first(sided);
        let end = self.span_count(sided);
        self.scan_port(
            only,
            PortEnds {
                port,
                first,
                from,
                end,
            },
        )
    }

    // The first link of the ports below `end`, from one port and offset on.
    #[tactic(auto, using(crate::specs::ScanSteps::row_turn, crate::specs::ScanSteps::row_found, crate::specs::ScanSteps::row_done, crate::specs::ScanSteps::port_below))]
    fn next_link(
        self,
        only: LinkFilter,
        from: usize,
        offset: usize,
        end: usize,
    ) -> Option<SubportLink>
        ensures { (result ≡ first_found (filter (λ w. passes_in self.entry.owners.now self.entry.flags.now only w.to.port.0)
            (links_rest self.entry.marks.now self.entry.links.now self.entry.owners.now self.entry.flags.now from offset (min end port_slots - from))))
            × (link_port 0 result < port_slots) }
    {
        let stop = end.min(PORT_SLOTS);
        let mut first = offset;
        for port in from..stop {
            let found = self.port_link_from(only, port as u32, first);
            if let Some(_) = found {
                return found;
            }
            first = 0;
        }
        None
    }

    // The first link of the ports from `from` on and below `end` that lies beyond what a cursor holds.
    // A first port and an end, no range, here and in the crates above: the definitions take both, and what is held replaces the first; no plainer.
    #[tactic(auto, using(crate::specs::ScanSteps::beyond_start))]
    pub fn next_beyond(
        self,
        only: LinkFilter,
        from: usize,
        end: usize,
        held: Held,
    ) -> Option<SubportLink>
        ensures { (result ≡ first_found (filter (λ w. passes_in self.entry.owners.now self.entry.flags.now only w.to.port.0)
            (beyond_in self.entry.marks.now self.entry.links.now self.entry.owners.now self.entry.flags.now from end held.port held.offset)))
            × (link_port 0 result < port_slots) }
    {
        let (port, offset) = held.start(from);
        self.next_link(only, port, offset, end)
    }

    // The first link of the outgoing side of what a node slot holds, beyond what a cursor holds.
    // The flag stays beside the slot: each is read off its own table, and the definition takes both; no plainer.
    #[tactic(auto, using(crate::specs::ScanSteps::block_hidden, crate::specs::ScanSteps::block_free))]
    pub fn block_links(self, slot: NodeSlot, hidden: bool, held: Held) -> Option<SubportLink>
        ensures { (result ≡ first_found (block_links_in self.entry.marks.now self.entry.links.now self.entry.owners.now self.entry.flags.now slot.entry hidden held.port held.offset))
            × (link_port 0 result < port_slots) }
    {
        if hidden {
            return None;
        }
        let meta = slot.meta()?;
        let side = Sides::One(Direction::Outgoing);
        self.next_beyond(
            LinkFilter::All,
            ports_from(meta, side),
            ports_to(meta, side),
            held,
        )
    }
}
