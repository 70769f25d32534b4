// What a call names, read off lent tables: the inner ports of its ends, or the refusal.
ghost use Rattle.std.specs.Prelude.{◌≡◌, ◌+◌, leb};
ghost use Rattle.port_tables.specs.Limits.{port_slots};
ghost use Rattle.multi_tables.specs.TableReads.{end_in};
ghost use Rattle.multi_tables.specs.NamedEnds.{end_or, block_port, seen_pair, subport_pair, end_named, free_ends, second_end, first_end, link_named, read_in, free_end, pair_named};

use crate::answers::{Refusal, SubportIndex};
use crate::marks::flagged;
use crate::reads::lowest_unlinked;
use crate::seen::{SeenPort, SidedPort};
use crate::wire_tables::WireTables;
use port_tables::direction::Direction;
use port_tables::index::{NodeIndex, PORT_SLOTS, PortIndex};
use port_tables::numbers::wide;
use port_tables::tables::at;

// How the two ports that a link names are seen.
// No side with an Option of the other: the cases say which port is not live; no plainer.
#[derive(Clone, Copy)]
pub enum SeenPair {
    // The first is of a block, on this side; the second is not live.
    First(Direction),
    // Both are of blocks, on these sides.
    Both(Direction, Direction),
}

// Two ends that are there: on opposite sides, and neither linked.
#[tactic(auto, unfolding(crate::specs::NamedEnds::free_ends), using(port_tables::specs::SameSides::sides_compared))]
fn free_ends(links: &[u32; PORT_SLOTS], a: SidedPort, b: SidedPort) -> Result<(u32, u32), Refusal>
    ensures { result ≡ free_ends links.now a.port a.side b.port b.side }
{
    if a.side == b.side {
        return Err(Refusal::IncompatibleDirections(PortIndex(a.port), PortIndex(b.port), a.side));
    }
    if at(links, wide(a.port)) != 0 {
        return Err(Refusal::AlreadyLinked(PortIndex(a.port)));
    }
    if at(links, wide(b.port)) != 0 {
        return Err(Refusal::AlreadyLinked(PortIndex(b.port)));
    }
    Ok((a.port, b.port))
}

// An end as read: on an unsplit port every offset means the port itself.
#[tactic(auto, unfolding(crate::specs::NamedEnds::read_in))]
pub fn read_in(marks: &[bool; PORT_SLOTS], subport: SubportIndex) -> SubportIndex
    ensures { result ≡ read_in marks.now subport.port.0 subport.subport_offset }
{
    let port = subport.port;
    if flagged(marks, wide(port.0)) {
        return subport;
    }
    SubportIndex::new_unique(port)
}

// Whether a range of slots lies within the table.
// A first slot and a number, no range, here and in what reads such slots: the definitions take both, and a range would be taken apart again.
pub fn row_fits(first: usize, count: usize) -> bool
    ensures { result ≡ leb (first + count) port_slots }
{
    first.saturating_add(count) <= PORT_SLOTS
}

// The inner port and the offset of the lowest unlinked one of `count` subports from a slot on; none where all have a link, or they lie outside the table.
#[tactic(auto, unfolding(crate::specs::NamedEnds::free_end))]
pub fn free_end(links: &[u32; PORT_SLOTS], first: usize, count: usize) -> Option<(u32, u16)>
    ensures { result ≡ free_end links.now first count }
{
    if row_fits(first, count) {
        let offset = lowest_unlinked(links, first, count);
        if offset < count {
            return Some(((first + offset) as u32, offset as u16));
        }
    }
    None
}

impl WireTables<'_> {
    // The block that has a port, and the side, or why the port is refused. Stays a pair: of those who ask, as many want the node alone, the side alone, or
    // neither, as make a `SidedPort` of it.
    #[tactic(auto, unfolding(crate::specs::NamedEnds::block_port))]
    pub fn block_port(self, port: PortIndex) -> Result<(NodeIndex, Direction), Refusal>
        ensures { result ≡ block_port self.entry.owners.now self.entry.flags.now port.0 }
    {
        match self.seen_in(port.0) {
            SeenPort::Dead => Err(Refusal::UnknownPort(port)),
            SeenPort::Hidden => Err(Refusal::HiddenPort(port)),
            SeenPort::Visible(node, direction) => Ok((node, direction)),
        }
    }

    // How two ports are seen, or the refusal. The second is read as `SeenPort`: a dead one is no refusal here, as it is to `block_port`.
    #[tactic(auto, unfolding(crate::specs::NamedEnds::seen_pair, crate::specs::NamedEnds::block_port))]
    pub fn seen_pair(self, a: PortIndex, b: PortIndex) -> Result<SeenPair, Refusal>
        ensures { result ≡ seen_pair self.entry.owners.now self.entry.flags.now a.0 b.0 }
    {
        let (_, d) = self.block_port(a)?;
        match self.seen_in(b.0) {
            SeenPort::Hidden => Err(Refusal::HiddenPort(b)),
            SeenPort::Dead => Ok(SeenPair::First(d)),
            SeenPort::Visible(_, e) => Ok(SeenPair::Both(d, e)),
        }
    }

    // The same of the ports of two subports, after their offsets.
    #[tactic(auto, unfolding(crate::specs::NamedEnds::subport_pair))]
    pub fn subport_pair(self, from: SubportIndex, to: SubportIndex) -> Result<SeenPair, Refusal>
        ensures { result ≡ subport_pair self.entry.owners.now self.entry.flags.now from.port.0 from.subport_offset to.port.0 to.subport_offset }
    {
        if from.subport_offset == u16::MAX || to.subport_offset == u16::MAX {
            return Err(Refusal::BadOffset);
        }
        self.seen_pair(from.port, to.port)
    }

    // The inner port of an end of a block's port, or the refusal that names the port.
    pub(crate) fn end_or(self, port: SidedPort, offset: u16) -> Result<u32, Refusal>
        ensures { result ≡ end_or self.entry.marks.now self.entry.links.now self.entry.owners.now self.entry.flags.now port.port (end_in self.entry.marks.now self.entry.links.now self.entry.owners.now port.port port.side offset) }
    {
        self.end_in(port, offset)
            .ok_or(Refusal::UnknownOffset(PortIndex(port.port)))
    }

    // The end that a subport means.
    #[tactic(auto, unfolding(crate::specs::NamedEnds::end_named, crate::specs::NamedEnds::block_port), using(crate::specs::NamedEndSteps::block_found, crate::specs::NamedEndSteps::block_refused))]
    pub fn end_named(self, subport: SubportIndex) -> Result<u32, Refusal>
        ensures { result ≡ end_named self.entry.marks.now self.entry.links.now self.entry.owners.now self.entry.flags.now subport.port.0 subport.subport_offset }
    {
        let port = subport.port;
        let offset = subport.subport_offset;
        if offset == u16::MAX {
            return Err(Refusal::BadOffset);
        }
        let (_, side) = self.block_port(port)?;
        self.end_or(SidedPort { port: port.0, side }, offset)
    }

    // The first end is there, with its side: the second. Read as `SeenPort`: a dead port is another refusal than to `block_port`.
    #[tactic(auto, unfolding(crate::specs::NamedEnds::second_end), using(crate::specs::NamedEndSteps::end_there, crate::specs::NamedEndSteps::end_lacking))]
    fn second_end(self, subport: SubportIndex, first: SidedPort) -> Result<(u32, u32), Refusal>
        ensures { result ≡ second_end self.entry.marks.now self.entry.links.now self.entry.owners.now self.entry.flags.now subport.port.0 subport.subport_offset first.port first.side }
    {
        let port = subport.port;
        match self.seen_in(port.0) {
            SeenPort::Dead => Err(Refusal::UnknownSecondPort(port)),
            SeenPort::Hidden => Err(Refusal::HiddenPort(port)),
            SeenPort::Visible(_, side) => {
                let second = SidedPort { port: port.0, side };
                let y = self.end_or(second, subport.subport_offset)?;
                free_ends(self.links, first, SidedPort { port: y, side })
            }
        }
    }

    // The second port is not live or of a block: the first end, then the second.
    #[tactic(auto, unfolding(crate::specs::NamedEnds::first_end), using(crate::specs::NamedEndSteps::end_there, crate::specs::NamedEndSteps::end_lacking))]
    fn first_end(
        self,
        from: SubportIndex,
        to: SubportIndex,
        side: Direction,
    ) -> Result<(u32, u32), Refusal>
        ensures { result ≡ first_end self.entry.marks.now self.entry.links.now self.entry.owners.now self.entry.flags.now from.port.0 from.subport_offset to.port.0 to.subport_offset side }
    {
        let port = from.port;
        let first = SidedPort { port: port.0, side };
        let x = self.end_or(first, from.subport_offset)?;
        self.second_end(to, SidedPort { port: x, side })
    }

    // The ends of a link.
    #[tactic(auto, unfolding(crate::specs::NamedEnds::link_named, crate::specs::NamedEnds::subport_pair, crate::specs::NamedEnds::seen_pair))]
    pub fn link_named(self, from: SubportIndex, to: SubportIndex) -> Result<(u32, u32), Refusal>
        ensures { result ≡ link_named self.entry.marks.now self.entry.links.now self.entry.owners.now self.entry.flags.now from.port.0 from.subport_offset to.port.0 to.subport_offset }
    {
        let (SeenPair::First(side) | SeenPair::Both(side, _)) = self.subport_pair(from, to)?;
        self.first_end(from, to, side)
    }

    // Whether two ports can be linked, room apart, or the refusal with the ports as named.
    #[tactic(auto, unfolding(crate::specs::NamedEnds::pair_named, crate::specs::NamedEnds::seen_pair), using(port_tables::specs::SameSides::sides_compared))]
    pub fn pair_named(self, a: PortIndex, b: PortIndex) -> Result<(), Refusal>
        ensures { result ≡ pair_named self.entry.owners.now self.entry.flags.now a.0 b.0 }
    {
        match self.seen_pair(a, b)? {
            SeenPair::First(_) => Err(Refusal::UnknownSecondPort(b)),
            SeenPair::Both(d, e) if d == e => Err(Refusal::IncompatibleDirections(a, b, d)),
            SeenPair::Both(_, _) => Ok(()),
        }
    }
}
