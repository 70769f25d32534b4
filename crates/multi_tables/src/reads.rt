// Leaves that read lent tables: what a port number is, the subports of a split port, the ends, what an end is linked with, and where
// that stands; `place_in` tells the last.
// No leaf takes the graph, and none asks anything of its port.
ghost use Rattle.std.specs.Prelude.{◌≡◌, ◌+◌, ◌≤◌, eqb, Ok};
ghost use Rattle.std.specs.List.{position};
ghost use Rattle.port_tables.specs.Limits.{port_slots};
ghost use Rattle.multi_tables.specs.Forms.{seen_as, end_as, lowest_unlinked};
ghost use Rattle.multi_tables.specs.TableReads.{far_in, seen_in, run_up, run_down, count_beside, first_beside, end_beside, subports_in, first_in, end_in, copy_beside, subport_in, no_place, place_in, wire_in, wire_end_in, plain_in, leap_down, row_below};

use crate::answers::{PortPlace, SubportIndex};
use crate::marks::flagged;
use crate::seen::{SeenPort, SidedPort};
use crate::wire_tables::WireTables;
use port_tables::direction::Direction;
use port_tables::index::{NodeIndex, PORT_SLOTS, PortIndex};
use port_tables::numbers::wide;
use port_tables::port_entry::PortEntry;
use port_tables::tables::{at, far_in};

// So many slots are leapt over at once.
const LEAP: usize = 32;

// The place that a port which is not live is given. Stays a place: no end of a graph that holds together leads to such a port.
fn nowhere() -> PortPlace
    ensures { result ≡ no_place }
{
    PortPlace {
        node: NodeIndex(0),
        side: Direction::Incoming,
        position: 0,
    }
}

// How many slots in a row from `from` on have this owner.
fn run_up(owners: &[u32; PORT_SLOTS], owner: u32, from: usize) -> usize
    requires { from ≤ 4294967296 }
    ensures { result ≡ run_up owners.now owner from }
{
    (0..PORT_SLOTS)
        .find(|k| at(owners, from + *k) != owner)
        .unwrap_or(PORT_SLOTS)
}

// How many slots in a row below `from` have this owner.
// Stays beside `run_up`: this one ends at the table's start, that one goes on past its end, and each says its own definition.
fn run_down(owners: &[u32; PORT_SLOTS], owner: u32, from: usize) -> usize
    ensures { result ≡ run_down owners.now owner from }
{
    let most = from.min(PORT_SLOTS);
    (0..most)
        .find(|k| at(owners, from - (*k + 1)) != owner)
        .unwrap_or(most)
}

// How many leaps below `from` in a row end at a slot of this owner. Stays beside `run_down`: each says its own definition, so that one over the step would
// stand below both as a third; no plainer.
fn leap_down(owners: &[u32; PORT_SLOTS], owner: u32, from: usize) -> usize
    ensures { result ≡ leap_down owners.now owner from }
{
    let most = from.min(PORT_SLOTS) / LEAP;
    (0..most)
        .find(|k| at(owners, from - LEAP * (*k + 1)) != owner)
        .unwrap_or(most)
}

// The same as `run_down` where the slots of an owner lie in a row: most of them are leapt over.
#[tactic(auto, using(crate::specs::TableReadSteps::leap_bound, crate::specs::TableReadSteps::down_bound, crate::specs::TableReadSteps::row_told))]
fn row_below(owners: &[u32; PORT_SLOTS], owner: u32, from: usize) -> usize
    ensures { result ≡ row_below owners.now owner from }
{
    let leapt = LEAP * leap_down(owners, owner, from);
    leapt + run_down(owners, owner, from - leapt)
}

// How many subports lie beside a copy port.
#[tactic(auto, unfolding(crate::specs::TableReads::count_beside))]
fn count_beside(owners: &[u32; PORT_SLOTS], copy: SidedPort) -> usize
    ensures { result ≡ count_beside owners.now copy.port copy.side }
{
    let place = wide(copy.port);
    match copy.side {
        Direction::Incoming => run_down(owners, at(owners, place.saturating_sub(1)), place),
        Direction::Outgoing => run_up(owners, at(owners, place + 1), place + 1),
    }
}

// The slot of the first of them.
#[tactic(auto, unfolding(crate::specs::TableReads::first_beside))]
fn first_beside(owners: &[u32; PORT_SLOTS], copy: SidedPort) -> usize
    ensures { result ≡ first_beside owners.now copy.port copy.side }
{
    let place = wide(copy.port);
    match copy.side {
        Direction::Incoming => place.saturating_sub(count_beside(owners, copy)),
        Direction::Outgoing => place + 1,
    }
}

// The one at an offset. Tests, and then answers: `then_some` was tried, and that its cast fits could not be proved, as it casts outside the test too.
#[tactic(auto, unfolding(crate::specs::TableReads::end_beside, crate::specs::TableReads::first_beside))]
fn end_beside(owners: &[u32; PORT_SLOTS], copy: SidedPort, offset: u16) -> Option<u32>
    ensures { result ≡ end_as (end_beside owners.now copy.port copy.side offset) }
{
    let place = wide(copy.port);
    match copy.side {
        Direction::Incoming => {
            let count = count_beside(owners, copy);
            if usize::from(offset) < count {
                return Some((place.saturating_sub(count) + usize::from(offset)) as u32);
            }
            None
        }
        Direction::Outgoing => {
            let slot = place + 1 + usize::from(offset);
            if slot < PORT_SLOTS && at(owners, slot) == at(owners, place + 1) {
                return Some(slot as u32);
            }
            None
        }
    }
}

// The slot of the copy port beside the subports among which a slot is.
#[tactic(auto, unfolding(crate::specs::TableReads::copy_beside), using(crate::specs::TableReadSteps::up_bound))]
fn copy_beside(owners: &[u32; PORT_SLOTS], port: SidedPort) -> usize
    ensures { result ≡ copy_beside owners.now port.port port.side }
{
    let place = wide(port.port);
    let owner = at(owners, place);
    match port.side {
        Direction::Incoming => place + run_up(owners, owner, place),
        Direction::Outgoing => place
            .saturating_sub(run_down(owners, owner, place))
            .saturating_sub(1),
    }
}

// Where a port of a block stands.
#[tactic(auto, unfolding(crate::specs::TableReads::place_in), using(crate::specs::TableReadSteps::row_bound))]
pub fn place_in(owners: &[u32; PORT_SLOTS], port: u32) -> PortPlace
    ensures { result ≡ place_in owners.now port }
{
    let owner = at(owners, wide(port));
    let Some(meta) = PortEntry::read(owner).meta() else {
        return nowhere();
    };
    let position = row_below(owners, owner, wide(port));
    PortPlace {
        node: meta.node,
        side: meta.direction,
        position: position as u16,
    }
}

// The first of these that has no link.
fn first_unlinked(links: &[u32]) -> Option<usize>
    ensures { result ≡ position (λ far. eqb far 0) links.now }
{
    links.iter().position(|far| *far == 0)
}

// The lowest offset from 0 whose port, counted from `first`, has no link; `count` where all have: its definition answers so, and that of
// a free end compares it, so that an Option would be turned back; no plainer.
#[tactic(auto, using(crate::specs::FormSteps::lowest_found))]
pub fn lowest_unlinked(links: &[u32; PORT_SLOTS], first: usize, count: usize) -> usize
    requires { first + count ≤ port_slots }
    ensures { result ≡ lowest_unlinked links.now first 0 count }
{
    first_unlinked(&links[first..first + count]).unwrap_or(count)
}

impl WireTables<'_> {
    // A port number: not live, of a hidden node, or of a block.
    #[tactic(auto, unfolding(crate::specs::TableReads::seen_in))]
    pub fn seen_in(self, port: u32) -> SeenPort
        ensures { result ≡ seen_as (seen_in self.entry.owners.now self.entry.flags.now port) }
    {
        let Some(meta) = PortEntry::read(at(self.owners, wide(port))).meta() else {
            return SeenPort::Dead;
        };
        let node = meta.node;
        if flagged(self.flags, wide(node.0)) {
            return SeenPort::Hidden;
        }
        SeenPort::Visible(node, meta.direction)
    }

    // The copy port that a split port is linked with, of the same side.
    pub(crate) fn copy_of(self, port: SidedPort) -> SidedPort
        ensures { (result.port ≡ far_in self.entry.links.now port.port) × (result.side ≡ port.side) }
    {
        SidedPort {
            port: far_in(self.links, wide(port.port)),
            side: port.side,
        }
    }

    // How many subports a split port has.
    #[tactic(auto, unfolding(crate::specs::TableReads::subports_in))]
    pub fn subports_in(self, port: SidedPort) -> usize
        ensures { result ≡ subports_in self.entry.links.now self.entry.owners.now port.port port.side }
    {
        count_beside(self.owners, self.copy_of(port))
    }

    // The slot of the first subport of a split port.
    #[tactic(auto, unfolding(crate::specs::TableReads::first_in))]
    pub fn first_in(self, port: SidedPort) -> usize
        ensures { result ≡ first_in self.entry.links.now self.entry.owners.now port.port port.side }
    {
        first_beside(self.owners, self.copy_of(port))
    }

    // The inner port of an end.
    #[tactic(auto, unfolding(crate::specs::TableReads::end_in))]
    pub fn end_in(self, port: SidedPort, offset: u16) -> Option<u32>
        ensures { result ≡ end_as (end_in self.entry.marks.now self.entry.links.now self.entry.owners.now port.port port.side offset) }
    {
        if flagged(self.marks, wide(port.port)) {
            return end_beside(self.owners, self.copy_of(port), offset);
        }
        Some(port.port)
    }

    // The subport that an inner port is.
    #[tactic(auto, unfolding(crate::specs::TableReads::subport_in), using(crate::specs::TableReadSteps::down_bound))]
    pub fn subport_in(self, port: u32) -> SubportIndex
        ensures { result ≡ subport_in self.entry.links.now self.entry.owners.now self.entry.flags.now port }
    {
        let owner = at(self.owners, wide(port));
        let Some(meta) = PortEntry::read(owner).meta() else {
            return SubportIndex::new_unique(PortIndex(port));
        };
        let node = meta.node;
        if !flagged(self.flags, wide(node.0)) {
            return SubportIndex::new_unique(PortIndex(port));
        }
        let copy = copy_beside(
            self.owners,
            SidedPort {
                port,
                side: meta.direction,
            },
        );
        let offset = run_down(self.owners, owner, wide(port));
        SubportIndex::new_multi(PortIndex(far_in(self.links, copy)), offset as u16)
    }

    // What an end is linked with, and where that stands.
    #[tactic(auto, unfolding(crate::specs::TableReads::wire_in), using(crate::specs::TableReadSteps::wire_none, crate::specs::TableReadSteps::wire_some))]
    pub fn wire_in(self, port: u32) -> Option<(SubportIndex, PortPlace)>
        ensures { Ok result ≡ wire_in self.entry.links.now self.entry.owners.now self.entry.flags.now port }
    {
        let end = self.wire_end_in(port)?;
        let far = end.port;
        Some((end, place_in(self.owners, far.0)))
    }

    // What an end is linked with.
    #[tactic(auto, unfolding(crate::specs::TableReads::wire_end_in), using(crate::specs::TableReadSteps::end_wired))]
    pub fn wire_end_in(self, port: u32) -> Option<SubportIndex>
        ensures { Ok result ≡ wire_end_in self.entry.links.now self.entry.owners.now self.entry.flags.now port }
    {
        let far = at(self.links, wide(port)).checked_sub(1)?;
        Some(self.subport_in(far))
    }

    // What cutting an unsplit port answers: its inner far port, and where the visible end of that stands.
    #[tactic(auto, unfolding(crate::specs::TableReads::plain_in), using(crate::specs::TableReadSteps::plain_none, crate::specs::TableReadSteps::plain_some))]
    pub fn plain_in(self, port: u32) -> Option<(SubportIndex, PortPlace)>
        ensures { Ok result ≡ plain_in self.entry.links.now self.entry.owners.now self.entry.flags.now port }
    {
        let (_, place) = self.wire_in(port)?;
        let inner = far_in(self.links, wide(port));
        Some((SubportIndex::new_unique(PortIndex(inner)), place))
    }
}
