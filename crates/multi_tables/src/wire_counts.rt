// How many wires a port has. Each end is looked at once: the subports lie in a row beside the copy port.
ghost use Rattle.std.specs.Prelude.{◌≡◌, ◌≤◌};
ghost use Rattle.port_tables.specs.Limits.{port_slots};
ghost use Rattle.multi_tables.specs.TableReads.{run_up, run_down};
ghost use Rattle.multi_tables.specs.FanOutScans.{linked_at, linked_up, linked_down, linked_beside, wires_at_in};

use crate::marks::flagged;
use crate::seen::SidedPort;
use crate::wire_tables::WireTables;
use port_tables::direction::Direction;
use port_tables::index::PORT_SLOTS;
use port_tables::numbers::wide;
use port_tables::tables::{at, link_count};

// 1 for a slot that is linked, else 0.
#[tactic(auto, unfolding(crate::specs::FanOutScans::linked_at, port_tables::specs::Tables::link_count))]
fn linked_at(links: &[u32; PORT_SLOTS], slot: usize) -> usize
    ensures { (result ≡ linked_at links.now slot) × (result ≤ 1) }
{
    link_count(at(links, slot))
}

impl WireTables<'_> {
    // How many of the slots in a row from `from` on that have this owner are linked. Stays a loop, as the one below: a filter over the range was tried,
    // and that its count is the definition's could not be proved.
    // That a count is at most the table's size stays a clause, here and in `scans`: a type that held it would be taken apart at each sum; no plainer.
    #[tactic(auto, using(crate::specs::TableReadSteps::run_turn, crate::specs::TableReadSteps::run_stop, crate::specs::TableReadSteps::run_end, crate::specs::TableReadSteps::up_start, crate::specs::TableReadSteps::up_yes, crate::specs::TableReadSteps::up_no, crate::specs::FanOutScanSteps::up_none, crate::specs::FanOutScanSteps::up_next))]
    fn linked_up(self, owner: u32, from: usize) -> usize
        requires { from ≤ 4294967296 }
        ensures { (result ≡ linked_up self.entry.links.now from (run_up self.entry.owners.now owner from)) × (result ≤ port_slots) }
    {
        let mut linked: usize = 0;
        for k in 0..PORT_SLOTS {
            if at(self.owners, from + k) != owner {
                return linked;
            }
            linked += linked_at(self.links, from + k);
        }
        linked
    }

    // How many of the slots in a row below `from` that have this owner are linked.
    // Stays beside `linked_up`, as `run_down` beside `run_up`.
    #[tactic(auto, using(crate::specs::TableReadSteps::run_turn, crate::specs::TableReadSteps::run_stop, crate::specs::TableReadSteps::run_end, crate::specs::TableReadSteps::down_start, crate::specs::TableReadSteps::down_yes, crate::specs::TableReadSteps::down_no, crate::specs::FanOutScanSteps::down_none, crate::specs::FanOutScanSteps::down_next))]
    fn linked_down(self, owner: u32, from: usize) -> usize
        ensures { (result ≡ linked_down self.entry.links.now from (run_down self.entry.owners.now owner from)) × (result ≤ port_slots) }
    {
        let most = from.min(PORT_SLOTS);
        let mut linked: usize = 0;
        for k in 0..most {
            if at(self.owners, from - (k + 1)) != owner {
                return linked;
            }
            linked += linked_at(self.links, from - (k + 1));
        }
        linked
    }

    // How many of the subports beside a copy port are linked.
    #[tactic(auto, unfolding(crate::specs::FanOutScans::linked_beside, crate::specs::TableReads::count_beside))]
    fn linked_beside(self, copy: SidedPort) -> usize
        ensures { (result ≡ linked_beside self.entry.links.now self.entry.owners.now copy.port copy.side) × (result ≤ port_slots) }
    {
        let place = wide(copy.port);
        match copy.side {
            Direction::Incoming => self.linked_down(
                at(self.owners, place.saturating_sub(1)),
                place,
            ),
            Direction::Outgoing => self.linked_up(at(self.owners, place + 1), place + 1),
        }
    }

    // How many wires a port has.
    #[tactic(auto, unfolding(crate::specs::FanOutScans::wires_at_in))]
    pub fn wires_at(self, port: SidedPort) -> usize
        ensures { (result ≡ wires_at_in self.entry.marks.now self.entry.links.now self.entry.owners.now port.port port.side) × (result ≤ port_slots) }
    {
        let slot = wide(port.port);
        if flagged(self.marks, slot) {
            return self.linked_beside(self.copy_of(port));
        }
        linked_at(self.links, slot)
    }
}
