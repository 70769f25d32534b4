// The walk over the subports of a block.
ghost use Rattle.std.specs.Prelude.{◌≡◌, ◌-◌, ◌<◌, min};
ghost use Rattle.port_tables.specs.Limits.{port_slots};
ghost use Rattle.multiportgraph.specs.Walks.{step_subports};
ghost use Rattle.multiportgraph.specs.WalkNumbers.{node_subports_values};
ghost use Rattle.multiportgraph.specs.WellFormed.{MultiWf};
ghost use Rattle.multi_tables.specs.Scans.{first_found};
ghost use Rattle.multiportgraph.specs.WalkScans.{subport_port, port_subports_in, subports_rest, subports_beyond};

use crate::iter::NodeSubports;
use crate::link_walks::held_at;
use crate::multiportgraph::MultiPortGraph;
use multi_tables::answers::SubportIndex;
use multi_tables::scans::Held;
use multi_tables::seen::SidedPort;
use multi_tables::wire_tables::WireTables;
use port_tables::index::{PORT_SLOTS, PortIndex};
use port_tables::sides::{ports_from, ports_to};

// The subport of a port at an offset, if it has one.
#[tactic(auto, unfolding(multi_tables::specs::NamedEnds::block_port, port_tables::specs::Lists::range), using(crate::specs::SubportSteps::subports_unseen, crate::specs::SubportSteps::subport_there, crate::specs::SubportSteps::subport_past_lem))]
fn subport_from(tables: WireTables<'_>, port: u32, offset: usize) -> Option<SubportIndex>
    ensures { (result ≡ first_found (port_subports_in tables.entry.marks.now tables.entry.links.now tables.entry.owners.now tables.entry.flags.now port offset))
        × (subport_port port result ≡ port) }
{
    let (_, direction) = tables.block_port(PortIndex(port)).ok()?;
    let sided = SidedPort {
        port,
        side: direction,
    };
    if tables.span_count(sided) <= offset {
        return None;
    }
    Some(SubportIndex::new_multi(PortIndex(port), offset as u16))
}

// The first subport of the ports below `end`, from one port and offset on. Stays beside next_link of multi_tables: one search for both would take a closure
// for what a port gives, and its contract would speak of that closure in place of subports; no plainer.
// Stays a loop, as `scan_port`.
#[tactic(auto, using(crate::specs::SubportSteps::subports_turn, crate::specs::SubportSteps::subports_found, crate::specs::SubportSteps::subports_done))]
fn next_subport(
    tables: WireTables<'_>,
    from: usize,
    offset: usize,
    end: usize,
) -> Option<SubportIndex>
    ensures { (result ≡ first_found (subports_rest tables.entry.marks.now tables.entry.links.now tables.entry.owners.now tables.entry.flags.now from offset (min end port_slots - from)))
        × (subport_port 0 result < port_slots) }
{
    let stop = end.min(PORT_SLOTS);
    let mut first = offset;
    for port in from..stop {
        let found = subport_from(tables, port as u32, first);
        if let Some(_) = found {
            return found;
        }
        first = 0;
    }
    None
}

// The first subport of the ports from `from` on and below `end` that lies beyond what a cursor holds.
// Stays beside `next_beyond` of multi_tables, for the same.
#[tactic(auto, using(crate::specs::SubportSteps::beyond_start))]
fn subport_beyond(
    tables: WireTables<'_>,
    from: usize,
    end: usize,
    held: Held,
) -> Option<SubportIndex>
    ensures { (result ≡ first_found (subports_beyond tables.entry.marks.now tables.entry.links.now tables.entry.owners.now tables.entry.flags.now from end held.port held.offset))
        × (subport_port 0 result < port_slots) }
{
    let (port, offset) = held.start(from);
    next_subport(tables, port, offset, end)
}

impl NodeSubports {
    #[tactic(auto, using(crate::specs::WalkSteps::both_refused, crate::specs::WalkSteps::both_found, crate::specs::SubportSteps::subports_gone, crate::specs::SubportSteps::subports_none))]
    pub fn step(self, graph: &MultiPortGraph) -> Option<(SubportIndex, NodeSubports)>
        requires { MultiWf graph.now }
        ensures { (result ≡ step_subports graph.now self) × (node_subports_values result ≡ node_subports_values (step_subports graph.now self)) }
    {
        let sides = self.sides;
        let held = self.held;
        let meta = graph.block(self.node).ok()?;
        if !graph.held_seen(held.port) {
            return None;
        }
        let from = ports_from(meta, sides);
        let subport = subport_beyond(graph.wire_tables(), from, ports_to(meta, sides), held)?;
        Some((
            subport,
            NodeSubports {
                held: held_at(subport),
                ..self
            },
        ))
    }
}
