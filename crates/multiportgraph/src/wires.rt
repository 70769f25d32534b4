// The walk over all wires: block after block, the links of its outgoing side.
ghost use Rattle.std.specs.Prelude.{◌≡◌, ◌-◌, ◌<◌};
ghost use Rattle.port_tables.specs.Limits.{node_slots, port_slots};
ghost use Rattle.multiportgraph.specs.Wires.{step_wires};
ghost use Rattle.multiportgraph.specs.WalkNumbers.{wires_values};
ghost use Rattle.multiportgraph.specs.WellFormed.{MultiWf};
ghost use Rattle.multi_tables.specs.Scans.{first_found, link_port, wires_in};
ghost use Rattle.multiportgraph.specs.WalkScans.{wires_found};

use crate::iter::Wires;
use crate::link_walks::held_at;
use crate::multiportgraph::MultiPortGraph;
use multi_tables::answers::SubportLink;
use multi_tables::marks::flagged;
use multi_tables::scans::Held;
use port_tables::index::{NODE_SLOTS, PortIndex};
use port_tables::numbers::wide;

impl MultiPortGraph {
    // The first wire of the node slots from `node` on; of that one beyond what a cursor holds. Stays a loop, as `scan_port`.
    #[tactic(auto, unfolding(multi_tables::specs::Scans::first_found, multi_tables::specs::Scans::wires_in), using(multi_tables::specs::ScanSteps::nodes_turn))]
    fn next_wire(&self, node: usize, held: Held) -> Option<SubportLink>
        ensures { (result ≡ first_found (wires_in self.now.multiport self.now.graph.port_link self.now.graph.port_meta self.now.copy_node self.now.graph.node_meta node held.port held.offset (node_slots - node)))
            × (link_port 0 result < port_slots) }
    {
        let slots = self.graph.node_table();
        let tables = self.wire_tables();
        let mut left = held;
        for n in node..NODE_SLOTS {
            let found = tables.block_links(slots[n], flagged(&self.copy_node, n), left);
            if let Some(_) = found {
                return found;
            }
            left = Held::default();
        }
        None
    }
}

impl Wires {
    // The wire that comes next: none where the port held is gone or hidden; else the walk goes on from that port's present block.
    #[tactic(auto, using(crate::specs::WireSteps::step_start, crate::specs::WireSteps::step_gone))]
    fn next_link(self, graph: &MultiPortGraph) -> Option<SubportLink>
        requires { MultiWf graph.now }
        ensures { (wires_found result ≡ step_wires graph.now self) × (link_port 0 result < port_slots) }
    {
        let held = self.held;
        let Some(port) = held.port.checked_sub(1) else {
            return graph.next_wire(0, Held::default());
        };
        let (node, _) = graph.block_port(PortIndex(port)).ok()?;
        graph.next_wire(wide(node.0), held)
    }

    pub fn step(self, graph: &MultiPortGraph) -> Option<(SubportLink, Wires)>
        requires { MultiWf graph.now }
        ensures { (result ≡ step_wires graph.now self) × (wires_values result ≡ wires_values (step_wires graph.now self)) }
    {
        let link = self.next_link(graph)?;
        Some((
            link,
            Wires {
                held: held_at(link.from),
            },
        ))
    }
}
