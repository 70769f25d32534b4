// Fan-out: how many wires a port has, and how many leave a block. Each end of a port is looked at once: the subports lie in a row beside
// the copy port.
ghost use Rattle.std.specs.Prelude.{◌≡◌, ◌-◌, min};
ghost use Rattle.port_tables.specs.Limits.{port_slots};
ghost use Rattle.multiportgraph.specs.WellFormed.{MultiWf};
ghost use Rattle.multiportgraph.specs.Lookups.{port_fan_out, node_fan_out, count_numbers};
ghost use Rattle.multi_tables.specs.FanOutScans.{fan_out_in};

use crate::multiportgraph::MultiPortGraph;
use multi_tables::answers::Refusal;
use multi_tables::seen::SidedPort;
use multi_tables::wire_tables::WireTables;
use port_tables::direction::Direction;
use port_tables::index::{NodeIndex, PORT_SLOTS, PortIndex};
use port_tables::sides::{Sides, ports_from, ports_to};

// The sum of the fan-outs of the outgoing ports from `from` on and below `end`. Stays a loop: that the sum fits is told of the sum so far, of which a closure's
// contract could not speak; no plainer.
fn fan_out_sum(tables: WireTables<'_>, from: usize, end: usize) -> usize
    ensures { result ≡ fan_out_in tables.entry.marks.now tables.entry.links.now tables.entry.owners.now from (min end port_slots - from) }
{
    let stop = end.min(PORT_SLOTS);
    let mut sum: usize = 0;
    for port in from..stop {
        sum += tables.wires_at(SidedPort {
            port: port as u32,
            side: Direction::Outgoing,
        });
    }
    sum
}

impl MultiPortGraph {
    // How many wires a port has, on either side; 0 for one that is not linked.
    #[tactic(auto, using(port_tables::specs::TableSteps::with_numbers, crate::specs::FanOutSteps::fan_out_at_port, crate::specs::StartSteps::block_is, crate::specs::StartSteps::fan_out_refused, crate::specs::StartSteps::passed_told, crate::specs::OwnTables::read_off))]
    pub fn port_fan_out(&self, port: PortIndex) -> Result<usize, Refusal>
        requires { MultiWf self.now }
        ensures { (result ≡ port_fan_out self.now port.0) × (count_numbers result ≡ count_numbers (port_fan_out self.now port.0)) }
    {
        let (_, side) = self.block_port(port)?;
        Ok(
            self.wire_tables()
                .wires_at(SidedPort { port: port.0, side }),
        )
    }

    // How many wires leave a block: the sum of the fan-outs of its outgoing ports.
    #[tactic(auto, using(port_tables::specs::TableSteps::with_numbers, crate::specs::FanOutSteps::fan_out_refused, crate::specs::FanOutSteps::fan_out_counted, crate::specs::OwnTables::read_off, crate::specs::StartSteps::passed_told))]
    pub fn node_fan_out(&self, node: NodeIndex) -> Result<usize, Refusal>
        requires { MultiWf self.now }
        ensures { (result ≡ node_fan_out self.now node.0) × (count_numbers result ≡ count_numbers (node_fan_out self.now node.0)) }
    {
        let meta = self.block(node)?;
        let side = Sides::One(Direction::Outgoing);
        Ok(fan_out_sum(
            self.wire_tables(),
            ports_from(meta, side),
            ports_to(meta, side),
        ))
    }
}
