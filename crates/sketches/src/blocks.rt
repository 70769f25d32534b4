// Adding, removing and resizing a block.
ghost use Rattle.std.specs.Prelude.{◌≡◌, ◌≤◌};
ghost use Rattle.port_tables.specs.Limits.{node_ports};
ghost use Rattle.sketches.specs.PlanCalls.{add_block, remove_block, set_counts};
ghost use Rattle.sketches.specs.PlanNumbers.{add_numbers, done_numbers};
ghost use Rattle.sketches.specs.Held.{plan_of, Left};
ghost use Rattle.sketches.specs.CallParts.{no_room};

use crate::rows::Row;
use crate::sketch::Reason;
use crate::tests::{EndTest, Test};
use crate::totals::Sketch;
use port_tables::index::{NODE_PORTS, NODE_SLOTS, PORT_SLOTS};
use port_tables::numbers::wide;

impl Sketch {
    // Whether an add would pass the adds, the blocks or the ports of a sketch.
    fn no_room(&self, ports: usize) -> bool
        requires { ports ≤ node_ports }
        ensures { result ≡ no_room self.now.totals.adds self.now.totals.blocks (plan_of self.now).blocks ports }
    {
        self.adds == u32::MAX
            || NODE_SLOTS <= self.blocks.count
            || PORT_SLOTS < self.blocks.ports_in_all() + ports
    }

    // Adds a block: its name is how many adds were accepted before it.
    #[tactic(auto, unfolding(crate::specs::PlanCalls::add_block), using(crate::specs::BlockSteps::length_blocks))]
    pub fn add(&mut self, incoming: u32, outgoing: u32) -> Result<u32, Reason>
        ensures { Left add_numbers (add_block (plan_of self.old) incoming outgoing) self.new result }
    {
        let name = self.adds;
        let ports = wide(incoming) + wide(outgoing);
        if NODE_PORTS < ports {
            return Err(Reason::TooManyPorts);
        }
        if self.no_room(ports) {
            return Err(Reason::NoRoom);
        }
        self.blocks.push(Row(name, incoming, outgoing, 0, 0, 0));
        self.adds += 1;
        Ok(name)
    }

    // Removes a block and each wire at it.
    #[tactic(auto, using(crate::specs::BlockSteps::removed_unknown, crate::specs::Held::seen_as, crate::specs::Held::back))]
    pub fn remove(&mut self, name: u32) -> Result<(), Reason>
        ensures { Left done_numbers (remove_block (plan_of self.old) name) self.new result }
    {
        self.find_block(name)?;
        let end = EndTest::OfBlock(name);
        self.blocks.drop_where(Test::Block(name));
        self.splits.drop_where(Test::Split(end));
        self.wires.drop_where(Test::Wire(end));
        Ok(())
    }

    // Gives a block other counts; each wire at a dropped position goes.
    #[tactic(auto, unfolding(crate::specs::PlanCalls::set_counts), using(crate::specs::BlockSteps::resized_unknown, crate::specs::BlockSteps::resized_no_room, crate::specs::Held::seen_as, crate::specs::Held::back))]
    pub fn resize(&mut self, name: u32, incoming: u32, outgoing: u32) -> Result<(), Reason>
        ensures { Left done_numbers (set_counts (plan_of self.old) name incoming outgoing) self.new result }
    {
        // Asked before any answer: it tells that the sketch is well formed, which a refusal keeps. The block is sought only then.
        let _ = self.totals();
        if NODE_PORTS < wide(incoming) + wide(outgoing) {
            return Err(Reason::TooManyPorts);
        }
        self.find_block(name)?;
        let block = Row(name, incoming, outgoing, 0, 0, 0);
        if PORT_SLOTS < self.blocks.ports_recounted(block) {
            return Err(Reason::NoRoom);
        }
        self.blocks.recount(block);
        let dropped = EndTest::OfDropped(name, incoming, outgoing);
        self.splits.drop_where(Test::Split(dropped));
        self.wires.drop_where(Test::Wire(dropped));
        Ok(())
    }
}
