// Counts and fan-outs.
ghost use Rattle.std.specs.Prelude.{◌≡◌};
ghost use Rattle.sketches.specs.PlanLists.{port_fan_out, block_fan_out};
ghost use Rattle.sketches.specs.PlanNumbers.{count_numbers};
ghost use Rattle.sketches.specs.Held.{plan_of};
ghost use Rattle.sketches.specs.CallParts.{Answers, counts_of};

use crate::sketch::{Reason, SketchPort};
use crate::tests::{EndTest, Test};
use crate::totals::Sketch;
use port_tables::direction::Direction;

#[derive(Clone, Copy)]
pub struct SketchCounts {
    pub blocks: usize,
    pub ports: usize,
    pub wires: usize,
}

impl Sketch {
    // The blocks, their ports and the wires.
    #[tactic(auto, using(crate::specs::BlockSteps::length_blocks, crate::specs::Offsets::length_wires))]
    pub fn counts(&self) -> SketchCounts
        ensures { result ≡ counts_of (plan_of self.now) }
    {
        SketchCounts {
            blocks: self.blocks.count,
            ports: self.blocks.ports_in_all(),
            wires: self.wires.count,
        }
    }

    // The wires at a port.
    #[tactic(auto, using(crate::specs::CountSteps::fan_unknown, crate::specs::CountSteps::fan_counted, crate::specs::Held::on, crate::specs::Held::back))]
    pub fn fan_out(&self, port: SketchPort) -> Result<usize, Reason>
        ensures { Answers count_numbers (port_fan_out (plan_of self.now) port) result }
    {
        self.find_port(port)?;
        Ok(self.wires.count_of(Test::Wire(EndTest::AtPort(port))))
    }

    // The wires that leave a block.
    #[tactic(auto, using(crate::specs::CountSteps::block_fan_unknown, crate::specs::CountSteps::block_fan_counted, crate::specs::Held::on, crate::specs::Held::back))]
    pub fn block_fan_out(&self, name: u32) -> Result<usize, Reason>
        ensures { Answers count_numbers (block_fan_out (plan_of self.now) name) result }
    {
        self.find_block(name)?;
        Ok(self.wires.count_of(Test::Side(name, Direction::Outgoing)))
    }
}
