// What is read of a block and of a port.
ghost use Rattle.std.specs.Prelude.{◌≡◌, map};
ghost use Rattle.port_tables.specs.Places.{any_touches};
ghost use Rattle.sketches.specs.Plan.{has_block, ports_on_side, is_there, spot_named, subports_among, subports_of};
ghost use Rattle.sketches.specs.PlanCalls.{is_full};
ghost use Rattle.sketches.specs.Rows.{split_of, end_hits};
ghost use Rattle.sketches.specs.Held.{plan_of, HeldWf};
ghost use Rattle.sketches.specs.CallParts.{judge_block, judge_port};

use crate::rows::ROWS;
use crate::sketch::{Reason, SketchPort};
use crate::tables::Rows;
use crate::tests::{EndTest, Test};
use crate::totals::Sketch;
use port_tables::direction::Direction;

impl Rows {
    ghost use Rattle.sketches.specs.Tables.{listed};

    // How many subports a port has, in a table of split ports; 0 where it is not there.
    // Stays a number, as in `subports_of`.
    #[tactic(auto, using(crate::specs::RowReads::subports_read))]
    pub(crate) fn subports_among(&self, port: SketchPort) -> u32
        ensures { result ≡ subports_among (map split_of (listed self.now)) (spot_named port) }
    {
        self.newest(Test::Split(EndTest::AtPort(port)))
            .map_or(0, |row| row.3)
    }
}

// The invariant stands in clauses here: who asks may answer before a field is read, and sees the value alone until then.
impl Sketch {
    #[tactic(auto, using(crate::specs::RowReads::block_found_lem))]
    pub(crate) fn has_block(&self, name: u32) -> bool
        ensures found { result ≡ has_block (plan_of self.now).blocks name }
        ensures wf { HeldWf self.now }
    {
        self.blocks.any(Test::Block(name))
    }

    // Refuses a block that is not there.
    pub(crate) fn find_block(&self, name: u32) -> Result<(), Reason>
        ensures found { result ≡ judge_block (plan_of self.now) name }
        ensures wf { HeldWf self.now }
    {
        if !self.has_block(name) {
            return Err(Reason::UnknownBlock);
        }
        Ok(())
    }

    // How many ports a block has on a side; 0 where it is not there. Stays a number: a block that is not there has no ports.
    #[tactic(auto, using(crate::specs::RowReads::ports_read))]
    pub(crate) fn ports_on_side(&self, name: u32, side: Direction) -> u32
        ensures ports { result ≡ ports_on_side (plan_of self.now).blocks name side }
        ensures wf { HeldWf self.now }
    {
        self.blocks
            .newest(Test::Block(name))
            .map_or(0, |row| match side {
                Direction::Incoming => row.1,
                Direction::Outgoing => row.2,
            })
    }

    // Whether a port is there: its block has that position on that side.
    #[tactic(auto, unfolding(crate::specs::Plan::is_there))]
    pub(crate) fn is_there(&self, port: SketchPort) -> bool
        ensures found { result ≡ is_there (plan_of self.now) port }
        ensures wf { HeldWf self.now }
    {
        port.position < self.ports_on_side(port.block, port.side)
    }

    // Refuses a port that is not there.
    pub(crate) fn find_port(&self, port: SketchPort) -> Result<(), Reason>
        ensures found { result ≡ judge_port (plan_of self.now) port }
        ensures wf { HeldWf self.now }
    {
        if !self.is_there(port) {
            return Err(Reason::UnknownPort);
        }
        Ok(())
    }

    // How many subports a port has; 0 where it is not split. Stays a number: a port that is not split has none.
    pub(crate) fn subports_of(&self, port: SketchPort) -> u32
        ensures count { result ≡ subports_of (plan_of self.now) port }
        ensures wf { HeldWf self.now }
    {
        self.splits.subports_among(port)
    }

    // Whether a wire has such an end.
    #[tactic(auto, using(crate::specs::RowReads::wire_found))]
    pub(crate) fn is_wired(&self, test: EndTest) -> bool
        ensures { result ≡ any_touches (end_hits test) (plan_of self.now).wires }
    {
        self.wires.any(Test::Wire(test))
    }

    // Whether no wire more can be laid.
    #[tactic(auto, using(crate::specs::Offsets::length_wires))]
    pub(crate) fn is_full(&self) -> bool
        ensures { result ≡ is_full (plan_of self.now) }
    {
        ROWS <= self.wires.count
    }
}
