// The number of subports of a port, and making an end ready: an unsplit port without a wire is the end itself; with one it becomes two
// subports; a split port gives its lowest offset without a wire, or one subport more.
ghost use Rattle.std.specs.Prelude.{◌≡◌, map, true, ◌≤◌};
ghost use Rattle.sketches.specs.Plan.{is_there, end#, offset_ready, subports_ready, ready};
ghost use Rattle.sketches.specs.PlanCalls.{most_wires};
ghost use Rattle.sketches.specs.Rows.{split_of};
ghost use Rattle.sketches.specs.Held.{plan_of};
ghost use Rattle.sketches.specs.CallParts.{splits_with, SplitsRoom, split_row, IsPlan};

use crate::rows::Row;
use crate::sketch::{SketchEnd, SketchPort};
use crate::tables::Rows;
use crate::tests::{EndTest, Test};
use crate::totals::Sketch;
use port_tables::numbers::wide;

// The row of a split port.
fn split_row(port: SketchPort, subports: u32) -> Row
    ensures { result ≡ split_row port subports }
{
    Row(port.block, port.side.index(), port.position, subports, 0, 0)
}

impl Rows {
    ghost use Rattle.sketches.specs.Tables.{listed};

    // Gives a port another number of subports, in a table of split ports; 0 is that of an unsplit port.
    #[tactic(auto, using(crate::specs::SplitSteps::subports_none, crate::specs::SplitSteps::subports_some, crate::specs::SplitSteps::room_left))]
    pub(crate) fn set_subports(&mut self, port: SketchPort, subports: u32)
        requires { SplitsRoom self.old.rows self.old.count port subports }
        ensures { map split_of (listed self.new) ≡ splits_with (map split_of (listed self.old)) port subports }
    {
        if self.subports_among(port) == subports {
            return;
        }
        self.drop_where(Test::Split(EndTest::AtPort(port)));
        if subports != 0 {
            self.push(split_row(port, subports));
        }
    }
}

// The subports of a port that is made ready at an offset.
fn subports_ready(subports: u32, offset: usize) -> u32
    requires { offset ≤ most_wires }
    ensures { result ≡ subports_ready subports offset }
{
    match (subports, offset) {
        (0, 0) => 0,
        (0, _) => 2,
        _ => wide(subports).max(offset + 1) as u32,
    }
}

impl Sketch {
    // Makes a port ready, and gives the end that it is then.
    #[tactic(auto, unfolding(crate::specs::Plan::is_there), using(crate::specs::SplitSteps::ready_offset, crate::specs::SplitSteps::ready_room, crate::specs::Held::back))]
    pub(crate) fn ready_port(&mut self, port: SketchPort) -> SketchEnd
        requires { is_there (plan_of self.old) port ≡ true }
        ensures is { IsPlan (ready (plan_of self.old) port) self.new.blocks self.new.splits self.new.wires self.new.totals }
        ensures end { result ≡ end# port (offset_ready (plan_of self.old) port) }
    {
        let offset = self.offset_ready(port);
        let subports = subports_ready(self.subports_of(port), offset);
        self.splits.set_subports(port, subports);
        SketchEnd {
            port,
            offset: offset as u16,
        }
    }
}
