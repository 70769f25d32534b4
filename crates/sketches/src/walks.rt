// Walks: over wires from either end, over blocks, and over the subports of a side. A cursor is handed in and comes back moved.
ghost use Rattle.std.specs.Prelude.{◌≡◌, ◌<◌};
ghost use Rattle.sketches.specs.Plan.{has_block, is_there};
ghost use Rattle.sketches.specs.Rows.{wire_of, row_at};
ghost use Rattle.sketches.specs.Held.{plan_of};
ghost use Rattle.sketches.specs.SketchWalks.{start_of, subports_from, whole_walk, wire_held, next_wire, previous_wire, next_block, next_subport, Knows};

use crate::rows::{ROWS, Row};
use crate::sketch::{Reason, SketchEnd, SketchPort};
use crate::tables::newest_among;
use crate::tests::{EndTest, Test, in_end, out_end};
pub use crate::tests::{Walk, whole_walk};
use crate::totals::Sketch;
use port_tables::direction::Direction;

// A wire, its outgoing end first.
#[derive(Clone, Copy)]
pub struct SketchWire {
    pub out: SketchEnd,
    pub into: SketchEnd,
}

// Where a walk over subports stands: the port and the offset that come next. Stays beside `SketchEnd`: who calls may give any offset of 32 bits.
#[derive(Clone, Copy)]
pub struct SubportWalk {
    pub port: SketchPort,
    pub offset: u32,
}

// The next block of any table, by its name: of its first `count` rows, or of all if `count` is more. It asks nothing of what the rows hold.
#[tactic(auto, using(crate::specs::WalkSteps::block_within, crate::specs::WalkSteps::block_ends, crate::specs::WalkSteps::block_gives))]
pub fn next_block_among(rows: &[Row; ROWS], count: usize, walk: Walk) -> Option<(u32, Walk)>
    ensures { result ≡ next_block rows.now count walk }
{
    let i = newest_among(rows, count.min(ROWS), walk)?;
    Some((rows[i].0, Walk { high: i, ..walk }))
}

impl Sketch {
    // A walk over all blocks.
    pub fn blocks(&self) -> Walk
        ensures { result ≡ whole_walk self.now.totals.blocks Test.Every }
    {
        whole_walk(self.blocks.count, Test::Every)
    }

    // A walk over the wires that a test hits.
    pub fn wires(&self, test: Test) -> Walk
        ensures { result ≡ whole_walk self.now.totals.wires test }
    {
        whole_walk(self.wires.count, test)
    }

    // Starts a walk over the wires at a port.
    pub fn links_of_port(&self, port: SketchPort) -> Result<Walk, Reason>
        ensures { result ≡ start_of (is_there (plan_of self.now) port) Reason.UnknownPort (whole_walk self.now.totals.wires (Test.Wire (EndTest.AtPort port))) }
    {
        self.find_port(port)?;
        Ok(self.wires(Test::Wire(EndTest::AtPort(port))))
    }

    // Starts a walk over wires that names a block: those of a side, those with neighbours.
    pub fn wires_of_block(&self, name: u32, test: Test) -> Result<Walk, Reason>
        ensures { result ≡ start_of (has_block (plan_of self.now).blocks name) Reason.UnknownBlock (whole_walk self.now.totals.wires test) }
    {
        self.find_block(name)?;
        Ok(self.wires(test))
    }

    // Starts a walk over the subports of a block's side.
    pub fn subports(&self, name: u32, side: Direction) -> Result<SubportWalk, Reason>
        ensures { result ≡ start_of (has_block (plan_of self.now).blocks name) Reason.UnknownBlock (subports_from name side) }
    {
        self.find_block(name)?;
        Ok(SubportWalk {
            port: SketchPort {
                block: name,
                side,
                position: 0,
            },
            offset: 0,
        })
    }

    // The wire of a row.
    fn wire_at(&self, i: usize) -> SketchWire
        requires { i < self.now.totals.wires }
        ensures { result ≡ wire_held (wire_of (row_at self.now.wires i)) }
    {
        // By a reference, which tells how long the table is.
        let wires = &self.wires;
        let row = wires.rows[i];
        SketchWire {
            out: out_end(row).named(),
            into: in_end(row).named(),
        }
    }

    // The next wire.
    #[tactic(auto, using(crate::specs::WalkSteps::next_ends, crate::specs::WalkSteps::next_within, crate::specs::WalkSteps::next_gives))]
    pub fn next_wire(&self, walk: Walk) -> Option<(SketchWire, Walk)>
        ensures { result ≡ next_wire self.now.wires self.now.totals.wires walk }
    {
        let i = self.wires.newest_left(walk)?;
        Some((self.wire_at(i), Walk { high: i, ..walk }))
    }

    // The next wire from the back. Stays beside `next_wire`: which row, and what is left, is all that either says.
    #[tactic(auto, using(crate::specs::WalkSteps::previous_ends, crate::specs::WalkSteps::previous_within, crate::specs::WalkSteps::previous_gives))]
    pub fn previous_wire(&self, walk: Walk) -> Option<(SketchWire, Walk)>
        ensures { result ≡ previous_wire self.now.wires self.now.totals.wires walk }
    {
        let i = self.wires.oldest_left(walk)?;
        Some((self.wire_at(i), Walk { low: i + 1, ..walk }))
    }

    // The next block, by its name.
    pub fn next_block(&self, walk: Walk) -> Option<(u32, Walk)>
        ensures { result ≡ next_block self.now.blocks self.now.totals.blocks walk }
    {
        next_block_among(&self.blocks.rows, self.blocks.count, walk)
    }

    // The offsets of a port: those of its subports, or 0 alone.
    #[tactic(auto, using(crate::specs::WalkSteps::one_or_more, crate::specs::CallsWf::subports_among_lem))]
    fn offsets_of(&self, port: SketchPort) -> u32
        ensures { Knows (plan_of self.now) port result }
    {
        self.subports_of(port).max(1)
    }

    // The next subport of a side, by port, then offset.
    #[tactic(auto, unfolding(crate::specs::SketchWalks::next_subport), using(crate::specs::WalkSteps::subports_on))]
    pub fn next_subport(&self, walk: SubportWalk) -> Option<(SketchEnd, SubportWalk)>
        ensures { result ≡ next_subport (plan_of self.now) walk }
    {
        let port = walk.port;
        let ports = self.ports_on_side(port.block, port.side);
        if ports <= port.position {
            return None;
        }
        let at = if walk.offset < self.offsets_of(port) {
            walk
        } else {
            SubportWalk {
                port: SketchPort {
                    position: port.position + 1,
                    ..port
                },
                offset: 0,
            }
        };
        if ports <= at.port.position {
            return None;
        }
        Some((
            SketchEnd {
                port: at.port,
                offset: at.offset as u16,
            },
            SubportWalk {
                offset: at.offset + 1,
                ..at
            },
        ))
    }
}
