// Tests on the rows of a table: one function says whether a row is hit, for every call and every walk.
ghost use Rattle.std.specs.Prelude.{◌≡◌, ◌<◌};
ghost use Rattle.port_tables.specs.Places.{of_dropped, at_spot, at_end, end_on};
ghost use Rattle.sketches.specs.Plan.{spot_named, end_at_place};
ghost use Rattle.sketches.specs.PlanWf.{most_subports};
ghost use Rattle.sketches.specs.SketchWalks.{whole_walk};
ghost use Rattle.sketches.specs.Rows.{side_of, place_in, wire_of, split_of, end_hits, hits};

use crate::rows::Row;
use crate::sketch::{SketchEnd, SketchPort};
use port_tables::direction::Direction;

// An end as a row has it. Stays beside `SketchEnd`: a row holds any number, and only a wire's is an offset of 16 bits; and beside `SubportWalk` and `EndTest::AtEnd`, which
// callers make.
#[derive(Clone, Copy, PartialEq, Eq)]
pub(crate) struct RowEnd {
    pub port: SketchPort,
    pub offset: u32,
}

impl RowEnd {
    // The end as a call names it.
    // Stays a method: it asks that the offset fits, which `From` could not.
    pub(crate) fn named(self) -> SketchEnd
        requires { self.offset < most_subports }
        ensures { result ≡ end_at_place (place_in self) }
    {
        SketchEnd {
            port: self.port,
            offset: self.offset as u16,
        }
    }
}

// What an end may be asked.
// Stays an enum, as `Test`, which holds it.
#[derive(Clone, Copy)]
pub enum EndTest {
    OfBlock(u32),
    // Beyond the counts that a block is left with, incoming first.
    // Three numbers, as `resize` takes them.
    OfDropped(u32, u32, u32),
    AtPort(SketchPort),
    AtEnd(SketchPort, u32),
}

// What a row may be asked. Stays an enum: it is data of a cursor, which is Copy.
#[derive(Clone, Copy)]
pub enum Test {
    Every,
    // A block of this name.
    Block(u32),
    // A split port.
    Split(EndTest),
    // A wire with such an end.
    Wire(EndTest),
    // A wire whose end on a side is of a block.
    Side(u32, Direction),
    // A wire from the first block to the second.
    Between(u32, u32),
    // A wire whose end on a side is of a block; with the flag, only if the far end is not an output of that block.
    Neighbour(u32, Direction, bool),
}

// The rows that are left of a walk, and the test on them. Stay two numbers: a Range is not Copy, and a cursor is.
#[derive(Clone, Copy)]
pub struct Walk {
    pub low: usize,
    pub high: usize,
    pub test: Test,
}

// All rows of a table.
pub fn whole_walk(count: usize, test: Test) -> Walk
    ensures { result ≡ whole_walk count test }
{
    Walk {
        low: 0,
        high: count,
        test,
    }
}

// The side of a number, 0 incoming. Stays a function of any number: a TryFrom would have a refusal that no row and no line comes to.
pub fn side_of(number: u32) -> Direction
    ensures { result ≡ side_of number }
{
    if number == 0 {
        return Direction::Incoming;
    }
    Direction::Outgoing
}

// The split port of a row.
fn split_end(row: Row) -> RowEnd
    ensures { place_in result ≡ split_of row }
{
    RowEnd {
        port: SketchPort {
            block: row.0,
            side: side_of(row.1),
            position: row.2,
        },
        offset: row.3,
    }
}

// The ends of the wire of a row. Stay two: each names its own side and its own three columns, and so does its definition.
pub(crate) fn out_end(row: Row) -> RowEnd
    ensures { place_in result ≡ (wire_of row).out }
{
    RowEnd {
        port: SketchPort {
            block: row.0,
            side: Direction::Outgoing,
            position: row.1,
        },
        offset: row.2,
    }
}

pub(crate) fn in_end(row: Row) -> RowEnd
    ensures { place_in result ≡ (wire_of row).into }
{
    RowEnd {
        port: SketchPort {
            block: row.3,
            side: Direction::Incoming,
            position: row.4,
        },
        offset: row.5,
    }
}

#[tactic(auto, using(crate::specs::RowReads::port_tested))]
pub(crate) fn at_port(port: SketchPort, end: RowEnd) -> bool
    ensures { result ≡ at_spot (spot_named port) (place_in end) }
{
    end.port == port
}

#[tactic(auto, using(crate::specs::RowReads::end_tested))]
fn at_end(port: SketchPort, offset: u32, end: RowEnd) -> bool
    ensures { result ≡ at_end (spot_named port) offset (place_in end) }
{
    end == RowEnd { port, offset }
}

fn of_dropped(block: u32, incoming: u32, outgoing: u32, end: RowEnd) -> bool
    ensures { result ≡ of_dropped block incoming outgoing (place_in end) }
{
    let port = end.port;
    let left = match port.side {
        Direction::Incoming => incoming,
        Direction::Outgoing => outgoing,
    };
    port.block == block && left <= port.position
}

pub(crate) fn end_hits(test: EndTest, end: RowEnd) -> bool
    ensures { result ≡ end_hits test (place_in end) }
{
    match test {
        EndTest::OfBlock(block) => end.port.block == block,
        EndTest::OfDropped(block, incoming, outgoing) => of_dropped(block, incoming, outgoing, end),
        EndTest::AtPort(port) => at_port(port, end),
        EndTest::AtEnd(port, offset) => at_end(port, offset, end),
    }
}

fn wire_hits(test: EndTest, row: Row) -> bool
    ensures { result ≡ hits (Test.Wire test) row }
{
    end_hits(test, out_end(row)) || end_hits(test, in_end(row))
}

// The block at the wire's end on a side.
pub(crate) fn block_on(row: Row, side: Direction) -> u32
    ensures { result ≡ (end_on side (wire_of row)).node }
{
    match side {
        Direction::Incoming => row.3,
        Direction::Outgoing => row.0,
    }
}

fn between(from: u32, to: u32, row: Row) -> bool
    ensures { result ≡ hits (Test.Between from to) row }
{
    row.0 == from && row.3 == to
}

fn neighbour(block: u32, side: Direction, flag: bool, row: Row) -> bool
    ensures { result ≡ hits (Test.Neighbour block side flag) row }
{
    block_on(row, side) == block && (!flag || side == Direction::Outgoing || row.0 != block)
}

// Inlined, so that a search looks at the kind of its test once: else the test is handed over anew with each row.
#[inline(always)]
pub(crate) fn hits(test: Test, row: Row) -> bool
    ensures { result ≡ hits test row }
{
    match test {
        Test::Every => true,
        Test::Block(name) => row.0 == name,
        Test::Split(end) => end_hits(end, split_end(row)),
        Test::Wire(end) => wire_hits(end, row),
        Test::Side(block, side) => block_on(row, side) == block,
        Test::Between(from, to) => between(from, to, row),
        Test::Neighbour(block, side, flag) => neighbour(block, side, flag, row),
    }
}
