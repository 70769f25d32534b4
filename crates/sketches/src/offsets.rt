// The wired offsets of a port: the lowest one without a wire, and the highest with one.
ghost use Rattle.std.specs.Prelude.{◌≡◌, map, not, position};
ghost use Rattle.sketches.specs.Plan.{spot_named, above_end, above_wired, offset_ready};
ghost use Rattle.sketches.specs.Rows.{place_in, wire_of};
ghost use Rattle.sketches.specs.Held.{plan_of};
ghost use Rattle.sketches.specs.CallParts.{mark, marked, Marks};

use crate::rows::{ROWS, Row};
use crate::sketch::SketchPort;
use crate::tables::Rows;
use crate::tests::{RowEnd, at_port, in_end, out_end};
use crate::totals::Sketch;
use port_tables::numbers::wide;

// Marks an offset; one beyond the table is left out. Stays a test of the place: of what `get_mut` lends, a proof keeps the length alone.
// Stays beside `put_flag` of `multi_tables`, on which no sketch rests.
fn mark(marks: &mut [bool; ROWS], offset: u32)
    ensures { marks.new ≡ mark marks.old offset }
{
    if wide(offset) < ROWS {
        marks[wide(offset)] = true;
    }
}

// Marks the offset of an end, if it is at a port.
fn mark_end(marks: &mut [bool; ROWS], port: SketchPort, end: RowEnd)
    ensures { marks.new ≡ marked (spot_named port) (place_in end) marks.old }
{
    if at_port(port, end) {
        mark(marks, end.offset);
    }
}

// The lowest offset that is not marked.
fn lowest_unmarked(marks: &[bool]) -> Option<usize>
    ensures { result ≡ position not marks.now }
{
    marks.iter().position(|marked| !*marked)
}

// One more than an offset, where that is higher and its end is at a port.
fn above_end(port: SketchPort, end: RowEnd, above: usize) -> usize
    ensures { result ≡ above_end (spot_named port) (place_in end) above }
{
    if at_port(port, end) {
        return (wide(end.offset) + 1).max(above);
    }
    above
}

fn above_row(port: SketchPort, row: Row, above: usize) -> usize
    ensures { result ≡ above_end (spot_named port) (wire_of row).out (above_end (spot_named port) (wire_of row).into above) }
{
    above_end(port, out_end(row), above_end(port, in_end(row), above))
}

impl Rows {
    ghost use Rattle.sketches.specs.Tables.{listed};

    // Which offsets of a port are wired, in a table of wires.
    fn marks_of(&self, port: SketchPort) -> [bool; ROWS]
        ensures { Marks (spot_named port) (map wire_of (listed self.now)) result }
    {
        let mut marks = [false; ROWS];
        for row in &self.rows[..self.count] {
            mark_end(&mut marks, port, out_end(*row));
            mark_end(&mut marks, port, in_end(*row));
        }
        marks
    }

    // One more than the highest wired offset of a port; 0 where none is wired.
    // Stays a number, as that of a sketch.
    // Stays a loop: what `fold` gives is told of the runs of its closure, and the invariant here of rows; no plainer.
    #[tactic(auto, unfolding(crate::specs::Plan::above_wired, crate::specs::Rows::rows_in), using(crate::specs::Offsets::wires_more, crate::specs::RowSteps::row_taken))]
    fn above_wired(&self, port: SketchPort) -> usize
        ensures { result ≡ above_wired (spot_named port) (map wire_of (listed self.now)) }
    {
        let mut above: usize = 0;
        for row in &self.rows[..self.count] {
            above = above_row(port, *row, above);
        }
        above
    }
}

impl Sketch {
    // The lowest offset without a wire.
    #[tactic(auto, using(crate::specs::Offsets::lowest_marked, crate::specs::Offsets::length_wires))]
    pub(crate) fn offset_ready(&self, port: SketchPort) -> usize
        ensures { result ≡ offset_ready (plan_of self.now) port }
    {
        let marks = self.wires.marks_of(port);
        let count = self.wires.count;
        lowest_unmarked(&marks[..count]).unwrap_or(count)
    }

    // One more than the highest wired offset; 0 where none is wired. Stays a number: so many subports reach up to that offset.
    pub(crate) fn above_wired(&self, port: SketchPort) -> usize
        ensures { result ≡ above_wired (spot_named port) (plan_of self.now).wires }
    {
        self.wires.above_wired(port)
    }
}
