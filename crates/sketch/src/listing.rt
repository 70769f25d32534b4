// Walks: blocks, subports, wires and neighbours. One loop serves every walk. What is walked on both sides is walked on the incoming side first.
ghost use Rattle.std.specs.Prelude.{◌≤◌, IfOk};

use crate::items::{show_block, show_end, show_far_block, show_wire};
use crate::orders::{Command, Order, port_at};
use crate::replies::show_count;
use lines::named::sides_of;
use lines::walks::show_walk;
use port_tables::direction::Direction;
use port_tables::sides::Sides;
use sketches::sketch::{Reason, SketchEnd};
use sketches::tests::{Test, Walk};
use sketches::totals::Sketch;
use sketches::walks::{SketchWire, SubportWalk};

// More items than any walk has.
const MOST: usize = 4294967295;

// The wires of a walk, the end on a side first.
fn show_wires(rt: &impl Print, sketch: &Sketch, first: Walk, side: Direction) -> usize
    ensures { result ≤ 4294967295 }
{
    show_walk(
        MOST,
        first,
        |walk: Walk| sketch.next_wire(walk),
        |wire: SketchWire| show_wire(rt, wire, side),
    )
}

// Every item of the walk that a command asks for, on a side; it is refused if the block or the port that it is asked of is not there.
fn show_side(
    rt: &impl Print,
    sketch: &Sketch,
    order: Order,
    side: Direction,
) -> Result<usize, Reason>
    ensures { IfOk result (λ count. count ≤ 4294967295) }
{
    let first = order.number(0);
    Ok(match order.command {
        Command::Blocks => show_walk(
            MOST,
            sketch.blocks(),
            |walk: Walk| sketch.next_block(walk),
            |name: u32| show_block(rt, name),
        ),
        Command::Subports => show_walk(
            MOST,
            sketch.subports(first, side)?,
            |walk: SubportWalk| sketch.next_subport(walk),
            |end: SketchEnd| show_end(rt, end),
        ),
        Command::Wires => show_wires(rt, sketch, sketch.wires(Test::Every), side),
        Command::Links => show_wires(rt, sketch, sketch.links_of_port(port_at(order, 0))?, side),
        Command::Back => show_walk(
            MOST,
            sketch.links_of_port(port_at(order, 0))?,
            |walk: Walk| sketch.previous_wire(walk),
            |wire: SketchWire| show_wire(rt, wire, side),
        ),
        Command::NodeLinks => {
            let wires = sketch.wires_of_block(first, Test::Side(first, side))?;
            show_wires(rt, sketch, wires, side)
        }
        Command::Neighbours => {
            let test = Test::Neighbour(first, side, order.number(2) == 1);
            show_walk(
                MOST,
                sketch.wires_of_block(first, test)?,
                |walk: Walk| sketch.next_wire(walk),
                |wire: SketchWire| show_far_block(rt, wire, side),
            )
        }
        _ => {
            let second = order.number(1);
            let test = Test::Between(first, second);
            // Each start asks for one of the two blocks.
            sketch.wires_of_block(first, test)?;
            show_wires(rt, sketch, sketch.wires_of_block(second, test)?, side)
        }
    })
}

// The sides that a command names; blocks, connections and all wires are walked from the outgoing side.
fn sides_named(order: Order) -> Sides {
    match order.command {
        Command::Blocks | Command::Connections | Command::Wires => Sides::One(Direction::Outgoing),
        _ => sides_of(order.number(1)),
    }
}

// Every item of a walk on each side that is named, and how many there are.
fn show_items(rt: &impl Print, sketch: &Sketch, order: Order) -> Result<usize, Reason> {
    if let Sides::One(side) = sides_named(order) {
        return show_side(rt, sketch, order, side);
    }
    let incoming = show_side(rt, sketch, order, Direction::Incoming)?;
    Ok(incoming + show_side(rt, sketch, order, Direction::Outgoing)?)
}

// A command that walks.
pub(crate) fn list(rt: &impl Print, sketch: &Sketch, order: Order) {
    show_count(rt, show_items(rt, sketch, order));
}
