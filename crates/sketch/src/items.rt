// Items of a listing, each on a line after two blanks: a block, an end, or a wire with the end that is asked for first.
use crate::replies::with_end;
use lines::show::Line;
use port_tables::direction::Direction;
use sketches::sketch::SketchEnd;
use sketches::walks::SketchWire;

pub(crate) fn show_block(rt: &impl Print, name: u32) {
    Line::of(b" ").number(name).write(rt);
}

pub(crate) fn show_end(rt: &impl Print, end: SketchEnd) {
    with_end(Line::of(b" "), end).write(rt);
}

// A wire, the end on a side first.
pub(crate) fn show_wire(rt: &impl Print, wire: SketchWire, side: Direction) {
    let (near, far) = match side {
        Direction::Incoming => (wire.into, wire.out),
        Direction::Outgoing => (wire.out, wire.into),
    };
    with_end(with_end(Line::of(b" "), near), far).write(rt);
}

// The block at the far end of a wire, seen from a side.
pub(crate) fn show_far_block(rt: &impl Print, wire: SketchWire, side: Direction) {
    let far = match side {
        Direction::Incoming => wire.out,
        Direction::Outgoing => wire.into,
    };
    show_block(rt, far.port.block);
}
