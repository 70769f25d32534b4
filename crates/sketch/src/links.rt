// Links: of two ports, and of two ends.
use crate::orders::{Order, end_at, port_at};
use crate::replies::{show_refused_on, with_end};
use lines::show::Line;
use sketches::sketch::{Reason, SketchEnd};
use sketches::totals::Sketch;

// The answer of a link on a line that begins with what is given.
pub(crate) fn show_linked_on(
    rt: &impl Print,
    line: Line,
    answer: Result<(SketchEnd, SketchEnd), Reason>,
) {
    match answer {
        Ok((first, second)) => {
            let longer = with_end(line.with(b"ok"), first);
            with_end(longer, second).write(rt);
        }
        Err(reason) => show_refused_on(rt, line, reason),
    }
}

// Links two ports.
// Stays beside `link_clean`: one for both would take the call as a closure, and each would still name it.
pub(crate) fn link(rt: &impl Print, sketch: &mut Sketch, order: Order) {
    let linked = sketch.link(port_at(order, 0), port_at(order, 3));
    show_linked_on(rt, Line::of(b""), linked);
}

// The same; a refused link leaves nothing behind.
pub(crate) fn link_clean(rt: &impl Print, sketch: &mut Sketch, order: Order) {
    let linked = sketch.link_clean(port_at(order, 0), port_at(order, 3));
    show_linked_on(rt, Line::of(b""), linked);
}

// Links two ends.
pub(crate) fn link_subports(rt: &impl Print, sketch: &mut Sketch, order: Order) {
    let linked = sketch.link_subports(end_at(order, 0), end_at(order, 4));
    show_linked_on(rt, Line::of(b""), linked);
}
