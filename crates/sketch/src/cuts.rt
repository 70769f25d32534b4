// Cuts, what an end is linked with, and tidying.
use crate::orders::{Order, end_at, port_at};
use crate::replies::{show_done, show_refused, with_end, with_port};
use lines::show::Line;
use sketches::sketch::Reason;
use sketches::totals::Sketch;

// What was found, on a line that it is written behind, if it is there.
fn show_found<T, F: FnOnce(Line, T) -> Line>(
    rt: &impl Print,
    answer: Result<Option<T>, Reason>,
    with: F,
)
    requires { F.IsAlwaysCallable with }
{
    match answer {
        Ok(Some(found)) => with(Line::of(b"ok 1"), found).write(rt),
        Ok(None) => Line::of(b"ok 0").write(rt),
        Err(reason) => show_refused(rt, reason),
    }
}

// Cuts all wires at a port.
pub(crate) fn unlink(rt: &impl Print, sketch: &mut Sketch, order: Order) {
    show_found(rt, sketch.cut(port_at(order, 0)), with_port);
}

// Cuts the wire at an end.
pub(crate) fn unlink_subport(rt: &impl Print, sketch: &mut Sketch, order: Order) {
    show_found(rt, sketch.cut_subport(end_at(order, 0)), with_end);
}

pub(crate) fn tidy(rt: &impl Print, sketch: &mut Sketch, order: Order) {
    show_done(rt, sketch.tidy(port_at(order, 0)));
}

// What an end is linked with.
pub(crate) fn show_link(rt: &impl Print, sketch: &Sketch, order: Order) {
    show_found(rt, sketch.subport_link(end_at(order, 0)), with_end);
}
