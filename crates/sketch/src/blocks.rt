// Adding, removing and resizing a block.
use crate::orders::Order;
use crate::replies::{show_count, show_done};
use sketches::totals::Sketch;

pub(crate) fn add(rt: &impl Print, sketch: &mut Sketch, order: Order) {
    let added = sketch.add(order.number(0), order.number(1));
    show_count(rt, added.map(|name| name as usize));
}

pub(crate) fn remove(rt: &impl Print, sketch: &mut Sketch, order: Order) {
    show_done(rt, sketch.remove(order.number(0)));
}

pub(crate) fn resize(rt: &impl Print, sketch: &mut Sketch, order: Order) {
    show_done(
        rt,
        sketch.resize(order.number(0), order.number(1), order.number(2)),
    );
}
