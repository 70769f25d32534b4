// One command on the sketch, and the lines that answer it.

use crate::blocks::{add, remove, resize};
use crate::cuts::{show_link, tidy, unlink, unlink_subport};
use crate::help::show_help;
use crate::links::{link, link_clean, link_subports};
use crate::listing::list;
use crate::orders::{Command, Order, port_at};
use crate::replies::show_count;
use crate::sheet::link_sheet;
use lines::named::release_of;
use lines::show::{Line, write_bytes};
use sketches::totals::Sketch;

// An empty sketch.
fn begin(rt: &impl Print, sketch: &mut Sketch, order: Order) {
    write_bytes(rt, b"ok\n");
    sketch.begin(release_of(order.number(0)));
}

// A command; the text is that of its line.
// Stay three parameters: a struct of them would lend the sketch for as long as the order is read.
pub(crate) fn run(rt: &impl Print, sketch: &mut Sketch, order: Order, text: &[u8]) {
    match order.command {
        Command::Quit => {}
        Command::New => begin(rt, sketch, order),
        Command::Add => add(rt, sketch, order),
        Command::Remove => remove(rt, sketch, order),
        Command::Resize => resize(rt, sketch, order),
        Command::Link => link(rt, sketch, order),
        Command::LinkClean => link_clean(rt, sketch, order),
        Command::LinkSub => link_subports(rt, sketch, order),
        Command::Sheet => link_sheet(rt, sketch, order, text),
        Command::Unlink => unlink(rt, sketch, order),
        Command::UnlinkSub => unlink_subport(rt, sketch, order),
        Command::Tidy => tidy(rt, sketch, order),
        _ => look(rt, sketch, order),
    }
}

// How much there is.
fn show_counts(rt: &impl Print, sketch: &Sketch) {
    let counts = sketch.counts();
    Line::of(b"ok")
        .number(counts.blocks as u64)
        .number(counts.ports as u64)
        .number(counts.wires as u64)
        .write(rt);
}

// A command that looks at the sketch.
fn look(rt: &impl Print, sketch: &Sketch, order: Order) {
    match order.command {
        Command::SubLink => show_link(rt, sketch, order),
        Command::Counts => show_counts(rt, sketch),
        Command::FanOut => show_count(rt, sketch.fan_out(port_at(order, 0))),
        Command::BlockFanOut => show_count(rt, sketch.block_fan_out(order.number(0))),
        Command::Help => show_help(rt),
        _ => list(rt, sketch, order),
    }
}
