// A whole sheet of links from one line: six numbers, a port and a port, are an entry.

use crate::links::show_linked_on;
use crate::orders::Order;
use crate::replies::show_too_many;
use lines::show::{Line, show_number};
use lines::text::{next_word, number_or_zero};
use sketches::sheet::{SHEET_PLACES, no_entry};
use sketches::sketch::{SheetEntry, SketchPort};
use sketches::tests::side_of;
use sketches::totals::Sketch;

// The port that the next three numbers of a line name, and where they end.
fn read_port(text: &[u8], from: usize) -> (SketchPort, usize) {
    let block = next_word(text, from);
    let side = next_word(text, block.to);
    let position = next_word(text, side.to);
    let port = SketchPort {
        block: number_or_zero(text, block),
        side: side_of(number_or_zero(text, side)),
        position: number_or_zero(text, position),
    };
    (port, position.to)
}

// The entries of a line from a place on. Stays beside that of the console of a wiring: what is read is each one's own, and the rest is three lines.
fn put_entries(sheet: &mut [SheetEntry], text: &[u8], from: usize) {
    let mut at = from;
    for entry in sheet {
        let (from, end) = read_port(text, at);
        let (to, next) = read_port(text, end);
        *entry = SheetEntry {
            from,
            to,
            ..no_entry()
        };
        at = next;
    }
}

// The answers of the first entries.
fn show_entries(rt: &impl Print, entries: &[SheetEntry], count: usize) {
    for entry in entries.iter().take(count) {
        show_linked_on(rt, Line::of(b"  "), entry.answer);
    }
}

// A command that links the entries of a line, one after the other: the first places, as many as there are entries, and all of them where a line has more. Stays in both consoles, as the entries do: the call and the answers are each one's own.
pub(crate) fn link_sheet(rt: &impl Print, sketch: &mut Sketch, order: Order, text: &[u8]) {
    let mut places = [no_entry(); SHEET_PLACES];
    put_entries(&mut places, text, order.from);
    match sketch.link_first(&mut places, order.entries) {
        Ok(()) => {
            show_entries(rt, &places, order.entries);
            show_number(rt, order.entries as u64);
        }
        Err(reason) => show_too_many(rt, reason),
    }
}
