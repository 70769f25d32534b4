// The console: it hears a line, runs it, and hears the next.
use crate::times::run_timed;
use console_parts::orders::{Command, order_of};
use lines::listening::{Listener, ROOM};
use port_tables::index::NODE_SLOTS;
use port_tables::release::Release;
use records::ask::empty;
use std::fs::Files;

// A loop has to end, and nothing says that the input does: so it has as many turns as no run uses up.
// Stays in both consoles: the graph's invariant would be said again as the closure's.
fn converse(rt: &(impl Files + Print + Input), buffer: &mut [u8], echo: bool) {
    let mut graph = empty(Release::One);
    let mut times = [0u16; NODE_SLOTS];
    let mut listener = Listener::new(echo);
    let mut input = rt.reader();
    for _turn in 0..u64::MAX {
        if let Some(heard) = listener.listen(rt, &mut input, buffer) {
            if let Some(order) = order_of(rt, heard) {
                if order.command == Command::Quit {
                    return;
                }
                run_timed(rt, &mut graph, order, heard.text, &mut times);
            }
        }
        if listener.ended {
            return;
        }
    }
}

// Commands from standard input, from an empty graph of release 1 on.
pub(crate) fn read_and_run(rt: &(impl Files + Print + Input), echo: bool) {
    let mut buffer = [0u8; ROOM];
    converse(rt, &mut buffer, echo);
}
