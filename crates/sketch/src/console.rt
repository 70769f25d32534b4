// The console: it hears a line, runs it on the sketch, and hears the next.
use crate::commands::run;
use crate::orders::{Command, order_of};
use lines::listening::{Listener, ROOM};
use port_tables::release::Release;
use sketches::totals::Sketch;

// A loop has to end, and nothing says that the input does: so it has as many turns as no run uses up.
// Stays in both consoles: the graph's invariant would be said again as the closure's.
fn converse(rt: &(impl Print + Input), sketch: &mut Sketch, buffer: &mut [u8], echo: bool) {
    let mut listener = Listener::new(echo);
    let mut input = rt.reader();
    for _turn in 0..u64::MAX {
        if let Some(heard) = listener.listen(rt, &mut input, buffer) {
            if let Some(order) = order_of(rt, heard) {
                if order.command == Command::Quit {
                    return;
                }
                run(rt, sketch, order, heard.text);
            }
        }
        if listener.ended {
            return;
        }
    }
}

// Commands from standard input, from an empty sketch of release 1 on.
pub(crate) fn read_and_run(rt: &(impl Print + Input), echo: bool) {
    let mut sketch = Sketch::new(Release::One);
    let mut buffer = [0u8; ROOM];
    converse(rt, &mut sketch, &mut buffer, echo);
}
