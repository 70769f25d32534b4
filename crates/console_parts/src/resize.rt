// Changing the number of ports of a block, with its move list.
ghost use Rattle.multiportgraph.specs.WellFormed.{MultiWf};

use crate::orders::Order;
use crate::replies::{show_refusal, with_numbers};
use lines::show::{Line, show_number};
use multiportgraph::multiportgraph::MultiPortGraph;
use port_tables::index::MOVES;
use records::ask::resize;

// An event: the port, the kind, and the new port or the old link.
fn show_move(rt: &impl Print, event: &[u32]) {
    with_numbers(Line::of(b" "), event).write(rt);
}

pub fn resize_block(rt: &impl Print, graph: MultiPortGraph, order: Order) -> MultiPortGraph
    requires { MultiWf graph }
    ensures { MultiWf result }
{
    let mut moves = [0u32; MOVES];
    let sized = resize(
        graph,
        order.number(0),
        order.number(1),
        order.number(2),
        &mut moves,
    );
    match sized.answer {
        Ok(events) => {
            for event in moves.chunks_exact(3).take(events) {
                show_move(rt, event);
            }
            show_number(rt, events as u64);
        }
        Err(refusal) => show_refusal(rt, refusal),
    }
    sized.graph
}
