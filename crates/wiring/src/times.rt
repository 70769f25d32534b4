// Times of node slots, in microseconds, and what is asked of them: the largest sum along wires, a path that has it, and run orders.
ghost use Rattle.multiportgraph.specs.WellFormed.{MultiWf};

use crate::commands::run;
use console_parts::orders::{Command, Order, node_at};
use console_parts::replies::{Reason, show_refusal, show_refusal_number};
use lines::show::{Line, show_number, write_bytes};
use lines::text::{next_word, number_or_zero};
use multiportgraph::multiportgraph::MultiPortGraph;
use port_tables::index::NODE_SLOTS;
use port_tables::numbers::wide;
use std::fs::Files;
use timing::answers::LongestError;
use timing::longest::{longest, path};
use timing::order::run_order;

// One number more than there are blocks, so that an order that is too long can be lent.
const NAMED: usize = NODE_SLOTS + 1;

// The time of a slot, both as the order says.
fn set_time(rt: &impl Print, times: &mut [u16; NODE_SLOTS], order: Order) {
    let slot = wide(order.number(0));
    if let Some(place) = times.get_mut(slot)
        && let Ok(time) = u16::try_from(order.number(1))
    {
        *place = time;
    }
    write_bytes(rt, b"ok\n");
}

fn show_sum(rt: &impl Print, answer: Result<u32, LongestError>) {
    match answer {
        Ok(sum) => show_number(rt, sum as u64),
        Err(LongestError::Refused(refusal)) => show_refusal(rt, refusal),
        Err(LongestError::BadTimes) => show_refusal_number(rt, Reason::BadTimes),
        Err(LongestError::Cycle) => show_refusal_number(rt, Reason::Cycle),
    }
}

// A block with its time.
fn show_block(rt: &impl Print, block: u32, times: &[u16]) {
    let time = times.get(wide(block)).copied().unwrap_or(0);
    Line::of(b" ").number(block).number(time).write(rt);
}

fn show_path(rt: &impl Print, graph: &MultiPortGraph, order: Order, times: &[u16; NODE_SLOTS])
    requires { MultiWf graph.now }
{
    let mut blocks = [0u32; NODE_SLOTS];
    match path(graph, node_at(order, 0), times, &mut blocks) {
        Ok(found) => {
            for block in blocks.iter().take(found.blocks) {
                show_block(rt, *block, times);
            }
            show_sum(rt, Ok(found.sum));
        }
        Err(error) => show_sum(rt, Err(error)),
    }
}

// The numbers of a line from a place on, as many as fit.
fn put_numbers(numbers: &mut [u32; NAMED], text: &[u8], from: usize) {
    let mut word = next_word(text, from);
    for number in numbers {
        *number = number_or_zero(text, word);
        word = next_word(text, word.to);
    }
}

fn show_run_order(rt: &impl Print, graph: &MultiPortGraph, order: Order, text: &[u8])
    requires { MultiWf graph.now }
{
    let mut numbers = [0u32; NAMED];
    put_numbers(&mut numbers, text, order.from);
    // Of a line with more numbers all that fit are asked for: the order is too long with them.
    let yes = run_order(graph, &numbers[..order.entries.min(NAMED)]);
    show_number(rt, yes as u64);
}

// One command: on times, or on the graph.
pub(crate) fn run_timed(
    rt: &(impl Files + Print),
    graph: &mut MultiPortGraph,
    order: Order,
    text: &[u8],
    times: &mut [u16; NODE_SLOTS],
)
    requires { MultiWf graph.old }
    ensures { MultiWf graph.new }
{
    match order.command {
        Command::Time => set_time(rt, times, order),
        Command::Longest => show_sum(rt, longest(graph, node_at(order, 0), times)),
        Command::Path => show_path(rt, graph, order, times),
        Command::RunOrder => show_run_order(rt, graph, order, text),
        _ => run(rt, graph, order, text),
    }
}
