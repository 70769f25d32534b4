// One command on the graph, and the lines that answer it.
ghost use Rattle.multiportgraph.specs.WellFormed.{MultiWf};

use crate::help::show_help;
use crate::sheet::link_pairs;
use crate::slot_list::show_slots;
use console_parts::cuts::{show_cut, show_link};
use console_parts::fetch::load_from;
use console_parts::listing::list;
use console_parts::merging::merge_as;
use console_parts::orders::{Command, Order, node_at, port_at, subport_at};
use console_parts::replies::{show_answer, show_count};
use console_parts::resize::resize_block;
use console_parts::store::save_as;
use console_parts::tidy::tidy;
use console_parts::whole::{list_blocks, list_wires, with_places, with_wire};
use lines::named::release_of;
use lines::show::write_bytes;
use multiportgraph::multiportgraph::MultiPortGraph;
use records::ask::{answer, cut_port, cut_subport, empty, link_clean};
use records::requests::Ask;
use std::fs::Files;

// What a request asks, and so many values of its answer.
fn request(rt: &impl Print, graph: &mut MultiPortGraph, asked: Ask, values: usize)
    requires { MultiWf graph.old }
    ensures { MultiWf graph.new }
{
    let told = answer(*graph, asked);
    *graph = told.graph;
    show_answer(rt, told.answer, values);
}

fn link_cleanly(rt: &impl Print, graph: &mut MultiPortGraph, order: Order)
    requires { MultiWf graph.old }
    ensures { MultiWf graph.new }
{
    let told = link_clean(*graph, order.number(0), order.number(1));
    *graph = told.graph;
    show_answer(rt, told.answer, 4);
}

// An empty wiring of the release that the order names, 1 or 2.
fn begin(rt: &impl Print, graph: &mut MultiPortGraph, order: Order)
    ensures { MultiWf graph.new }
{
    write_bytes(rt, b"ok\n");
    *graph = empty(release_of(order.number(0)));
}

// A command that changes the graph, or asks for what a request asks; the text is that of its line. The graph is lent; only a command whose call takes it by value copies it.
// Stay three parameters: a struct of them would be made in one place, and taken apart by each arm.
pub(crate) fn run(rt: &(impl Files + Print), graph: &mut MultiPortGraph, order: Order, text: &[u8])
    requires { MultiWf graph.old }
    ensures { MultiWf graph.new }
{
    match order.command {
        Command::Quit => {}
        Command::Resize => *graph = resize_block(rt, *graph, order),
        Command::Sheet => *graph = link_pairs(rt, *graph, order, text),
        Command::Load => *graph = load_from(rt, *graph, order, text),
        Command::New => begin(rt, graph, order),
        Command::Remove => request(rt, graph, Ask::Remove(node_at(order, 0)), 0),
        Command::Add => request(rt, graph, Ask::Add(order.number(0), order.number(1)), 2),
        Command::Unlink => *graph = show_cut(rt, cut_port(*graph, order.number(0))),
        Command::UnlinkSub => *graph = show_cut(
            rt,
            cut_subport(*graph, order.number(0), order.offset(1)),
        ),
        Command::Counts => request(rt, graph, Ask::Counts, 3),
        Command::Link => {
            request(
                rt,
                graph,
                Ask::Link(port_at(order, 0), port_at(order, 1)),
                4,
            )
        }
        Command::LinkSub => {
            let asked = Ask::LinkSubports(subport_at(order, 0), subport_at(order, 2));
            request(rt, graph, asked, 4)
        }
        Command::LinkClean => link_cleanly(rt, graph, order),
        Command::Tidy => *graph = tidy(rt, *graph, order),
        _ => look(rt, graph, order, text),
    }
}

// A command that looks at the graph.
fn look(rt: &(impl Files + Print), graph: &MultiPortGraph, order: Order, text: &[u8])
    requires { MultiWf graph.now }
{
    match order.command {
        Command::SubLink => show_link(rt, graph, order),
        Command::FanOut => show_count(rt, graph.port_fan_out(port_at(order, 0))),
        Command::BlockFanOut => show_count(rt, graph.node_fan_out(node_at(order, 0))),
        Command::Save => save_as(rt, graph, order, text),
        Command::Merge => merge_as(rt, order, text),
        Command::Help => show_help(rt),
        Command::Slots => show_slots(rt, graph),
        Command::Blocks => list_blocks(rt, graph),
        Command::Wires => list_wires(rt, graph, with_wire),
        Command::Places => list_wires(rt, graph, with_places),
        _ => list(rt, graph, order),
    }
}
