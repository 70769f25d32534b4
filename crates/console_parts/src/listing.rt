// Walks: subports, links, neighbours and connections. One loop serves every walk.
ghost use Rattle.multiportgraph.specs.WellFormed.{MultiWf};

use crate::orders::{Command, Order, node_at, port_at};
use crate::replies::{show_count, with_place, with_subport};
use lines::named::sides_of;
use lines::show::Line;
use lines::walks::show_walk;
use multi_tables::answers::{Refusal, SubportIndex, SubportLink};
use multiportgraph::iter::{Neighbours, NodeConnections, NodeLinks, NodeSubports, PortLinks};
use multiportgraph::multiportgraph::MultiPortGraph;
use port_tables::index::{NodeIndex, PORT_SLOTS, PortRange};

// A link on a line: both ends, and node, side and position of the second.
fn show_link(rt: &impl Print, link: SubportLink) {
    let ends = with_subport(with_subport(Line::of(b" "), link.from), link.to);
    with_place(ends, link.place).write(rt);
}

// Every item of the walk that a command asks for, each on a line after two blanks, and how many there are; it is refused if the block or the port that it is asked of cannot be
// looked up. No walk has more than there are port slots.
fn show_items(rt: &impl Print, graph: &MultiPortGraph, order: Order) -> Result<usize, Refusal>
    requires { MultiWf graph.now }
{
    let node = node_at(order, 0);
    let port = port_at(order, 0);
    let sides = sides_of(order.number(1));
    Ok(match order.command {
        Command::Subports => show_walk(
            PORT_SLOTS,
            graph.subports(node, sides)?,
            |walk: NodeSubports| walk.step(graph),
            |subport: SubportIndex| with_subport(Line::of(b" "), subport).write(rt),
        ),
        Command::Links => show_walk(
            PORT_SLOTS,
            graph.port_links(port)?,
            |walk: PortLinks| walk.step(graph),
            |link: SubportLink| show_link(rt, link),
        ),
        Command::Back => show_walk(
            PORT_SLOTS,
            graph.port_links(port)?,
            |walk: PortLinks| walk.step_back(graph),
            |link: SubportLink| show_link(rt, link),
        ),
        Command::NodeLinks => {
            let skip = PortRange {
                from: order.number(2),
                to: order.number(3),
            };
            show_walk(
                PORT_SLOTS,
                graph.links(node, sides, skip)?,
                |walk: NodeLinks| walk.step(graph),
                |link: SubportLink| show_link(rt, link),
            )
        }
        Command::Neighbours => show_walk(
            PORT_SLOTS,
            graph.neighbours(node, sides, order.number(2) == 1)?,
            |walk: Neighbours| walk.step(graph),
            |node: NodeIndex| Line::of(b" ").number(node.0).write(rt),
        ),
        _ => show_walk(
            PORT_SLOTS,
            graph.get_connections(node, node_at(order, 1))?,
            |walk: NodeConnections| walk.step(graph),
            |link: SubportLink| show_link(rt, link),
        ),
    })
}

// A command that walks.
pub fn list(rt: &impl Print, graph: &MultiPortGraph, order: Order)
    requires { MultiWf graph.now }
{
    show_count(rt, show_items(rt, graph, order));
}
