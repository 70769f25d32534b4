// Every block of the used port table, by its first slot: who holds it, or that it is free.
ghost use Rattle.multiportgraph.specs.WellFormed.{MultiWf};

use lines::show::{Line, show_number};
use multiportgraph::multiportgraph::MultiPortGraph;
use port_tables::index::PORT_SLOTS;
use slots::listing::{SlotBlock, list_slots};

// A block that is listed: its first slot, its size, and the node that holds it or `free`.
fn show_block(rt: &impl Print, block: SlotBlock) {
    let line = Line::of(b" ").number(block.first).number(block.size);
    match block.holder {
        Some(node) => line.number(node.0).write(rt),
        None => line.with(b" free").write(rt),
    }
}

// The command that lists them.
pub(crate) fn show_slots(rt: &impl Print, graph: &MultiPortGraph)
    requires { MultiWf graph.now }
{
    let none = SlotBlock {
        first: 0,
        size: 0,
        holder: None,
    };
    let mut blocks = [none; PORT_SLOTS];
    let count = list_slots(graph, &mut blocks);
    for block in blocks.iter().take(count) {
        show_block(rt, *block);
    }
    show_number(rt, count as u64);
}
