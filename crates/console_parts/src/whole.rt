// All blocks, and all wires, listed at once: the graph is passed once, however many there are.
ghost use Rattle.std.specs.Prelude.{◌<◌};
ghost use Rattle.multiportgraph.specs.WellFormed.{MultiWf};

use lines::show::{Line, show_number, write_bytes};
use multiportgraph::list_ends::TooShort;
use multiportgraph::multiportgraph::MultiPortGraph;
use port_tables::index::MOST_WIRES;

// Room for all wires, eight numbers each; all blocks, four numbers each, fit too.
const ROOM: usize = 8 * MOST_WIRES;

// A block by its number.
fn with_block(line: Line, numbers: &[u32]) -> Line {
    match numbers {
        [block, ..] => line.number(*block),
        _ => line,
    }
}

// A wire by its ports, each with its offset, and node, side and position of the second, which is an input.
pub fn with_wire(line: Line, numbers: &[u32]) -> Line {
    match numbers {
        [from, from_offset, _, _, to, to_offset, node, position] => line
            .number(*from)
            .number(*from_offset)
            .number(*to)
            .number(*to_offset)
            .number(*node)
            .number(0u32)
            .number(*position),
        _ => line,
    }
}

// A wire by the places of its ports: node, position and offset.
pub fn with_places(line: Line, numbers: &[u32]) -> Line {
    match numbers {
        [
            _,
            from_offset,
            from_node,
            from_position,
            _,
            offset,
            node,
            position,
        ] => line
            .number(*from_node)
            .number(*from_position)
            .number(*from_offset)
            .number(*node)
            .number(*position)
            .number(*offset),
        _ => line,
    }
}

// The items of a listing, so many numbers each, and how many there are.
fn show_listed<F: Fn(Line, &[u32]) -> Line>(
    rt: &impl Print,
    listed: Result<usize, TooShort>,
    numbers: &[u32],
    size: usize,
    with: F,
)
    requires { (0 < size) × F.IsAlwaysCallable with }
{
    match listed {
        Ok(count) => {
            for item in numbers.chunks_exact(size).take(count) {
                with(Line::of(b" "), item).write(rt);
            }
            show_number(rt, count as u64);
        }
        Err(TooShort(_)) => write_bytes(rt, b"the listing is too long\n"),
    }
}

// All blocks.
pub fn list_blocks(rt: &impl Print, graph: &MultiPortGraph)
    requires { MultiWf graph.now }
{
    let mut numbers = [0u32; ROOM];
    let listed = graph.list_blocks(&mut numbers);
    show_listed(rt, listed, &numbers, 4, with_block);
}

// All wires, each with what is to be shown of it.
pub fn list_wires<F: Fn(Line, &[u32]) -> Line>(rt: &impl Print, graph: &MultiPortGraph, with: F)
    requires { MultiWf graph.now × F.IsAlwaysCallable with }
{
    let mut numbers = [0u32; ROOM];
    let listed = graph.list_wires(&mut numbers);
    show_listed(rt, listed, &numbers, 8, with);
}
