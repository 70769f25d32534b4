// The largest sum of times along wires that end at a block, and a path that has it.
ghost use Rattle.std.specs.Prelude.{◌≡◌, OnOk};
ghost use Rattle.multiportgraph.specs.WellFormed.{MultiWf};
ghost use Rattle.timing.specs.Longest.{feeds_in, longest_of, longest_numbers};
ghost use Rattle.timing.specs.Settling.{unsettled, settled};
ghost use Rattle.timing.specs.Path.{path_listed, path_after, sum_of};

use crate::answers::{LongestError, PathListed};
use crate::path::put_path;
use crate::settle::Settling;
use crate::tables::wires_in;
use multiportgraph::multiportgraph::MultiPortGraph;
use port_tables::index::{MOST_WIRES, NODE_SLOTS, NodeIndex};
use port_tables::numbers::wide;

// Blocks are settled along the wires of a graph; answers the largest sum that ends at one. Not inlined: the list of the wires then does not lie on the stack while a caller
// makes the graph.
#[inline(never)]
#[tactic(auto, using(crate::specs::AnswerSteps::refused_answer, crate::specs::AnswerSteps::times_wrong, crate::specs::AnswerSteps::sum_answer, crate::specs::AnswerSteps::wires_listed_few, crate::specs::AnswerSteps::settled_walked))]
fn settle_graph(
    settling: &mut Settling,
    graph: &MultiPortGraph,
    block: NodeIndex,
    times: &[u16],
) -> Result<u32, LongestError>
    requires { MultiWf graph.now × (settling.old ≡ unsettled) }
    ensures answer { result ≡ longest_of graph.now block.0 times.now }
    ensures walked { OnOk result (settling.new ≡ settled (feeds_in graph.now) times.now) }
{
    graph.node_port_capacity(block)?;
    if times.len() != NODE_SLOTS {
        return Err(LongestError::BadTimes);
    }
    let mut ends = [0u32; 8 * MOST_WIRES];
    settling.settle(wires_in(graph, &mut ends), times);
    settling.sum_at(times, wide(block.0))
}

// The largest sum of times along wires ending at the block, its own time included. The list has a time in microseconds for each node slot.
pub fn longest(graph: &MultiPortGraph, block: NodeIndex, times: &[u16]) -> Result<u32, LongestError>
    requires { MultiWf graph.now }
    ensures { (result ≡ longest_of graph.now block.0 times.now) × (longest_numbers result ≡ longest_numbers (longest_of graph.now block.0 times.now)) }
{
    let mut settling = Settling::new();
    settle_graph(&mut settling, graph, block, times)
}

// Lists a path that has the largest sum, from its first block to the one named, at the start of a list that the caller lends: 1,024 numbers
// are enough. A list that is too short for the path stays as it is.
#[tactic(auto, unfolding(crate::specs::Path::path_listed, crate::specs::Path::path_after, crate::specs::Path::path_of, crate::specs::Settling::path_among))]
pub fn path(
    graph: &MultiPortGraph,
    block: NodeIndex,
    times: &[u16],
    list: &mut [u32],
) -> Result<PathListed, LongestError>
    requires { MultiWf graph.now }
    ensures { (result ≡ path_listed graph.now block.0 times.now) × (list.new ≡ path_after graph.now block.0 times.now list.old)
        × (longest_numbers (sum_of result) ≡ longest_numbers (longest_of graph.now block.0 times.now)) }
{
    let mut settling = Settling::new();
    let sum = settle_graph(&mut settling, graph, block, times)?;
    let blocks = put_path(&settling.origin, block.0, list);
    Ok(PathListed { sum, blocks })
}
