// A list of requests and a time for each node slot in; out the largest sum of times along wires that end at a block, or a path that has it.
ghost use Rattle.std.specs.Prelude.{◌≡◌, Err};
ghost use Rattle.multiportgraph.specs.WellFormed.{MultiWf};
ghost use Rattle.exports.specs.Exports.{graph_left};
ghost use Rattle.exports.specs.Timed.{longest_told, longest_return, path_told, path_return, path_written};

use crate::left::run_left;
use crate::told::{BAD_LENGTH, BAD_TIMES, BUFFER_SHORT, CYCLE, refusal_told};
use multiportgraph::multiportgraph::MultiPortGraph;
use port_tables::index::NodeIndex;
use port_tables::release::Release;
use timing::answers::{LongestError, PathListed};
use timing::longest::{longest, path};

// The graph that a list of requests leaves. Not inlined: the tables then do not lie on the stack while its wires are walked.
#[inline(never)]
fn graph_left(requests: &[u8]) -> MultiPortGraph
    ensures { (result ≡ graph_left requests.now) × MultiWf result }
{
    let mut graph = MultiPortGraph::new(Release::One);
    run_left(&mut graph, requests);
    graph
}

// A question without a largest sum, as one number.
fn error_told(error: LongestError) -> u64
    ensures { result ≡ longest_told (Err error) }
{
    match error {
        LongestError::Refused(refusal) => refusal_told(refusal),
        LongestError::BadTimes => BAD_TIMES,
        LongestError::Cycle => CYCLE,
    }
}

// What a question for the largest sum comes to, as one number.
fn longest_told(answer: Result<u32, LongestError>) -> u64
    ensures { result ≡ longest_told answer }
{
    match answer {
        Ok(sum) => u64::from(sum),
        Err(error) => error_told(error),
    }
}

// What a question for a path comes to, as one number: its blocks, or 15 if there is no room for so many.
fn path_told(listed: Result<PathListed, LongestError>, room: usize) -> u64
    ensures { result ≡ path_told listed room }
{
    match listed {
        Ok(path) if room < path.blocks => BUFFER_SHORT,
        Ok(path) => path.blocks as u64,
        Err(error) => error_told(error),
    }
}

// Runs a list of requests from an empty graph of release 1, past refused calls, and answers the largest sum of times along wires that end at a block of the graph that
// it leaves, the block's own time included; or 4,294,967,296 and the refusal: 1 if the length of the list is not a multiple of 20, 4 or 5 if the number names no block,
// 19 if there are not 1,024 times, 20 if a cycle can reach the block.
#[tactic(auto, unfolding(crate::specs::Timed::longest_return, crate::specs::Exports::list_whole))]
pub fn longest_of_records<'a>(requests: &'a [u8], times: &'a [u16], block: u32) -> u64
    ensures { result ≡ longest_return requests.now times.now block }
{
    if requests.len() % 20 != 0 {
        return BAD_LENGTH;
    }
    longest_told(longest(&graph_left(requests), NodeIndex(block), times))
}

// The same question, answered by the blocks along wires that have this sum, from the first to the one named, at the start of the lent list. How many they are, or
// 4,294,967,296 and the refusal: those of the sum, then 15 if the list is too short: 1,024 numbers are enough. A list of a refused question stays as it was.
#[tactic(auto, unfolding(crate::specs::Timed::path_return, crate::specs::Timed::path_written, crate::specs::Exports::list_whole))]
pub fn path_of_records<'a>(
    requests: &'a [u8],
    times: &'a [u16],
    block: u32,
    list: &mut [u32],
) -> u64
    ensures { (result ≡ path_return requests.now times.now block list.old)
        × (list.new ≡ path_written requests.now times.now block list.old) }
{
    if requests.len() % 20 != 0 {
        return BAD_LENGTH;
    }
    let room = list.len();
    path_told(
        path(&graph_left(requests), NodeIndex(block), times, list),
        room,
    )
}
