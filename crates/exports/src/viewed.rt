// A list of requests in, what a page is drawn from out: the blocks with their counts and first port, and all wires by port and place.
ghost use Rattle.std.specs.Prelude.{◌≡◌, [], ◌∷◌, ◌+◌, ◌*◌, ◌≤◌, length};
ghost use Rattle.std.proofs.lemmas.List.Edits.{sets};
ghost use Rattle.multiportgraph.specs.WellFormed.{MultiWf};
ghost use Rattle.multiportgraph.specs.Calls.{visible_nodes, visible_links};
ghost use Rattle.multiportgraph.specs.Listed.{blocks_listed, wires_listed, list_after};
ghost use Rattle.records.specs.Words.{bytes_of};
ghost use Rattle.exports.specs.Viewed.{view_bytes, view_told, view_return, view_written};

use crate::left::run_left;
use crate::told::{BAD_LENGTH, BUFFER_SHORT};
use multiportgraph::multiportgraph::MultiPortGraph;
use port_tables::index::{MOST_WIRES, NODE_SLOTS};
use port_tables::release::Release;
use records::words::put_words;

// So many words the blocks take at most, and the wires.
const BLOCK_WORDS: usize = 4 * NODE_SLOTS;

const WIRE_WORDS: usize = 8 * MOST_WIRES;

// Lays the blocks of a lent graph from a byte position on.
// Stay two, this and the next: one for both would take the list as a closure, with its contract, and how many words an item has: longer than both.
#[tactic(auto, using(files::specs::SaveSteps::blocks_first, files::specs::SaveSteps::blocks_long, multiportgraph::specs::ListReads::few_blocks))]
fn put_blocks(left: &MultiPortGraph, view: &mut [u8], at: usize)
    requires { MultiWf left.now
        × (at + 16 * visible_nodes left.now ≤ length view.old) }
    ensures { view.new ≡ sets view.old at (bytes_of (blocks_listed left.now)) }
{
    let mut list = [0u32; BLOCK_WORDS];
    // The list is long enough, so all are written, and the answer is their count: an `Err` would have to be told away.
    let _ = left.list_blocks(&mut list);
    put_words(view, at, &list[..4 * left.node_count()]);
}

// Lays the wires of a lent graph from a byte position on.
#[tactic(auto, using(files::specs::SaveSteps::wires_first, files::specs::SaveSteps::wires_long, files::specs::SaveSteps::visible_links_few))]
fn put_wires(left: &MultiPortGraph, view: &mut [u8], at: usize)
    requires { MultiWf left.now
        × (at + 32 * visible_links left.now ≤ length view.old) }
    ensures { view.new ≡ sets view.old at (bytes_of (wires_listed left.now)) }
{
    let mut list = [0u32; WIRE_WORDS];
    // The list is long enough, so all are written, and the answer is their count: an `Err` would have to be told away.
    let _ = left.list_wires(&mut list);
    put_words(view, at, &list[..8 * left.link_count()]);
}

// Writes the view of a lent graph and answers its length, or 4,294,967,296 and 15 if the buffer is too short, which then stays as it was.
#[tactic(auto, using(multiportgraph::specs::ListReads::few_blocks, files::specs::SaveSteps::visible_links_few, crate::specs::ViewedSteps::counts_long, crate::specs::ViewedSteps::listing_long, crate::specs::ViewedSteps::view_length, crate::specs::ViewedSteps::view_done), unfolding(crate::specs::Viewed::view_told, multiportgraph::specs::Listed::list_after))]
fn view_in(left: &MultiPortGraph, view: &mut [u8]) -> u64
    requires { MultiWf left.now }
    ensures { (result ≡ view_told left.now view.old)
        × (view.new ≡ list_after (view_bytes left.now) view.old) }
{
    let blocks = left.node_count();
    let wires = left.link_count();
    let second = 8 + 16 * blocks;
    let size = second + 32 * wires;
    if view.len() < size {
        return BUFFER_SHORT;
    }
    put_words(view, 0, &[blocks as u32, wires as u32]);
    put_blocks(left, view, 8);
    put_wires(left, view, second);
    size as u64
}

// Runs a list of requests from an empty graph of release 1, past refused calls, and writes the view of the graph that it leaves: little-endian words, first the numbers
// of blocks and wires; then for each block, by ascending number, node, incoming, outgoing and first port; then for each wire, in the order of the list of all wires,
// port, offset, node and position of its outgoing end and of its incoming end. The view's length, or 4,294,967,296 and the refusal: 1 if the length of the list is not a
// multiple of 20, 15 if the buffer is too short, which then stays as it was.
#[tactic(auto, unfolding(crate::specs::Viewed::view_return, crate::specs::Viewed::view_written, crate::specs::Exports::list_whole))]
pub fn view_of_records(requests: &[u8], view: &mut [u8]) -> u64
    ensures { (result ≡ view_return requests.now view.old)
        × (view.new ≡ view_written requests.now view.old) }
{
    if requests.len() % 20 != 0 {
        return BAD_LENGTH;
    }
    let mut graph = MultiPortGraph::new(Release::One);
    run_left(&mut graph, requests);
    view_in(&graph, view)
}
