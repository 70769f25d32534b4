// Saving a graph as a file: the units of its blocks, then those of its wires.
ghost use Rattle.std.specs.Prelude.{◌≡◌, map, ◌+◌, ◌*◌, ◌≤◌, length};
ghost use Rattle.std.proofs.lemmas.List.Edits.{sets};
ghost use Rattle.port_tables.specs.Limits.{node_slots, port_slots};
ghost use Rattle.multiportgraph.specs.Calls.{visible_nodes, visible_links};
ghost use Rattle.multiportgraph.specs.WellFormed.{MultiWf};
ghost use Rattle.files.specs.View.{rank_among, sorted};
ghost use Rattle.files.specs.Layout.{block_record, wire_record, units_for, units_of, file_length};
ghost use Rattle.files.specs.Saving.{save_answer, save_buffer};
ghost use Rattle.files.specs.Forms.{record_of, sorted_numbers, blocks_in, nodes_of, blocks_of, BlocksFit, wires_in, wires_of, Listings};

use crate::ranks::{block_numbers, fill_ranks, wire_numbers};
use crate::units::{UNIT_RECORDS, put_units, units_for};
use multiportgraph::multiportgraph::MultiPortGraph;
use port_tables::index::{MOST_WIRES, NODE_SLOTS};

// So many blocks and wires a small wiring has, and a middling one: shorter working lists are cleared faster.
const FEW: usize = UNIT_RECORDS;

const SOME: usize = 126;

// What their listings take: four numbers for a block, and eight for a wire.
const FEW_LISTED: usize = 4 * FEW;

const FEW_ENDS: usize = 8 * FEW;

const SOME_LISTED: usize = 4 * SOME;

const SOME_ENDS: usize = 8 * SOME;

const ALL_LISTED: usize = 4 * NODE_SLOTS;

const ALL_ENDS: usize = 8 * MOST_WIRES;

// No file is longer than this, so a buffer of so many bytes is never too short. What `units_for` says is written out, since a constant can call nothing.
pub const LONGEST_FILE: usize = 512 * ((NODE_SLOTS + 62) / 63 + (MOST_WIRES + 62) / 63);

// Refusal 15: the lent buffer is too short, and stayed as it was.
#[derive(Clone, Copy)]
pub struct BufferShort;

// The length of a file of so many blocks and wires.
#[tactic(auto, unfolding(crate::specs::Layout::units_for, crate::specs::Layout::file_length))]
pub(crate) fn file_length(blocks: usize, wires: usize) -> usize
    requires { (blocks ≤ port_slots) × (wires ≤ port_slots) }
    ensures { result ≡ file_length blocks wires }
{
    512 * (units_for(blocks) + units_for(wires))
}

// Lays the units of the blocks of a listing from the buffer's start on; answers the place after them.
fn put_blocks(listed: &[u32], numbers: &mut [u64], buffer: &mut [u8]) -> usize
    requires { (blocks_in listed.now ≤ length numbers.old) × BlocksFit listed.now × (512 * units_for (blocks_in listed.now) ≤ length buffer.old) }
    ensures { (result ≡ 512 * units_for (blocks_in listed.now))
        × (buffer.new ≡ sets buffer.old 0 (units_of 1 (map block_record (blocks_of listed.now)))) }
{
    block_numbers(listed, numbers);
    put_units(buffer, 0, 1, &numbers[..listed.len() / 4])
}

// Lays the units of wires from a place on, whose records as numbers come in any order.
fn put_sorted(numbers: &mut [u64], buffer: &mut [u8], at: usize)
    requires { at + 512 * units_for (length numbers.old) ≤ length buffer.old }
    ensures { buffer.new ≡ sets buffer.old at (units_of 2 (map record_of (sorted_numbers numbers.old))) }
{
    numbers.sort_unstable();
    put_units(buffer, at, 2, numbers);
}

// Lays the units of the wires of a listing from a place on, by the ranks of their blocks.
#[tactic(auto, using(crate::specs::SaveSteps::wire_records))]
fn put_wires<'a>(
    listed: &'a [u32],
    ends: &'a [u32],
    numbers: &mut [u64],
    buffer: &mut [u8],
    at: usize,
)
    requires { Listings listed.now ends.now node_slots × (wires_in ends.now ≤ length numbers.old) × (at + 512 * units_for (wires_in ends.now) ≤ length buffer.old) }
    ensures { buffer.new ≡ sets buffer.old at (units_of 2 (map wire_record (sorted (wires_of (rank_among (nodes_of listed.now)) ends.now)))) }
{
    let mut ranks = [0u32; NODE_SLOTS];
    fill_ranks(listed, &mut ranks);
    wire_numbers(ends, &ranks, numbers);
    put_sorted(&mut numbers[..ends.len() / 8], buffer, at);
}

// Lays the file of a graph from the buffer's start on, by lists of these lengths: what the listings of blocks and of wires take, and as many numbers of records.
// Three lengths, and the constants above: a const argument cannot be computed.
#[tactic(auto, unfolding(multiportgraph::specs::Calls::visible_nodes, multiportgraph::specs::Calls::visible_links), using(multiportgraph::specs::ListReads::few_blocks, crate::specs::SaveSteps::visible_links_few, crate::specs::SaveSteps::blocks_taken, crate::specs::SaveSteps::wires_taken, crate::specs::SaveSteps::saved))]
fn write_by<const LISTED: usize, const ENDS: usize, const NUMBERS: usize>(
    graph: &MultiPortGraph,
    buffer: &mut [u8],
)
    requires { MultiWf graph.now
        × (4 * visible_nodes graph.now ≤ LISTED)
        × (8 * visible_links graph.now ≤ ENDS)
        × (visible_nodes graph.now ≤ NUMBERS)
        × (visible_links graph.now ≤ NUMBERS)
        × (file_length (visible_nodes graph.now) (visible_links graph.now) ≤ length buffer.old)
        × (LISTED ≤ 65536) × (ENDS ≤ 65536) × (NUMBERS ≤ 65536) }
    ensures { buffer.new ≡ save_buffer graph.now buffer.old }
{
    let mut listed = [0u32; LISTED];
    let mut ends = [0u32; ENDS];
    let mut numbers = [0u64; NUMBERS];
    // The lists are long enough, so both are written.
    let _ = graph.list_blocks(&mut listed);
    let _ = graph.list_wires(&mut ends);
    let block_end = 4 * graph.node_count();
    let wire_end = 8 * graph.link_count();
    let next = put_blocks(&listed[..block_end], &mut numbers, buffer);
    put_wires(
        &listed[..block_end],
        &ends[..wire_end],
        &mut numbers,
        buffer,
        next,
    );
}

// Writes a graph to a lent buffer and answers the file's length; bytes past it keep their contents, and so does a buffer that is too short.
#[tactic(auto, unfolding(multiportgraph::specs::Calls::visible_nodes, multiportgraph::specs::Calls::visible_links), using(multiportgraph::specs::ListReads::few_blocks, crate::specs::SaveSteps::visible_links_few, crate::specs::SaveSteps::save_answered))]
pub fn save(graph: &MultiPortGraph, buffer: &mut [u8]) -> Result<usize, BufferShort>
    requires { MultiWf graph.now }
    ensures { (result ≡ save_answer graph.now buffer.old)
        × (buffer.new ≡ save_buffer graph.now buffer.old) }
{
    let blocks = graph.node_count();
    let wires = graph.link_count();
    let size = file_length(blocks, wires);
    if buffer.len() < size {
        return Err(BufferShort);
    }
    let most = blocks.max(wires);
    if most <= FEW {
        write_by::<FEW_LISTED, FEW_ENDS, FEW>(graph, buffer);
    } else if most <= SOME {
        write_by::<SOME_LISTED, SOME_ENDS, SOME>(graph, buffer);
    } else {
        write_by::<ALL_LISTED, ALL_ENDS, MOST_WIRES>(graph, buffer);
    }
    Ok(size)
}
