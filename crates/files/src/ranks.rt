// Records of blocks and wires as numbers, read off the listings of a graph; wires by the ranks of their blocks.
ghost use Rattle.std.specs.Prelude.{◌≡◌, ◌≤◌, ◌<◌, length, get_or};
ghost use Rattle.files.specs.Layout.{wire_record, FieldsFit};
ghost use Rattle.files.specs.Forms.{number_of, turns, blocks_in, BlocksFit, rank_turn, block_turn, wires_in, wire_listed, rank_read, WiresFit, wire_turn};

use crate::bytes::Fields;
use port_tables::tables::store;

// An entry of a table; 0 outside. Stays a number: the definitions read 0 there, so each caller would turn an Option into it. Stays beside `at` of the tables' crate,
// which is of a table with an entry for each port slot: these lists are of other lengths.
pub fn at(table: &[u32], i: usize) -> u32
    ensures { result ≡ get_or table.now i 0 }
{
    table.get(i).copied().unwrap_or(0)
}

// Enters the rank of each block of a listing. Here and below entries are stored by place: the definitions tell turn after turn what is stored where, also outside.
#[tactic(auto, using(crate::specs::TurnSteps::turned))]
pub(crate) fn fill_ranks(listed: &[u32], ranks: &mut [u32])
    requires { length listed.now ≤ 4294967295 }
    ensures { ranks.new ≡ turns (rank_turn listed.now) 0 (blocks_in listed.now) ranks.old }
{
    for (i, block) in listed.chunks_exact(4).enumerate() {
        store(ranks, block[0] as usize, i as u32);
    }
}

// The records of the blocks of a listing, as numbers.
// Stays beside that of wires: one for both would take what makes a number of an item as a closure, with its contract.
#[tactic(auto, using(crate::specs::TurnSteps::turned, crate::specs::TurnSteps::part_below, crate::specs::TurnSteps::part_number))]
pub(crate) fn block_numbers(listed: &[u32], numbers: &mut [u64])
    requires { (blocks_in listed.now ≤ length numbers.old) × BlocksFit listed.now }
    ensures { numbers.new ≡ turns (block_turn listed.now) 0 (blocks_in listed.now) numbers.old }
{
    for (i, block) in listed.chunks_exact(4).enumerate() {
        numbers[i] = Fields {
            a: block[1] as u16,
            b: block[2] as u16,
            c: 0,
            d: 0,
        }
        .number();
    }
}

// The record of a wire of a listing, as a number.
fn wire_number<'a>(wire: &'a [u32], ranks: &'a [u32]) -> u64
    requires { (8 ≤ length wire.now) × FieldsFit (wire_record (wire_listed (rank_read ranks.now) wire.now 0)) }
    ensures { result ≡ number_of (wire_record (wire_listed (rank_read ranks.now) wire.now 0)) }
{
    Fields {
        a: at(ranks, wire[2] as usize) as u16,
        b: wire[3] as u16,
        c: at(ranks, wire[6] as usize) as u16,
        d: wire[7] as u16,
    }
    .number()
}

// The records of the wires of a listing, as numbers.
#[tactic(auto, using(crate::specs::TurnSteps::turned, crate::specs::TurnSteps::part_below, crate::specs::TurnSteps::wire_part))]
pub(crate) fn wire_numbers<'a>(ends: &'a [u32], ranks: &'a [u32], numbers: &mut [u64])
    requires { (wires_in ends.now ≤ length numbers.old) × WiresFit ends.now ranks.now }
    ensures { numbers.new ≡ turns (wire_turn ends.now ranks.now) 0 (wires_in ends.now) numbers.old }
{
    for (i, wire) in ends.chunks_exact(8).enumerate() {
        numbers[i] = wire_number(wire, ranks);
    }
}
