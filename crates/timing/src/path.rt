// A path back from a block, by the blocks that the largest sums come from.
ghost use Rattle.std.specs.Prelude.{◌≡◌, [], ◌-◌, ◌<◌, length, drop};
ghost use Rattle.port_tables.specs.Limits.{node_slots};
ghost use Rattle.multiportgraph.specs.Listed.{list_after};
ghost use Rattle.timing.specs.Settling.{path_back};

use files::ranks::at;
use port_tables::index::NODE_SLOTS;
use port_tables::numbers::wide;
use port_tables::tables::store;

// Lays the path at a list's end, the block named last; answers where it begins. Stays a range: of what `iter_mut` lends back to front, a proof keeps the length alone.
fn path_back<'a>(origin: &'a [u32], block: u32, back: &mut [u32]) -> usize
    requires { length back.old ≡ node_slots }
    ensures { (result < node_slots) × (drop result back.new ≡ path_back origin.now (node_slots - 1) block []) }
{
    let mut n = block;
    for k in (1..NODE_SLOTS).rev() {
        store(back, k, n);
        let from = at(origin, wide(n));
        if from == 0 {
            return k;
        }
        n = from - 1;
    }
    store(back, 0, n);
    0
}

// Copies numbers to a list's start; one that is too short stays as it is.
#[tactic(auto, unfolding(multiportgraph::specs::Listed::list_after), using(files::specs::MergeAnswers::buffer_filled, multiportgraph::specs::ListSteps::short_kept))]
fn copy_in<'a>(numbers: &'a [u32], list: &mut [u32])
    ensures { list.new ≡ list_after numbers.now list.old }
{
    if numbers.len() <= list.len() {
        list[..numbers.len()].copy_from_slice(numbers);
    }
}

// Lists the path; answers how many blocks it has.
pub(crate) fn put_path<'a>(origin: &'a [u32], block: u32, list: &mut [u32]) -> usize
    ensures { (result ≡ length (path_back origin.now (node_slots - 1) block [])) × (list.new ≡ list_after (path_back origin.now (node_slots - 1) block []) list.old) }
{
    let mut back = [0u32; NODE_SLOTS];
    let from = path_back(origin, block, &mut back);
    copy_in(&back[from..], list);
    NODE_SLOTS - from
}
