// The blocks of a graph by first slot.
ghost use Rattle.std.specs.Prelude.{◌≡◌, length};
ghost use mathlib.Core.List.{map};
ghost use Rattle.std.proofs.lemmas.List.Edits.{sets};
ghost use Rattle.port_tables.specs.Limits.{port_slots};
ghost use Rattle.multiportgraph.specs.WellFormed.{MultiWf};
ghost use Rattle.slots.specs.Blocks.{holder_of, node_of, walk_blocks, block_told, slot_list, slots_told};
ghost use Rattle.slots.specs.Forms.{list_in};

use crate::laying::Laid;
use multiportgraph::multiportgraph::MultiPortGraph;
use port_tables::index::{NodeIndex, PORT_SLOTS};
use port_tables::numbers::wide;
use port_tables::tables::at;
use portgraph::portgraph::PortGraph;

// A block of port slots: its first slot, its size, and the node that holds it; none holds a free block.
#[derive(Clone, Copy)]
pub struct SlotBlock {
    pub first: u32,
    pub size: u32,
    pub holder: Option<NodeIndex>,
}

// The node that a laid number names.
fn node_of(number: u32) -> Option<NodeIndex>
    ensures { result ≡ node_of (holder_of number) }
{
    number.checked_sub(1).map(NodeIndex)
}

// Walks what is laid from slot 0 on, until no size is; answers how many blocks there are.
// Stays a range: of what `iter_mut` lends, a proof keeps what was written only where every place is gone through, and this walk stops before.
#[tactic(auto, using(crate::specs::LaySteps::laid_inside, crate::specs::LaySteps::walk_done, crate::specs::LaySteps::walk_out))]
fn walk(laid: &Laid, list: &mut [SlotBlock; PORT_SLOTS]) -> usize
    ensures { (result ≡ length (walk_blocks laid.now.sizes laid.now.holders 0 port_slots))
        × (list.new ≡ sets list.old 0 (map block_told (walk_blocks laid.now.sizes laid.now.holders 0 port_slots))) }
{
    let mut slot: usize = 0;
    for count in 0..PORT_SLOTS {
        let size = at(&laid.sizes, slot);
        if size == 0 {
            return count;
        }
        let holder = at(&laid.holders, slot);
        list[count] = SlotBlock {
            first: slot as u32,
            size,
            holder: node_of(holder),
        };
        slot += wide(size);
    }
    PORT_SLOTS
}

// Lists the blocks of a single-link graph.
#[tactic(auto, using(crate::specs::LaySteps::laid_all, crate::specs::LaySteps::listed_so))]
fn list_in(graph: &PortGraph, list: &mut [SlotBlock; PORT_SLOTS]) -> usize
    ensures { (result ≡ length (list_in graph.now.node_meta graph.now.port_link graph.now.port_free))
        × (list.new ≡ sets list.old 0 (map block_told (list_in graph.now.node_meta graph.now.port_link graph.now.port_free))) }
{
    let mut laid = Laid::new();
    laid.lay_nodes(graph.node_table());
    laid.lay_lists(graph.link_table(), graph.head_table());
    walk(&laid, list)
}

// Lists every block of a graph's used port table by its first slot, and answers how many there are. What stands past the last
// block stays.
// Stays a lent list with a count: no library has a heap.
pub fn list_slots(graph: &MultiPortGraph, list: &mut [SlotBlock; PORT_SLOTS]) -> usize
    requires { MultiWf graph.now }
    ensures { (result ≡ length (slot_list graph.now.graph)) × (list.new ≡ sets list.old 0 (slots_told graph.now.graph)) }
{
    list_in(graph.as_portgraph(), list)
}
