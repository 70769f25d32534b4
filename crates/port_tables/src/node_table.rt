// The node table, one slot at a time.
ghost use Rattle.std.specs.Prelude.{◌≡◌};
ghost use Rattle.port_tables.specs.Entries.{next_of};
ghost use Rattle.port_tables.specs.NodeTable.{slot_in, put_slot, meta_in};

use crate::index::NODE_SLOTS;
use crate::node_entry::{NodeMeta, NodeSlot};
use crate::numbers::wide;

// A slot of the node table; a free one outside.
// Stays beside `at`, and `put_slot` beside `put`, as `head_at` in `tables`: each says its own table's definition; no plainer.
#[tactic(auto)]
pub fn slot_in(nodes: &[NodeSlot; NODE_SLOTS], n: usize) -> NodeSlot
    ensures { result ≡ slot_in nodes.now n }
{
    nodes.get(n).copied().unwrap_or(NodeSlot::new_free(0, 0))
}

// Stores a slot of the node table; outside nothing changes. Tests and indexes, as `put` does.
#[tactic(auto, unfolding(crate::specs::NodeTable::put_slot))]
pub fn put_slot(nodes: &mut [NodeSlot; NODE_SLOTS], n: usize, slot: NodeSlot)
    ensures { nodes.new ≡ put_slot nodes.old n slot }
{
    if n < NODE_SLOTS {
        nodes[n] = slot;
    }
}

// The next free entry after one; 0 for none, and for a node.
// A table's word stays as it is held, one higher than the number, 0 for none: it is stored again as it is, and the definitions read it so.
pub fn next_in(nodes: &[NodeSlot; NODE_SLOTS], n: usize) -> u32
    ensures { result ≡ next_of (slot_in nodes.now n).entry }
{
    slot_in(nodes, n).next_free()
}

// The meta data of a node, if it is live.
pub fn meta_in(nodes: &[NodeSlot; NODE_SLOTS], node: u32) -> Option<NodeMeta>
    ensures { result ≡ meta_in nodes.now node }
{
    slot_in(nodes, wide(node)).meta()
}
