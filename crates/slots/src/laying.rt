// Each block of a graph lays its size, and who has it, at its first slot in two tables.
ghost use Rattle.std.specs.Prelude.{◌≡◌, [], ◌∷◌, ◌<◌, replicate};
ghost use Rattle.port_tables.specs.Limits.{node_slots, port_slots};
ghost use Rattle.port_tables.specs.NodeTable.{meta_in};
ghost use Rattle.slots.specs.Blocks.{slot_block, holder_of, node_holds};
ghost use Rattle.slots.specs.Forms.{taken_in, list_from, free_in, LaysBoth};

use port_tables::index::{FREE_LISTS, NODE_PORTS, NODE_SLOTS, PORT_SLOTS};
use port_tables::node_entry::NodeSlot;
use port_tables::node_table::meta_in;
use port_tables::numbers::wide;
use port_tables::tables::{at, head_at, put};

// The size of each block that is laid, and who has it, at its first slot: 0 for a free one, else one higher than the node. Stay numbers in two
// arrays: they are laid and read by `put` and `at` of the tables' crate, and one array of structs would need both again, with their definitions.
#[derive(Drop)]
pub(crate) struct Laid {
    pub(crate) sizes: [u32; PORT_SLOTS],
    pub(crate) holders: [u32; PORT_SLOTS],
}

impl Laid {
    // Nothing is laid.
    pub(crate) fn new() -> Self
        ensures { (result.sizes ≡ replicate port_slots 0) × (result.holders ≡ replicate port_slots 0) }
    {
        Laid {
            sizes: [0u32; PORT_SLOTS],
            holders: [0u32; PORT_SLOTS],
        }
    }

    // Lays one block.
    fn lay_block(&mut self, first: u32, size: u32, holder: u32)
        ensures { LaysBoth (slot_block first size (holder_of holder) ∷ []) self.old.sizes self.old.holders self.new.sizes self.new.holders }
    {
        let slot = wide(first);
        put(&mut self.sizes, slot, size);
        put(&mut self.holders, slot, holder);
    }

    // Lays the block that a node holds, if it is live and has one.
    #[tactic(auto, using(crate::specs::LaySteps::node_block))]
    fn lay_node(&mut self, nodes: &[NodeSlot; NODE_SLOTS], node: u32)
        requires { node < node_slots }
        ensures { LaysBoth (node_holds node (meta_in nodes.now node)) self.old.sizes self.old.holders self.new.sizes self.new.holders }
    {
        let Some(meta) = meta_in(nodes, node) else {
            return;
        };
        if meta.capacity == 0 {
            return;
        }
        self.lay_block(meta.first_port.0, meta.capacity as u32, node + 1);
    }

    // Lays the blocks that the nodes of a table hold.
    // Over the numbers: `meta_in` reads a node by its number.
    #[tactic(auto, using(crate::specs::LaySteps::range_done))]
    pub(crate) fn lay_nodes(&mut self, nodes: &[NodeSlot; NODE_SLOTS])
        ensures { LaysBoth (taken_in nodes.now) self.old.sizes self.old.holders self.new.sizes self.new.holders }
    {
        for n in 0..NODE_SLOTS {
            self.lay_node(nodes, n as u32);
        }
    }

    // Lays the blocks of a free list, from its head on. The head and each link are one higher than the slot, 0 for none, as the tables have them.
    #[tactic(auto, using(crate::specs::LaySteps::list_done, crate::specs::LaySteps::list_out))]
    fn lay_list(&mut self, links: &[u32; PORT_SLOTS], head: u32, size: u32)
        ensures { LaysBoth (list_from links.now head size port_slots) self.old.sizes self.old.holders self.new.sizes self.new.holders }
    {
        let mut next = head;
        for _count in 0..PORT_SLOTS {
            let Some(first) = next.checked_sub(1) else {
                return;
            };
            self.lay_block(first, size, 0);
            next = at(links, wide(first));
        }
    }

    // Lays the blocks of all free lists. Over the sizes: they begin with 1, and each is told to its list.
    #[tactic(auto, using(crate::specs::LaySteps::range_done))]
    pub(crate) fn lay_lists<'a>(
        &mut self,
        links: &'a [u32; PORT_SLOTS],
        heads: &'a [u32; FREE_LISTS],
    )
        ensures { LaysBoth (free_in links.now heads.now) self.old.sizes self.old.holders self.new.sizes self.new.holders }
    {
        for size in 1..=NODE_PORTS {
            let head = head_at(heads, size);
            self.lay_list(links, head, size as u32);
        }
    }
}
