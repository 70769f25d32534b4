// All blocks of a graph in one pass, by ascending number: number, incoming and outgoing ports, first port.
ghost use Rattle.std.specs.Prelude.{◌≡◌, ◌+◌, ◌*◌, ◌≤◌, length};
ghost use Rattle.std.proofs.lemmas.List.Edits.{sets};
ghost use Rattle.port_tables.specs.Limits.{node_slots};
ghost use Rattle.multiportgraph.specs.Listed.{list_after, list_answer};
ghost use Rattle.multiportgraph.specs.ListScans.{port_of_meta, node_block, table_blocks};

use crate::list_ends::{ListTables, TooShort, put_front};
use port_tables::node_entry::NodeMeta;
use port_tables::numbers::wide;

// The first port of a block; 0 for a block without ports. Stays a number: a listing has it.
#[tactic(auto, unfolding(crate::specs::ListScans::port_of_meta))]
fn port_of_meta(meta: NodeMeta) -> u32
    ensures { result ≡ port_of_meta meta }
{
    if meta.port_count() == 0 {
        0
    } else {
        meta.first_port.0
    }
}

impl ListTables<'_> {
    // Lists the block of a node slot at a list's front, if it has one; answers how many numbers that took.
    #[tactic(auto, unfolding(crate::specs::ListScans::node_block), using(crate::specs::ListSteps::block_none, crate::specs::ListSteps::block_some))]
    fn list_block(self, list: &mut [u32], node: u32) -> usize
        requires { length (node_block self.nodes.now self.wires.flags.now node) ≤ length list.old }
        ensures { (result ≡ length (node_block self.entry.nodes.now self.entry.wires.flags.now node))
            × (list.new ≡ sets list.old 0 (node_block self.entry.nodes.now self.entry.wires.flags.now node)) }
    {
        let Some(meta) = self.block(node) else {
            return 0;
        };
        let first = port_of_meta(meta);
        put_front(
            list,
            &[
                node,
                u32::from(meta.incoming),
                u32::from(meta.outgoing),
                first,
            ],
        );
        4
    }

    // Lists the blocks of all used node slots, from the list's start on.
    // Stays a loop, as those of `list_wires`, and beside that over the same slots: what is written of each is its own.
    #[tactic(auto, unfolding(crate::specs::ListScans::table_blocks), using(crate::specs::ListSteps::begun, crate::specs::ListSteps::item_fits, crate::specs::ListSteps::item_room, crate::specs::ListSteps::items_written))]
    fn list_slots(self, list: &mut [u32])
        requires { (self.len ≤ node_slots) × (length (table_blocks self.nodes.now self.wires.flags.now self.len) ≤ length list.old) }
        ensures { list.new ≡ sets list.old 0 (table_blocks self.entry.nodes.now self.entry.wires.flags.now self.entry.len) }
    {
        let mut next: usize = 0;
        for node in 0..self.len {
            next += self.list_block(&mut list[next..], node as u32);
        }
    }

    // Lists all blocks, which are so many; a list that is too short stays as it was.
    #[tactic(auto, using(crate::specs::ListSteps::short_told, crate::specs::ListSteps::short_kept, crate::specs::ListSteps::full_told, crate::specs::ListSteps::full_written))]
    pub(crate) fn list_blocks(self, count: usize, list: &mut [u32]) -> Result<usize, TooShort>
        requires { (self.len ≤ node_slots) × (4 * count ≡ length (table_blocks self.nodes.now self.wires.flags.now self.len)) × (count ≤ node_slots) }
        ensures { (result ≡ list_answer count (table_blocks self.entry.nodes.now self.entry.wires.flags.now self.entry.len) list.old) × (list.new ≡ list_after (table_blocks self.entry.nodes.now self.entry.wires.flags.now self.entry.len) list.old) }
    {
        let needed = 4 * count;
        if list.len() < needed {
            return Err(TooShort(needed));
        }
        self.list_slots(list);
        Ok(count)
    }
}
