// All wires, or all blocks, at once into a list that the caller lends, over the passes on tables.
ghost use Rattle.std.specs.Prelude.{◌≡◌, length};
ghost use Rattle.multiportgraph.specs.WellFormed.{MultiWf};
ghost use Rattle.multiportgraph.specs.Wires.{blocks, all_wires};
ghost use Rattle.multiportgraph.specs.Listed.{wires_listed, blocks_listed, list_after, list_answer};

use crate::list_ends::{ListTables, TooShort};
use crate::multiportgraph::MultiPortGraph;

impl MultiPortGraph {
    // The tables that a listing reads.
    pub(crate) fn list_tables(&self) -> ListTables<'_>
        ensures { (result.nodes.now ≡ self.now.graph.node_meta) × (result.wires.links.now ≡ self.now.graph.port_link) × (result.wires.owners.now ≡ self.now.graph.port_meta)
            × (result.wires.marks.now ≡ self.now.multiport) × (result.wires.flags.now ≡ self.now.copy_node) × (result.len ≡ self.now.graph.node_len) }
    {
        ListTables {
            nodes: self.graph.node_table(),
            wires: self.wire_tables(),
            len: self.graph.counts().node_len,
        }
    }

    // Lists all wires, in the order of the walk, with eight numbers each: port, offset, node and position of the outgoing end,
    // then of the incoming one. Numbers past the last wire keep their contents, and so does a list that is too short.
    pub fn list_wires(&self, list: &mut [u32]) -> Result<usize, TooShort>
        requires { MultiWf self.now }
        ensures { (result ≡ list_answer (length (all_wires self.now)) (wires_listed self.now) list.old) × (list.new ≡ list_after (wires_listed self.now) list.old) }
    {
        let count = self.link_count();
        self.list_tables().list_wires(count, list)
    }

    // Lists all blocks, by ascending number, with four numbers each: node, incoming and outgoing ports, and the first port, 0 for
    // a block without ports. Numbers past the last block keep their contents, and so does a list that is too short.
    pub fn list_blocks(&self, list: &mut [u32]) -> Result<usize, TooShort>
        requires { MultiWf self.now }
        ensures { (result ≡ list_answer (length (blocks self.now)) (blocks_listed self.now) list.old) × (list.new ≡ list_after (blocks_listed self.now) list.old) }
    {
        let count = self.node_count();
        self.list_tables().list_blocks(count, list)
    }
}
