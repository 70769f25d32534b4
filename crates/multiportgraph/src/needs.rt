// What the ends of a link need, and whether there is room for both: read off the graph, before anything changes.
ghost use Rattle.std.specs.Prelude.{◌≡◌, ◌≤◌};
ghost use Rattle.port_tables.specs.Limits.{node_slots, port_slots};
ghost use Rattle.portgraph.specs.Lookups.{meta_at};
ghost use Rattle.multiportgraph.specs.Presumed.{OnBlock};
ghost use Rattle.multiportgraph.specs.Needs.{copy_need_in, need_of, GrowsFew, takes_of, next_free, nodes_left, head_left, ports_left, room_for};

use crate::multiportgraph::MultiPortGraph;
use multi_tables::marks::flagged;
use multi_tables::named::free_end;
use multi_tables::seen::SidedPort;
use port_tables::direction::Direction;
use port_tables::index::{NODE_SLOTS, NodeIndex, PORT_SLOTS};
use port_tables::node_entry::NodeMeta;
use port_tables::node_table::next_in;
use port_tables::numbers::wide;
use port_tables::resize_links::round_up;
use port_tables::sides::{Sides, ports_from};
use port_tables::tables::{at, far_in, head_at, owner_in};
use portgraph::alloc::{grown, rest_of};

// What the end that a link of this port takes needs. The inner port and its offset stay two numbers: the definitions and the laws of a need match on both, and
// would take a pair apart; no plainer.
#[derive(Clone, Copy)]
pub enum Need {
    // Nothing: the inner port and its offset.
    Ready(u32, u16),
    // One more subport of this hidden node, which has these meta data.
    Grow(NodeIndex, NodeMeta),
    // A hidden node.
    Split,
}

// What is taken for an end, and what is free then.
#[derive(Clone, Copy, Default)]
pub struct Takes {
    // A node slot is taken.
    pub node: bool,
    // The size of the block that is taken, and of the one that is free then; 0 for none. Stay numbers: a block of no slots takes none.
    pub take: usize,
    pub give: usize,
}

// What is taken for an end with this need.
pub(crate) fn takes_of(need: Need) -> Takes
    requires { GrowsFew need }
    ensures { result ≡ takes_of need }
{
    match need {
        Need::Grow(_, meta) if meta.capacity() <= meta.port_count() + 1 => Takes {
            node: false,
            take: round_up(meta.port_count() + 1),
            give: meta.capacity(),
        },
        Need::Ready(_, _) | Need::Grow(_, _) => Takes::default(),
        Need::Split => Takes {
            node: true,
            take: 3,
            give: 0,
        },
    }
}

impl MultiPortGraph {
    // The lowest unlinked subport of a hidden node, else one more.
    #[tactic(auto, unfolding(multi_tables::specs::NamedEnds::free_end))]
    fn copy_need(&self, direction: Direction, node: u32) -> Need
        ensures { result ≡ copy_need_in self.now.graph.port_link direction node (meta_at self.now.graph node) }
    {
        let Some(meta) = self.graph.node_meta_valid(NodeIndex(node)) else {
            return Need::Split;
        };
        let first = ports_from(meta, Sides::One(direction));
        let count = meta.num_ports(direction);
        let Some((end, offset)) = free_end(self.graph.link_table(), first, count) else {
            return Need::Grow(NodeIndex(node), meta);
        };
        Need::Ready(end, offset)
    }

    // What the end that a link of this port takes needs.
    #[tactic(auto, unfolding(crate::specs::Needs::need_in), using(crate::specs::NeedLaws::need_told))]
    pub(crate) fn need_of(&self, port: SidedPort) -> Need
        requires { OnBlock self.now port.port port.side }
        ensures { result ≡ need_of self.now port.port port.side }
    {
        let slot = wide(port.port);
        let links = self.graph.link_table();
        if flagged(&self.multiport, slot) {
            let node = owner_in(self.graph.owner_table(), far_in(links, slot));
            return self.copy_need(port.side, node);
        }
        if at(links, slot) == 0 {
            return Need::Ready(port.port, 0);
        }
        Need::Split
    }

    // The first free node entry after one is taken, one higher than its number; 0 for none.
    // A table's word stays as it is held, one higher than the number, 0 for none: it is stored again as it is, and the definitions read it so.
    fn next_free(&self) -> u32
        ensures { result ≡ next_free self.now.graph }
    {
        let free = self.graph.counts().node_free;
        rest_of(
            free,
            next_in(self.graph.node_table(), wide(free).saturating_sub(1)),
        )
    }

    // The used length of the node table after both ends took what they take.
    #[tactic(auto, using(crate::specs::NeedSteps::grown_little))]
    fn nodes_left(&self, first: bool, second: bool) -> usize
        requires { self.now.graph.node_len ≤ node_slots }
        ensures { result ≡ nodes_left self.now.graph first second }
    {
        let counts = self.graph.counts();
        let free = counts.node_free;
        let len = counts.node_len;
        match (first, second) {
            (false, false) => len,
            (true, false) | (false, true) => grown(free, len, 1),
            (true, true) => grown(self.next_free(), grown(free, len, 1), 1),
        }
    }

    // The first free block of a size, one higher than its first slot, after the first end took and gave; 0 for none.
    // A table's word, as that of `next_free`.
    fn head_left(&self, first: Takes, size: usize) -> u32
        ensures { result ≡ head_left self.now.graph first size }
    {
        if size == first.give {
            return 1;
        }
        let head = head_at(self.graph.head_table(), size);
        if size != first.take {
            return head;
        }
        rest_of(
            head,
            at(self.graph.link_table(), wide(head).saturating_sub(1)),
        )
    }

    // The used length of the port tables after both ends took what they take.
    #[tactic(auto, using(crate::specs::NeedSteps::grown_little))]
    fn ports_left(&self, first: Takes, second: Takes) -> usize
        requires { (self.now.graph.port_len ≤ port_slots) × (first.take ≤ port_slots) × (second.take ≤ port_slots) }
        ensures { result ≡ ports_left self.now.graph first second }
    {
        let head = head_at(self.graph.head_table(), first.take);
        let after = grown(head, self.graph.counts().port_len, first.take);
        grown(self.head_left(first, second.take), after, second.take)
    }

    // Whether there is room for both ends of a link, one after the other.
    #[tactic(auto, unfolding(crate::specs::Needs::room_for))]
    pub(crate) fn room_for(&self, first: Takes, second: Takes) -> bool
        requires { (self.now.graph.node_len ≤ node_slots) × (self.now.graph.port_len ≤ port_slots) × (first.take ≤ port_slots) × (second.take ≤ port_slots) }
        ensures { result ≡ room_for self.now.graph first second }
    {
        self.nodes_left(first.node, second.node) <= NODE_SLOTS
            && self.ports_left(first, second) <= PORT_SLOTS
    }
}
