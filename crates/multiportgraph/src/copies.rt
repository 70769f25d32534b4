// Hidden nodes: one goes with its port, and a node whose ports move keeps its marks.
ghost use Rattle.std.specs.Prelude.{◌≡◌, ◌+◌, ◌-◌, ◌≤◌, length, Some};
ghost use Rattle.std.proofs.lemmas.List.Edits.{sets};
ghost use Rattle.port_tables.specs.Limits.{port_slots};
ghost use Rattle.port_tables.specs.ResizeLinks.{BlockFits};
ghost use Rattle.portgraph.specs.Lookups.{meta_at};
ghost use Rattle.portgraph.specs.Resize.{dropped};
ghost use Rattle.portgraph.specs.Model.{Wf};
ghost use Rattle.multiportgraph.specs.Graph.{with_marks};
ghost use Rattle.multiportgraph.specs.HiddenNodes.{remove_copy, remove_lone, remove_all, unsplit, unsplit_range, copies_in, copies_dropped, marks_moved};

use crate::ends::port_of;
use crate::multiportgraph::MultiPortGraph;
use multi_tables::marks::{Recount, put_flag, put_marks};
use port_tables::index::NodeIndex;
use port_tables::node_entry::NodeMeta;
use port_tables::numbers::wide;
use port_tables::resize_links::Resize;

impl MultiPortGraph {
    // The hidden node of a split port goes, with every link at it.
    #[tactic(auto, using(crate::specs::CopySteps::copy_removed))]
    pub(crate) fn remove_copy(&mut self, port: u32, node: u32)
        requires { Wf self.old.graph }
        ensures { self.new ≡ remove_copy self.old port node }
    {
        let side = self.copy_side(node);
        let copy = port_of(&self.graph, node, side, 0);
        let count = self.graph.num_ports(NodeIndex(node), side.reverse());
        // Of a node that is not live nothing goes.
        let _ = self.graph.remove_node_lent(NodeIndex(node));
        put_marks(&mut self.multiport, copy, false, port, false);
        put_flag(&mut self.copy_node, wide(node), false);
        self.copy_node_count = self.copy_node_count.saturating_sub(1);
        self.subport_count = self.subport_count.saturating_sub(count);
    }

    // A port of a block loses its hidden node, if it has one.
    #[tactic(auto, using(crate::specs::CodeFormSteps::split_told, crate::specs::CopySteps::unsplit_split, crate::specs::CopySteps::unsplit_plain))]
    pub(crate) fn unsplit(&mut self, port: u32)
        requires { Wf self.old.graph }
        ensures { self.new ≡ unsplit self.old port }
    {
        if self.is_split(port) {
            self.remove_copy(port, self.copy_node_of(port));
        }
    }

    // `count` ports from `first` on lose their hidden nodes, the first one first. Counts from 0: the definition goes by the number of
    // ports, and a range of the ports is no plainer.
    #[tactic(auto, unfolding(crate::specs::HiddenNodes::unsplit_range), using(crate::specs::BlockSteps::unsplit_turn, crate::specs::BlockSteps::wf_unsplit_is))]
    pub(crate) fn unsplit_range(&mut self, first: u32, count: usize)
        requires { Wf self.old.graph × (first + count ≤ port_slots) }
        ensures { self.new ≡ unsplit_range self.old first count }
    {
        for k in 0..count {
            self.unsplit(first + k as u32);
        }
    }

    // A hidden node whose split port is gone already.
    #[tactic(auto, unfolding(crate::specs::HiddenNodes::remove_lone))]
    fn remove_lone(&mut self, node: u32)
        requires { Wf self.old.graph }
        ensures { self.new ≡ remove_lone self.old node }
    {
        let copy = port_of(&self.graph, node, self.copy_side(node), 0);
        self.remove_copy(copy, node);
    }

    // The hidden nodes of a list go, in order; the ports that they hung on are gone already.
    #[tactic(auto, unfolding(crate::specs::HiddenNodes::remove_all), using(crate::specs::BlockSteps::remove_turn, crate::specs::BlockSteps::wf_lone_is))]
    pub(crate) fn remove_all(&mut self, list: &[u32])
        requires { Wf self.old.graph }
        ensures { self.new ≡ remove_all self.old list.now }
    {
        for node in list {
            self.remove_lone(*node);
        }
    }

    // The single-link graph has other counts for a node than these meta data: the marks move with its ports.
    pub(crate) fn recount(&mut self, node: NodeIndex, before: NodeMeta)
        requires { Wf self.old.graph × BlockFits before }
        ensures { self.new ≡ with_marks self.old (marks_moved self.old.multiport (Some before) (meta_at self.old.graph node.0)) }
    {
        if let Some(after) = self.graph.node_meta_valid(node) {
            let recount = Recount { before, after };
            recount.lay_marks(&mut self.multiport);
        }
    }

    // Lists the hidden nodes of `count` ports from `first` on, in order, at a list's front, and answers how many: the list is lent, so that nobody has to clear one
    // of his own.
    // The place in the list is counted by hand: only split ports take one.
    #[tactic(auto, using(crate::specs::BlockSteps::copies_start))]
    fn copies_in(&self, list: &mut [u32], first: usize, count: usize) -> usize
        requires { (first + count ≤ port_slots) × (count ≤ length list.old) }
        ensures { (result ≡ length (copies_in self.now first count)) × (list.new ≡ sets list.old 0 (copies_in self.now first count)) × (result ≤ count) }
    {
        let mut place: usize = 0;
        for (k, split) in self.multiport[first..first + count].iter().enumerate() {
            if *split {
                list[place] = self.copy_node_of((first + k) as u32);
                place += 1;
            }
        }
        place
    }

    // Lists the hidden nodes of the ports that are dropped, in the order in which these are reported, and answers how many.
    pub(crate) fn copies_dropped(&self, list: &mut [u32], resize: Resize) -> usize
        requires { BlockFits resize.meta × (dropped resize.meta resize.incoming resize.outgoing ≤ length list.old) }
        ensures { (result ≡ length (copies_dropped self.now resize.meta resize.incoming resize.outgoing)) × (list.new ≡ sets list.old 0 (copies_dropped self.now resize.meta resize.incoming resize.outgoing)) }
    {
        let meta = resize.meta;
        let first = meta.first();
        let old_in = meta.incoming();
        let old_out = meta.outgoing();
        let kept_in = resize.kept_incoming();
        let kept_out = resize.kept_outgoing();
        let middle = self.copies_in(list, first + kept_in, old_in - kept_in);
        let last = first + old_in + kept_out;
        middle + self.copies_in(&mut list[middle..], last, old_out - kept_out)
    }
}
