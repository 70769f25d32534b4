// Adding and removing blocks, and changing their counts.
ghost use Rattle.std.specs.Prelude.{◌≡◌, ◌≤◌, length};
ghost use Rattle.portgraph.specs.Resize.{dropped};
ghost use Rattle.multiportgraph.specs.Calls.{added_as, add_block, remove_block, set_as, set_counts, moves_told};
ghost use Rattle.multiportgraph.specs.WellFormed.{MultiWf};
ghost use Rattle.multiportgraph.specs.HiddenNodes.{enough};
ghost use Rattle.multiportgraph.specs.Presumed.{Resizes};
ghost use Rattle.multiportgraph.specs.Answers.{add_numbers, remove_numbers, set_numbers};

use crate::multiportgraph::{MultiPortGraph, NodeAdded, NodeRemoved, PortsSet};
use multi_tables::answers::Refusal;
use port_tables::index::{NODE_PORTS, NodeIndex, PortIndex};
use port_tables::resize_links::{Resize, too_many_ports};
use portgraph::alloc::AddError;
use portgraph::resize::SetError;

// What the lower graph answers to an added node, as this graph answers it.
// Stays a function: From would have to stand in the crate of one of the two types, and neither knows the other.
pub fn added_as(
    answer: Result<(NodeIndex, PortIndex), AddError>,
) -> Result<(NodeIndex, PortIndex), Refusal>
    ensures { result ≡ added_as answer }
{
    answer.map_err(|error| match error {
        AddError::TooManyPorts => Refusal::TooManyPorts,
        AddError::NoRoom => Refusal::NoRoom,
    })
}

// What a change of counts answers, where the single-link graph answers this.
// Stays a function: From would have to stand in the crate of one of the two types, and neither knows the other.
pub fn set_answer(lower: Result<usize, SetError>) -> Result<usize, Refusal>
    ensures { result ≡ set_as lower }
{
    lower.map_err(|error| match error {
        SetError::TooManyPorts => Refusal::TooManyPorts,
        SetError::UnknownNode => Refusal::UnknownNode,
        SetError::MovesTooShort => Refusal::MovesTooShort,
        SetError::NoRoom => Refusal::NoRoom,
    })
}

// A resize that drops no more ports than this lists their hidden nodes in a short list, since a long one costs more to clear.
const FEW: usize = 16;

// How many ports of a node are dropped.
#[tactic(auto)]
fn dropped(resize: Resize) -> usize
    ensures { result ≡ dropped resize.meta resize.incoming resize.outgoing }
{
    (resize.meta.incoming() - resize.kept_incoming())
        + (resize.meta.outgoing() - resize.kept_outgoing())
}

impl MultiPortGraph {
    // Adds a block with a block of exactly incoming + outgoing slots.
    pub fn add_node(mut self, incoming: usize, outgoing: usize) -> NodeAdded
        requires { MultiWf self }
        ensures { (result ≡ add_block self incoming outgoing) × (add_numbers result.answer ≡ add_numbers (add_block self incoming outgoing).answer) }
    {
        let answer = self.add_lent(incoming, outgoing);
        NodeAdded {
            graph: self,
            answer,
        }
    }

    // The same in place.
    #[tactic(auto, using(crate::specs::CallSteps::added_graph, crate::specs::CallSteps::added_answer, portgraph::specs::Numbered::and_numbers))]
    pub fn add_lent(
        &mut self,
        incoming: usize,
        outgoing: usize,
    ) -> Result<(NodeIndex, PortIndex), Refusal>
        requires { MultiWf self.old }
        ensures { (self.new ≡ (add_block self.old incoming outgoing).graph)
            × (result ≡ (add_block self.old incoming outgoing).answer)
            × (add_numbers result ≡ add_numbers (add_block self.old incoming outgoing).answer) }
    {
        added_as(self.graph.add_node_lent(incoming, outgoing))
    }

    // Removes a block with every wire at it.
    pub fn remove_node(mut self, node: NodeIndex) -> NodeRemoved
        requires { MultiWf self }
        ensures { (result ≡ remove_block self node.0) × (remove_numbers result.answer ≡ remove_numbers (remove_block self node.0).answer) }
    {
        let answer = self.remove_lent(node);
        NodeRemoved {
            graph: self,
            answer,
        }
    }

    // The same in place: the hidden nodes of its ports go, then the block.
    #[tactic(auto, unfolding(crate::specs::Calls::remove_block, crate::specs::Calls::drop_block, crate::specs::CodeForms::block_found), using(crate::specs::BlockSteps::wf_bare))]
    pub fn remove_lent(&mut self, node: NodeIndex) -> Result<(), Refusal>
        requires { MultiWf self.old }
        ensures { (self.new ≡ (remove_block self.old node.0).graph)
            × (result ≡ (remove_block self.old node.0).answer)
            × (remove_numbers result ≡ remove_numbers (remove_block self.old node.0).answer) }
    {
        let meta = self.block(node)?;
        self.unsplit_range(meta.first_port.0, meta.port_count());
        // The node is live, so it is removed.
        let _ = self.graph.remove_node_lent(node);
        Ok(())
    }

    // Changes the number of ports of a block; the move list is as the single-link graph has it.
    pub fn set_num_ports(
        mut self,
        node: NodeIndex,
        incoming: usize,
        outgoing: usize,
        moves: &mut [u32],
    ) -> PortsSet
        requires { MultiWf self }
        ensures { (result ≡ set_counts self node.0 incoming outgoing (length moves.old))
            × (moves.new ≡ moves_told self node.0 incoming outgoing moves.old)
            × (set_numbers result.answer ≡ set_numbers (set_counts self node.0 incoming outgoing (length moves.old)).answer) }
    {
        let answer = self.set_lent(node, incoming, outgoing, moves);
        PortsSet {
            graph: self,
            answer,
        }
    }

    // In place. Stays beside `resize_listing`: the call below it takes the move list and tests it, and one over that call would take it as a closure, with its
    // contract; no plainer. The hidden nodes are listed in an array with their number: there is no heap.
    fn set_lent(
        &mut self,
        node: NodeIndex,
        incoming: usize,
        outgoing: usize,
        moves: &mut [u32],
    ) -> Result<usize, Refusal>
        requires { MultiWf self.old }
        ensures { (self.new ≡ (set_counts self.old node.0 incoming outgoing (length moves.old)).graph)
            × (result ≡ (set_counts self.old node.0 incoming outgoing (length moves.old)).answer)
            × (moves.new ≡ moves_told self.old node.0 incoming outgoing moves.old) }
    {
        if too_many_ports(incoming, outgoing) {
            return Err(Refusal::TooManyPorts);
        }
        let meta = self.block(node)?;
        let resize = Resize {
            meta,
            incoming,
            outgoing,
        };
        let mut list = [0u32; NODE_PORTS];
        let count = self.copies_dropped(&mut list, resize);
        let events = set_answer(
            self.graph
                .set_num_ports_lent(node, incoming, outgoing, moves),
        )?;
        self.recount(node, meta);
        self.remove_all(&list[..count]);
        Ok(events)
    }

    // The same for a caller who reads no move list: what it gives for one that is long enough.
    #[tactic(auto, using(portgraph::specs::Numbered::and_numbers, crate::specs::BlockSteps::set_many))]
    pub fn set_quiet_lent(
        &mut self,
        node: NodeIndex,
        incoming: usize,
        outgoing: usize,
    ) -> Result<usize, Refusal>
        requires { MultiWf self.old }
        ensures { (self.new ≡ (set_counts self.old node.0 incoming outgoing enough).graph)
            × (result ≡ (set_counts self.old node.0 incoming outgoing enough).answer)
            × (set_numbers result ≡ set_numbers (set_counts self.old node.0 incoming outgoing enough).answer) }
    {
        if too_many_ports(incoming, outgoing) {
            return Err(Refusal::TooManyPorts);
        }
        let meta = self.block(node)?;
        let resize = Resize {
            meta,
            incoming,
            outgoing,
        };
        if dropped(resize) <= FEW {
            let mut few = [0u32; FEW];
            return self.resize_listing(node, resize, &mut few);
        }
        let mut list = [0u32; NODE_PORTS];
        self.resize_listing(node, resize, &mut list)
    }

    // Changes the counts of a block that is there; the hidden nodes of the ports that are dropped are listed in a lent list, before they go.
    #[tactic(auto, using(crate::specs::BlockSteps::wf_set_is, crate::specs::BlockSteps::block_in_lem, crate::specs::BlockSteps::copies_dropped_most, crate::specs::BlockSteps::list_taken))]
    fn resize_listing(
        &mut self,
        node: NodeIndex,
        resize: Resize,
        list: &mut [u32],
    ) -> Result<usize, Refusal>
        requires { Resizes self.old node.0 resize.meta resize.incoming resize.outgoing × (dropped resize.meta resize.incoming resize.outgoing ≤ length list.old) }
        ensures { (self.new ≡ (set_counts self.old node.0 resize.incoming resize.outgoing enough).graph)
            × (result ≡ (set_counts self.old node.0 resize.incoming resize.outgoing enough).answer) }
    {
        let count = self.copies_dropped(list, resize);
        let events = set_answer(self.graph.resize_quiet_lent(node, resize))?;
        self.recount(node, resize.meta);
        self.remove_all(&list[..count]);
        Ok(events)
    }
}
