// Linking and cutting single subports and whole ports, what a subport is linked with, and how much there is.
ghost use Rattle.std.specs.Prelude.{◌≡◌};
ghost use Rattle.multi_tables.specs.EndAnswers.{unplaced, unplaced_numbers};
ghost use Rattle.multi_tables.specs.NamedEnds.{end_named};
ghost use Rattle.multiportgraph.specs.Answers.{link_numbers, cut_numbers, before_place};
ghost use Rattle.multiportgraph.specs.Calls.{link_sub, cut_port, cut_sub, subport_link, visible_nodes, visible_ports, visible_links};
ghost use Rattle.multiportgraph.specs.Graph.{empty_graph};
ghost use Rattle.multiportgraph.specs.Reading.{is_split};
ghost use Rattle.multiportgraph.specs.WellFormed.{MultiWf};

use crate::multiportgraph::{MultiPortGraph, PortUnlinked, PortsLinked};
use multi_tables::answers::{PortPlace, Refusal, SubportIndex};
use multi_tables::marks::flagged;
use multi_tables::named::read_in;
use multi_tables::reads::place_in;
use port_tables::index::{NODE_SLOTS, PORT_SLOTS, PortIndex};
use port_tables::numbers::wide;
use port_tables::release::Release;
use portgraph::portgraph::PortGraph;

impl MultiPortGraph {
    // The empty graph, made for this release.
    pub fn new(release: Release) -> Self
        ensures { result ≡ empty_graph release }
    {
        MultiPortGraph {
            graph: PortGraph::new(),
            multiport: [false; PORT_SLOTS],
            copy_node: [false; NODE_SLOTS],
            copy_node_count: 0,
            subport_count: 0,
            release,
        }
    }

    // The release that the graph is made for.
    pub fn release(&self) -> Release
        ensures { result ≡ self.now.release }
    {
        self.release
    }

    // The number of blocks.
    #[tactic(auto, unfolding(crate::specs::Calls::visible_nodes))]
    pub fn node_count(&self) -> usize
        ensures { result ≡ visible_nodes self.now }
    {
        self.graph.node_count().saturating_sub(self.copy_node_count)
    }

    // The number of ports of blocks.
    #[tactic(auto, unfolding(crate::specs::Calls::visible_ports))]
    pub fn port_count(&self) -> usize
        ensures { result ≡ visible_ports self.now }
    {
        self.graph
            .port_count()
            .saturating_sub(self.subport_count)
            .saturating_sub(self.copy_node_count)
    }

    // The number of wires.
    #[tactic(auto, unfolding(crate::specs::Calls::visible_links))]
    pub fn link_count(&self) -> usize
        ensures { result ≡ visible_links self.now }
    {
        self.graph.link_count().saturating_sub(self.copy_node_count)
    }

    // The end that a subport means.
    fn end_of(&self, subport: SubportIndex) -> Result<u32, Refusal>
        ensures { result ≡ end_named self.now.multiport self.now.graph.port_link self.now.graph.port_meta self.now.copy_node subport.port.0 subport.subport_offset }
    {
        self.wire_tables().end_named(subport)
    }

    // What a subport is linked with, and where that stands.
    #[tactic(auto, using(crate::specs::NamedLaws::read_done))]
    pub fn subport_link(
        &self,
        subport: SubportIndex,
    ) -> Result<Option<(SubportIndex, PortPlace)>, Refusal>
        requires { MultiWf self.now }
        ensures { (result ≡ subport_link self.now subport.port.0 subport.subport_offset) × (cut_numbers result ≡ cut_numbers (subport_link self.now subport.port.0 subport.subport_offset)) }
    {
        let inner = self.end_of(subport)?;
        Ok(self.wire_tables().wire_in(inner))
    }

    // What a subport is linked with, without the place: for a caller who does not read it.
    // Stays beside `subport_link`, which would seek the place.
    #[tactic(auto, using(port_tables::specs::TableSteps::passed_on, crate::specs::CutSteps::with_end_numbers, crate::specs::NamedLaws::read_done, crate::specs::OwnTables::read_off, crate::specs::TableReadLaws::wire_unplaced))]
    pub fn subport_link_lent(&self, subport: SubportIndex) -> Result<Option<SubportIndex>, Refusal>
        requires { MultiWf self.now }
        ensures { (result ≡ unplaced (subport_link self.now subport.port.0 subport.subport_offset))
            × (unplaced_numbers result ≡ before_place (cut_numbers (subport_link self.now subport.port.0 subport.subport_offset))) }
    {
        let inner = self.end_of(subport)?;
        Ok(self.wire_tables().wire_end_in(inner))
    }

    // Cuts the wire at a subport, if there is one, and answers the far end, and where it stood.
    #[tactic(auto, using(crate::specs::LowerSteps::link_cut))]
    pub fn unlink_subport(mut self, subport: SubportIndex) -> PortUnlinked
        requires { MultiWf self }
        ensures { (result ≡ cut_sub self subport.port.0 subport.subport_offset) × (cut_numbers result.answer ≡ cut_numbers (cut_sub self subport.port.0 subport.subport_offset).answer) }
    {
        let answer = self.subport_link(subport);
        // What is cut is what was read, with its place.
        let _ = self.cut_sub_lent(subport);
        PortUnlinked {
            graph: self,
            answer,
        }
    }

    // The same in place; where the far end stood is not answered.
    #[tactic(auto, using(port_tables::specs::TableSteps::passed_on, crate::specs::CutSteps::and_end_numbers, crate::specs::NamedLaws::cut_done, crate::specs::LowerSteps::end_cut_below, crate::specs::OwnTables::read_off, crate::specs::TableReadLaws::wire_unplaced))]
    pub fn cut_sub_lent(&mut self, subport: SubportIndex) -> Result<Option<SubportIndex>, Refusal>
        requires { MultiWf self.old }
        ensures { (self.new ≡ (cut_sub self.old subport.port.0 subport.subport_offset).graph)
            × (result ≡ unplaced (cut_sub self.old subport.port.0 subport.subport_offset).answer)
            × (unplaced_numbers result ≡ before_place (cut_numbers (cut_sub self.old subport.port.0 subport.subport_offset).answer)) }
    {
        let inner = self.end_of(subport)?;
        let end = self.wire_tables().wire_end_in(inner);
        // The end is live, so its link is cut.
        let _ = self.graph.unlink_port_lent(PortIndex(inner));
        Ok(end)
    }

    // What the cut of a port answers, with the place.
    #[tactic(auto, unfolding(crate::specs::Calls::cut_port, crate::specs::Lookups::direction_of), using(crate::specs::TableReadLaws::place_read))]
    fn cut_answer(&self, port: PortIndex) -> Result<Option<(SubportIndex, PortPlace)>, Refusal>
        requires { MultiWf self.now }
        ensures { result ≡ (cut_port self.now port.0).answer }
    {
        self.port_direction(port)?;
        if self.is_split(port.0) {
            let place = place_in(self.graph.owner_table(), port.0);
            return Ok(Some((SubportIndex::new_unique(port), place)));
        }
        Ok(self.wire_tables().plain_in(port.0))
    }

    // Cuts every wire at a port. A split port loses its hidden node and answers itself, with its own place; another one answers the
    // inner far port, with the place of its visible end.
    pub fn unlink_port(mut self, port: PortIndex) -> PortUnlinked
        requires { MultiWf self }
        ensures { (result ≡ cut_port self port.0) × (cut_numbers result.answer ≡ cut_numbers (cut_port self port.0).answer) }
    {
        let answer = self.cut_answer(port);
        // What is cut is what was read, with its place.
        let _ = self.cut_port_lent(port);
        PortUnlinked {
            graph: self,
            answer,
        }
    }

    // The same in place; where the far end stood is not answered.
    #[tactic(auto, unfolding(crate::specs::Calls::cut_port, crate::specs::Lookups::direction_of))]
    pub fn cut_port_lent(&mut self, port: PortIndex) -> Result<Option<SubportIndex>, Refusal>
        requires { MultiWf self.old }
        ensures { (self.new ≡ (cut_port self.old port.0).graph)
            × (result ≡ unplaced (cut_port self.old port.0).answer)
            × (unplaced_numbers result ≡ before_place (cut_numbers (cut_port self.old port.0).answer)) }
    {
        self.port_direction(port)?;
        if self.is_split(port.0) {
            self.unsplit(port.0);
            return Ok(Some(SubportIndex::new_unique(port)));
        }
        let far = self.graph.unlink_port_lent(port).ok().flatten();
        Ok(far.map(SubportIndex::new_unique))
    }

    // Whether a port is split.
    #[tactic(auto, using(crate::specs::CodeFormSteps::split_told))]
    pub(crate) fn is_split(&self, port: u32) -> bool
        ensures { result ≡ is_split self.now port }
    {
        flagged(&self.multiport, wide(port))
    }

    // Links two subports, and answers both ends as read.
    pub fn link_subports(mut self, from: SubportIndex, to: SubportIndex) -> PortsLinked
        requires { MultiWf self }
        ensures { (result ≡ link_sub self from.port.0 from.subport_offset to.port.0 to.subport_offset)
            × (link_numbers result.answer ≡ link_numbers (link_sub self from.port.0 from.subport_offset to.port.0 to.subport_offset).answer) }
    {
        let answer = self.link_sub_lent(from, to);
        PortsLinked {
            graph: self,
            answer,
        }
    }

    // The same in place.
    #[tactic(auto, using(portgraph::specs::Numbered::and_numbers, crate::specs::InputSteps::sub_joined, crate::specs::InputSteps::parts_untaken, crate::specs::OwnTables::read_off))]
    pub fn link_sub_lent(
        &mut self,
        from: SubportIndex,
        to: SubportIndex,
    ) -> Result<(SubportIndex, SubportIndex), Refusal>
        requires { MultiWf self.old }
        ensures { (self.new ≡ (link_sub self.old from.port.0 from.subport_offset to.port.0 to.subport_offset).graph)
            × (result ≡ (link_sub self.old from.port.0 from.subport_offset to.port.0 to.subport_offset).answer)
            × (link_numbers result ≡ link_numbers (link_sub self.old from.port.0 from.subport_offset to.port.0 to.subport_offset).answer) }
    {
        let release = self.release;
        let (x, y) = self.wire_tables().link_named_under(release, from, to)?;
        let first = read_in(&self.multiport, from);
        let second = read_in(&self.multiport, to);
        self.join_inner(x, y);
        Ok((first, second))
    }
}
