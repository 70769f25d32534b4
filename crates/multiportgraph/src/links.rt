// Linking ports: each end is prepared, and the two inner ports are linked. Whether there is room for both ends is settled before the first change.
ghost use Rattle.std.specs.Prelude.{◌≡◌, false};
ghost use Rattle.port_tables.specs.Limits.{present};
ghost use Rattle.multiportgraph.specs.WellFormed.{MultiWf};
ghost use Rattle.multiportgraph.specs.Named.{joined_at};
ghost use Rattle.multiportgraph.specs.Answers.{link_numbers};
ghost use Rattle.multiportgraph.specs.Cases.{link_first, link_live};
ghost use Rattle.multiportgraph.specs.HiddenNodes.{prepare};
ghost use Rattle.multiportgraph.specs.Needs.{need_of};
ghost use Rattle.multiportgraph.specs.Presumed.{OnBlock, BothOnBlock, FirstReady};
ghost use Rattle.multiportgraph.specs.Calls.{link_pair_if, link_pair, link_clean};

use crate::multiportgraph::{MultiPortGraph, PortsLinked};
use crate::needs::{Need, takes_of};
use multi_tables::answers::{Refusal, SubportIndex};
use multi_tables::seen::{SeenPort, SidedPort};
use port_tables::index::PortIndex;

impl MultiPortGraph {
    // Links two inner ports; whoever calls it has seen that it may be.
    pub(crate) fn join_inner(&mut self, x: u32, y: u32)
        requires { MultiWf self.old }
        ensures { self.new ≡ joined_at self.old x y }
    {
        self.graph.draw_link(x, y);
    }

    // The second port is not live: the preparation of the first stays.
    #[tactic(auto, using(crate::specs::LinkMade::first_parts))]
    fn link_first(
        &mut self,
        a: SidedPort,
        b: PortIndex,
    ) -> Result<(SubportIndex, SubportIndex), Refusal>
        requires { OnBlock self.old a.port a.side }
        ensures { (self.new ≡ (link_first self.old b.0 (prepare self.old a.port a.side)).graph) × (result ≡ (link_first self.old b.0 (prepare self.old a.port a.side)).answer) }
    {
        let need = self.need_of(a);
        self.prepare(a, need)?;
        Err(Refusal::UnknownSecondPort(b))
    }

    // The first end is ready: the second, which needs this, is prepared, and both are linked if they are on opposite sides.
    fn link_second(
        &mut self,
        a: SidedPort,
        first: (u32, u16),
        b: SidedPort,
        need: Need,
    ) -> Result<(SubportIndex, SubportIndex), Refusal>
        requires { FirstReady self.old a.port a.side first.0 first.1 b.port b.side × (need ≡ need_of self.old b.port b.side) }
        ensures { (self.new ≡ (link_live self.old a.port a.side b.port b.side (prepare self.old a.port a.side)).graph)
            × (result ≡ (link_live self.old a.port a.side b.port b.side (prepare self.old a.port a.side)).answer) }
    {
        let (x, o) = first;
        let (y, r) = self.prepare(b, need)?;
        if a.side == b.side {
            return Err(Refusal::IncompatibleDirections(PortIndex(x), PortIndex(y), a.side));
        }
        self.join_inner(x, y);
        Ok((
            SubportIndex::new_multi(PortIndex(a.port), o),
            SubportIndex::new_multi(PortIndex(b.port), r),
        ))
    }

    // A port with itself: the end that is prepared is found again, on the same side.
    fn link_self(&mut self, a: SidedPort) -> Result<(SubportIndex, SubportIndex), Refusal>
        requires { OnBlock self.old a.port a.side }
        ensures { (self.new ≡ (link_live self.old a.port a.side a.port a.side (prepare self.old a.port a.side)).graph)
            × (result ≡ (link_live self.old a.port a.side a.port a.side (prepare self.old a.port a.side)).answer) }
    {
        let need = self.need_of(a);
        let first = self.prepare(a, need)?;
        let again = self.need_of(a);
        self.link_second(a, first, a, again)
    }

    // Both ports are live, and two. Without room for either end the graph stays as it was.
    #[tactic(auto, using(crate::specs::NeedLaws::ready_for, crate::specs::LinkMade::both_lack))]
    fn link_both(
        &mut self,
        a: SidedPort,
        b: SidedPort,
    ) -> Result<(SubportIndex, SubportIndex), Refusal>
        requires { BothOnBlock self.old a.port a.side b.port b.side × (a.port ≡ b.port → ⊥) }
        ensures { (self.new ≡ (link_live self.old a.port a.side b.port b.side (prepare self.old a.port a.side)).graph)
            × (result ≡ (link_live self.old a.port a.side b.port b.side (prepare self.old a.port a.side)).answer) }
    {
        let one = self.need_of(a);
        let two = self.need_of(b);
        if let Need::Ready(x, o) = one {
            return self.link_second(a, (x, o), b, two);
        }
        if !self.room_for(takes_of(one), takes_of(two)) {
            return Err(Refusal::NoRoom);
        }
        let first = self.prepare(a, one)?;
        self.link_second(a, first, b, two)
    }

    // The first port is live, and no input that has a wire is refused: how the second is seen. Not `block_port`: a second port that is not live is refused
    // only after the first end is prepared.
    #[tactic(auto, using(crate::specs::NamedLaws::seen_as_lem, crate::specs::LinkMade::both_on, crate::specs::LinkMade::call_first))]
    fn link_seen(
        &mut self,
        a: SidedPort,
        b: PortIndex,
    ) -> Result<(SubportIndex, SubportIndex), Refusal>
        requires { OnBlock self.old a.port a.side }
        ensures { (self.new ≡ (link_pair_if false present self.old a.port b.0).graph) × (result ≡ (link_pair_if false present self.old a.port b.0).answer) }
    {
        match self.wire_tables().seen_in(b.0) {
            SeenPort::Dead => self.link_first(a, b),
            SeenPort::Hidden => Err(Refusal::HiddenPort(b)),
            SeenPort::Visible(_, side) => {
                if a.port == b.0 {
                    return self.link_self(a);
                }
                self.link_both(a, SidedPort { port: b.0, side })
            }
        }
    }

    // Links two ports in place; each end takes the lowest offset without a wire.
    #[tactic(auto, using(portgraph::specs::Numbered::and_numbers, multi_tables::specs::TakenSteps::inputs_untaken, crate::specs::StartSteps::block_is, crate::specs::InputSteps::ports_untaken, crate::specs::InputSteps::parts_untaken))]
    pub fn link_lent(
        &mut self,
        port_a: PortIndex,
        port_b: PortIndex,
    ) -> Result<(SubportIndex, SubportIndex), Refusal>
        requires { MultiWf self.old }
        ensures { (self.new ≡ (link_pair self.old port_a.0 port_b.0).graph)
            × (result ≡ (link_pair self.old port_a.0 port_b.0).answer)
            × (link_numbers result ≡ link_numbers (link_pair self.old port_a.0 port_b.0).answer) }
    {
        let tables = self.wire_tables();
        tables.inputs_free(self.release, port_a, port_b)?;
        let (_, side) = tables.block_port(port_a)?;
        let first = SidedPort {
            port: port_a.0,
            side,
        };
        self.link_seen(first, port_b)
    }

    // The same by value.
    pub fn link_ports(mut self, port_a: PortIndex, port_b: PortIndex) -> PortsLinked
        requires { MultiWf self }
        ensures { (result ≡ link_pair self port_a.0 port_b.0) × (link_numbers result.answer ≡ link_numbers (link_pair self port_a.0 port_b.0).answer) }
    {
        let answer = self.link_lent(port_a, port_b);
        PortsLinked {
            graph: self,
            answer,
        }
    }

    // Links two ports, and leaves no stub: nothing is prepared for a link that is refused.
    pub fn link_ports_clean(mut self, port_a: PortIndex, port_b: PortIndex) -> PortsLinked
        requires { MultiWf self }
        ensures { (result ≡ link_clean self port_a.0 port_b.0) × (link_numbers result.answer ≡ link_numbers (link_clean self port_a.0 port_b.0).answer) }
    {
        let answer = self.link_clean(port_a, port_b);
        PortsLinked {
            graph: self,
            answer,
        }
    }

    #[tactic(auto, using(port_tables::specs::TableSteps::passed_on, crate::specs::InputSteps::clean_linked, crate::specs::InputSteps::clean_refused, crate::specs::InputSteps::parts_untaken, crate::specs::OwnTables::read_off))]
    fn link_clean(
        &mut self,
        port_a: PortIndex,
        port_b: PortIndex,
    ) -> Result<(SubportIndex, SubportIndex), Refusal>
        requires { MultiWf self.old }
        ensures { (self.new ≡ (link_clean self.old port_a.0 port_b.0).graph) × (result ≡ (link_clean self.old port_a.0 port_b.0).answer) }
    {
        let release = self.release;
        self.wire_tables()
            .pair_named_under(release, port_a, port_b)?;
        self.link_lent(port_a, port_b)
    }
}
