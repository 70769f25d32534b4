// What release 2 refuses: a link that names an input which already has a wire. Refusals 2, 7, 8 and 9 come before it.
ghost use Rattle.std.specs.Prelude.{◌≡◌};
ghost use Rattle.multi_tables.specs.TakenInputs.{ends_there, inputs_free, wired_in, taken_in, taken_sub_in, taken_ports_in, pair_named_under, link_named_under};

use crate::answers::{Refusal, SubportIndex};
use crate::named::SeenPair;
use crate::seen::SidedPort;
use crate::wire_tables::WireTables;
use port_tables::direction::Direction;
use port_tables::index::PortIndex;
use port_tables::release::Release;

impl WireTables<'_> {
    // Whether a port is a live input of a block and has a wire.
    #[tactic(auto, unfolding(crate::specs::TakenInputs::wired_in, crate::specs::NamedEnds::block_port), using(crate::specs::NamedEndSteps::block_found, crate::specs::NamedEndSteps::block_unseen))]
    fn wired_input(self, port: u32) -> bool
        ensures { result ≡ wired_in self.entry.marks.now self.entry.links.now self.entry.owners.now self.entry.flags.now port }
    {
        let Ok((_, side @ Direction::Incoming)) = self.block_port(PortIndex(port)) else {
            return false;
        };
        self.wires_at(SidedPort { port, side }) != 0
    }

    // Whether a link of two ports names such an input, under release 2.
    #[tactic(auto, unfolding(crate::specs::TakenInputs::taken_in))]
    fn input_taken(self, release: Release, a: u32, b: u32) -> bool
        ensures { result ≡ taken_in self.entry.marks.now self.entry.links.now self.entry.owners.now self.entry.flags.now release a b }
    {
        match release {
            Release::One => false,
            Release::Two => self.wired_input(a) || self.wired_input(b),
        }
    }

    // What such a link of ports is refused with.
    #[tactic(auto, using(crate::specs::TakenSteps::ports_taken))]
    fn taken_ports(self, a: PortIndex, b: PortIndex) -> Refusal
        ensures { result ≡ taken_ports_in self.entry.owners.now self.entry.flags.now a.0 b.0 }
    {
        self.seen_pair(a, b).err().unwrap_or(Refusal::InputWired)
    }

    // Whether each end of such a link of subports that is looked at is there, or what comes before its refusal.
    #[tactic(auto, unfolding(crate::specs::TakenInputs::ends_there), using(crate::specs::NamedEndSteps::end_there, crate::specs::NamedEndSteps::end_lacking))]
    fn ends_there(self, from: SubportIndex, to: SubportIndex) -> Result<(), Refusal>
        ensures { result ≡ ends_there self.entry.marks.now self.entry.links.now self.entry.owners.now self.entry.flags.now from.port.0 from.subport_offset to.port.0 to.subport_offset }
    {
        let p = from.port;
        let q = to.port;
        match self.subport_pair(from, to)? {
            SeenPair::First(side) => {
                self.end_or(SidedPort { port: p.0, side }, from.subport_offset)?;
            }
            SeenPair::Both(d, e) => {
                self.end_or(SidedPort { port: p.0, side: d }, from.subport_offset)?;
                self.end_or(SidedPort { port: q.0, side: e }, to.subport_offset)?;
            }
        }
        Ok(())
    }

    // And such a link of subports.
    #[tactic(auto, using(crate::specs::TakenSteps::subports_taken))]
    fn taken_subports(self, from: SubportIndex, to: SubportIndex) -> Refusal
        ensures { result ≡ taken_sub_in self.entry.marks.now self.entry.links.now self.entry.owners.now self.entry.flags.now from.port.0 from.subport_offset to.port.0 to.subport_offset }
    {
        self.ends_there(from, to)
            .err()
            .unwrap_or(Refusal::InputWired)
    }

    // Refuses a link of ports that names such an input.
    #[tactic(auto, unfolding(crate::specs::TakenInputs::inputs_free))]
    pub fn inputs_free(self, release: Release, a: PortIndex, b: PortIndex) -> Result<(), Refusal>
        ensures { result ≡ inputs_free self.entry.marks.now self.entry.links.now self.entry.owners.now self.entry.flags.now release a.0 b.0 }
    {
        if self.input_taken(release, a.0, b.0) {
            return Err(self.taken_ports(a, b));
        }
        Ok(())
    }

    // Whether two ports can be linked, room apart, by release 2 too.
    #[tactic(auto, unfolding(crate::specs::TakenInputs::pair_named_under, crate::specs::TakenInputs::inputs_free))]
    pub fn pair_named_under(
        self,
        release: Release,
        a: PortIndex,
        b: PortIndex,
    ) -> Result<(), Refusal>
        ensures { result ≡ pair_named_under self.entry.marks.now self.entry.links.now self.entry.owners.now self.entry.flags.now release a.0 b.0 }
    {
        self.inputs_free(release, a, b)?;
        self.pair_named(a, b)
    }

    // The ends of a link of two subports, or why it is refused, by release 2 too.
    #[tactic(auto, unfolding(crate::specs::TakenInputs::link_named_under))]
    pub fn link_named_under(
        self,
        release: Release,
        from: SubportIndex,
        to: SubportIndex,
    ) -> Result<(u32, u32), Refusal>
        ensures { result ≡ link_named_under self.entry.marks.now self.entry.links.now self.entry.owners.now self.entry.flags.now release from.port.0 from.subport_offset to.port.0 to.subport_offset }
    {
        let p = from.port;
        let q = to.port;
        if self.input_taken(release, p.0, q.0) {
            return Err(self.taken_subports(from, to));
        }
        self.link_named(from, to)
    }
}
