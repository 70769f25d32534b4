// The walk over the links of a port, from either end.
ghost use Rattle.std.specs.Prelude.{◌≡◌, ◌-◌};
ghost use Rattle.multiportgraph.specs.Walks.{step_front, step_back};
ghost use Rattle.multiportgraph.specs.WalkNumbers.{port_links_values};
ghost use Rattle.multiportgraph.specs.WellFormed.{MultiWf};
ghost use Rattle.multi_tables.specs.Scans.{first_found, span_first, span_count, links_in, end_before};
ghost use Rattle.multiportgraph.specs.WalkScans.{last_found, left_in};

use crate::iter::PortLinks;
use crate::multiportgraph::MultiPortGraph;
use crate::walks::end_before;
use multi_tables::answers::SubportLink;
use multi_tables::scans::{LinkFilter, PortEnds};
use multi_tables::seen::SidedPort;
use multi_tables::wire_tables::WireTables;
use port_tables::direction::Direction;
use port_tables::numbers::wide;

// The last link at these ends. Stays a loop, as `scan_port` from the front.
#[tactic(auto, using(crate::specs::LinkWalkSteps::back_link, crate::specs::LinkWalkSteps::back_link_turn, crate::specs::LinkWalkSteps::back_link_none))]
fn scan_back(tables: WireTables<'_>, ends: PortEnds) -> Option<SubportLink>
    ensures { result ≡ last_found (links_in tables.entry.links.now tables.entry.owners.now tables.entry.flags.now ends.port ends.first ends.from (ends.end - ends.from)) }
{
    for offset in (ends.from..ends.end).rev() {
        let found = tables.link_at(
            LinkFilter::All,
            ends.port,
            ends.first + offset,
            offset as u16,
        );
        if let Some(_) = found {
            return found;
        }
    }
    None
}

impl PortLinks {
    // The ends between the offsets given from the front and from the back.
    fn ends_left(self, tables: WireTables<'_>, direction: Direction) -> PortEnds
        ensures { (result.port ≡ self.port.0)
            × (result.first ≡ span_first tables.entry.marks.now tables.entry.links.now tables.entry.owners.now self.port.0 direction)
            × (result.from ≡ self.front)
            × (result.end ≡ end_before self.back (span_count tables.entry.marks.now tables.entry.links.now tables.entry.owners.now self.port.0 direction)) }
    {
        let port = self.port;
        let sided = SidedPort {
            port: port.0,
            side: direction,
        };
        let count = tables.span_count(sided);
        PortEnds {
            port: port.0,
            first: tables.span_first(sided),
            from: wide(self.front),
            end: end_before(self.back, count),
        }
    }

    // The first link at them.
    // Stays beside `last_left`, as `step` beside `step_back`.
    #[tactic(auto, unfolding(crate::specs::WalkScans::left_in), using(crate::specs::LinkWalkSteps::left_first))]
    fn first_left(self, tables: WireTables<'_>, direction: Direction) -> Option<SubportLink>
        ensures { result ≡ first_found (left_in tables.entry.marks.now tables.entry.links.now tables.entry.owners.now tables.entry.flags.now self.port.0 direction self.front self.back) }
    {
        tables.scan_port(LinkFilter::All, self.ends_left(tables, direction))
    }

    // The last of them.
    #[tactic(auto, unfolding(crate::specs::WalkScans::left_in))]
    fn last_left(self, tables: WireTables<'_>, direction: Direction) -> Option<SubportLink>
        ensures { result ≡ last_found (left_in tables.entry.marks.now tables.entry.links.now tables.entry.owners.now tables.entry.flags.now self.port.0 direction self.front self.back) }
    {
        scan_back(tables, self.ends_left(tables, direction))
    }

    // Two methods, as next and next_back of the library's iterators.
    #[tactic(auto, using(port_tables::specs::TableSteps::with_numbers, crate::specs::LinkWalkSteps::front_item, crate::specs::LinkWalkSteps::front_none, crate::specs::StartSteps::block_is, crate::specs::OwnTables::read_off, multi_tables::specs::NamedEndSteps::ok_told, crate::specs::LinkWalkSteps::front_unseen))]
    pub fn step(self, graph: &MultiPortGraph) -> Option<(SubportLink, PortLinks)>
        requires { MultiWf graph.now }
        ensures { (result ≡ step_front graph.now self) × (port_links_values result ≡ port_links_values (step_front graph.now self)) }
    {
        let (_, direction) = graph.block_port(self.port).ok()?;
        let link = self.first_left(graph.wire_tables(), direction)?;
        let from = link.from;
        Some((
            link,
            PortLinks {
                // The cast stays, as in `step_back`: of `from` each answer would carry the clause to the number; no plainer.
                front: from.subport_offset as u32 + 1,
                ..self
            },
        ))
    }

    #[tactic(auto, using(port_tables::specs::TableSteps::with_numbers, crate::specs::LinkWalkSteps::back_link_item, crate::specs::LinkWalkSteps::back_link_end, crate::specs::StartSteps::block_is, crate::specs::OwnTables::read_off, multi_tables::specs::NamedEndSteps::ok_told, crate::specs::LinkWalkSteps::back_unseen))]
    pub fn step_back(self, graph: &MultiPortGraph) -> Option<(SubportLink, PortLinks)>
        requires { MultiWf graph.now }
        ensures { (result ≡ step_back graph.now self) × (port_links_values result ≡ port_links_values (step_back graph.now self)) }
    {
        let (_, direction) = graph.block_port(self.port).ok()?;
        let link = self.last_left(graph.wire_tables(), direction)?;
        let from = link.from;
        Some((
            link,
            PortLinks {
                back: from.subport_offset as u32 + 1,
                ..self
            },
        ))
    }
}
