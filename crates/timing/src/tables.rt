// Leaves on lent tables, and on listings of wires with eight numbers each.
ghost use Rattle.std.specs.Prelude.{◌≡◌, ◌+◌, ◌*◌, ◌/◌, ◌<◌, length, get_or};
ghost use Rattle.multiportgraph.specs.Listed.{wires_listed};
ghost use Rattle.multiportgraph.specs.WellFormed.{MultiWf};

use multiportgraph::multiportgraph::MultiPortGraph;
use port_tables::index::MOST_WIRES;

// The wires of a graph, in a list that is lent to be written: the part that is.
#[tactic(auto, using(files::specs::SaveSteps::visible_links_few, files::specs::SaveSteps::wires_taken))]
pub(crate) fn wires_in<'a>(
    graph: &'a MultiPortGraph,
    ends: &'a mut [u32; 8 * MOST_WIRES],
) -> &'a [u32]
    requires { MultiWf graph.now }
    ensures { result.now ≡ wires_listed graph.now }
{
    // The list is long enough, so every wire is written.
    let _ = graph.list_wires(ends);
    &ends[..8 * graph.link_count()]
}

// The block that a wire comes from, of the eight numbers of one.
pub(crate) fn source_of(wire: &[u32]) -> u32
    requires { length wire.now ≡ 8 }
    ensures { result ≡ get_or wire.now 2 0 }
{
    wire[2]
}

// The block that it goes to.
pub(crate) fn target_of(wire: &[u32]) -> u32
    requires { length wire.now ≡ 8 }
    ensures { result ≡ get_or wire.now 6 0 }
{
    wire[6]
}

// The time of a slot.
pub(crate) fn time_at(times: &[u16], i: usize) -> u32
    ensures { (result ≡ get_or times.now i 0) × (result < 65536) }
{
    times.get(i).copied().map_or(0, u32::from)
}
