// A wiring sheet: a lent list of entries, each two ports and space for the answer of their link. The links are made in order, by
// `link_ports`, a refused one included.
ghost use Rattle.std.specs.Prelude.{◌≡◌};
ghost use Rattle.multiportgraph.specs.WellFormed.{MultiWf};
ghost use Rattle.sheets.specs.Sheets.{to_be_done, link_sheet, sheet_after, sheet_numbers};

use multi_tables::answers::{Refusal, SubportIndex};
use multiportgraph::multiportgraph::MultiPortGraph;
use port_tables::index::PortIndex;

// The most entries of a sheet.
pub const SHEET_ENTRIES: usize = 64;

// Two ports that are to be linked, and space for the answer. Stays beside that of `sketches`: the sketch rests on no graph.
// Its answer stays no Option: a sheet is done whole or not at all, and its own answer says which.
#[derive(Clone, Copy)]
pub struct SheetEntry {
    pub port_a: PortIndex,
    pub port_b: PortIndex,
    pub answer: Result<(SubportIndex, SubportIndex), Refusal>,
}

impl SheetEntry {
    // An entry that is to be done; what its space for the answer holds until then is of no account.
    pub fn new(port_a: PortIndex, port_b: PortIndex) -> Self
        ensures { result ≡ to_be_done port_a port_b }
    {
        SheetEntry {
            port_a,
            port_b,
            answer: Err(Refusal::NoRoom),
        }
    }
}

// There are more than 64 entries: none was done. Stays beside that of `sketches`: the sketch rests on no graph, and the tables' crate, on which both rest, knows of no sheets.
#[derive(Clone, Copy)]
pub struct TooManyEntries;

// Stays a struct, as the answers of `multiportgraph` are: a sheet that is too long is refused beside the graph.
#[derive(Drop)]
pub struct SheetLinked {
    pub graph: MultiPortGraph,
    // Where it is `Ok`, every entry was done and has its answer, a refused one too.
    pub answer: Result<(), TooManyEntries>,
}

// Links the ports of each entry, one after the other, and lays each answer in its entry. A sheet that is too long changes nothing.
pub fn link_sheet(graph: MultiPortGraph, sheet: &mut [SheetEntry]) -> SheetLinked
    requires { MultiWf graph }
    ensures { (result ≡ link_sheet graph sheet.old) × (sheet.new ≡ sheet_after graph sheet.old) × (sheet_numbers result.answer ≡ sheet_numbers (link_sheet graph sheet.old).answer) }
{
    if SHEET_ENTRIES < sheet.len() {
        return SheetLinked {
            graph,
            answer: Err(TooManyEntries),
        };
    }
    let mut after = graph;
    for entry in sheet.iter_mut() {
        let linked = after.link_ports(entry.port_a, entry.port_b);
        entry.answer = linked.answer;
        after = linked.graph;
    }
    SheetLinked {
        graph: after,
        answer: Ok(()),
    }
}
