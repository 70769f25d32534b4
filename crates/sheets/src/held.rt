// A sheet whose caller holds its entries by value, in an array: the first places are lent, as many as there are entries. Stays a function of its own, since the theorems
// speak of it; and an array with its count, since an array has one length: over a slice there is `link_sheet`.
ghost use Rattle.std.specs.Prelude.{◌≡◌, ◌≤◌};
ghost use Rattle.multiportgraph.specs.WellFormed.{MultiWf};
ghost use Rattle.sheets.specs.Held.{sheet_places, link_first, link_held};

use crate::sheet::{SHEET_ENTRIES, SheetEntry, TooManyEntries, link_sheet};
use multiportgraph::multiportgraph::MultiPortGraph;

// One place more than a sheet may have entries, so that a sheet that is too long can be lent.
pub const SHEET_PLACES: usize = SHEET_ENTRIES + 1;

// Stays a struct: the graph and the places are given back of a sheet that is too long too.
#[derive(Drop)]
pub struct HeldLinked {
    pub graph: MultiPortGraph,
    pub answer: Result<(), TooManyEntries>,
    pub places: [SheetEntry; SHEET_PLACES],
}

// The first n places are lent.
fn link_first(graph: MultiPortGraph, mut places: [SheetEntry; SHEET_PLACES], n: usize) -> HeldLinked
    requires { MultiWf graph × (n ≤ sheet_places) }
    ensures { result ≡ link_first graph places n }
{
    let done = link_sheet(graph, &mut places[..n]);
    HeldLinked {
        graph: done.graph,
        answer: done.answer,
        places,
    }
}

// The first `count` places are the sheet, or all of them if `count` is more.
pub fn link_held(
    graph: MultiPortGraph,
    places: [SheetEntry; SHEET_PLACES],
    count: usize,
) -> HeldLinked
    requires { MultiWf graph }
    ensures { result ≡ link_held graph places count }
{
    link_first(graph, places, count.min(SHEET_PLACES))
}
