// A wiring sheet: entries, each two ports and space for the answer of their link. The links are made in order, a refused one included.
ghost use Rattle.std.specs.Prelude.{◌≡◌};
ghost use Rattle.sketches.specs.Held.{plan_of};
ghost use Rattle.sketches.specs.CallParts.{no_entry, SheetLeaves, FirstLeaves};

use crate::sketch::{Reason, SheetEntry, SketchPort, TooManyEntries};
use crate::totals::Sketch;
use port_tables::direction::Direction;

// The most entries of a sheet.
pub const SHEET_ENTRIES: usize = 64;

// One place more than a sheet may have entries, so that a sheet that is too long can be handed in. Stays beside that of `sheets`: each sheet has its own most entries.
pub const SHEET_PLACES: usize = SHEET_ENTRIES + 1;

// An entry at which nothing was asked.
// Its answer stays a Result: each entry of a sheet that is done has an answer, and of one that is refused none is read.
pub fn no_entry() -> SheetEntry
    ensures { result ≡ no_entry }
{
    let port = SketchPort {
        block: 0,
        side: Direction::Incoming,
        position: 0,
    };
    SheetEntry {
        from: port,
        to: port,
        answer: Err(Reason::NoRoom),
    }
}

impl Sketch {
    // Links the ports of each entry, and gives it its answer.
    #[tactic(auto, unfolding(crate::specs::PlanCalls::sheet_answered, crate::specs::PlanCalls::sheet_plan), using(crate::specs::SheetSteps::too_long))]
    pub fn link_sheet(&mut self, entries: &mut [SheetEntry]) -> Result<(), TooManyEntries>
        ensures { SheetLeaves (plan_of self.old) entries.old self.new entries.new result }
    {
        if SHEET_ENTRIES < entries.len() {
            return Err(TooManyEntries);
        }
        for entry in entries.iter_mut() {
            entry.answer = self.link(entry.from, entry.to);
        }
        Ok(())
    }

    // The same where the caller holds the entries in an array: the first `count` places are the sheet, or all of them if `count` is more.
    #[tactic(auto, using(crate::specs::SheetSteps::first_leaves))]
    pub fn link_first(
        &mut self,
        places: &mut [SheetEntry; SHEET_PLACES],
        count: usize,
    ) -> Result<(), TooManyEntries>
        ensures { FirstLeaves (plan_of self.old) places.old count self.new places.new result }
    {
        self.link_sheet(&mut places[..count.min(SHEET_PLACES)])
    }
}
