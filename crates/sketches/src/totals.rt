// A sketch: three tables of rows, and the numbers beside them.
ghost use Rattle.std.specs.Prelude.{◌≡◌};
ghost use Rattle.sketches.specs.Plan.{empty_plan};
ghost use Rattle.sketches.specs.Held.{plan_of, HeldWf};

use crate::tables::Rows;
use port_tables::release::Release;
use std::marker::Model;

// What a sketch has besides its tables.
#[derive(Clone, Copy)]
pub struct Totals {
    pub release: Release,
    // The adds that were accepted.
    pub adds: u32,
    // The rows of each table.
    pub blocks: usize,
    pub splits: usize,
    pub wires: usize,
}

#[derive(Clone, Drop)]
pub struct Sketch {
    pub(crate) release: Release,
    // The adds that were accepted.
    pub(crate) adds: u32,
    pub(crate) blocks: Rows,
    pub(crate) splits: Rows,
    pub(crate) wires: Rows,
}

impl Model for Sketch {
    ghost use Rattle.sketches.specs.Held.{Held, held, HeldWf};

    ghost Value = { Held };

    ghost view = { λ s. held s.release s.adds s.blocks s.splits s.wires };

    ghost invariant = { λ s. HeldWf (held s.release s.adds s.blocks s.splits s.wires) };
}

impl Sketch {
    // An empty sketch that is made for a release.
    #[tactic(auto, unfolding(crate::specs::Rows::rows_in, crate::specs::Plan::ports_in_all))]
    pub fn new(release: Release) -> Sketch
        ensures { plan_of result ≡ empty_plan release }
    {
        Sketch {
            release,
            adds: 0,
            blocks: Rows::new(),
            splits: Rows::new(),
            wires: Rows::new(),
        }
    }

    // What the sketch has besides its tables. That it is well formed stands in a clause too: who asks this may answer before another field is read.
    pub fn totals(&self) -> Totals
        ensures told { (result.release ≡ self.now.totals.release) × (result.adds ≡ self.now.totals.adds) × (result.blocks ≡ self.now.totals.blocks)
            × (result.splits ≡ self.now.totals.splits) × (result.wires ≡ self.now.totals.wires) }
        ensures wf { HeldWf self.now }
    {
        Totals {
            release: self.release,
            adds: self.adds,
            blocks: self.blocks.count,
            splits: self.splits.count,
            wires: self.wires.count,
        }
    }

    // Empties a sketch that is there, for a release: nothing is in use any more. What stands in its tables is not written over.
    #[tactic(auto, unfolding(crate::specs::Rows::rows_in, crate::specs::Plan::ports_in_all))]
    pub fn begin(&mut self, release: Release)
        ensures { plan_of self.new ≡ empty_plan release }
    {
        self.release = release;
        self.adds = 0;
        self.blocks.clear();
        self.splits.clear();
        self.wires.clear();
    }
}
