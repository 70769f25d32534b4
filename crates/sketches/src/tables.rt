// A table: rows, of which the first are in use, and how many those are. A new row stands behind the others.
ghost use Rattle.std.specs.Prelude.{◌≡◌, ◌∷◌, map, ◌+◌, ◌-◌, ◌≤◌, ◌<◌, min, length};
ghost use Rattle.std.specs.List.{filter};
ghost use Rattle.sketches.specs.Plan.{ports_in_all};
ghost use Rattle.sketches.specs.PlanCalls.{recount};
ghost use Rattle.sketches.specs.Rows.{row_slots, Table, past, newest_hit, oldest_hit, hits, missed, first, is_there_any, block_of};

use crate::rows::{ROWS, Row};
use crate::tests::{Test, Walk, hits, whole_walk};
use port_tables::numbers::wide;

// Stays an array with its count, in one struct: there is no heap.
#[derive(Clone, Copy)]
pub(crate) struct Rows {
    pub rows: [Row; ROWS],
    pub count: usize,
    ghost full: { Table rows },
    ghost within: { count ≤ row_slots },
}

// The newest row that is hit, of those among the first `count` that are left of a walk.
pub(crate) fn newest_among(rows: &[Row; ROWS], count: usize, walk: Walk) -> Option<usize>
    requires { count ≤ row_slots }
    ensures { past result ≡ newest_hit (hits walk.test) rows.now walk.low (min walk.high count) }
{
    (walk.low..walk.high.min(count))
        .rev()
        .find(|i| hits(walk.test, rows[*i]))
}

impl Rows {
    ghost use Rattle.sketches.specs.Tables.{listed};

    // A table without rows in use.
    pub(crate) fn new() -> Rows
        ensures { result.count ≡ 0 }
    {
        Rows {
            rows: [Row(0, 0, 0, 0, 0, 0); ROWS],
            count: 0,
        }
    }

    // No row is in use any more.
    pub(crate) fn clear(&mut self)
        ensures { self.new.count ≡ 0 }
    {
        self.count = 0;
    }

    // The newest row that is hit, of those that are left of a walk.
    pub(crate) fn newest_left(&self, walk: Walk) -> Option<usize>
        ensures { past result ≡ newest_hit (hits walk.test) self.now.rows walk.low (min walk.high self.now.count) }
    {
        newest_among(&self.rows, self.count, walk)
    }

    // The oldest. Stays beside `newest_left`: one search for both would take the places as an iterator, and say of it from which end it goes.
    pub(crate) fn oldest_left(&self, walk: Walk) -> Option<usize>
        ensures { past result ≡ oldest_hit (hits walk.test) self.now.rows walk.low (min walk.high self.now.count - walk.low) }
    {
        (walk.low..walk.high.min(self.count)).find(|i| hits(walk.test, self.rows[*i]))
    }

    // Whether a row is hit.
    #[tactic(auto, using(crate::specs::RowSteps::any_read))]
    pub(crate) fn any(&self, test: Test) -> bool
        ensures { result ≡ is_there_any (filter (hits test) (listed self.now)) }
    {
        self.newest_left(whole_walk(self.count, test)).is_some()
    }

    // The newest row that is hit.
    #[tactic(auto, using(crate::specs::RowSteps::newest_is_none, crate::specs::RowSteps::newest_is, crate::specs::RowSteps::newest_few))]
    pub(crate) fn newest(&self, test: Test) -> Option<Row>
        ensures { result ≡ first (filter (hits test) (listed self.now)) }
    {
        let i = self.newest_left(whole_walk(self.count, test))?;
        Some(self.rows[i])
    }

    // How many rows are hit.
    pub(crate) fn count_of(&self, test: Test) -> usize
        ensures { result ≡ length (filter (hits test) (listed self.now)) }
    {
        self.rows[..self.count]
            .iter()
            .filter(|row| hits(test, **row))
            .count()
    }

    // One row more.
    #[tactic(auto, using(crate::specs::RowSteps::row_added))]
    pub(crate) fn push(&mut self, row: Row)
        requires { self.old.count < row_slots }
        ensures { listed self.new ≡ row ∷ listed self.old }
    {
        self.rows[self.count] = row;
        self.count += 1;
    }

    // Drops the rows that are hit; the others close up. Stays a loop over the places: what is kept is stored further in front.
    #[tactic(auto, unfolding(crate::specs::Rows::rows_in), using(crate::specs::RowSteps::one_more_kept, crate::specs::RowSteps::none_more_hit, crate::specs::RowSteps::row_added, crate::specs::RowSteps::length_put, crate::specs::RowSteps::put_other))]
    pub(crate) fn drop_where(&mut self, test: Test)
        ensures { listed self.new ≡ filter (missed test) (listed self.old) }
    {
        let mut kept: usize = 0;
        for i in 0..self.count {
            let row = self.rows[i];
            if !hits(test, row) {
                self.rows[kept] = row;
                kept += 1;
            }
        }
        self.count = kept;
    }

    // The ports of all blocks.
    pub(crate) fn ports_in_all(&self) -> usize
        ensures { result ≡ ports_in_all (map block_of (listed self.now)) }
    {
        self.rows[..self.count]
            .iter()
            .map(|row| ports_of(*row))
            .sum()
    }

    // The ports of all blocks, if one of them had other counts. Stays beside `ports_in_all`: one sum for both would take the change as a closure,
    // and say of it in its contract what `recount` says.
    pub(crate) fn ports_recounted(&self, block: Row) -> usize
        ensures { result ≡ ports_in_all (map (recount block.0 block.1 block.2) (map block_of (listed self.now))) }
    {
        self.rows[..self.count]
            .iter()
            .map(|row| ports_of(recounted(*row, block)))
            .sum()
    }

    // Gives a block other counts. Stays a loop over the places: of a struct with ghost fields no field is lent to be changed.
    #[tactic(auto, unfolding(crate::specs::Rows::rows_in), using(crate::specs::RowSteps::rows_more, crate::specs::RowSteps::row_added, crate::specs::RowSteps::length_put, crate::specs::RowSteps::put_other))]
    pub(crate) fn recount(&mut self, block: Row)
        ensures { map block_of (listed self.new) ≡ map (recount block.0 block.1 block.2) (map block_of (listed self.old)) }
    {
        for i in 0..self.count {
            self.rows[i] = recounted(self.rows[i], block);
        }
    }
}

fn ports_of(block: Row) -> usize
    ensures { (result ≡ block.1 + block.2) × (result ≤ 8589934590) }
{
    wide(block.1) + wide(block.2)
}

// The row of a block, with the counts of another of its name.
fn recounted(row: Row, block: Row) -> Row
    ensures { block_of result ≡ recount block.0 block.1 block.2 (block_of row) }
{
    if row.0 == block.0 {
        return block;
    }
    row
}
