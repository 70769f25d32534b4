// Holding a file against its layout: the sums of its units, and what each unit says by itself.
ghost use Rattle.std.specs.List.{list_all};
ghost use Rattle.std.specs.Prelude.{◌≡◌, false, ◌-◌, ◌/◌, ◌%◌, ◌≤◌, eqb, length, take, drop, MatchOption};
ghost use Rattle.files.specs.Layout.{records_at};
ghost use Rattle.files.specs.Loading.{sum_holds, is_whole, unit_list, block_zeros, units_right};
ghost use Rattle.files.specs.LoadForms.{kind_fits, count_fits, unit_fits, ShapeIs};

use crate::bytes::{field_at, word_at};
use crate::units::{UNIT_RECORDS, sum_words};

// The sum of a unit is that of the words before it.
// That a unit has 512 bytes stays a clause, here and below: what `chunks_exact` lends is a slice, and making it an array is a step that can fail.
#[tactic(auto, unfolding(crate::specs::Loading::sum_holds), using(crate::specs::CheckSteps::sum_is))]
fn sum_holds(unit: &[u8]) -> bool
    requires { length unit.now ≡ 512 }
    ensures { result ≡ sum_holds unit.now }
{
    word_at(unit, 508) == sum_words(&unit[..508])
}

// The length is that of whole units, and all sums are right.
#[tactic(auto, unfolding(crate::specs::Loading::is_whole))]
pub(crate) fn is_whole(file: &[u8]) -> bool
    ensures { result ≡ is_whole file.now }
{
    file.len() % 512 == 0 && file.chunks_exact(512).all(|unit| sum_holds(unit))
}

// A kind, and that of the next unit, 0 for none: blocks, then wires.
fn kind_right(kind: u16, next: u16) -> bool
    ensures { result ≡ kind_fits kind next }
{
    kind == 1 || (kind == 2 && next != 1)
}

// A count: 1 to 63, and 63 where the next unit is of the same kind.
fn count_right(kind: u16, next: u16, count: u16) -> bool
    ensures { result ≡ count_fits kind next count }
{
    let count = count as usize;
    0 < count && count <= UNIT_RECORDS && (next != kind || count == UNIT_RECORDS)
}

// The bytes from one on up to the sum are zero.
fn zeros_from(unit: &[u8], from: usize) -> bool
    requires { (length unit.now ≡ 512) × (from ≤ 508) }
    ensures { result ≡ list_all (eqb 0) (take (508 - from) (drop from unit.now)) }
{
    unit[from..508].iter().all(|byte| *byte == 0)
}

// The last two fields of each record are zero, as they are of a block's.
#[tactic(auto, using(crate::specs::CheckSteps::zeros_tested))]
fn block_zeros(records: &[u8]) -> bool
    requires { length records.now % 8 ≡ 0 }
    ensures { result ≡ list_all block_zeros (records_at (length records.now / 8) records.now) }
{
    records
        .chunks_exact(8)
        .all(|record| word_at(record, 4) == 0)
}

// What a unit says by itself, before one of a kind, 0 for none: kind, count and zeros.
#[tactic(auto, unfolding(crate::specs::LoadForms::unit_fits, crate::specs::Loading::zeros_right))]
fn unit_right(unit: &[u8], next: u16) -> bool
    requires { length unit.now ≡ 512 }
    ensures { result ≡ unit_fits unit.now next }
{
    let kind = field_at(unit, 0);
    let count = field_at(unit, 2);
    if !kind_right(kind, next) {
        return false;
    }
    if !count_right(kind, next, count) {
        return false;
    }
    let end = 4 + 8 * (count as usize);
    if !zeros_from(unit, end) {
        return false;
    }
    if kind == 1 {
        return block_zeros(&unit[4..end]);
    }
    true
}

// How many blocks and wires a file has.
#[derive(Clone, Copy)]
pub struct Shape {
    pub blocks: usize,
    pub wires: usize,
}

// The shape of a file whose units are all right by themselves. From the last unit to the first: each is held against the kind of the one behind it, 0 for none. This stays a
// number, as the file's own kinds are: units of any kind are held against it.
#[tactic(auto, using(crate::specs::CheckSteps::shape_begins, crate::specs::CheckSteps::shape_blocks, crate::specs::CheckSteps::shape_wires))]
pub(crate) fn shape_of(file: &[u8]) -> Option<Shape>
    requires { length file.now % 512 ≡ 0 }
    ensures { MatchOption result (units_right (unit_list file.now) ≡ false) (λ s. ShapeIs file.now s.blocks s.wires) }
{
    let mut blocks: usize = 0;
    let mut wires: usize = 0;
    let mut next: u16 = 0;
    for unit in file.rchunks_exact(512) {
        if !unit_right(unit, next) {
            return None;
        }
        let count = field_at(unit, 2) as usize;
        next = field_at(unit, 0);
        if next == 1 {
            blocks += count;
        } else {
            wires += count;
        }
    }
    Some(Shape { blocks, wires })
}
