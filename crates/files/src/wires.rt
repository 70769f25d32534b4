// Holding the wires of a file against its blocks. Records are read where they stand.
ghost use Rattle.std.specs.Prelude.{◌≡◌, ◌<◌};
ghost use Rattle.files.specs.Layout.{wire_of, units_for, unbytes};
ghost use Rattle.files.specs.Loading.{view_right};
ghost use Rattle.files.specs.Forms.{said};
ghost use Rattle.files.specs.LoadForms.{place_of, BlocksRead, WiresRead, wire_fits};

use crate::bytes::{Fields, record_at};
use crate::check::Shape;
use crate::units::{UNIT_RECORDS, units_for};

// The byte position of a record by its number, among those of the units from one on.
pub(crate) fn place(unit: usize, i: usize) -> usize
    requires { place_of unit i < 18446744073709551616 }
    ensures { result ≡ place_of unit i }
{
    512 * (unit + i / UNIT_RECORDS) + 4 + 8 * (i % UNIT_RECORDS)
}

// A wire goes from an output of a block of the file to an input of one.
#[tactic(auto, unfolding(crate::specs::LoadForms::wire_fits, crate::specs::Loading::ranks_right, crate::specs::Loading::positions_right))]
fn wire_fits(file: &[u8], blocks: usize, wire: Fields) -> bool
    requires { BlocksRead file.now blocks }
    ensures { result ≡ wire_fits (unbytes file.now).blocks (wire_of (said wire)) }
{
    let source = wire.a as usize;
    let target = wire.c as usize;
    if blocks <= source || blocks <= target {
        return false;
    }
    let from = record_at(file, place(0, source));
    let to = record_at(file, place(0, target));
    wire.b < from.b && wire.d < to.a
}

// No wire precedes the one before it, and each goes between ports of blocks of the file.
// Stays over bytes and shape, as the test above: they are a `File` only where this holds.
pub(crate) fn wires_right(file: &[u8], shape: Shape) -> bool
    requires { BlocksRead file.now shape.blocks × WiresRead file.now (units_for shape.blocks) shape.wires }
    ensures { result ≡ view_right (unbytes file.now) }
{
    let unit = units_for(shape.blocks);
    let mut before: u64 = 0;
    for i in 0..shape.wires {
        let wire = record_at(file, place(unit, i));
        let number = wire.number();
        if number < before {
            return false;
        }
        if !wire_fits(file, shape.blocks, wire) {
            return false;
        }
        before = number;
    }
    true
}
