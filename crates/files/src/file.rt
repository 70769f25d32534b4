// A file that was held against its layout: its bytes are laid as the writer lays them.
ghost use Rattle.std.specs.Prelude.{◌≡◌, ◌<◌};
ghost use Rattle.files.specs.Claims.{Bytes};
ghost use Rattle.files.specs.Layout.{units_for};
ghost use Rattle.files.specs.Forms.{said};
ghost use Rattle.files.specs.LoadForms.{place_of, record_in, Laid};

use crate::bytes::{Fields, record_at};
use crate::check::Shape;
use crate::units::units_for;
use crate::wires::place;

#[derive(Clone, Copy)]
pub(crate) struct File<'a> {
    pub bytes: &'a [u8],
    pub shape: Shape,
    ghost small: { Bytes bytes.now },
    ghost laid: { Laid bytes.now shape.blocks shape.wires },
}

impl<'a> File<'a> {
    pub(crate) fn new(bytes: &'a [u8], shape: Shape) -> Self
        requires { Laid bytes.now shape.blocks shape.wires }
        ensures { result.bytes.now ≡ bytes.now }
    {
        File { bytes, shape }
    }

    // The record of a block.
    pub(crate) fn block(self, i: usize) -> Fields
        requires { i < self.shape.blocks }
        ensures { said result ≡ record_in self.entry.bytes.now (place_of 0 i) }
    {
        record_at(self.bytes, place(0, i))
    }

    // The record of a wire; they stand behind the units of the blocks.
    pub(crate) fn wire(self, i: usize) -> Fields
        requires { i < self.shape.wires }
        ensures { said result ≡ record_in self.entry.bytes.now (place_of (units_for self.entry.shape.blocks) i) }
    {
        record_at(self.bytes, place(units_for(self.shape.blocks), i))
    }
}
