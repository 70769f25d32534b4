// The ports of the blocks of a file as they are built: one block's ports after the other's, inputs first.
ghost use Rattle.std.specs.Prelude.{◌≡◌, ◌≤◌, ◌<◌};
ghost use Rattle.port_tables.specs.Limits.{node_slots};
ghost use Rattle.files.specs.Layout.{wire_of, units_for, unbytes};
ghost use Rattle.files.specs.Loading.{out_port, in_port};
ghost use Rattle.files.specs.Forms.{said};
ghost use Rattle.files.specs.LoadForms.{record_in, place_of, Firsts, Linkable};

use crate::bytes::Fields;
use crate::file::File;
use port_tables::index::{NODE_SLOTS, PortIndex};

// A file whose blocks fit the node table, with the first port of each.
#[derive(Clone, Copy)]
pub(crate) struct Ports<'a> {
    pub file: File<'a>,
    pub firsts: &'a [u32; NODE_SLOTS],
    ghost told: { Firsts firsts.now file.bytes.now file.shape.blocks },
    ghost few: { file.shape.blocks ≤ node_slots },
}

// Enters the first port of each block in a table, whatever it holds. Stays a range: the table has a place for each node slot, and blocks are fewer.
pub(crate) fn fill_firsts(firsts: &mut [u32; NODE_SLOTS], file: File)
    requires { file.shape.blocks ≤ node_slots }
    ensures { Firsts firsts.new file.entry.bytes.now file.entry.shape.blocks }
{
    *firsts = [0; NODE_SLOTS];
    let mut next: u64 = 0;
    for i in 0..file.shape.blocks {
        firsts[i] = next as u32;
        let block = file.block(i);
        next += block.a as u64 + block.b as u64;
    }
}

impl<'a> Ports<'a> {
    // The output of the wire of a record.
    fn out_port(self, wire: Fields) -> PortIndex
        requires { Linkable self.firsts.now self.file.bytes.now self.file.shape.blocks (said wire) }
        ensures { result.0 ≡ out_port (unbytes self.entry.file.bytes.now).blocks (wire_of (said wire)) }
    {
        let source = wire.a as usize;
        let block = self.file.block(source);
        PortIndex((self.firsts[source] as u64 + block.a as u64 + wire.b as u64) as u32)
    }

    // Its input.
    fn in_port(self, wire: Fields) -> PortIndex
        requires { Linkable self.firsts.now self.file.bytes.now self.file.shape.blocks (said wire) }
        ensures { result.0 ≡ in_port (unbytes self.entry.file.bytes.now).blocks (wire_of (said wire)) }
    {
        PortIndex((self.firsts[wire.c as usize] as u64 + wire.d as u64) as u32)
    }

    // The ports of a wire by its number: an output, and the input that it goes to.
    #[tactic(auto, using(crate::specs::BuildSteps::linkable))]
    pub(crate) fn ends(self, i: usize) -> (PortIndex, PortIndex)
        requires { i < self.file.shape.wires }
        ensures { (result.0.0 ≡ out_port (unbytes self.entry.file.bytes.now).blocks (wire_of (record_in self.entry.file.bytes.now (place_of (units_for self.entry.file.shape.blocks) i))))
            × (result.1.0 ≡ in_port (unbytes self.entry.file.bytes.now).blocks (wire_of (record_in self.entry.file.bytes.now (place_of (units_for self.entry.file.shape.blocks) i)))) }
    {
        let wire = self.file.wire(i);
        (self.out_port(wire), self.in_port(wire))
    }
}
