// Two files as one: both are held against their layout, then they and the result are built; then the result is written.
ghost use Rattle.std.specs.Prelude.{◌≡◌, ◌++◌, map, ◌+◌, ◌*◌, ◌≤◌, ◌<◌, length};
ghost use Rattle.std.proofs.lemmas.List.Edits.{sets};
ghost use Rattle.port_tables.specs.Lists.{range};
ghost use Rattle.port_tables.specs.declared.release.Release.TheVariants.{One};
ghost use Rattle.files.specs.Layout.{block_of, block_record, wire_of, wire_record, units_for, units_of, unbytes};
ghost use Rattle.files.specs.Loading.{load_answer};
ghost use Rattle.files.specs.Forms.{number_of, said};
ghost use Rattle.files.specs.Merging.{raised, merged_file, result_answer, merge_answer, buffer_if, merge_buffer};
ghost use Rattle.files.specs.declared.merge.MergeError.TheVariants.{Load};
ghost use Rattle.files.specs.MergeForms.{block_read, wire_read, RaisedAt, RaisedFit, BothFew};

use crate::bytes::Fields;
use crate::check::Shape;
use crate::file::File;
use crate::load::{LoadError, build_answer, laid};
use crate::save::file_length;
use crate::units::put_units;
use port_tables::index::{NODE_SLOTS, PORT_SLOTS};
use port_tables::release::Release;

// So many wires have two files that load, at most; they have fewer blocks.
const MOST_RECORDS: usize = PORT_SLOTS;

// No result of two such files is longer, loaded or not. What `units_for` says is written out, since a constant can call nothing.
const LONGEST_RESULT: usize = 512 * ((2 * NODE_SLOTS + 62) / 63 + (MOST_RECORDS + 62) / 63);

// Why a merge is refused.
#[derive(Clone, Copy)]
pub enum MergeError {
    // 16 or 17, of the first file or the second; 3 or 10: what loading the first file, the second or the result for release 1 gives.
    Load(LoadError),
    // Refusal 15: the lent buffer is too short, and stayed as it was.
    BufferShort,
}

impl From<LoadError> for MergeError {
    ghost from_gives = { λ error told. told ≡ Load error };

    fn from(error: LoadError) -> MergeError {
        MergeError::Load(error)
    }
}

// The record of a block, as a number: its last two fields are zero.
fn block_number(block: Fields) -> u64
    ensures { result ≡ number_of (block_record (block_of (said block))) }
{
    Fields {
        c: 0,
        d: 0,
        ..block
    }
    .number()
}

// The records of the blocks of a file, as numbers, in a list with a place for each.
// Stays beside `read_wires`: one for both would take what reads a record as a closure, with its contract.
#[tactic(auto, using(crate::specs::MergeSteps::numbers_begin, crate::specs::MergeSteps::numbers_all))]
fn read_blocks(file: File, numbers: &mut [u64])
    requires { length numbers.old ≡ file.shape.blocks }
    ensures { numbers.new ≡ map (block_read file.entry.bytes.now) (range 0 file.entry.shape.blocks) }
{
    for (i, number) in numbers.iter_mut().enumerate() {
        *number = block_number(file.block(i));
    }
}

// The record of a wire, its ranks raised, as a number.
fn raised_number(wire: Fields, raise: u16) -> u64
    requires { RaisedAt (said wire) raise }
    ensures { result ≡ number_of (wire_record (raised raise (wire_of (said wire)))) }
{
    Fields {
        a: raise + wire.a,
        c: raise + wire.c,
        ..wire
    }
    .number()
}

// The records of the wires of a file, their ranks raised, as numbers, in a list with a place for each.
#[tactic(auto, using(crate::specs::MergeSteps::numbers_begin, crate::specs::MergeSteps::numbers_all))]
fn read_wires(file: File, raise: u16, numbers: &mut [u64])
    requires { RaisedFit file.bytes.now (units_for file.shape.blocks) file.shape.wires raise × (length numbers.old ≡ file.shape.wires) }
    ensures { numbers.new ≡ map (wire_read file.entry.bytes.now (units_for file.entry.shape.blocks) raise) (range 0 file.entry.shape.wires) }
{
    for (i, number) in numbers.iter_mut().enumerate() {
        *number = raised_number(file.wire(i), raise);
    }
}

// Two files, of which both load.
#[derive(Clone, Copy)]
struct Both<'a> {
    first: File<'a>,
    second: File<'a>,
    ghost few: { BothFew first.shape.blocks first.shape.wires second.shape.blocks second.shape.wires },
}

impl<'a> Both<'a> {
    // How many blocks and wires the result has.
    fn shape(self) -> Shape
        ensures { (result.blocks ≡ self.entry.first.shape.blocks + self.entry.second.shape.blocks) × (result.wires ≡ self.entry.first.shape.wires + self.entry.second.shape.wires) }
    {
        Shape {
            blocks: self.first.shape.blocks + self.second.shape.blocks,
            wires: self.first.shape.wires + self.second.shape.wires,
        }
    }

    // The length of the result.
    #[tactic(auto, using(crate::specs::MergeSteps::result_length))]
    fn size(self) -> usize
        ensures { result ≡ length (merged_file self.entry.first.bytes.now self.entry.second.bytes.now) }
    {
        let shape = self.shape();
        file_length(shape.blocks, shape.wires)
    }

    // Lays the units of the blocks of both from the buffer's start on; answers the place after them.
    fn put_blocks(self, numbers: &mut [u64], buffer: &mut [u8]) -> usize
        requires { (self.first.shape.blocks + self.second.shape.blocks ≤ length numbers.old) × (512 * units_for (self.first.shape.blocks + self.second.shape.blocks) ≤ length buffer.old) }
        ensures { (result ≡ 512 * units_for (self.entry.first.shape.blocks + self.entry.second.shape.blocks))
            × (buffer.new ≡ sets buffer.old 0 (units_of 1 (map block_record ((unbytes self.entry.first.bytes.now).blocks ++ (unbytes self.entry.second.bytes.now).blocks)))) }
    {
        let count = self.shape().blocks;
        read_blocks(self.first, &mut numbers[..self.first.shape.blocks]);
        read_blocks(self.second, &mut numbers[self.first.shape.blocks..count]);
        put_units(buffer, 0, 1, &numbers[..count])
    }

    // Lays the units of the wires of both from a place on, the second's ranks raised.
    fn put_wires(self, numbers: &mut [u64], buffer: &mut [u8], at: usize)
        requires { (self.first.shape.wires + self.second.shape.wires ≤ length numbers.old) × (at + 512 * units_for (self.first.shape.wires + self.second.shape.wires) ≤ length buffer.old) }
        ensures { buffer.new ≡ sets buffer.old at (units_of 2 (map wire_record ((unbytes self.entry.first.bytes.now).wires ++ map (raised self.entry.first.shape.blocks) (unbytes self.entry.second.bytes.now).wires))) }
    {
        let count = self.shape().wires;
        read_wires(self.first, 0, &mut numbers[..self.first.shape.wires]);
        read_wires(
            self.second,
            self.first.shape.blocks as u16,
            &mut numbers[self.first.shape.wires..count],
        );
        put_units(buffer, at, 2, &numbers[..count]);
    }

    // Lays the result from the buffer's start on.
    #[tactic(auto, unfolding(crate::specs::Layout::file_length), using(crate::specs::MergeSteps::result_length))]
    fn put(self, buffer: &mut [u8])
        requires { length (merged_file self.first.bytes.now self.second.bytes.now) ≤ length buffer.old }
        ensures { buffer.new ≡ sets buffer.old 0 (merged_file self.entry.first.bytes.now self.entry.second.bytes.now) }
    {
        let mut numbers = [0u64; MOST_RECORDS];
        let at = self.put_blocks(&mut numbers, buffer);
        self.put_wires(&mut numbers, buffer, at);
    }

    // What loading the result for release 1 answers.
    fn answer(self) -> Result<(), LoadError>
        ensures { result ≡ load_answer One (merged_file self.entry.first.bytes.now self.entry.second.bytes.now) }
    {
        let mut result = [0u8; LONGEST_RESULT];
        self.put(&mut result);
        let size = self.size();
        let file = File::new(&result[..size], self.shape());
        build_answer(Release::One, file)
    }

    // Writes the result, which loads, where the buffer is long enough.
    #[tactic(auto, unfolding(crate::specs::Merging::result_answer))]
    fn write(self, buffer: &mut [u8]) -> Result<usize, MergeError>
        ensures { (result ≡ result_answer (merged_file self.entry.first.bytes.now self.entry.second.bytes.now) buffer.old)
            × (buffer.new ≡ buffer_if result (merged_file self.entry.first.bytes.now self.entry.second.bytes.now) buffer.old) }
    {
        let size = self.size();
        if buffer.len() < size {
            return Err(MergeError::BufferShort);
        }
        self.put(buffer);
        Ok(size)
    }
}

// Merges two files: the first, the second and the result must load for release 1.
#[tactic(auto, unfolding(crate::specs::Merging::merge_answer, crate::specs::Merging::merge_buffer), using(crate::specs::MergeSteps::both_few))]
fn merge_laid<'a>(first: File<'a>, second: File<'a>, buffer: &mut [u8]) -> Result<usize, MergeError>
    ensures { (result ≡ merge_answer first.entry.bytes.now second.entry.bytes.now buffer.old)
        × (buffer.new ≡ merge_buffer first.entry.bytes.now second.entry.bytes.now buffer.old) }
{
    build_answer(Release::One, first)?;
    build_answer(Release::One, second)?;
    let both = Both { first, second };
    both.answer()?;
    both.write(buffer)
}

// Writes two files as one to a lent buffer and answers the length of the result: the blocks of the second behind those of the first, its wires with
// their ranks raised by the first's block count. Sums and layout of both are held first; then both and the result must load for release 1. Bytes
// past the result keep their contents, and a refused merge writes nothing.
#[tactic(auto, unfolding(crate::specs::Merging::merge_answer, crate::specs::Merging::merge_buffer))]
pub fn merge<'a>(first: &'a [u8], second: &'a [u8], buffer: &mut [u8]) -> Result<usize, MergeError>
    ensures { (result ≡ merge_answer first.now second.now buffer.old)
        × (buffer.new ≡ merge_buffer first.now second.now buffer.old) }
{
    merge_laid(laid(first)?, laid(second)?, buffer)
}
