// Units of 512 bytes.
ghost use Rattle.std.specs.Prelude.{◌≡◌, ◌+◌, ◌-◌, ◌*◌, ◌≤◌, length, replicate};
ghost use mathlib.Core.List.{◌++◌, map, flat_map};
ghost use Rattle.std.proofs.lemmas.List.Edits.{sets};
ghost use Rattle.files.specs.Layout.{record_bytes, unit_records, sum_of, unit, units_for, units_of};
ghost use Rattle.files.specs.Forms.{record_of};

use crate::bytes::{put_field, put_record, put_word, word_at};

// The most records of a unit.
pub(crate) const UNIT_RECORDS: usize = 63;

// So many units hold so many records.
#[tactic(auto, using(crate::specs::UnitSteps::units_counted))]
pub(crate) fn units_for(records: usize) -> usize
    ensures { result ≡ units_for records }
{
    records.div_ceil(UNIT_RECORDS)
}

// Lays the records of a unit from a byte position on; unused ones are zero. Laid by place, as units are below: of chunks that are lent to be written, a proof keeps the length alone.
fn put_records(bytes: &mut [u8], at: usize, records: &[u64])
    requires { (at + 504 ≤ length bytes.old) × (length records.now ≤ unit_records) }
    ensures { bytes.new ≡ sets bytes.old at (flat_map record_bytes (map record_of records.now) ++ replicate (8 * (unit_records - length records.now)) 0) }
{
    for (i, record) in records.iter().enumerate() {
        put_record(bytes, at + 8 * i, *record);
    }
    let end = at + 8 * records.len();
    bytes[end..at + 504].fill(0);
}

// The sum, modulo 4,294,967,296, of the 127 words before the sum of a unit.
pub(crate) fn sum_words(words: &[u8]) -> u32
    requires { length words.now ≡ 508 }
    ensures { result ≡ sum_of words.now }
{
    words
        .chunks_exact(4)
        .fold(0u32, |sum, word| sum.wrapping_add(word_at(word, 0)))
}

// Lays a unit of these records. The kind stays a number: the definitions say `units_of 1` and `units_of 2`, and an enum would be turned into that number by the only function
// that reads it, this one.
#[tactic(auto, using(crate::specs::UnitSteps::unit_laid))]
fn put_unit(bytes: &mut [u8], at: usize, kind: u16, records: &[u64])
    requires { (at + 512 ≤ length bytes.old) × (length records.now ≤ unit_records) }
    ensures { bytes.new ≡ sets bytes.old at (unit kind (map record_of records.now)) }
{
    put_field(bytes, at, kind);
    put_field(bytes, at + 2, records.len() as u16);
    put_records(bytes, at + 4, records);
    let sum = sum_words(&bytes[at..at + 508]);
    put_word(bytes, at + 508, sum);
}

// Lays all units of a kind; answers the place after the last.
#[tactic(auto, using(crate::specs::UnitSteps::laying_ends, crate::specs::UnitSteps::unit_room))]
pub(crate) fn put_units(bytes: &mut [u8], at: usize, kind: u16, records: &[u64]) -> usize
    requires { at + 512 * units_for (length records.now) ≤ length bytes.old }
    ensures { (result ≡ at + 512 * units_for (length records.now))
        × (bytes.new ≡ sets bytes.old at (units_of kind (map record_of records.now))) }
{
    for (i, part) in records.chunks(UNIT_RECORDS).enumerate() {
        put_unit(bytes, at + 512 * i, kind, part);
    }
    at + 512 * units_for(records.len())
}
