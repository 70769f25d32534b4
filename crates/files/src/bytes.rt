// Fields, words and records in bytes, the least significant byte first. Stay beside the words of `records`: each is a call of the library, and a crate below both would have no more
// than these.
ghost use Rattle.std.specs.Prelude.{◌≡◌, ◌+◌, ◌≤◌, ◌<◌, length};
ghost use Rattle.std.proofs.lemmas.List.Edits.{sets};
ghost use Rattle.files.specs.Layout.{field_bytes, word_bytes, field_at, word_at, record_bytes};
ghost use Rattle.files.specs.Forms.{number_of, record_of, said};
ghost use Rattle.files.specs.LoadForms.{record_in};

// The field at a byte position.
#[tactic(auto, unfolding(crate::specs::Layout::field_at))]
pub(crate) fn field_at(bytes: &[u8], i: usize) -> u16
    requires { i + 2 ≤ length bytes.now }
    ensures { result ≡ field_at bytes.now i }
{
    u16::from_le_bytes([bytes[i], bytes[i + 1]])
}

// The word at a byte position.
#[tactic(auto, unfolding(crate::specs::Layout::field_at, crate::specs::Layout::word_at))]
pub(crate) fn word_at(bytes: &[u8], i: usize) -> u32
    requires { i + 4 ≤ length bytes.now }
    ensures { result ≡ word_at bytes.now i }
{
    u32::from_le_bytes([bytes[i], bytes[i + 1], bytes[i + 2], bytes[i + 3]])
}

// Lays a field's two bytes from a byte position on.
#[tactic(auto, unfolding(crate::specs::Layout::field_bytes), using(multiportgraph::specs::ListSteps::laid))]
pub(crate) fn put_field(bytes: &mut [u8], i: usize, field: u16)
    requires { i + 2 ≤ length bytes.old }
    ensures { bytes.new ≡ sets bytes.old i (field_bytes field) }
{
    bytes[i..i + 2].copy_from_slice(&field.to_le_bytes());
}

// Lays a word's four bytes from a byte position on.
#[tactic(auto, unfolding(crate::specs::Layout::word_bytes, crate::specs::Layout::field_bytes), using(crate::specs::ByteSteps::four_bytes, multiportgraph::specs::ListSteps::laid))]
pub(crate) fn put_word(bytes: &mut [u8], i: usize, word: u32)
    requires { i + 4 ≤ length bytes.old }
    ensures { bytes.new ≡ sets bytes.old i (word_bytes word) }
{
    bytes[i..i + 4].copy_from_slice(&word.to_le_bytes());
}

// Lays a record's eight bytes from a byte position on; the record is one number, its first field the most significant.
// A record stays one number until it is laid: the order of these numbers is that of the records, so that the library's sort serves with no order of our own,
// and with no law that such an order is this one.
// Stay quotients: `to_be_bytes` gives the fields in this order, but the bytes of each the other way around.
#[tactic(auto, using(crate::specs::ByteSteps::record_laid))]
pub(crate) fn put_record(bytes: &mut [u8], i: usize, number: u64)
    requires { i + 8 ≤ length bytes.old }
    ensures { bytes.new ≡ sets bytes.old i (record_bytes (record_of number)) }
{
    put_field(bytes, i, (number / 281474976710656) as u16);
    put_field(bytes, i + 2, (number / 4294967296 % 65536) as u16);
    put_field(bytes, i + 4, (number / 65536 % 65536) as u16);
    put_field(bytes, i + 6, (number % 65536) as u16);
}

// A record. That of a block has its counts and two zeros, that of a wire the rank and the position of each end.
#[derive(Clone, Copy)]
pub(crate) struct Fields {
    pub a: u16,
    pub b: u16,
    pub c: u16,
    pub d: u16,
}

// The record at a byte position.
pub(crate) fn record_at(bytes: &[u8], at: usize) -> Fields
    requires { at + 8 ≤ length bytes.now }
    ensures { said result ≡ record_in bytes.now at }
{
    Fields {
        a: field_at(bytes, at),
        b: field_at(bytes, at + 2),
        c: field_at(bytes, at + 4),
        d: field_at(bytes, at + 6),
    }
}

impl Fields {
    // A record as one number, its first field the most significant.
    // Stays a method: a `From` would say this clause in a law beside its function.
    #[tactic(auto, unfolding(crate::specs::Forms::number_of))]
    pub(crate) fn number(self) -> u64
        ensures { result ≡ number_of (said self) }
    {
        281474976710656 * self.a as u64
            + 4294967296 * self.b as u64
            + 65536 * self.c as u64
            + self.d as u64
    }
}
