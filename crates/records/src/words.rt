// Little-endian words in bytes. Stay beside those of `files`: each is a call of the library, and a crate below both would have no more than these.
ghost use Rattle.std.specs.Prelude.{◌≡◌, [], ◌∷◌, ◌+◌, ◌*◌, ◌≤◌, length};
ghost use Rattle.std.proofs.lemmas.List.Edits.{sets};
ghost use Rattle.records.specs.Words.{word_at, bytes_of};

// The word at a byte position.
#[tactic(auto, unfolding(crate::specs::Words::word_at))]
pub(crate) fn word_at(bytes: &[u8], i: usize) -> u32
    requires { i + 4 ≤ length bytes.now }
    ensures { result ≡ word_at bytes.now i }
{
    u32::from_le_bytes([bytes[i], bytes[i + 1], bytes[i + 2], bytes[i + 3]])
}

// Lays a word's four bytes from a byte position on.
#[tactic(auto, using(crate::specs::WordSteps::word_laid))]
pub fn put_word(bytes: &mut [u8], i: usize, word: u32)
    requires { i + 4 ≤ length bytes.old }
    ensures { bytes.new ≡ sets bytes.old i (bytes_of (word ∷ [])) }
{
    bytes[i..i + 4].copy_from_slice(&word.to_le_bytes());
}

// Lays words one after the other, from a byte position on.
// Laid by place: of chunks that are lent to be written, a proof keeps the length alone.
#[tactic(auto, using(crate::specs::WordSteps::words_end))]
pub fn put_words(bytes: &mut [u8], at: usize, words: &[u32])
    requires { at + 4 * length words.now ≤ length bytes.old }
    ensures { bytes.new ≡ sets bytes.old at (bytes_of words.now) }
{
    for (i, word) in words.iter().enumerate() {
        put_word(bytes, at + 4 * i, *word);
    }
}
