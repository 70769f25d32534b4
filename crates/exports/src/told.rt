// What an entry answers where it refuses: a number above every length. Stays a number: C calls the entries. Each entry tells its own error by a match: a From
// for each, and a type of these numbers to be made, would be as long.
ghost use Rattle.std.specs.Prelude.{◌≡◌, get_or};
ghost use Rattle.multi_tables.specs.EndAnswers.{refusal_numbers};
ghost use Rattle.exports.specs.Exports.{refused_with};

use multi_tables::answers::Refusal;
use records::answers::refusal_words;

const REFUSED: u64 = 4294967296;

// Refusals by their numbers.
pub(crate) const BAD_LENGTH: u64 = REFUSED + 1;

pub(crate) const BUFFER_SHORT: u64 = REFUSED + 15;

pub(crate) const BAD_SUMS: u64 = REFUSED + 16;

pub(crate) const BAD_LAYOUT: u64 = REFUSED + 17;

pub(crate) const BAD_TIMES: u64 = REFUSED + 19;

pub(crate) const CYCLE: u64 = REFUSED + 20;

// A refused call.
pub(crate) fn refusal_told(refusal: Refusal) -> u64
    ensures { result ≡ refused_with (get_or (refusal_numbers refusal) 0 0) }
{
    REFUSED + u64::from(refusal_words(refusal).0[0])
}
