// A file in, the adds and links that build its wiring out, as requests.
ghost use Rattle.std.specs.Prelude.{◌≡◌, ◌+◌, ◌≤◌, length, get_or, Err};
ghost use Rattle.std.proofs.lemmas.List.Edits.{sets};
ghost use Rattle.files.specs.Loading.{load_numbers};
ghost use Rattle.exports.specs.Exports.{refused_with, records_return, records_written, pair_requests};

use crate::told::{BAD_LAYOUT, BAD_SUMS, BUFFER_SHORT, refusal_told};
use files::listing::{BUILD_NUMBERS, list_build};
use files::load::LoadError;
use port_tables::release::Release;
use records::words::put_words;

// Lays a request of a code for each two numbers; answers the place after them.
// The code stays a number, as in a request of `records`. Laid by place: of chunks that are lent to be written, a proof keeps the length alone.
#[tactic(auto, using(crate::specs::LoadedSteps::requests_counted, crate::specs::LoadedSteps::requests_end))]
fn put_requests(requests: &mut [u8], at: usize, code: u32, numbers: &[u32]) -> usize
    requires { at + length (pair_requests code numbers.now) ≤ length requests.old }
    ensures { (result ≡ at + length (pair_requests code numbers.now))
        × (requests.new ≡ sets requests.old at (pair_requests code numbers.now)) }
{
    for (k, pair) in numbers.chunks_exact(2).enumerate() {
        put_words(requests, at + 20 * k, &[code, pair[0], pair[1], 0, 0]);
    }
    at + 20 * (numbers.len() / 2)
}

// A refused load, as one number.
pub(crate) fn error_told(error: LoadError) -> u64
    ensures { result ≡ refused_with (get_or (load_numbers (Err error)) 0 0) }
{
    match error {
        LoadError::BadSums => BAD_SUMS,
        LoadError::BadLayout => BAD_LAYOUT,
        LoadError::Refused(refusal) => refusal_told(refusal),
    }
}

// Lays the adds and links that build the wiring of a file for release 1, as requests, so that a list which begins with them goes on from the loaded graph. Their length,
// or 4,294,967,296 and the refusal: 16 and 17 as loading gives them, 3 or 10 as the first add or link that is refused, 15 if the buffer is too short. A buffer
// of a refused file stays as it was.
#[tactic(auto, using(crate::specs::LoadedSteps::adds_few, crate::specs::LoadedSteps::links_few, crate::specs::LoadedSteps::first_many, crate::specs::LoadedSteps::first_room, crate::specs::LoadedSteps::second_room, crate::specs::LoadedSteps::loaded, crate::specs::LoadedSteps::whole_long), unfolding(crate::specs::Exports::records_return, crate::specs::Exports::records_written, multiportgraph::specs::Listed::list_after))]
pub fn records_of_file(file: &[u8], requests: &mut [u8]) -> u64
    ensures { (result ≡ records_return file.now requests.old)
        × (requests.new ≡ records_written file.now requests.old) }
{
    let mut numbers = [0u32; BUILD_NUMBERS];
    let listed = match list_build(Release::One, file, &mut numbers) {
        Ok(listed) => listed,
        Err(error) => return error_told(error),
    };
    let blocks = listed.blocks;
    let wires = listed.wires;
    let size = 20 * (blocks + wires);
    if requests.len() < size {
        return BUFFER_SHORT;
    }
    let first = 2 * blocks;
    let last = 2 * (blocks + wires);
    let next = put_requests(requests, 0, 1, &numbers[..first]);
    put_requests(requests, next, 4, &numbers[first..last]);
    size as u64
}
