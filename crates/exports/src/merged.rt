// Two files in, the file of both out.
ghost use Rattle.std.specs.Prelude.{◌≡◌};
ghost use Rattle.files.specs.Merging.{merge_buffer};
ghost use Rattle.exports.specs.Exports.{merge_told, merge_return};

use crate::loaded::error_told;
use crate::told::BUFFER_SHORT;
use files::merge::{MergeError, merge};

// What merging comes to, as one number.
fn merge_told(answer: Result<usize, MergeError>) -> u64
    ensures { result ≡ merge_told answer }
{
    match answer {
        Ok(size) => size as u64,
        Err(MergeError::Load(error)) => error_told(error),
        Err(MergeError::BufferShort) => BUFFER_SHORT,
    }
}

// Writes two files as one, the second behind the first. The length of the result, or 4,294,967,296 and the refusal: 16 and 17 for the first file and
// then for the second; 3 or 10 as loading the first, the second or the result for release 1 gives it; 15 if the buffer is too short. A buffer of a
// refused merge stays as it was.
#[tactic(auto, unfolding(crate::specs::Exports::merge_return))]
pub fn merge_files<'a>(first: &'a [u8], second: &'a [u8], file: &mut [u8]) -> u64
    ensures { (result ≡ merge_return first.now second.now file.old)
        × (file.new ≡ merge_buffer first.now second.now file.old) }
{
    merge_told(merge(first, second, file))
}
