// A list of requests in, the file of what it leaves out.
ghost use Rattle.std.specs.Prelude.{◌≡◌};
ghost use Rattle.exports.specs.Exports.{save_told, save_return, save_written};

use crate::left::run_left;
use crate::told::{BAD_LENGTH, BUFFER_SHORT};
use files::save::{BufferShort, save};
use multiportgraph::multiportgraph::MultiPortGraph;
use port_tables::release::Release;

// What saving comes to, as one number.
fn save_told(answer: Result<usize, BufferShort>) -> u64
    ensures { result ≡ save_told answer }
{
    match answer {
        Ok(size) => size as u64,
        Err(BufferShort) => BUFFER_SHORT,
    }
}

// Runs a list of requests from an empty graph of release 1, past refused calls, and writes the file of the graph that it leaves. The file's length, or
// 4,294,967,296 and the refusal: 1 if the length of the list is not a multiple of 20, 15 if the buffer is too short, which then stays as it was.
#[tactic(auto, unfolding(crate::specs::Exports::save_return, crate::specs::Exports::save_written, crate::specs::Exports::list_whole))]
pub fn save_records(requests: &[u8], file: &mut [u8]) -> u64
    ensures { (result ≡ save_return requests.now file.old)
        × (file.new ≡ save_written requests.now file.old) }
{
    if requests.len() % 20 != 0 {
        return BAD_LENGTH;
    }
    let mut graph = MultiPortGraph::new(Release::One);
    run_left(&mut graph, requests);
    save_told(save(&graph, file))
}
