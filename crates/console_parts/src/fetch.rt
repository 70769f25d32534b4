// A file read whole, and the wiring that it holds.
ghost use Rattle.multiportgraph.specs.WellFormed.{MultiWf};

use crate::orders::Order;
use crate::replies::{Reason, show_refusal, show_refusal_number};
use crate::store::{path_of, show_failure};
use files::load::{LoadError, load};
use files::merge::MergeError;
use lines::show::write_bytes;
use lines::text::{next_word, part};
use multiportgraph::multiportgraph::MultiPortGraph;
use std::fs::Files;
use std::io::{ErrorKind, Read};
use std::{fs, io};

// Room for the most bytes of a file that is read, and for one more, which shows that there are more.
pub(crate) const FILE_ROOM: usize = 65537;

// Reads a file to its end.
// Stays a while: each read says itself how far it came. Stays beside the `read_full` of a replay, which takes what came before a failed read; here that is an error.
fn read_all<'a, I: Read>(file: &mut I, buffer: &'a mut [u8]) -> io::Result<&'a [u8]> {
    let mut len: usize = 0;
    while len < buffer.len() {
        let count = file.read(&mut buffer[len..])?;
        if count == 0 {
            return Ok(&buffer[..len]);
        }
        len += count;
    }
    Err(io::Error::from(ErrorKind::FileTooLarge))
}

// Reads the file of a name.
fn read_file<'a>(rt: &impl Files, name: &[u8], buffer: &'a mut [u8]) -> io::Result<&'a [u8]> {
    let mut file = fs::open(rt, path_of(name)?)?;
    read_all(&mut file, buffer)
}

// The same; where it cannot be read, that is said.
pub(crate) fn fetch<'a>(
    rt: &(impl Files + Print),
    name: &[u8],
    buffer: &'a mut [u8],
) -> Option<&'a [u8]> {
    match read_file(rt, name, buffer) {
        Ok(bytes) => Some(bytes),
        Err(error) => {
            show_failure(rt, b"cannot read ", name, error);
            None
        }
    }
}

// Why a file is refused.
fn show_load_refusal(rt: &impl Print, error: LoadError) {
    match error {
        LoadError::BadSums => show_refusal_number(rt, Reason::BadSums),
        LoadError::BadLayout => show_refusal_number(rt, Reason::BadLayout),
        LoadError::Refused(refusal) => show_refusal(rt, refusal),
    }
}

// Why two files as one are refused.
pub(crate) fn show_file_refusal(rt: &impl Print, error: MergeError) {
    match error {
        MergeError::Load(error) => show_load_refusal(rt, error),
        MergeError::BufferShort => show_refusal_number(rt, Reason::BufferShort),
    }
}

// The wiring of the file whose name stands in the line, for the release of the one in hand, which stays where the file cannot be read or is
// refused. Stay four parameters, as those of `run` in the console of a wiring: a struct of them would be made for this call alone.
pub fn load_from(
    rt: &(impl Files + Print),
    graph: MultiPortGraph,
    order: Order,
    text: &[u8],
) -> MultiPortGraph
    requires { MultiWf graph }
    ensures { MultiWf result }
{
    let name = part(text, next_word(text, order.from));
    let mut buffer = [0u8; FILE_ROOM];
    let Some(bytes) = fetch(rt, name, &mut buffer) else {
        return graph;
    };
    let loaded = load(graph.release(), bytes);
    match loaded.answer {
        Ok(()) => {
            write_bytes(rt, b"ok\n");
            loaded.graph
        }
        Err(error) => {
            show_load_refusal(rt, error);
            graph
        }
    }
}
