// Answers as lines: `ok` or `refused` with numbers, and `bad line`. A line that says no ends in its reason, for people.
use lines::show::{Line, show_number};
use multi_tables::answers::{PortPlace, Refusal, SubportIndex};
use records::answers::{Answer5, refusal_words};
use std::fmt;
use std::fmt::Write;

// Why a sheet, a file or a question for times is refused, by the number of the refusal, where no call is: these carry nothing.
#[derive(Clone, Copy)]
pub enum Reason {
    TooManyEntries = 14,
    BufferShort = 15,
    BadSums = 16,
    BadLayout = 17,
    BadTimes = 19,
    Cycle = 20,
}

// In plain words.
impl fmt::Display for Reason {
    fn fmt<W: Write>(&self, f: &mut fmt::Formatter<W>) -> fmt::Result {
        f.write_str(match self {
            Reason::TooManyEntries => "a sheet has at most 64 entries",
            Reason::BufferShort => "the buffer is too short for the file",
            Reason::BadSums => "the file is damaged: a sum or the length is wrong",
            Reason::BadLayout => "the file is not laid out as a wiring's is",
            Reason::BadTimes => "a list of times has one for each node slot",
            Reason::Cycle => "a cycle can reach this block",
        })
    }
}

// Why a call is refused, in plain words, by the number of the refusal; 12 carries the side that both ends are on.
// Stays by number: `records` answers in five words, and a table by `Refusal` would need a call for each command beside `answer`, which has one for all requests.
fn reason_of(answer: Answer5) -> &'static [u8] {
    match answer.0[0] {
        1 => b"a list of a wrong length",
        2 => b"an offset is at most 65534",
        3 => b"too many ports for one block",
        4 => b"there is no such block",
        5 => b"this node is kept for a split port",
        6 => b"the list of moves is too short",
        7 => b"there is no such port",
        8 => b"this port is kept for a split port",
        9 => b"the port has no such offset",
        10 => b"no room is left",
        11 => b"there is no such second port",
        12 if answer.0[3] == 1 => b"both ends are outputs",
        12 => b"both ends are inputs",
        13 => b"this end has its wire",
        18 => b"an input has its wire, and takes one only",
        _ => b"",
    }
}

// How many values a refusal carries.
// Stays by number, as the reason above.
fn carried(refusal: u32) -> usize {
    match refusal {
        7 | 8 | 9 | 11 | 13 => 1,
        12 => 3,
        _ => 0,
    }
}

// Numbers behind what a line has.
pub(crate) fn with_numbers(line: Line, numbers: &[u32]) -> Line {
    numbers
        .iter()
        .fold(line, |line, number| line.number(*number))
}

// The first values of an answer.
fn with_values(line: Line, answer: Answer5, count: usize) -> Line {
    with_numbers(line, answer.0[1..].get(..count).unwrap_or(&[]))
}

// A subport: its port and its offset.
pub(crate) fn with_subport(line: Line, subport: SubportIndex) -> Line {
    line.number(subport.port.0).number(subport.subport_offset)
}

// The place of a port: node, side and position.
pub(crate) fn with_place(line: Line, place: PortPlace) -> Line {
    line.number(place.node.0)
        .number(place.side.index())
        .number(place.position)
}

// A refusal with what it carries, on a line that begins with what is given.
fn show_refused(rt: &impl Print, line: Line, answer: Answer5) {
    with_values(
        line.with(b"refused").number(answer.0[0]),
        answer,
        carried(answer.0[0]),
    )
    .with(b"  # ")
    .with(reason_of(answer))
    .write(rt);
}

// An answer with so many values, or the refusal, on a line that begins with what is given.
fn show_on(rt: &impl Print, line: Line, answer: Answer5, values: usize) {
    if answer.0[0] == 0 {
        with_values(line.with(b"ok"), answer, values).write(rt);
    } else {
        show_refused(rt, line, answer);
    }
}

pub fn show_answer(rt: &impl Print, answer: Answer5, values: usize) {
    show_on(rt, Line::of(b""), answer, values);
}

// The same as an item of a listing.
pub fn show_item(rt: &impl Print, answer: Answer5, values: usize) {
    show_on(rt, Line::of(b"  "), answer, values);
}

// A refusal where no call is refused.
pub fn show_refusal_number(rt: &impl Print, reason: Reason) {
    let mut refused = Line::of(b"refused").number(reason as u32);
    let _ = write!(refused, "  # {reason}");
    refused.write(rt);
}

pub fn show_refusal(rt: &impl Print, refusal: Refusal) {
    show_refused(rt, Line::of(b""), refusal_words(refusal));
}

// Stays in both consoles: what a refusal says is each one's own.
pub fn show_count(rt: &impl Print, answer: Result<usize, Refusal>) {
    match answer {
        Ok(count) => show_number(rt, count as u64),
        Err(refusal) => show_refusal(rt, refusal),
    }
}
