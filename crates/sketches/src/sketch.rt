// What a sketch is asked and what it answers: ports and ends by place, refusals, and the entries of a sheet.
use port_tables::direction::Direction;
use std::fmt;
use std::fmt::Write;

// A port: the name of its block, its side and its position there.
#[derive(Clone, Copy, PartialEq, Eq)]
pub struct SketchPort {
    pub block: u32,
    pub side: Direction,
    pub position: u32,
}

// An end: a port with an offset among its subports; 0 for a port that is not split.
#[derive(Clone, Copy)]
pub struct SketchEnd {
    pub port: SketchPort,
    pub offset: u16,
}

// Why a call is refused, by the number of the refusal.
#[derive(Clone, Copy)]
pub enum Reason {
    // An offset above 65,534.
    BadOffset = 2,
    TooManyPorts = 3,
    // No block has this name.
    UnknownBlock = 4,
    // The only or first port is not there.
    UnknownPort = 7,
    // The port is split and has no such offset.
    UnknownOffset = 9,
    // The call would pass the accepted adds, the blocks, the ports or the wires that a sketch may have.
    NoRoom = 10,
    // The second port is not there.
    UnknownSecondPort = 11,
    // The two ports are on the same side.
    SameSide = 12,
    // An end named has a wire.
    AlreadyLinked = 13,
    // Under release 2, an input named already has a wire.
    InputWired = 18,
}

// In plain words.
impl fmt::Display for Reason {
    fn fmt<W: Write>(&self, f: &mut fmt::Formatter<W>) -> fmt::Result {
        f.write_str(match self {
            Reason::BadOffset => "an offset is at most 65534",
            Reason::TooManyPorts => "too many ports for one block",
            Reason::UnknownBlock => "there is no such block",
            Reason::UnknownPort => "there is no such port",
            Reason::UnknownOffset => "the port has no such offset",
            Reason::NoRoom => "no room is left",
            Reason::UnknownSecondPort => "there is no such second port",
            Reason::SameSide => "both ends are inputs, or both are outputs",
            Reason::AlreadyLinked => "this end has its wire",
            Reason::InputWired => "an input has its wire, and takes one only",
        })
    }
}

// Two ports that are to be linked, and space for the answer. Stays beside that of `sheets`: the sketch rests on no graph.
#[derive(Clone, Copy)]
pub struct SheetEntry {
    pub from: SketchPort,
    pub to: SketchPort,
    pub answer: Result<(SketchEnd, SketchEnd), Reason>,
}

// There are more entries than a sheet may have: none was done. Stays beside that of `sheets`: below both stand the tables alone, which know no sheet.
#[derive(Clone, Copy)]
pub struct TooManyEntries;

// In plain words.
impl fmt::Display for TooManyEntries {
    fn fmt<W: Write>(&self, f: &mut fmt::Formatter<W>) -> fmt::Result {
        f.write_str("a sheet has at most 64 entries")
    }
}
