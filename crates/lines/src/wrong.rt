// What can be wrong with a line, and how it is said.
use crate::show::Line;
use std::fmt;
use std::fmt::Write;

#[derive(Clone, Copy, PartialEq, Eq)]
pub(crate) enum Wrong {
    UnknownCommand,
    WordCount,
    NoNumber,
    NoSide,
    NoEndSide,
    NoFlag,
    NoRelease,
    NoSlot,
    NoTime,
    LongName,
    TooLong,
}

// In plain words.
impl fmt::Display for Wrong {
    fn fmt<W: Write>(&self, f: &mut fmt::Formatter<W>) -> fmt::Result {
        f.write_str(match self {
            Wrong::UnknownCommand => "unknown command",
            Wrong::WordCount => "wrong number of words",
            Wrong::NoNumber => "no number up to 4294967295",
            Wrong::NoSide => "no side (0, 1 or 2)",
            Wrong::NoEndSide => "no side of a port (0 or 1)",
            Wrong::NoFlag => "no flag (0 or 1)",
            Wrong::NoRelease => "no release (1 or 2)",
            Wrong::NoSlot => "no node slot (0 to 1023)",
            Wrong::NoTime => "no time (0 to 65535 microseconds)",
            Wrong::LongName => "no name of at most 4000 bytes",
            Wrong::TooLong => "too long",
        })
    }
}

// A line that is no command; after the reason stands what helps, as how the command is typed.
pub(crate) fn show_bad(rt: &impl Print, line: u64, wrong: Wrong, help: &[u8]) {
    let mut bad = Line::of(b"bad line").number(line);
    let _ = write!(bad, "  # {wrong}: ");
    bad.with(help).write(rt);
}
