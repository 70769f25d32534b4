// Answers as lines: `ok` with numbers, `refused` and `bad line`. A line that says no ends in its reason, for people.
ghost use Rattle.std.specs.Prelude.{◌≡◌};
ghost use Rattle.sketches.specs.PlanNumbers.{reason_number};

use lines::show::{Line, show_number};
use sketches::sketch::{Reason, SketchEnd, SketchPort, TooManyEntries};
use std::fmt;
use std::fmt::Write;

// The number of the refusal of a sheet with too many entries, which no call has.
// Stays a constant: an enum would have this one variant.
const TOO_MANY_ENTRIES: u32 = 14;

// The number of a refusal.
// Stays a function: a `From` could only stand in the crate of `Reason`.
#[tactic(auto, unfolding(sketches::specs::PlanNumbers::reason_number))]
fn number_of(reason: Reason) -> u32
    ensures { result ≡ reason_number reason }
{
    reason as u32
}

// A refusal by its number, with its reason for people, on a line that begins with what is given.
fn show_numbered(rt: &impl Print, line: Line, number: u32, reason: impl fmt::Display + Drop) {
    let mut refused = line.with(b"refused").number(number);
    let _ = write!(refused, "  # {reason}");
    refused.write(rt);
}

// The same of a call.
pub(crate) fn show_refused_on(rt: &impl Print, line: Line, reason: Reason) {
    show_numbered(rt, line, number_of(reason), reason);
}

pub(crate) fn show_too_many(rt: &impl Print, reason: TooManyEntries) {
    show_numbered(rt, Line::of(b""), TOO_MANY_ENTRIES, reason);
}

pub(crate) fn show_refused(rt: &impl Print, reason: Reason) {
    show_refused_on(rt, Line::of(b""), reason);
}

// Stays in both consoles: what a refusal says is each one's own.
pub(crate) fn show_count(rt: &impl Print, answer: Result<usize, Reason>) {
    match answer {
        Ok(count) => show_number(rt, count as u64),
        Err(reason) => show_refused(rt, reason),
    }
}

pub(crate) fn show_done(rt: &impl Print, answer: Result<(), Reason>) {
    match answer {
        Ok(()) => Line::of(b"ok").write(rt),
        Err(reason) => show_refused(rt, reason),
    }
}

// A port behind what a line has: block, side and position.
pub(crate) fn with_port(line: Line, port: SketchPort) -> Line {
    line.number(port.block)
        .number(port.side.index())
        .number(port.position)
}

// An end: a port and an offset.
pub(crate) fn with_end(line: Line, end: SketchEnd) -> Line {
    with_port(line, end.port).number(end.offset)
}
