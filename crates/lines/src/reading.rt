// The input, read piece by piece into a buffer, and cut into lines.
ghost use Rattle.std.specs.Prelude.{◌≡◌, set};

use crate::text::{Span, line_end};
use std::io;
use std::io::Read;

// What a step finds, with where it stands in the buffer.
#[derive(Clone, Copy)]
pub enum Found {
    // A line, without its newline.
    Line(Span),
    // The buffer is full and has no newline: a part of a line that is too long.
    Part(Span),
    // What stands after the last newline, at the end of the input.
    Last(Span),
}

// The line in hand: where in the buffer it begins, up to where there is no newline in it, and where what was read ends.
// Stay places beside the buffer: what is heard is lent from it while the reader is kept.
#[derive(Clone, Copy)]
pub struct Reader {
    from: usize,
    seen: usize,
    held: usize,
}

// Stores a byte; outside nothing changes. Nothing calls it; it stays by the rule of the project that a public function keeps its promise.
pub fn put_byte(buffer: &mut [u8], at: usize, byte: u8)
    ensures { buffer.new ≡ set buffer.old at byte }
{
    if at < buffer.len() {
        buffer[at] = byte;
    }
}

impl Reader {
    pub fn new() -> Self {
        Reader {
            from: 0,
            seen: 0,
            held: 0,
        }
    }

    // Moves the line in hand to the start of the buffer.
    fn move_down(&mut self, buffer: &mut [u8]) {
        let len = self.held.saturating_sub(self.from);
        if 0 < self.from && 0 < len && self.held <= buffer.len() {
            buffer.copy_within(self.from..self.held, 0);
        }
        self.from = 0;
        self.seen = len;
        self.held = len;
    }

    // Reads once, into what is left of the buffer.
    fn read_more<I: Read>(
        &mut self,
        input: &mut I,
        buffer: &mut [u8],
    ) -> io::Result<Option<Found>> {
        let held = self.held;
        let whole = Span { from: 0, to: held };
        *self = Reader::new();
        if buffer.len() <= held {
            return Ok(Some(Found::Part(whole)));
        }
        let more = input.read(&mut buffer[held..])?;
        if more == 0 {
            return Ok(Some(Found::Last(whole)));
        }
        self.seen = held;
        self.held = held + more;
        Ok(None)
    }

    // The next line, if the buffer has one; else one read, which may bring no line to its end.
    pub fn step<I: Read>(&mut self, input: &mut I, buffer: &mut [u8]) -> io::Result<Option<Found>> {
        let end = line_end(buffer, self.seen, self.held);
        if end < self.held {
            let line = Span {
                from: self.from,
                to: end,
            };
            self.from = end + 1;
            self.seen = end + 1;
            return Ok(Some(Found::Line(line)));
        }
        self.move_down(buffer);
        self.read_more(input, buffer)
    }
}
