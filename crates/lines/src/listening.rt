// What a program hears: lines, counted from 1. It prints them if it is asked to, and skips those without a word and comments.
use crate::reading::{Found, Reader};
use crate::show::write_bytes;
use crate::text::{Span, byte_at, line_part, next_word, part};
use crate::wrong::{Wrong, show_bad};
use std::io::Read;

// The longest line, and its newline.
pub const ROOM: usize = 65537;

#[derive(Clone, Copy)]
pub struct Listener {
    reader: Reader,
    // Whether each line is printed before its answer.
    echo: bool,
    // The number of the line that was heard last, and whether the one in hand is too long.
    pub line: u64,
    too_long: bool,
    // Whether no line is read any more.
    // Stays a flag beside what `listen` gives: the last line is heard, and ends the input.
    pub ended: bool,
}

// A line that is heard: its text, without a carriage return, and its number.
#[derive(Clone, Copy)]
pub struct Heard<'a> {
    pub text: &'a [u8],
    pub number: u64,
}

// Whether a line has no word, or is a comment.
fn is_skipped(text: &[u8]) -> bool {
    let first = next_word(text, 0);
    first.is_empty() || byte_at(text, first.from) == b'#'
}

fn show_line(rt: &impl Print, text: &[u8]) {
    write_bytes(rt, b"> ");
    write_bytes(rt, text);
    write_bytes(rt, b"\n");
}

impl Listener {
    pub fn new(echo: bool) -> Self {
        Listener {
            reader: Reader::new(),
            echo,
            line: 0,
            too_long: false,
            ended: false,
        }
    }

    // A part of a line that is too long. Only the first is printed.
    fn pass(&mut self, rt: &impl Print, text: &[u8]) {
        if self.echo && !self.too_long {
            show_line(rt, text);
        }
        self.too_long = true;
    }

    // The line in hand ends with this text: what is heard of it.
    fn end_line<'a>(&mut self, rt: &impl Print, buffer: &'a [u8], span: Span) -> Option<Heard<'a>> {
        self.line = self.line.saturating_add(1);
        if self.too_long {
            self.too_long = false;
            show_bad(rt, self.line, Wrong::TooLong, b"at most 65536 bytes");
            return None;
        }
        let text = line_part(buffer, span);
        if is_skipped(text) {
            return None;
        }
        if self.echo {
            show_line(rt, text);
        }
        Some(Heard {
            text,
            number: self.line,
        })
    }

    // One step in the input: a line, if one is heard.
    pub fn listen<'a, I: Read>(
        &mut self,
        rt: &impl Print,
        input: &mut I,
        buffer: &'a mut [u8],
    ) -> Option<Heard<'a>> {
        match self.reader.step(input, buffer) {
            Ok(None) => None,
            Ok(Some(Found::Line(span))) => self.end_line(rt, buffer, span),
            Ok(Some(Found::Part(span))) => {
                self.pass(rt, part(buffer, span));
                None
            }
            Ok(Some(Found::Last(span))) => {
                self.ended = true;
                self.end_line(rt, buffer, span)
            }
            Err(_) => {
                self.ended = true;
                write_bytes(rt, b"cannot read the input\n");
                None
            }
        }
    }
}
