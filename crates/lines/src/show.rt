// One line of output, put together byte by byte and written at once.
use std::fmt;
use std::fmt::Write;

const WIDTH: usize = 160;

// A line; bytes past its width are left out, and no line of the console comes near it.
// Stays bytes with their number beside them: no library has a heap.
// Stays a line of our own beside `println!`: there each part, as an end or a place, would be a type with a `Display`, and how a command is typed is bytes, which are no text.
#[derive(Clone, Copy)]
pub struct Line {
    pub bytes: [u8; WIDTH],
    pub len: usize,
}

// Writes bytes as they are. What cannot be written is left out.
pub fn write_bytes(rt: &impl Print, bytes: &[u8]) {
    let _ = rt.write_all(bytes);
}

// `ok` with one number.
pub fn show_number(rt: &impl Print, value: u64) {
    Line::of(b"ok").number(value).write(rt);
}

impl Line {
    fn push(&mut self, byte: u8) {
        if let Some(place) = self.bytes.get_mut(self.len) {
            *place = byte;
            self.len += 1;
        }
    }

    pub fn of(text: &[u8]) -> Self {
        let line = Line {
            bytes: [0u8; WIDTH],
            len: 0,
        };
        line.with(text)
    }

    pub fn with(mut self, text: &[u8]) -> Self {
        for byte in text {
            self.push(*byte);
        }
        self
    }

    // A blank, and the number in decimal digits.
    pub fn number(mut self, value: impl Into<u64>) -> Self {
        let number: u64 = value.into();
        let _ = write!(self, " {number}");
        self
    }

    // Writes the line with its newline.
    pub fn write(mut self, rt: &impl Print) {
        self.push(b'\n');
        write_bytes(rt, self.bytes.get(..self.len).unwrap_or(&[]));
    }
}

// Text goes behind what the line has.
impl fmt::Write for Line {
    fn write_str(&mut self, text: &str) -> fmt::Result {
        *self = self.with(text.as_bytes());
        Ok(())
    }
}
