// A table of commands: each row is a command and how it is typed, the command and a name for each number.
use crate::listening::Heard;
use crate::text::{Span, next_word, same_word};
use crate::wrong::{Wrong, show_bad};

// The row whose first word is this one of a line; where there is none that is said.
pub fn row_of<C: Copy>(
    rt: &impl Print,
    rows: &[(C, &'static [u8])],
    heard: Heard,
    word: Span,
) -> Option<(C, &'static [u8])> {
    let found = rows
        .iter()
        .find(|row| same_word(heard.text, word, row.1, next_word(row.1, 0)))
        .copied();
    if found.is_none() {
        show_bad(rt, heard.number, Wrong::UnknownCommand, b"help lists them");
    }
    found
}
