// Two files as one, under a third name.
use crate::fetch::{FILE_ROOM, fetch, show_file_refusal};
use crate::orders::Order;
use crate::store::write_wiring;
use files::merge::merge;
use files::save::LONGEST_FILE;
use lines::text::{next_word, part};
use std::fs::Files;

// Merges two files that were read, and writes the result, which is no longer than the longest file since it loads.
fn merge_read<'a>(rt: &(impl Files + Print), first: &'a [u8], second: &'a [u8], name: &'a [u8]) {
    let mut result = [0u8; LONGEST_FILE];
    match merge(first, second, &mut result) {
        Ok(len) => {
            write_wiring(rt, name, result.get(..len).unwrap_or(&[]));
        }
        Err(error) => show_file_refusal(rt, error),
    }
}

// Merges the files whose names stand in the line, the first two into the third.
pub fn merge_as(rt: &(impl Files + Print), order: Order, text: &[u8]) {
    let first = next_word(text, order.from);
    let second = next_word(text, first.to);
    let third = next_word(text, second.to);
    let mut buffer = [0u8; FILE_ROOM];
    let Some(bytes) = fetch(rt, part(text, first), &mut buffer) else {
        return;
    };
    let mut buffer_2 = [0u8; FILE_ROOM];
    let Some(bytes_2) = fetch(rt, part(text, second), &mut buffer_2) else {
        return;
    };
    merge_read(rt, bytes, bytes_2, part(text, third));
}
