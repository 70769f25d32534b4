// What the words after the program's name ask for.
use std::env::{Env, FillError};

#[derive(Clone, Copy, PartialEq, Eq)]
pub enum Asked {
    Run,
    Echo,
    Usage,
}

// Any word but `--echo` asks for the usage, one that is longer than the buffer too; nothing is asked for where there is no such word.
fn asked_by(rt: &impl Env, number: usize) -> Option<Asked> {
    let mut buffer = [0u8; 16];
    match rt.arg(number, &mut buffer) {
        Ok(len) if buffer[..len] == b"--echo"[..] => Some(Asked::Echo),
        Ok(_) | Err(FillError::TooLong) => Some(Asked::Usage),
        Err(FillError::NotPresent) => None,
    }
}

pub fn read_arguments(rt: &impl Env) -> Asked {
    let mut found = Asked::Run;
    for number in 1..usize::MAX {
        let Some(asked) = asked_by(rt, number) else {
            return found;
        };
        found = asked;
        if found == Asked::Usage {
            return found;
        }
    }
    found
}
