// Replays a recording from standard input: a list of requests, then the answers that the Rust original gave to them. The requests
// are run, and the program prints how many answers are equal. The check runs it on the list of `host/sample`.
#![tactic(auto)]

ghost use Rattle.std.specs.Prelude.{◌≤◌, length};

use records::run::run_records;
use std::fmt;
use std::fmt::Write;
use std::io::Read;

// The bytes of a request, and of an answer.
const RECORD: usize = 20;
// The longest list of requests is 65,520 bytes; the input holds as many bytes of answers, and one more shows that there is more.
const LIST: usize = 65520;

const INPUT: usize = 131041;

// Why a recording cannot be replayed.
#[derive(Clone, Copy)]
enum Unfit {
    TooLong,
    Uneven,
    NoList,
}

impl fmt::Display for Unfit {
    fn fmt<W: Write>(&self, f: &mut fmt::Formatter<W>) -> fmt::Result {
        f.write_str(match self {
            Unfit::TooLong => "the recording is too long",
            Unfit::Uneven => "the recording has not as many answers as requests",
            Unfit::NoList => "the recording is no list of requests",
        })
    }
}

// How many of the answers are those recorded.
fn equal_answers(recorded: &[u8], answers: &[u8]) -> usize {
    recorded
        .chunks_exact(RECORD)
        .zip(answers.chunks_exact(RECORD))
        .filter(|pair| pair.0 == pair.1)
        .count()
}

// Runs the first half of a recording and compares with the second: how many answers are equal, and how many there are.
fn replay(input: &[u8], answers: &mut [u8]) -> Result<(usize, usize), Unfit> {
    let half = input.len() / 2;
    if answers.len() < input.len() - half {
        return Err(Unfit::TooLong);
    }
    if input.len() != 2 * half {
        return Err(Unfit::Uneven);
    }
    if run_records(&input[..half], &mut answers[..half]) != 0 {
        return Err(Unfit::NoList);
    }
    Ok((
        equal_answers(&input[half..], &answers[..half]),
        half / RECORD,
    ))
}

// Reads until the buffer is full, the input ends or a read fails, and gives the part that was read.
// Stays a while: each read says itself how far it came.
fn read_full<'a, I: Read>(source: &mut I, input: &'a mut [u8]) -> &'a [u8]
    ensures { length result.now ≤ length input.old }
{
    let mut len: usize = 0;
    while len < input.len() {
        match source.read(&mut input[len..]) {
            Ok(0) | Err(_) => return &input[..len],
            Ok(count) => len += count,
        }
    }
    input
}

// What cannot be written is left out.
fn main(rt: HostRuntime) {
    let mut input = [0u8; INPUT];
    let mut answers = [0u8; LIST];
    let recording = read_full(&mut rt.reader(), &mut input);
    let _ = match replay(recording, &mut answers) {
        Ok((equal, count)) => println!(rt; "{equal} of {count} equal"),
        Err(unfit) => println!(rt; "{unfit}"),
    };
}
