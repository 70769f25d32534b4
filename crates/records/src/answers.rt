// The five words of each answer, and their bytes.
ghost use Rattle.std.specs.Prelude.{◌≡◌, [], ◌∷◌, ◌+◌, ◌≤◌, length};
ghost use Rattle.std.proofs.lemmas.List.Edits.{sets};
ghost use Rattle.records.specs.Words.{bytes_of};
ghost use Rattle.records.specs.Run.{five};
ghost use Rattle.records.specs.Forms.{CountsFit, EventsFit};
ghost use Rattle.multiportgraph.specs.Answers.{add_numbers, remove_numbers, set_numbers, link_numbers};
ghost use Rattle.multi_tables.specs.EndAnswers.{refusal_numbers, unplaced_numbers};

use crate::words::put_words;
use multi_tables::answers::{Refusal, SubportIndex};
use port_tables::index::{NodeIndex, PortIndex};

// The five words of a record: 0 or the refusal, then values, the rest 0.
// Stay numbers: the C entry writes them.
#[derive(Clone, Copy)]
pub struct Answer5(pub [u32; 5]);

// A refusal with what it carries.
// Stays a function, as those of answers below: a `From` would say its clause in a law beside it.
pub fn refusal_words(refusal: Refusal) -> Answer5
    ensures { result.0 ≡ five (refusal_numbers refusal) }
{
    match refusal {
        Refusal::BadOffset => Answer5([2, 0, 0, 0, 0]),
        Refusal::TooManyPorts => Answer5([3, 0, 0, 0, 0]),
        Refusal::UnknownNode => Answer5([4, 0, 0, 0, 0]),
        Refusal::HiddenNode => Answer5([5, 0, 0, 0, 0]),
        Refusal::MovesTooShort => Answer5([6, 0, 0, 0, 0]),
        Refusal::UnknownPort(p) => Answer5([7, p.0, 0, 0, 0]),
        Refusal::HiddenPort(p) => Answer5([8, p.0, 0, 0, 0]),
        Refusal::UnknownOffset(p) => Answer5([9, p.0, 0, 0, 0]),
        Refusal::NoRoom => Answer5([10, 0, 0, 0, 0]),
        Refusal::UnknownSecondPort(p) => Answer5([11, p.0, 0, 0, 0]),
        Refusal::IncompatibleDirections(p, q, d) => Answer5([12, p.0, q.0, d.index(), 0]),
        Refusal::AlreadyLinked(p) => Answer5([13, p.0, 0, 0, 0]),
        Refusal::InputWired => Answer5([18, 0, 0, 0, 0]),
    }
}

// Of the answers below each has its own match: by `map_or_else` a closure would stand for its first arm, and no line would go.
pub(crate) fn add_words(answer: Result<(NodeIndex, PortIndex), Refusal>) -> Answer5
    ensures { result.0 ≡ five (add_numbers answer) }
{
    match answer {
        Ok((node, first)) => Answer5([0, node.0, first.0, 0, 0]),
        Err(refusal) => refusal_words(refusal),
    }
}

pub(crate) fn remove_words(answer: Result<(), Refusal>) -> Answer5
    ensures { result.0 ≡ five (remove_numbers answer) }
{
    match answer {
        Ok(()) => Answer5([0, 0, 0, 0, 0]),
        Err(refusal) => refusal_words(refusal),
    }
}

pub(crate) fn set_words(answer: Result<usize, Refusal>) -> Answer5
    requires { EventsFit answer }
    ensures { result.0 ≡ five (set_numbers answer) }
{
    match answer {
        Ok(events) => Answer5([0, events as u32, 0, 0, 0]),
        Err(refusal) => refusal_words(refusal),
    }
}

pub fn link_words(answer: Result<(SubportIndex, SubportIndex), Refusal>) -> Answer5
    ensures { result.0 ≡ five (link_numbers answer) }
{
    match answer {
        Ok((x, y)) => Answer5([
            0,
            x.port.0,
            u32::from(x.subport_offset),
            y.port.0,
            u32::from(y.subport_offset),
        ]),
        Err(refusal) => refusal_words(refusal),
    }
}

// A record has no room for a place.
pub(crate) fn cut_words(answer: Result<Option<SubportIndex>, Refusal>) -> Answer5
    ensures { result.0 ≡ five (unplaced_numbers answer) }
{
    match answer {
        Ok(Some(x)) => Answer5([0, 1, x.port.0, u32::from(x.subport_offset), 0]),
        Ok(None) => Answer5([0, 0, 0, 0, 0]),
        Err(refusal) => refusal_words(refusal),
    }
}

// The visible counts of a graph: blocks, ports and wires.
pub(crate) fn counted(blocks: usize, ports: usize, wires: usize) -> Answer5
    requires { CountsFit blocks ports wires }
    ensures { result.0 ≡ 0 ∷ blocks ∷ ports ∷ wires ∷ 0 ∷ [] }
{
    Answer5([0, blocks as u32, ports as u32, wires as u32, 0])
}

// Lays an answer's twenty bytes from a byte position on.
pub(crate) fn put_answer(answers: &mut [u8], at: usize, answer: Answer5)
    requires { at + 20 ≤ length answers.old }
    ensures { answers.new ≡ sets answers.old at (bytes_of (answer.0)) }
{
    put_words(answers, at, &answer.0);
}
