// What is answered of times along wires.
ghost use Rattle.std.specs.Prelude.{◌≡◌};
ghost use Rattle.timing.specs.declared.answers.LongestError.TheVariants.{Refused};

use multi_tables::answers::Refusal;

// Why there is no largest sum.
#[derive(Clone, Copy)]
pub enum LongestError {
    // The number names no block: refusal 4 or 5.
    Refused(Refusal),
    // Refusal 19: the list of times does not have one entry for each node slot.
    BadTimes,
    // Refusal 20: a cycle can reach the block, or the block lies on one.
    Cycle,
}

impl From<Refusal> for LongestError {
    ghost from_gives = { λ refusal told. told ≡ Refused refusal };

    fn from(refusal: Refusal) -> LongestError {
        LongestError::Refused(refusal)
    }
}

// The largest sum, in microseconds, and how many blocks a path that has it was listed with.
#[derive(Clone, Copy)]
pub struct PathListed {
    pub sum: u32,
    pub blocks: usize,
}
