// The cases A to K. A request is a code with its arguments, an answer 0 or the refusal with its values.
ghost use Rattle.multiportgraph.specs.WellFormed.{MultiWf};

use crate::state::{Code, State};

// Node 0 with outgoing port 0, and node 1 with incoming ports 1 and 2.
fn start() -> State
    ensures { MultiWf result.graph }
{
    State::new()
        .asked(Code::Add, [0, 1, 0, 0], [0, 0, 0, 0, 0])
        .asked(Code::Add, [2, 0, 0, 0], [0, 1, 1, 0, 0])
}

fn after_a() -> State
    ensures { MultiWf result.graph }
{
    start()
        .asked(Code::Link, [0, 1, 0, 0], [0, 0, 0, 1, 0])
        .asked(Code::Counts, [0, 0, 0, 0], [0, 2, 3, 1, 0])
}

fn after_b() -> State
    ensures { MultiWf result.graph }
{
    after_a()
        .asked(Code::Link, [0, 2, 0, 0], [0, 0, 1, 2, 0])
        .asked(Code::Counts, [0, 0, 0, 0], [0, 2, 3, 2, 0])
}

pub(crate) fn case_a() -> bool {
    after_a().good
}

pub(crate) fn case_b() -> bool {
    after_b().good
}

pub(crate) fn case_c() -> bool {
    after_b()
        .asked(Code::Link, [0, 2, 0, 0], [0, 0, 2, 2, 1])
        .asked(Code::Counts, [0, 0, 0, 0], [0, 2, 3, 3, 0])
        .asked(Code::SubportLink, [0, 1, 0, 0], [0, 1, 2, 0, 0])
        .good
}

pub(crate) fn case_d() -> bool {
    after_a()
        .asked(Code::Link, [1, 2, 0, 0], [12, 4, 2, 0, 0])
        .listed(1, &[(1, 0), (1, 1), (2, 0)])
        .wired(1)
        .good
}

pub(crate) fn case_e() -> bool {
    let first = after_b()
        .asked(Code::Unlink, [0, 0, 0, 0], [0, 1, 0, 0, 0])
        .wired(0);
    let second = after_b().asked(Code::Unlink, [2, 0, 0, 0], [0, 1, 5, 0, 0]);
    both(first, second)
}

pub(crate) fn case_f() -> bool {
    let first = after_a().asked(Code::SubportLink, [1, 5, 0, 0], [0, 1, 0, 0, 0]);
    let second = after_b().asked(Code::SubportLink, [0, 2, 0, 0], [9, 0, 0, 0, 0]);
    both(first, second)
}

// Each link on a graph of its own.
pub(crate) fn case_g() -> bool {
    let first = start().asked(Code::Link, [0, 0, 0, 0], [12, 0, 0, 1, 0]);
    let second = start().asked(Code::Link, [0, 9, 0, 0], [11, 9, 0, 0, 0]);
    let third = start().asked(Code::Link, [9, 0, 0, 0], [7, 9, 0, 0, 0]);
    both(first, second) && third.good
}

pub(crate) fn case_h() -> bool {
    after_b()
        .asked(Code::Remove, [2, 0, 0, 0], [5, 0, 0, 0, 0])
        .asked(Code::Remove, [7, 0, 0, 0], [4, 0, 0, 0, 0])
        .good
}

pub(crate) fn case_i() -> bool {
    start()
        .asked(Code::Resize, [0, 0, 0, 0], [0, 1, 0, 0, 0])
        .asked(Code::Add, [0, 1, 0, 0], [0, 2, 0, 0, 0])
        .good
}

pub(crate) fn case_j() -> bool {
    State::new()
        .asked(Code::Add, [512, 512, 0, 0], [0, 0, 0, 0, 0])
        .asked(Code::Add, [512, 512, 0, 0], [0, 1, 1024, 0, 0])
        .asked(Code::Add, [0, 1, 0, 0], [0, 2, 2048, 0, 0])
        .asked(Code::Add, [512, 512, 0, 0], [10, 0, 0, 0, 0])
        .asked(Code::Add, [0, 0, 0, 0], [0, 3, 0, 0, 0])
        .asked(Code::Add, [512, 513, 0, 0], [3, 0, 0, 0, 0])
        .good
}

pub(crate) fn case_k() -> bool {
    State::new()
        .asked(Code::Add, [1, 1, 0, 0], [0, 0, 0, 0, 0])
        .asked(Code::Add, [0, 2, 0, 0], [0, 1, 2, 0, 0])
        .asked(Code::Link, [2, 0, 0, 0], [0, 2, 0, 0, 0])
        .asked(Code::Link, [3, 0, 0, 0], [0, 3, 0, 0, 1])
        .resized([0, 0, 1], 2, [0, 1, 6, 1, 0, 0])
        .wired(0)
        .listed(0, &[(0, 0)])
        .good
}

fn both(first: State, second: State) -> bool {
    first.good && second.good
}
