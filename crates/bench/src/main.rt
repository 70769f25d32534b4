// The bench wiring, checked by hand: runs each case on the code and prints its letter with `ok`, or `bad` where a number of the
// case is another one.
#![tactic(auto)]

mod cases;
mod looks;
mod state;

// One letter's line. What cannot be written is left out.
fn show(rt: &impl Print, letter: char, good: bool) {
    let word = if good { "ok" } else { "bad" };
    let _ = println!(rt; "{letter} {word}");
}

fn main(rt: HostRuntime) {
    show(&rt, 'A', cases::case_a());
    show(&rt, 'B', cases::case_b());
    show(&rt, 'C', cases::case_c());
    show(&rt, 'D', cases::case_d());
    show(&rt, 'E', cases::case_e());
    show(&rt, 'F', cases::case_f());
    show(&rt, 'G', cases::case_g());
    show(&rt, 'H', cases::case_h());
    show(&rt, 'I', cases::case_i());
    show(&rt, 'J', cases::case_j());
    show(&rt, 'K', cases::case_k());
}
