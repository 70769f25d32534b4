// What the dealer tablet's Rust or C calls to run a list of requests: the function of `records`, under its name in C.
#![tactic(auto)]

ghost use Rattle.std.specs.Prelude.{◌≡◌};
ghost use Rattle.records.specs.Run.{returned, written};

// Runs a list of requests of five little-endian words. 1 for refusal 1, which leaves the answers as they are; else 0.
#[unsafe(no_mangle)]
pub extern "C" fn run_records(requests: &[u8], answers: &mut [u8]) -> u32
    ensures { (result ≡ returned requests.now answers.old)
        × (answers.new ≡ written requests.now answers.old) }
{
    records::run::run_records(requests, answers)
}
