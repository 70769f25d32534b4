// A number as an index, written once for all crates.
ghost use Rattle.std.specs.Prelude.{◌≡◌};

// Stays a function: the library has usize::from for 16 bits, and none for 32.
// A cast to fewer bits stays a cast, here and in the crates above, where a contract shows that the number fits: `try_from` would have a refusal that never
// comes; no plainer.
pub fn wide(x: u32) -> usize
    ensures { result ≡ x }
{
    x as usize
}
