// What a number of a line names: a release, and the sides of a block.
ghost use Rattle.std.specs.Prelude.{◌≡◌};
ghost use Rattle.lines.specs.Named.{release_of, sides_of};

use port_tables::direction::Direction;
use port_tables::release::Release;
use port_tables::sides::Sides;

// 1 for the first release, else the second: a row's name lets no other number through than 1 and 2.
// Stay functions, this and the next: a `From` could only stand in the crate of the type.
pub fn release_of(number: u32) -> Release
    ensures { result ≡ release_of number }
{
    match number {
        1 => Release::One,
        _ => Release::Two,
    }
}

// 0 incoming, 1 outgoing, else both.
pub fn sides_of(number: u32) -> Sides
    ensures { result ≡ sides_of number }
{
    match number {
        0 => Sides::One(Direction::Incoming),
        1 => Sides::One(Direction::Outgoing),
        _ => Sides::Both,
    }
}
