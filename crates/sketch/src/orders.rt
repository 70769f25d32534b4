// What a line asks for: the commands, and how each is typed.
ghost use Rattle.std.specs.Prelude.{◌<◌};
ghost use Rattle.lines.specs.Orders.{most_numbers};

use lines::listening::Heard;
use lines::orders::order_by;
use lines::rows::row_of;
use lines::text::next_word;
use sketches::sketch::{SketchEnd, SketchPort};
use sketches::tests::side_of;

// Stays beside that of the console of a wiring: in one enum for both each console would have commands that it does not know.
#[derive(Clone, Copy, PartialEq, Eq)]
pub enum Command {
    New,
    Add,
    Remove,
    Resize,
    Link,
    LinkClean,
    LinkSub,
    Sheet,
    Unlink,
    UnlinkSub,
    Tidy,
    SubLink,
    Counts,
    FanOut,
    BlockFanOut,
    Blocks,
    Subports,
    Links,
    Back,
    NodeLinks,
    Neighbours,
    Connections,
    Wires,
    Help,
    Quit,
}

// A command with its numbers. Stays without its text, which goes beside it: of an order that borrowed it each function here would have a lifetime, and most commands need
// the numbers alone.
pub type Order = lines::orders::Order<Command>;

const COMMANDS: [(Command, &'static [u8]); 25] = [
    (Command::New, b"new RELEASE"),
    (Command::Add, b"add IN OUT"),
    (Command::Remove, b"remove N"),
    (Command::Resize, b"resize N IN OUT"),
    (Command::Link, b"link B S P B S P"),
    (Command::LinkClean, b"linkclean B S P B S P"),
    (Command::LinkSub, b"linksub B S P O B S P O"),
    (Command::Sheet, b"sheet B S P B S P .."),
    (Command::Unlink, b"unlink B S P"),
    (Command::UnlinkSub, b"unlinksub B S P O"),
    (Command::Tidy, b"tidy B S P"),
    (Command::SubLink, b"sublink B S P O"),
    (Command::Counts, b"counts"),
    (Command::FanOut, b"fanout B S P"),
    (Command::BlockFanOut, b"blockfanout N"),
    (Command::Blocks, b"blocks"),
    (Command::Subports, b"subports N SIDE"),
    (Command::Links, b"links B S P"),
    (Command::Back, b"back B S P"),
    (Command::NodeLinks, b"nodelinks N SIDE"),
    (Command::Neighbours, b"neighbours N SIDE FLAG"),
    (Command::Connections, b"connections N M"),
    (Command::Wires, b"wires"),
    (Command::Help, b"help"),
    (Command::Quit, b"quit"),
];

// The port that three numbers of an order name, from a place on.
pub(crate) fn port_at(order: Order, place: usize) -> SketchPort
    requires { place < most_numbers }
{
    SketchPort {
        block: order.number(place),
        side: side_of(order.number(place + 1)),
        position: order.number(place + 2),
    }
}

// The end that four numbers of an order name, from a place on.
pub(crate) fn end_at(order: Order, place: usize) -> SketchEnd
    requires { place < most_numbers }
{
    SketchEnd {
        port: port_at(order, place),
        offset: order.offset(place + 3),
    }
}

// How many numbers an entry of a command's list has; 0 where it has no list. Stays a number, as `order_by` takes it.
fn entry_size(command: Command) -> usize {
    match command {
        Command::Sheet => 6,
        _ => 0,
    }
}

// The order of a line that was heard; where it is none, what is wrong with it is said. Stays in both consoles: commands and list sizes are each one's own, and the rest is
// `order_by`.
pub(crate) fn order_of(rt: &impl Print, heard: Heard) -> Option<Order> {
    let first = next_word(heard.text, 0);
    let row = row_of(rt, &COMMANDS, heard, first)?;
    order_by(rt, row, entry_size(row.0), heard, first.to)
}
