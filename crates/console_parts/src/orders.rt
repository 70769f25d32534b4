// What a line asks for: the commands, and how each is typed.
ghost use Rattle.std.specs.Prelude.{◌≡◌, ◌<◌, ◌+◌};
ghost use Rattle.lines.specs.Orders.{most_numbers, number_at, offset_at};

use lines::listening::Heard;
use lines::orders::order_by;
use lines::rows::row_of;
use lines::text::next_word;
use multi_tables::answers::SubportIndex;
use port_tables::index::{NodeIndex, PortIndex};

// Stays beside that of the console of a sketch: in one enum for both each console would have commands that it does not know.
#[derive(Clone, Copy, PartialEq, Eq)]
pub enum Command {
    Add,
    Remove,
    Resize,
    Link,
    Unlink,
    LinkSub,
    UnlinkSub,
    SubLink,
    Counts,
    FanOut,
    BlockFanOut,
    Blocks,
    Subports,
    Links,
    Back,
    NodeLinks,
    Neighbours,
    Connections,
    Wires,
    Places,
    Sheet,
    LinkClean,
    Save,
    Load,
    New,
    Tidy,
    Slots,
    Help,
    Quit,
    Merge,
    Time,
    Longest,
    Path,
    RunOrder,
}

// A command with its numbers. Stays without its text, which goes beside it: of an order that borrowed it each function here would have a lifetime, and most commands need
// the numbers alone.
pub type Order = lines::orders::Order<Command>;

// The node, the port and the subport that numbers of an order name, from a place on.
// Stay a function each: a trait over what they name would be longer than they are.
pub fn node_at(order: Order, place: usize) -> NodeIndex
    ensures { result.0 ≡ number_at order place }
{
    NodeIndex(order.number(place))
}

pub fn port_at(order: Order, place: usize) -> PortIndex
    ensures { result.0 ≡ number_at order place }
{
    PortIndex(order.number(place))
}

pub fn subport_at(order: Order, place: usize) -> SubportIndex
    requires { place < most_numbers }
    ensures { (result.port.0 ≡ number_at order place) × (result.subport_offset ≡ offset_at order (place + 1)) }
{
    SubportIndex {
        port: port_at(order, place),
        subport_offset: order.offset(place + 1),
    }
}

const COMMANDS: [(Command, &'static [u8]); 34] = [
    (Command::Add, b"add IN OUT"),
    (Command::Remove, b"remove N"),
    (Command::Resize, b"resize N IN OUT"),
    (Command::Link, b"link A B"),
    (Command::Unlink, b"unlink P"),
    (Command::LinkSub, b"linksub P O Q R"),
    (Command::UnlinkSub, b"unlinksub P O"),
    (Command::SubLink, b"sublink P O"),
    (Command::Counts, b"counts"),
    (Command::FanOut, b"fanout P"),
    (Command::BlockFanOut, b"blockfanout N"),
    (Command::Blocks, b"blocks"),
    (Command::Subports, b"subports N SIDE"),
    (Command::Links, b"links P"),
    (Command::Back, b"back P"),
    (Command::NodeLinks, b"nodelinks N SIDE LO HI"),
    (Command::Neighbours, b"neighbours N SIDE FLAG"),
    (Command::Connections, b"connections N M"),
    (Command::Wires, b"wires"),
    (Command::Places, b"places"),
    (Command::Sheet, b"sheet A B A B .."),
    (Command::LinkClean, b"linkclean A B"),
    (Command::Save, b"save NAME"),
    (Command::Load, b"load NAME"),
    (Command::New, b"new RELEASE"),
    (Command::Tidy, b"tidy P"),
    (Command::Slots, b"slots"),
    (Command::Help, b"help"),
    (Command::Quit, b"quit"),
    (Command::Merge, b"merge NAME NAME NAME"),
    (Command::Time, b"time SLOT MICROSECONDS"),
    (Command::Longest, b"longest N"),
    (Command::Path, b"path N"),
    (Command::RunOrder, b"runorder N N .."),
];

// How many numbers an entry of a command's list has; 0 where it has no list. Stays a number, as `order_by` takes it.
fn entry_size(command: Command) -> usize {
    match command {
        Command::Sheet => 2,
        Command::RunOrder => 1,
        _ => 0,
    }
}

// The order of a line that was heard; where it is none, what is wrong with it is said. Stays in both consoles: commands and list sizes are each one's own, and the rest is
// `order_by`.
pub fn order_of(rt: &impl Print, heard: Heard) -> Option<Order> {
    let first = next_word(heard.text, 0);
    let row = row_of(rt, &COMMANDS, heard, first)?;
    order_by(rt, row, entry_size(row.0), heard, first.to)
}
