// A subport and where a port stands, why a call is refused, and what is answered of one end.
ghost use Rattle.std.specs.Prelude.{◌≡◌};
ghost use Rattle.multi_tables.specs.Forms.{subport#};
ghost use Rattle.multi_tables.specs.EndAnswers.{unplaced, unplaced_numbers};

use port_tables::direction::Direction;
use port_tables::index::{NodeIndex, PortIndex};

// A port with an offset among its subports; 0 for a port that is not split.
// Stays a number: such a port has one subport, and it is at offset 0.
#[derive(Clone, Copy)]
pub struct SubportIndex {
    pub port: PortIndex,
    pub subport_offset: u16,
}

impl SubportIndex {
    // The only subport of a port that is not split. portgraph's multiport graph has it under this name.
    pub fn new_unique(port: PortIndex) -> Self
        ensures { result ≡ subport# port.0 0 }
    {
        SubportIndex::new_multi(port, 0)
    }

    // The subport of a port at an offset. portgraph's multiport graph has it under this name.
    pub fn new_multi(port: PortIndex, subport_offset: u16) -> Self
        ensures { result ≡ subport# port.0 subport_offset }
    {
        SubportIndex {
            port,
            subport_offset,
        }
    }
}

// Why a call is refused.
#[derive(Clone, Copy)]
pub enum Refusal {
    // An offset above 65,534.
    BadOffset,
    TooManyPorts,
    // The node is not live.
    UnknownNode,
    HiddenNode,
    // The move list is shorter than three numbers for each port of the node.
    MovesTooShort,
    // The only or first port is not live.
    UnknownPort(PortIndex),
    // The port belongs to a hidden node.
    HiddenPort(PortIndex),
    // The port is split and has no such offset.
    UnknownOffset(PortIndex),
    NoRoom,
    // The second port is not live.
    UnknownSecondPort(PortIndex),
    // The two inner ports have the same direction.
    IncompatibleDirections(PortIndex, PortIndex, Direction),
    // The inner port is linked.
    AlreadyLinked(PortIndex),
    // Under release 2, an input named already has a wire.
    InputWired,
}

// Where a port of a block stands: the block, the side, and the position on that side.
#[derive(Clone, Copy)]
pub struct PortPlace {
    pub node: NodeIndex,
    pub side: Direction,
    pub position: u16,
}

// A wire as a walk gives it: the two subports that are linked, and where the second one stands.
#[derive(Clone, Copy)]
pub struct SubportLink {
    pub from: SubportIndex,
    pub to: SubportIndex,
    pub place: PortPlace,
}

// An end without its place, as the calls in place answer.
pub fn unplaced(
    answer: Result<Option<(SubportIndex, PortPlace)>, Refusal>,
) -> Result<Option<SubportIndex>, Refusal>
    ensures { (result ≡ unplaced answer) × (unplaced_numbers result ≡ unplaced_numbers (unplaced answer)) }
{
    Ok(answer?.map(|(end, _)| end))
}
