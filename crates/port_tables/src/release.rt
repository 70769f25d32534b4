// The release of the kit that a graph is made for: the multiport graph and the sketch, of which neither rests on the other, read it.
#[derive(Clone, Copy, PartialEq, Eq)]
pub enum Release {
    // Every port takes many wires.
    One,
    // An input takes one wire only.
    Two,
}
