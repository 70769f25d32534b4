// Wrapper around a port graph that provides multiports through hidden copy nodes.
ghost use Rattle.std.specs.Prelude.{◌≡◌};

use multi_tables::answers::{PortPlace, Refusal, SubportIndex};
use multi_tables::wire_tables::WireTables;
use port_tables::index::{NODE_SLOTS, NodeIndex, PORT_SLOTS, PortIndex};
use port_tables::release::Release;
use portgraph::portgraph::PortGraph;

// A port graph, by value, that allows several links at one port. MultiWf stays a clause of the calls: their steps run on graphs that are halfway, for which an
// invariant would need a type of their own.
// The marks and flags stay tables of their own, as the Rust portgraph's.
#[derive(Clone, Copy)]
pub struct MultiPortGraph {
    pub(crate) graph: PortGraph,
    // Marks of the ports that connect a main port with its copy node, at both ends.
    pub(crate) multiport: [bool; PORT_SLOTS],
    // Flags of the hidden copy nodes.
    pub(crate) copy_node: [bool; NODE_SLOTS],
    // The number of hidden nodes, and of subports in them.
    pub(crate) copy_node_count: usize,
    pub(crate) subport_count: usize,
    // The release that it is made for, which no call changes.
    pub(crate) release: Release,
}

impl MultiPortGraph {
    // The single-link graph, hidden nodes and their ports included. The Rust portgraph has it under this name.
    pub fn as_portgraph(&self) -> &PortGraph
        ensures { result.now ≡ self.now.graph }
    {
        &self.graph
    }

    // The tables that tell what a port is and what it is wired with.
    pub(crate) fn wire_tables(&self) -> WireTables<'_>
        ensures { (result.marks.now ≡ self.now.multiport) × (result.links.now ≡ self.now.graph.port_link) × (result.owners.now ≡ self.now.graph.port_meta) × (result.flags.now ≡ self.now.copy_node) }
    {
        WireTables {
            marks: &self.multiport,
            links: self.graph.link_table(),
            owners: self.graph.owner_table(),
            flags: &self.copy_node,
        }
    }
}

// By value with its answer, the form asked for (docs/DECISIONS.md). Each call has a struct of its own: one for all would be written out with its answer,
// as Answered<Option<(SubportIndex, PortPlace)>>, in every signature and definition, and is no plainer.
#[derive(Clone, Copy)]
pub struct NodeAdded {
    pub graph: MultiPortGraph,
    pub answer: Result<(NodeIndex, PortIndex), Refusal>,
}

// A struct of its own, as NodeAdded.
#[derive(Clone, Copy)]
pub struct NodeRemoved {
    pub graph: MultiPortGraph,
    pub answer: Result<(), Refusal>,
}

// A struct of its own, as NodeAdded.
#[derive(Clone, Copy)]
pub struct PortsSet {
    pub graph: MultiPortGraph,
    pub answer: Result<usize, Refusal>,
}

// A struct of its own, as NodeAdded.
#[derive(Clone, Copy)]
pub struct PortsLinked {
    pub graph: MultiPortGraph,
    pub answer: Result<(SubportIndex, SubportIndex), Refusal>,
}

// A struct of its own, as NodeAdded.
#[derive(Clone, Copy)]
pub struct PortUnlinked {
    pub graph: MultiPortGraph,
    pub answer: Result<Option<(SubportIndex, PortPlace)>, Refusal>,
}

// A struct of its own, as NodeAdded.
#[derive(Clone, Copy)]
pub struct PortTidied {
    pub graph: MultiPortGraph,
    pub answer: Result<(), Refusal>,
}
