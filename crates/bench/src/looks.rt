// Looks at a graph: the subports of a node, all wires.
ghost use Rattle.multiportgraph.specs.WellFormed.{MultiWf};

use multiportgraph::multiportgraph::MultiPortGraph;
use port_tables::index::NodeIndex;
use port_tables::sides::Sides;

// Whether the subports of a node, both sides, are these: a port and an offset each.
pub(crate) fn lists(graph: &MultiPortGraph, node: u32, subports: &[(u32, u32)]) -> bool
    requires { MultiWf graph.now }
{
    let Ok(start) = graph.subports(NodeIndex(node), Sides::Both) else {
        return false;
    };
    let mut cursor = start;
    for expected in subports {
        let Some((subport, next)) = cursor.step(graph) else {
            return false;
        };
        if (subport.port.0, subport.subport_offset as u32) != *expected {
            return false;
        }
        cursor = next;
    }
    cursor.step(graph).is_none()
}

// Whether the list of all wires has so many.
pub(crate) fn has_wires(graph: &MultiPortGraph, count: u32) -> bool
    requires { MultiWf graph.now }
{
    let mut cursor = graph.wires();
    for _wire in 0..count {
        let Some((_, next)) = cursor.step(graph) else {
            return false;
        };
        cursor = next;
    }
    cursor.step(graph).is_none()
}
