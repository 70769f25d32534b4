// Cuts, and what a subport is linked with: the end that is found, and where it stands.
ghost use Rattle.multiportgraph.specs.WellFormed.{MultiWf};

use crate::orders::{Order, subport_at};
use crate::replies::{show_refusal, with_place, with_subport};
use lines::show::Line;
use multi_tables::answers::{PortPlace, Refusal, SubportIndex};
use multiportgraph::multiportgraph::{MultiPortGraph, PortUnlinked};

fn show_found(rt: &impl Print, answer: Result<Option<(SubportIndex, PortPlace)>, Refusal>) {
    match answer {
        Ok(Some((end, place))) => {
            with_place(with_subport(Line::of(b"ok 1"), end), place).write(rt);
        }
        Ok(None) => Line::of(b"ok 0 0 0").write(rt),
        Err(refusal) => show_refusal(rt, refusal),
    }
}

// What a cut found; the graph that it left is given back.
pub fn show_cut(rt: &impl Print, done: PortUnlinked) -> MultiPortGraph
    requires { MultiWf done.graph }
    ensures { MultiWf result }
{
    show_found(rt, done.answer);
    done.graph
}

// What a subport is linked with.
pub fn show_link(rt: &impl Print, graph: &MultiPortGraph, order: Order)
    requires { MultiWf graph.now }
{
    show_found(rt, graph.subport_link(subport_at(order, 0)));
}
