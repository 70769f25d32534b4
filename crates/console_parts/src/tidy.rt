// A port is tidied: no wire changes its place.
ghost use Rattle.multiportgraph.specs.WellFormed.{MultiWf};

use crate::orders::Order;
use crate::replies::show_refusal;
use lines::show::write_bytes;
use multiportgraph::multiportgraph::MultiPortGraph;
use records::ask::tidy_port;

// A command that tidies a port.
pub fn tidy(rt: &impl Print, graph: MultiPortGraph, order: Order) -> MultiPortGraph
    requires { MultiWf graph }
    ensures { MultiWf result }
{
    let done = tidy_port(graph, order.number(0));
    match done.answer {
        Ok(()) => write_bytes(rt, b"ok\n"),
        Err(refusal) => show_refusal(rt, refusal),
    }
    done.graph
}
