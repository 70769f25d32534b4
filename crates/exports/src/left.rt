// The graph that a list of requests leaves.
ghost use Rattle.std.specs.Prelude.{◌≡◌};
ghost use Rattle.multiportgraph.specs.WellFormed.{MultiWf};
ghost use Rattle.records.specs.Run.{first_graph};
ghost use Rattle.exports.specs.Exports.{graph_left};

use multiportgraph::multiportgraph::MultiPortGraph;
use records::run::run_on;

// Runs a list of requests on the empty graph of release 1, past refused calls. The graph lies where the entry made it, and is not moved. Not inlined: what the calls of
// the run need does not lie on the stack while the graph is read.
// The test of the length stays in each entry: for an `Option` each would take it apart in as many lines.
#[inline(never)]
pub(crate) fn run_left(graph: &mut MultiPortGraph, requests: &[u8])
    requires { graph.old ≡ first_graph }
    ensures { (graph.new ≡ graph_left requests.now) × MultiWf graph.new }
{
    run_on(graph, requests);
}
