// The run: each request in its turn, on the graph that the last one left. No table is ever copied.
ghost use Rattle.std.specs.Prelude.{◌≡◌, ◌%◌, length};
ghost use Rattle.multiportgraph.specs.WellFormed.{MultiWf};
ghost use Rattle.records.specs.Words.{requests_of};
ghost use Rattle.records.specs.Run.{answer_bytes, graph_from, list_taken, returned, written};

use crate::answers::put_answer;
use crate::ask::ask_lent;
use crate::requests::request_in;
use multiportgraph::multiportgraph::MultiPortGraph;
use port_tables::release::Release;

// Runs a list from an empty graph of release 1, past refused calls, and lays every answer.
#[tactic(auto, using(crate::specs::RunSteps::run_ends))]
pub(crate) fn run_list(requests: &[u8], answers: &mut [u8])
    requires { (length answers.old ≡ length requests.now) × (length requests.now % 20 ≡ 0) }
    ensures { answers.new ≡ answer_bytes requests.now }
{
    let mut graph = MultiPortGraph::new(Release::One);
    // The answers are laid by place: of chunks that are lent to be written, a proof keeps the length alone.
    for (k, request) in requests.chunks_exact(20).enumerate() {
        put_answer(answers, 20 * k, ask_lent(&mut graph, request_in(request)));
    }
}

// Whether a list is one of whole requests, with as much space for the answers.
#[tactic(auto, unfolding(crate::specs::Run::list_taken))]
fn list_taken<'a>(requests: &'a [u8], answers: &'a [u8]) -> bool
    ensures { result ≡ list_taken requests.now answers.now }
{
    requests.len() == answers.len() && requests.len() % 20 == 0
}

// Runs a list of requests of five little-endian words. 1 for refusal 1, which leaves the answers as they are; else 0. Stays a number: the C entry gives it on.
#[tactic(auto, unfolding(crate::specs::Run::list_taken, crate::specs::Run::returned, crate::specs::Run::written))]
pub fn run_records(requests: &[u8], answers: &mut [u8]) -> u32
    ensures { (result ≡ returned requests.now answers.old)
        × (answers.new ≡ written requests.now answers.old) }
{
    if !list_taken(requests, answers) {
        return 1;
    }
    run_list(requests, answers);
    0
}

// Runs a list of requests on a graph, past refused calls. What stands after the last whole request is not read.
#[tactic(auto, using(crate::specs::RunSteps::going_ends))]
pub fn run_on(graph: &mut MultiPortGraph, requests: &[u8])
    requires { MultiWf graph.old }
    ensures { (graph.new ≡ graph_from graph.old (requests_of requests.now))
        × MultiWf graph.new }
{
    for request in requests.chunks_exact(20) {
        // The answer goes nowhere.
        let _ = ask_lent(graph, request_in(request));
    }
}
