// One request on a graph that the caller holds. Each function here also tells that the graph stays one that came from the calls, which is
// what every call presumes.
ghost use Rattle.std.specs.Prelude.{◌≡◌, length};
ghost use Rattle.multiportgraph.specs.Calls.{set_counts, moves_told, cut_port, cut_sub, tidy_port};
ghost use Rattle.theorems.specs.Book.{link_clean_call};
ghost use Rattle.multiportgraph.specs.WellFormed.{MultiWf};
ghost use Rattle.records.specs.Run.{call, asked_by, Answered};
ghost use Rattle.records.specs.Forms.{meant};
ghost use Rattle.multiportgraph.specs.Graph.{empty_graph};

use crate::answers::{
    Answer5, add_words, counted, cut_words, link_words, refusal_words, remove_words, set_words,
};
use crate::requests::{Ask, Request, ask_of};
use multi_tables::answers::{Refusal, SubportIndex};
use multiportgraph::multiportgraph::{MultiPortGraph, PortTidied, PortUnlinked, PortsSet};
use port_tables::index::{NodeIndex, PortIndex};
use port_tables::release::Release;

// The graph afterwards, and the five words of the answer.
// Stays a struct: a refused request leaves a graph too.
#[derive(Clone, Copy)]
pub struct Asked {
    pub graph: MultiPortGraph,
    pub answer: Answer5,
}

// The empty graph of a release.
#[tactic(auto, using(crate::specs::AskSteps::empty_told))]
pub fn empty(release: Release) -> MultiPortGraph
    ensures { (result ≡ empty_graph release) × MultiWf result }
{
    MultiPortGraph::new(release)
}

// Changes the number of ports of a block, with the caller's move list.
// Counts are cast here and in `answer_lent`: by `wide` each call would be proved of other numbers, and carried over to these in each answer.
#[tactic(auto, using(crate::specs::AskSteps::set_wf))]
pub fn resize(
    graph: MultiPortGraph,
    node: u32,
    incoming: u32,
    outgoing: u32,
    moves: &mut [u32],
) -> PortsSet
    requires { MultiWf graph }
    ensures { (result ≡ set_counts graph node incoming outgoing (length moves.old))
        × (moves.new ≡ moves_told graph node incoming outgoing moves.old)
        × MultiWf result.graph }
{
    graph.set_num_ports(NodeIndex(node), incoming as usize, outgoing as usize, moves)
}

// Cuts every wire at a port, and answers the place too, which no record has room for.
#[tactic(auto, using(crate::specs::AskSteps::cut_wf))]
pub fn cut_port(graph: MultiPortGraph, port: u32) -> PortUnlinked
    requires { MultiWf graph }
    ensures { (result ≡ cut_port graph port) × MultiWf result.graph }
{
    graph.unlink_port(PortIndex(port))
}

// Cuts the wire at a subport, and answers the place too. Stays beside `cut_port`: a trait over what is cut at would be longer than both.
#[tactic(auto, using(crate::specs::AskSteps::cut_sub_wf))]
pub fn cut_subport(graph: MultiPortGraph, port: u32, offset: u16) -> PortUnlinked
    requires { MultiWf graph }
    ensures { (result ≡ cut_sub graph port offset) × MultiWf result.graph }
{
    graph.unlink_subport(SubportIndex {
        port: PortIndex(port),
        subport_offset: offset,
    })
}

// Tidies a port; no request asks for this.
#[tactic(auto, using(crate::specs::AskSteps::tidy_wf))]
pub fn tidy_port(graph: MultiPortGraph, port: u32) -> PortTidied
    requires { MultiWf graph }
    ensures { (result ≡ tidy_port graph port) × MultiWf result.graph }
{
    graph.tidy(PortIndex(port))
}

// Links two ports and leaves no stub; no request asks for this.
pub fn link_clean(graph: MultiPortGraph, a: u32, b: u32) -> Asked
    requires { MultiWf graph }
    ensures { Answered graph (call (link_clean_call a b)) (result.answer.0) result.graph }
{
    let linked = graph.link_ports_clean(PortIndex(a), PortIndex(b));
    Asked {
        graph: linked.graph,
        answer: link_words(linked.answer),
    }
}

// What is asked of a graph, in place: the call, and its answer.
fn answer_lent(graph: &mut MultiPortGraph, asked: Ask) -> Answer5
    requires { MultiWf graph.old }
    ensures { (Answered graph.old (meant asked) result.0 graph.new) }
{
    match asked {
        Ask::Add(incoming, outgoing) => {
            add_words(graph.add_lent(incoming as usize, outgoing as usize))
        }
        Ask::Remove(node) => remove_words(graph.remove_lent(node)),
        Ask::Resize(node, incoming, outgoing) => set_words(graph.set_quiet_lent(
            node,
            incoming as usize,
            outgoing as usize,
        )),
        Ask::Link(a, b) => link_words(graph.link_lent(a, b)),
        Ask::Unlink(port) => cut_words(graph.cut_port_lent(port)),
        Ask::LinkSubports(from, to) => link_words(graph.link_sub_lent(from, to)),
        Ask::UnlinkSubport(subport) => cut_words(graph.cut_sub_lent(subport)),
        Ask::SubportLink(subport) => cut_words(graph.subport_link_lent(subport)),
        Ask::Counts => counted(graph.node_count(), graph.port_count(), graph.link_count()),
    }
}

// A request, asked of a graph in place: an offset that is too large, or a word that has to be 0, is refusal 2, and so is a code that asks nothing.
pub(crate) fn ask_lent(graph: &mut MultiPortGraph, request: Request) -> Answer5
    requires { MultiWf graph.old }
    ensures { (Answered graph.old (asked_by request.code request.a request.b request.c request.d) result.0 graph.new) }
{
    match ask_of(request) {
        Some(asked) => answer_lent(graph, asked),
        None => refusal_words(Refusal::BadOffset),
    }
}

// The same, by value: what is asked, and a request.
// Stay two: a trait over what is asked would be longer than both.
pub fn answer(mut graph: MultiPortGraph, asked: Ask) -> Asked
    requires { MultiWf graph }
    ensures { Answered graph (meant asked) (result.answer.0) result.graph }
{
    let answer = answer_lent(&mut graph, asked);
    Asked { graph, answer }
}

pub fn ask(mut graph: MultiPortGraph, request: Request) -> Asked
    requires { MultiWf graph }
    ensures { Answered graph (asked_by request.code request.a request.b request.c request.d) (result.answer.0) result.graph }
{
    let answer = ask_lent(&mut graph, request);
    Asked { graph, answer }
}
