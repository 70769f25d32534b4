// A graph with the answers that it gave so far, each held to the one expected.
ghost use Rattle.multiportgraph.specs.WellFormed.{MultiWf};

use crate::looks::{has_wires, lists};
use multi_tables::answers::{Refusal, SubportLink};
use multiportgraph::multiportgraph::MultiPortGraph;
use port_tables::release::Release;
use records::ask::{ask, empty, resize};
use records::requests::Request;

// `good` as long as every answer was the one expected. Stays a flag beside the graph, which goes on after another answer too.
#[derive(Drop)]
pub struct State {
    pub graph: MultiPortGraph,
    pub good: bool,
}

// The requests, with their codes: the cases ask by records, so that they go through the reading of requests too.
#[derive(Clone, Copy)]
pub(crate) enum Code {
    Add = 1,
    Remove = 2,
    Resize = 3,
    Link = 4,
    Unlink = 5,
    SubportLink = 8,
    Counts = 9,
}

// Whether a resize was done with so many events.
fn was_set(answer: Result<usize, Refusal>, count: usize) -> bool {
    matches!(answer, Ok(events) if events == count)
}

impl State {
    // The empty graph of release 1, as record runs have it.
    pub(crate) fn new() -> Self
        ensures { MultiWf result.graph }
    {
        State {
            graph: empty(Release::One),
            good: true,
        }
    }

    // One fact more about the graph.
    fn with(mut self, holds: bool) -> Self
        requires { MultiWf self.graph }
        ensures { MultiWf result.graph }
    {
        self.good = self.good && holds;
        self
    }

    // A request, a code with its arguments, and its answer: 0 or the refusal, then values.
    pub(crate) fn asked(self, code: Code, arguments: [u32; 4], words: [u32; 5]) -> Self
        requires { MultiWf self.graph }
        ensures { MultiWf result.graph }
    {
        let [a, b, c, d] = arguments;
        let told = ask(
            self.graph,
            Request {
                code: code as u32,
                a,
                b,
                c,
                d,
            },
        );
        State {
            graph: told.graph,
            good: self.good && told.answer.0 == words,
        }
    }

    // A resize of a node with two ports: node, inputs and outputs, its number of events and its move list.
    pub(crate) fn resized(self, arguments: [u32; 3], events: usize, numbers: [u32; 6]) -> Self
        requires { MultiWf self.graph }
        ensures { MultiWf result.graph }
    {
        let [node, incoming, outgoing] = arguments;
        let mut moves = [0u32; 6];
        let sized = resize(self.graph, node, incoming, outgoing, &mut moves);
        State {
            graph: sized.graph,
            good: self.good && was_set(sized.answer, events) && moves == numbers,
        }
    }

    // The subports of a node, a port and an offset each.
    pub(crate) fn listed(self, node: u32, subports: &[(u32, u32)]) -> Self
        requires { MultiWf self.graph }
        ensures { MultiWf result.graph }
    {
        let holds = lists(&self.graph, node, subports);
        self.with(holds)
    }

    // The number of all wires.
    pub(crate) fn wired(self, count: u32) -> Self
        requires { MultiWf self.graph }
        ensures { MultiWf result.graph }
    {
        let holds = has_wires(&self.graph, count);
        self.with(holds)
    }
}
