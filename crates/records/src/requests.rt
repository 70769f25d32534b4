// What a request of five words asks.
ghost use Rattle.std.specs.Prelude.{◌≡◌, ◌≤◌, ◌<◌, length, MatchOption};
ghost use Rattle.multi_tables.specs.Forms.{subport#};
ghost use Rattle.records.specs.Words.{request_at};
ghost use Rattle.records.specs.Run.{all_zero, asked, asked_by};
ghost use Rattle.records.specs.Forms.{meant_by};

use crate::words::word_at;
use multi_tables::answers::SubportIndex;
use port_tables::index::{NodeIndex, PortIndex};

// A call with its arguments.
#[derive(Clone, Copy)]
pub enum Ask {
    // incoming, outgoing
    Add(u32, u32),
    Remove(NodeIndex),
    // node, incoming, outgoing
    Resize(NodeIndex, u32, u32),
    Link(PortIndex, PortIndex),
    Unlink(PortIndex),
    LinkSubports(SubportIndex, SubportIndex),
    UnlinkSubport(SubportIndex),
    SubportLink(SubportIndex),
    Counts,
}

// Whether words are 0.
fn all_zero(words: &[u32]) -> bool
    ensures { result ≡ all_zero words.now }
{
    words.iter().all(|word| *word == 0)
}

// The subport of a port at an offset, if an offset may be so large.
fn subport(port: u32, offset: u32) -> Option<SubportIndex>
    ensures { MatchOption result (65535 ≤ offset) (λ s. (offset < 65535) × (s ≡ subport# port offset)) }
{
    let subport_offset = u16::try_from(offset)
        .ok()
        .filter(|offset| *offset < u16::MAX)?;
    Some(SubportIndex {
        port: PortIndex(port),
        subport_offset,
    })
}

// The five words of a request: a code, and its arguments. Stays a code: a record has it, and any number may stand there.
#[derive(Clone, Copy)]
pub struct Request {
    pub code: u32,
    pub a: u32,
    pub b: u32,
    pub c: u32,
    pub d: u32,
}

// What a request asks, if it is one.
#[tactic(auto, unfolding(crate::specs::Run::asked_by))]
pub(crate) fn ask_of(request: Request) -> Option<Ask>
    ensures { meant_by result ≡ asked_by request.code request.a request.b request.c request.d }
{
    let Request { code, a, b, c, d } = request;
    match code {
        1 => all_zero(&[c, d]).then_some(Ask::Add(a, b)),
        2 => all_zero(&[b, c, d]).then_some(Ask::Remove(NodeIndex(a))),
        3 => all_zero(&[d]).then_some(Ask::Resize(NodeIndex(a), b, c)),
        4 => all_zero(&[c, d]).then_some(Ask::Link(PortIndex(a), PortIndex(b))),
        5 => all_zero(&[b, c, d]).then_some(Ask::Unlink(PortIndex(a))),
        6 => Some(Ask::LinkSubports(subport(a, b)?, subport(c, d)?)),
        7 => all_zero(&[c, d]).then_some(Ask::UnlinkSubport(subport(a, b)?)),
        8 => all_zero(&[c, d]).then_some(Ask::SubportLink(subport(a, b)?)),
        9 => all_zero(&[a, b, c, d]).then_some(Ask::Counts),
        _ => None,
    }
}

// The request that stands in twenty bytes.
#[tactic(auto, unfolding(crate::specs::Words::request_at))]
pub(crate) fn request_in(bytes: &[u8]) -> Request
    requires { 20 ≤ length bytes.now }
    ensures { asked_by result.code result.a result.b result.c result.d ≡ asked (request_at bytes.now 0) }
{
    Request {
        code: word_at(bytes, 0),
        a: word_at(bytes, 4),
        b: word_at(bytes, 8),
        c: word_at(bytes, 12),
        d: word_at(bytes, 16),
    }
}
