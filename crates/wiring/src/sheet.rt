// A whole sheet of links from one line: a pair of ports is an entry.
ghost use Rattle.multiportgraph.specs.WellFormed.{MultiWf};

use console_parts::orders::Order;
use console_parts::replies::{Reason, show_item, show_refusal_number};
use lines::show::show_number;
use lines::text::{Span, next_word, number_or_zero};
use multiportgraph::multiportgraph::MultiPortGraph;
use port_tables::index::PortIndex;
use records::answers::link_words;
use sheets::held::{SHEET_PLACES, link_held};
use sheets::sheet::SheetEntry;

// The port that a word names.
fn port_of(text: &[u8], word: Span) -> PortIndex {
    PortIndex(number_or_zero(text, word))
}

// The entries of a line from a place on. Stays beside that of a sketch's sheet and the numbers of a run order: what is read is each one's own, and the rest is three lines.
fn put_entries(sheet: &mut [SheetEntry], text: &[u8], from: usize) {
    let mut at = from;
    for entry in sheet {
        let first = next_word(text, at);
        let second = next_word(text, first.to);
        *entry = SheetEntry::new(port_of(text, first), port_of(text, second));
        at = second.to;
    }
}

// The pairs of a line are linked, one after the other: the first places, as many as there are entries, and all of them where a line has more. Stays in both consoles, as
// the entries do: the call and the answers are each one's own.
#[tactic(auto, using(sheets::specs::SheetLaws::held_kept))]
pub(crate) fn link_pairs(
    rt: &impl Print,
    graph: MultiPortGraph,
    order: Order,
    text: &[u8],
) -> MultiPortGraph
    requires { MultiWf graph }
    ensures { MultiWf result }
{
    let none = SheetEntry::new(PortIndex(0), PortIndex(0));
    let mut places = [none; SHEET_PLACES];
    put_entries(&mut places, text, order.from);
    let linked = link_held(graph, places, order.entries);
    match linked.answer {
        Ok(()) => {
            for entry in linked.places.iter().take(order.entries) {
                show_item(rt, link_words(entry.answer), 4);
            }
            show_number(rt, order.entries as u64);
        }
        Err(_) => show_refusal_number(rt, Reason::TooManyEntries),
    }
    linked.graph
}
