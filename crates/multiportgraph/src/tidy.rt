// Tidying a port: empty subports above the highest wired one go, or the whole hidden node.
ghost use Rattle.std.specs.Prelude.{◌≡◌, cond, ◌+◌, ◌≤◌};
ghost use Rattle.port_tables.specs.Limits.{port_slots};
ghost use Rattle.port_tables.specs.Tables.{at};
ghost use Rattle.multiportgraph.specs.Reading.{copy_node, is_split, subports};
ghost use Rattle.multi_tables.specs.TableReads.{first_in};
ghost use Rattle.multiportgraph.specs.CodeForms.{linked_from};
ghost use Rattle.multiportgraph.specs.Tidy.{drop_subports, link_directly, subports_left, tidied};
ghost use Rattle.multiportgraph.specs.Calls.{tidy_port};
ghost use Rattle.multiportgraph.specs.Answers.{tidy_numbers};
ghost use Rattle.multiportgraph.specs.WellFormed.{MultiWf};
ghost use Rattle.multiportgraph.specs.Presumed.{OnBlock, SplitPort, LeftPort};

use crate::multiportgraph::{MultiPortGraph, PortTidied};
use crate::prepare::hidden_counts;
use multi_tables::answers::Refusal;
use multi_tables::marks::put_marks;
use multi_tables::seen::SidedPort;
use port_tables::index::{NodeIndex, PORT_SLOTS, PortIndex};
use port_tables::numbers::wide;
use port_tables::tables::{at, far_in, owner_in};

// How many of `count` ports from `first` on are left without the unlinked ones above the highest linked one. Goes over numbers, not over the slice: the laws of a
// search of a range from the back stand already, for the walks; `rposition` would need its own, and is no plainer.
pub(crate) fn linked_from(links: &[u32; PORT_SLOTS], first: usize, count: usize) -> usize
    requires { first + count ≤ port_slots }
    ensures { result ≡ linked_from links.now first count }
{
    (0..count)
        .rev()
        .find(|k| at(links, first + *k) != 0)
        .map_or(0, |k| k + 1)
}

impl MultiPortGraph {
    // A split port's hidden node is left with some of its subports. The copy port's mark moves with it.
    fn drop_subports(&mut self, port: SidedPort, count: usize, left: usize)
        requires { LeftPort self.old port.port port.side count left }
        ensures { self.new ≡ drop_subports self.old (copy_node self.old port.port) port.side left }
    {
        let copy = far_in(self.graph.link_table(), wide(port.port));
        let node = owner_in(self.graph.owner_table(), copy);
        let (incoming, outgoing) = hidden_counts(port.side, left);
        // Fewer ports have room in their block.
        let _ = self
            .graph
            .set_num_ports_quiet_lent(NodeIndex(node), incoming, outgoing);
        let moved = far_in(self.graph.link_table(), wide(port.port));
        put_marks(&mut self.multiport, copy, false, moved, true);
        self.subport_count = self
            .subport_count
            .saturating_sub(count.saturating_sub(left));
    }

    // The hidden node of a split port goes, and what its first subport was linked with is linked to the port.
    #[tactic(auto, unfolding(multi_tables::specs::TableReads::far_in), using(crate::specs::TidySteps::direct_none, crate::specs::TidySteps::direct_one, crate::specs::OwnTables::read_off))]
    fn link_directly(&mut self, port: SidedPort)
        requires { SplitPort self.old port.port port.side }
        ensures { self.new ≡ link_directly self.old port.port port.side }
    {
        // as the table holds it: one higher than the port, 0 for nothing
        let held = at(self.graph.link_table(), self.wire_tables().first_in(port));
        self.unsplit(port.port);
        if let Some(far) = held.checked_sub(1) {
            // Neither end is linked any more.
            let _ = self
                .graph
                .link_ports_lent(PortIndex(port.port), PortIndex(far));
        }
    }

    // Tidies a port: empty subports above the highest wired one go. Where only offset 0 is then wired, or none is, the hidden node
    // goes, and the wire, if there is one, is linked to the port directly.
    pub fn tidy(mut self, port: PortIndex) -> PortTidied
        requires { MultiWf self }
        ensures { (result ≡ tidy_port self port.0) × (tidy_numbers result.answer ≡ tidy_numbers (tidy_port self port.0).answer) }
    {
        let answer = self.tidy_lent(port);
        PortTidied {
            graph: self,
            answer,
        }
    }

    #[tactic(auto, unfolding(crate::specs::Calls::tidy_port, crate::specs::Lookups::direction_of))]
    fn tidy_lent(&mut self, port: PortIndex) -> Result<(), Refusal>
        requires { MultiWf self.old }
        ensures { (self.new ≡ (tidy_port self.old port.0).graph) × (result ≡ (tidy_port self.old port.0).answer) }
    {
        let side = self.port_direction(port)?;
        self.tidied(SidedPort { port: port.0, side });
        Ok(())
    }

    // A port of a block is tidied.
    #[tactic(auto, using(crate::specs::CodeFormSteps::split_told, crate::specs::TidySteps::left_read, crate::specs::TidySteps::many_read))]
    fn tidied(&mut self, port: SidedPort)
        requires { OnBlock self.old port.port port.side }
        ensures { self.new ≡ cond (is_split self.old port.port) (tidied self.old port.port port.side) self.old }
    {
        if self.is_split(port.port) {
            let tables = self.wire_tables();
            let count = tables.subports_in(port);
            let first = tables.first_in(port);
            let left = linked_from(self.graph.link_table(), first, count);
            self.leave(port, count, left);
        }
    }

    // So many of the subports of a split port are left.
    #[tactic(auto, unfolding(crate::specs::Tidy::tidied), using(crate::specs::TidySteps::left_all))]
    fn leave(&mut self, port: SidedPort, count: usize, left: usize)
        requires { SplitPort self.old port.port port.side × (count ≡ subports self.old port.port port.side) × (left ≡ subports_left self.old port.port port.side) }
        ensures { self.new ≡ tidied self.old port.port port.side }
    {
        if left < 2 {
            self.link_directly(port);
        } else if left < count {
            self.drop_subports(port, count, left);
        }
    }
}
