// Linking two ports. Each is made ready, and a wire laid between the two ends.
ghost use Rattle.std.specs.Prelude.{◌≡◌, false, Ok};
ghost use Rattle.port_tables.specs.Entries.{same_side};
ghost use Rattle.port_tables.specs.Places.{wire_of_sides};
ghost use Rattle.sketches.specs.Plan.{place_named, input_taken, wired_side};
ghost use Rattle.sketches.specs.PlanCalls.{both_linked, link_ports, link_clean};
ghost use Rattle.sketches.specs.PlanNumbers.{link_numbers};
ghost use Rattle.sketches.specs.Rows.{wire_of};
ghost use Rattle.sketches.specs.Held.{plan_of, Left, HeldWf};
ghost use Rattle.sketches.specs.CallParts.{Linkable, judge_ports, judge_second};

use crate::rows::Row;
use crate::sketch::{Reason, SketchEnd, SketchPort};
use crate::tests::EndTest;
use crate::totals::Sketch;
use port_tables::direction::Direction;
use port_tables::release::Release;

// The row of a wire from one end to another.
fn ends_row(out: SketchEnd, into: SketchEnd) -> Row
    ensures { result ≡ record { 0 = out.port.block; 1 = out.port.position; 2 = out.offset; 3 = into.port.block; 4 = into.port.position; 5 = into.offset } }
{
    Row(
        out.port.block,
        out.port.position,
        u32::from(out.offset),
        into.port.block,
        into.port.position,
        u32::from(into.offset),
    )
}

// The row of a wire between two ends, of which one is an output.
pub(crate) fn wire_row(x: SketchEnd, y: SketchEnd) -> Row
    requires { same_side x.port.side y.port.side ≡ false }
    ensures { wire_of result ≡ wire_of_sides x.port.side (place_named x.port x.offset) (place_named y.port y.offset) }
{
    match x.port.side {
        Direction::Incoming => ends_row(y, x),
        Direction::Outgoing => ends_row(x, y),
    }
}

impl Sketch {
    // Whether a port is an input that is there and has a wire.
    fn wired_input(&self, port: SketchPort) -> bool
        ensures { result ≡ wired_side (plan_of self.now) port port.side }
    {
        port.side == Direction::Incoming
            && self.is_there(port)
            && self.is_wired(EndTest::AtPort(port))
    }

    // Whether a link names such an input under release 2.
    #[tactic(auto, using(crate::specs::LinkSteps::taken_one, crate::specs::LinkSteps::taken_first_lem, crate::specs::LinkSteps::taken_second_lem))]
    fn input_taken(&self, x: SketchPort, y: SketchPort) -> bool
        ensures { result ≡ input_taken (plan_of self.now) x y }
    {
        self.release == Release::Two && (self.wired_input(x) || self.wired_input(y))
    }

    // The second of two ports, of which the first is there.
    #[tactic(auto, using(port_tables::specs::SameSides::sides_compared))]
    pub(crate) fn judge_second(&self, x: SketchPort, y: SketchPort) -> Result<(), Reason>
        ensures { result ≡ judge_second (plan_of self.now) x y }
    {
        if self.input_taken(x, y) {
            return Err(Reason::InputWired);
        }
        if !self.is_there(y) {
            return Err(Reason::UnknownSecondPort);
        }
        if x.side == y.side {
            return Err(Reason::SameSide);
        }
        Ok(())
    }

    // Two ports that are to be linked.
    // The invariant stands in a clause, as in `ports`.
    #[tactic(auto, unfolding(crate::specs::CallParts::judge_ports), using(port_tables::specs::SameSides::sides_compared))]
    fn judge_ports(&self, x: SketchPort, y: SketchPort) -> Result<(), Reason>
        ensures is { result ≡ judge_ports (plan_of self.now) x y }
        ensures wf { HeldWf self.now }
    {
        self.find_port(x)?;
        self.judge_second(x, y)?;
        if self.is_full() {
            return Err(Reason::NoRoom);
        }
        Ok(())
    }

    // Both ports are made ready, and a wire is laid between them.
    #[tactic(auto, using(crate::specs::SplitSteps::plan_back, crate::specs::LinkSteps::both_there, crate::specs::LinkSteps::still_room, crate::specs::LinkSteps::ends_apart))]
    fn link_both(&mut self, x: SketchPort, y: SketchPort) -> (SketchEnd, SketchEnd)
        requires { Linkable self.old.blocks self.old.splits self.old.wires self.old.totals x y }
        ensures { Left link_numbers (both_linked (plan_of self.old) x y) self.new (Ok result) }
    {
        let first = self.ready_port(x);
        let second = self.ready_port(y);
        self.wires.push(wire_row(first, second));
        (first, second)
    }

    // Links two ports. A refusal of the second port, or of the sides, keeps what was made ready.
    #[tactic(auto, using(crate::specs::LinkSteps::judged_linkable, crate::specs::LinkSteps::judged_second, crate::specs::LinkSteps::judged_sides, crate::specs::LinkSteps::link_as_judged, crate::specs::LinkSteps::both_there))]
    pub fn link(&mut self, x: SketchPort, y: SketchPort) -> Result<(SketchEnd, SketchEnd), Reason>
        ensures { Left link_numbers (link_ports (plan_of self.old) x y) self.new result }
    {
        let Err(reason) = self.judge_ports(x, y) else {
            return Ok(self.link_both(x, y));
        };
        match reason {
            Reason::UnknownSecondPort => {
                self.ready_port(x);
            }
            Reason::SameSide => {
                self.ready_port(x);
                self.ready_port(y);
            }
            _ => {}
        }
        Err(reason)
    }

    // Links two ports. A refusal leaves nothing.
    #[tactic(auto, using(crate::specs::LinkSteps::judged_linkable, crate::specs::LinkSteps::clean_as_judged))]
    pub fn link_clean(
        &mut self,
        x: SketchPort,
        y: SketchPort,
    ) -> Result<(SketchEnd, SketchEnd), Reason>
        ensures { Left link_numbers (link_clean (plan_of self.old) x y) self.new result }
    {
        self.judge_ports(x, y)?;
        Ok(self.link_both(x, y))
    }
}
