// Ends, each a port with an offset: how they are read, and linking two of them.
ghost use Rattle.std.specs.Prelude.{◌≡◌, cond, false, ◌||◌};
ghost use Rattle.sketches.specs.Plan.{is_there, offset_read, lacks_offset};
ghost use Rattle.sketches.specs.PlanCalls.{is_wired, bad_offset, link_subports};
ghost use Rattle.sketches.specs.PlanNumbers.{link_numbers};
ghost use Rattle.sketches.specs.Held.{plan_of, Left, HeldWf};
ghost use Rattle.sketches.specs.CallParts.{judge_end, judge_ends};

use crate::links::wire_row;
use crate::sketch::{Reason, SketchEnd};
use crate::tests::EndTest;
use crate::totals::Sketch;

// An offset of 65,535 is none.
fn bad_offset(offset: u16) -> bool
    ensures { result ≡ bad_offset offset }
{
    offset == u16::MAX
}

// Whether one of two ends has an offset of 65,535.
fn bad_offsets(x: SketchEnd, y: SketchEnd) -> bool
    ensures { result ≡ (bad_offset x.offset || bad_offset y.offset) }
{
    bad_offset(x.offset) || bad_offset(y.offset)
}

// The invariant stands in clauses, as in `ports`.
impl Sketch {
    // An offset as read: 0 on a port that is not split.
    pub(crate) fn offset_read(&self, end: SketchEnd) -> u16
        ensures read { result ≡ offset_read (plan_of self.now) end.port end.offset }
        ensures wf { HeldWf self.now }
    {
        if self.subports_of(end.port) == 0 {
            return 0;
        }
        end.offset
    }

    // What asks for an end, as read.
    pub(crate) fn end_test(&self, end: SketchEnd) -> EndTest
        ensures is { result ≡ EndTest.AtEnd end.port (offset_read (plan_of self.now) end.port end.offset) }
        ensures wf { HeldWf self.now }
    {
        EndTest::AtEnd(end.port, u32::from(self.offset_read(end)))
    }

    // Whether a port is split and has no such offset.
    fn lacks_offset(&self, end: SketchEnd) -> bool
        ensures { result ≡ lacks_offset (plan_of self.now) end.port end.offset }
    {
        let subports = self.subports_of(end.port);
        subports != 0 && subports <= u32::from(end.offset)
    }

    // One end that is named.
    #[tactic(auto, unfolding(crate::specs::CallParts::judge_end))]
    pub(crate) fn judge_end(&self, end: SketchEnd) -> Result<(), Reason>
        ensures { result ≡ judge_end (plan_of self.now) end.port end.offset }
    {
        if bad_offset(end.offset) {
            return Err(Reason::BadOffset);
        }
        self.find_port(end.port)?;
        if self.lacks_offset(end) {
            return Err(Reason::UnknownOffset);
        }
        Ok(())
    }

    // Whether one of two ends is on a split port that has no such offset; the second counts if it is there.
    fn lack_offsets(&self, x: SketchEnd, y: SketchEnd) -> bool
        ensures { result ≡ (lacks_offset (plan_of self.now) x.port x.offset || cond (is_there (plan_of self.now) y.port) (lacks_offset (plan_of self.now) y.port y.offset) false) }
    {
        self.lacks_offset(x) || (self.is_there(y.port) && self.lacks_offset(y))
    }

    // Whether an end, as read, has a wire.
    fn end_wired(&self, end: SketchEnd) -> bool
        ensures { result ≡ is_wired (plan_of self.now) end.port end.offset }
    {
        self.is_wired(self.end_test(end))
    }

    fn ends_wired(&self, x: SketchEnd, y: SketchEnd) -> bool
        ensures { result ≡ (is_wired (plan_of self.now) x.port x.offset || is_wired (plan_of self.now) y.port y.offset) }
    {
        self.end_wired(x) || self.end_wired(y)
    }

    // Two ends that are to be linked.
    #[tactic(auto, unfolding(crate::specs::CallParts::judge_ends))]
    fn judge_ends(&self, x: SketchEnd, y: SketchEnd) -> Result<(), Reason>
        ensures { result ≡ judge_ends (plan_of self.now) x.port x.offset y.port y.offset }
    {
        if bad_offsets(x, y) {
            return Err(Reason::BadOffset);
        }
        self.find_port(x.port)?;
        if self.lack_offsets(x, y) {
            return Err(Reason::UnknownOffset);
        }
        self.judge_second(x.port, y.port)?;
        if self.ends_wired(x, y) {
            return Err(Reason::AlreadyLinked);
        }
        if self.is_full() {
            return Err(Reason::NoRoom);
        }
        Ok(())
    }

    // Links two ends.
    #[tactic(auto, using(crate::specs::EndSteps::link_as_judged, crate::specs::EndSteps::ends_sides, crate::specs::EndSteps::ends_room))]
    pub fn link_subports(
        &mut self,
        x: SketchEnd,
        y: SketchEnd,
    ) -> Result<(SketchEnd, SketchEnd), Reason>
        ensures { Left link_numbers (link_subports (plan_of self.old) x.port x.offset y.port y.offset) self.new result }
    {
        self.judge_ends(x, y)?;
        let first = SketchEnd {
            port: x.port,
            offset: self.offset_read(x),
        };
        let second = SketchEnd {
            port: y.port,
            offset: self.offset_read(y),
        };
        self.wires.push(wire_row(first, second));
        Ok((first, second))
    }
}
