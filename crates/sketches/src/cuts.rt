// Cutting, what an end is linked with, and tidying.
ghost use Rattle.std.specs.Prelude.{◌≡◌, ◌≤◌};
ghost use Rattle.sketches.specs.Plan.{far_from};
ghost use Rattle.sketches.specs.PlanCalls.{cut_port, subport_link, cut_subport, tidied, tidy_port};
ghost use Rattle.sketches.specs.PlanNumbers.{done_numbers, cut_numbers, found_numbers};
ghost use Rattle.sketches.specs.PlanWf.{most_subports};
ghost use Rattle.sketches.specs.Rows.{end_hits};
ghost use Rattle.sketches.specs.Held.{plan_of, Left};
ghost use Rattle.sketches.specs.CallParts.{far_of, Answers};

use crate::sketch::{Reason, SketchEnd, SketchPort};
use crate::tests::{EndTest, RowEnd, Test, end_hits, in_end, out_end};
use crate::totals::Sketch;

// The subports that tidying leaves, by one more than the highest wired offset.
fn subports_left(above: usize) -> u32
    requires { above ≤ most_subports }
    ensures { result ≡ tidied above }
{
    if above <= 1 {
        return 0;
    }
    above as u32
}

impl Sketch {
    // The far end of the newest wire that has such an end.
    #[tactic(auto, using(crate::specs::CutSteps::far_read))]
    fn far_from(&self, test: EndTest) -> Option<RowEnd>
        ensures { far_of result ≡ far_from (end_hits test) (plan_of self.now).wires }
    {
        let row = self.wires.newest(Test::Wire(test))?;
        if end_hits(test, out_end(row)) {
            return Some(in_end(row));
        }
        Some(out_end(row))
    }

    // Cuts each wire at a port, which is no longer split; it answers itself if it was, else the far port.
    #[tactic(auto, unfolding(crate::specs::Plan::is_there), using(crate::specs::CutSteps::cut_unknown, crate::specs::CutSteps::cut_room, crate::specs::Held::seen_as, crate::specs::Held::back))]
    pub fn cut(&mut self, port: SketchPort) -> Result<Option<SketchPort>, Reason>
        ensures { Left cut_numbers (cut_port (plan_of self.old) port) self.new result }
    {
        self.find_port(port)?;
        let subports = self.subports_of(port);
        let far = self.far_from(EndTest::AtPort(port));
        self.wires.drop_where(Test::Wire(EndTest::AtPort(port)));
        self.splits.set_subports(port, 0);
        if subports == 0 {
            return Ok(far.map(|end| end.port));
        }
        Ok(Some(port))
    }

    // What an end is linked with.
    #[tactic(auto, unfolding(port_tables::specs::Places::at_end), using(crate::specs::CutSteps::found_as_judged))]
    pub fn subport_link(&self, end: SketchEnd) -> Result<Option<SketchEnd>, Reason>
        ensures { Answers found_numbers (subport_link (plan_of self.now) end.port end.offset) result }
    {
        self.judge_end(end)?;
        let far = self.far_from(self.end_test(end));
        Ok(far.map(|end| end.named()))
    }

    // Cuts the wire at an end, if there is one.
    #[tactic(auto, unfolding(crate::specs::PlanCalls::cut_subport, crate::specs::PlanCalls::subport_link), using(crate::specs::CutSteps::end_cut_refused, crate::specs::Held::seen_as, crate::specs::Held::back))]
    pub fn cut_subport(&mut self, end: SketchEnd) -> Result<Option<SketchEnd>, Reason>
        ensures { Left found_numbers (cut_subport (plan_of self.old) end.port end.offset) self.new result }
    {
        let far = self.subport_link(end)?;
        let test = Test::Wire(self.end_test(end));
        self.wires.drop_where(test);
        Ok(far)
    }

    // Drops the empty subports above the highest wired one; an unsplit port is unchanged.
    #[tactic(auto, using(crate::specs::CutSteps::tidy_unknown, crate::specs::CutSteps::tidy_unsplit, crate::specs::CutSteps::above_fits, crate::specs::CutSteps::tidy_room, crate::specs::Held::seen_as, crate::specs::Held::back))]
    pub fn tidy(&mut self, port: SketchPort) -> Result<(), Reason>
        ensures { Left done_numbers (tidy_port (plan_of self.old) port) self.new result }
    {
        self.find_port(port)?;
        if self.subports_of(port) == 0 {
            return Ok(());
        }
        // Named before the call, which borrows the whole sketch; so is the test in `cut_subport`.
        let left = subports_left(self.above_wired(port));
        self.splits.set_subports(port, left);
        Ok(())
    }
}
