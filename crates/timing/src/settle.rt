// Blocks settled one after the other (Kahn's algorithm): a block is settled once every wire into it comes from a settled block. Each wire is
// looked at once for each of two tables, and once when its block is done.
ghost use Rattle.std.specs.Prelude.{◌≡◌, ◌*◌, ◌<◌, ◌≤◌, length, drop};
ghost use Rattle.port_tables.specs.Limits.{node_slots, port_slots};
ghost use Rattle.port_tables.specs.Lists.{range};
ghost use Rattle.timing.specs.Settling.{feeds_listed, zeros, waits_of, firsts_of, unsettled, with_order, pushed, push_ready, raised, wire_done, run_done, block_done, Bounded, settled, sum_at};

use crate::answers::LongestError;
use crate::tables::{source_of, target_of, time_at};
use files::ranks::at;
use port_tables::index::NODE_SLOTS;
use port_tables::numbers::wide;
use port_tables::tables::store;
use std::marker::Model;

// What is known of each node slot while blocks are settled, and the settled blocks.
// Stay arrays side by side, and the queue with its count: `Tables` has a list of each, and there is no heap.
#[derive(Drop)]
pub(crate) struct Settling {
    // How many wires into a block come from blocks that are not done.
    waits: [u32; NODE_SLOTS],
    // The largest sum that comes to a block from those that are.
    best: [u32; NODE_SLOTS],
    // The block that it comes from, one higher; 0 for none. Stays a number: an Option takes twice the room, and a match where it is written and where it is read.
    pub(crate) origin: [u32; NODE_SLOTS],
    // The settled blocks, so many of them.
    queue: [u32; NODE_SLOTS],
    tail: usize,
}

impl Model for Settling {
    ghost use Rattle.std.specs.Prelude.{◌≤◌};
    ghost use Rattle.port_tables.specs.Limits.{node_slots};
    ghost use Rattle.timing.specs.Settling.{Tables, tables_of};

    ghost Value = { Tables };

    ghost view = { λ s. tables_of s.waits s.best s.origin s.queue s.tail };

    ghost invariant = { λ s. s.tail ≤ node_slots };
}

// Counts the wires into each block.
fn count_wires(ends: &[u32], waits: &mut [u32])
    requires { (length ends.now ≤ 8 * port_slots) × (waits.old ≡ zeros) }
    ensures { waits.new ≡ waits_of (feeds_listed ends.now) zeros }
{
    for wire in ends.chunks_exact(8) {
        let target = wide(target_of(wire));
        let before = at(waits, target);
        store(waits, target, before + 1);
    }
}

// Finds the first wire out of each block: the last one first, so that the first one stays.
fn find_firsts(ends: &[u32], firsts: &mut [u32])
    requires { length ends.now ≤ 8 * port_slots }
    ensures { firsts.new ≡ firsts_of (feeds_listed ends.now) 0 firsts.old }
{
    for (i, wire) in ends.chunks_exact(8).enumerate().rev() {
        store(firsts, wide(source_of(wire)), i as u32);
    }
}

// Facts of the block, the sums so far and the listing stay clauses: they are not of every `Settling`. A block and its sum stay two numbers through three private functions: a
// struct of them, with the fact of the block, would be made once and taken apart in each. So does the listing, a slice whose length matters to two.
impl Settling {
    // No block is settled.
    #[tactic(auto, unfolding(crate::specs::Settling::unsettled, crate::specs::Settling::zeros))]
    pub(crate) fn new() -> Settling
        ensures { result ≡ unsettled }
    {
        Settling {
            waits: [0; NODE_SLOTS],
            best: [0; NODE_SLOTS],
            origin: [0; NODE_SLOTS],
            queue: [0; NODE_SLOTS],
            tail: 0,
        }
    }

    // A block is settled, if there is room.
    #[tactic(auto, unfolding(crate::specs::Settling::pushed), using(crate::specs::SettleSteps::push_room, crate::specs::SettleSteps::push_full))]
    fn push(&mut self, block: u32)
        ensures { self.new ≡ with_order self.old (pushed self.old.order block) }
    {
        if self.tail < NODE_SLOTS {
            self.queue[self.tail] = block;
            self.tail += 1;
        }
    }

    // The slots into which no wire goes are settled at once. Stays a range: the queue grows while the table is read, and both are of the one value.
    #[tactic(auto, using(crate::specs::SettleSteps::ready_push, crate::specs::SettleSteps::ready_stays, crate::specs::SettleSteps::ready_end))]
    fn push_ready(&mut self)
        ensures { self.new ≡ with_order self.old (push_ready self.old.waits (range 0 node_slots) self.old.order) }
    {
        for n in 0..NODE_SLOTS {
            if at(&self.waits, n) == 0 {
                self.push(n as u32);
            }
        }
    }

    // The far end of a wire holds the larger sum, and the block that it comes from.
    #[tactic(auto, unfolding(crate::specs::Settling::raised))]
    fn raise(&mut self, target: usize, block: u32, sum: u32)
        requires { block < node_slots }
        ensures { self.new ≡ raised block sum target self.old }
    {
        if at(&self.best, target) <= sum {
            store(&mut self.best, target, sum);
            store(&mut self.origin, target, block + 1);
        }
    }

    // A wire is done, from a block to which the sum comes: its far end waits for one less, and holds the larger sum.
    fn wire_done(&mut self, block: u32, sum: u32, target: u32)
        requires { block < node_slots }
        ensures { self.new ≡ wire_done block sum target self.old }
    {
        let c = wide(target);
        self.raise(c, block, sum);
        let left = at(&self.waits, c).saturating_sub(1);
        store(&mut self.waits, c, left);
        if left == 0 {
            self.push(target);
        }
    }

    // The wires of a block that stand in a row from a place on are done.
    #[tactic(auto, using(crate::specs::Passing::passing_from, crate::specs::SettleSteps::run_end))]
    fn run_done<'a>(&mut self, ends: &'a [u32], from: u32, block: u32, sum: u32)
        requires { block < node_slots }
        ensures { self.new ≡ run_done block sum (drop from (feeds_listed ends.now)) self.old }
    {
        let Some(rest) = ends.get(8 * wide(from)..) else {
            return;
        };
        for wire in rest.chunks_exact(8) {
            if source_of(wire) != block {
                return;
            }
            self.wire_done(block, sum, target_of(wire));
        }
    }

    // A settled block is done.
    #[tactic(auto, unfolding(crate::specs::Settling::block_done, crate::specs::Settling::feeds_listed), using(crate::specs::SettleSteps::block_in_lem, crate::specs::SettleSteps::block_out))]
    fn block_done<'a>(&mut self, ends: &'a [u32], firsts: &'a [u32], times: &'a [u16], block: u32)
        requires { Bounded self.old.best node_slots }
        ensures { self.new ≡ block_done (feeds_listed ends.now) firsts.now times.now block self.old }
    {
        let b = wide(block);
        if b < NODE_SLOTS {
            let sum = at(&self.best, b) + time_at(times, b);
            let from = at(firsts, b);
            self.run_done(ends, from, block, sum);
        }
    }

    // Settled blocks are done one after the other, and settle others behind them.
    #[tactic(auto, unfolding(crate::specs::Settling::unsettled, crate::specs::Settling::zeros))]
    pub(crate) fn settle<'a>(&mut self, ends: &'a [u32], times: &'a [u16])
        requires { (length ends.now ≤ 8 * port_slots) × (self.old ≡ unsettled) }
        ensures tables { self.new ≡ settled (feeds_listed ends.now) times.now }
        ensures small { Bounded self.new.best node_slots }
    {
        let mut firsts = [0u32; NODE_SLOTS];
        count_wires(ends, &mut self.waits);
        find_firsts(ends, &mut firsts);
        self.push_ready();
        let mut head: usize = 0;
        // Stays a while: the blocks that are settled grow in number while they are done.
        while head < self.tail {
            let block = at(&self.queue, head);
            self.block_done(ends, &firsts, times, block);
            head += 1;
        }
    }

    // The largest sum of times that ends at a block, its own included.
    #[tactic(auto, unfolding(crate::specs::Settling::sum_at))]
    pub(crate) fn sum_at(&self, times: &[u16], block: usize) -> Result<u32, LongestError>
        requires { Bounded self.now.best node_slots }
        ensures { result ≡ sum_at self.now times.now block }
    {
        if at(&self.waits, block) != 0 {
            return Err(LongestError::Cycle);
        }
        Ok(at(&self.best, block) + time_at(times, block))
    }
}
