// The marks of ports and the hidden flags of nodes: leaves that lend one table each.
ghost use Rattle.std.specs.Prelude.{◌≡◌, true, false, cond, ◌+◌, ◌≤◌};
ghost use Rattle.port_tables.specs.Limits.{node_slots, port_slots};
ghost use Rattle.port_tables.specs.Tables.{fill};
ghost use Rattle.port_tables.specs.ResizeLinks.{BlockFits};
ghost use Rattle.multi_tables.specs.Forms.{flag_at, put_flag, lay_kept, unmark_new, unmark_old, lay_range, lay_marks};

use port_tables::index::{NODE_SLOTS, PORT_SLOTS};
use port_tables::node_entry::NodeMeta;
use port_tables::numbers::wide;

// What a table of flags holds at a place; false outside. Stays beside `at` of port_tables, and `put_flag` beside `put`: each says its own table's definition, so
// that one function over the type would stand below both as a third; no plainer.
#[tactic(auto, unfolding(crate::specs::Forms::flag_at))]
pub fn flagged<const N: usize>(flags: &[bool; N], place: usize) -> bool
    ensures { result ≡ flag_at flags.now N place }
{
    flags.get(place).copied().unwrap_or(false)
}

// Sets the flag at a place; outside the table nothing changes.
// Tests and indexes, as `put` does.
#[tactic(auto, unfolding(crate::specs::Forms::put_flag))]
pub fn put_flag<const N: usize>(flags: &mut [bool; N], place: usize, flag: bool)
    ensures { flags.new ≡ put_flag flags.old N place flag }
{
    if place < N {
        flags[place] = flag;
    }
}

// Sets the marks of two ports, the first one first. Stays one function: its calls set both ends of a mark, or move an end, and two calls
// each would be no plainer.
pub fn put_marks(
    marks: &mut [bool; PORT_SLOTS],
    first: u32,
    first_mark: bool,
    second: u32,
    second_mark: bool,
)
    ensures { marks.new ≡ put_flag (put_flag marks.old port_slots first first_mark) port_slots second second_mark }
{
    put_flag(marks, wide(first), first_mark);
    put_flag(marks, wide(second), second_mark);
}

// Whether one of two nodes has its hidden flag.
pub fn either_flagged(flags: &[bool; NODE_SLOTS], first: u32, second: u32) -> bool
    ensures { result ≡ cond (flag_at flags.now node_slots first) true (flag_at flags.now node_slots second) }
{
    flagged(flags, wide(first)) || flagged(flags, wide(second))
}

// Unmarks `count` ports from `first` on.
#[tactic(auto, using(crate::specs::FormSteps::part_filled))]
fn unmark(marks: &mut [bool; PORT_SLOTS], first: usize, count: usize)
    requires { first + count ≤ port_slots }
    ensures { marks.new ≡ fill marks.old first count false }
{
    marks[first..first + count].fill(false);
}

// Lays `count` marks, from `old` on, from `new` on, as they were before.
#[tactic(auto, using(crate::specs::MarkMoves::copied_within, crate::specs::MarkMoves::lay_same))]
fn move_marks(marks: &mut [bool; PORT_SLOTS], old: usize, new: usize, count: usize)
    requires { (old + count ≤ port_slots) × (new + count ≤ port_slots) }
    ensures { marks.new ≡ lay_range marks.old marks.old old new count }
{
    // Marks that stay where they are need no copy.
    if old != new {
        marks.copy_within(old..old + count, new);
    }
}

// A node's meta data before a resize and after it; both blocks have room for their ports.
#[derive(Clone, Copy)]
pub struct Recount {
    pub before: NodeMeta,
    pub after: NodeMeta,
    ghost before_fits: { BlockFits before },
    ghost after_fits: { BlockFits after },
}

impl Recount {
    // The marks of kept ports go to their new numbers; that side goes first which does not go where the other has yet to leave.
    #[tactic(auto, using(crate::specs::MarkMoves::in_first, crate::specs::MarkMoves::out_first))]
    fn move_kept(self, marks: &mut [bool; PORT_SLOTS])
        ensures { marks.new ≡ lay_kept marks.old marks.old self.before self.after }
    {
        let old = self.before.first();
        let new = self.after.first();
        let old_in = self.before.incoming();
        let new_in = self.after.incoming();
        let incoming = old_in.min(new_in);
        let outgoing = self.before.outgoing().min(self.after.outgoing());
        if new <= old {
            move_marks(marks, old, new, incoming);
            move_marks(marks, old + old_in, new + new_in, outgoing);
        } else {
            move_marks(marks, old + old_in, new + new_in, outgoing);
            move_marks(marks, old, new, incoming);
        }
    }

    // Unmarks the ports of each side that were not there before. How many are kept is worked out here and in `move_kept`, each of which needs other counts beside
    // them: a method for both would be two more names; no plainer.
    #[tactic(auto, using(crate::specs::MarkMoves::new_unmarked))]
    fn unmark_new(self, marks: &mut [bool; PORT_SLOTS])
        ensures { marks.new ≡ unmark_new marks.old self.before self.after }
    {
        let first = self.after.first();
        let new_in = self.after.incoming();
        let new_out = self.after.outgoing();
        let kept_in = self.before.incoming().min(new_in);
        let kept_out = self.before.outgoing().min(new_out);
        unmark(marks, first + kept_in, new_in - kept_in);
        unmark(marks, first + new_in + kept_out, new_out - kept_out);
    }

    // Unmarks the old ports that come before the first new one, or after the last.
    #[tactic(auto, using(crate::specs::MarkMoves::old_unmarked))]
    fn unmark_old(self, marks: &mut [bool; PORT_SLOTS])
        ensures { marks.new ≡ unmark_old marks.old self.before self.after }
    {
        let old = self.before.first();
        let new = self.after.first();
        let count = self.before.port_count();
        let end = new + self.after.port_count();
        let within = end.saturating_sub(old);
        unmark(marks, old, count.min(new.saturating_sub(old)));
        unmark(marks, old + within, count.saturating_sub(within));
    }

    // Each kept port has its mark at its new number; the node's other ports, old and new, are unmarked.
    #[tactic(auto, using(crate::specs::MarkMoves::laid_in_place))]
    pub fn lay_marks(self, marks: &mut [bool; PORT_SLOTS])
        ensures { marks.new ≡ lay_marks marks.old self.before self.after }
    {
        self.move_kept(marks);
        self.unmark_new(marks);
        self.unmark_old(marks);
    }
}
