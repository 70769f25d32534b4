// A table is a list of rows of six numbers each. A new row stands behind the others.

// The rows of a table.
pub const ROWS: usize = 3072;

// A block has its name and its counts, a split port its block, side, position and number of subports, and a wire the block, position
// and offset of its output, then those of its input. Other numbers are 0.
// Stays one row for blocks, split ports and wires, with a side as number: a table of any row would be an array of a type parameter, which a
// generic struct may not have.
#[derive(Clone, Copy)]
pub struct Row(pub u32, pub u32, pub u32, pub u32, pub u32, pub u32);
