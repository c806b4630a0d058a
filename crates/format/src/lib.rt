#![tactic(auto)]

// What a blob means: definitions in specs/, their laws in proofs/. The only code is their numbers, named once for the crates above.

// How many numbers a row of each table has, and how a row says that there is no such row (C interface).
pub const RESERVATION_WIDTH: usize = 2;

pub const NODE_WIDTH: usize = 7;

pub const PROPERTY_WIDTH: usize = 4;

pub const NONE: u32 = 4294967295;

// How deep nodes may nest; the root is at depth 1.
pub const DEPTH: usize = 64;
