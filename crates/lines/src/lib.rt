// The lines of the line programs: gathered from what single reads gave, the fields of a line, and what a field spells.
// Any bytes get an answer.
#![tactic(auto)]

mod fields;
mod reading;
mod spelled;

pub use fields::{after_two, first, letter, rest};
pub use reading::{Program, answer_all};
pub use spelled::{bytes, decimal, hex, words};

// The most bytes that a byte string may have, a frame and a blob among them; and a path or a name.
pub const BYTES: usize = 8192;

pub const NAME: usize = 1024;

// The rows that the tables have room for.
pub const RESERVATION_ROWS: usize = 64;

pub const NODE_ROWS: usize = 512;

pub const PROPERTY_ROWS: usize = 512;

// The room for a line. The longest good one, of the letter R of `queries`, has 65,605 bytes: 65,536 digits of hexadecimal fields,
// 60 of numbers, the letter and 8 spaces. So a line that fills the room is bad however it goes on.
pub const LINE: usize = 66000;

// What a bad line is answered: a number, as each answer on a line is, and the next after document 01's 15.
pub const BAD: u64 = 16;

// The room for what one read gives.
pub const READ: usize = 65536;
