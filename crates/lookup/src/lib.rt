// Paths and properties, looked up in the rows that a load wrote or in any others: whatever the tables hold, a call gets an answer,
// and 15 (`Unusable`) where a count, the starting row or a row that is reached cannot be used. Nothing is written.
#![tactic(auto)]

mod judge;
mod path;
mod property;

// Why nothing is found: 11, or 15.
#[derive(Clone, Copy, Debug, PartialEq, Eq)]
pub enum LookupError {
    NotFound,
    Unusable,
}

pub type LookupResult<T> = Result<T, LookupError>;

// A tree's nodes, as a table has them: its first `count` rows, which tell the blob's parts by their places. Any numbers may stand in it.
// The count stands beside the table, for C lends them so, and one that the table has no room for is answered 15.
// The blob may be lent for longer than the table, and so may the parts of it that are handed out.
#[derive(Clone, Copy)]
pub struct Nodes<'b, 't> {
    pub blob: &'b [u8],
    pub table: &'t [u32],
    pub count: usize,
}

// The same with the properties, in the first `many` rows of a table of their own, which C lends in the same way.
#[derive(Clone, Copy)]
pub struct Rows<'b, 't> {
    pub nodes: Nodes<'b, 't>,
    pub props: &'t [u32],
    pub many: usize,
}
