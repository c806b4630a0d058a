// The rows that a load wrote, read so that any row gets an answer: past a table's end stands 0, and a part that isn't all in the
// blob is empty. After a load neither is met.
ghost use Rattle.std.specs.Prelude.{◌≤◌, ◌<◌, ◌+◌};

use crate::value::Property;
use format::{DEPTH, NODE_WIDTH, NONE, PROPERTY_WIDTH, RESERVATION_WIDTH};
use survey::DeviceTree;

// How many nodes of a loaded tree can stand above a node.
const DEEPEST: usize = DEPTH - 1;

// A row of a table, zeros past its end.
fn row<T: Copy + Default, const N: usize>(table: &[T], at: usize) -> [T; N]
    requires { 0 < N }
{
    match table.as_chunks().0.get(at) {
        Some(row) => *row,
        None => [T::default(); N],
    }
}

// The len bytes of b from start on, empty where they are not all there with one more behind them, as behind each name and value.
pub fn cut(b: &[u8], start: usize, len: usize) -> &[u8] {
    match start.checked_add(len) {
        Some(end) => reader::subslice_part(b, start, end),
        None => &b[0..0],
    }
}

// The part of the blob that a row tells the place of.
fn part(b: &[u8], start: u32, len: u32) -> &[u8] {
    cut(b, start as usize, len as usize)
}

// A reservation.
#[derive(Clone, Copy)]
pub struct Reservation {
    pub offset: u64,
    pub size: u64,
}

// A node: its name, the row of its first property, and how many it has.
#[derive(Clone, Copy)]
pub struct Node<'a> {
    pub name: &'a [u8],
    pub first: u32,
    pub props: u32,
}

// A loaded tree: the blob, the rows that were written of it, and how many.
#[derive(Clone, Copy)]
pub struct Tree<'a> {
    pub b: &'a [u8],
    pub reserved: &'a [u64],
    pub nodes: &'a [u32],
    pub props: &'a [u32],
    pub counts: DeviceTree,
}

impl<'a> Tree<'a> {
    pub fn reservation(&self, at: usize) -> Reservation {
        let [offset, size]: [u64; RESERVATION_WIDTH] = row(self.reserved, at);
        Reservation { offset, size }
    }

    pub fn node(&self, at: usize) -> Node<'a> {
        let [name, len, _, _, _, first, props]: [u32; NODE_WIDTH] = row(self.nodes, at);
        Node {
            name: part(self.b, name, len),
            first,
            props,
        }
    }

    pub fn property(&self, at: usize) -> Property<'a> {
        let [name, len, value, size]: [u32; PROPERTY_WIDTH] = row(self.props, at);
        Property {
            name: part(self.b, name, len),
            value: part(self.b, value, size),
        }
    }

    // The row of the node that a node stands in, `NONE` for the root: so the row, which is numbers alone, tells it.
    fn parent(&self, at: usize) -> u32 {
        let [_, _, parent, ..]: [u32; NODE_WIDTH] = row(self.nodes, at);
        parent
    }

    // How many nodes stand above a node.
    pub fn depth(&self, row: usize) -> usize
        ensures { result < 4294967296 }
    {
        let mut link = self.parent(row);
        for depth in 0..DEEPEST {
            if link == NONE {
                return depth;
            }
            link = self.parent(link as usize);
        }
        DEEPEST
    }

    // How many children a node has.
    pub fn children(&self, of: usize) -> usize {
        let rows = 0..self.counts.nodes;
        rows.filter(|row| self.parent(*row) as usize == of).count()
    }
}
