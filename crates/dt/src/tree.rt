// `dt tree`: the whole tree as .dts text. Rows stand in the order of opening tokens, so one pass over them tells where nodes
// close: before a row, those that are at least as deep.
ghost use Rattle.std.specs.Prelude.{◌≤◌, ◌<◌};

use crate::loaded::Loaded;
use show::escape::Name;
use show::fields::{Reservation, Tree};
use std::fmt::{self, Display, Formatter};
use std::io::{Result, Write};

// What stands before a line in so many nodes.
#[derive(Clone, Copy)]
struct Indent(usize);

impl Display for Indent {
    fn fmt<W: fmt::Write>(&self, f: &mut Formatter<W>) -> fmt::Result {
        for _ in 0..self.0 {
            f.write_str("    ")?;
        }
        Ok(())
    }
}

// The last reservation, of size 0, is the list's end: nothing is told of it unless it has an offset.
fn reservation(out: &mut impl Write, row: Reservation) -> Result<()> {
    let offset = row.offset;
    let size = row.size;
    match (offset, size) {
        (0, 0) => Ok(()),
        (_, 0) => writeln!(
            out,
            "// the end of the reservations has the offset 0x{offset:x}"
        ),
        _ => writeln!(out, "/memreserve/ 0x{offset:x} 0x{size:x};"),
    }
}

// The root's opening line. A root has no name in .dts text, so a name is told in a comment.
fn open_root(out: &mut impl Write, name: &[u8]) -> Result<()> {
    if name.is_empty() {
        return writeln!(out, "/ {{");
    }
    let name = Name(name);
    writeln!(out, "/ {{ // the root is named {name}")
}

// A node's opening line.
fn open(out: &mut impl Write, name: &[u8], depth: usize) -> Result<()> {
    if depth == 0 {
        return open_root(out, name);
    }
    let indent = Indent(depth);
    let name = Name(name);
    writeln!(out, "{indent}{name} {{")
}

// Closes nodes, so many of which are open, until no more than that are.
fn close(out: &mut impl Write, many: usize, until: usize) -> Result<()> {
    for depth in (until..many).rev() {
        let indent = Indent(depth);
        writeln!(out, "{indent}}};")?;
    }
    Ok(())
}

// A node's opening line and its properties.
fn node(out: &mut impl Write, tree: &Tree, row: usize, depth: usize) -> Result<()>
    requires { depth < 4294967296 }
{
    let node = tree.node(row);
    let first = node.first as usize;
    let indent = Indent(depth + 1);
    open(out, node.name, depth)?;
    for row in first..first + node.props as usize {
        let property = tree.property(row);
        writeln!(out, "{indent}{property}")?;
    }
    Ok(())
}

fn nodes(out: &mut impl Write, tree: &Tree) -> Result<()> {
    let mut open = 0;
    for row in 0..tree.counts.nodes {
        let depth = tree.depth(row);
        close(out, open, depth)?;
        node(out, tree, row, depth)?;
        open = depth + 1;
    }
    close(out, open, 0)
}

pub fn put(out: &mut impl Write, tree: &Tree) -> Result<()> {
    let loaded = Loaded(tree.counts);
    writeln!(out, "/dts-v1/;")?;
    writeln!(out, "// {loaded}")?;
    for row in 0..tree.counts.reserved {
        reservation(out, tree.reservation(row))?;
    }
    nodes(out, tree)
}
