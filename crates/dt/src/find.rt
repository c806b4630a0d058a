// `dt find`: the node that a path names.
use crate::args::{PATH, Word};
use crate::failure::Failure;
use crate::loaded::Count;
use answers::Refuses;
use lookup::{LookupError, Nodes, Rows};
use show::fields::Tree;
use std::fmt::{self, Formatter};
use std::io::Write;

// Why there is no node. No loaded tree has rows that cannot be used.
pub fn wrong<W: fmt::Write>(f: &mut Formatter<W>, path: Word<'_>, why: LookupError) -> fmt::Result {
    let code = why.answer().code();
    match why {
        LookupError::NotFound => write!(f, "no node {path} ({code})"),
        LookupError::Unusable => write!(f, "its rows cannot be used ({code})"),
    }
}

// A tree's rows, as the lookups take them. No `From`, for both types are other crates'.
pub fn rows_of<'a>(tree: &Tree<'a>) -> Rows<'a, 'a> {
    Rows {
        nodes: Nodes {
            blob: tree.b,
            table: tree.nodes,
            count: tree.counts.nodes,
        },
        props: tree.props,
        many: tree.counts.props,
    }
}

// The row of the node that the path names.
pub fn row(rt: &HostRuntime, tree: &Tree) -> Result<usize, Failure> {
    let mut room = io::buffer();
    let path = Word::at(rt, PATH).bytes(&mut room);
    Ok(rows_of(tree).nodes.find(path)?)
}

pub fn put(rt: &HostRuntime, out: &mut impl Write, tree: &Tree) -> Result<(), Failure> {
    let row = row(rt, tree)?;
    let path = Word::at(rt, PATH);
    let props = Count::of(tree.node(row).props as usize, "property", "properties");
    let children = Count::of(tree.children(row), "child", "children");
    writeln!(out, "{path}: row {row}, {props}, {children}")?;
    Ok(())
}
