// The letter R: rows from elsewhere, and what a path and a name find in them.
use crate::lookups::Looked;
use crate::{NODES, PROPERTIES, lookups};
use answers::Answer;
use lines::{BYTES, NAME};
use lookup::{Nodes, Rows};
use std::io::{Result, Write};

// BLOB NODES COUNT PROPS COUNT START PATH NAME, and 16 for a bad line.
pub fn answer(s: &[u8], out: &mut impl Write) -> Result<()> {
    match look(s) {
        Some(looked) => lookups::put(out, looked),
        None => replies::put(out, Answer::alone(lines::BAD)),
    }
}

// COUNT PROPS COUNT START, which other fields follow.
fn numbers_in(s: &[u8]) -> Option<(usize, usize, usize)> {
    let second = lines::after_two(s);
    let nodes = lines::decimal(lines::first(s))?;
    let props = lines::decimal(lines::first(second))?;
    let row = lines::decimal(lines::first(lines::rest(second)))?;
    Some((nodes, props, row))
}

fn look(s: &[u8]) -> Option<Looked> {
    let mut blob = [0u8; BYTES];
    let mut nodes = [0u32; NODES];
    let mut props = [0u32; PROPERTIES];
    let rest = lines::rest(s);
    let b = lines::bytes(lines::first(s), &mut blob)?;
    let n = lines::words(lines::first(rest), &mut nodes)?;
    let p = lines::words(lines::first(lines::after_two(rest)), &mut props)?;
    let (count, many, row) = numbers_in(lines::rest(rest))?;
    let rows = Rows {
        nodes: Nodes {
            blob: text::upto(&blob, b),
            table: text::upto(&nodes, n),
            count,
        },
        props: text::upto(&props, p),
        many,
    };
    named(
        &rows,
        row,
        lines::after_two(lines::after_two(lines::rest(rest))),
    )
}

// PATH NAME, of rows and one of them.
fn named(rows: &Rows<'_, '_>, row: usize, s: &[u8]) -> Option<Looked> {
    let mut path = [0u8; NAME];
    let mut name = [0u8; NAME];
    let (m, n) = lookups::read(s, &mut path, &mut name)?;
    Some(lookups::all(rows, row, text::upto(&path, m), text::upto(&name, n)))
}
