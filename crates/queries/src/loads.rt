// The letter T: a blob is loaded into tables of sevens. The answer has parts: load's answer, the used rows, and what a path and
// a name find in them.
use crate::{NODES, PROPERTIES, RESERVATIONS, lookups, tables};
use answers::Answer;
use lines::{BYTES, NAME};
use lookup::{Nodes, Rows};
use std::io::{Result, Write};

// BLOB PATH NAME
pub fn answer(s: &[u8], out: &mut impl Write) -> Result<()> {
    let mut blob = [0u8; BYTES];
    let mut path = [0u8; NAME];
    let mut name = [0u8; NAME];
    let Some(len) = lines::bytes(lines::first(s), &mut blob) else {
        return replies::put(out, Answer::alone(lines::BAD));
    };
    let Some((m, n)) = lookups::read(lines::rest(s), &mut path, &mut name) else {
        return replies::put(out, Answer::alone(lines::BAD));
    };
    let b = text::upto(&blob, len);
    tell(b, text::upto(&path, m), text::upto(&name, n), out)
}

// A load into tables whose every number is 7, and where it is answered 0 what follows it.
fn tell(b: &[u8], path: &[u8], name: &[u8], out: &mut impl Write) -> Result<()> {
    let mut reserved = [7u64; RESERVATIONS];
    let mut nodes = [7u32; NODES];
    let mut props = [7u32; PROPERTIES];
    let loaded = loader::load(b, &mut reserved, &mut nodes, &mut props);
    replies::put(out, Answer::from(loaded))?;
    let Ok(tree) = loaded else {
        return Ok(());
    };
    tables::put_rows(out, tree, &reserved, &nodes, &props)?;
    let rows = Rows {
        nodes: Nodes {
            blob: b,
            table: &nodes,
            count: tree.nodes,
        },
        props: &props,
        many: tree.props,
    };
    put_found(out, &rows, path, name)
}

// A tree path as a part that follows others; and, where it finds a row, the name at that row.
fn put_found(out: &mut impl Write, rows: &Rows<'_, '_>, path: &[u8], name: &[u8]) -> Result<()> {
    let found = rows.nodes.find(path);
    replies::further(out, Answer::from(found))?;
    match found {
        Ok(row) => lookups::put_property(out, lookups::property(rows, row, name)),
        Err(_) => Ok(()),
    }
}
