// The numbers of tables, as text.
use format::{NODE_WIDTH, PROPERTY_WIDTH, RESERVATION_WIDTH};
use lines::{NODE_ROWS, PROPERTY_ROWS, RESERVATION_ROWS};
use std::fmt::Display;
use std::io::{Result, Write};
use survey::DeviceTree;

// All numbers of a table, each after a space: `-` where there are none.
fn put_numbers<T: Display>(out: &mut impl Write, table: &[T]) -> Result<()> {
    replies::part(out)?;
    if table.is_empty() {
        return out.write_all(b" -");
    }
    for n in table {
        write!(out, " {n}")?;
    }
    Ok(())
}

// The used rows of each table. They are lent one by one, as a load writes them (C interface).
pub fn put_rows(
    out: &mut impl Write,
    tree: DeviceTree,
    reserved: &[u64],
    nodes: &[u32],
    props: &[u32],
) -> Result<()> {
    let reservation_numbers = tree.reserved.min(RESERVATION_ROWS) * RESERVATION_WIDTH;
    let node_numbers = tree.nodes.min(NODE_ROWS) * NODE_WIDTH;
    let property_numbers = tree.props.min(PROPERTY_ROWS) * PROPERTY_WIDTH;
    put_numbers(out, text::upto(reserved, reservation_numbers))?;
    put_numbers(out, text::upto(nodes, node_numbers))?;
    put_numbers(out, text::upto(props, property_numbers))
}
