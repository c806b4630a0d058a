// The lookups of crate lookup. A path or a property is looked up in the tables of a load or in any others; the blob, the tables and
// their counts are lent, and nothing but the answer's numbers is written. A function for each, alike as they are: C calls it by its name.
#![tactic(auto, using(answers::proofs::Parts::told_part), unfolding(crate::specs::Linked::Told, format::specs::Lookup::prop_u32, format::specs::Lookup::prop_u64))]

ghost use Rattle.std.specs.Prelude.{◌≡◌};
ghost use Rattle.format.specs.Answer.{numbers, itself, nothing, place};
ghost use Rattle.format.specs.Lookup.{find_from, find, has_prop, prop_raw, prop_str, prop_u32, prop_u64};
ghost use Rattle.lookup.specs.Answers.{lent, lent_by};
ghost use Rattle.capi.specs.Linked.{Told};

use lookup::{Nodes, Rows};

// The parameters that C lends one by one (C interface), as the lookups take them.
fn nodes_of<'b, 't>(blob: &'b [u8], table: &'t [u32], count: usize) -> Nodes<'b, 't>
    ensures { (result.blob.now ≡ blob.now) × (result.table.now ≡ table.now) × (result.count ≡ count) }
{
    Nodes { blob, table, count }
}

fn rows_of<'b, 't>(
    blob: &'b [u8],
    nodes: &'t [u32],
    count: usize,
    props: &'t [u32],
    many: usize,
) -> Rows<'b, 't>
    ensures { (result.nodes.blob.now ≡ blob.now) × (lent_by result ≡ lent nodes.now count props.now many) }
{
    Rows {
        nodes: nodes_of(blob, nodes, count),
        props,
        many,
    }
}

// `Nodes::find`, a path in the tree: 0 and the row, 11, 15.
#[unsafe(no_mangle)]
pub extern "C" fn dangrisuk_find(
    blob: &[u8],
    nodes: &[u32],
    count: usize,
    path: &[u8],
    answer: &mut [u64],
)
    ensures { Told (numbers itself (find blob.now nodes.now count path.now)) answer.old answer.new }
{
    answers::tell(answer, nodes_of(blob, nodes, count).find(path));
}

// `Nodes::find_from`, a path from a row: 0 and the row, 11, 15.
#[unsafe(no_mangle)]
pub extern "C" fn dangrisuk_find_from(
    blob: &[u8],
    nodes: &[u32],
    count: usize,
    row: usize,
    path: &[u8],
    answer: &mut [u64],
)
    ensures { Told (numbers itself (find_from blob.now nodes.now count row path.now)) answer.old answer.new }
{
    answers::tell(answer, nodes_of(blob, nodes, count).find_from(row, path));
}

// `Rows::has_prop`, whether the node has that property: 0, 11, 15.
#[unsafe(no_mangle)]
pub extern "C" fn dangrisuk_has_prop(
    blob: &[u8],
    nodes: &[u32],
    count: usize,
    props: &[u32],
    many: usize,
    row: usize,
    name: &[u8],
    answer: &mut [u64],
)
    ensures { Told (numbers nothing (has_prop blob.now (lent nodes.now count props.now many) row name.now)) answer.old answer.new }
{
    let rows = rows_of(blob, nodes, count, props, many);
    answers::tell(answer, rows.has_prop(row, name));
}

// `Rows::prop_raw`, where the value lies: 0, offset and length; 11, 15.
#[unsafe(no_mangle)]
pub extern "C" fn dangrisuk_prop_raw(
    blob: &[u8],
    nodes: &[u32],
    count: usize,
    props: &[u32],
    many: usize,
    row: usize,
    name: &[u8],
    answer: &mut [u64],
)
    ensures { Told (numbers place (prop_raw blob.now (lent nodes.now count props.now many) row name.now)) answer.old answer.new }
{
    let rows = rows_of(blob, nodes, count, props, many);
    answers::tell(answer, rows.prop_raw(row, name));
}

// `values::prop_str`, where the value's text lies: 0, offset and length; 5, 11, 12, 15.
#[unsafe(no_mangle)]
pub extern "C" fn dangrisuk_prop_str(
    blob: &[u8],
    nodes: &[u32],
    count: usize,
    props: &[u32],
    many: usize,
    row: usize,
    name: &[u8],
    answer: &mut [u64],
)
    ensures { Told (numbers place (prop_str blob.now (lent nodes.now count props.now many) row name.now)) answer.old answer.new }
{
    let rows = rows_of(blob, nodes, count, props, many);
    answers::tell(answer, values::prop_str(&rows, row, name));
}

// `values::prop_number` at u32, the value's first 4 bytes: 0 and the number; 11, 13, 15.
#[unsafe(no_mangle)]
pub extern "C" fn dangrisuk_prop_u32(
    blob: &[u8],
    nodes: &[u32],
    count: usize,
    props: &[u32],
    many: usize,
    row: usize,
    name: &[u8],
    answer: &mut [u64],
)
    ensures { Told (numbers itself (prop_u32 blob.now (lent nodes.now count props.now many) row name.now)) answer.old answer.new }
{
    let rows = rows_of(blob, nodes, count, props, many);
    answers::tell(answer, values::prop_number::<u32>(&rows, row, name));
}

// `values::prop_number` at u64, the value's first 8 bytes: 0 and the number; 11, 13, 15.
#[unsafe(no_mangle)]
pub extern "C" fn dangrisuk_prop_u64(
    blob: &[u8],
    nodes: &[u32],
    count: usize,
    props: &[u32],
    many: usize,
    row: usize,
    name: &[u8],
    answer: &mut [u64],
)
    ensures { Told (numbers itself (prop_u64 blob.now (lent nodes.now count props.now many) row name.now)) answer.old answer.new }
{
    let rows = rows_of(blob, nodes, count, props, many);
    answers::tell(answer, values::prop_number::<u64>(&rows, row, name));
}
