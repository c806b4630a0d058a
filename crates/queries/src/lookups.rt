// What a path and a name find in rows, as answers by value, and these as text.
use answers::Answer;
use lookup::Rows;
use std::io::{Result, Write};

// A name at a row: has_prop, prop_raw, prop_str, and prop_number of 4 and of 8 bytes.
pub type Property = [Answer; 5];

// A tree path, the same path from a row, and a name at that row.
#[derive(Clone, Copy)]
pub struct Looked {
    tree: Answer,
    from: Answer,
    property: Property,
}

// What a name finds at a row.
pub fn property(rows: &Rows<'_, '_>, row: usize, name: &[u8]) -> Property {
    [
        Answer::from(rows.has_prop(row, name)),
        Answer::from(rows.prop_raw(row, name)),
        Answer::from(values::prop_str(rows, row, name)),
        Answer::from(values::prop_number::<u32>(rows, row, name)),
        Answer::from(values::prop_number::<u64>(rows, row, name)),
    ]
}

// All that a path and a name find.
pub fn all(rows: &Rows<'_, '_>, row: usize, path: &[u8], name: &[u8]) -> Looked {
    Looked {
        tree: Answer::from(rows.nodes.find(path)),
        from: Answer::from(rows.nodes.find_from(row, path)),
        property: property(rows, row, name),
    }
}

// PATH NAME, the last fields of a line: how many bytes each has.
pub fn read(s: &[u8], path: &mut [u8], name: &mut [u8]) -> Option<(usize, usize)> {
    let m = lines::bytes(lines::first(s), path)?;
    let n = lines::bytes(lines::rest(s), name)?;
    Some((m, n))
}

// The five answers, as parts that follow others.
pub fn put_property(out: &mut impl Write, found: Property) -> Result<()> {
    for answer in found {
        replies::further(out, answer)?;
    }
    Ok(())
}

// All of it.
pub fn put(out: &mut impl Write, looked: Looked) -> Result<()> {
    replies::put(out, looked.tree)?;
    replies::further(out, looked.from)?;
    put_property(out, looked.property)
}
