// `dt prop`: a property's value, as it is shown in the tree or by one of the lookups.
use crate::args::{NAME, Reading, Word};
use crate::failure::Failure;
use crate::find;
use answers::Refuses;
use lookup::Rows;
use reader::BigEndian;
use show::escape::Line;
use show::fields::{Tree, cut};
use show::value::{Alone, Pairs};
use std::fmt::{self, Display, Formatter};
use std::io::Write;
use values::{PropError, PropResult};

// Why a property is not read, in words. Only a number can be too short, and it is told of how many bytes.
#[derive(Clone, Copy)]
pub struct NoValue {
    why: PropError,
    reading: Reading,
}

// How many bytes a value must have to be read so: a number's own, and any will do for the others.
fn width(reading: Reading) -> u64 {
    match reading {
        Reading::U32 => 4,
        Reading::U64 => 8,
        Reading::Shown | Reading::Raw | Reading::Str => 0,
    }
}

impl Display for NoValue {
    fn fmt<W: fmt::Write>(&self, f: &mut Formatter<W>) -> fmt::Result {
        let code = self.why.answer().code();
        let width = width(self.reading);
        match self.why {
            PropError::NotFound => write!(f, "is not there ({code})"),
            PropError::Utf8Error => write!(f, "is no string: it is not UTF-8 ({code})"),
            PropError::Missing0 => {
                write!(f, "is no string: it does not end in a zero byte ({code})")
            }
            PropError::Short => write!(f, "is shorter than {width} bytes ({code})"),
            PropError::Unusable => write!(f, "has rows that cannot be used ({code})"),
        }
    }
}

// The bytes of a value, and those of its text.
fn raw<'b>(rows: &Rows<'b, '_>, row: usize, name: &[u8]) -> PropResult<&'b [u8]> {
    let value = rows.prop_raw(row, name)?;
    Ok(cut(rows.nodes.blob, value.start, value.len))
}

fn string<'b>(rows: &Rows<'b, '_>, row: usize, name: &[u8]) -> PropResult<&'b [u8]> {
    let text = values::prop_str(rows, row, name)?;
    Ok(cut(rows.nodes.blob, text.start, text.len))
}

// A number, in decimal and in hexadecimal.
#[derive(Clone, Copy)]
struct Number(u64);

impl Display for Number {
    fn fmt<W: fmt::Write>(&self, f: &mut Formatter<W>) -> fmt::Result {
        let n = self.0;
        write!(f, "{n} (0x{n:x})")
    }
}

// The value's first bytes as a number, as many as the number's type has.
fn number_of<T: BigEndian + Into<u64>>(
    rows: &Rows<'_, '_>,
    row: usize,
    name: &[u8],
) -> PropResult<Number> {
    let n: T = values::prop_number(rows, row, name)?;
    Ok(Number(n.into()))
}

// The line of a property that is read.
fn line(
    out: &mut impl Write,
    told: Result<impl Display + Drop, PropError>,
    reading: Reading,
) -> Result<(), Failure> {
    match told {
        Ok(told) => {
            writeln!(out, "{told}")?;
            Ok(())
        }
        Err(why) => Err(Failure::NoValue(NoValue { why, reading })),
    }
}

pub fn put(
    rt: &HostRuntime,
    out: &mut impl Write,
    tree: &Tree,
    reading: Reading,
) -> Result<(), Failure> {
    let row = find::row(rt, tree)?;
    let mut room = io::buffer();
    let name = Word::at(rt, NAME).bytes(&mut room);
    let rows = find::rows_of(tree);
    match reading {
        Reading::Shown => line(out, raw(&rows, row, name).map(Alone), reading),
        Reading::Raw => line(out, raw(&rows, row, name).map(Pairs), reading),
        Reading::Str => line(out, string(&rows, row, name).map(Line), reading),
        Reading::U32 => line(out, number_of::<u32>(&rows, row, name), reading),
        Reading::U64 => line(out, number_of::<u64>(&rows, row, name), reading),
    }
}
