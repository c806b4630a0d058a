// A property's value as .dts text: strings where it is text, else cells where its length is a multiple of theirs, else bytes. Text
// of such a length could be cells as well, and they stand behind it in a comment.
ghost use Rattle.std.specs.Prelude.{◌+◌, ◌≤◌, Some};
ghost use Rattle.show.specs.Escaped.{pairs};

use crate::chunk::{self, Chunk};
use crate::escape::{self, Name, Strings};
use std::fmt::{Display, Formatter, Result, Write};

// How many bytes a cell has.
const CELL: usize = 4;

// A byte or more, all of them printable.
fn is_string(s: &[u8]) -> bool {
    !s.is_empty() && s.iter().all(|b| escape::printable(*b))
}

// Whether a value is a list of strings, with a zero behind each.
fn is_text(v: &[u8]) -> bool {
    match v.split_last() {
        Some((0, strings)) => strings.split(|b| *b == 0).all(is_string),
        _ => false,
    }
}

// The bytes as pairs of hexadecimal digits.
#[derive(Clone, Copy)]
pub struct Pairs<'a>(pub &'a [u8]);

impl Display for Pairs<'_> {
    ghost output = { λ v. Some (pairs v.0.now) };

    fn fmt<W: Write>(&self, f: &mut Formatter<W>) -> Result {
        let Some((first, rest)) = self.0.split_first() else {
            return Ok(());
        };
        let mut chunk = Chunk::new();
        chunk.put(chunk::pair(*first));
        for b in rest {
            chunk.make_room(f)?;
            chunk.put(*b" ");
            chunk.put(chunk::pair(*b));
        }
        chunk.hand_out(f)
    }
}

// A cell as a number, whose first byte is the most significant.
fn put_cell(chunk: &mut Chunk, cell: [u8; CELL])
    requires { chunk.old.used + 10 ≤ 128 }
{
    let [a, b, c, d] = cell;
    chunk.put(*b"0x");
    chunk.put(chunk::pair(a));
    chunk.put(chunk::pair(b));
    chunk.put(chunk::pair(c));
    chunk.put(chunk::pair(d));
}

// A value's cells, between brackets.
#[derive(Clone, Copy)]
struct Cells<'a>(&'a [u8]);

impl Display for Cells<'_> {
    fn fmt<W: Write>(&self, f: &mut Formatter<W>) -> Result {
        let (cells, _) = self.0.as_chunks::<CELL>();
        let mut chunk = Chunk::new();
        let mut before = *b"<";
        for cell in cells {
            chunk.make_room(f)?;
            chunk.put(before);
            put_cell(&mut chunk, *cell);
            before = *b" ";
        }
        chunk.hand_out(f)?;
        f.write_str(">")
    }
}

// How a value is shown. Text of whole cells may be either.
#[derive(Clone, Copy)]
enum Form<'a> {
    Strings(Strings<'a>),
    Either(Strings<'a>, Cells<'a>),
    Cells(Cells<'a>),
    Bytes(Pairs<'a>),
}

impl<'a> Form<'a> {
    fn of(v: &'a [u8]) -> Form<'a> {
        match (is_text(v), v.len() % CELL == 0) {
            (true, true) => Form::Either(Strings(v), Cells(v)),
            (true, false) => Form::Strings(Strings(v)),
            (false, true) => Form::Cells(Cells(v)),
            (false, false) => Form::Bytes(Pairs(v)),
        }
    }

    // The other reading, where there is one, as a comment.
    fn other<W: Write>(self, f: &mut Formatter<W>) -> Result {
        match self {
            Form::Either(_, cells) => write!(f, " // or {cells}"),
            _ => Ok(()),
        }
    }
}

impl Display for Form<'_> {
    fn fmt<W: Write>(&self, f: &mut Formatter<W>) -> Result {
        match *self {
            Form::Strings(strings) | Form::Either(strings, _) => strings.fmt(f),
            Form::Cells(cells) => cells.fmt(f),
            Form::Bytes(pairs) => write!(f, "[{pairs}]"),
        }
    }
}

// A value by itself.
#[derive(Clone, Copy)]
pub struct Alone<'a>(pub &'a [u8]);

impl Display for Alone<'_> {
    fn fmt<W: Write>(&self, f: &mut Formatter<W>) -> Result {
        let v = self.0;
        if v.is_empty() {
            return f.write_str("// no bytes");
        }
        let form = Form::of(v);
        form.fmt(f)?;
        form.other(f)
    }
}

// A property's name and value, in its line. An empty value is the name alone.
#[derive(Clone, Copy)]
pub struct Property<'a> {
    pub name: &'a [u8],
    pub value: &'a [u8],
}

impl Display for Property<'_> {
    fn fmt<W: Write>(&self, f: &mut Formatter<W>) -> Result {
        let v = self.value;
        Name(self.name).fmt(f)?;
        if v.is_empty() {
            return f.write_str(";");
        }
        let form = Form::of(v);
        write!(f, " = {form};")?;
        form.other(f)
    }
}
