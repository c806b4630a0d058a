// What a property's value is: a text, or a number of its first bytes. Whatever the tables hold, a call gets an answer; nothing is written.
#![tactic(auto)]

ghost use Rattle.std.specs.Prelude.{◌≡◌};
ghost use Rattle.format.specs.Answer.{or_empty};
ghost use Rattle.format.specs.Find.{as_string};
ghost use Rattle.format.specs.Lookup.{prop_str};
ghost use Rattle.format.specs.Agrees.{bytes_in};
ghost use Rattle.format.specs.Results.{outcome_of};
ghost use Rattle.reader.specs.Outcomes.{tells};
ghost use Rattle.lookup.specs.Answers.{lent_by};
ghost use Rattle.values.specs.Answers.{why_of, prop_number};

mod error;

pub use error::{PropError, PropResult};
use lookup::Rows;
use reader::{BigEndian, Span, read_be};

// A row and a name are what is asked of rows. They are together in these calls alone, and a struct of them would be made for each.

// The value's first bytes as a number, as many as the number's type has.
pub fn prop_number<T: BigEndian>(rows: &Rows<'_, '_>, row: usize, name: &[u8]) -> PropResult<T>
    ensures { outcome_of why_of T.value result ≡ prop_number T.bytes rows.now.nodes.blob.now (lent_by rows.now) row name.now }
{
    let value = rows.prop_raw(row, name)?;
    Ok(read_be(&rows.nodes.blob[value.start..value.start + value.len], 0)?)
}

// The text of a value: all but its last byte, which is 0.
fn text_of(value: &[u8]) -> PropResult<&[u8]>
    ensures { outcome_of why_of (λ text. text.now) result ≡ as_string value.now }
{
    let Some(text) = value.strip_suffix(b"\0") else {
        return Err(PropError::Missing0);
    };
    utf8::from_utf8(text)?;
    Ok(text)
}

// Where the value's text lies.
pub fn prop_str(rows: &Rows<'_, '_>, row: usize, name: &[u8]) -> PropResult<Span>
    ensures { outcome_of why_of tells result ≡ prop_str rows.now.nodes.blob.now (lent_by rows.now) row name.now }
{
    let value = rows.prop_raw(row, name)?;
    let text = text_of(&rows.nodes.blob[value.start..value.start + value.len])?;
    Ok(Span {
        start: value.start,
        len: text.len(),
    })
}

// The text itself, empty on a refusal. As `Rows::prop_raw_part` has it: a function for both would be no shorter than these four lines.
pub fn prop_str_part<'b>(rows: &Rows<'b, '_>, row: usize, name: &[u8]) -> &'b [u8]
    ensures { result.now ≡ or_empty (bytes_in rows.now.nodes.blob.now (prop_str rows.now.nodes.blob.now (lent_by rows.now) row name.now)) }
{
    match prop_str(rows, row, name) {
        Ok(Span { start, len }) => &rows.nodes.blob[start..start + len],
        Err(_) => &[],
    }
}
