// What a field spells: a number in decimal digits, or bytes or words in hexadecimal digits. There is no heap, so the caller lends the
// room for these. It is told how much of it they fill, and not given that part: `Put` says what the room holds after, which no clause
// can of a room that the result still borrows.
ghost use Rattle.std.specs.Prelude.{◌≡◌, ◌<◌, length, SomeIff};
ghost use Rattle.lines.specs.Fields.{digit_of, pair_of, number_of, hex_of, bytes_of, gathered, words_of, Put};

use crate::NODE_ROWS;

// The most digits that a number may have.
const DIGITS: usize = 20;

// How many bytes a word has, and the largest table.
const WORD_BYTES: usize = 4;

const TABLE_BYTES: usize = NODE_ROWS * format::NODE_WIDTH * WORD_BYTES;

// The value of a digit of either case, none for any other byte.
#[tactic(auto, unfolding(crate::specs::Fields::digit_of))]
fn digit(b: u8) -> Option<u8>
    ensures { SomeIff result (digit_of b < 16) (digit_of b) }
{
    let value = (b as char).to_digit(16)?;
    Some(value as u8)
}

// The byte that two digits spell.
#[tactic(auto, unfolding(crate::specs::Fields::pair_of))]
fn pair(a: u8, b: u8) -> Option<u8>
    ensures { SomeIff result (pair_of a b < 256) (pair_of a b) }
{
    let high = digit(a)?;
    let low = digit(b)?;
    Some(high * 16 + low)
}

// The number that decimal digits spell.
#[tactic(auto, using(crate::proofs::FieldLaws::number_laws), unfolding(crate::specs::Fields::number_of))]
pub fn decimal(s: &[u8]) -> Option<usize>
    ensures { result ≡ number_of s.now }
{
    if s.is_empty() || DIGITS < s.len() {
        return None;
    }
    let mut n: usize = 0;
    for b in s {
        let digit = (*b as char).to_digit(10)?;
        n = n.checked_mul(10)?.checked_add(digit as usize)?;
    }
    Some(n)
}

// The bytes that hexadecimal digits spell, put at the start of out: no more than it has room for.
#[tactic(auto, using(crate::proofs::FieldLaws::hex_laws), unfolding(crate::specs::Fields::hex_of))]
pub fn hex(s: &[u8], out: &mut [u8]) -> Option<usize>
    ensures { Put result (hex_of (length out.old) s.now) out.new }
{
    let (pairs, odd) = s.as_chunks::<2>();
    if !odd.is_empty() || out.len() < pairs.len() {
        return None;
    }
    for (i, [a, b]) in pairs.iter().enumerate() {
        out[i] = pair(*a, *b)?;
    }
    Some(pairs.len())
}

// The same of a field, which is not empty: `-` for no bytes.
#[tactic(auto, unfolding(crate::specs::Fields::bytes_of))]
pub fn bytes(s: &[u8], out: &mut [u8]) -> Option<usize>
    ensures { Put result (bytes_of (length out.old) s.now) out.new }
{
    match s {
        [] => None,
        [b'-'] => Some(0),
        [_] => None,
        _ => hex(s, out),
    }
}

// The words that bytes hold, four bytes each, put at the start of out.
#[tactic(auto, using(crate::proofs::FieldLaws::gather_laws), unfolding(crate::specs::Fields::gathered))]
fn gather(s: &[u8], out: &mut [u32]) -> Option<usize>
    ensures { Put result (gathered (length out.old) s.now) out.new }
{
    let (words, rest) = s.as_chunks::<WORD_BYTES>();
    if !rest.is_empty() || out.len() < words.len() {
        return None;
    }
    for (i, word) in words.iter().enumerate() {
        out[i] = u32::from_be_bytes(*word);
    }
    Some(words.len())
}

// The words that a field spells, of 8 digits each, put at the start of out: no more than it has room for.
#[tactic(auto, unfolding(crate::specs::Fields::words_of))]
pub fn words(s: &[u8], out: &mut [u32]) -> Option<usize>
    ensures { Put result (words_of (length out.old) s.now) out.new }
{
    let mut room = [0u8; TABLE_BYTES];
    let len = bytes(s, &mut room)?;
    gather(text::upto(&room, len), out)
}
