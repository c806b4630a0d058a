// Readers of a blob, as src/util.rs has them: any position of any bytes gets an answer.
// `UnexpectedEndOfInput` (3) is the answer where the Rust gives it, and where the Rust would panic or wrap.
#![tactic(auto)]

ghost use Rattle.std.specs.Prelude.{◌≡◌, ◌==◌, ◌+◌, ◌≤◌, position, length};
ghost use Rattle.format.specs.Answer.{span_at, or_empty, or_else, or_zero};
ghost use Rattle.format.specs.Bytes.{part};
ghost use Rattle.format.specs.Results.{outcome, outcome_of};
ghost use Rattle.format.specs.Read.{aligned, read_be_u32, read_bstring0, subslice};
ghost use Rattle.reader.specs.Outcomes.{why_of, tells, number_of, token_of, token_at};

mod big_endian;

pub use big_endian::{BigEndian, number_at, read_be};

#[derive(Clone, Copy, Debug, PartialEq, Eq)]
pub enum SliceReadError {
    UnexpectedEndOfInput,
}

pub type SliceReadResult<T> = Result<T, SliceReadError>;

// A part of the caller's bytes, by its place.
#[derive(Clone, Copy, Debug, PartialEq, Eq)]
pub struct Span {
    pub start: usize,
    pub len: usize,
}

// `val` rounded up to a multiple of `to`. Refused where `to` is 0, or what it gives is past the range.
#[tactic(auto, using(crate::proofs::Rounding::align_laws))]
pub fn align(val: usize, to: usize) -> SliceReadResult<usize>
    ensures { outcome why_of result ≡ aligned val to }
{
    let Some(over) = val.checked_rem(to) else {
        return Err(SliceReadError::UnexpectedEndOfInput);
    };
    if over == 0 {
        return Ok(val);
    }
    match val.checked_add(to - over) {
        Some(next) => Ok(next),
        None => Err(SliceReadError::UnexpectedEndOfInput),
    }
}

// Where the first zero byte stands.
fn first_zero(buf: &[u8]) -> Option<usize>
    ensures { result ≡ position (λ x. x == 0) buf.now }
{
    buf.iter().position(|x| *x == 0)
}

// The part from pos up to, not with, the first zero byte. Refused where there is none.
pub fn read_bstring0(buf: &[u8], pos: usize) -> SliceReadResult<Span>
    ensures { outcome_of why_of tells result ≡ span_at pos (read_bstring0 buf.now pos) }
{
    let Some(rest) = buf.get(pos..) else {
        return Err(SliceReadError::UnexpectedEndOfInput);
    };
    // By the place alone: a loop that keeps beside it whether there is a zero byte takes twice the time.
    let len = first_zero(rest).unwrap_or(rest.len());
    if len == rest.len() {
        return Err(SliceReadError::UnexpectedEndOfInput);
    }
    Ok(Span { start: pos, len })
}

// The part from start up to, not with, end. Refused unless start ≤ end < length. The parameters are the Rust's own.
pub fn subslice(buf: &[u8], start: usize, end: usize) -> SliceReadResult<Span>
    ensures { outcome_of why_of tells result ≡ span_at start (subslice buf.now start end) }
{
    if end < start || buf.len() <= end {
        return Err(SliceReadError::UnexpectedEndOfInput);
    }
    Ok(Span {
        start,
        len: end - start,
    })
}

fn part(buf: &[u8], span: Span) -> &[u8]
    requires { span.start + span.len ≤ length buf.now }
    ensures { result.now ≡ part buf.now span.start span.len }
{
    &buf[span.start..span.start + span.len]
}

// The part that `read_bstring0` tells the place of, empty where it refuses.
pub fn bstring0_part(buf: &[u8], pos: usize) -> &[u8]
    ensures { result.now ≡ or_empty (read_bstring0 buf.now pos) }
{
    match read_bstring0(buf, pos) {
        Ok(span) => part(buf, span),
        Err(_) => &[],
    }
}

// The part that `subslice` tells the place of, empty where it refuses.
pub fn subslice_part(buf: &[u8], start: usize, end: usize) -> &[u8]
    ensures { result.now ≡ or_empty (subslice buf.now start end) }
{
    match subslice(buf, start, end) {
        Ok(span) => part(buf, span),
        Err(_) => &[],
    }
}

// What opens or closes a node, or opens a property. Any other word is none of these.
#[derive(Clone, Copy, Debug, PartialEq, Eq)]
pub enum Token {
    BeginNode,
    EndNode,
    Prop,
    Other(u32),
}

impl From<u32> for Token {
    ghost from_gives = { λ n token. token ≡ token_of n };

    #[tactic(auto, unfolding(crate::specs::Outcomes::token_of, format::specs::Format::BEGIN_NODE, format::specs::Format::END_NODE, format::specs::Format::PROP))]
    fn from(number: u32) -> Token {
        match number {
            Token::BEGIN_NODE => Token::BeginNode,
            Token::END_NODE => Token::EndNode,
            Token::PROP => Token::Prop,
            _ => Token::Other(number),
        }
    }
}

// The word that a token is. It tells the tokens that `From<u32>` gives apart.
impl From<Token> for u32 {
    ghost from_gives = { λ token n. n ≡ number_of token };

    #[tactic(auto, unfolding(crate::specs::Outcomes::number_of, format::specs::Format::BEGIN_NODE, format::specs::Format::END_NODE, format::specs::Format::PROP))]
    fn from(token: Token) -> u32 {
        match token {
            Token::BeginNode => Token::BEGIN_NODE,
            Token::EndNode => Token::END_NODE,
            Token::Prop => Token::PROP,
            Token::Other(number) => number,
        }
    }
}

impl Token {
    pub const BEGIN_NODE: u32 = 1;

    pub const END_NODE: u32 = 2;

    pub const PROP: u32 = 3;

    // The token at pos. Refused where no 4 bytes are there.
    pub fn read(buf: &[u8], pos: usize) -> SliceReadResult<Token>
        ensures { outcome why_of result ≡ token_at buf.now pos }
    {
        let number: u32 = read_be(buf, pos)?;
        Ok(Token::from(number))
    }

    // The same for a caller that knows that it is there: that of 0 where it is not.
    pub fn at(buf: &[u8], pos: usize) -> Token
        ensures { result ≡ token_of (or_zero (read_be_u32 buf.now pos)) }
    {
        let number: u32 = number_at(buf, pos);
        Token::from(number)
    }
}

// ---- the same, for a caller that knows that something is there

// `val` rounded up to a multiple of `to`, `val` itself where there is none in the range.
#[tactic(auto, using(crate::proofs::Rounding::or_given))]
pub fn aligned(val: usize, to: usize) -> usize
    ensures { result ≡ or_else val (aligned val to) }
{
    align(val, to).unwrap_or(val)
}

// The length of the string at pos, 0 where there is none.
pub fn string_len(buf: &[u8], pos: usize) -> usize
    ensures { result ≡ length (or_empty (read_bstring0 buf.now pos)) }
{
    let Ok(span) = read_bstring0(buf, pos) else {
        return 0;
    };
    span.len
}
