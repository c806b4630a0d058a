// The readers' lines: a letter names the reader, the fields after it are what it is asked, and the answer is the reader's.
#![tactic(auto)]

ghost use Rattle.std.specs.Prelude.{◌≡◌};
ghost use Rattle.answers.specs.Answers.{answer_numbers};
ghost use Rattle.lines.specs.Fields.{first_of, rest_of, number_of};
ghost use Rattle.letters.specs.Replies.{told, rounded, two_of, numbers_reply, read_reply, fields_reply, bytes_reply, utf8_reply};
ghost use Rattle.letters.specs.Replies as replies;

use answers::Answer;
use lines::{BAD, BYTES};

// A line's answer.
pub fn reply(line: &[u8]) -> Answer
    ensures { answer_numbers result ≡ replies.reply 8192 line.now }
{
    by_letter(line).unwrap_or(Answer::alone(BAD))
}

// By the letter, and none for a bad line.
#[tactic(auto, unfolding(crate::specs::Replies::reply, crate::specs::Replies::letter_reply))]
fn by_letter(line: &[u8]) -> Option<Answer>
    ensures { told result ≡ replies.reply 8192 line.now }
{
    match line {
        [b'A', b' ', s @ ..] => align(s),
        [b'U', b' ', s @ ..] => from_utf8(s),
        [letter, b' ', s @ ..] => of_bytes(*letter, s),
        _ => None,
    }
}

// The last two fields of a line.
fn both(s: &[u8]) -> Option<(usize, usize)>
    ensures { result ≡ two_of (number_of (first_of s.now)) (number_of (rest_of s.now)) }
{
    lines::decimal(lines::first(s)).zip(lines::decimal(lines::rest(s)))
}

// A VAL TO
#[tactic(auto, unfolding(crate::specs::Replies::numbers_reply))]
fn align(s: &[u8]) -> Option<Answer>
    ensures { told result ≡ numbers_reply rounded s.now }
{
    let (val, to) = both(s)?;
    Some(Answer::from(reader::align(val, to)))
}

// U BYTES
#[tactic(auto, unfolding(crate::specs::Replies::utf8_reply))]
fn from_utf8(s: &[u8]) -> Option<Answer>
    ensures { told result ≡ utf8_reply 8192 s.now }
{
    let mut room = [0u8; BYTES];
    let len = lines::bytes(s, &mut room)?;
    Some(Answer::from(utf8::from_utf8(text::upto(&room, len))))
}

// W, L, Z or S, and BYTES, which other fields follow. Any other letter is bad.
// The letter goes along: what is promised is one definition by the letter, and the check finds its proof alone. With a closure for each
// letter it leaves five cases of `by_letter` open, which want laws of their own.
#[tactic(auto, unfolding(crate::specs::Replies::bytes_reply))]
fn of_bytes(letter: u8, s: &[u8]) -> Option<Answer>
    ensures { told result ≡ bytes_reply (fields_reply letter) 8192 s.now }
{
    let mut room = [0u8; BYTES];
    let len = lines::bytes(lines::first(s), &mut room)?;
    of_fields(letter, text::upto(&room, len), lines::rest(s))
}

// S: START END. Otherwise POS.
#[tactic(auto, unfolding(crate::specs::Replies::fields_reply))]
fn of_fields(letter: u8, b: &[u8], s: &[u8]) -> Option<Answer>
    ensures { told result ≡ fields_reply letter b.now s.now }
{
    if letter == b'S' {
        return subslice(b, s);
    }
    read(letter, b, lines::decimal(s)?)
}

#[tactic(auto, using(answers::proofs::Parts::told_part), unfolding(crate::specs::Replies::numbers_reply))]
fn subslice(b: &[u8], s: &[u8]) -> Option<Answer>
    ensures { told result ≡ numbers_reply (replies.part b.now) s.now }
{
    let (start, end) = both(s)?;
    Some(Answer::from(reader::subslice(b, start, end)))
}

// The reader that a letter names, at a position.
#[tactic(auto, using(answers::proofs::Parts::told_part), unfolding(crate::specs::Replies::read_reply))]
fn read(letter: u8, b: &[u8], pos: usize) -> Option<Answer>
    ensures { told result ≡ read_reply letter b.now pos }
{
    match letter {
        b'W' => Some(Answer::from(reader::read_be::<u32>(b, pos))),
        b'L' => Some(Answer::from(reader::read_be::<u64>(b, pos))),
        b'Z' => Some(Answer::from(reader::read_bstring0(b, pos))),
        _ => None,
    }
}
