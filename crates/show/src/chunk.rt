// Text that waits in a small buffer, so that a formatter is asked once for many bytes.
ghost use Rattle.std.specs.Prelude.{◌≡◌, ◌<◌, ◌≤◌, false};
ghost use Rattle.std.specs.Fmt.{digit_glyph, WritesOnOk};
ghost use Rattle.show.specs.Escaped as escaped;

use std::fmt::{Error, Formatter, Result, Write};

// The room for the text that waits.
const ROOM: usize = 128;

// The most that is put there before it is looked at again.
const STEP: usize = 16;

// A byte's two hexadecimal digits.
pub(crate) fn pair(b: u8) -> [u8; 2]
    ensures { result ≡ escaped.pair b }
{
    [digit(b / 16), digit(b % 16)]
}

fn digit(n: u8) -> u8
    requires { n < 16 }
    ensures { result ≡ digit_glyph false n }
{
    if n < 10 { b'0' + n } else { b'a' - 10 + n }
}

// Hands bytes to a formatter, which takes text alone.
#[inline(always)]
pub(crate) fn hand_over<W: Write>(f: &mut Formatter<W>, bytes: &[u8]) -> Result
    ensures { WritesOnOk W.write_str_gives f.old result bytes.now f.new }
{
    match str::from_utf8(bytes) {
        Ok(text) => f.write_str(text),
        Err(_) => Err(Error),
    }
}

// What waits: so many of the buffer's first bytes.
#[derive(Drop)]
pub(crate) struct Chunk {
    text: [u8; ROOM],
    used: usize,
    ghost inside: { used ≤ 128 },
}

impl Chunk {
    ghost use Rattle.std.specs.Prelude.{◌+◌, ◌++◌, [], IsOk, OnOk};
    ghost use Rattle.std.specs.Char.{encode_utf8};
    ghost use Rattle.show.specs.Chunks.{waiting, Holds};

    pub(crate) fn new() -> Chunk
        ensures empty { waiting result ≡ [] }
        ensures none { result.used ≡ 0 }
    {
        Chunk {
            text: [0; ROOM],
            used: 0,
        }
    }

    // Bytes more, which fit behind the others.
    #[inline(always)]
    pub(crate) fn put<const N: usize>(&mut self, bytes: [u8; N])
        requires { self.old.used + N ≤ 128 }
        ensures text { waiting self.new ≡ waiting self.old ++ bytes.entry }
        ensures used { self.new.used ≡ self.old.used + N }
    {
        let end = self.used + N;
        self.text[self.used..end].copy_from_slice(&bytes);
        self.used = end;
    }

    // The character of that number.
    #[inline(always)]
    pub(crate) fn put_char(&mut self, b: u8)
        requires { self.old.used + 2 ≤ 128 }
        ensures text { waiting self.new ≡ waiting self.old ++ encode_utf8 b }
        ensures used { self.new.used ≤ self.old.used + 2 }
    {
        if b < 128 {
            self.put([b]);
        } else {
            self.put([192 + b / 64, 128 + b % 64]);
        }
    }

    // Hands out what waits.
    pub(crate) fn hand_out<W: Write>(&mut self, f: &mut Formatter<W>) -> Result
        ensures writes { WritesOnOk W.write_str_gives f.old result (waiting self.old) f.new }
        ensures empty { IsOk result → waiting self.new ≡ [] }
        ensures none { OnOk result (self.new.used ≡ 0) }
    {
        hand_over(f, &self.text[..self.used])?;
        self.used = 0;
        Ok(())
    }

    // Hands it out where there may be no room for a step more.
    #[inline(always)]
    pub(crate) fn make_room<W: Write>(&mut self, f: &mut Formatter<W>) -> Result
        ensures room { OnOk result (self.new.used + 16 ≤ 128) }
        ensures holds { (start : _) (bs : _) → Holds W.write_str_gives start bs f.old (waiting self.old) → IsOk result → Holds W.write_str_gives start bs f.new (waiting self.new) }
    {
        if self.used <= ROOM - STEP {
            return Ok(());
        }
        self.hand_out(f)
    }
}
