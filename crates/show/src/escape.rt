// Bytes that are not our own, shown so that no terminal is harmed and no line is broken: what is not printable ASCII stands
// as \xNN, and a backslash as two.
ghost use Rattle.std.specs.Prelude.{◌≡◌, ◌+◌, ◌<◌, ◌≤◌, ◌∷◌, ◌++◌, ℕ, List, [], IsOk, IsTrue, flat_map, Some};
ghost use Rattle.std.specs.Fmt.{WritesOnOk};
ghost use Rattle.show.specs.Chunks.{waiting};
ghost use Rattle.show.specs.Escaped as escaped;
ghost use Rattle.show.specs.Told.{told};

use crate::chunk::{self, Chunk};
use std::fmt::{Display, Formatter, Result, Write};

// How a byte is shown: as it is, behind a backslash, as \xNN, or as what stands between two strings.
#[derive(Clone, Copy)]
enum Shown {
    Plain(u8),
    Behind(u8),
    Number(u8),
    Between,
}

impl Shown {
    // Puts it behind what waits.
    #[inline(always)]
    fn put(self, chunk: &mut Chunk)
        requires { chunk.old.used + 16 ≤ 128 }
        ensures { waiting chunk.new ≡ waiting chunk.old ++ told self }
    {
        match self {
            Shown::Plain(b) => chunk.put_char(b),
            Shown::Behind(b) => {
                chunk.put(*b"\\");
                chunk.put_char(b);
            }
            Shown::Number(b) => {
                chunk.put(*b"\\x");
                chunk.put(chunk::pair(b));
            }
            Shown::Between => chunk.put(*b"\", \""),
        }
    }

    // Whether a byte that is shown so stands as it is.
    #[inline(always)]
    fn is(self, b: u8) -> bool
        ensures { IsTrue result → told self ≡ b ∷ [] }
    {
        match self {
            Shown::Plain(shown) => shown == b && b < 128,
            _ => false,
        }
    }
}

// From the space to the tilde.
pub fn printable(b: u8) -> bool
    ensures { result ≡ escaped.is_printable b }
{
    matches!(b, b' '..=b'~')
}

fn in_line(b: u8) -> Shown
    ensures { told result ≡ escaped.in_line b }
{
    if b == b'\\' {
        return Shown::Behind(b);
    }
    if printable(b) {
        return Shown::Plain(b);
    }
    Shown::Number(b)
}

// Letters, digits and # * + , - . ? @ _ can stand in a name of .dts text. Any other byte would be taken for something else there.
fn in_name(b: u8) -> Shown
    ensures { told result ≡ escaped.in_name b }
{
    match b {
        b'#' | b'*'..=b'.' | b'0'..=b'9' | b'?'..=b'Z' | b'_' | b'a'..=b'z' => Shown::Plain(b),
        _ => Shown::Number(b),
    }
}

fn in_strings(b: u8) -> Shown
    ensures { told result ≡ escaped.in_strings b }
{
    match b {
        0 => Shown::Between,
        b'"' => Shown::Behind(b),
        _ => in_line(b),
    }
}

// Whether all of the bytes stand as they are.
fn is_plain<F: Fn(u8) -> Shown>(s: &[u8], how: &F) -> bool
    requires { F.IsAlwaysCallable how.now }
    ensures { IsTrue result → (shown : ℕ → List ℕ) → ((b : ℕ) (r : _) → b < 256 → F.post how.now b r → told r ≡ shown b) → flat_map shown s.now ≡ s.now }
{
    for b in s {
        if !how(*b).is(*b) {
            return false;
        }
    }
    true
}

// What the bytes come to, one behind another: they themselves, without a copy, where that is so. For no bytes no writer is asked.
fn all<W: Write, F: Fn(u8) -> Shown>(f: &mut Formatter<W>, s: &[u8], how: F) -> Result
    requires { F.IsAlwaysCallable how }
    ensures none { s.now ≡ [] → IsOk result × (f.new ≡ f.old) }
    ensures writes { (shown : ℕ → List ℕ) → ((b : ℕ) (r : _) → b < 256 → F.post how b r → told r ≡ shown b) → WritesOnOk W.write_str_gives f.old result (flat_map shown s.now) f.new }
{
    if s.is_empty() {
        return Ok(());
    }
    if is_plain(s, &how) {
        return chunk::hand_over(f, s);
    }
    let mut chunk = Chunk::new();
    for b in s {
        chunk.make_room(f)?;
        how(*b).put(&mut chunk);
    }
    chunk.hand_out(f)
}

// Bytes in a line: a file, a path, a text.
#[derive(Clone, Copy)]
pub struct Line<'a>(pub &'a [u8]);

impl Display for Line<'_> {
    ghost output = { λ s. Some (escaped.line s.0.now) };

    fn fmt<W: Write>(&self, f: &mut Formatter<W>) -> Result {
        all(f, self.0, in_line)
    }
}

// The name of a node or a property.
#[derive(Clone, Copy)]
pub struct Name<'a>(pub &'a [u8]);

impl Display for Name<'_> {
    ghost output = { λ s. Some (escaped.name s.0.now) };

    fn fmt<W: Write>(&self, f: &mut Formatter<W>) -> Result {
        if self.0.is_empty() {
            return f.write_str("/* no name */");
        }
        all(f, self.0, in_name)
    }
}

// A list of strings, of which a zero ends each, between quotation marks.
#[derive(Clone, Copy)]
pub struct Strings<'a>(pub &'a [u8]);

impl Display for Strings<'_> {
    ghost output = { λ s. Some (escaped.strings s.0.now) };

    fn fmt<W: Write>(&self, f: &mut Formatter<W>) -> Result {
        let Some((_, s)) = self.0.split_last() else {
            return Ok(());
        };
        f.write_str("\"")?;
        all(f, s, in_strings)?;
        f.write_str("\"")
    }
}
