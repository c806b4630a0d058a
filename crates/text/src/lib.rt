// Text that waits in a buffer, so that much goes out by one call.
#![tactic(auto)]

ghost use Rattle.std.specs.Prelude.{◌≡◌, ◌≤◌, take, ⊤};

use std::alloc::AllocError;
use std::io::{Result, Write};

// The room for text that waits to be written.
pub const ROOM: usize = 32768;

// The first n elements of s, or all of them where it has fewer.
pub fn upto<T>(s: &[T], n: usize) -> &[T]
    ensures { result.now ≡ take n s.now }
{
    if s.len() < n {
        return s;
    }
    &s[..n]
}

// A writer, and the text that waits for it: so many of the buffer's first bytes.
#[derive(Drop)]
pub struct Output<W> {
    to: W,
    text: [u8; ROOM],
    used: usize,
    ghost inside: { used ≤ 32768 },
}

// A copy, where the writer can be copied: what waits then waits in both.
impl<W: Copy> Clone for Output<W> {
    ghost is_clone = { λ x y. y ≡ x };

    ghost is_infallible = { λ _. ⊤ };

    fn clone(&self) -> std::result::Result<Output<W>, AllocError> {
        Ok(*self)
    }
}

impl<W: Copy> Copy for Output<W> {}

impl<W: Write> Output<W> {
    ghost use Rattle.std.specs.Prelude.{◌+◌, length, [], OnOk};
    ghost use Rattle.std.specs.Io.KnownBytes.{Appends};
    ghost use Rattle.text.specs.Held.{writer, waiting, held};

    pub fn new(to: W) -> Output<W>
        ensures to { writer result ≡ to }
        ensures empty { waiting result ≡ [] }
    {
        Output {
            to,
            text: [0; ROOM],
            used: 0,
        }
    }

    // Hands out what waits, all by one call, and of no bytes by none.
    fn hand_out(&mut self) -> Result<()>
        ensures empty { waiting self.new ≡ [] }
        ensures none { self.new.used ≡ 0 }
        ensures ok { OnOk result (Appends (W.contents (writer self.old)) (W.contents (writer self.new)) (waiting self.old)) }
    {
        let waiting = self.used;
        self.used = 0;
        self.to.write_all(upto(&self.text, waiting))
    }

    // Bytes that there is room for.
    #[inline(always)]
    fn append(&mut self, bytes: &[u8])
        requires { self.old.used + length bytes.now ≤ 32768 }
        ensures { Appends (held W.contents self.old) (held W.contents self.new) bytes.now }
    {
        let n = bytes.len();
        let end = self.used + n;
        self.text[self.used..end].copy_from_slice(bytes);
        self.used = end;
    }

    // More bytes than there is room for, by as many writes as they take.
    #[cold]
    #[inline(never)]
    fn write_parts(&mut self, bytes: &[u8]) -> Result<()>
        ensures { OnOk result (Appends (held W.contents self.old) (held W.contents self.new) bytes.now) }
    {
        let mut rest = bytes;
        while !rest.is_empty() {
            let n = self.write(rest)?;
            rest = &rest[n..];
        }
        Ok(())
    }
}

impl<W: Write> Write for Output<W> {
    ghost use Rattle.std.specs.Prelude.{◌<◌, length, [], IfOk, OnOk};
    ghost use Rattle.std.specs.Io.{WritesAtMost};
    ghost use Rattle.std.specs.Io.KnownBytes.{Keeps, Appends};
    ghost use Rattle.text.specs.Held.{writer, waiting, held};

    // As many of the bytes as there is room for. A full buffer is handed out first.
    fn write(&mut self, bytes: &[u8]) -> Result<usize>
        ensures bound { WritesAtMost result bytes.now }
        ensures some { 0 < length bytes.now → IfOk result (λ n. 0 < n) }
        ensures ok { IfOk result (λ n. Appends (held W.contents self.old) (held W.contents self.new) (take n bytes.now)) }
    {
        if self.used == ROOM {
            self.hand_out()?;
        }
        let n = bytes.len().min(ROOM - self.used);
        self.append(&bytes[..n]);
        Ok(n)
    }

    // All of the bytes. Mostly there is room for them.
    #[inline(always)]
    fn write_all(&mut self, bytes: &[u8]) -> Result<()>
        ensures ok { OnOk result (Appends (held W.contents self.old) (held W.contents self.new) bytes.now) }
    {
        if bytes.len() <= ROOM - self.used {
            self.append(bytes);
            return Ok(());
        }
        self.write_parts(bytes)
    }

    fn flush(&mut self) -> Result<()>
        ensures empty { waiting self.new ≡ [] }
        ensures ok { OnOk result (Keeps (held W.contents self.old) (W.contents (writer self.new))) }
    {
        self.hand_out()?;
        self.to.flush()
    }
}
