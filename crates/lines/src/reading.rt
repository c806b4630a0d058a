// The lines of an input, gathered from what single reads gave, and their answers.
ghost use Rattle.std.specs.Prelude.{◌≤◌, ◌≡◌, [], OnOk};
ghost use Rattle.text.specs.Held.{waiting};
ghost use Rattle.lines.specs.declared.TheConstants.{LINE, READ};

use crate::fields::find;
use crate::{LINE, READ};
use std::io::{Read, Result, Write};
use text::Output;

// The line so far.
#[derive(Drop)]
struct Line {
    bytes: [u8; LINE],
    len: usize,
    ghost inside: { len ≤ LINE },
}

impl Line {
    ghost use Rattle.std.specs.Prelude.{◌≡◌, ◌++◌, take, []};
    ghost use Rattle.lines.specs.Reading.{so_far};

    fn new() -> Line
        ensures { so_far result ≡ [] }
    {
        Line {
            bytes: [0; LINE],
            len: 0,
        }
    }

    fn as_slice(&self) -> &[u8]
        ensures { result.now ≡ so_far self.now }
    {
        &self.bytes[..self.len]
    }

    // Bytes more, and where it is full it keeps what it has.
    fn append(&mut self, more: &[u8])
        ensures { so_far self.new ≡ take LINE (so_far self.old ++ more.now) }
    {
        let n = more.len().min(LINE - self.len);
        let end = self.len + n;
        self.bytes[self.len..end].copy_from_slice(&more[..n]);
        self.len = end;
    }

    fn clear(&mut self)
        ensures { so_far self.new ≡ [] }
    {
        self.len = 0;
    }
}

// An input, and what its last read gave: the bytes from `at` up to `end` are still to be taken.
#[derive(Drop)]
struct Input<R> {
    from: R,
    bytes: [u8; READ],
    at: usize,
    end: usize,
    ghost inside: { (at ≤ end) × (end ≤ READ) },
}

impl<R: Read> Input<R> {
    ghost use Rattle.std.specs.Prelude.{◌≡◌, ◌<◌, ◌↔◌, ◌++◌, ◌==◌, IsTrue, length, take, [], is_some, position};
    ghost use Rattle.std.specs.List.{before_first, after_first};
    ghost use Rattle.lines.specs.Reading.{left, so_far};

    // Nothing is read yet.
    fn new(from: R) -> Input<R>
        ensures { left result ≡ [] }
    {
        Input {
            from,
            bytes: [0; READ],
            at: 0,
            end: 0,
        }
    }

    fn left(&self) -> &[u8]
        ensures { result.now ≡ left self.now }
    {
        &self.bytes[self.at..self.end]
    }

    // One read, where all that was read is taken: whether it gave anything. The end of the input, and a call that fails, give nothing.
    fn read(&mut self) -> bool
        ensures { IsTrue result ↔ (0 < length (left self.new)) }
    {
        self.at = 0;
        self.end = self.from.read(&mut self.bytes).unwrap_or(0);
        0 < self.end
    }

    // Goes on to the line's end, or to the end of what is read. Whether the line is whole.
    fn take(&mut self, line: &mut Line) -> bool
        ensures line { so_far line.new ≡ take LINE (so_far line.old ++ before_first (λ b. b == 10) (left self.old)) }
        ensures left { left self.new ≡ after_first (λ b. b == 10) (left self.old) }
        ensures whole { result ≡ is_some (position (λ b. b == 10) (left self.old)) }
    {
        let left = self.left();
        match find(left, b'\n') {
            Some(n) => {
                line.append(&left[..n]);
                self.at += n + 1;
                true
            }
            None => {
                line.append(left);
                self.at = self.end;
                false
            }
        }
    }
}

// A program that answers lines. A trait and no closure: a closure would have to be callable, and so something be asked of the caller.
pub trait Program {
    // Writes the answer of a line.
    fn answer<W: Write>(&self, line: &[u8], out: &mut Output<W>) -> Result<()>;
}

// Answers each line by one line. Whenever all that was read is taken, the answers go out.
// A last line without its line end counts if it isn't empty.
pub fn answer_all<P: Program, R: Read + Drop, W: Write>(
    program: &P,
    from: R,
    out: &mut Output<W>,
) -> Result<()>
    ensures { OnOk result (waiting out.new ≡ []) }
{
    let mut input = Input::new(from);
    let mut line = Line::new();
    // A proved loop has to end, and nothing says that the input does: a count of turns that no run uses up.
    for _ in 0..u64::MAX {
        if input.left().is_empty() {
            out.flush()?;
            if !input.read() {
                break;
            }
        }
        if input.take(&mut line) {
            program.answer(line.as_slice(), out)?;
            out.write_all(b"\n")?;
            line.clear();
        }
    }
    if !line.as_slice().is_empty() {
        program.answer(line.as_slice(), out)?;
        out.write_all(b"\n")?;
    }
    out.flush()
}
