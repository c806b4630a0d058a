// The differential program: each line of standard input is a frame in hexadecimal, and is answered by one line.
// Any bytes get an answer. A bad line gives 16, and the next line counts again.
#![tactic(auto)]

mod reply;

use lines::Program;
use std::io::{Result, Write};
use text::Output;

struct Frames;

impl Program for Frames {
    fn answer<W: Write>(&self, line: &[u8], out: &mut Output<W>) -> Result<()> {
        replies::put(out, reply::reply(line))
    }
}

// After a write that failed nobody is told: the program ends.
fn main(rt: HostRuntime) {
    let mut out = Output::new(rt.stdout());
    let _ = lines::answer_all(&Frames, rt.stdin(), &mut out);
}
