// Answers each line of standard input by one line: a letter names a call, the fields after it are what it is asked.
// Any bytes get an answer. A bad line gives 16, and the next line counts again.
#![tactic(auto)]

mod given;
mod loads;
mod lookups;
mod tables;

use lines::Program;
use std::io::{Result, Write};
use text::Output;

// The numbers of the tables.
const RESERVATIONS: usize = lines::RESERVATION_ROWS * format::RESERVATION_WIDTH;

const NODES: usize = lines::NODE_ROWS * format::NODE_WIDTH;

const PROPERTIES: usize = lines::PROPERTY_ROWS * format::PROPERTY_WIDTH;

struct Queries;

impl Program for Queries {
    // By the line's letter: told in this one match, which a table of calls would not make plainer.
    fn answer<W: Write>(&self, line: &[u8], out: &mut Output<W>) -> Result<()> {
        let rest = lines::rest(line);
        match lines::letter(line) {
            b'T' => loads::answer(rest, out),
            b'R' => given::answer(rest, out),
            _ => replies::put(out, letters::reply(line)),
        }
    }
}

// After a write that failed nobody is told: the program ends.
fn main(rt: HostRuntime) {
    let mut out = Output::new(rt.stdout());
    let _ = lines::answer_all(&Queries, rt.stdin(), &mut out);
}
