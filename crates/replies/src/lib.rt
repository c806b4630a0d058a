// An answer as text: its numbers by single spaces.
#![tactic(auto)]

use answers::Answer;
use std::io::{Result, Write};

// An answer.
pub fn put(out: &mut impl Write, answer: Answer) -> Result<()> {
    let mut before = "";
    for n in answer.numbers() {
        write!(out, "{before}{n}")?;
        before = " ";
    }
    Ok(())
}

// Begins a part of a line's answer that follows another. What it tells comes after a space.
pub fn part(out: &mut impl Write) -> Result<()> {
    out.write_all(b" ;")
}

// An answer as a part that follows others.
pub fn further(out: &mut impl Write, answer: Answer) -> Result<()> {
    part(out)?;
    out.write_all(b" ")?;
    put(out, answer)
}
