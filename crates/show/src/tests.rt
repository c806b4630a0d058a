// For no bytes a caller's own writer is asked nothing, which the contract of `Display` leaves open.
use crate::escape::{Line, Strings};
use std::fmt::{Error, Result, Write};

// Refuses every text that is shorter than `least`, and counts what it is asked for.
#[derive(Drop)]
struct Refuses {
    least: usize,
    asked: usize,
}

impl Write for Refuses {
    fn write_str(&mut self, s: &str) -> Result {
        self.asked = self.asked.saturating_add(1);
        if s.len() < self.least {
            return Err(Error);
        }
        Ok(())
    }
}

#[test]
fn no_bytes_ask_nothing(rt: HostRuntime) {
    let mut all = Refuses { least: 9, asked: 0 };
    let line = all.write(Line(b""));
    assert!(rt; line.is_ok());
    assert_eq!(rt; all.asked, 0);
    let mut empty = Refuses { least: 1, asked: 0 };
    let strings = empty.write(Strings(b"\0"));
    assert!(rt; strings.is_ok());
    assert_eq!(rt; empty.asked, 2);
}
