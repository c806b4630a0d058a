// What was loaded, in words: `dt check`, and the second line of `dt tree`.
use std::fmt::{Display, Formatter, Result, Write};
use survey::DeviceTree;

// How many there are of a thing, and its word for that many.
#[derive(Clone, Copy)]
pub struct Count<'a> {
    n: usize,
    word: &'a str,
}

impl<'a> Count<'a> {
    // By the word for one, and for any other number.
    pub fn of(n: usize, one: &'a str, more: &'a str) -> Count<'a> {
        Count {
            n,
            word: if n == 1 { one } else { more },
        }
    }
}

impl Display for Count<'_> {
    fn fmt<W: Write>(&self, f: &mut Formatter<W>) -> Result {
        let n = self.n;
        let word = self.word;
        write!(f, "{n} {word}")
    }
}

// Version and boot CPU, and behind them the counts of rows.
#[derive(Clone, Copy)]
pub struct Loaded(pub DeviceTree);

impl Display for Loaded {
    fn fmt<W: Write>(&self, f: &mut Formatter<W>) -> Result {
        let version = self.0.version;
        let boot = self.0.boot_cpuid_phys;
        let reserved = Count::of(self.0.reserved, "reservation row", "reservation rows");
        let nodes = Count::of(self.0.nodes, "node", "nodes");
        let props = Count::of(self.0.props, "property", "properties");
        write!(
            f,
            "version {version}, boot CPU {boot}, {reserved}, {nodes}, {props}"
        )
    }
}
