// `dt help`, and what is said where the words of the command line make no sense.
ghost use Rattle.std.specs.Prelude.{◌≡◌, [], OnOk};
ghost use Rattle.text.specs.Held.{waiting};

use crate::args::{ROOM as WORD, Task, Word};
use crate::{BLOB, NODES, PROPERTIES, RESERVATIONS};
use format::DEPTH;
use std::fmt::{self, Formatter};
use std::io::{Result, Write};
use text::Output;

// Command lines that make no sense: a task with too few or too many words, none at all, or a word that is no command or is too long.
#[derive(Clone, Copy)]
pub enum Nonsense {
    Usage(Task),
    Any,
    Unknown,
    Long(usize),
}

// How a command is used.
fn usage(task: Task) -> &'static str {
    match task {
        Task::Check => "check FILE",
        Task::Tree => "tree FILE",
        Task::Find => "find FILE PATH",
        Task::Prop(_) => "prop FILE PATH NAME [raw|str|u32|u64]",
    }
}

// What is said of them. By the words at the end of these lines ./dt knows them.
pub fn wrong<W: fmt::Write>(f: &mut Formatter<W>, command: Word<'_>, why: Nonsense) -> fmt::Result {
    match why {
        Nonsense::Usage(task) => {
            let usage = usage(task);
            write!(f, "usage: dt {usage}: dt help tells more")
        }
        Nonsense::Any => write!(
            f,
            "usage: dt check|tree|find|prop|help ..: dt help tells more"
        ),
        Nonsense::Unknown => write!(f, "unknown command '{command}': dt help lists them"),
        Nonsense::Long(place) => write!(
            f,
            "word {place} is longer than {WORD} bytes: dt help tells more"
        ),
    }
}

// What the commands do, and how they show what they find: all of it handed out.
pub fn put<W: Write>(out: &mut Output<W>) -> Result<()>
    ensures { OnOk result (waiting out.new ≡ []) }
{
    write!(
        out,
        "dt reads flattened device trees (.dtb).

  dt check FILE        whether it is good; if not, why and where
  dt tree FILE         the whole tree as .dts text
  dt find FILE PATH    the node of that path: its row, its properties and children
  dt prop FILE PATH NAME [raw|str|u32|u64]
                       a property as the tree shows it, or its bytes, its text, or
                       the number that its first 4 or 8 bytes are
  dt help              this text

Values: strings \"a\", \"b\" where each has a byte or more, all printable ASCII, and a zero
behind it; where such a value's length is a multiple of 4 its cells follow as // or <0x..>.
Else cells <0x..> where the length is a multiple of 4, else bytes [00 ff]. An empty value
is the name alone in the tree, and // no bytes by itself. All values are shown whole.

Names: a byte that cannot stand in a name of .dts text is shown as \\xNN. In strings, paths
and file names one that is not printable ASCII is, and a backslash is shown as two.

Reservations: the last row, of size 0, ends the list. It is counted, and it is shown, as a
comment, only if it has an offset.

Limits: {BLOB} bytes a file, {RESERVATIONS} reservation rows, {NODES} nodes, {PROPERTIES} properties,
and {DEPTH} nodes one inside another.

What goes wrong is one line on standard error. The exit status of ./dt is then 1, or 2 where
the command line makes no sense; else 0.
"
    )?;
    out.flush()
}
