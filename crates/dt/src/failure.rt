// What goes wrong, each told by one line on standard error.
ghost use Rattle.std.specs.Prelude.{◌≡◌, [], OnOk};
ghost use Rattle.text.specs.Held.{waiting};

use crate::args::{COMMAND, FILE, NAME, PATH, Word};
use crate::file::Unread;
use crate::find;
use crate::help::{self, Nonsense};
use crate::prop::NoValue;
use crate::words::Refused;
use lookup::LookupError;
use std::fmt::{self, Display, Formatter};
use std::io::{Error, ErrorKind, Result, Write};
use text::Output;

#[derive(Clone, Copy)]
pub enum Failure {
    Nonsense(Nonsense),
    Unread(Unread),
    Refused(Refused),
    NoNode(LookupError),
    NoValue(NoValue),
    Unwritten(ErrorKind),
}

impl From<Nonsense> for Failure {
    fn from(why: Nonsense) -> Failure {
        Failure::Nonsense(why)
    }
}

impl From<Unread> for Failure {
    fn from(why: Unread) -> Failure {
        Failure::Unread(why)
    }
}

impl From<LookupError> for Failure {
    fn from(why: LookupError) -> Failure {
        Failure::NoNode(why)
    }
}

impl From<Error> for Failure {
    fn from(why: Error) -> Failure {
        Failure::Unwritten(why.kind())
    }
}

// A failure, with the words of the command line that its line has.
#[derive(Clone, Copy)]
struct Told<'a> {
    rt: &'a HostRuntime,
    why: Failure,
}

impl Display for Told<'_> {
    fn fmt<W: fmt::Write>(&self, f: &mut Formatter<W>) -> fmt::Result {
        let command = Word::at(self.rt, COMMAND);
        let file = Word::at(self.rt, FILE);
        let path = Word::at(self.rt, PATH);
        let name = Word::at(self.rt, NAME);
        match self.why {
            Failure::Nonsense(why) => help::wrong(f, command, why),
            Failure::Unread(why) => write!(f, "{file}: {why}"),
            Failure::Refused(why) => write!(f, "{file}: {why}"),
            Failure::NoNode(why) => {
                write!(f, "{file}: ")?;
                find::wrong(f, path, why)
            }
            Failure::NoValue(why) => write!(f, "{file}: property {name} of {path} {why}"),
            Failure::Unwritten(_) => write!(f, "standard output cannot be written"),
        }
    }
}

// Its line, all of it handed out.
fn put<W: Write>(out: &mut Output<W>, told: Told<'_>) -> Result<()>
    ensures { OnOk result (waiting out.new ≡ []) }
{
    writeln!(out, "dt: {told}")?;
    out.flush()
}

// Of a reader that stops early nothing is told. A frame of its own: else the room for its line lies on the stack of all that goes well.
#[cold]
#[inline(never)]
pub fn tell(rt: &HostRuntime, why: Failure) {
    if let Failure::Unwritten(ErrorKind::BrokenPipe) = why {
        return;
    }
    let mut out = Output::new(rt.stderr());
    // Nobody can be told that standard error cannot be written.
    let _ = put(&mut out, Told { rt, why });
}
