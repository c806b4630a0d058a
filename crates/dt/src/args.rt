// The words of the command line. Each is asked for where it is used.
use crate::help::Nonsense;
use show::escape::Line;
use std::env::{Env, FillError};
use std::fmt::{self, Display, Formatter};

// Where they stand. The program's own name is word 0. Numbers and no enum: std asks for a word by its number, and they are counted
// through, so an enum would be turned into its number wherever it is used.
pub const COMMAND: usize = 1;

pub const FILE: usize = 2;

pub const PATH: usize = 3;

pub const NAME: usize = 4;

pub const READING: usize = 5;

// One more than the words of any command line that makes sense.
const MANY: usize = READING + 2;

// The room for a word.
pub const ROOM: usize = 4096;

// A word of the command line, by its place.
#[derive(Clone, Copy)]
pub struct Word<'a> {
    rt: &'a HostRuntime,
    place: usize,
}

impl<'a> Word<'a> {
    pub fn at(rt: &'a HostRuntime, place: usize) -> Word<'a> {
        Word { rt, place }
    }

    // Its bytes, put into the room: none where there is no such word. One with more bytes makes no sense.
    fn fitting<'r>(&self, room: &'r mut [u8; ROOM]) -> Result<&'r [u8], Nonsense> {
        match self.rt.arg(self.place, room) {
            Ok(n) => Ok(text::upto(room, n)),
            Err(FillError::NotPresent) => Ok(&[]),
            Err(FillError::TooLong) => Err(Nonsense::Long(self.place)),
        }
    }

    // The same of a word that is known to fit.
    pub fn bytes<'r>(&self, room: &'r mut [u8; ROOM]) -> &'r [u8] {
        self.fitting(room).unwrap_or(&[])
    }

    fn is_missing(&self) -> bool {
        let mut room = io::buffer();
        matches!(
            self.rt.arg(self.place, &mut room),
            Err(FillError::NotPresent)
        )
    }
}

// The word in a line.
impl Display for Word<'_> {
    fn fmt<W: fmt::Write>(&self, f: &mut Formatter<W>) -> fmt::Result {
        let mut room = io::buffer();
        Line(self.bytes(&mut room)).fmt(f)
    }
}

// How a property is to be read: as the tree shows it, or by one of the lookups.
#[derive(Clone, Copy)]
pub enum Reading {
    Shown,
    Raw,
    Str,
    U32,
    U64,
}

// What is asked of a blob.
#[derive(Clone, Copy)]
pub enum Task {
    Check,
    Tree,
    Find,
    Prop(Reading),
}

impl Task {
    // Whether a command line of so many words can ask for it. How a property is to be read may be left out.
    fn takes(self, count: usize) -> bool {
        match self {
            Task::Check | Task::Tree => count == FILE + 1,
            Task::Find => count == PATH + 1,
            Task::Prop(_) => count == NAME + 1 || count == READING + 1,
        }
    }
}

// What the command line asks for.
#[derive(Clone, Copy)]
pub enum Asked {
    For(Task),
    Help,
}

// How many words there are, the program's own name among them; `MANY` where there are more.
fn count(rt: &HostRuntime) -> usize {
    let mut places = 0..MANY;
    places
        .find(|place| Word::at(rt, *place).is_missing())
        .unwrap_or(MANY)
}

// How a property is to be read is the last word, if it is there. An empty one asks for the value as the tree shows it.
fn reading_of(rt: &HostRuntime, count: usize) -> Result<Reading, Nonsense> {
    if count != READING + 1 {
        return Ok(Reading::Shown);
    }
    let mut room = io::buffer();
    match Word::at(rt, READING).fitting(&mut room)? {
        b"" => Ok(Reading::Shown),
        b"raw" => Ok(Reading::Raw),
        b"str" => Ok(Reading::Str),
        b"u32" => Ok(Reading::U32),
        b"u64" => Ok(Reading::U64),
        _ => Err(Nonsense::Usage(Task::Prop(Reading::Shown))),
    }
}

// A task with the words that it wants, unless one of them is too long.
fn worded(rt: &HostRuntime, task: Task, count: usize) -> Result<Asked, Nonsense> {
    if !task.takes(count) {
        return Err(Nonsense::Usage(task));
    }
    let mut room = io::buffer();
    for place in FILE..READING {
        Word::at(rt, place).fitting(&mut room)?;
    }
    Ok(Asked::For(task))
}

// A frame of its own, so that the rooms for words are off the stack before a file gets its own.
#[inline(never)]
pub fn get(rt: &HostRuntime) -> Result<Asked, Nonsense> {
    let count = count(rt);
    if count <= COMMAND {
        return Err(Nonsense::Any);
    }
    let mut room = io::buffer();
    match Word::at(rt, COMMAND).fitting(&mut room)? {
        b"check" => worded(rt, Task::Check, count),
        b"tree" => worded(rt, Task::Tree, count),
        b"find" => worded(rt, Task::Find, count),
        b"prop" => worded(rt, Task::Prop(reading_of(rt, count)?), count),
        b"help" | b"--help" | b"-h" => Ok(Asked::Help),
        _ => Err(Nonsense::Unknown),
    }
}
