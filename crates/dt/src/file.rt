// A file's bytes, in the room for them.
ghost use Rattle.std.specs.Prelude.{◌≤◌, length};

use crate::BLOB;
use crate::args::{FILE, Word};
use std::fmt::{self, Display, Formatter};
use std::fs::File;
use std::io::{Error, ErrorKind, Read};

// The errno of bytes that are no text, EILSEQ.
const NO_TEXT: i32 = 84;

// Why they are not there: no call is at fault where a file is empty or has more bytes than there is room for.
#[derive(Clone, Copy)]
pub enum Unread {
    Empty,
    TooLong,
    Missing,
    Directory,
    NoPermission,
    LongName,
    Other(i32),
}

impl Display for Unread {
    fn fmt<W: fmt::Write>(&self, f: &mut Formatter<W>) -> fmt::Result {
        match *self {
            Unread::Empty => write!(f, "empty"),
            Unread::TooLong => write!(f, "longer than {BLOB} bytes, which is all that dt reads"),
            Unread::Missing => write!(f, "no such file"),
            Unread::Directory => write!(f, "a directory, not a file"),
            Unread::NoPermission => write!(f, "no permission to read it"),
            Unread::LongName => write!(f, "the name is too long"),
            Unread::Other(errno) => write!(f, "cannot be read (error {errno})"),
        }
    }
}

// Why a call failed.
impl From<Error> for Unread {
    fn from(why: Error) -> Unread {
        match why.kind() {
            ErrorKind::NotFound | ErrorKind::NotADirectory => Unread::Missing,
            ErrorKind::IsADirectory => Unread::Directory,
            ErrorKind::PermissionDenied => Unread::NoPermission,
            ErrorKind::InvalidFilename => Unread::LongName,
            _ => Unread::Other(why.raw_os_error().unwrap_or(0).max(0)),
        }
    }
}

// What a file of so many bytes comes to, where a further read gave so many more: these had no room.
fn judged(n: usize, more: usize) -> Result<usize, Unread> {
    match more {
        0 if n == 0 => Err(Unread::Empty),
        0 => Ok(n),
        _ if n < BLOB => Err(Unread::Other(0)),
        _ => Err(Unread::TooLong),
    }
}

// One read: how many bytes it gave. The end of the file, and a call that fails, give none.
fn some(file: &mut File, room: &mut [u8]) -> usize
    ensures { result ≤ length room.old }
{
    file.read(room).unwrap_or(0)
}

// Reads until the room is full, the file ends or a read fails: how many bytes there are. A loop of our own, which each read moves on by
// what it gave: `read_exact` does not tell how many it got, and `read_to_end` wants a heap.
fn full(file: &mut File, room: &mut [u8]) -> usize
    ensures { result ≤ length room.new }
{
    let mut done = 0;
    while done < room.len() {
        let n = some(file, &mut room[done..]);
        if n == 0 {
            return done;
        }
        done += n;
    }
    done
}

// All that the file gives. One read more tells an end from a failure and from bytes that have no room.
fn all(file: &mut File, blob: &mut [u8; BLOB]) -> Result<usize, Unread> {
    let n = full(file, blob);
    let mut more = [0u8; 1];
    judged(n, file.read(&mut more)?)
}

// The system opens a name of any bytes; std takes only those that are UTF-8. Any other name is told as one that no call can
// read, by the errno of bytes that are no text.
fn open(rt: &HostRuntime) -> Result<File, Error> {
    let mut room = io::buffer();
    match str::from_utf8(Word::at(rt, FILE).bytes(&mut room)) {
        Ok(path) => File::open(rt, path),
        Err(_) => Err(Error::from_raw_os_error(NO_TEXT)),
    }
}

// How many bytes the file has, and they stand at the start of the room.
pub fn read(rt: &HostRuntime, blob: &mut [u8; BLOB]) -> Result<usize, Unread> {
    let mut file = open(rt)?;
    all(&mut file, blob)
}
