// Why a blob is refused, in words.
use crate::{NODES, PROPERTIES, RESERVATIONS};
use answers::Refuses;
use format::DEPTH;
use std::fmt::{Display, Formatter, Result, Write};
use survey::DeviceTreeError;

// Where the length and the version stand in a blob.
const LENGTH_AT: usize = 4;

const VERSION_AT: usize = 20;

// Why, how many bytes the file has, and the word of it that is told: a length, a version, or one that no rule allows at a position.
#[derive(Clone, Copy)]
pub struct Refused {
    why: DeviceTreeError,
    len: usize,
    word: u32,
}

impl Refused {
    pub fn of(b: &[u8], why: DeviceTreeError) -> Refused {
        let at = match why {
            DeviceTreeError::ParseError(at) => at,
            DeviceTreeError::VersionNotSupported => VERSION_AT,
            _ => LENGTH_AT,
        };
        Refused {
            why,
            len: b.len(),
            word: reader::number_at(b, at),
        }
    }
}

// That there are more rows of a table than dt has room for.
fn rows<W: Write>(f: &mut Formatter<W>, n: usize, table: &str, most: usize) -> Result {
    write!(
        f,
        "it needs {n} rows for {table}, and dt has room for {most}"
    )
}

impl Display for Refused {
    fn fmt<W: Write>(&self, f: &mut Formatter<W>) -> Result {
        let len = self.len;
        let word = self.word;
        let code = self.why.answer().code();
        write!(f, "refused with {code}: ")?;
        match self.why {
            DeviceTreeError::InvalidMagicNumber => write!(f, "it does not begin with d00dfeed"),
            DeviceTreeError::SizeMismatch => write!(
                f,
                "its header tells a length of {word} bytes, and the file has {len}"
            ),
            DeviceTreeError::UnexpectedEndOfInput => write!(
                f,
                "unexpected end: a part reaches past the end of the file, or a value right up to it"
            ),
            DeviceTreeError::ParseError(at) => write!(
                f,
                "a parse error at byte {at} (0x{at:x}): the word 0x{word:08x} may not stand there"
            ),
            DeviceTreeError::Utf8Error => write!(
                f,
                "the name of a node or a property is not UTF-8"
            ),
            DeviceTreeError::VersionNotSupported => write!(
                f,
                "it is of version {word}, and only 17 is read"
            ),
            DeviceTreeError::TooDeep(at) => write!(
                f,
                "too deep: with the node at byte {at} (0x{at:x}) there would be more than {DEPTH} one inside another"
            ),
            DeviceTreeError::ReservationRoom(n) => rows(f, n, "reservations", RESERVATIONS),
            DeviceTreeError::NodeRoom(n) => rows(f, n, "nodes", NODES),
            DeviceTreeError::PropertyRoom(n) => rows(f, n, "properties", PROPERTIES),
        }
    }
}
