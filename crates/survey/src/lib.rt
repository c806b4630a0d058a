// The checking pass of a load: everything but the room is judged, nothing is written, and what is found is told by its places and counts.
#![tactic(auto)]

ghost use Rattle.std.specs.Prelude.{◌≡◌};
ghost use Rattle.format.specs.Results.{outcome};
ghost use Rattle.survey.specs.declared.DeviceTreeError.TheVariants.{UnexpectedEndOfInput, Utf8Error};
ghost use Rattle.survey.specs.Outcomes.{why_of};
ghost use Rattle.survey.specs.Survey.{survey_of};

mod header;
mod nodes;
mod reserve;

use format::DEPTH;
use header::{SUPPORTED_VERSION, judge_header};
pub use nodes::Blob;
use reader::SliceReadError;
use reserve::scan;

// ---- the structure block: how long a token is, where the parts of a node and of a property stand, counted from their token, and to what
// their ends are aligned, counted from the start of the blob

pub const TOKEN: usize = 4;

pub const NAME_AT: usize = 4;

pub const SIZE_AT: usize = 4;

pub const OFFSET_AT: usize = 8;

pub const VALUE_AT: usize = 12;

pub const ALIGNED: usize = 4;

// ---- the reservation list: how many bytes an entry takes, its size after its offset

pub const ENTRY: usize = 16;

pub const LENGTH_AT: usize = 8;

// ---- answers

// Why a load is refused: the Rust's reasons, and four of our own. A position, or the rows needed.
#[derive(Clone, Copy, Debug, PartialEq, Eq)]
pub enum DeviceTreeError {
    InvalidMagicNumber,
    SizeMismatch,
    UnexpectedEndOfInput,
    ParseError(usize),
    Utf8Error,
    VersionNotSupported,
    TooDeep(usize),
    ReservationRoom(usize),
    NodeRoom(usize),
    PropertyRoom(usize),
}

// What was loaded: the Rust's `DeviceTree`, with the count of rows where it has a list or a tree.
#[derive(Clone, Copy, Debug, PartialEq, Eq)]
pub struct DeviceTree {
    pub version: u32,
    pub boot_cpuid_phys: u32,
    pub reserved: usize,
    pub nodes: usize,
    pub props: usize,
}

// Where the names of properties stand: offsets count from the start, and a name's zero byte stands before the end.
#[derive(Clone, Copy)]
pub struct Block {
    pub start: usize,
    pub end: usize,
}

// What a writing pass goes by: where things are, and what is to be answered.
#[derive(Clone, Copy)]
pub struct Plan {
    pub structure: usize,
    pub strings: Block,
    pub reservations: usize,
    pub tree: DeviceTree,
}

impl From<SliceReadError> for DeviceTreeError {
    ghost from_gives = { λ _ why. why ≡ UnexpectedEndOfInput };

    fn from(_e: SliceReadError) -> DeviceTreeError {
        DeviceTreeError::UnexpectedEndOfInput
    }
}

impl From<utf8::Utf8Error> for DeviceTreeError {
    ghost from_gives = { λ _ why. why ≡ Utf8Error };

    fn from(_e: utf8::Utf8Error) -> DeviceTreeError {
        DeviceTreeError::Utf8Error
    }
}

// Everything but the room: 0 to 7.
pub fn survey(b: &[u8]) -> Result<Plan, DeviceTreeError>
    ensures { outcome why_of result ≡ survey_of b.now }
{
    let header = judge_header(b)?;
    let reservations = header.reservations;
    let end = scan(b, reservations)?;
    let strings = Block {
        start: header.strings,
        end: b.len(),
    };
    let root = Blob { bytes: b, strings }.check_node(DEPTH, header.structure)?;
    Ok(Plan {
        structure: header.structure,
        strings,
        reservations,
        tree: DeviceTree {
            version: SUPPORTED_VERSION,
            boot_cpuid_phys: header.boot,
            reserved: (end - reservations) / ENTRY,
            nodes: root.nodes,
            props: root.props,
        },
    })
}
