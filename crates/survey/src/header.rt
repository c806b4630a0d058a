// The header: the first words of a blob.
ghost use Rattle.std.specs.Prelude.{◌≡◌};
ghost use Rattle.format.specs.Results.{outcome};
ghost use Rattle.survey.specs.Outcomes.{why_of};
ghost use Rattle.survey.specs.Survey.{header_of};

use crate::DeviceTreeError;
use reader::read_be;

const MAGIC_NUMBER: u32 = 0xd00dfeed;

pub(crate) const SUPPORTED_VERSION: u32 = 17;

// The words that a load needs.
#[derive(Clone, Copy)]
pub(crate) struct Header {
    pub(crate) structure: usize,
    pub(crate) strings: usize,
    pub(crate) reservations: usize,
    pub(crate) boot: u32,
}

// The magic number, the length and the version, in the order in which they are judged.
pub(crate) fn judge_header(b: &[u8]) -> Result<Header, DeviceTreeError>
    ensures { outcome why_of result ≡ header_of b.now }
{
    let magic: u32 = read_be(b, 0)?;
    if magic != MAGIC_NUMBER {
        return Err(DeviceTreeError::InvalidMagicNumber);
    }
    let size: u32 = read_be(b, 4)?;
    if size as usize != b.len() {
        return Err(DeviceTreeError::SizeMismatch);
    }
    let version: u32 = read_be(b, 20)?;
    if version != SUPPORTED_VERSION {
        return Err(DeviceTreeError::VersionNotSupported);
    }
    let structure: u32 = read_be(b, 8)?;
    let strings: u32 = read_be(b, 12)?;
    let reservations: u32 = read_be(b, 16)?;
    let boot = read_be(b, 28)?;
    Ok(Header {
        structure: structure as usize,
        strings: strings as usize,
        reservations: reservations as usize,
        boot,
    })
}
