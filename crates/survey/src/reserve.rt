// The reservation list: a scan that finds its end.
ghost use Rattle.std.specs.Prelude.{◌≡◌};
ghost use Rattle.format.specs.Results.{outcome};
ghost use Rattle.survey.specs.Outcomes.{why_of};
ghost use Rattle.survey.specs.Reserve.{scan_from, ScanReady};

use crate::{DeviceTreeError, ENTRY, LENGTH_AT};
use reader::read_be;

// "Stopping yields the position after" the entry that ends the list.
pub(crate) fn scan(b: &[u8], pos: usize) -> Result<usize, DeviceTreeError>
    requires { ScanReady b.now pos }
    ensures { outcome why_of result ≡ scan_from b.now pos }
{
    let mut p = pos;
    loop {
        // Where the size is there the offset before it is there too.
        let size: u64 = read_be(b, p + LENGTH_AT)?;
        p += ENTRY;
        if size == 0 {
            return Ok(p);
        }
    }
}
