// Numbers of a blob, each with its most significant byte first.
ghost use Rattle.std.specs.Prelude.{◌≡◌, ◌+◌, ◌≤◌, ◌<◌, ℕ, length, IfOk, OnErr};
ghost use Rattle.format.specs.Answer.{or_zero};
ghost use Rattle.format.specs.Bytes.{part};
ghost use Rattle.format.specs.Results.{outcome_of};
ghost use Rattle.format.specs.Read.{read_be};
ghost use Rattle.reader.specs.Outcomes.{why_of};

use crate::{SliceReadError, SliceReadResult};

// A number of so many bytes, and which number a value is. It may be let go of, as `unwrap_or` does.
pub trait BigEndian: Sized + Drop {
    ghost bytes: { ℕ };

    ghost value: { Self → ℕ };

    // `Default` says nothing of which number its value is.
    fn zero() -> Self
        ensures { value result ≡ 0 };

    // The number of the bytes at pos. Refused where they are not all there.
    fn read(buf: &[u8], pos: usize) -> SliceReadResult<Self>
        ensures { outcome_of why_of value result ≡ read_be bytes buf.now pos };
}

impl BigEndian for u32 {
    ghost bytes = { 4 };

    ghost value = { λ n. n };

    fn zero() -> u32 {
        0
    }

    fn read(buf: &[u8], pos: usize) -> SliceReadResult<u32> {
        let bytes: &[u8; 4] = chunk(buf, pos)?;
        Ok(u32::from_be_bytes(*bytes))
    }
}

// As for u32: std has `from_be_bytes` for each number, and no trait of them.
impl BigEndian for u64 {
    ghost bytes = { 8 };

    ghost value = { λ n. n };

    fn zero() -> u64 {
        0
    }

    fn read(buf: &[u8], pos: usize) -> SliceReadResult<u64> {
        let bytes: &[u8; 8] = chunk(buf, pos)?;
        Ok(u64::from_be_bytes(*bytes))
    }
}

// The N bytes at pos. Refused where they are not all there.
fn chunk<const N: usize>(buf: &[u8], pos: usize) -> SliceReadResult<&[u8; N]>
    ensures ok { IfOk result (λ c. (pos + N ≤ length buf.now) × (c.now ≡ part buf.now pos N)) }
    ensures err { OnErr result (length buf.now < pos + N) }
{
    // A loop that reads at many positions tests the length once.
    if buf.len() < N || buf.len() - N < pos {
        return Err(SliceReadError::UnexpectedEndOfInput);
    }
    match buf[pos..pos + N].first_chunk() {
        Some(bytes) => Ok(bytes),
        None => Err(SliceReadError::UnexpectedEndOfInput),
    }
}

// The number at pos. Refused where its bytes are not all there.
pub fn read_be<T: BigEndian>(buf: &[u8], pos: usize) -> SliceReadResult<T>
    ensures { outcome_of why_of T.value result ≡ read_be T.bytes buf.now pos }
{
    T::read(buf, pos)
}

// The same for a caller that knows that it is there: 0 where it is not.
pub fn number_at<T: BigEndian>(buf: &[u8], pos: usize) -> T
    ensures { T.value result ≡ or_zero (read_be T.bytes buf.now pos) }
{
    read_be(buf, pos).unwrap_or(T::zero())
}
