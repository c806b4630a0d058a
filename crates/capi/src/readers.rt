// The readers of crate reader, on any bytes: src/util.rs of the original, and the UTF-8 check. The bytes are lent, and nothing but the
// answer's numbers is written. A function for each, alike as they are: C calls it by its name.
#![tactic(auto, using(answers::proofs::Parts::told_part), unfolding(crate::specs::Linked::Told))]

ghost use Rattle.format.specs.Answer.{numbers, itself, nothing, place, span_at};
ghost use Rattle.format.specs.Read.{aligned, read_be_u32, read_be_u64, read_bstring0, subslice, utf8_check};
ghost use Rattle.capi.specs.Linked.{Told};

// `reader::align`, val rounded up to a multiple of to: 0 and the number; 3 where to is 0 or the number is past the range.
#[unsafe(no_mangle)]
pub extern "C" fn dangrisuk_align(val: usize, to: usize, answer: &mut [u64])
    ensures { Told (numbers itself (aligned val to)) answer.old answer.new }
{
    answers::tell(answer, reader::align(val, to));
}

// `reader::read_be` at u32, the 4 bytes at pos: 0 and the number; 3 where they are not all there.
#[unsafe(no_mangle)]
pub extern "C" fn dangrisuk_read_be_u32(buf: &[u8], pos: usize, answer: &mut [u64])
    ensures { Told (numbers itself (read_be_u32 buf.now pos)) answer.old answer.new }
{
    answers::tell(answer, reader::read_be::<u32>(buf, pos));
}

// `reader::read_be` at u64, the 8 bytes at pos: 0 and the number; 3 where they are not all there.
#[unsafe(no_mangle)]
pub extern "C" fn dangrisuk_read_be_u64(buf: &[u8], pos: usize, answer: &mut [u64])
    ensures { Told (numbers itself (read_be_u64 buf.now pos)) answer.old answer.new }
{
    answers::tell(answer, reader::read_be::<u64>(buf, pos));
}

// `reader::read_bstring0`, the part from pos up to, not with, the first zero byte: 0, offset and length; 3 where there is no such byte.
#[unsafe(no_mangle)]
pub extern "C" fn dangrisuk_read_bstring0(buf: &[u8], pos: usize, answer: &mut [u64])
    ensures { Told (numbers place (span_at pos (read_bstring0 buf.now pos))) answer.old answer.new }
{
    answers::tell(answer, reader::read_bstring0(buf, pos));
}

// `reader::subslice`, the part from start up to, not with, end: 0, offset and length; 3 unless start ≤ end < length.
#[unsafe(no_mangle)]
pub extern "C" fn dangrisuk_subslice(buf: &[u8], start: usize, end: usize, answer: &mut [u64])
    ensures { Told (numbers place (span_at start (subslice buf.now start end))) answer.old answer.new }
{
    answers::tell(answer, reader::subslice(buf, start, end));
}

// `utf8::from_utf8`, whether the bytes are UTF-8: 0, 5.
#[unsafe(no_mangle)]
pub extern "C" fn dangrisuk_from_utf8(buf: &[u8], answer: &mut [u64])
    ensures { Told (numbers nothing (utf8_check buf.now)) answer.old answer.new }
{
    answers::tell(answer, utf8::from_utf8(buf));
}
