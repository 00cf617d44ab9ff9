// The C interface, include/vvc_pps.h: each function is a call of one of the library's. A slice crosses as a pointer and
// a length; an answer as a struct with the number of the refusal, 0 where there is none, beside the values.
#![tactic(auto)]

ghost use Rattle.std.specs.Prelude.{◌≡◌, min, [], ◌∷◌, ◌%◌};
ghost use Rattle.nal.specs.Answers.{unescape_answer, unescape_out, escape_answer, escape_out};
ghost use Rattle.h266.specs.Header.{header_of};
ghost use Rattle.code_length.specs.UeSize.{ue_size_of};
ghost use Rattle.bit_reader.specs.Reading.{u_read, ue_read, se_read, trailing_read};
ghost use Rattle.bit_reader.specs.Extension.{extension_bits, more_rbsp_data};
ghost use Rattle.codes.specs.Bits.{to_bits};
ghost use Rattle.codes.specs.Bytes.{bit_list};
ghost use Rattle.codes.specs.Coded.{ue_symbols, se_symbols};
ghost use Rattle.codes.specs.Symbols.{putting};
ghost use Rattle.bit_writer.specs.Writing.{sink_over, fresh, play, closed};
ghost use Rattle.bit_writer.specs.Answers.{answer_of};
ghost use Rattle.vvc_pps.specs.Answers.{byte_count, count_of, nal_header, ue_size};
ghost use Rattle.vvc_pps.specs.Version.{version_of};

mod no_pps;
pub mod questions;
pub mod reading;
pub mod writing;

use bit_reader::{BitsRead, Cursor, SignedRead};
use bit_writer::Sink;
use h266::VvcNalHeader;
use refusal::Refusal;

// include/vvc_pps.h and CHANGELOG.md have the same numbers.
const VERSION_MAJOR: u32 = 0;

const VERSION_MINOR: u32 = 2;

const VERSION_PATCH: u32 = 0;

const VERSION: u32 = VERSION_MAJOR * 65536 + VERSION_MINOR * 256 + VERSION_PATCH;

#[unsafe(no_mangle)]
pub extern "C" fn vvc_version() -> u32
    ensures { result ≡ version_of 0 2 0 }
{
    VERSION
}

#[repr(C)]
#[derive(Clone, Copy)]
pub struct VvcByteCount {
    pub refused: u8,
    pub bytes: usize,
}

#[repr(C)]
#[derive(Clone, Copy)]
pub struct VvcNalHeaderRead {
    pub refused: u8,
    pub header: VvcNalHeader,
}

#[repr(C)]
#[derive(Clone, Copy)]
pub struct VvcUeSize {
    pub refused: u8,
    pub bits: u32,
}

impl From<Result<usize, u8>> for VvcByteCount {
    ghost from_gives = { λ answer count. count ≡ byte_count answer };

    fn from(answer: Result<usize, u8>) -> VvcByteCount {
        match answer {
            Ok(bytes) => VvcByteCount { refused: 0, bytes },
            Err(refused) => VvcByteCount { refused, bytes: 0 },
        }
    }
}

impl From<Result<usize, Refusal>> for VvcByteCount {
    ghost from_gives = { λ answer count. count ≡ count_of answer };

    fn from(answer: Result<usize, Refusal>) -> VvcByteCount {
        VvcByteCount::from(answer.map_err(|refusal| refusal.number()))
    }
}

#[unsafe(no_mangle)]
pub extern "C" fn vvc_ebsp_to_rbsp(ebsp: &[u8], out: &mut [u8]) -> VvcByteCount
    ensures value { result ≡ count_of (unescape_answer ebsp.now out.old) }
    ensures out_after { out.new ≡ unescape_out ebsp.now out.old }
{
    VvcByteCount::from(nal::ebsp_to_rbsp(ebsp, out))
}

#[unsafe(no_mangle)]
pub extern "C" fn vvc_rbsp_to_ebsp(rbsp: &[u8], out: &mut [u8]) -> VvcByteCount
    ensures value { result ≡ count_of (escape_answer rbsp.now out.old) }
    ensures out_after { out.new ≡ escape_out rbsp.now out.old }
{
    VvcByteCount::from(nal::rbsp_to_ebsp(rbsp, out))
}

impl From<Result<VvcNalHeader, Refusal>> for VvcNalHeaderRead {
    ghost from_gives = { λ answer read. read ≡ nal_header answer };

    fn from(answer: Result<VvcNalHeader, Refusal>) -> VvcNalHeaderRead {
        match answer {
            Ok(header) => VvcNalHeaderRead { refused: 0, header },
            Err(refusal) => VvcNalHeaderRead {
                refused: refusal.number(),
                header: VvcNalHeader::default(),
            },
        }
    }
}

#[unsafe(no_mangle)]
pub extern "C" fn vvc_parse_nal_header(nal: &[u8]) -> VvcNalHeaderRead
    ensures { result ≡ nal_header (header_of nal.now) }
{
    VvcNalHeaderRead::from(h266::parse_nal_header(nal))
}

impl From<Result<u32, Refusal>> for VvcUeSize {
    ghost from_gives = { λ answer size. size ≡ ue_size answer };

    fn from(answer: Result<u32, Refusal>) -> VvcUeSize {
        match answer {
            Ok(bits) => VvcUeSize { refused: 0, bits },
            Err(refusal) => VvcUeSize {
                refused: refusal.number(),
                bits: 0,
            },
        }
    }
}

#[unsafe(no_mangle)]
pub extern "C" fn vvc_ue_size(v: u32) -> VvcUeSize
    ensures { result ≡ ue_size (ue_size_of v) }
{
    VvcUeSize::from(code_length::ue_size(v))
}

#[unsafe(no_mangle)]
pub extern "C" fn vvc_read_u(s: &[u8], c: Cursor, n: u32) -> BitsRead
    ensures { result ≡ u_read s.now c (min n 32) }
{
    bit_reader::u(s, c, n)
}

#[unsafe(no_mangle)]
pub extern "C" fn vvc_read_ue(s: &[u8], c: Cursor) -> BitsRead
    ensures { result ≡ ue_read s.now c }
{
    bit_reader::ue(s, c)
}

#[unsafe(no_mangle)]
pub extern "C" fn vvc_read_se(s: &[u8], c: Cursor) -> SignedRead
    ensures { result ≡ se_read s.now c }
{
    bit_reader::se(s, c)
}

#[unsafe(no_mangle)]
pub extern "C" fn vvc_read_rbsp_trailing_bits(s: &[u8], c: Cursor) -> Cursor
    ensures { result ≡ trailing_read s.now c }
{
    bit_reader::rbsp_trailing_bits(s, c)
}

#[unsafe(no_mangle)]
pub extern "C" fn vvc_more_rbsp_data(s: &[u8], at: usize) -> bool
    ensures { result ≡ more_rbsp_data s.now at }
{
    bit_reader::more_rbsp_data(s, at)
}

#[unsafe(no_mangle)]
pub extern "C" fn vvc_extension_bits(s: &[u8], at: usize) -> usize
    ensures { result ≡ extension_bits s.now at }
{
    bit_reader::extension_bits(s, at)
}

// A sink that has put nothing yet.
#[unsafe(no_mangle)]
pub extern "C" fn vvc_sink(escape: bool) -> Sink
    ensures { result ≡ fresh escape 0 }
{
    Sink::new(escape)
}

#[unsafe(no_mangle)]
pub extern "C" fn vvc_put_bit(w: Sink, out: &mut [u8], bit: u32) -> Sink
    ensures { sink_over result out.new ≡ play (sink_over w out.old) (putting (bit % 2 ∷ [])) }
{
    w.put_bit(out, bit)
}

#[unsafe(no_mangle)]
pub extern "C" fn vvc_put_bits(w: Sink, out: &mut [u8], value: u32, n: u32) -> Sink
    ensures { sink_over result out.new
        ≡ play (sink_over w out.old) (putting (to_bits (min n 32) value)) }
{
    w.put_bits(out, value, n)
}

#[unsafe(no_mangle)]
pub extern "C" fn vvc_put_ue(w: Sink, out: &mut [u8], v: u32) -> Sink
    ensures { sink_over result out.new ≡ play (sink_over w out.old) (ue_symbols v) }
{
    w.put_ue(out, v)
}

#[unsafe(no_mangle)]
pub extern "C" fn vvc_put_se(w: Sink, out: &mut [u8], v: i32) -> Sink
    ensures { sink_over result out.new ≡ play (sink_over w out.old) (se_symbols v) }
{
    w.put_se(out, v)
}

// The bits of other bytes, from bit `from` on.
#[unsafe(no_mangle)]
pub extern "C" fn vvc_put_copy(
    w: Sink,
    out: &mut [u8],
    bytes: &[u8],
    from: usize,
    count: usize,
) -> Sink
    ensures { sink_over result out.new
        ≡ play (sink_over w out.old) (putting (bit_list bytes.now from count)) }
{
    w.put_copy(out, bytes, from, count)
}

// rbsp_trailing_bits(), and the end of an escaped payload.
#[unsafe(no_mangle)]
pub extern "C" fn vvc_close(w: Sink, out: &mut [u8]) -> Sink
    ensures { sink_over result out.new ≡ closed (sink_over w out.old) }
{
    w.close(out)
}

// What a sink says of an output of so many bytes: a refusal, 29, or the bytes put.
#[unsafe(no_mangle)]
pub extern "C" fn vvc_sink_answer(w: Sink, room: usize) -> VvcByteCount
    ensures { result ≡ byte_count (answer_of w room) }
{
    VvcByteCount::from(w.answer(room))
}
