// Reading bits (H.266 7.2, 9.2) over a byte slice. Past the end there are 0 bits, and the place stays at the end.
#![tactic(auto)]

ghost use Rattle.std.specs.Prelude.{◌≡◌, ◌+◌, ◌-◌, ◌*◌, ◌/◌, ◌^◌, ◌≤◌, ◌<◌, Ok, min};
ghost use Rattle.codes.specs.Bytes.{bit_count, bit_at, bits_at};
ghost use Rattle.codes.specs.ExpGolomb.{signed_of};
ghost use Rattle.bit_reader.specs.Gives.{Gives, u_parsed, ue_parsed, se_parsed, trailing_parsed};
ghost use Rattle.bit_reader.specs.Reading.{onward, zeros_at};
ghost use Rattle.bit_reader.specs.Extension.{more_rbsp_data, extension_bits};

use refusal::Refusal;

pub mod by_cursor;

pub use by_cursor::{flag, rbsp_trailing_bits, se, small_u, u, ue};

// Reads from bit `bit_pos` on, counted from the high bit of the first byte.
#[derive(Clone, Copy)]
pub struct BitReader<'a> {
    pub bytes: &'a [u8],
    pub bit_pos: usize,
}

// A place and the number of the first refusal (0: none), as they cross the C interface.
#[repr(C)]
#[derive(Clone, Copy)]
pub struct Cursor {
    pub at: usize,
    pub refused: u8,
}

#[repr(C)]
#[derive(Clone, Copy)]
pub struct BitsRead {
    pub value: u32,
    pub next: Cursor,
}

#[repr(C)]
#[derive(Clone, Copy)]
pub struct ByteRead {
    pub value: u8,
    pub next: Cursor,
}

#[repr(C)]
#[derive(Clone, Copy)]
pub struct SignedRead {
    pub value: i32,
    pub next: Cursor,
}

// The number of bits that can be read.
pub fn bit_count(s: &[u8]) -> usize
    ensures { result ≡ bit_count s.now }
{
    if s.len() < 0x1000_0000_0000_0000 {
        return s.len() * 8;
    }
    0x8000_0000_0000_0000
}

// Bit `at`, 0 past the end.
#[tactic(auto, unfolding(codes::specs::Bytes::bit_at))]
pub fn bit_at(s: &[u8], at: usize) -> u8
    ensures { result ≡ bit_at s.now at }
{
    let end = bit_count(s);
    if at < end {
        let i = at / 8;
        let shift = 7 - at % 8;
        return (s[i] >> shift) % 2;
    }
    0
}

// `n` bits on, and no further than the end.
#[tactic(auto, unfolding(crate::specs::Reading::onward))]
fn move_on(s: &[u8], at: usize, n: usize) -> usize
    ensures { result ≡ onward s.now at n }
{
    let end = bit_count(s);
    if at >= end {
        return at;
    }
    if n <= end - at {
        return at + n;
    }
    end
}

// The number that `n` bits spell.
#[tactic(auto, using(crate::proofs::Words::bits))]
fn bits_from(s: &[u8], at: usize, n: u32) -> u32
    requires { (at ≤ 2 ^ 63 + 32) × (n ≤ 32) }
    ensures { result ≡ bits_at s.now at n }
{
    let mut value: u32 = 0;
    for i in 0..n {
        let b = u32::from(bit_at(s, at + (i as usize)));
        value = value * 2 + b;
    }
    value
}

// The run of zero bits, at most 32.
#[tactic(auto, using(crate::proofs::Words::zeros))]
fn zeros_from(s: &[u8], at: usize) -> usize
    requires { at ≤ 2 ^ 63 }
    ensures { result ≡ zeros_at s.now at 32 }
{
    let end = bit_count(s);
    for k in 0..32 {
        let p = at + k;
        if p >= end {
            return k;
        }
        if bit_at(s, p) == 1 {
            return k;
        }
    }
    32
}

// The signed value of a code number.
#[tactic(auto, unfolding(codes::specs::ExpGolomb::signed_of))]
fn signed_of(k: u32) -> i32
    requires { k < 4294967295 }
    ensures { result ≡ signed_of k }
{
    if k % 2 == 1 {
        return (k / 2 + 1) as i32;
    }
    -((k / 2) as i32)
}

// How many bits are taken while more_rbsp_data() holds: those up to the last 1 bit but one, found by one scan from the
// end, which looks at the bits of only those bytes that are not 0.
#[tactic(auto, using(crate::proofs::Zeros::scan))]
pub fn extension_bits(s: &[u8], at: usize) -> usize
    ensures { result ≡ extension_bits s.now at }
{
    let mut seen: u8 = 0;
    for i in (at / 8..bit_count(s) / 8).rev() {
        if s[i] == 0 {
            continue;
        }
        for p in (at.max(i * 8)..i * 8 + 8).rev() {
            let b = bit_at(s, p);
            if seen + b == 2 {
                return p + 1 - at;
            }
            seen += b;
        }
    }
    0
}

// more_rbsp_data() as the Rust has it: whether two 1 bits are left, of which the last is the stop bit.
#[tactic(auto, using(crate::proofs::Zeros::more))]
pub fn more_rbsp_data(s: &[u8], at: usize) -> bool
    ensures { result ≡ more_rbsp_data s.now at }
{
    extension_bits(s, at) != 0
}

impl<'a> BitReader<'a> {
    // u(n); more than 32 bits are read as 32.
    #[tactic(auto, using(codes::specs::Bytes::bits_past), unfolding(crate::specs::Reading::u_read, crate::specs::Reading::unless_refused, crate::specs::Reading::onward, codes::specs::Bytes::bits_at, refusal::specs::Numbers::refused))]
    pub fn u(&mut self, n: u32) -> u32
        ensures { Gives (u_parsed (min n 32)) self.old self.new (Ok result) }
    {
        let at = self.bit_pos;
        let end = bit_count(self.bytes);
        if at >= end {
            return 0;
        }
        let m = n.min(32);
        self.bit_pos = move_on(self.bytes, at, m as usize);
        bits_from(self.bytes, at, m)
    }

    // u(n) of at most 8 bits; more are read as 8.
    pub fn small_u(&mut self, n: u32) -> u8
        ensures { Gives (u_parsed (min n 8)) self.old self.new (Ok result) }
    {
        let v = self.u(n.min(8));
        (v % 256) as u8
    }

    // u(1), by itself for speed.
    #[tactic(auto, using(codes::specs::Bytes::bit_past), unfolding(crate::specs::Reading::u_read, crate::specs::Reading::unless_refused, crate::specs::Reading::onward, codes::specs::Bytes::bits_at, refusal::specs::Numbers::refused))]
    pub fn flag(&mut self) -> u8
        ensures { Gives (u_parsed 1) self.old self.new (Ok result) }
    {
        let at = self.bit_pos;
        let end = bit_count(self.bytes);
        if at >= end {
            return 0;
        }
        self.bit_pos = at + 1;
        bit_at(self.bytes, at)
    }

    // ue(v).
    #[tactic(auto, unfolding(crate::specs::Reading::ue_read, crate::specs::Reading::ue_within, crate::specs::Reading::ue_after, crate::specs::Reading::unless_refused, refusal::specs::Numbers::refused, refusal::specs::Numbers::number))]
    pub fn ue(&mut self) -> Result<u32, Refusal>
        ensures { Gives ue_parsed self.old self.new result }
    {
        let at = self.bit_pos;
        let end = bit_count(self.bytes);
        if at >= end {
            return Ok(0);
        }
        let z = zeros_from(self.bytes, at);
        if z >= 32 {
            return Err(Refusal::UeTooLong);
        }
        let suffix = bits_from(self.bytes, at + z + 1, z as u32);
        self.bit_pos = move_on(self.bytes, at, z * 2 + 1);
        Ok((1u32 << z) - 1 + suffix)
    }

    // se(v).
    pub fn se(&mut self) -> Result<i32, Refusal>
        ensures { Gives se_parsed self.old self.new result }
    {
        let k = self.ue()?;
        Ok(signed_of(k))
    }

    // rbsp_trailing_bits(): a 1, then zeros up to the next byte.
    #[tactic(auto, unfolding(crate::specs::Reading::trailing_read, refusal::specs::Numbers::refused, refusal::specs::Numbers::number))]
    pub fn rbsp_trailing_bits(&mut self) -> Result<(), Refusal>
        ensures { Gives trailing_parsed self.old self.new result }
    {
        let at = self.bit_pos;
        let end = bit_count(self.bytes);
        if at >= end {
            return Err(Refusal::NoStopBit);
        }
        if bit_at(self.bytes, at) != 1 {
            return Err(Refusal::TrailingBits);
        }
        let rest = 7 - at % 8;
        if bits_from(self.bytes, at + 1, rest as u32) != 0 {
            return Err(Refusal::TrailingBits);
        }
        self.bit_pos = at / 8 * 8 + 8;
        Ok(())
    }

    pub fn extension_bits(&self) -> usize
        ensures { result ≡ extension_bits self.now.bytes.now self.now.bit_pos }
    {
        extension_bits(self.bytes, self.bit_pos)
    }

    pub fn more_rbsp_data(&self) -> bool
        ensures { result ≡ more_rbsp_data self.now.bytes.now self.now.bit_pos }
    {
        more_rbsp_data(self.bytes, self.bit_pos)
    }
}
