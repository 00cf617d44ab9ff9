// Elements behind a test, and elements that are written only under a condition.
ghost use Rattle.std.specs.Prelude.{ℤ, ◌≡◌, ◌++◌, ◌^◌, min, ltb, leb};
ghost use Rattle.codes.specs.Coded.{ue_symbols};
ghost use Rattle.codes.specs.Symbols.{check};
ghost use Rattle.refusal.specs.Numbers.{number};
ghost use Rattle.bit_writer.specs.Stop.{play_on};
ghost use Rattle.bit_writer.specs.Written.{written, ended};
ghost use Rattle.syntax.specs.Elements.{u};
ghost use Rattle.syntax.proofs.Elements.{flag_if};
ghost use Rattle.pps_syntax.specs.Offsets.{in_range, offset, offset_or};

use bit_writer::{BitWriter, test};
use refusal::Refusal;

// Whether `v` has at most `n` bits; more than 32 are taken as 32.
fn holds(v: u32, n: u32) -> bool
    ensures { result ≡ ltb v (2 ^ min n 32) }
{
    u64::from(v) < 1u64 << n.min(32)
}

// u(n), refused where `v` does not fit; more than 32 bits are taken as 32.
pub fn put_u(
    w: &mut BitWriter,
    out: &mut [u8],
    v: u32,
    n: u32,
    refusal: Refusal,
) -> Result<(), Refusal>
    ensures { ended w.new out.new result
        ≡ play_on (written w.old out.old) ((u (min n 32) (number refusal)).symbols v) }
{
    test(holds(v, n), refusal)?;
    w.put_bits(out, v, n);
    Ok(())
}

// ue(v) of at most `limit`.
pub fn put_ue_at_most(
    w: &mut BitWriter,
    out: &mut [u8],
    v: u32,
    limit: u32,
    refusal: Refusal,
) -> Result<(), Refusal>
    ensures { ended w.new out.new result
        ≡ play_on (written w.old out.old) (check (leb v limit) (number refusal) ++ ue_symbols v) }
{
    test(v <= limit, refusal)?;
    w.put_ue(out, v)
}

// A QP or deblocking offset, one of -12 to 12.
pub fn put_offset(w: &mut BitWriter, out: &mut [u8], v: i32) -> Result<(), Refusal>
    ensures { ended w.new out.new result ≡ play_on (written w.old out.old) (offset.symbols v) }
{
    test((-12..=12).contains(&v), Refusal::QpOffset)?;
    w.put_se(out, v)
}

pub fn put_offset_if(w: &mut BitWriter, out: &mut [u8], on: bool, v: i32) -> Result<(), Refusal>
    ensures { (inferred : ℤ) → ended w.new out.new result
        ≡ play_on (written w.old out.old) ((offset_or on inferred).symbols v) }
{
    if on { put_offset(w, out, v) } else { Ok(()) }
}

pub fn put_flag_if(w: &mut BitWriter, out: &mut [u8], on: bool, v: u8)
    ensures { written w.new out.new ≡ play_on (written w.old out.old) ((flag_if on).symbols v) }
{
    if on {
        w.put_flag(out, v);
    }
}
