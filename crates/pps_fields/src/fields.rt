// Single fields: with a limit (H.266 7.4.3.5), or coded under a condition alone and else inferred.
ghost use Rattle.std.specs.Prelude.{◌≡◌, ◌≤◌, ◌<◌, Ok, IfOk, ℕ, leb, ltb};
ghost use Rattle.refusal.specs.Numbers.{number};
ghost use Rattle.bit_reader.specs.Gives.{Gives, tested, ue_parsed};
ghost use Rattle.syntax.specs.Elements.{flag, ue, se, limited, sameℕ, sameℤ, or_else};
ghost use Rattle.syntax.proofs.Elements.{absent};
ghost use Rattle.pps_syntax.specs.Offsets.{in_range, offset, offset_or};

use bit_reader::BitReader;
use refusal::Refusal;

// The next three differ in what they read: at a call, a closure for it would be no plainer than the name.
pub fn flag_or(r: &mut BitReader<'_>, on: bool, inferred: u8) -> u8
    ensures { (n : ℕ) → Gives (or_else on flag (absent sameℕ inferred n)).read r.old r.new (Ok result) }
{
    if on { r.flag() } else { inferred }
}

pub fn ue_or(r: &mut BitReader<'_>, on: bool, inferred: u32) -> Result<u32, Refusal>
    ensures { (n : ℕ) → Gives (or_else on ue (absent sameℕ inferred n)).read r.old r.new result }
{
    if on { r.ue() } else { Ok(inferred) }
}

pub fn se_or(r: &mut BitReader<'_>, on: bool, inferred: i32) -> Result<i32, Refusal>
    ensures { (n : ℕ) → Gives (or_else on se (absent sameℤ inferred n)).read r.old r.new result }
{
    if on { r.se() } else { Ok(inferred) }
}

// ue(v) of at most `limit`.
pub fn ue_at_most(r: &mut BitReader<'_>, limit: u32, refusal: Refusal) -> Result<u32, Refusal>
    ensures value { Gives (tested (λ v. leb v limit) (number refusal) ue_parsed) r.old r.new result }
    ensures limit { IfOk result (λ v. v ≤ limit) }
{
    let v = r.ue()?;
    if v > limit {
        return Err(refusal);
    }
    Ok(v)
}

// The same, 0 where it isn't coded.
pub fn ue_at_most_or(
    r: &mut BitReader<'_>,
    on: bool,
    limit: u32,
    refusal: Refusal,
) -> Result<u32, Refusal>
    ensures value { (n : ℕ) (l : 0 < number refusal)
        → Gives (or_else on (limited ue (λ v. leb v limit) (number refusal) l) (absent sameℕ 0 n)).read
        r.old r.new result }
    ensures limit { IfOk result (λ v. v ≤ limit) }
{
    if on {
        ue_at_most(r, limit, refusal)
    } else {
        Ok(0)
    }
}

// ue(v) below `bound`, which may be 0: so it is no limit minus 1.
pub fn ue_below(r: &mut BitReader<'_>, bound: u32, refusal: Refusal) -> Result<u32, Refusal>
    ensures value { Gives (tested (λ v. ltb v bound) (number refusal) ue_parsed) r.old r.new result }
    ensures bound { IfOk result (λ v. v < bound) }
{
    let v = r.ue()?;
    if v >= bound {
        return Err(refusal);
    }
    Ok(v)
}

// An offset of −12 to 12.
pub fn read_offset(r: &mut BitReader<'_>) -> Result<i32, Refusal>
    ensures { Gives offset.read r.old r.new result }
{
    let v = r.se()?;
    if !(-12..=12).contains(&v) {
        return Err(Refusal::QpOffset);
    }
    Ok(v)
}

// The same, the inferred value where it isn't coded.
pub fn offset_or(r: &mut BitReader<'_>, on: bool, inferred: i32) -> Result<i32, Refusal>
    ensures { Gives (offset_or on inferred).read r.old r.new result }
{
    if on { read_offset(r) } else { Ok(inferred) }
}
