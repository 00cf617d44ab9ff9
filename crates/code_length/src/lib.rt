// How many bits the ue(v) code of a value takes (H.266 9.2).
#![tactic(auto)]

ghost use Rattle.std.specs.Prelude.{◌≡◌, ◌<◌};
ghost use Rattle.codes.specs.ExpGolomb.{ue_length};
ghost use Rattle.code_length.specs.UeSize.{ue_size_of};

mod table;

use refusal::Refusal;
use table::UE_LENGTHS;

fn tabled(v: u32) -> u8
    requires { v < 1024 }
    ensures { result ≡ ue_length v }
{
    UE_LENGTHS[v as usize]
}

// Twice the place of the highest 1 of v + 1, plus 1.
fn by_rule(v: u32) -> u32
    requires { v < 4294967295 }
    ensures { result ≡ ue_length v }
{
    (v + 1).ilog2() * 2 + 1
}

// 4294967295 has no code.
#[tactic(auto, unfolding(crate::specs::UeSize::ue_size_of))]
pub fn ue_size(v: u32) -> Result<u32, Refusal>
    ensures { result ≡ ue_size_of v }
{
    if v < 1024 {
        return Ok(tabled(v) as u32);
    }
    if v == 4294967295 {
        return Err(Refusal::NoCode);
    }
    Ok(by_rule(v))
}
