// The readers of the blocks of a picture parameter set (the Rust's parse_pps) that stand around the partition block.
#![tactic(auto)]

ghost use Rattle.std.specs.Prelude.{cond, ◌≡◌, ◌+◌, ◌<◌};

pub mod chroma;
pub mod deblocking;
pub mod subpic_ids;

// The number of values of a list that is coded where `on`, its length being coded minus 1.
fn counted(on: bool, minus1: u32) -> u32
    requires { minus1 < 4294967295 }
    ensures { result ≡ cond on (minus1 + 1) 0 }
{
    if on {
        return minus1 + 1;
    }
    0
}
