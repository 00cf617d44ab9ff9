// The record that stands beside a refusal.
ghost use Rattle.std.specs.Prelude.{◌≡◌};
ghost use Rattle.vvc_pps.specs.PpsAnswer.{no_pps};

use pps_record::VvcPps;

#[tactic(auto, unfolding(crate::specs::PpsAnswer::no_pps, pps_record::specs::Absent::no_partition))]
pub fn no_pps() -> VvcPps
    ensures { result ≡ no_pps }
{
    VvcPps::default()
}
