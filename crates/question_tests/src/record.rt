// The tests before the partition's own: tables and counts, the picture's size, flags, and whether the partition is
// rightly present.
ghost use Rattle.std.specs.Prelude.{◌≡◌};
ghost use Rattle.refusal.specs.Numbers.{refused};
ghost use Rattle.partition.specs.Checks.{first_bad, number_of};
ghost use Rattle.pps_tables.specs.Lent.{lent_of};
ghost use Rattle.question_tests.specs.Questions.{flag_over1, record_checks};

use pps_lent::lent_fits;
use pps_record::{VvcPps, VvcPpsPartition};
use pps_tables::LentTables;
use refusal::Refusal;

#[tactic(auto, unfolding(crate::specs::Questions::flag_over1))]
fn flag_over_1(p: &VvcPpsPartition) -> bool
    ensures { result ≡ flag_over1 p.now }
{
    p.pps_loop_filter_across_tiles_enabled_flag > 1
        || p.pps_rect_slice_flag > 1
        || p.pps_single_slice_per_subpic_flag > 1
        || p.pps_tile_idx_delta_present_flag > 1
        || p.pps_loop_filter_across_slices_enabled_flag > 1
}

// 5, 7 or 26: the tests before the partition's own.
#[tactic(auto, unfolding(crate::specs::Questions::record_checks, partition::specs::Checks::first_bad, partition::specs::Checks::number_of, refusal::specs::Numbers::refused, refusal::specs::Numbers::number,))]
pub fn record_refusal(pps: &VvcPps, lent: LentTables<'_>) -> Result<(), Refusal>
    ensures { refused result ≡ number_of (first_bad (record_checks pps.now (lent_of lent.entry))) }
{
    if !lent_fits(pps, lent) {
        return Err(Refusal::TableTooShort);
    }
    if pps.pps_pic_width_in_luma_samples == 0 || pps.pps_pic_height_in_luma_samples == 0 {
        return Err(Refusal::EmptyPicture);
    }
    if pps.pps_no_pic_partition_flag > 1 {
        return Err(Refusal::Contradiction);
    }
    let present = pps.partition.present != 0;
    if present && flag_over_1(&pps.partition) {
        return Err(Refusal::Contradiction);
    }
    if present == (pps.pps_no_pic_partition_flag != 0) {
        return Err(Refusal::Contradiction);
    }
    Ok(())
}
