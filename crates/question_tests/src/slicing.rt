// The tests of a partition whose grid is accepted: those before the slice loop, and the loop's.
ghost use Rattle.std.specs.Prelude.{◌≡◌};
ghost use Rattle.refusal.specs.Numbers.{refused};
ghost use Rattle.grid_sizes.specs.Fronts.{grid_in};
ghost use Rattle.partition.specs.Checks.{first_bad, number_of};
ghost use Rattle.pps_syntax.specs.BlockRefusal.{declined_with};
ghost use Rattle.pps_syntax.specs.PartitionSyntax.{coded};
ghost use Rattle.pps_tables.specs.Lent.{slices_of};
ghost use Rattle.syntax.specs.Elements.{is_set};
ghost use Rattle.question_tests.specs.Questions.{slicing_checks, sliced_in};

use super::walk::walk_refusal;
use grid_sizes::GridSizes;
use pps_record::VvcPpsPartition;
use pps_tables::SliceTables;
use refusal::Refusal;
use slice_loop::SliceIdx;
use tile_sizes::MAX_NUM_SLICES_MINUS1;

// 26 or 14: the tests before the slice loop.
#[tactic(auto, unfolding(crate::specs::Questions::slicing_checks, partition::specs::Checks::first_bad, partition::specs::Checks::number_of, refusal::specs::Numbers::refused, refusal::specs::Numbers::number,))]
fn before_loop(tiles: u64, p: &VvcPpsPartition) -> Result<(), Refusal>
    ensures { let sliced = coded p.now.pps_rect_slice_flag p.now.pps_single_slice_per_subpic_flag in
        let deltas = is_set p.now.pps_tile_idx_delta_present_flag in
        refused result ≡ number_of (first_bad (slicing_checks tiles (is_set p.now.pps_rect_slice_flag) sliced
        p.now.pps_num_slices_in_pic_minus1 deltas p.now.num_rect_slices)) }
{
    if tiles <= 1 && p.pps_rect_slice_flag == 0 {
        return Err(Refusal::Contradiction);
    }
    if !p.slices_coded() {
        if p.num_rect_slices != 0 {
            return Err(Refusal::Contradiction);
        }
        return Ok(());
    }
    let n = p.pps_num_slices_in_pic_minus1;
    if n > MAX_NUM_SLICES_MINUS1 {
        return Err(Refusal::TooManySlices);
    }
    if p.pps_tile_idx_delta_present_flag != 0 && n < 2 {
        return Err(Refusal::Contradiction);
    }
    Ok(())
}

// The tests of a partition's slices in its grid.
pub fn slicing_refusal(
    sizes: &GridSizes,
    p: &VvcPpsPartition,
    slices: SliceTables<'_>,
) -> Result<(), Refusal>
    ensures { refused result ≡ declined_with (sliced_in (grid_in sizes.now) p.now (slices_of slices.entry)) }
{
    before_loop(sizes.num_tiles(), p)?;
    if !p.slices_coded() {
        return Ok(());
    }
    walk_refusal(
        sizes.column_widths(),
        sizes.row_heights(),
        p.pps_tile_idx_delta_present_flag != 0,
        SliceIdx(p.pps_num_slices_in_pic_minus1),
        p.num_rect_slices,
        slices,
    )
}
