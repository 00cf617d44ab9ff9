// The slice loop over the entries in their tables.
ghost use Rattle.std.specs.Prelude.{◌≡◌, ◌≤◌, length};
ghost use Rattle.refusal.specs.Numbers.{refused};
ghost use Rattle.partition.specs.Entry.{asking, first_position};
ghost use Rattle.partition.specs.Grid.{max_tile_columns, max_tiles, max_slices_minus1};
ghost use Rattle.partition.specs.Walk.{walk};
ghost use Rattle.pps_syntax.specs.WalkRefusal.{walk_refusal};
ghost use Rattle.pps_tables.specs.Lent.{slices_of};
ghost use Rattle.question_tests.specs.Questions.{entries_in};
ghost use Rattle.question_tests.specs.Steps.{grid_before};

use super::entry::entry_step;
use pps_tables::SliceTables;
use refusal::Refusal;
use slice_loop::{LoopPosition, SliceIdx, SliceLoopCtx};

// The tests of the slice loop over `count` entries.
pub fn walk_refusal(
    column_widths: &[u32],
    row_heights: &[u32],
    deltas_on: bool,
    n: SliceIdx,
    count: u32,
    slices: SliceTables<'_>,
) -> Result<(), Refusal>
    requires { (length column_widths.now ≤ max_tile_columns) × (length row_heights.now ≤ max_tiles)
        × (n.0 ≤ max_slices_minus1) }
    ensures { let g = grid_before column_widths row_heights in
        let es = entries_in (slices_of slices.entry) count in
        refused result ≡ walk_refusal (walk asking g deltas_on n.0 first_position es) }
{
    let ctx = SliceLoopCtx {
        num_tile_columns: column_widths.len() as u32,
        num_tile_rows: row_heights.len() as u32,
        delta_present: deltas_on,
        num_slices_minus1: n,
    };
    let mut at = LoopPosition::FIRST;
    let mut from: usize = 0;
    for i in 0..count {
        if !ctx.slices_to_come(at.slice) {
            return Err(Refusal::Contradiction);
        }
        let heights = slices.split_heights_of(i, from);
        at = entry_step(ctx, row_heights, at, slices.entry(i), heights)?;
        from += heights.len();
    }
    if ctx.slices_to_come(at.slice) {
        return Err(Refusal::Contradiction);
    }
    Ok(())
}
