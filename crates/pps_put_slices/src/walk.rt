// The slice loop over the entries in their tables.
ghost use Rattle.std.specs.Prelude.{◌≡◌, ◌≤◌, length};
ghost use Rattle.partition.specs.Entry.{first_position};
ghost use Rattle.partition.specs.Grid.{grid_with, max_tile_columns, max_tiles};
ghost use Rattle.pps_syntax.specs.SliceSyntax.{rect_slices};
ghost use Rattle.pps_syntax.specs.SliceTables.{slices_from};
ghost use Rattle.pps_tables.specs.Lent.{slices_of};
ghost use Rattle.bit_writer.specs.Stop.{play_on};
ghost use Rattle.bit_writer.specs.Written.{written, ended};

use super::entry::put_rect_slice;
use bit_writer::{BitWriter, test};
use pps_tables::SliceTables;
use refusal::Refusal;
use slice_loop::{LoopPosition, SliceIdx, SliceLoopCtx};

// From tile 0 and slice 0, while the slice index is below N; 26 where `count` is not the number of entries that it
// takes.
pub fn put_entries(
    w: &mut BitWriter,
    out: &mut [u8],
    column_widths: &[u32],
    row_heights: &[u32],
    deltas_coded: bool,
    n: SliceIdx,
    count: u32,
    slices: SliceTables<'_>,
) -> Result<(), Refusal>
    requires { (length column_widths.now ≤ max_tile_columns) × (length row_heights.now ≤ max_tiles) }
    ensures { let g = grid_with column_widths.now row_heights.now in
        let entries = slices_from (slices_of slices.entry) 0 0 count in
        ended w.new out.new result
        ≡ play_on (written w.old out.old)
        ((rect_slices g deltas_coded n.0 first_position).symbols entries) }
{
    let ctx = SliceLoopCtx {
        num_tile_columns: column_widths.len() as u32,
        num_tile_rows: row_heights.len() as u32,
        delta_present: deltas_coded,
        num_slices_minus1: n,
    };
    let mut at = LoopPosition::FIRST;
    let mut from: usize = 0;
    for i in 0..count {
        test(ctx.slices_to_come(at.slice), Refusal::Contradiction)?;
        let heights = slices.split_heights_of(i, from);
        let e = slices.entry(i);
        at = put_rect_slice(w, out, row_heights, ctx, at, e, heights)?;
        from += heights.len();
    }
    test(!ctx.slices_to_come(at.slice), Refusal::Contradiction)
}
