// One entry of the slice loop (H.266 7.3.2.5).
ghost use Rattle.std.specs.Prelude.{◌≡◌, ◌*◌, ◌≤◌, length};
ghost use Rattle.partition.specs.Grid.{Grid};
ghost use Rattle.bit_writer.specs.Written.{written, ended};
ghost use Rattle.slice_loop.specs.Loop.{LoopOver, position_of};
ghost use Rattle.pps_put_slices.specs.EntryPut.{rect_slice_of, EntryPut};

use super::parts::{put_move, put_size_in_tiles, put_split};
use bit_writer::BitWriter;
use pps_tables::RectSliceEntry;
use refusal::Refusal;
use slice_loop::{LoopPosition, SliceLoopCtx};

// The entry at a place of the loop, with its split heights; where the next one stands. An uncoded height is not looked
// at, but for the grid: the walk goes by it.
pub fn put_rect_slice(
    w: &mut BitWriter,
    out: &mut [u8],
    row_heights: &[u32],
    ctx: SliceLoopCtx,
    at: LoopPosition,
    e: RectSliceEntry,
    heights: &[u32],
) -> Result<LoopPosition, Refusal>
    requires { (length heights.now ≤ 4294967295) × (ctx.num_tile_rows * ctx.num_tile_columns ≤ 4294967295) }
    ensures { (g : Grid) → LoopOver ctx row_heights.now g
        → EntryPut g ctx.delta_present ctx.num_slices_minus1.0 (position_of at)
        (rect_slice_of e heights.now)
        (written w.old out.old) (ended w.new out.new result) result }
{
    put_size_in_tiles(w, out, ctx, at.tile, e.width, e.height)?;
    let row = ctx.row_height(row_heights, at.tile);
    let split = SliceLoopCtx::exp_block(e.width, e.height, row);
    let last = put_split(w, out, ctx, at.slice, row, split, e.split_present, heights)?;
    let tile = put_move(w, out, ctx, at.tile, last, e)?;
    Ok(LoopPosition {
        slice: ctx.slice_after(last),
        tile,
        preceding_height: e.height,
    })
}
