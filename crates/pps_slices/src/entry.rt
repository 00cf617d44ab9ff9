// One entry of the slice loop (H.266 7.3.2.5).
ghost use Rattle.std.specs.Prelude.{◌*◌, ◌≤◌, ◌≡◌};
ghost use Rattle.std.proofs.lemmas.List.Edits.{sets};
ghost use Rattle.partition.specs.Grid.{Grid};
ghost use Rattle.pps_slices.specs.Entries.{EntryRead, heights_read};
ghost use Rattle.slice_loop.specs.Loop.{LoopOver, position_of};

use super::parts::{read_height, read_move, read_split, read_width};
use bit_reader::BitReader;
use refusal::Refusal;
use slice_loop::{LoopPosition, SliceLoopCtx};

// An entry, but for its explicit slice heights, which are in their table; and where the next one stands.
#[derive(Clone, Copy, PartialEq, Eq, Debug)]
pub struct RectSliceRead {
    pub width: u32,
    pub height: u32,
    pub split_count: Option<u32>,
    pub delta: Option<i32>,
    pub next: LoopPosition,
}

// The entry at a place of the loop; its explicit slice heights go into the table from place `from` on, and stay there
// where the entry is refused.
pub fn read_rect_slice(
    r: &mut BitReader<'_>,
    row_heights: &[u32],
    ctx: SliceLoopCtx,
    at: LoopPosition,
    split_heights: &mut [u32],
    from: usize,
) -> Result<RectSliceRead, Refusal>
    requires { (at.slice.0 ≤ ctx.num_slices_minus1.0)
        × (ctx.num_tile_rows * ctx.num_tile_columns ≤ 4294967295) }
    ensures gives { (g : Grid) → LoopOver ctx row_heights.now g
        → EntryRead g ctx.delta_present ctx.num_slices_minus1.0 (position_of at) r.old r.new result }
    ensures table { (g : Grid) → LoopOver ctx row_heights.now g
        → split_heights.new ≡ sets split_heights.old from
        (heights_read g ctx.delta_present ctx.num_slices_minus1.0 (position_of at) r.old) }
{
    let width = read_width(r, ctx, at.tile)?;
    let height = read_height(r, ctx, at.tile, at.preceding_height)?;
    let row = ctx.row_height(row_heights, at.tile);
    let split = SliceLoopCtx::exp_block(width, height, row);
    let heights = read_split(r, split, row, ctx, at.slice, split_heights, from)?;
    let to_next = read_move(r, ctx, at.tile, heights.last, width, height)?;
    let slice = ctx.slice_after(heights.last);
    Ok(RectSliceRead {
        width,
        height,
        split_count: heights.count,
        delta: to_next.delta,
        next: LoopPosition {
            slice,
            tile: to_next.tile,
            preceding_height: height,
        },
    })
}
