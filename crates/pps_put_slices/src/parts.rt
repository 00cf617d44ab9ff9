// The parts of an entry of the slice loop (H.266 7.3.2.5): width and height, explicit slice heights, and the way to
// the next tile.
ghost use Rattle.std.specs.Prelude.{◌≡◌, true, cond, ◌*◌, ◌≤◌, ltb, length, IfOk};
ghost use Rattle.bit_writer.specs.Stop.{play_on};
ghost use Rattle.bit_writer.specs.Written.{written, ended};
ghost use Rattle.partition.specs.Entry.{tile_after_delta, default_advance};
ghost use Rattle.pps_put_slices.specs.Parts.{size_in_tiles, split_symbols, last_in, move_symbols};

use super::sizes::{put_size, put_sizes};
use bit_writer::{BitWriter, test};
use pps_tables::RectSliceEntry;
use refusal::Refusal;
use slice_loop::{CtbCount, SliceIdx, SliceLoopCtx, TileIdx};
use tile_sizes::num_slices_in_tile;

// Width and height; 15 where one of them passes the grid.
pub fn put_size_in_tiles(
    w: &mut BitWriter,
    out: &mut [u8],
    ctx: SliceLoopCtx,
    tile: TileIdx,
    width: u32,
    height: u32,
) -> Result<(), Refusal>
    ensures { ended w.new out.new result
        ≡ play_on (written w.old out.old)
        (size_in_tiles ctx.num_tile_columns ctx.num_tile_rows ctx.delta_present tile.0
        width height) }
{
    test(width < ctx.columns_left(tile), Refusal::SlicePastGrid)?;
    test(height < ctx.rows_left(tile), Refusal::SlicePastGrid)?;
    if ctx.width_coded(tile) {
        w.put_ue(out, width)?;
    }
    if ctx.height_coded(tile) {
        w.put_ue(out, height)?;
    }
    Ok(())
}

// The explicit slice heights, where the entry is one tile of several CTB rows, and the index of the entry's last
// slice; 26 where the presence flag contradicts, 16, 17.
pub fn put_split(
    w: &mut BitWriter,
    out: &mut [u8],
    ctx: SliceLoopCtx,
    slice: SliceIdx,
    row: CtbCount,
    split: bool,
    present: u32,
    heights: &[u32],
) -> Result<SliceIdx, Refusal>
    requires { length heights.now ≤ 4294967295 }
    ensures put { ended w.new out.new result
        ≡ play_on (written w.old out.old)
        (split_symbols split row.0 ctx.num_slices_minus1.0 slice.0 present heights.now) }
    ensures last { IfOk result (λ last. last.0 ≡ last_in slice.0 split row.0 heights.now) }
{
    test((present != 0) == split, Refusal::Contradiction)?;
    let count = if split {
        put_size(w, out, row.0, Refusal::SplitHeights, heights.len() as u32)?;
        put_sizes(w, out, row.0, Refusal::SplitHeights, heights)?;
        num_slices_in_tile(heights, row)?
    } else {
        1
    };
    test(
        !ctx.too_many_slices(slice, count),
        Refusal::TooManySplitSlices,
    )?;
    Ok(SliceIdx(slice.0 + (count - 1)))
}

// pps_tile_idx_delta_val, or the default advance, and the next slice's tile: the same where no slice is to come; 26
// where the presence flag contradicts, 25, 18, 19.
pub fn put_move(
    w: &mut BitWriter,
    out: &mut [u8],
    ctx: SliceLoopCtx,
    tile: TileIdx,
    last: SliceIdx,
    e: RectSliceEntry,
) -> Result<TileIdx, Refusal>
    requires { ctx.num_tile_rows * ctx.num_tile_columns ≤ 4294967295 }
    ensures put { let tiles = ctx.num_tile_rows * ctx.num_tile_columns in
        let more = ltb last.0 ctx.num_slices_minus1.0 in
        ended w.new out.new result
        ≡ play_on (written w.old out.old)
        (move_symbols ctx.num_tile_columns tiles ctx.delta_present more tile.0
        e.width e.height e.delta_present e.delta) }
    ensures tile { IfOk result (λ t. ltb last.0 ctx.num_slices_minus1.0 ≡ true
        → t.0 ≡ cond ctx.delta_present (tile_after_delta tile.0 e.delta)
        (default_advance ctx.num_tile_columns tile.0 e.width e.height)) }
{
    let more = ctx.slices_to_come(last);
    let coded = ctx.delta_present & more;
    test((e.delta_present != 0) == coded, Refusal::Contradiction)?;
    if coded {
        w.put_se(out, e.delta)?;
        let tile = ctx.apply_delta(tile, e.delta)?;
        return Ok(tile);
    }
    if more {
        let tile = ctx.default_advance(tile, e.width, e.height);
        test(ctx.has_tile(tile), Refusal::WalkLeavesGrid)?;
        return Ok(tile);
    }
    Ok(tile)
}
