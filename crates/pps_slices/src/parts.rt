// The parts of an entry of the slice loop (H.266 7.3.2.5): width, height, explicit slice heights, the way to the next
// tile.
ghost use Rattle.std.specs.Prelude.{◌≡◌, ◌*◌, ◌≤◌, cond, eqb, ltb};
ghost use Rattle.std.proofs.lemmas.List.Edits.{sets};
ghost use Rattle.bit_reader.specs.Gives.{Gives, held_as, value_read};
ghost use Rattle.syntax.specs.Syntax.{parse};
ghost use Rattle.pps_slices.specs.Parts.{size_part, width_part, height_part, split_part, split_kept, delta_part, move_kept};

use bit_reader::BitReader;
use pps_fields::fields::{ue_below, ue_or};
use pps_fields::lists::read_axis;
use refusal::Refusal;
use slice_loop::{CtbCount, SliceIdx, SliceLoopCtx, TileIdx};

// ue(v) or an inferred value, below what is left of the grid.
fn size_in_tiles(
    r: &mut BitReader<'_>,
    coded: bool,
    inferred: u32,
    left: u32,
) -> Result<u32, Refusal>
    ensures { Gives (size_part coded inferred left) r.old r.new result }
{
    let v = ue_or(r, coded, inferred)?;
    if v >= left {
        return Err(Refusal::SlicePastGrid);
    }
    Ok(v)
}

pub fn read_width(r: &mut BitReader<'_>, ctx: SliceLoopCtx, tile: TileIdx) -> Result<u32, Refusal>
    ensures { Gives (width_part ctx.num_tile_columns tile.0) r.old r.new result }
{
    size_in_tiles(r, ctx.width_coded(tile), 0, ctx.columns_left(tile))
}

// The height, where it isn't coded from that of the preceding slice index.
pub fn read_height(
    r: &mut BitReader<'_>,
    ctx: SliceLoopCtx,
    tile: TileIdx,
    preceding: u32,
) -> Result<u32, Refusal>
    ensures { Gives (height_part ctx.num_tile_columns ctx.num_tile_rows ctx.delta_present tile.0 preceding)
        r.old r.new result }
{
    let coded = ctx.height_coded(tile);
    let inherited = ctx.inherited_height(tile, preceding);
    size_in_tiles(r, coded, inherited, ctx.rows_left(tile))
}

// The number of explicit slice heights, where the tile is split, and its last slice.
#[derive(Clone, Copy)]
pub struct SplitRead {
    pub count: Option<u32>,
    pub last: SliceIdx,
}

// NumSlicesInTile of 6.5.1, equation 21: one where there is no explicit height.
fn num_slices_in_tile(count: u32, sizes: u32) -> u32
    ensures { result ≡ cond (eqb count 0) 1 sizes }
{
    if count == 0 { 1 } else { sizes }
}

// The explicit slice heights where the tile is split, into their table from place `from` on; a call with its condition,
// as `ue_or`, keeps the entry a straight line.
pub fn read_split(
    r: &mut BitReader<'_>,
    split: bool,
    row: CtbCount,
    ctx: SliceLoopCtx,
    slice: SliceIdx,
    split_heights: &mut [u32],
    from: usize,
) -> Result<SplitRead, Refusal>
    requires { slice.0 ≤ ctx.num_slices_minus1.0 }
    ensures gives { Gives (held_as (split_kept split row.0 slice.0)
        (parse (split_part split row.0 ctx.num_slices_minus1.0 slice.0))) r.old r.new result }
    ensures table { split_heights.new
        ≡ sets split_heights.old from
        (value_read (parse (split_part split row.0 ctx.num_slices_minus1.0 slice.0)) r.old) }
{
    if !split {
        return Ok(SplitRead {
            count: None,
            last: slice,
        });
    }
    let count = ue_below(r, row.0, Refusal::SplitHeights)?;
    let left = ctx.num_slices_minus1.0 - slice.0;
    if count as u64 > left as u64 + 1 {
        return Err(Refusal::TooManySplitSlices);
    }
    let heights = read_axis(r, count, row, Refusal::SplitHeights, split_heights, from)?;
    let sizes = heights.sizes.ok_or(Refusal::SplitHeights)?;
    let slices = num_slices_in_tile(heights.count, sizes);
    if ctx.too_many_slices(slice, slices) {
        return Err(Refusal::TooManySplitSlices);
    }
    Ok(SplitRead {
        count: Some(heights.count),
        last: SliceIdx(slice.0 + (slices - 1)),
    })
}

// The delta, where one is coded, and the next slice's tile: the same where no slice is to come.
#[derive(Clone, Copy)]
pub struct MoveRead {
    pub delta: Option<i32>,
    pub tile: TileIdx,
}

// The way to the next slice's tile: pps_tile_idx_delta_val, or the default advance.
pub fn read_move(
    r: &mut BitReader<'_>,
    ctx: SliceLoopCtx,
    tile: TileIdx,
    last: SliceIdx,
    width: u32,
    height: u32,
) -> Result<MoveRead, Refusal>
    requires { ctx.num_tile_rows * ctx.num_tile_columns ≤ 4294967295 }
    ensures { Gives (held_as
        (move_kept ctx.num_tile_columns ctx.delta_present (ltb last.0 ctx.num_slices_minus1.0) tile.0 width height)
        (parse (delta_part ctx.num_tile_columns (ctx.num_tile_rows * ctx.num_tile_columns) ctx.delta_present
        (ltb last.0 ctx.num_slices_minus1.0) tile.0 width height))) r.old r.new result }
{
    if !ctx.slices_to_come(last) {
        return Ok(MoveRead { delta: None, tile });
    }
    if ctx.delta_present {
        let delta = r.se()?;
        let by_delta = ctx.apply_delta(tile, delta)?;
        return Ok(MoveRead {
            delta: Some(delta),
            tile: by_delta,
        });
    }
    let by_default = ctx.default_advance(tile, width, height);
    if !ctx.has_tile(by_default) {
        return Err(Refusal::WalkLeavesGrid);
    }
    Ok(MoveRead {
        delta: None,
        tile: by_default,
    })
}
