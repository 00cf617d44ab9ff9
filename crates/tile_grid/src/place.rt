// The slice loop over accepted entries: the groups of tiles that they place, and their slices (H.266 6.5.1,
// equation 21).
ghost use Rattle.std.specs.Prelude.{◌≡◌, List, ◌+◌, ◌-◌, ◌≤◌, ◌<◌, length, get_or};
ghost use Rattle.partition.specs.Entry.{split_heights};
ghost use Rattle.partition.specs.Grid.{grid_with, tiles, max_slices_minus1, max_slices};
ghost use Rattle.partition.specs.Groups.{Group, stacked, plan};
ghost use Rattle.partition.specs.Sizes.{Fit};
ghost use Rattle.partition.specs.Walk.{placed};
ghost use Rattle.pps_tables.specs.Lent.{slices_of};
ghost use Rattle.question_tests.specs.Sliced.{walked};
ghost use Rattle.question_tests.specs.Steps.{grid_before};
ghost use Rattle.tile_grid.specs.Placed.{placed_of};
ghost use Rattle.tile_grid.specs.Stacking.{put_plan};
ghost use Rattle.tile_grid.specs.Starts.{StartsAt};

use super::SliceRect;
use super::placed::{Placed, TileGroup};
use super::stack::stack;
use pps_record::VvcPpsPartition;
use pps_tables::SliceTables;
use question_tests::tiles::next_tile;
use slice_loop::{CtbCount, LoopPosition, SliceIdx, SliceLoopCtx};

// The slices of a group, from tables of where columns and rows begin.
fn place_group(
    column_starts: &[u32],
    row_starts: &[u32],
    group: TileGroup,
    heights_minus1: &[u32],
    slices: &mut [SliceRect],
    slice: SliceIdx,
) -> SliceIdx
    requires { let left = get_or column_starts.now group.x 0 in
        let right = get_or column_starts.now (group.x + group.columns) 0 in
        let top = get_or row_starts.now group.y 0 in
        let bottom = get_or row_starts.now (group.y + group.rows) 0 in
        (group.x + group.columns < length column_starts.now) × (group.y + group.rows < length row_starts.now)
        × (left ≤ right) × (top < bottom) × Fit heights_minus1.now (bottom - top)
        × (slice.0 + length (split_heights heights_minus1.now (bottom - top)) ≤ max_slices)
        × (group.x + group.columns ≤ 4294967295) × (group.y + group.rows ≤ 4294967295) × (bottom ≤ 4294967295)
        × (length slices.old ≡ max_slices) }
    ensures next { let top = get_or row_starts.now group.y 0 in
        let bottom = get_or row_starts.now (group.y + group.rows) 0 in
        result.0 ≡ slice.0 + length (split_heights heights_minus1.now (bottom - top)) }
    ensures slices { let left = get_or column_starts.now group.x 0 in
        let right = get_or column_starts.now (group.x + group.columns) 0 in
        let top = get_or row_starts.now group.y 0 in
        let bottom = get_or row_starts.now (group.y + group.rows) 0 in
        let ss = stacked left (right - left) top (split_heights heights_minus1.now (bottom - top)) in
        slices.new ≡ put_plan slices.old slice.0 ss }
{
    let left = column_starts[group.x as usize];
    let right = column_starts[(group.x + group.columns) as usize];
    let top = row_starts[group.y as usize];
    let bottom = row_starts[(group.y + group.rows) as usize];
    let block = SliceRect {
        left: CtbCount(left),
        top: CtbCount(top),
        width: CtbCount(right - left),
        height: CtbCount(bottom - top),
    };
    stack(heights_minus1, block, slices, slice)
}

// What an accepted partition places in a grid whose columns and rows begin as these tables say.
pub fn place_slices(
    column_widths: &[u32],
    column_starts: &[u32],
    row_heights: &[u32],
    row_starts: &[u32],
    p: &VvcPpsPartition,
    tables: SliceTables<'_>,
) -> Placed
    requires { let g = grid_with column_widths.now row_heights.now in
        StartsAt column_widths.now column_starts.now × StartsAt row_heights.now row_starts.now
        × (0 < tiles g) × (p.now.pps_num_slices_in_pic_minus1 ≤ max_slices_minus1)
        × ((ps : List Group) × (walked g p.now (slices_of tables) ≡ placed ps)) }
    ensures { let g = grid_before column_widths row_heights in
        ((ps : List Group) → walked g p.now (slices_of tables.entry) ≡ placed ps
        → result ≡ placed_of (plan g ps) ps) }
{
    let n = SliceIdx(p.pps_num_slices_in_pic_minus1);
    let count = p.num_rect_slices;
    let ctx = SliceLoopCtx {
        num_tile_columns: column_widths.len() as u32,
        num_tile_rows: row_heights.len() as u32,
        delta_present: p.pps_tile_idx_delta_present_flag != 0,
        num_slices_minus1: n,
    };
    let mut placed = Placed::NONE;
    let mut at = LoopPosition::FIRST;
    let mut from: usize = 0;
    for i in 0..count {
        let e = tables.entry(i);
        let heights = tables.split_heights_of(i, from);
        let corner = ctx.place(at.tile);
        let group = TileGroup {
            x: corner.x,
            y: corner.y,
            columns: e.width + 1,
            rows: e.height + 1,
        };
        placed.groups[i as usize] = group;
        let slice = place_group(
            column_starts,
            row_starts,
            group,
            heights,
            &mut placed.plan.slices,
            at.slice,
        );
        let tile = next_tile(ctx, at.tile, e);
        at = LoopPosition {
            slice,
            tile,
            preceding_height: e.height,
        };
        from += heights.len();
    }
    placed.num_groups = count;
    let mut slice = at.slice;
    if ctx.has_slice(slice) {
        let corner = ctx.place(at.tile);
        let group = TileGroup {
            x: corner.x,
            y: corner.y,
            columns: ctx.columns_left(at.tile),
            rows: ctx.rows_left(at.tile),
        };
        placed.groups[count as usize] = group;
        slice = place_group(
            column_starts,
            row_starts,
            group,
            &[],
            &mut placed.plan.slices,
            slice,
        );
        placed.num_groups += 1;
    }
    placed.plan.num_slices = slice.0;
    placed
}
