// The tests of one entry of the slice loop, in the order of writing (H.266 7.3.2.5, 7.4.3.5), and where the next one
// stands.
#![tactic(auto, unfolding(partition::specs::Entry::size_checks, partition::specs::Entry::inherited_checks, partition::specs::Entry::split_checks, partition::specs::Entry::move_checks, partition::specs::Entry::last_slice_of, tile_sizes::specs::Answers::slices_in_tile, partition::specs::Checks::first_bad, partition::specs::Checks::number_of, refusal::specs::Numbers::refused, refusal::specs::Numbers::number))]

ghost use Rattle.std.specs.Prelude.{◌≡◌, true, cond, ℕ, suc, ◌+◌, ◌*◌, ◌≤◌, List, IfOk};
ghost use Rattle.refusal.specs.Numbers.{refused};
ghost use Rattle.partition.specs.Checks.{first_bad, number_of};
ghost use Rattle.partition.specs.Entry.{asking, split_coded, num_slices_in_tile, last_slice_of, tile_row_height, size_checks, inherited_checks, split_checks, move_checks, next_tile};
ghost use Rattle.partition.specs.Grid.{max_slices_minus1};
ghost use Rattle.slice_loop.specs.Loop.{position_of};
ghost use Rattle.question_tests.specs.Tables.{entry_with};
ghost use Rattle.question_tests.specs.Steps.{heights_checks, Stepped};

use pps_tables::RectSliceEntry;
use refusal::Refusal;
use slice_loop::{CtbCount, LoopPosition, SliceIdx, SliceLoopCtx, TileIdx};
use tile_sizes::{num_slices_in_tile, some_at_least};

// The slice stays in the grid (15).
fn size_refusal(ctx: SliceLoopCtx, tile: TileIdx, e: RectSliceEntry) -> Result<(), Refusal>
    ensures { (hs : List ℕ) → refused result ≡ number_of (first_bad
        (size_checks ctx.num_tile_columns ctx.num_tile_rows tile.0 (entry_with e hs))) }
{
    if e.width >= ctx.columns_left(tile) || e.height >= ctx.rows_left(tile) {
        return Err(Refusal::SlicePastGrid);
    }
    Ok(())
}

// An uncoded height is the inherited one (26).
fn inherited_refusal(ctx: SliceLoopCtx, at: LoopPosition, e: RectSliceEntry) -> Result<(), Refusal>
    ensures { (hs : List ℕ) → refused result ≡ number_of (first_bad (inherited_checks asking ctx.num_tile_columns
        ctx.num_tile_rows ctx.delta_present (position_of at) (entry_with e hs))) }
{
    let coded = ctx.height_coded(at.tile);
    if !coded && e.height != ctx.inherited_height(at.tile, at.preceding_height) {
        return Err(Refusal::Contradiction);
    }
    Ok(())
}

// How many slices an entry gives, by its explicit slice heights (16).
fn slices_given(split: bool, row: CtbCount, heights: &[u32]) -> Result<u32, Refusal>
    ensures number { refused result ≡ number_of (first_bad (heights_checks split row.0 heights.now)) }
    ensures count { IfOk result (λ n. n ≡ cond split (num_slices_in_tile heights.now row.0) 1) }
{
    if !split {
        return Ok(1);
    }
    if heights.len() >= row.0 as usize || some_at_least(row, heights) {
        return Err(Refusal::SplitHeights);
    }
    num_slices_in_tile(heights, row)
}

// The explicit slice heights (26, 16, 17), and how many slices they give.
fn split_refusal(
    ctx: SliceLoopCtx,
    slice: SliceIdx,
    row: CtbCount,
    e: RectSliceEntry,
    heights: &[u32],
) -> Result<u32, Refusal>
    ensures number { let e = entry_with e heights.now in
        refused result ≡ number_of (first_bad (split_checks row.0 ctx.num_slices_minus1.0 slice.0 e)) }
    ensures slices { let last = last_slice_of slice.0 (entry_with e heights.now) row.0 in
        IfOk result (λ n. (slice.0 + n ≡ suc last) × (last ≤ ctx.num_slices_minus1.0)) }
{
    let split = SliceLoopCtx::exp_block(e.width, e.height, row);
    if (e.split_present != 0) != split {
        return Err(Refusal::Contradiction);
    }
    let slices = slices_given(split, row, heights)?;
    if ctx.too_many_slices(slice, slices) {
        return Err(Refusal::TooManySplitSlices);
    }
    Ok(slices)
}

// The way to the next slice's tile (26, 25, 18, 19); `more`: slices are still to come.
fn move_refusal(
    ctx: SliceLoopCtx,
    tile: TileIdx,
    more: bool,
    e: RectSliceEntry,
) -> Result<TileIdx, Refusal>
    requires { ctx.num_tile_rows * ctx.num_tile_columns ≤ 4294967295 }
    ensures number { let tiles = ctx.num_tile_rows * ctx.num_tile_columns in
        ((hs : List ℕ) → refused result ≡ number_of (first_bad (move_checks ctx.num_tile_columns tiles
        ctx.delta_present more tile.0 (entry_with e hs)))) }
    ensures tile { (hs : List ℕ) → more ≡ true
        → IfOk result (λ t. t.0 ≡ next_tile ctx.num_tile_columns ctx.delta_present tile.0 (entry_with e hs)) }
{
    let moves = e.delta_present != 0;
    let coded = ctx.delta_present & more;
    if moves != coded {
        return Err(Refusal::Contradiction);
    }
    if moves {
        if SliceLoopCtx::delta_uncodable(e.delta) {
            return Err(Refusal::NoCode);
        }
        return ctx.apply_delta(tile, e.delta);
    }
    let next = ctx.default_advance(tile, e.width, e.height);
    if more && !ctx.has_tile(next) {
        return Err(Refusal::WalkLeavesGrid);
    }
    Ok(next)
}

// The tests of an entry with its split heights, and where the next one stands.
#[tactic(auto)]
pub fn entry_step(
    ctx: SliceLoopCtx,
    row_heights: &[u32],
    at: LoopPosition,
    e: RectSliceEntry,
    heights: &[u32],
) -> Result<LoopPosition, Refusal>
    requires { (ctx.num_tile_rows * ctx.num_tile_columns ≤ 4294967295)
        × (ctx.num_slices_minus1.0 ≤ max_slices_minus1) }
    ensures { let row = tile_row_height row_heights.now ctx.num_tile_columns at.tile.0 in
        Stepped ctx.num_tile_columns ctx.num_tile_rows row ctx.delta_present
        ctx.num_slices_minus1.0 (position_of at) (entry_with e heights.now) result }
{
    let row = ctx.row_height(row_heights, at.tile);
    size_refusal(ctx, at.tile, e)?;
    inherited_refusal(ctx, at, e)?;
    let slices = split_refusal(ctx, at.slice, row, e, heights)?;
    let slice = SliceIdx(at.slice.0 + slices);
    let tile = move_refusal(ctx, at.tile, ctx.has_slice(slice), e)?;
    Ok(LoopPosition {
        slice,
        tile,
        preceding_height: e.height,
    })
}
