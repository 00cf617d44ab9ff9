// The way of the slice loop from an entry to the next.
ghost use Rattle.std.specs.Prelude.{◌≡◌, ◌*◌};
ghost use Rattle.question_tests.specs.Steps.{moved_to};

use pps_tables::RectSliceEntry;
use slice_loop::{SliceLoopCtx, TileIdx};

// The tile of the next slice, where the entry's tests pass and slices are to come.
#[tactic(auto, unfolding(crate::specs::Steps::moved_to))]
pub fn next_tile(ctx: SliceLoopCtx, tile: TileIdx, e: RectSliceEntry) -> TileIdx
    ensures { let tiles = ctx.num_tile_rows * ctx.num_tile_columns in
        result ≡ moved_to ctx.num_tile_columns tiles ctx.delta_present tile.0 e }
{
    if ctx.delta_present {
        return ctx.apply_delta(tile, e.delta).unwrap_or(TileIdx(0));
    }
    ctx.default_advance(tile, e.width, e.height)
}
