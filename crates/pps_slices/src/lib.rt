// The rectangular slices of a picture parameter set, read into lent tables: the slice loop of the Rust's
// parse_partition.
#![tactic(auto)]

ghost use Rattle.std.specs.Prelude.{◌≡◌, ◌*◌, ◌≤◌, length, take};
ghost use Rattle.bit_reader.specs.Gives.{Gives, cursor_of, held_as, value_read};
ghost use Rattle.partition.specs.Entry.{first_position};
ghost use Rattle.partition.specs.Grid.{Grid, max_tiles};
ghost use Rattle.pps_syntax.specs.SliceSyntax.{rect_slices};
ghost use Rattle.pps_tables.specs.LentMut.{slices_now, SameSlices};
ghost use Rattle.slice_loop.specs.Loop.{LoopOver};
ghost use Rattle.pps_slices.specs.Grids.{GridHas};
ghost use Rattle.pps_slices.specs.Loop.{slices_left, refused_heights};

use bit_reader::BitReader;
use entry::read_rect_slice;
use pps_tables::SliceTablesMut;
use put::put_slice;
use refusal::Refusal;
use slice_loop::{LoopPosition, SliceIdx, SliceLoopCtx};
use tile_sizes::MAX_TILES;

mod entry;
mod parts;
mod put;

// The slice loop: from tile 0 and slice 0, while the slice index is below N; how many entries there are. The explicit
// slice heights of an entry stay in their table where the entry is refused.
fn read_loop(
    r: &mut BitReader<'_>,
    row_heights: &[u32],
    ctx: SliceLoopCtx,
    tables: &mut SliceTablesMut<'_>,
) -> Result<u32, Refusal>
    requires { (ctx.num_tile_rows ≡ length row_heights.now)
        × (ctx.num_tile_rows * ctx.num_tile_columns ≤ 4294967295) }
    ensures gives { (g : Grid) → LoopOver ctx row_heights.now g
        → Gives (held_as length (rect_slices g ctx.delta_present ctx.num_slices_minus1.0 first_position).read)
        r.old r.new result }
    ensures tables { (g : Grid) → LoopOver ctx row_heights.now g
        → slices_now tables.new ≡ slices_left (slices_now tables.old) 0 0
        (value_read (rect_slices g ctx.delta_present ctx.num_slices_minus1.0 first_position).read r.old)
        (refused_heights g ctx.delta_present ctx.num_slices_minus1.0 first_position
        r.old.bytes.now (cursor_of r.old)) }
    ensures same_tables { SameSlices tables.old tables.new }
{
    let mut at = LoopPosition::FIRST;
    let mut count: u32 = 0;
    let mut from: usize = 0;
    while ctx.slices_to_come(at.slice) {
        let entry = read_rect_slice(r, row_heights, ctx, at, tables.split_heights, from)?;
        put_slice(entry, count, tables.entries);
        from += entry.split_count.unwrap_or(0) as usize;
        at = entry.next;
        count += 1;
    }
    Ok(count)
}

// The slices of a grid of so many columns and of these row heights, of which no more than `MAX_TILES` are looked at, so
// that a tile's index has 32 bits. What was read before a refusal is in the tables.
pub fn read_rect_slices(
    r: &mut BitReader<'_>,
    num_tile_columns: u8,
    row_heights: &[u32],
    deltas_coded: bool,
    n: SliceIdx,
    tables: &mut SliceTablesMut<'_>,
) -> Result<u32, Refusal>
    ensures gives { (g : Grid) → GridHas num_tile_columns (take max_tiles row_heights.now) g
        → Gives (held_as length (rect_slices g deltas_coded n.0 first_position).read) r.old r.new result }
    ensures tables { (g : Grid) → GridHas num_tile_columns (take max_tiles row_heights.now) g
        → slices_now tables.new ≡ slices_left (slices_now tables.old) 0 0
        (value_read (rect_slices g deltas_coded n.0 first_position).read r.old)
        (refused_heights g deltas_coded n.0 first_position r.old.bytes.now (cursor_of r.old)) }
    ensures same_tables { SameSlices tables.old tables.new }
{
    let rows = row_heights.len().min(MAX_TILES as usize);
    let ctx = SliceLoopCtx {
        num_tile_columns: num_tile_columns as u32,
        num_tile_rows: rows as u32,
        delta_present: deltas_coded,
        num_slices_minus1: n,
    };
    read_loop(r, &row_heights[..rows], ctx, tables)
}
