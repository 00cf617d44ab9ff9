// The rectangular slices of a picture parameter set, written from lent tables (the slice loop of the Rust's
// write_partition).
#![tactic(auto)]

ghost use Rattle.std.specs.Prelude.{◌≡◌};
ghost use Rattle.grid_sizes.specs.Fronts.{grid_in};
ghost use Rattle.partition.specs.Entry.{first_position};
ghost use Rattle.pps_syntax.specs.SliceSyntax.{rect_slices};
ghost use Rattle.pps_syntax.specs.SliceTables.{slices_from};
ghost use Rattle.pps_tables.specs.Lent.{slices_of};
ghost use Rattle.bit_writer.specs.Stop.{play_on};
ghost use Rattle.bit_writer.specs.Written.{written, ended};

use bit_writer::BitWriter;
use grid_sizes::GridSizes;
use pps_tables::SliceTables;
use refusal::Refusal;
use slice_loop::SliceIdx;
use walk::put_entries;

mod entry;
mod parts;
pub mod sizes;
mod walk;

// The slices of a grid, by its columns and rows in use.
pub fn put_rect_slices(
    w: &mut BitWriter,
    out: &mut [u8],
    grid: &GridSizes,
    deltas_coded: bool,
    n: SliceIdx,
    count: u32,
    slices: SliceTables<'_>,
) -> Result<(), Refusal>
    ensures { let entries = slices_from (slices_of slices.entry) 0 0 count in
        ended w.new out.new result
        ≡ play_on (written w.old out.old)
        ((rect_slices (grid_in grid.now) deltas_coded n.0 first_position).symbols entries) }
{
    put_entries(
        w,
        out,
        grid.column_widths(),
        grid.row_heights(),
        deltas_coded,
        n,
        count,
        slices,
    )
}
