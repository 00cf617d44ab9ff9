// The tile and slice partition block of a picture parameter set, written from a record and its lent tables (the Rust's
// write_partition).
#![tactic(auto)]

ghost use Rattle.std.specs.Prelude.{◌≡◌};
ghost use Rattle.bit_writer.specs.Stop.{play_on};
ghost use Rattle.bit_writer.specs.Written.{written, ended};
ghost use Rattle.syntax.specs.Syntax.{symbols_for};
ghost use Rattle.pps_syntax.specs.FromRecord.{block_from};
ghost use Rattle.pps_syntax.specs.PartitionSyntax.{partition};
ghost use Rattle.pps_tables.specs.Lent.{lent_of};

use bit_writer::BitWriter;
use grid_sizes::grid_sizes;
use pps_record::VvcPpsPartition;
use pps_tables::LentTables;
use refusal::Refusal;
use slicing::put_slicing;
use tiles::put_tile_sizes;

mod flags;
mod slicing;
mod tiles;

// The partition block of a picture of so many luma samples; refused with 9 to 19, 25, 26 in the order of the
// description. The explicit sizes and the entries are the first so many of their tables.
pub fn put_partition(
    w: &mut BitWriter,
    out: &mut [u8],
    pic_width: u32,
    pic_height: u32,
    p: &VvcPpsPartition,
    tables: LentTables<'_>,
) -> Result<(), Refusal>
    ensures { let block = block_from p.now (lent_of tables.entry) in
        ended w.new out.new result
        ≡ play_on (written w.old out.old) (symbols_for (partition pic_width pic_height) block) }
{
    let ctu = p.pps_log2_ctu_size_minus5;
    let widths = tables.column_widths(p.num_tile_column_widths);
    let heights = tables.row_heights(p.num_tile_row_heights);
    put_tile_sizes(w, out, pic_width, pic_height, ctu, widths, heights)?;
    let grid = grid_sizes(pic_width, pic_height, ctu, widths, heights)?;
    put_slicing(w, out, &grid, p, tables.slices)
}
