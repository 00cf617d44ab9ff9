// The partition block behind its grid: the flags that say how slices are coded, the slices, and the last flag (H.266
// 7.3.2.5).
ghost use Rattle.std.specs.Prelude.{◌≡◌};
ghost use Rattle.bit_writer.specs.Written.{written, ended};
ghost use Rattle.grid_sizes.specs.Fronts.{grid_in};
ghost use Rattle.pps_syntax.specs.SliceTables.{slices_from};
ghost use Rattle.syntax.specs.Elements.{is_set};
ghost use Rattle.pps_tables.specs.Lent.{slices_of};
ghost use Rattle.pps_syntax.specs.PartitionSyntax.{several};
ghost use Rattle.pps_put_partition.specs.Puts.{flags_put, slices_put, rest_put};
ghost use Rattle.pps_put_partition.specs.Rest.{flags_of};

use super::flags::{put_num_slices, put_rect};
use bit_writer::{BitWriter, test};
use grid_sizes::GridSizes;
use pps_put::leaves::put_flag_if;
use pps_put_slices::put_rect_slices;
use pps_record::VvcPpsPartition;
use pps_tables::SliceTables;
use refusal::Refusal;
use slice_loop::SliceIdx;

fn put_flags(
    w: &mut BitWriter,
    out: &mut [u8],
    several: bool,
    p: &VvcPpsPartition,
) -> Result<(), Refusal>
    ensures { ended w.new out.new result ≡ flags_put several (flags_of p.now) (written w.old out.old) }
{
    let rect = p.pps_rect_slice_flag;
    let coded = (rect != 0) & (p.pps_single_slice_per_subpic_flag == 0);
    let n = p.pps_num_slices_in_pic_minus1;
    put_flag_if(w, out, several, p.pps_loop_filter_across_tiles_enabled_flag);
    put_rect(w, out, several, rect)?;
    put_flag_if(w, out, rect != 0, p.pps_single_slice_per_subpic_flag);
    put_num_slices(w, out, coded, n)?;
    put_flag_if(w, out, coded & (n > 1), p.pps_tile_idx_delta_present_flag);
    Ok(())
}

// The slices, where they are coded; 26 for entries where they are not.
fn put_coded_slices(
    w: &mut BitWriter,
    out: &mut [u8],
    coded: bool,
    grid: &GridSizes,
    p: &VvcPpsPartition,
    slices: SliceTables<'_>,
) -> Result<(), Refusal>
    ensures { let entries = slices_from (slices_of slices.entry) 0 0 p.now.num_rect_slices in
        let deltas = is_set p.now.pps_tile_idx_delta_present_flag in
        ended w.new out.new result
        ≡ slices_put (grid_in grid.now) coded deltas p.now.pps_num_slices_in_pic_minus1 entries (written w.old out.old) }
{
    if !coded {
        return test(p.num_rect_slices == 0, Refusal::Contradiction);
    }
    put_rect_slices(
        w,
        out,
        grid,
        p.pps_tile_idx_delta_present_flag != 0,
        SliceIdx(p.pps_num_slices_in_pic_minus1),
        p.num_rect_slices,
        slices,
    )
}

// All that stands behind the grid.
pub fn put_slicing(
    w: &mut BitWriter,
    out: &mut [u8],
    grid: &GridSizes,
    p: &VvcPpsPartition,
    slices: SliceTables<'_>,
) -> Result<(), Refusal>
    ensures { let g = grid_in grid.now in
        let entries = slices_from (slices_of slices.entry) 0 0 p.now.num_rect_slices in
        ended w.new out.new result
        ≡ rest_put g (several g) (flags_of p.now) entries p.now.pps_loop_filter_across_slices_enabled_flag
        (written w.old out.old) }
{
    let coded = (p.pps_rect_slice_flag != 0) & (p.pps_single_slice_per_subpic_flag == 0);
    let one = coded & (p.pps_num_slices_in_pic_minus1 == 0);
    put_flags(w, out, grid.num_tiles() > 1, p)?;
    put_coded_slices(w, out, coded, grid, p, slices)?;
    put_flag_if(w, out, !one, p.pps_loop_filter_across_slices_enabled_flag);
    Ok(())
}
