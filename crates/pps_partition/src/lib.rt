// The tile and slice partition block of a picture parameter set (the Rust's parse_partition), read into lent tables.
#![tactic(auto)]

ghost use Rattle.std.specs.Prelude.{◌≡◌};
ghost use Rattle.std.proofs.lemmas.List.Edits.{sets};
ghost use Rattle.bit_reader.specs.Gives.{Gives, cursor_of, held_as, value_read};
ghost use Rattle.pps_syntax.specs.PartitionSyntax.{partition};
ghost use Rattle.pps_tables.specs.LentMut.{lent_now, SameTables};
ghost use Rattle.syntax.specs.Syntax.{parse};
ghost use Rattle.pps_slices.specs.Loop.{slices_left};
ghost use Rattle.pps_partition.specs.PartitionAnswer.{one_block, partition_left};

use bit_reader::BitReader;
use pps_record::VvcPpsPartition;
use pps_tables::{LentTablesMut, SliceTablesMut};
use refusal::Refusal;
use slicing::read_slicing;
use tile_sizes::MAX_TILES;
use tiles::{copy_front, read_tile_sizes, spread, test_axes};

mod slicing;
mod tiles;

// The partition block of a picture of so many luma samples; what was read of its lists before a refusal is in their
// tables too. The lent tables may have any length: what has no place in its table is left out.
pub fn read_partition(
    r: &mut BitReader<'_>,
    width: u32,
    height: u32,
    tables: &mut LentTablesMut<'_>,
) -> Result<VvcPpsPartition, Refusal>
    ensures answer { Gives (held_as one_block (parse (partition width height))) r.old r.new result }
    ensures columns { tables.new.tile_column_widths.now
        ≡ sets tables.old.tile_column_widths.now 0
        (value_read (parse (partition width height)) r.old).pps_tile_column_width_minus1 }
    ensures rows { tables.new.tile_row_heights.now
        ≡ sets tables.old.tile_row_heights.now 0
        (value_read (parse (partition width height)) r.old).pps_tile_row_height_minus1 }
    ensures slices { (lent_now tables.new).slices
        ≡ slices_left (lent_now tables.old).slices 0 0
        (value_read (parse (partition width height)) r.old).rect_slices
        (partition_left width height r.old.bytes.now (cursor_of r.old)) }
    ensures subpic_ids { tables.new.subpic_ids.now ≡ tables.old.subpic_ids.now }
    ensures same_tables { SameTables tables.old tables.new }
{
    // The grid wants all row heights, and the lent table may be shorter. They are read over a copy of its front, which
    // goes back there also where reading is refused. (What is lent as `&` straight from the struct is forgotten.)
    let mut row_heights = [0u32; MAX_TILES as usize];
    let tile_row_heights = &mut *tables.tile_row_heights;
    copy_front(tile_row_heights, &mut row_heights);
    let read = read_tile_sizes(
        r,
        width,
        height,
        tables.tile_column_widths,
        &mut row_heights,
    );
    copy_front(&row_heights, tile_row_heights);
    let sizes = read?;
    let columns = sizes.columns;
    let rows = sizes.rows;
    let num_tiles = test_axes(columns, rows)?;
    spread(&mut row_heights, rows, num_tiles.rows, sizes.pic_height);
    let num_tile_rows = num_tiles.rows as usize;
    let mut slices = SliceTablesMut {
        entries: tables.entries,
        split_heights: tables.split_heights,
    };
    let slicing = read_slicing(
        r,
        num_tiles.columns as u8,
        &row_heights[..num_tile_rows],
        &mut slices,
    )?;
    let flags = slicing.flags;
    Ok(VvcPpsPartition {
        present: 1,
        pps_log2_ctu_size_minus5: sizes.ctu,
        num_tile_column_widths: columns.count,
        num_tile_row_heights: rows.count,
        pps_loop_filter_across_tiles_enabled_flag: flags.across_tiles,
        pps_rect_slice_flag: flags.rect,
        pps_single_slice_per_subpic_flag: flags.single,
        pps_num_slices_in_pic_minus1: flags.num_slices_minus1,
        pps_tile_idx_delta_present_flag: flags.deltas,
        num_rect_slices: slicing.num_rect_slices,
        pps_loop_filter_across_slices_enabled_flag: slicing.across_slices,
    })
}
