// The tile grid of a partitioned picture (H.266 6.5.1, 7.4.3.5), and the questions on grid, plan and cover over a
// record (docs/BEHAVIOUR.md).
#![tactic(auto)]

ghost use Rattle.std.specs.Prelude.{◌≡◌, IfOk};
ghost use Rattle.pps_tables.specs.Lent.{lent_of};
ghost use Rattle.tile_grid.specs.Answers.{grid_answer};
ghost use Rattle.refusal.specs.Answers.{with_number};
ghost use Rattle.tile_grid.specs.GridQuestion.{of_record, SumsFit};
ghost use Rattle.tile_grid.specs.Placed.{has_slices};
ghost use Rattle.tile_grid.specs.PlanQuestion.{slice_plan, SliceCover};

use grid_sizes::{GridSizes, grid_sizes};
use placed::accepted_slices;
use pps_record::{VvcPps, VvcPpsPartition};
use pps_tables::LentTables;
use question_tests::record::record_refusal;
use question_tests::slicing::slicing_refusal;
use refusal::Refusal;
use slice_loop::{CtbCount, TileIdx};
use std::fmt;
use tile_sizes::{MAX_SLICES, MAX_TILE_COLUMNS, MAX_TILES};

mod covering;
mod place;
mod placed;
mod stack;
mod starts;

// The tile grid, in CTBs.
#[derive(Clone, Copy)]
pub struct TileGrid {
    pub sizes: GridSizes,
}

// A slice, in CTBs from the top left of the picture.
#[derive(Clone, Copy, Debug, PartialEq, Eq)]
pub struct SliceRect {
    pub left: CtbCount,
    pub top: CtbCount,
    pub width: CtbCount,
    pub height: CtbCount,
}

impl SliceRect {
    const NONE: SliceRect = SliceRect {
        left: CtbCount(0),
        top: CtbCount(0),
        width: CtbCount(0),
        height: CtbCount(0),
    };
}

// The slices of a picture by slice index; places not in use are 0. A table of the longest plan, since nothing is
// allocated.
#[derive(Clone, Copy)]
pub struct SlicePlan {
    pub num_slices: u32,
    pub slices: [SliceRect; MAX_SLICES as usize],
}

impl SlicePlan {
    pub const NONE: SlicePlan = SlicePlan {
        num_slices: 0,
        slices: [SliceRect::NONE; MAX_SLICES as usize],
    };
}

// What slices cover: every block once; or a tile in no slice; or else a tile whose blocks lie in several.
#[derive(Clone, Copy, Debug, PartialEq, Eq)]
pub enum Cover {
    Whole,
    Gap(TileIdx),
    Double(TileIdx),
}

impl fmt::Display for Cover {
    fn fmt<W: fmt::Write>(&self, f: &mut fmt::Formatter<W>) -> fmt::Result {
        match self {
            Cover::Whole => f.write_str("whole"),
            Cover::Gap(tile) => write!(f, "gap {}", tile.0),
            Cover::Double(tile) => write!(f, "double {}", tile.0),
        }
    }
}

// The picture is partitioned, and its slices are coded.
#[tactic(auto, unfolding(crate::specs::Placed::has_slices))]
fn has_slices(p: &VvcPpsPartition) -> bool
    ensures { result ≡ has_slices p.now }
{
    p.present != 0 && p.slices_coded()
}

impl TileGrid {
    // The limits of Table A.2.
    pub const MAX_TILE_COLUMNS: u32 = tile_sizes::MAX_TILE_COLUMNS;

    pub const MAX_TILES: u32 = tile_sizes::MAX_TILES;

    pub const MAX_NUM_SLICES_MINUS1: u32 = tile_sizes::MAX_NUM_SLICES_MINUS1;

    // Of no columns and no rows: that of an unpartitioned picture.
    pub const NONE: TileGrid = TileGrid {
        sizes: GridSizes {
            num_tile_columns: 0,
            num_tile_rows: 0,
            column_widths: [0; MAX_TILE_COLUMNS as usize],
            row_heights: [0; MAX_TILES as usize],
        },
    };

    // The grid of a picture of so many luma samples, from its explicit tile sizes (minus 1); or 9, 10, 11, 12 or 13.
    pub fn new(
        pic_width_in_luma_samples: u32,
        pic_height_in_luma_samples: u32,
        log2_ctu_size_minus5: u8,
        column_widths_minus1: &[u32],
        row_heights_minus1: &[u32],
    ) -> Result<TileGrid, Refusal>
        ensures { with_number result ≡ grid_answer pic_width_in_luma_samples pic_height_in_luma_samples
            log2_ctu_size_minus5 column_widths_minus1.now row_heights_minus1.now }
    {
        let sizes = grid_sizes(
            pic_width_in_luma_samples,
            pic_height_in_luma_samples,
            log2_ctu_size_minus5,
            column_widths_minus1,
            row_heights_minus1,
        )?;
        Ok(TileGrid { sizes })
    }

    // The grid question: the tile grid of a record's picture, with no columns and no rows where it is unpartitioned; or
    // a refusal. The whole partition is tested, its slices too.
    pub fn of_record(pps: &VvcPps, lent: LentTables<'_>) -> Result<TileGrid, Refusal>
        ensures grid { with_number result ≡ of_record pps.now (lent_of lent.entry) }
        ensures sums { IfOk result SumsFit }
    {
        record_refusal(pps, lent)?;
        let p = &pps.partition;
        if p.present == 0 {
            return Ok(TileGrid::NONE);
        }
        let sizes = grid_sizes(
            pps.pps_pic_width_in_luma_samples,
            pps.pps_pic_height_in_luma_samples,
            p.pps_log2_ctu_size_minus5,
            lent.column_widths(p.num_tile_column_widths),
            lent.row_heights(p.num_tile_row_heights),
        )?;
        slicing_refusal(&sizes, p, lent.slices)?;
        Ok(TileGrid { sizes })
    }

    // The plan question: each slice by slice index; empty where no slices are coded; or a refusal.
    pub fn slice_plan(pps: &VvcPps, lent: LentTables<'_>) -> Result<SlicePlan, Refusal>
        ensures { with_number result ≡ slice_plan pps.now (lent_of lent.entry) }
    {
        let grid = TileGrid::of_record(pps, lent)?;
        let p = &pps.partition;
        if !has_slices(p) {
            return Ok(SlicePlan::NONE);
        }
        let placed = accepted_slices(&grid.sizes, p, lent.slices);
        Ok(placed.plan)
    }

    // The cover question: what the slices cover; nothing where no slices are coded; or a refusal. The tile that a gap
    // or a double names is any that is as said.
    pub fn slice_cover(pps: &VvcPps, lent: LentTables<'_>) -> Result<Option<Cover>, Refusal>
        ensures { SliceCover pps.now (lent_of lent.entry) (with_number result) }
    {
        let sizes = TileGrid::of_record(pps, lent)?.sizes;
        let p = &pps.partition;
        if !has_slices(p) {
            return Ok(None);
        }
        let placed = accepted_slices(&sizes, p, lent.slices);
        let groups = &placed.groups[..placed.num_groups as usize];
        let cover = Cover::of_groups(sizes.num_tile_columns, sizes.num_tile_rows, groups);
        Ok(Some(cover))
    }
}
