// What is told of a unit: what reading answers, with the grid, the plan and the cover.
ghost use Rattle.std.specs.Prelude.{◌≡◌};
ghost use Rattle.pps_report.specs.Told.{refusal_told};
ghost use Rattle.refusal.specs.Numbers.{refused};

use crate::LARGEST;
use grid_sizes::GridSizes;
use pps_answer::AcceptedPps;
use pps_read::parse_pps;
use pps_record::lengths::{
    RECT_SLICES, SPLIT_HEIGHTS, SUBPIC_IDS, TILE_COLUMN_WIDTHS, TILE_ROW_HEIGHTS,
};
use pps_tables::{ENTRY_LEN, LentTables, LentTablesMut, SliceTables};
use refusal::Refusal;
use tile_grid::{Cover, SlicePlan, SliceRect, TileGrid};

// The picture: its size in luma samples, its tiles and its slices.
#[derive(Clone, Copy)]
pub struct Report {
    pub bytes_taken: usize,
    pub width: u32,
    pub height: u32,
    pub log2_ctu_size_minus5: u8,
    pub sizes: GridSizes,
    pub plan: SlicePlan,
    pub cover: Result<Option<Cover>, Refusal>,
}

impl Report {
    // The slices in use.
    pub fn slices(&self) -> &[SliceRect] {
        let slices = &self.plan.slices;
        &slices[..slices.len().min(self.plan.num_slices as usize)]
    }
}

// The three questions of a record that was read; none refuses what reading gave (`pps_asked`). By itself, so that a
// unit that is refused needs no stack for them.
#[inline(never)]
fn accepted_report(a: AcceptedPps, lent: LentTables<'_>) -> Report {
    let pps = a.pps;
    let sizes = TileGrid::of_record(&pps, lent)
        .unwrap_or(TileGrid::NONE)
        .sizes;
    let plan = TileGrid::slice_plan(&pps, lent).unwrap_or(SlicePlan::NONE);
    let cover = TileGrid::slice_cover(&pps, lent);
    Report {
        bytes_taken: a.bytes_taken,
        width: pps.pps_pic_width_in_luma_samples,
        height: pps.pps_pic_height_in_luma_samples,
        log2_ctu_size_minus5: pps.partition.pps_log2_ctu_size_minus5,
        sizes,
        plan,
        cover,
    }
}

// Reads a unit into tables of the stated lengths, and asks the questions of it.
pub fn report_of(nal: &[u8]) -> Result<Report, Refusal>
    ensures { refused result ≡ refusal_told nal.now }
{
    let mut work = [0u8; LARGEST];
    let mut subpic_ids = [0u32; SUBPIC_IDS];
    let mut tile_column_widths = [0u32; TILE_COLUMN_WIDTHS];
    let mut tile_row_heights = [0u32; TILE_ROW_HEIGHTS];
    let mut entries = [[0u32; ENTRY_LEN]; RECT_SLICES];
    let mut split_heights = [0u32; SPLIT_HEIGHTS];
    let mut tables = LentTablesMut {
        subpic_ids: &mut subpic_ids,
        tile_column_widths: &mut tile_column_widths,
        tile_row_heights: &mut tile_row_heights,
        entries: &mut entries,
        split_heights: &mut split_heights,
    };
    let accepted = parse_pps(nal, &mut work, &mut tables)?;
    let slices = SliceTables {
        entries: &entries,
        split_heights: &split_heights,
    };
    let lent = LentTables {
        subpic_ids: &subpic_ids,
        tile_column_widths: &tile_column_widths,
        tile_row_heights: &tile_row_heights,
        slices,
    };
    Ok(accepted_report(accepted, lent))
}
