// The tile grid of a picture, from its explicit tile sizes.
#![tactic(auto)]

ghost use Rattle.std.specs.Prelude.{◌≡◌, ◌≤◌, length, take};
ghost use Rattle.partition.specs.Grid.{tiles, max_tile_columns, max_tiles};
ghost use Rattle.partition.specs.Sizes.{axis_sizes};
ghost use Rattle.refusal.specs.Answers.{with_number};
ghost use Rattle.grid_sizes.specs.Answers.{FitsTable, grid_of_sizes, grid_sizes};
ghost use Rattle.grid_sizes.specs.Fronts.{grid_in};

use refusal::Refusal;
use sizes::{axis_answer, explicit_refusal, sizes_into};
use slice_loop::CtbCount;
use tile_sizes::{MAX_TILE_COLUMNS, MAX_TILES, in_ctbs};

mod sizes;

// The sizes of the columns and rows of a tile grid, in CTBs; places not in use are 0.
#[derive(Clone, Copy)]
pub struct GridSizes {
    pub num_tile_columns: u32,
    pub num_tile_rows: u32,
    pub column_widths: [u32; MAX_TILE_COLUMNS as usize],
    pub row_heights: [u32; MAX_TILES as usize],
}

impl GridSizes {
    // The columns in use.
    pub fn column_widths(&self) -> &[u32]
        ensures used { result.now ≡ take self.now.num_tile_columns self.now.column_widths }
        ensures few { length result.now ≤ max_tile_columns }
    {
        let columns = self.column_widths.len().min(self.num_tile_columns as usize);
        &self.column_widths[..columns]
    }

    // The rows in use.
    pub fn row_heights(&self) -> &[u32]
        ensures used { result.now ≡ take self.now.num_tile_rows self.now.row_heights }
        ensures few { length result.now ≤ max_tiles }
    {
        let rows = self.row_heights.len().min(self.num_tile_rows as usize);
        &self.row_heights[..rows]
    }

    // NumTilesInPic.
    pub fn num_tiles(&self) -> u64
        ensures { result ≡ tiles (grid_in self.now) }
    {
        let columns = self.column_widths();
        let rows = self.row_heights();
        rows.len() as u64 * columns.len() as u64
    }
}

// The tables of a grid that fits, of so many columns and rows.
fn accepted_sizes(
    column_widths_minus1: &[u32],
    width: CtbCount,
    columns: u32,
    row_heights_minus1: &[u32],
    height: CtbCount,
    rows: u32,
) -> GridSizes
    requires { FitsTable column_widths_minus1.now width.0 columns max_tile_columns × FitsTable row_heights_minus1.now height.0 rows max_tiles }
    ensures { result ≡ grid_of_sizes (axis_sizes column_widths_minus1.now width.0) (axis_sizes row_heights_minus1.now height.0) }
{
    let mut column_widths = [0u32; MAX_TILE_COLUMNS as usize];
    sizes_into(column_widths_minus1, width, &mut column_widths);
    let mut row_heights = [0u32; MAX_TILES as usize];
    sizes_into(row_heights_minus1, height, &mut row_heights);
    GridSizes {
        num_tile_columns: columns,
        num_tile_rows: rows,
        column_widths,
        row_heights,
    }
}

// The sizes of the tile grid of a picture of so many luma samples, from its explicit tile sizes (minus 1); or 9, 10,
// 11, 12 or 13.
pub fn grid_sizes(
    pic_width_in_luma_samples: u32,
    pic_height_in_luma_samples: u32,
    log2_ctu_size_minus5: u8,
    column_widths_minus1: &[u32],
    row_heights_minus1: &[u32],
) -> Result<GridSizes, Refusal>
    ensures { with_number result ≡ grid_sizes pic_width_in_luma_samples pic_height_in_luma_samples log2_ctu_size_minus5 column_widths_minus1.now row_heights_minus1.now }
{
    if log2_ctu_size_minus5 > 2 {
        return Err(Refusal::CtuSize);
    }
    let width = in_ctbs(pic_width_in_luma_samples, log2_ctu_size_minus5);
    let height = in_ctbs(pic_height_in_luma_samples, log2_ctu_size_minus5);
    explicit_refusal(width, height, column_widths_minus1, row_heights_minus1)?;
    let columns = axis_answer(column_widths_minus1, width, MAX_TILE_COLUMNS)?;
    let rows = axis_answer(row_heights_minus1, height, MAX_TILES / columns)?;
    Ok(accepted_sizes(
        column_widths_minus1,
        width,
        columns,
        row_heights_minus1,
        height,
        rows,
    ))
}
