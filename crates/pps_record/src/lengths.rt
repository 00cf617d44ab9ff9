// The stated lengths of the tables that a caller lends (docs/BEHAVIOUR.md). A table may be longer; a shorter one is
// refused with 5.
use tile_sizes::{MAX_NUM_SLICES_MINUS1, MAX_SLICES, MAX_TILE_COLUMNS, MAX_TILES};

// pps_num_subpics_minus1 is held to the limit of slices, as in the Rust: each subpicture has a slice.
pub const MAX_NUM_SUBPICS_MINUS1: u32 = MAX_NUM_SLICES_MINUS1;

pub const SUBPIC_IDS: usize = MAX_SLICES as usize;

pub const TILE_COLUMN_WIDTHS: usize = MAX_TILE_COLUMNS as usize;

pub const TILE_ROW_HEIGHTS: usize = MAX_TILES as usize;

pub const RECT_SLICES: usize = MAX_NUM_SLICES_MINUS1 as usize;

// The split heights of all entries, one entry's behind the other's.
pub const SPLIT_HEIGHTS: usize = MAX_SLICES as usize;
