// The lent tables: their lengths, the rows of the slice entries, and a delta as its 32 bits.
#![tactic(auto)]

ghost use Rattle.std.specs.Prelude.{◌≡◌, set};
ghost use Rattle.pps_syntax.specs.SliceTables.{bits_of_delta, delta_of_bits};
ghost use Rattle.pps_syntax.specs.FromRecord.{lengths_fit};

use pps_record::lengths;
use tables::places::put;

mod lent;
mod lent_mut;

pub use lent::{LentTables, SliceTables};
pub use lent_mut::{LentTablesMut, SliceTablesMut};

// The test of 5, by the lengths of the lent tables in the order in which they are lent: a table may be longer than
// stated.
#[tactic(auto, unfolding(pps_syntax::specs::FromRecord::lengths_fit))]
pub fn tables_long(
    subpic_ids: usize,
    tile_column_widths: usize,
    tile_row_heights: usize,
    entries: usize,
    split_heights: usize,
) -> bool
    ensures { result ≡ lengths_fit subpic_ids tile_column_widths tile_row_heights entries split_heights }
{
    subpic_ids >= lengths::SUBPIC_IDS
        && tile_column_widths >= lengths::TILE_COLUMN_WIDTHS
        && tile_row_heights >= lengths::TILE_ROW_HEIGHTS
        && entries >= lengths::RECT_SLICES
        && split_heights >= lengths::SPLIT_HEIGHTS
}

// The 32 bits of a delta, for its row.
pub fn bits_of_delta(delta: i32) -> u32
    ensures { result ≡ bits_of_delta delta }
{
    delta.cast_unsigned()
}

// The delta of 32 bits of a row.
pub fn delta_of_bits(bits: u32) -> i32
    ensures { result ≡ delta_of_bits bits }
{
    bits.cast_signed()
}

// The places of a row, and how many there are.
pub const WIDTH: usize = 0;

pub const HEIGHT: usize = 1;

pub const SPLIT_PRESENT: usize = 2;

pub const SPLIT_COUNT: usize = 3;

pub const DELTA_PRESENT: usize = 4;

pub const DELTA_BITS: usize = 5;

pub const ENTRY_LEN: usize = 6;

// A row into its place; nothing, where there are fewer.
pub fn put_row(entries: &mut [[u32; ENTRY_LEN]], i: u32, row: [u32; ENTRY_LEN])
    ensures { entries.new ≡ set entries.old i row }
{
    put(entries, i as usize, row);
}

// A slice entry by its parts, not as Options: the walk goes by a delta also where its flag is 0.
#[derive(Clone, Copy)]
pub struct RectSliceEntry {
    pub width: u32,
    pub height: u32,
    pub split_present: u32,
    pub split_count: u32,
    pub delta_present: u32,
    pub delta: i32,
}
