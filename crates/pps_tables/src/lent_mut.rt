// The tables lent for change, as one value.
ghost use Rattle.std.specs.Prelude.{◌≡◌};
ghost use Rattle.pps_syntax.specs.FromRecord.{tables_long};
ghost use Rattle.pps_tables.specs.Cleared.{cleared};
ghost use Rattle.pps_tables.specs.LentMut.{lent_now, SameTables};

use super::{ENTRY_LEN, tables_long};
use tables::clear;

// In the order in which they are lent. Flat, unlike LentTables: what is left behind a `&mut` in a struct in a struct is
// lost to who lent it.
#[derive(Drop)]
pub struct LentTablesMut<'a> {
    pub subpic_ids: &'a mut [u32],
    pub tile_column_widths: &'a mut [u32],
    pub tile_row_heights: &'a mut [u32],
    pub entries: &'a mut [[u32; ENTRY_LEN]],
    pub split_heights: &'a mut [u32],
}

// The tables of the slice entries alone.
#[derive(Drop)]
pub struct SliceTablesMut<'a> {
    pub entries: &'a mut [[u32; ENTRY_LEN]],
    pub split_heights: &'a mut [u32],
}

impl LentTablesMut<'_> {
    // The test of 5.
    pub fn are_long(&self) -> bool
        ensures { result ≡ tables_long (lent_now self.now) }
    {
        tables_long(
            self.subpic_ids.len(),
            self.tile_column_widths.len(),
            self.tile_row_heights.len(),
            self.entries.len(),
            self.split_heights.len(),
        )
    }

    // All of them become zeros, over their whole lent length.
    pub fn clear(&mut self)
        ensures same_tables { SameTables self.old self.new }
        ensures cleared { lent_now self.new ≡ cleared (lent_now self.old) }
    {
        clear(self.subpic_ids, 0);
        clear(self.tile_column_widths, 0);
        clear(self.tile_row_heights, 0);
        clear(self.entries, [0; ENTRY_LEN]);
        clear(self.split_heights, 0);
    }
}
