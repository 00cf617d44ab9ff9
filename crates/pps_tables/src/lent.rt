// The tables lent to be read, as one value.
ghost use Rattle.std.specs.Prelude.{[], ◌≡◌, get_or, take, drop};
ghost use Rattle.pps_syntax.specs.FromRecord.{tables_long};
ghost use Rattle.pps_syntax.specs.SliceTables.{split_count};
ghost use Rattle.pps_tables.specs.Lent.{slices_of, lent_of};
ghost use Rattle.pps_tables.specs.Rows.{entry_of};

use super::{
    DELTA_BITS, DELTA_PRESENT, ENTRY_LEN, HEIGHT, RectSliceEntry, SPLIT_COUNT, SPLIT_PRESENT,
    WIDTH, delta_of_bits, tables_long,
};

// The slice entries and their split heights, one entry's behind the other's.
#[derive(Clone, Copy)]
pub struct SliceTables<'a> {
    pub entries: &'a [[u32; ENTRY_LEN]],
    pub split_heights: &'a [u32],
}

// In the order in which they are lent.
#[derive(Clone, Copy)]
pub struct LentTables<'a> {
    pub subpic_ids: &'a [u32],
    pub tile_column_widths: &'a [u32],
    pub tile_row_heights: &'a [u32],
    pub slices: SliceTables<'a>,
}

impl<'a> SliceTables<'a> {
    // Row i; zeros outside.
    pub fn entry(self, i: u32) -> RectSliceEntry
        ensures { result ≡ entry_of (get_or self.entry.entries.now i []) }
    {
        let row = self.entries.get(i as usize).copied();
        let row = row.unwrap_or([0; ENTRY_LEN]);
        RectSliceEntry {
            width: row[WIDTH],
            height: row[HEIGHT],
            split_present: row[SPLIT_PRESENT],
            split_count: row[SPLIT_COUNT],
            delta_present: row[DELTA_PRESENT],
            delta: delta_of_bits(row[DELTA_BITS]),
        }
    }

    // How many split heights entry i has: none where its split part is absent.
    pub fn split_count(self, i: u32) -> u32
        ensures { result ≡ split_count (slices_of self.entry) i }
    {
        let e = self.entry(i);
        if e.split_present == 0 {
            0
        } else {
            e.split_count
        }
    }

    // The split heights of entry i, which start at this place; fewer at the end of their table.
    pub fn split_heights_of(self, i: u32, from: usize) -> &'a [u32]
        ensures { result.now ≡ take (split_count (slices_of self.entry) i) (drop from self.entry.split_heights.now) }
    {
        let from = from.min(self.split_heights.len());
        let rest = &self.split_heights[from..];
        let count = self.split_count(i) as usize;
        &rest[..count.min(rest.len())]
    }
}

impl<'a> LentTables<'a> {
    // The first so many explicit column widths; all that there are, where there are fewer.
    pub fn column_widths(self, columns: u32) -> &'a [u32]
        ensures { result.now ≡ take columns self.entry.tile_column_widths.now }
    {
        let columns = self.tile_column_widths.len().min(columns as usize);
        &self.tile_column_widths[..columns]
    }

    // The first so many explicit row heights.
    pub fn row_heights(self, rows: u32) -> &'a [u32]
        ensures { result.now ≡ take rows self.entry.tile_row_heights.now }
    {
        let rows = self.tile_row_heights.len().min(rows as usize);
        &self.tile_row_heights[..rows]
    }

    // The test of 5.
    pub fn are_long(self) -> bool
        ensures { result ≡ tables_long (lent_of self.entry) }
    {
        tables_long(
            self.subpic_ids.len(),
            self.tile_column_widths.len(),
            self.tile_row_heights.len(),
            self.slices.entries.len(),
            self.slices.split_heights.len(),
        )
    }
}
