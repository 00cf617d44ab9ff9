// The steps of the slice loop, and the types of its numbers (H.266 7.3.2.5, 7.4.3.5, 6.5.1): total, for tiles in and
// out of the grid.
#![tactic(auto)]

ghost use Rattle.std.specs.Prelude.{◌≡◌, suc, ◌+◌, ◌-◌, ◌*◌, min, leb, ltb};
ghost use Rattle.partition.specs.Entry.{tile_x, tile_y, in_last_row, width_coded, height_coded, inherited_height, split_coded, tile_row_height, default_advance, delta_uncodable};
ghost use Rattle.slice_loop.specs.Answers.{tile_idx_of, next_by_delta};

use refusal::Refusal;

// A tile's index, a slice's index and a count of CTBs: none can stand in for another.
#[derive(Clone, Copy, PartialEq, Eq, PartialOrd, Ord, Debug)]
pub struct TileIdx(pub u32);

#[derive(Clone, Copy, PartialEq, Eq, PartialOrd, Ord, Debug)]
pub struct SliceIdx(pub u32);

#[derive(Clone, Copy, PartialEq, Eq, PartialOrd, Ord, Debug)]
pub struct CtbCount(pub u32);

// Where the slice loop stands: the slice index, its tile, and the height of the preceding slice index.
#[derive(Clone, Copy, PartialEq, Eq, Debug)]
pub struct LoopPosition {
    pub slice: SliceIdx,
    pub tile: TileIdx,
    pub preceding_height: u32,
}

// What the slice loop goes by, the row heights being lent beside it.
#[derive(Clone, Copy, PartialEq, Eq, Debug)]
pub struct SliceLoopCtx {
    pub num_tile_columns: u32,
    pub num_tile_rows: u32,
    pub delta_present: bool,
    pub num_slices_minus1: SliceIdx,
}

// The column and the row of a tile.
#[derive(Clone, Copy, PartialEq, Eq, Debug)]
pub struct TilePlace {
    pub x: u32,
    pub y: u32,
}

impl TileIdx {
    // A tile index held in 32 bits.
    #[tactic(auto, unfolding(crate::specs::Answers::tile_idx_of))]
    fn held(t: u64) -> TileIdx
        ensures { result ≡ tile_idx_of t }
    {
        TileIdx(t.min(4294967295) as u32)
    }
}

impl LoopPosition {
    pub const FIRST: LoopPosition = LoopPosition {
        slice: SliceIdx(0),
        tile: TileIdx(0),
        preceding_height: 0,
    };
}

impl SliceLoopCtx {
    // NumTilesInPic.
    pub fn num_tiles(self) -> u64
        ensures { result ≡ self.num_tile_rows * self.num_tile_columns }
    {
        u64::from(self.num_tile_rows) * u64::from(self.num_tile_columns)
    }

    // The tile is one of the grid's.
    pub fn has_tile(self, tile_idx: TileIdx) -> bool
        ensures { result ≡ ltb tile_idx.0 (self.num_tile_rows * self.num_tile_columns) }
    {
        let tiles = self.num_tiles();
        u64::from(tile_idx.0) < tiles
    }

    #[tactic(auto, unfolding(partition::specs::Entry::tile_x, partition::specs::Entry::tile_y))]
    pub fn place(self, tile_idx: TileIdx) -> TilePlace
        ensures { (result.x ≡ tile_x self.num_tile_columns tile_idx.0) × (result.y ≡ tile_y self.num_tile_columns tile_idx.0) }
    {
        let columns = self.num_tile_columns;
        let t = tile_idx.0;
        TilePlace {
            x: t.checked_rem(columns).unwrap_or(t),
            y: t.checked_div(columns).unwrap_or(0),
        }
    }

    #[tactic(auto, unfolding(partition::specs::Entry::in_last_row))]
    fn in_last_row(self, tile_idx: TileIdx) -> bool
        ensures { result ≡ in_last_row self.num_tile_columns self.num_tile_rows tile_idx.0 }
    {
        let p = self.place(tile_idx);
        u64::from(p.y) + 1 == u64::from(self.num_tile_rows)
    }

    // The 7.3.2.5 presence condition of pps_slice_width_in_tiles_minus1.
    #[tactic(auto, unfolding(partition::specs::Entry::width_coded, partition::specs::Entry::in_last_column))]
    pub fn width_coded(self, tile_idx: TileIdx) -> bool
        ensures { result ≡ width_coded self.num_tile_columns tile_idx.0 }
    {
        let p = self.place(tile_idx);
        u64::from(p.x) + 1 != u64::from(self.num_tile_columns)
    }

    // The 7.3.2.5 presence condition of pps_slice_height_in_tiles_minus1.
    #[tactic(auto, unfolding(partition::specs::Entry::height_coded))]
    pub fn height_coded(self, tile_idx: TileIdx) -> bool
        ensures { result ≡ height_coded self.num_tile_columns self.num_tile_rows self.delta_present tile_idx.0 }
    {
        let last = self.in_last_row(tile_idx);
        let p = self.place(tile_idx);
        !last && (self.delta_present || p.x == 0)
    }

    // The height minus 1 where it is not coded, from that of the preceding slice index.
    #[tactic(auto, unfolding(partition::specs::Entry::inherited_height))]
    pub fn inherited_height(self, tile_idx: TileIdx, preceding: u32) -> u32
        ensures { result ≡ inherited_height self.num_tile_columns self.num_tile_rows tile_idx.0 preceding }
    {
        if self.in_last_row(tile_idx) {
            0
        } else {
            preceding
        }
    }

    // How many columns there are from the tile's on: a slice's width minus 1 is below it, or 15.
    pub fn columns_left(self, tile_idx: TileIdx) -> u32
        ensures { result ≡ self.num_tile_columns - tile_x self.num_tile_columns tile_idx.0 }
    {
        let p = self.place(tile_idx);
        self.num_tile_columns.saturating_sub(p.x)
    }

    // How many rows there are from the tile's on.
    pub fn rows_left(self, tile_idx: TileIdx) -> u32
        ensures { result ≡ self.num_tile_rows - tile_y self.num_tile_columns tile_idx.0 }
    {
        let p = self.place(tile_idx);
        self.num_tile_rows.saturating_sub(p.y)
    }

    // RowHeightVal of the tile's row, 0 past the rows.
    #[tactic(auto, unfolding(partition::specs::Entry::tile_row_height))]
    pub fn row_height(self, row_heights: &[u32], tile_idx: TileIdx) -> CtbCount
        ensures { result.0 ≡ tile_row_height row_heights.now self.num_tile_columns tile_idx.0 }
    {
        let p = self.place(tile_idx);
        CtbCount(row_heights.get(p.y as usize).copied().unwrap_or(0))
    }

    // The 7.3.2.5 condition of pps_num_exp_slices_in_tile.
    #[tactic(auto, unfolding(partition::specs::Entry::split_coded))]
    pub fn exp_block(w_m1: u32, h_m1: u32, row_height: CtbCount) -> bool
        ensures { result ≡ split_coded w_m1 h_m1 row_height.0 }
    {
        w_m1 == 0 && h_m1 == 0 && row_height > CtbCount(1)
    }

    // There is a slice of this index.
    pub fn has_slice(self, slice_idx: SliceIdx) -> bool
        ensures { result ≡ leb slice_idx.0 self.num_slices_minus1.0 }
    {
        slice_idx <= self.num_slices_minus1
    }

    // Slices are still to come after this index.
    pub fn slices_to_come(self, slice_idx: SliceIdx) -> bool
        ensures { result ≡ ltb slice_idx.0 self.num_slices_minus1.0 }
    {
        slice_idx < self.num_slices_minus1
    }

    // So many slices from this index on are more than there can be (17).
    pub fn too_many_slices(self, first: SliceIdx, count: u32) -> bool
        ensures { result ≡ ltb self.num_slices_minus1.0 (first.0 + count - 1) }
    {
        u64::from(self.num_slices_minus1.0) + 1 < u64::from(first.0) + u64::from(count)
    }

    // The slice index behind an entry's last slice, held to N.
    pub fn slice_after(self, last: SliceIdx) -> SliceIdx
        ensures { result.0 ≡ min (suc last.0) self.num_slices_minus1.0 }
    {
        SliceIdx(last.0.saturating_add(1).min(self.num_slices_minus1.0))
    }

    // The 6.5.1 tile advance without a delta.
    #[tactic(auto, unfolding(partition::specs::Entry::default_advance, crate::specs::Answers::tile_idx_of))]
    pub fn default_advance(self, tile_idx: TileIdx, w_m1: u32, h_m1: u32) -> TileIdx
        ensures { result ≡ tile_idx_of (default_advance self.num_tile_columns tile_idx.0 w_m1 h_m1) }
    {
        let columns = u64::from(self.num_tile_columns);
        let next = u64::from(tile_idx.0) + u64::from(w_m1) + 1;
        if !next.is_multiple_of(columns) {
            return TileIdx::held(next);
        }
        let down = u64::from(h_m1) * columns;
        TileIdx::held(next.saturating_add(down))
    }

    // A delta that has no se(v) code (25).
    #[tactic(auto, unfolding(partition::specs::Entry::delta_uncodable))]
    pub fn delta_uncodable(delta: i32) -> bool
        ensures { result ≡ delta_uncodable delta }
    {
        delta.unsigned_abs() > 2147483647
    }

    // The tile after pps_tile_idx_delta_val (7.4.3.5).
    pub fn apply_delta(self, tile_idx: TileIdx, delta: i32) -> Result<TileIdx, Refusal>
        ensures { result ≡ next_by_delta (self.num_tile_rows * self.num_tile_columns) tile_idx.0 delta }
    {
        let tiles = self.num_tiles();
        let size = delta.unsigned_abs();
        match (tile_idx.0 as u64).checked_add_signed(delta as i64) {
            Some(to) if size != 0 && u64::from(size) < tiles && to < tiles => Ok(TileIdx::held(to)),
            _ => Err(Refusal::TileIdxDelta),
        }
    }
}
