// How often the tiles of a grid are covered by groups of tiles: the counting behind the cover check
// (docs/BEHAVIOUR.md).
ghost use Rattle.std.specs.Prelude.{◌≡◌, ◌+◌, ◌*◌, ◌/◌, ◌%◌, ◌≤◌, ◌<◌, cond, get_or, length};
ghost use Rattle.partition.specs.Cover.{RightTiles};
ghost use Rattle.partition.specs.Grid.{max_tile_columns, max_tiles, max_slices};
ghost use Rattle.partition.specs.Groups.{groups_at};
ghost use Rattle.partition.specs.Sums.{among};
ghost use Rattle.tile_grid.specs.Edges.{add_at, top_row, past_row, marked, AllZero};
ghost use Rattle.tile_grid.specs.PlanQuestion.{named};
ghost use Rattle.tile_grid.specs.Seen.{with_tile, RightSeen};
ghost use Rattle.tile_grid.specs.TileGroups.{groups_in, Countable};

use super::Cover;
use super::placed::TileGroup;
use slice_loop::TileIdx;
use tile_sizes::MAX_TILES;

// x is one of the count numbers from first on.
#[tactic(auto, unfolding(partition::specs::Sums::among))]
fn inside(first: u32, count: u32, x: u32) -> bool
    ensures { cond result 1 0 ≡ among first count x }
{
    first <= x && x - first < count
}

// One more at a row, where the table has that row.
#[tactic(auto, unfolding(crate::specs::Edges::add_at))]
fn add_one(table: &mut [u32], row: u32, height: u32)
    requires { get_or table.old (row + height) 0 + 1 < 4294967296 }
    ensures { table.new ≡ add_at table.old (row + height) 1 }
{
    let at = row as usize + height as usize;
    if at < table.len() {
        table[at] += 1;
    }
}

// Of the groups that reach into column x: how many begin in each row, and how many have ended just above it.
fn count_edges(starts: &mut [u32], ends: &mut [u32], x: u32, groups: &[TileGroup])
    requires { AllZero starts.old × AllZero ends.old × (length groups.now ≤ max_slices) }
    ensures { let ps = groups_in groups.now in
        (starts.new ≡ marked top_row x ps starts.old)
        × (ends.new ≡ marked past_row x ps ends.old) }
{
    for g in groups {
        if !inside(g.x, g.columns, x) {
            continue;
        }
        add_one(starts, g.y, 0);
        add_one(ends, g.y, g.rows);
    }
}

impl Cover {
    // The answer with one tile more, which lies in so many groups.
    #[tactic(auto, unfolding(crate::specs::PlanQuestion::named, crate::specs::Seen::with_tile))]
    fn with_tile(self, tile: TileIdx, count: u32) -> Cover
        ensures { named result ≡ with_tile (named self) tile.0 count }
    {
        match self {
            Cover::Gap(_) => self,
            _ if count == 0 => Cover::Gap(tile),
            Cover::Whole if count > 1 => Cover::Double(tile),
            _ => self,
        }
    }

    // The answer with one column more: down the column, the groups that have begun, without those that have ended.
    fn with_column(self, x: u32, columns: u32, rows: u32, groups: &[TileGroup]) -> Cover
        requires { let ps = groups_in groups.now in
            (x < columns) × (columns * rows ≤ max_tiles) × (columns ≤ max_tile_columns) × (length groups.now ≤ max_slices)
            × RightSeen columns rows (groups_at ps) x 0 (named self) }
        ensures { let ps = groups_in groups.now in
            RightSeen columns rows (groups_at ps) (x + 1) 0 (named result) }
    {
        let mut starts = [0u32; MAX_TILES as usize];
        let mut ends = [0u32; MAX_TILES as usize];
        count_edges(&mut starts, &mut ends, x, groups);
        let mut cover = self;
        let mut count: u32 = 0;
        let mut tile = x;
        for y in 0..rows as usize {
            count = count + starts[y] - ends[y];
            cover = cover.with_tile(TileIdx(tile), count);
            tile += columns;
        }
        cover
    }

    // What these groups cover; what lies outside the grid counts for nothing. The tile that the answer names is any
    // that is as it says.
    pub(super) fn of_groups(columns: u32, rows: u32, groups: &[TileGroup]) -> Cover
        requires { Countable columns rows groups.now }
        ensures { let ps = groups_in groups.now in
            RightTiles (columns * rows) (λ t. groups_at ps (t % columns) (t / columns)) (named result) }
    {
        let mut cover = Cover::Whole;
        for x in 0..columns {
            cover = cover.with_column(x, columns, rows, groups);
        }
        cover
    }
}
