// The slices of a picture in CTBs, by slice index, and the groups of tiles that they are cut from (H.266 6.5.1,
// equation 21).
ghost use Rattle.std.specs.Prelude.{◌≡◌, List};
ghost use Rattle.partition.specs.Grid.{Grid};
ghost use Rattle.partition.specs.Groups.{Group, plan};
ghost use Rattle.pps_tables.specs.Lent.{slices_of};
ghost use Rattle.tile_grid.specs.Placed.{AcceptedIn, placed_of};

use super::SlicePlan;
use super::place::place_slices;
use super::starts::starts_of;
use grid_sizes::GridSizes;
use pps_record::VvcPpsPartition;
use pps_tables::SliceTables;
use tile_sizes::MAX_SLICES;

// A block of columns by rows of tiles from one tile on.
#[derive(Clone, Copy, Debug, PartialEq, Eq)]
pub struct TileGroup {
    pub x: u32,
    pub y: u32,
    pub columns: u32,
    pub rows: u32,
}

impl TileGroup {
    const NONE: TileGroup = TileGroup {
        x: 0,
        y: 0,
        columns: 0,
        rows: 0,
    };
}

// The slices, and the groups that they are cut from, in tables as long as a plan's can be; places not in use are 0.
#[derive(Clone, Copy)]
pub struct Placed {
    pub plan: SlicePlan,
    pub num_groups: u32,
    pub groups: [TileGroup; MAX_SLICES as usize],
}

impl Placed {
    pub const NONE: Placed = Placed {
        plan: SlicePlan::NONE,
        num_groups: 0,
        groups: [TileGroup::NONE; MAX_SLICES as usize],
    };
}

// The slices of a partition that is accepted in the grid of these sizes.
pub fn accepted_slices(sizes: &GridSizes, p: &VvcPpsPartition, tables: SliceTables<'_>) -> Placed
    requires { (g : Grid) × ((ps : List Group) × AcceptedIn sizes.now p.now (slices_of tables) g ps) }
    ensures { (g : Grid) (ps : List Group) → AcceptedIn sizes.now p.now (slices_of tables.entry) g ps
        → result ≡ placed_of (plan g ps) ps }
{
    let column_widths = sizes.column_widths();
    let row_heights = sizes.row_heights();
    let column_starts = starts_of(column_widths);
    let row_starts = starts_of(row_heights);
    place_slices(
        column_widths,
        &column_starts,
        row_heights,
        &row_starts,
        p,
        tables,
    )
}
