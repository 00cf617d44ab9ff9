// The questions on a record: its tile grid, its slice plan, and what its slices cover. An enum doesn't cross, so an
// answer is a struct with the refusal's number beside the values, and the cover answer a kind with its values beside it.
ghost use Rattle.std.specs.Prelude.{◌≡◌, Ok, length};
ghost use Rattle.refusal.specs.Answers.{with_number};
ghost use Rattle.pps_tables.specs.Parameters.{before};
ghost use Rattle.partition.specs.Grid.{max_slices};
ghost use Rattle.tile_grid.specs.GridQuestion.{of_record};
ghost use Rattle.tile_grid.specs.PlanQuestion.{slice_plan, SliceCover};
ghost use Rattle.vvc_pps.specs.QuestionAnswers.{grid_held, plan_held, cover_held, HeldBy};

use pps_record::VvcPps;
use pps_tables::{ENTRY_LEN, LentTables, SliceTables};
use refusal::Refusal;
use tile_grid::{Cover, SlicePlan, SliceRect, TileGrid};
use tile_sizes::{MAX_SLICES, MAX_TILE_COLUMNS, MAX_TILES};

#[repr(C)]
#[derive(Clone, Copy)]
pub struct VvcGridAnswer {
    pub refused: u8,
    pub num_tile_columns: u32,
    pub num_tile_rows: u32,
    pub column_widths: [u32; MAX_TILE_COLUMNS as usize],
    pub row_heights: [u32; MAX_TILES as usize],
}

#[repr(C)]
#[derive(Clone, Copy)]
pub struct VvcPlanAnswer {
    pub refused: u8,
    pub num_slices: u32,
    pub left: [u32; MAX_SLICES as usize],
    pub top: [u32; MAX_SLICES as usize],
    pub width: [u32; MAX_SLICES as usize],
    pub height: [u32; MAX_SLICES as usize],
}

// `refused` beside the kind REFUSED, `tile` beside GAP and DOUBLE; else they are 0.
#[repr(C)]
#[derive(Clone, Copy)]
pub struct VvcCoverAnswer {
    pub kind: u8,
    pub refused: u8,
    pub tile: u32,
}

const COVER_NONE: u8 = 0;

const COVER_WHOLE: u8 = 1;

const COVER_GAP: u8 = 2;

const COVER_DOUBLE: u8 = 3;

const COVER_REFUSED: u8 = 4;

impl From<Result<TileGrid, Refusal>> for VvcGridAnswer {
    ghost from_gives = { λ answer held. held ≡ grid_held (with_number answer) };

    // By itself, so that its tables do not stand on the stack while the question is answered.
    #[inline(never)]
    fn from(answer: Result<TileGrid, Refusal>) -> VvcGridAnswer {
        match answer {
            Ok(grid) => {
                let column_widths = grid.sizes.column_widths;
                let row_heights = grid.sizes.row_heights;
                VvcGridAnswer {
                    refused: 0,
                    num_tile_columns: grid.sizes.num_tile_columns,
                    num_tile_rows: grid.sizes.num_tile_rows,
                    column_widths,
                    row_heights,
                }
            }
            Err(e) => VvcGridAnswer {
                refused: e.number(),
                num_tile_columns: 0,
                num_tile_rows: 0,
                column_widths: [0; MAX_TILE_COLUMNS as usize],
                row_heights: [0; MAX_TILES as usize],
            },
        }
    }
}

// Each number of the slices in a table of its own.
fn of_plan(num_slices: u32, slices: &[SliceRect]) -> VvcPlanAnswer
    requires { length slices.now ≡ max_slices }
    ensures { result ≡ plan_held (Ok (record { num_slices = num_slices; slices = slices.now })) }
{
    let mut left = [0; MAX_SLICES as usize];
    let mut top = [0; MAX_SLICES as usize];
    let mut width = [0; MAX_SLICES as usize];
    let mut height = [0; MAX_SLICES as usize];
    for (i, slice) in slices.iter().enumerate() {
        left[i] = slice.left.0;
        top[i] = slice.top.0;
        width[i] = slice.width.0;
        height[i] = slice.height.0;
    }
    VvcPlanAnswer {
        refused: 0,
        num_slices,
        left,
        top,
        width,
        height,
    }
}

impl From<Result<SlicePlan, Refusal>> for VvcPlanAnswer {
    ghost from_gives = { λ answer held. held ≡ plan_held (with_number answer) };

    fn from(answer: Result<SlicePlan, Refusal>) -> VvcPlanAnswer {
        match answer {
            Ok(plan) => of_plan(plan.num_slices, &plan.slices),
            Err(e) => VvcPlanAnswer {
                refused: e.number(),
                num_slices: 0,
                left: [0; MAX_SLICES as usize],
                top: [0; MAX_SLICES as usize],
                width: [0; MAX_SLICES as usize],
                height: [0; MAX_SLICES as usize],
            },
        }
    }
}

impl From<Result<Option<Cover>, Refusal>> for VvcCoverAnswer {
    ghost from_gives = { λ answer held. held ≡ cover_held (with_number answer) };

    fn from(answer: Result<Option<Cover>, Refusal>) -> VvcCoverAnswer {
        let (kind, refused, tile) = match answer {
            Ok(None) => (COVER_NONE, 0, 0),
            Ok(Some(Cover::Whole)) => (COVER_WHOLE, 0, 0),
            Ok(Some(Cover::Gap(t))) => (COVER_GAP, 0, t.0),
            Ok(Some(Cover::Double(t))) => (COVER_DOUBLE, 0, t.0),
            Err(e) => (COVER_REFUSED, e.number(), 0),
        };
        VvcCoverAnswer {
            kind,
            refused,
            tile,
        }
    }
}

// The grid question.
#[unsafe(no_mangle)]
pub extern "C" fn vvc_tile_grid(
    pps: VvcPps,
    subpic_ids: &[u32],
    tile_column_widths: &[u32],
    tile_row_heights: &[u32],
    entries: &[[u32; ENTRY_LEN]],
    split_heights: &[u32],
) -> VvcGridAnswer
    ensures { let given = before subpic_ids tile_column_widths tile_row_heights entries split_heights in
        result ≡ grid_held (of_record pps given) }
{
    let lent = LentTables {
        subpic_ids,
        tile_column_widths,
        tile_row_heights,
        slices: SliceTables {
            entries,
            split_heights,
        },
    };
    VvcGridAnswer::from(TileGrid::of_record(&pps, lent))
}

// The plan question.
#[unsafe(no_mangle)]
pub extern "C" fn vvc_slice_plan(
    pps: VvcPps,
    subpic_ids: &[u32],
    tile_column_widths: &[u32],
    tile_row_heights: &[u32],
    entries: &[[u32; ENTRY_LEN]],
    split_heights: &[u32],
) -> VvcPlanAnswer
    ensures { let given = before subpic_ids tile_column_widths tile_row_heights entries split_heights in
        result ≡ plan_held (slice_plan pps given) }
{
    let lent = LentTables {
        subpic_ids,
        tile_column_widths,
        tile_row_heights,
        slices: SliceTables {
            entries,
            split_heights,
        },
    };
    VvcPlanAnswer::from(TileGrid::slice_plan(&pps, lent))
}

// The cover question.
#[unsafe(no_mangle)]
pub extern "C" fn vvc_cover(
    pps: VvcPps,
    subpic_ids: &[u32],
    tile_column_widths: &[u32],
    tile_row_heights: &[u32],
    entries: &[[u32; ENTRY_LEN]],
    split_heights: &[u32],
) -> VvcCoverAnswer
    ensures { let given = before subpic_ids tile_column_widths tile_row_heights entries split_heights in
        HeldBy (SliceCover pps given) result }
{
    let lent = LentTables {
        subpic_ids,
        tile_column_widths,
        tile_row_heights,
        slices: SliceTables {
            entries,
            split_heights,
        },
    };
    VvcCoverAnswer::from(TileGrid::slice_cover(&pps, lent))
}
