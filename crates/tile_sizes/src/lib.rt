// Sizes on an axis, counted without making them, and the next of them (H.266 6.5.1, equations 14, 15 and 21).
#![tactic(auto)]

ghost use Rattle.std.specs.Prelude.{◌≡◌, cond, ◌≤◌, min, length, drop, leb};
ghost use Rattle.partition.specs.Entry.{some_at_least};
ghost use Rattle.partition.specs.Partition.{in_ctbs};
ghost use Rattle.partition.specs.Sizes.{sum, explicit_sizes, uniform_sizes, axis_sizes};
ghost use Rattle.tile_sizes.specs.Answers.{next_size, slices_in_tile};
ghost use Rattle.tile_sizes.specs.Limits.{within_limits};

use refusal::Refusal;
use slice_loop::CtbCount;

// Table A.2, for every level: the limits of the grid (`TileGrid` has them as its constants).
pub const MAX_TILE_COLUMNS: u32 = 30;

pub const MAX_TILES: u32 = 990;

pub const MAX_NUM_SLICES_MINUS1: u32 = 999;

pub const MAX_SLICES: u32 = MAX_NUM_SLICES_MINUS1 + 1;

// A grid of so many columns and rows is within the limits.
#[tactic(auto, unfolding(crate::specs::Limits::within_limits))]
pub fn within_limits(columns: usize, rows: usize) -> bool
    ensures { result ≡ within_limits columns rows }
{
    let most_rows = (MAX_TILES as usize).checked_div(columns).unwrap_or(0);
    columns <= MAX_TILE_COLUMNS as usize && rows <= most_rows
}

// A length in luma samples, in blocks of 2^(5 + the CTU size field), rounded up. A field over 5 counts as 5.
pub fn in_ctbs(samples: u32, log2_ctu_size_minus5: u8) -> CtbCount
    ensures { result.0 ≡ in_ctbs samples (min log2_ctu_size_minus5 5) }
{
    let log2_ctu_size = 5 + log2_ctu_size_minus5.min(5);
    let part = (1u64 << log2_ctu_size) - 1;
    let blocks = (samples as u64 + part) >> log2_ctu_size;
    CtbCount(blocks as u32)
}

// How many sizes fill what remains of an axis: the uniform one as often as it fits, then a tail.
pub fn uniform_sizes(uniform: u32, remaining: u32) -> u32
    ensures { (result ≡ length (uniform_sizes uniform remaining)) × (result ≤ remaining) }
{
    if uniform == 0 {
        return remaining.min(1);
    }
    remaining.div_ceil(uniform)
}

// One pass over the explicit sizes of an axis (minus 1): how many sizes there are, without making them. None where the
// explicit ones pass the axis.
pub fn count_sizes(exp_minus1: &[u32], total: CtbCount) -> Option<u32>
    ensures { result ≡ cond (leb (sum (explicit_sizes exp_minus1.now)) total.0) (Some (length (axis_sizes exp_minus1.now total.0))) None }
{
    let mut remaining = total.0;
    let mut uniform: u32 = 1;
    for &e in exp_minus1 {
        if e >= remaining {
            return None;
        }
        uniform = e + 1;
        remaining -= uniform;
    }
    Some(exp_minus1.len() as u32 + remaining.div_ceil(uniform))
}

// The size at j: an explicit one, or the uniform one, or the tail; in no case more than remains.
pub fn next_size(exp_minus1: &[u32], uniform: u32, j: usize, remaining: u32) -> u32
    ensures { result ≡ min (next_size (drop j exp_minus1.now) uniform remaining) remaining }
{
    match exp_minus1.get(j) {
        Some(&e) => e.saturating_add(1).min(remaining),
        None => uniform.min(remaining),
    }
}

// Some size minus 1 is at least the limit.
pub fn some_at_least(limit: CtbCount, sizes_minus1: &[u32]) -> bool
    ensures { result ≡ some_at_least limit.0 sizes_minus1.now }
{
    sizes_minus1.iter().any(|&e| e >= limit.0)
}

// NumSlicesInTile of 6.5.1, equation 21; refused where the explicit slice heights (minus 1) pass the row.
pub fn num_slices_in_tile(heights_minus1: &[u32], row_height: CtbCount) -> Result<u32, Refusal>
    ensures { result ≡ slices_in_tile heights_minus1.now row_height.0 }
{
    if heights_minus1.is_empty() {
        return Ok(1);
    }
    count_sizes(heights_minus1, row_height).ok_or(Refusal::SplitHeights)
}
