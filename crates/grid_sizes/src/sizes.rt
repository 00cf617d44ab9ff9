// Sizes on an axis of the grid, written, and their refusals (H.266 6.5.1, equations 14 and 15; 7.4.3.5).
#![tactic(auto, unfolding(partition::specs::Partition::explicit_checks, partition::specs::Partition::axis_checks, partition::specs::Checks::first_bad, partition::specs::Checks::number_of, refusal::specs::Numbers::refused, refusal::specs::Numbers::number))]

ghost use Rattle.std.specs.Prelude.{◌≡◌, ◌++◌, ◌≤◌, length, drop, IfOk};
ghost use Rattle.refusal.specs.Numbers.{refused};
ghost use Rattle.partition.specs.Sizes.{axis_sizes, Fit};
ghost use Rattle.partition.specs.Checks.{first_bad, number_of};
ghost use Rattle.partition.specs.Partition.{explicit_checks, axis_checks};

use refusal::Refusal;
use slice_loop::CtbCount;
use tile_sizes::{count_sizes, next_size, some_at_least};

// 10 where there are no explicit columns or rows, 11 where one of them is too large.
pub fn explicit_refusal(
    width: CtbCount,
    height: CtbCount,
    column_widths_minus1: &[u32],
    row_heights_minus1: &[u32],
) -> Result<(), Refusal>
    ensures { refused result ≡ number_of (first_bad (explicit_checks width.0 height.0 column_widths_minus1.now row_heights_minus1.now)) }
{
    if column_widths_minus1.is_empty() || row_heights_minus1.is_empty() {
        return Err(Refusal::TileCounts);
    }
    if some_at_least(width, column_widths_minus1) || some_at_least(height, row_heights_minus1) {
        return Err(Refusal::TileSize);
    }
    Ok(())
}

// How many sizes there are on an axis; 12 where the explicit ones pass it, 13 where there are more than the limit.
pub fn axis_answer(exp_minus1: &[u32], total: CtbCount, limit: u32) -> Result<u32, Refusal>
    ensures number { refused result ≡ number_of (first_bad (axis_checks exp_minus1.now total.0 limit)) }
    ensures count { IfOk result (λ n. n ≡ length (axis_sizes exp_minus1.now total.0)) }
{
    let count = count_sizes(exp_minus1, total).ok_or(Refusal::TileSizesSum)?;
    if count > limit {
        return Err(Refusal::GridTooLarge);
    }
    Ok(count)
}

// The sizes of an axis, from the front of a table on. Its loop ends where the axis does: a table has 990 places, an axis
// mostly few sizes.
#[tactic(auto)]
pub fn sizes_into(exp_minus1: &[u32], total: CtbCount, out: &mut [u32])
    requires { (1 ≤ length exp_minus1.now) × Fit exp_minus1.now total.0 × (length (axis_sizes exp_minus1.now total.0) ≤ length out.old) }
    ensures { out.new ≡ axis_sizes exp_minus1.now total.0 ++ drop (length (axis_sizes exp_minus1.now total.0)) out.old }
{
    let uniform = exp_minus1[exp_minus1.len() - 1] + 1;
    let mut remaining = total.0;
    for (j, place) in out.iter_mut().enumerate() {
        if remaining == 0 {
            break;
        }
        *place = next_size(exp_minus1, uniform, j, remaining);
        remaining -= *place;
    }
}
