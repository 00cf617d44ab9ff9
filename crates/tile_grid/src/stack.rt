// The slices of one group: of one left and width, each under the one before.
ghost use Rattle.std.specs.Prelude.{◌≡◌, ◌+◌, ◌≤◌, length};
ghost use Rattle.partition.specs.Entry.{split_heights};
ghost use Rattle.partition.specs.Grid.{max_slices};
ghost use Rattle.partition.specs.Groups.{stacked};
ghost use Rattle.partition.specs.Sizes.{Fit};
ghost use Rattle.tile_grid.specs.Stacking.{put_plan, stack_unit};

use super::SliceRect;
use slice_loop::{CtbCount, SliceIdx};
use tile_sizes::next_size;

// The height that repeats: the last explicit one, or all of them.
fn unit_of(heights_minus1: &[u32], total: CtbCount) -> CtbCount
    requires { Fit heights_minus1.now total.0 }
    ensures { result.0 ≡ stack_unit heights_minus1.now total.0 }
{
    match heights_minus1 {
        [] => total,
        [.., last] => CtbCount(*last + 1),
    }
}

// The slices that a block of CTBs is cut into from the top, from slice index `from` on; gives the index behind them.
pub fn stack(
    heights_minus1: &[u32],
    block: SliceRect,
    slices: &mut [SliceRect],
    from: SliceIdx,
) -> SliceIdx
    requires { Fit heights_minus1.now block.height.0 × (1 ≤ block.height.0) × (block.top.0 + block.height.0 ≤ 4294967295)
        × (from.0 + length (split_heights heights_minus1.now block.height.0) ≤ max_slices) × (length slices.old ≡ max_slices) }
    ensures next { result.0 ≡ from.0 + length (split_heights heights_minus1.now block.height.0) }
    ensures slices { let each = split_heights heights_minus1.now block.height.0 in
        slices.new ≡ put_plan slices.old from.0 (stacked block.left.0 block.width.0 block.top.0 each) }
{
    let unit = unit_of(heights_minus1, block.height);
    let mut remaining = block.height.0;
    let mut top = block.top.0;
    let mut k = from.0;
    let mut j: usize = 0;
    // By what is left: how many heights there are is not known before.
    while remaining > 0 {
        let h = next_size(heights_minus1, unit.0, j, remaining);
        slices[k as usize] = SliceRect {
            left: block.left,
            top: CtbCount(top),
            width: block.width,
            height: CtbCount(h),
        };
        top += h;
        remaining -= h;
        k += 1;
        j += 1;
    }
    SliceIdx(k)
}
