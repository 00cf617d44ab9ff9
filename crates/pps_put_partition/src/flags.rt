// The flags of the partition block and N (H.266 7.3.2.5).
ghost use Rattle.std.specs.Prelude.{◌≡◌};
ghost use Rattle.bit_writer.specs.Stop.{play_on};
ghost use Rattle.bit_writer.specs.Written.{written, ended};
ghost use Rattle.pps_syntax.specs.PartitionSyntax.{rect_flag, slices_minus1};

use bit_writer::{BitWriter, test};
use refusal::Refusal;
use tile_sizes::MAX_NUM_SLICES_MINUS1;

// pps_rect_slice_flag; a single tile has 1 for it, or 26.
pub fn put_rect(w: &mut BitWriter, out: &mut [u8], several: bool, v: u8) -> Result<(), Refusal>
    ensures { ended w.new out.new result ≡ play_on (written w.old out.old) ((rect_flag several).symbols v) }
{
    if !several {
        return test(v == 1, Refusal::Contradiction);
    }
    w.put_flag(out, v);
    Ok(())
}

// pps_num_slices_in_pic_minus1; 14 over its limit.
pub fn put_num_slices(w: &mut BitWriter, out: &mut [u8], on: bool, n: u32) -> Result<(), Refusal>
    ensures { ended w.new out.new result ≡ play_on (written w.old out.old) ((slices_minus1 on).symbols n) }
{
    if !on {
        return Ok(());
    }
    test(n <= MAX_NUM_SLICES_MINUS1, Refusal::TooManySlices)?;
    w.put_ue(out, n)
}
