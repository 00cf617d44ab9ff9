// The front of the partition block: the CTU size and the explicit tile sizes (H.266 7.3.2.5).
ghost use Rattle.std.specs.Prelude.{◌≡◌, ◌≤◌, length};
ghost use Rattle.bit_writer.specs.Stop.{play_on};
ghost use Rattle.bit_writer.specs.Written.{written, ended};
ghost use Rattle.pps_syntax.specs.PartitionSyntax.{ctu_size};
ghost use Rattle.pps_put_partition.specs.Puts.{tiles_put};

use bit_writer::{BitWriter, test};
use pps_put_slices::sizes::put_sizes;
use refusal::Refusal;
use tile_sizes::in_ctbs;

// pps_log2_ctu_size_minus5; 9 over 2.
fn put_ctu_size(w: &mut BitWriter, out: &mut [u8], v: u8) -> Result<(), Refusal>
    ensures { ended w.new out.new result ≡ play_on (written w.old out.old) (ctu_size.symbols v) }
{
    test(v <= 2, Refusal::CtuSize)?;
    w.put_bits(out, v as u32, 2);
    Ok(())
}

// 9, 10, 11, or the explicit tile sizes of a picture of so many luma samples.
pub fn put_tile_sizes(
    w: &mut BitWriter,
    out: &mut [u8],
    width: u32,
    height: u32,
    ctu: u8,
    widths: &[u32],
    heights: &[u32],
) -> Result<(), Refusal>
    requires { (length widths.now ≤ 4294967295) × (length heights.now ≤ 4294967295) }
    ensures { ended w.new out.new result
        ≡ tiles_put width height ctu widths.now heights.now (written w.old out.old) }
{
    put_ctu_size(w, out, ctu)?;
    test(
        (widths.len() != 0) & (heights.len() != 0),
        Refusal::TileCounts,
    )?;
    w.put_ue(out, (widths.len() - 1) as u32)?;
    w.put_ue(out, (heights.len() - 1) as u32)?;
    put_sizes(w, out, in_ctbs(width, ctu).0, Refusal::TileSize, widths)?;
    put_sizes(w, out, in_ctbs(height, ctu).0, Refusal::TileSize, heights)
}
