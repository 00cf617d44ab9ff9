// Sizes minus 1 below a limit.
ghost use Rattle.std.specs.Prelude.{◌≡◌};
ghost use Rattle.refusal.specs.Numbers.{number};
ghost use Rattle.bit_writer.specs.Stop.{play_on};
ghost use Rattle.bit_writer.specs.Written.{written, ended};
ghost use Rattle.pps_put_slices.specs.Sizes.{size_symbols, sizes_symbols};

use bit_writer::{BitWriter, test};
use refusal::Refusal;

pub fn put_size(
    w: &mut BitWriter,
    out: &mut [u8],
    limit: u32,
    refusal: Refusal,
    v: u32,
) -> Result<(), Refusal>
    ensures { ended w.new out.new result ≡ play_on (written w.old out.old) (size_symbols limit (number refusal) v) }
{
    test(v < limit, refusal)?;
    w.put_ue(out, v)
}

pub fn put_sizes(
    w: &mut BitWriter,
    out: &mut [u8],
    limit: u32,
    refusal: Refusal,
    sizes: &[u32],
) -> Result<(), Refusal>
    ensures { ended w.new out.new result ≡ play_on (written w.old out.old) (sizes_symbols limit (number refusal) sizes.now) }
{
    for &v in sizes {
        put_size(w, out, limit, refusal, v)?;
    }
    Ok(())
}
