// The extension bits.
ghost use Rattle.std.specs.Prelude.{◌≡◌};
ghost use Rattle.codes.specs.Bytes.{bit_list};
ghost use Rattle.bit_writer.specs.Stop.{play_on};
ghost use Rattle.bit_writer.specs.Written.{written, ended};
ghost use Rattle.pps_syntax.specs.FromRecord.{extension_from};
ghost use Rattle.pps_syntax.specs.Written.{end_in_one, extension_symbols};

use bit_writer::{BitWriter, test};
use pps_record::VvcPps;
use refusal::Refusal;

// Whether the last of `count` bits from bit `first` on is 1, or there is none.
fn end_in_one(bytes: &[u8], first: usize, count: usize) -> bool
    ensures { result ≡ end_in_one (bit_list bytes.now first count) }
{
    if count == 0 {
        return true;
    }
    match first.checked_add(count - 1) {
        Some(last) => bit_reader::bit_at(bytes, last) == 1,
        None => false,
    }
}

// The record's extension bits out of `bytes`: they end in 1, and without the flag there are none.
pub fn put_extension(
    w: &mut BitWriter,
    out: &mut [u8],
    r: &VvcPps,
    bytes: &[u8],
) -> Result<(), Refusal>
    ensures { ended w.new out.new result
        ≡ play_on (written w.old out.old)
        (extension_symbols r.now.pps_extension_flag (extension_from r.now bytes.now)) }
{
    let first = r.pps_extension_data_first_bit;
    let count = r.pps_extension_data_bits;
    if r.pps_extension_flag == 0 {
        return test(count == 0, Refusal::Contradiction);
    }
    test(
        end_in_one(bytes, first, count),
        Refusal::ExtensionEndsInZero,
    )?;
    w.put_copy(out, bytes, first, count);
    Ok(())
}
