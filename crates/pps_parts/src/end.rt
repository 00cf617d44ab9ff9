// What stands behind the fields of a set.
ghost use Rattle.std.specs.Prelude.{◌≡◌};
ghost use Rattle.bit_reader.specs.Gives.{Gives, cursor_of};
ghost use Rattle.pps_parts.specs.Ends.{extension_at, end_read};

use bit_reader::BitReader;
use refusal::Refusal;

#[tactic(auto, unfolding(crate::specs::Ends::extension_at))]
fn extension_bits(r: &BitReader<'_>, flag: u8) -> usize
    ensures { result ≡ extension_at r.now.bytes.now flag (cursor_of r.now) }
{
    if flag == 0 { 0 } else { r.extension_bits() }
}

// The extension bits and the trailing bits; how many extension bits there are.
pub fn read_end(r: &mut BitReader<'_>, flag: u8) -> Result<usize, Refusal>
    ensures { Gives (end_read flag) r.old r.new result }
{
    let bits = extension_bits(r, flag);
    r.bit_pos += bits;
    r.rbsp_trailing_bits()?;
    Ok(bits)
}
