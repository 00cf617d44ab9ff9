// The payload of a NAL unit, in the work buffer.
ghost use Rattle.std.specs.Prelude.{◌≡◌, ◌-◌, ◌≤◌, length};
ghost use Rattle.tables.specs.Tables.{over};
ghost use Rattle.pps_syntax.specs.Rbsp.{rbsp_of};

// Puts the payload without its escape bytes into the front of the work buffer; the number of these bytes.
pub fn unescape_payload(unit: &[u8], work: &mut [u8]) -> usize
    requires in_bounds { 2 ≤ length unit.now }
    requires unit_len_bound { length unit.now ≤ 65535 }
    requires unit_in_bounds { length unit.now - 2 ≤ length work.old }
    ensures value { result ≡ length (rbsp_of unit.now) }
    ensures work_after { work.new ≡ over (rbsp_of unit.now) work.old }
{
    nal::ebsp_to_rbsp(&unit[2..], work).unwrap()
}
