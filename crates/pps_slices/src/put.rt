// An entry into its row.
ghost use Rattle.std.specs.Prelude.{◌≡◌, set};
ghost use Rattle.pps_slices.specs.Entries.{read_row};

use super::entry::RectSliceRead;
use pps_tables::{ENTRY_LEN, bits_of_delta, put_row};

pub fn put_slice(r: RectSliceRead, i: u32, entries: &mut [[u32; ENTRY_LEN]])
    ensures { entries.new ≡ set entries.old i (read_row r) }
{
    let delta = bits_of_delta(r.delta.unwrap_or(0));
    let row = [
        r.width,
        r.height,
        u32::from(r.split_count.is_some()),
        r.split_count.unwrap_or(0),
        u32::from(r.delta.is_some()),
        delta,
    ];
    put_row(entries, i, row);
}
