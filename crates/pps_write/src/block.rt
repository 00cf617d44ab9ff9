// The partition block, where there is one.
ghost use Rattle.std.specs.Prelude.{◌≡◌};
ghost use Rattle.bit_writer.specs.Stop.{play_on};
ghost use Rattle.bit_writer.specs.Written.{written, ended};
ghost use Rattle.pps_syntax.specs.FromRecord.{partition_from};
ghost use Rattle.pps_tables.specs.Lent.{lent_of};
ghost use Rattle.pps_write.specs.SetPut.{partition_symbols};

use bit_writer::{BitWriter, test};
use pps_put_partition::put_partition;
use pps_record::VvcPps;
use pps_tables::LentTables;
use refusal::Refusal;

// 26 for a block in a picture that isn't partitioned, or none in one that is.
pub fn put_block(
    w: &mut BitWriter,
    out: &mut [u8],
    partitioned: bool,
    pps: &VvcPps,
    tables: LentTables<'_>,
) -> Result<(), Refusal>
    ensures { let p = pps.now.partition in
        let blocks = partition_from p (lent_of tables.entry) in
        ended w.new out.new result
        ≡ play_on (written w.old out.old)
        (partition_symbols partitioned pps.now.pps_pic_width_in_luma_samples pps.now.pps_pic_height_in_luma_samples p.present blocks) }
{
    let p = &pps.partition;
    test((p.present != 0) == partitioned, Refusal::Contradiction)?;
    if !partitioned {
        return Ok(());
    }
    let width = pps.pps_pic_width_in_luma_samples;
    let height = pps.pps_pic_height_in_luma_samples;
    put_partition(w, out, width, height, p, tables)
}
