// The whole set into bytes.
ghost use Rattle.std.specs.Prelude.{◌≡◌};
ghost use Rattle.bit_writer.specs.Written.{written};
ghost use Rattle.pps_tables.specs.Lent.{lent_of};
ghost use Rattle.pps_write.specs.Block.{begun};
ghost use Rattle.pps_write.specs.Forms.{is_nal};
ghost use Rattle.pps_write.specs.Runs.{SetRun};

use super::Form;
use super::block::put_block;
use bit_writer::BitWriter;
use pps_put_parts::extension::put_extension;
use pps_put_parts::parts::{put_back, put_front};
use pps_record::{VvcPps, VvcQpOffsets};
use pps_tables::LentTables;
use refusal::Refusal;

// At the start of an RBSP, or behind the header of a NAL unit.
fn begin(out: &mut [u8], form: Form) -> BitWriter
    ensures { written result out.new ≡ begun (is_nal form) out.old }
{
    match form {
        Form::Rbsp => BitWriter::new(false),
        Form::NalUnit => BitWriter::start_nal(out, 0x00, 0x81),
    }
}

// The set with its trailing bits, and the number of its bytes, whether or not the output reaches so far.
pub fn put_set(
    out: &mut [u8],
    form: Form,
    pps: &VvcPps,
    triples: &[VvcQpOffsets; 6],
    tables: LentTables<'_>,
    extension: &[u8],
) -> Result<usize, Refusal>
    ensures { SetRun (is_nal form) pps.now triples.now (lent_of tables.entry) extension.now out.old out.new result }
{
    let partitioned = pps.pps_no_pic_partition_flag == 0;
    let mut w = begin(out, form);
    put_front(&mut w, out, pps, tables.subpic_ids)?;
    put_block(&mut w, out, partitioned, pps, tables)?;
    put_back(&mut w, out, partitioned, pps, triples)?;
    put_extension(&mut w, out, pps, extension)?;
    w.close(out);
    Ok(w.put)
}
