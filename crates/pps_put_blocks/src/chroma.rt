// The chroma tool offsets block. Its list of up to six triples of offsets is passed beside the record.
ghost use Rattle.std.specs.Prelude.{◌≡◌, map};
ghost use Rattle.bit_writer.specs.Stop.{play_on};
ghost use Rattle.bit_writer.specs.Written.{written, ended};
ghost use Rattle.syntax.specs.Syntax.{symbols_for};
ghost use Rattle.pps_syntax.specs.Chroma.{chroma, triple, triple_element};
ghost use Rattle.pps_syntax.specs.FromRecord.{chroma_from, triple_of};
ghost use Rattle.pps_put.specs.Each.{each};

use bit_writer::{BitWriter, test};
use pps_put::leaves::{put_offset, put_offset_if};
use pps_record::{VvcPpsChromaToolOffsets, VvcQpOffsets};
use refusal::Refusal;

// One triple; its third offset is coded only with the joint flag.
fn put_triple(
    w: &mut BitWriter,
    out: &mut [u8],
    joint: bool,
    t: VvcQpOffsets,
) -> Result<(), Refusal>
    ensures { ended w.new out.new result
        ≡ play_on (written w.old out.old) (symbols_for (triple joint) (triple_of t)) }
{
    let offsets = t.0;
    put_offset(w, out, offsets[0])?;
    put_offset(w, out, offsets[1])?;
    put_offset_if(w, out, joint, offsets[2])
}

fn put_triples(
    w: &mut BitWriter,
    out: &mut [u8],
    joint: bool,
    triples: &[VvcQpOffsets],
) -> Result<(), Refusal>
    ensures { ended w.new out.new result
        ≡ play_on (written w.old out.old) (each (triple_element joint) (map triple_of triples.now)) }
{
    for t in triples {
        put_triple(w, out, joint, *t)?;
    }
    Ok(())
}

// The block; the list's length is tested before any of it is put.
pub fn put_chroma(
    w: &mut BitWriter,
    out: &mut [u8],
    c: &VvcPpsChromaToolOffsets,
    triples: &[VvcQpOffsets; 6],
) -> Result<(), Refusal>
    ensures { ended w.new out.new result
        ≡ play_on (written w.old out.old) (symbols_for chroma (chroma_from c.now triples.now)) }
{
    w.put_flag(out, c.present);
    if c.present == 0 {
        return Ok(());
    }
    let joint = c.pps_joint_cbcr_qp_offset_present_flag != 0;
    put_offset(w, out, c.pps_cb_qp_offset)?;
    put_offset(w, out, c.pps_cr_qp_offset)?;
    w.put_flag(out, c.pps_joint_cbcr_qp_offset_present_flag);
    put_offset_if(w, out, joint, c.pps_joint_cbcr_qp_offset_value)?;
    w.put_flag(out, c.pps_slice_chroma_qp_offsets_present_flag);
    w.put_flag(out, c.pps_cu_chroma_qp_offset_list_enabled_flag);
    if c.pps_cu_chroma_qp_offset_list_enabled_flag == 0 {
        return Ok(());
    }
    let n = c.cu_chroma_qp_offset_list_len;
    test((0 < n) & (n <= 6), Refusal::QpOffset)?;
    w.put_ue(out, n - 1)?;
    put_triples(w, out, joint, &triples[..n as usize])
}
