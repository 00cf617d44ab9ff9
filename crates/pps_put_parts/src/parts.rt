// The two parts of a set around its partition block.
ghost use Rattle.std.specs.Prelude.{◌≡◌};
ghost use Rattle.bit_writer.specs.Stop.{play_on};
ghost use Rattle.bit_writer.specs.Written.{written, ended};
ghost use Rattle.syntax.specs.Syntax.{symbols_for};
ghost use Rattle.pps_syntax.specs.FromRecord.{front_from, back_from};
ghost use Rattle.pps_syntax.specs.Pps.{front, back};

use bit_writer::BitWriter;
use pps_put::{
    put_conf_win, put_head, put_kind, put_picture_header, put_references, put_scaling_win,
};
use pps_put_blocks::chroma::put_chroma;
use pps_put_blocks::deblocking::put_deblocking;
use pps_put_blocks::subpic_ids::put_subpic_ids;
use pps_record::groups::{Head, PictureHeaderFlags, PictureKind, References};
use pps_record::{VvcPps, VvcQpOffsets};
use refusal::Refusal;

// What stands before the block.
pub fn put_front(
    w: &mut BitWriter,
    out: &mut [u8],
    r: &VvcPps,
    subpic_ids: &[u32],
) -> Result<(), Refusal>
    ensures { ended w.new out.new result
        ≡ play_on (written w.old out.old) (symbols_for front (front_from r.now subpic_ids.now)) }
{
    let partitioned = r.pps_no_pic_partition_flag == 0;
    put_head(w, out, &Head::from(r))?;
    put_conf_win(w, out, &r.pps_conf_win_offsets)?;
    put_scaling_win(w, out, &r.pps_scaling_win_offsets)?;
    put_kind(w, out, &PictureKind::from(r));
    put_subpic_ids(w, out, partitioned, &r.subpic_id_mapping, subpic_ids)
}

// What stands behind it, up to the extension bits.
pub fn put_back(
    w: &mut BitWriter,
    out: &mut [u8],
    partitioned: bool,
    r: &VvcPps,
    triples: &[VvcQpOffsets; 6],
) -> Result<(), Refusal>
    ensures { ended w.new out.new result
        ≡ play_on (written w.old out.old)
        (symbols_for (back partitioned) (back_from r.now triples.now)) }
{
    let weighted = (r.pps_weighted_pred_flag != 0) | (r.pps_weighted_bipred_flag != 0);
    let with_chroma = r.chroma_tool_offsets.present != 0;
    put_references(w, out, &References::from(r))?;
    put_chroma(w, out, &r.chroma_tool_offsets, triples)?;
    put_deblocking(w, out, partitioned, with_chroma, &r.deblocking)?;
    put_picture_header(w, out, partitioned, weighted, &PictureHeaderFlags::from(r));
    Ok(())
}
