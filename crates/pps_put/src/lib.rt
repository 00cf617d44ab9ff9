// Writing the groups of fields of a picture parameter set (H.266 7.3.2.5; write_pps of the Rust's src/h266/pps.rs),
// each as its description says.
#![tactic(auto)]

ghost use Rattle.std.specs.Prelude.{◌≡◌};
ghost use Rattle.bit_writer.specs.Stop.{play_on};
ghost use Rattle.bit_writer.specs.Written.{written, ended};
ghost use Rattle.syntax.specs.Syntax.{symbols_for};
ghost use Rattle.pps_syntax.specs.Head.{sized, head, conf_win, scaling_win, kind};
ghost use Rattle.pps_syntax.specs.References.{references};
ghost use Rattle.pps_syntax.specs.PictureHeader.{picture_header};

use bit_writer::{BitWriter, test};
use leaves::{put_u, put_ue_at_most};
use pps_record::groups::{Head, PictureHeaderFlags, PictureKind, References};
use pps_record::{VvcPpsConfWinOffsets, VvcPpsScalingWinOffsets};
use refusal::Refusal;

pub mod leaves;

// Ids, a flag and the picture's size.
pub fn put_head(w: &mut BitWriter, out: &mut [u8], v: &Head) -> Result<(), Refusal>
    ensures { ended w.new out.new result ≡ play_on (written w.old out.old) (symbols_for head v.now) }
{
    let width = v.pps_pic_width_in_luma_samples;
    let height = v.pps_pic_height_in_luma_samples;
    put_u(
        w,
        out,
        v.pps_pic_parameter_set_id as u32,
        6,
        Refusal::ParameterSetId,
    )?;
    put_u(
        w,
        out,
        v.pps_seq_parameter_set_id as u32,
        4,
        Refusal::ParameterSetId,
    )?;
    w.put_flag(out, v.pps_mixed_nalu_types_in_pic_flag);
    test((width != 0) & (height != 0), Refusal::EmptyPicture)?;
    w.put_ue(out, width)?;
    w.put_ue(out, height)
}

// The conformance window.
pub fn put_conf_win(
    w: &mut BitWriter,
    out: &mut [u8],
    v: &VvcPpsConfWinOffsets,
) -> Result<(), Refusal>
    ensures { ended w.new out.new result ≡ play_on (written w.old out.old) (symbols_for conf_win v.now) }
{
    w.put_flag(out, v.present);
    if v.present == 0 {
        return Ok(());
    }
    w.put_ue(out, v.pps_conf_win_left_offset)?;
    w.put_ue(out, v.pps_conf_win_right_offset)?;
    w.put_ue(out, v.pps_conf_win_top_offset)?;
    w.put_ue(out, v.pps_conf_win_bottom_offset)
}

// The scaling window.
pub fn put_scaling_win(
    w: &mut BitWriter,
    out: &mut [u8],
    v: &VvcPpsScalingWinOffsets,
) -> Result<(), Refusal>
    ensures { ended w.new out.new result
        ≡ play_on (written w.old out.old) (symbols_for scaling_win v.now) }
{
    w.put_flag(out, v.present);
    if v.present == 0 {
        return Ok(());
    }
    w.put_se(out, v.pps_scaling_win_left_offset)?;
    w.put_se(out, v.pps_scaling_win_right_offset)?;
    w.put_se(out, v.pps_scaling_win_top_offset)?;
    w.put_se(out, v.pps_scaling_win_bottom_offset)
}

// The output flag and the no-partition flag.
pub fn put_kind(w: &mut BitWriter, out: &mut [u8], v: &PictureKind)
    ensures { written w.new out.new ≡ play_on (written w.old out.old) (symbols_for kind v.now) }
{
    w.put_flag(out, v.pps_output_flag_present_flag);
    w.put_flag(out, v.pps_no_pic_partition_flag);
}

// Reference indices, prediction and QP.
pub fn put_references(w: &mut BitWriter, out: &mut [u8], v: &References) -> Result<(), Refusal>
    ensures { ended w.new out.new result
        ≡ play_on (written w.old out.old) (symbols_for references v.now) }
{
    let l0 = v.pps_num_ref_idx_default_active_minus1_l0;
    let l1 = v.pps_num_ref_idx_default_active_minus1_l1;
    w.put_flag(out, v.pps_cabac_init_present_flag);
    put_ue_at_most(w, out, l0, 14, Refusal::RefIdx)?;
    put_ue_at_most(w, out, l1, 14, Refusal::RefIdx)?;
    w.put_flag(out, v.pps_rpl1_idx_present_flag);
    w.put_flag(out, v.pps_weighted_pred_flag);
    w.put_flag(out, v.pps_weighted_bipred_flag);
    w.put_flag(out, v.pps_ref_wraparound_enabled_flag);
    if v.pps_ref_wraparound_enabled_flag != 0 {
        w.put_ue(out, v.pps_pic_width_minus_wraparound_offset)?;
    }
    w.put_se(out, v.pps_init_qp_minus26)?;
    w.put_flag(out, v.pps_cu_qp_delta_enabled_flag);
    Ok(())
}

// What stands in the picture header, and the extension flags.
pub fn put_picture_header(
    w: &mut BitWriter,
    out: &mut [u8],
    partitioned: bool,
    weighted: bool,
    v: &PictureHeaderFlags,
)
    ensures { written w.new out.new
        ≡ play_on (written w.old out.old) (symbols_for (picture_header partitioned weighted) v.now) }
{
    if partitioned {
        w.put_flag(out, v.pps_rpl_info_in_ph_flag);
        w.put_flag(out, v.pps_sao_info_in_ph_flag);
        w.put_flag(out, v.pps_alf_info_in_ph_flag);
        if weighted & (v.pps_rpl_info_in_ph_flag != 0) {
            w.put_flag(out, v.pps_wp_info_in_ph_flag);
        }
        w.put_flag(out, v.pps_qp_delta_info_in_ph_flag);
    }
    w.put_flag(out, v.pps_picture_header_extension_present_flag);
    w.put_flag(out, v.pps_slice_header_extension_present_flag);
    w.put_flag(out, v.pps_extension_flag);
}
