// The readers of the groups of fields of a picture parameter set (the Rust's parse_pps), each against its description
// in H.266's order.
#![tactic(auto)]

ghost use Rattle.std.specs.Prelude.{Ok};
ghost use Rattle.bit_reader.specs.Gives.{Gives};
ghost use Rattle.syntax.specs.Syntax.{parse};
ghost use Rattle.pps_syntax.specs.Head.{head, conf_win, scaling_win, kind};
ghost use Rattle.pps_syntax.specs.References.{references};
ghost use Rattle.pps_syntax.specs.PictureHeader.{picture_header};

use bit_reader::BitReader;
use fields::{flag_or, se_or, ue_at_most, ue_or};
use pps_record::groups::{Head, PictureHeaderFlags, PictureKind, References};
use pps_record::{VvcPpsConfWinOffsets, VvcPpsScalingWinOffsets};
use refusal::Refusal;

pub mod by_cursor;
pub mod fields;
pub mod lists;

// Ids and picture size.
pub fn read_head(r: &mut BitReader<'_>) -> Result<Head, Refusal>
    ensures { Gives (parse head) r.old r.new result }
{
    let id = r.small_u(6);
    let sps = r.small_u(4);
    let mixed = r.flag();
    let width = r.ue()?;
    let height = r.ue()?;
    if (width == 0) | (height == 0) {
        return Err(Refusal::EmptyPicture);
    }
    Ok(Head {
        pps_pic_parameter_set_id: id,
        pps_seq_parameter_set_id: sps,
        pps_mixed_nalu_types_in_pic_flag: mixed,
        pps_pic_width_in_luma_samples: width,
        pps_pic_height_in_luma_samples: height,
    })
}

// The conformance window.
pub fn read_conf_win(r: &mut BitReader<'_>) -> Result<VvcPpsConfWinOffsets, Refusal>
    ensures { Gives (parse conf_win) r.old r.new result }
{
    let present = r.flag();
    let on = present != 0;
    let left = ue_or(r, on, 0)?;
    let right = ue_or(r, on, 0)?;
    let top = ue_or(r, on, 0)?;
    let bottom = ue_or(r, on, 0)?;
    Ok(VvcPpsConfWinOffsets {
        present,
        pps_conf_win_left_offset: left,
        pps_conf_win_right_offset: right,
        pps_conf_win_top_offset: top,
        pps_conf_win_bottom_offset: bottom,
    })
}

// The scaling window.
pub fn read_scaling_win(r: &mut BitReader<'_>) -> Result<VvcPpsScalingWinOffsets, Refusal>
    ensures { Gives (parse scaling_win) r.old r.new result }
{
    let present = r.flag();
    let on = present != 0;
    let left = se_or(r, on, 0)?;
    let right = se_or(r, on, 0)?;
    let top = se_or(r, on, 0)?;
    let bottom = se_or(r, on, 0)?;
    Ok(VvcPpsScalingWinOffsets {
        present,
        pps_scaling_win_left_offset: left,
        pps_scaling_win_right_offset: right,
        pps_scaling_win_top_offset: top,
        pps_scaling_win_bottom_offset: bottom,
    })
}

// The output flag and the no-partition flag.
pub fn read_kind(r: &mut BitReader<'_>) -> PictureKind
    ensures { Gives (parse kind) r.old r.new (Ok result) }
{
    let output = r.flag();
    let unpartitioned = r.flag();
    PictureKind {
        pps_output_flag_present_flag: output,
        pps_no_pic_partition_flag: unpartitioned,
    }
}

// Reference indices, prediction and QP.
pub fn read_references(r: &mut BitReader<'_>) -> Result<References, Refusal>
    ensures { Gives (parse references) r.old r.new result }
{
    let cabac = r.flag();
    let l0 = ue_at_most(r, 14, Refusal::RefIdx)?;
    let l1 = ue_at_most(r, 14, Refusal::RefIdx)?;
    let rpl1 = r.flag();
    let weighted = r.flag();
    let bipred = r.flag();
    let wraparound = r.flag();
    let offset = ue_or(r, wraparound != 0, 0)?;
    let qp = r.se()?;
    let delta = r.flag();
    Ok(References {
        pps_cabac_init_present_flag: cabac,
        pps_num_ref_idx_default_active_minus1_l0: l0,
        pps_num_ref_idx_default_active_minus1_l1: l1,
        pps_rpl1_idx_present_flag: rpl1,
        pps_weighted_pred_flag: weighted,
        pps_weighted_bipred_flag: bipred,
        pps_ref_wraparound_enabled_flag: wraparound,
        pps_pic_width_minus_wraparound_offset: offset,
        pps_init_qp_minus26: qp,
        pps_cu_qp_delta_enabled_flag: delta,
    })
}

// What stands in the picture header, and whether there are extensions.
pub fn read_picture_header(
    r: &mut BitReader<'_>,
    partitioned: bool,
    weighted: bool,
) -> PictureHeaderFlags
    ensures { Gives (parse (picture_header partitioned weighted)) r.old r.new (Ok result) }
{
    let rpl = flag_or(r, partitioned, 0);
    let sao = flag_or(r, partitioned, 0);
    let alf = flag_or(r, partitioned, 0);
    let coded = partitioned & (weighted & (rpl != 0));
    let wp = flag_or(r, coded, 0);
    let qp = flag_or(r, partitioned, 0);
    let picture = r.flag();
    let slice = r.flag();
    let extension = r.flag();
    PictureHeaderFlags {
        pps_rpl_info_in_ph_flag: rpl,
        pps_sao_info_in_ph_flag: sao,
        pps_alf_info_in_ph_flag: alf,
        pps_wp_info_in_ph_flag: wp,
        pps_qp_delta_info_in_ph_flag: qp,
        pps_picture_header_extension_present_flag: picture,
        pps_slice_header_extension_present_flag: slice,
        pps_extension_flag: extension,
    }
}
