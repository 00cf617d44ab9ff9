// The fields of the record that stand in no block of their own, in the groups in which they are coded.
ghost use Rattle.std.specs.Prelude.{◌≡◌};
ghost use Rattle.pps_record.specs.Groups.{head_of, kind_of, references_of, picture_header_flags_of};

use super::VvcPps;

#[derive(Clone, Copy, PartialEq, Eq, Debug)]
pub struct Head {
    pub pps_pic_parameter_set_id: u8,
    pub pps_seq_parameter_set_id: u8,
    pub pps_mixed_nalu_types_in_pic_flag: u8,
    pub pps_pic_width_in_luma_samples: u32,
    pub pps_pic_height_in_luma_samples: u32,
}

#[derive(Clone, Copy, PartialEq, Eq, Debug)]
pub struct PictureKind {
    pub pps_output_flag_present_flag: u8,
    pub pps_no_pic_partition_flag: u8,
}

#[derive(Clone, Copy, PartialEq, Eq, Debug)]
pub struct References {
    pub pps_cabac_init_present_flag: u8,
    pub pps_num_ref_idx_default_active_minus1_l0: u32,
    pub pps_num_ref_idx_default_active_minus1_l1: u32,
    pub pps_rpl1_idx_present_flag: u8,
    pub pps_weighted_pred_flag: u8,
    pub pps_weighted_bipred_flag: u8,
    pub pps_ref_wraparound_enabled_flag: u8,
    pub pps_pic_width_minus_wraparound_offset: u32,
    pub pps_init_qp_minus26: i32,
    pub pps_cu_qp_delta_enabled_flag: u8,
}

#[derive(Clone, Copy, PartialEq, Eq, Debug)]
pub struct PictureHeaderFlags {
    pub pps_rpl_info_in_ph_flag: u8,
    pub pps_sao_info_in_ph_flag: u8,
    pub pps_alf_info_in_ph_flag: u8,
    pub pps_wp_info_in_ph_flag: u8,
    pub pps_qp_delta_info_in_ph_flag: u8,
    pub pps_picture_header_extension_present_flag: u8,
    pub pps_slice_header_extension_present_flag: u8,
    pub pps_extension_flag: u8,
}

impl From<&VvcPps> for Head {
    ghost from_gives = { λ r group. group ≡ head_of r.now };

    fn from(r: &VvcPps) -> Head {
        Head {
            pps_pic_parameter_set_id: r.pps_pic_parameter_set_id,
            pps_seq_parameter_set_id: r.pps_seq_parameter_set_id,
            pps_mixed_nalu_types_in_pic_flag: r.pps_mixed_nalu_types_in_pic_flag,
            pps_pic_width_in_luma_samples: r.pps_pic_width_in_luma_samples,
            pps_pic_height_in_luma_samples: r.pps_pic_height_in_luma_samples,
        }
    }
}

impl From<&VvcPps> for PictureKind {
    ghost from_gives = { λ r group. group ≡ kind_of r.now };

    fn from(r: &VvcPps) -> PictureKind {
        PictureKind {
            pps_output_flag_present_flag: r.pps_output_flag_present_flag,
            pps_no_pic_partition_flag: r.pps_no_pic_partition_flag,
        }
    }
}

impl From<&VvcPps> for References {
    ghost from_gives = { λ r group. group ≡ references_of r.now };

    fn from(r: &VvcPps) -> References {
        References {
            pps_cabac_init_present_flag: r.pps_cabac_init_present_flag,
            pps_num_ref_idx_default_active_minus1_l0: r.pps_num_ref_idx_default_active_minus1_l0,
            pps_num_ref_idx_default_active_minus1_l1: r.pps_num_ref_idx_default_active_minus1_l1,
            pps_rpl1_idx_present_flag: r.pps_rpl1_idx_present_flag,
            pps_weighted_pred_flag: r.pps_weighted_pred_flag,
            pps_weighted_bipred_flag: r.pps_weighted_bipred_flag,
            pps_ref_wraparound_enabled_flag: r.pps_ref_wraparound_enabled_flag,
            pps_pic_width_minus_wraparound_offset: r.pps_pic_width_minus_wraparound_offset,
            pps_init_qp_minus26: r.pps_init_qp_minus26,
            pps_cu_qp_delta_enabled_flag: r.pps_cu_qp_delta_enabled_flag,
        }
    }
}

impl From<&VvcPps> for PictureHeaderFlags {
    ghost from_gives = { λ r group. group ≡ picture_header_flags_of r.now };

    fn from(r: &VvcPps) -> PictureHeaderFlags {
        PictureHeaderFlags {
            pps_rpl_info_in_ph_flag: r.pps_rpl_info_in_ph_flag,
            pps_sao_info_in_ph_flag: r.pps_sao_info_in_ph_flag,
            pps_alf_info_in_ph_flag: r.pps_alf_info_in_ph_flag,
            pps_wp_info_in_ph_flag: r.pps_wp_info_in_ph_flag,
            pps_qp_delta_info_in_ph_flag: r.pps_qp_delta_info_in_ph_flag,
            pps_picture_header_extension_present_flag: r.pps_picture_header_extension_present_flag,
            pps_slice_header_extension_present_flag: r.pps_slice_header_extension_present_flag,
            pps_extension_flag: r.pps_extension_flag,
        }
    }
}
