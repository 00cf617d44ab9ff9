// The picture parameter set as a record (the structs of the Rust's src/h266/pps.rs), for C and Rust to hold. An Option
// is a block with a presence flag, a Vec a count beside a lent table. A flag is 0 or 1 where reading gives it; writing
// takes all but 0 for 1.
#![tactic(auto)]

ghost use Rattle.std.specs.Prelude.{◌≡◌, ◌&&◌, not, eqb};
ghost use Rattle.pps_record.specs.Absent.{no_partition};
ghost use Rattle.pps_record.specs.Ctbs.{ctbs_of};

use refusal::Refusal;
use slice_loop::CtbCount;
use tile_sizes::in_ctbs;

pub mod groups;
pub mod lengths;

// pps_conf_win_offsets
#[repr(C)]
#[derive(Clone, Copy, Default, PartialEq, Eq, Debug)]
pub struct VvcPpsConfWinOffsets {
    pub present: u8,
    pub pps_conf_win_left_offset: u32,
    pub pps_conf_win_right_offset: u32,
    pub pps_conf_win_top_offset: u32,
    pub pps_conf_win_bottom_offset: u32,
}

// pps_scaling_win_offsets
#[repr(C)]
#[derive(Clone, Copy, Default, PartialEq, Eq, Debug)]
pub struct VvcPpsScalingWinOffsets {
    pub present: u8,
    pub pps_scaling_win_left_offset: i32,
    pub pps_scaling_win_right_offset: i32,
    pub pps_scaling_win_top_offset: i32,
    pub pps_scaling_win_bottom_offset: i32,
}

// The ids are the first num_subpic_ids of their table.
#[repr(C)]
#[derive(Clone, Copy, Default, PartialEq, Eq, Debug)]
pub struct VvcPpsSubpicIdMapping {
    pub present: u8,
    pub pps_num_subpics_minus1: u32,
    pub pps_subpic_id_len_minus1: u32,
    pub num_subpic_ids: u32,
}

// The explicit tile sizes and the slice entries are the first so many of their tables; the split heights are taken by
// the entries in order.
#[repr(C)]
#[derive(Clone, Copy, Default, PartialEq, Eq, Debug)]
pub struct VvcPpsPartition {
    pub present: u8,
    pub pps_log2_ctu_size_minus5: u8,
    pub num_tile_column_widths: u32,
    pub num_tile_row_heights: u32,
    pub pps_loop_filter_across_tiles_enabled_flag: u8,
    pub pps_rect_slice_flag: u8,
    pub pps_single_slice_per_subpic_flag: u8,
    pub pps_num_slices_in_pic_minus1: u32,
    pub pps_tile_idx_delta_present_flag: u8,
    pub num_rect_slices: u32,
    pub pps_loop_filter_across_slices_enabled_flag: u8,
}

// A triple of the list: cb, cr, joint.
#[repr(C)]
#[derive(Clone, Copy, Default, PartialEq, Eq, Debug)]
pub struct VvcQpOffsets(pub [i32; 3]);

// The triples of the list are passed beside the record; the joint flag says whether their third offsets are coded.
#[repr(C)]
#[derive(Clone, Copy, Default, PartialEq, Eq, Debug)]
pub struct VvcPpsChromaToolOffsets {
    pub present: u8,
    pub pps_cb_qp_offset: i32,
    pub pps_cr_qp_offset: i32,
    pub pps_joint_cbcr_qp_offset_present_flag: u8,
    pub pps_joint_cbcr_qp_offset_value: i32,
    pub pps_slice_chroma_qp_offsets_present_flag: u8,
    pub pps_cu_chroma_qp_offset_list_enabled_flag: u8,
    pub cu_chroma_qp_offset_list_len: u32,
}

#[repr(C)]
#[derive(Clone, Copy, Default, PartialEq, Eq, Debug)]
pub struct VvcPpsDeblocking {
    pub present: u8,
    pub pps_deblocking_filter_override_enabled_flag: u8,
    pub pps_deblocking_filter_disabled_flag: u8,
    pub pps_dbf_info_in_ph_flag: u8,
    pub pps_luma_beta_offset_div2: i32,
    pub pps_luma_tc_offset_div2: i32,
    pub pps_cb_beta_offset_div2: i32,
    pub pps_cb_tc_offset_div2: i32,
    pub pps_cr_beta_offset_div2: i32,
    pub pps_cr_tc_offset_div2: i32,
}

// Extension bits stay in the bytes that they were read from: their first bit and their number.
#[repr(C)]
#[derive(Clone, Copy, Default, PartialEq, Eq, Debug)]
pub struct VvcPps {
    pub pps_pic_parameter_set_id: u8,
    pub pps_seq_parameter_set_id: u8,
    pub pps_mixed_nalu_types_in_pic_flag: u8,
    pub pps_pic_width_in_luma_samples: u32,
    pub pps_pic_height_in_luma_samples: u32,
    pub pps_conf_win_offsets: VvcPpsConfWinOffsets,
    pub pps_scaling_win_offsets: VvcPpsScalingWinOffsets,
    pub pps_output_flag_present_flag: u8,
    pub pps_no_pic_partition_flag: u8,
    pub subpic_id_mapping: VvcPpsSubpicIdMapping,
    pub partition: VvcPpsPartition,
    pub pps_cabac_init_present_flag: u8,
    pub pps_num_ref_idx_default_active_minus1_l0: u32,
    pub pps_num_ref_idx_default_active_minus1_l1: u32,
    pub pps_rpl1_idx_present_flag: u8,
    pub pps_weighted_pred_flag: u8,
    pub pps_weighted_bipred_flag: u8,
    pub pps_ref_wraparound_enabled_flag: u8,
    pub pps_pic_width_minus_wraparound_offset: u32,
    pub pps_init_qp_minus26: i32,
    pub pps_cu_qp_delta_enabled_flag: u8,
    pub chroma_tool_offsets: VvcPpsChromaToolOffsets,
    pub deblocking: VvcPpsDeblocking,
    pub pps_rpl_info_in_ph_flag: u8,
    pub pps_sao_info_in_ph_flag: u8,
    pub pps_alf_info_in_ph_flag: u8,
    pub pps_wp_info_in_ph_flag: u8,
    pub pps_qp_delta_info_in_ph_flag: u8,
    pub pps_picture_header_extension_present_flag: u8,
    pub pps_slice_header_extension_present_flag: u8,
    pub pps_extension_flag: u8,
    pub pps_extension_data_first_bit: usize,
    pub pps_extension_data_bits: usize,
}

impl VvcPpsPartition {
    // The block of a set that has none: zeros.
    #[tactic(auto, unfolding(crate::specs::Absent::no_partition))]
    pub fn absent() -> VvcPpsPartition
        ensures { result ≡ no_partition }
    {
        VvcPpsPartition::default()
    }

    // Rectangular slices are coded.
    pub fn slices_coded(&self) -> bool
        ensures { result ≡ (not (eqb self.now.pps_rect_slice_flag 0) && eqb self.now.pps_single_slice_per_subpic_flag 0) }
    {
        self.pps_rect_slice_flag != 0 && self.pps_single_slice_per_subpic_flag == 0
    }

    // A length of a picture in CTBs: 9 where a partition has a CTU size field over 2; blocks of 1,024 samples without a
    // partition.
    fn in_ctbs(&self, samples: u32) -> Result<CtbCount, Refusal>
        ensures { result ≡ ctbs_of samples self.now.present self.now.pps_log2_ctu_size_minus5 }
    {
        if self.present == 0 {
            return Ok(in_ctbs(samples, 5));
        }
        if self.pps_log2_ctu_size_minus5 > 2 {
            return Err(Refusal::CtuSize);
        }
        Ok(in_ctbs(samples, self.pps_log2_ctu_size_minus5))
    }
}

impl VvcPps {
    // PicWidthInCtbsY, from the record's own geometry.
    pub fn pic_width_in_ctbs(&self) -> Result<CtbCount, Refusal>
        ensures { result ≡ ctbs_of self.now.pps_pic_width_in_luma_samples self.now.partition.present self.now.partition.pps_log2_ctu_size_minus5 }
    {
        self.partition.in_ctbs(self.pps_pic_width_in_luma_samples)
    }

    // PicHeightInCtbsY
    pub fn pic_height_in_ctbs(&self) -> Result<CtbCount, Refusal>
        ensures { result ≡ ctbs_of self.now.pps_pic_height_in_luma_samples self.now.partition.present self.now.partition.pps_log2_ctu_size_minus5 }
    {
        self.partition.in_ctbs(self.pps_pic_height_in_luma_samples)
    }
}
