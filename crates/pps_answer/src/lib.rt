// What reading answers.
#![tactic(auto)]

ghost use Rattle.std.specs.Prelude.{◌≡◌};
ghost use Rattle.bit_reader.specs.Gives.{Gives};
ghost use Rattle.pps_answer.specs.Answers.{first_bit, answer_from};

use bit_reader::BitReader;
use pps_parts::end::read_end;
use pps_parts::{BackRead, FrontRead};
use pps_record::{VvcPps, VvcPpsPartition, VvcQpOffsets};
use refusal::Refusal;

pub mod before;

// The record, the triples of its chroma list, which are those in use and then zeros, and how many bytes of the RBSP the
// set took.
#[derive(Clone, Copy)]
pub struct AcceptedPps {
    pub pps: VvcPps,
    pub triples: [VvcQpOffsets; 6],
    pub bytes_taken: usize,
}

#[tactic(auto, unfolding(crate::specs::Answers::first_bit))]
fn first_bit(bits: usize, at: usize) -> usize
    ensures { result ≡ first_bit bits at }
{
    if bits == 0 { 0 } else { at }
}

// Reads the end of a set whose parts have been read, and puts them together.
pub fn answer_of(
    r: &mut BitReader<'_>,
    front: FrontRead,
    partition: VvcPpsPartition,
    back: BackRead,
) -> Result<AcceptedPps, Refusal>
    ensures { Gives (answer_from front partition back) r.old r.new result }
{
    let at = r.bit_pos;
    let flags = back.picture_header;
    let bits = read_end(r, flags.pps_extension_flag)?;
    let pps_extension_data_first_bit = first_bit(bits, at);
    let head = front.head;
    let kind = front.kind;
    let references = back.references;
    let pps_conf_win_offsets = front.conf_win;
    let pps_scaling_win_offsets = front.scaling_win;
    let subpic_id_mapping = front.subpic_ids;
    let chroma = back.chroma;
    let chroma_tool_offsets = chroma.block;
    let deblocking = back.deblocking;
    let pps = VvcPps {
        pps_pic_parameter_set_id: head.pps_pic_parameter_set_id,
        pps_seq_parameter_set_id: head.pps_seq_parameter_set_id,
        pps_mixed_nalu_types_in_pic_flag: head.pps_mixed_nalu_types_in_pic_flag,
        pps_pic_width_in_luma_samples: head.pps_pic_width_in_luma_samples,
        pps_pic_height_in_luma_samples: head.pps_pic_height_in_luma_samples,
        pps_conf_win_offsets,
        pps_scaling_win_offsets,
        pps_output_flag_present_flag: kind.pps_output_flag_present_flag,
        pps_no_pic_partition_flag: kind.pps_no_pic_partition_flag,
        subpic_id_mapping,
        partition,
        pps_cabac_init_present_flag: references.pps_cabac_init_present_flag,
        pps_num_ref_idx_default_active_minus1_l0: references.pps_num_ref_idx_default_active_minus1_l0,
        pps_num_ref_idx_default_active_minus1_l1: references.pps_num_ref_idx_default_active_minus1_l1,
        pps_rpl1_idx_present_flag: references.pps_rpl1_idx_present_flag,
        pps_weighted_pred_flag: references.pps_weighted_pred_flag,
        pps_weighted_bipred_flag: references.pps_weighted_bipred_flag,
        pps_ref_wraparound_enabled_flag: references.pps_ref_wraparound_enabled_flag,
        pps_pic_width_minus_wraparound_offset: references.pps_pic_width_minus_wraparound_offset,
        pps_init_qp_minus26: references.pps_init_qp_minus26,
        pps_cu_qp_delta_enabled_flag: references.pps_cu_qp_delta_enabled_flag,
        chroma_tool_offsets,
        deblocking,
        pps_rpl_info_in_ph_flag: flags.pps_rpl_info_in_ph_flag,
        pps_sao_info_in_ph_flag: flags.pps_sao_info_in_ph_flag,
        pps_alf_info_in_ph_flag: flags.pps_alf_info_in_ph_flag,
        pps_wp_info_in_ph_flag: flags.pps_wp_info_in_ph_flag,
        pps_qp_delta_info_in_ph_flag: flags.pps_qp_delta_info_in_ph_flag,
        pps_picture_header_extension_present_flag: flags.pps_picture_header_extension_present_flag,
        pps_slice_header_extension_present_flag: flags.pps_slice_header_extension_present_flag,
        pps_extension_flag: flags.pps_extension_flag,
        pps_extension_data_first_bit,
        pps_extension_data_bits: bits,
    };
    let triples = chroma.triples;
    let accepted = AcceptedPps {
        pps,
        triples,
        bytes_taken: r.bit_pos / 8,
    };
    Ok(accepted)
}
