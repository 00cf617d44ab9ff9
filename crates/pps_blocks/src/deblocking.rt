// The deblocking filter control block.
ghost use Rattle.bit_reader.specs.Gives.{Gives};
ghost use Rattle.syntax.specs.Syntax.{parse};
ghost use Rattle.pps_syntax.specs.Deblocking.{deblocking};

use bit_reader::BitReader;
use pps_fields::fields::{flag_or, offset_or};
use pps_record::VvcPpsDeblocking;
use refusal::Refusal;

// Without a chroma block the offsets of cb and cr are those of luma.
pub fn read_deblocking(
    r: &mut BitReader<'_>,
    partitioned: bool,
    with_chroma: bool,
) -> Result<VvcPpsDeblocking, Refusal>
    ensures { Gives (parse (deblocking partitioned with_chroma)) r.old r.new result }
{
    let present = r.flag();
    let on = present != 0;
    let overriding = flag_or(r, on, 0);
    let disabled = flag_or(r, on, 0);
    let in_header = on & (partitioned & (overriding != 0));
    let info = flag_or(r, in_header, 0);
    let enabled = on & (disabled == 0);
    let luma_beta = offset_or(r, enabled, 0)?;
    let luma_tc = offset_or(r, enabled, 0)?;
    let coded = enabled & with_chroma;
    let cb_beta = offset_or(r, coded, luma_beta)?;
    let cb_tc = offset_or(r, coded, luma_tc)?;
    let cr_beta = offset_or(r, coded, luma_beta)?;
    let cr_tc = offset_or(r, coded, luma_tc)?;
    Ok(VvcPpsDeblocking {
        present,
        pps_deblocking_filter_override_enabled_flag: overriding,
        pps_deblocking_filter_disabled_flag: disabled,
        pps_dbf_info_in_ph_flag: info,
        pps_luma_beta_offset_div2: luma_beta,
        pps_luma_tc_offset_div2: luma_tc,
        pps_cb_beta_offset_div2: cb_beta,
        pps_cb_tc_offset_div2: cb_tc,
        pps_cr_beta_offset_div2: cr_beta,
        pps_cr_tc_offset_div2: cr_tc,
    })
}
