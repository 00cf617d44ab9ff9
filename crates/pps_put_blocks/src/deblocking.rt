// The deblocking block.
ghost use Rattle.std.specs.Prelude.{◌≡◌};
ghost use Rattle.bit_writer.specs.Stop.{play_on};
ghost use Rattle.bit_writer.specs.Written.{written, ended};
ghost use Rattle.syntax.specs.Syntax.{symbols_for};
ghost use Rattle.pps_syntax.specs.Deblocking.{deblocking};

use bit_writer::BitWriter;
use pps_put::leaves::{put_flag_if, put_offset};
use pps_record::VvcPpsDeblocking;
use refusal::Refusal;

// Its chroma offsets are coded only with a chroma block.
pub fn put_deblocking(
    w: &mut BitWriter,
    out: &mut [u8],
    partitioned: bool,
    with_chroma: bool,
    v: &VvcPpsDeblocking,
) -> Result<(), Refusal>
    ensures { ended w.new out.new result
        ≡ play_on (written w.old out.old) (symbols_for (deblocking partitioned with_chroma) v.now) }
{
    w.put_flag(out, v.present);
    if v.present == 0 {
        return Ok(());
    }
    let info = partitioned & (v.pps_deblocking_filter_override_enabled_flag != 0);
    w.put_flag(out, v.pps_deblocking_filter_override_enabled_flag);
    w.put_flag(out, v.pps_deblocking_filter_disabled_flag);
    put_flag_if(w, out, info, v.pps_dbf_info_in_ph_flag);
    if v.pps_deblocking_filter_disabled_flag != 0 {
        return Ok(());
    }
    put_offset(w, out, v.pps_luma_beta_offset_div2)?;
    put_offset(w, out, v.pps_luma_tc_offset_div2)?;
    if !with_chroma {
        return Ok(());
    }
    put_offset(w, out, v.pps_cb_beta_offset_div2)?;
    put_offset(w, out, v.pps_cb_tc_offset_div2)?;
    put_offset(w, out, v.pps_cr_beta_offset_div2)?;
    put_offset(w, out, v.pps_cr_tc_offset_div2)
}
