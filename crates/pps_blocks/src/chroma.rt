// The chroma tool offsets block. The triples of its list stand beside the record.
ghost use Rattle.std.specs.Prelude.{◌≡◌, ◌≤◌, OnOk, length};
ghost use Rattle.bit_reader.specs.Gives.{Gives, value_read, held_as};
ghost use Rattle.syntax.specs.Lists.{many};
ghost use Rattle.syntax.specs.Syntax.{parse};
ghost use Rattle.pps_syntax.specs.Chroma.{triple, triple_element, chroma};
ghost use Rattle.pps_syntax.specs.Record.{offsets_of, triples_of};
ghost use Rattle.pps_blocks.specs.Triples.{block_of};

use super::counted;
use bit_reader::BitReader;
use pps_fields::fields::{flag_or, offset_or, read_offset, ue_or};
use pps_record::{VvcPpsChromaToolOffsets, VvcQpOffsets};
use refusal::Refusal;

// One triple of the list; the third offset is coded with the joint flag, else 0.
fn read_triple(r: &mut BitReader<'_>, with_joint: bool) -> Result<VvcQpOffsets, Refusal>
    ensures { Gives (held_as offsets_of (parse (triple with_joint))) r.old r.new result }
{
    let cb = read_offset(r)?;
    let cr = read_offset(r)?;
    let joint = offset_or(r, with_joint, 0)?;
    Ok(VvcQpOffsets([cb, cr, joint]))
}

// `count` triples, then zeros.
fn read_triples(
    r: &mut BitReader<'_>,
    count: u32,
    with_joint: bool,
) -> Result<[VvcQpOffsets; 6], Refusal>
    requires { count ≤ 6 }
    ensures triples { Gives (held_as triples_of (many count (triple_element with_joint) 21).read) r.old r.new
        result }
    ensures count { OnOk result
        (length (value_read (many count (triple_element with_joint) 21).read r.old) ≡ count) }
{
    let mut triples = [VvcQpOffsets([0, 0, 0]); 6];
    for i in 0..count {
        let t = read_triple(r, with_joint)?;
        triples[i as usize] = t;
    }
    Ok(triples)
}

#[derive(Clone, Copy)]
pub struct Chroma {
    pub block: VvcPpsChromaToolOffsets,
    pub triples: [VvcQpOffsets; 6],
}

pub fn read_chroma(r: &mut BitReader<'_>) -> Result<Chroma, Refusal>
    ensures { Gives (held_as block_of (parse chroma)) r.old r.new result }
{
    let present = r.flag();
    let on = present != 0;
    let cb = offset_or(r, on, 0)?;
    let cr = offset_or(r, on, 0)?;
    let joint = flag_or(r, on, 0);
    let with_joint = on & (joint != 0);
    let value = offset_or(r, with_joint, 0)?;
    let slice = flag_or(r, on, 0);
    let enabled = flag_or(r, on, 0);
    let listed = on & (enabled != 0);
    let len = ue_or(r, listed, 0)?;
    if len > 5 {
        return Err(Refusal::QpOffset);
    }
    let count = counted(listed, len);
    let triples = read_triples(r, count, with_joint)?;
    Ok(Chroma {
        block: VvcPpsChromaToolOffsets {
            present,
            pps_cb_qp_offset: cb,
            pps_cr_qp_offset: cr,
            pps_joint_cbcr_qp_offset_present_flag: joint,
            pps_joint_cbcr_qp_offset_value: value,
            pps_slice_chroma_qp_offsets_present_flag: slice,
            pps_cu_chroma_qp_offset_list_enabled_flag: enabled,
            cu_chroma_qp_offset_list_len: count,
        },
        triples,
    })
}
