// The subpicture id mapping.
ghost use Rattle.std.specs.Prelude.{◌≡◌};
ghost use Rattle.std.proofs.lemmas.List.Edits.{sets};
ghost use Rattle.bit_reader.specs.Gives.{Gives, value_read, held_as};
ghost use Rattle.syntax.specs.Syntax.{parse};
ghost use Rattle.pps_syntax.specs.SubpicIds.{subpic_ids};
ghost use Rattle.pps_syntax.specs.Record.{mapping_of};

use super::counted;
use bit_reader::BitReader;
use pps_fields::fields::ue_at_most_or;
use pps_fields::lists::read_ids;
use pps_record::VvcPpsSubpicIdMapping;
use pps_record::lengths::MAX_NUM_SUBPICS_MINUS1;
use refusal::Refusal;

// The ids go into the table from its first place on.
pub fn read_subpic_ids(
    r: &mut BitReader<'_>,
    partitioned: bool,
    ids: &mut [u32],
) -> Result<VvcPpsSubpicIdMapping, Refusal>
    ensures value { Gives (held_as mapping_of (parse (subpic_ids partitioned))) r.old r.new result }
    ensures table { ids.new
        ≡ sets ids.old 0 (value_read (parse (subpic_ids partitioned)) r.old).pps_subpic_id }
{
    let present = r.flag();
    let on = present != 0;
    let num = ue_at_most_or(
        r,
        on & partitioned,
        MAX_NUM_SUBPICS_MINUS1,
        Refusal::SubpicIdMapping,
    )?;
    let len = ue_at_most_or(r, on, 15, Refusal::SubpicIdMapping)?;
    let count = counted(on, num);
    read_ids(r, count, len + 1, ids);
    Ok(VvcPpsSubpicIdMapping {
        present,
        pps_num_subpics_minus1: num,
        pps_subpic_id_len_minus1: len,
        num_subpic_ids: count,
    })
}
