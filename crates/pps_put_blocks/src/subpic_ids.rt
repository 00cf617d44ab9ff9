// The subpicture id mapping.
ghost use Rattle.std.specs.Prelude.{true, ◌≡◌, ◌≤◌};
ghost use Rattle.bit_writer.specs.Stop.{play_on};
ghost use Rattle.bit_writer.specs.Written.{written, ended};
ghost use Rattle.syntax.specs.Elements.{u};
ghost use Rattle.syntax.specs.Syntax.{symbols_for};
ghost use Rattle.pps_syntax.specs.SubpicIds.{subpic_ids};
ghost use Rattle.pps_syntax.specs.FromRecord.{subpic_ids_from};
ghost use Rattle.pps_put.specs.Each.{each};
ghost use Rattle.pps_put_blocks.specs.SubpicIdsPut.{num_subpics};

use bit_writer::{BitWriter, test};
use pps_put::leaves::{put_u, put_ue_at_most};
use pps_record::VvcPpsSubpicIdMapping;
use pps_record::lengths::MAX_NUM_SUBPICS_MINUS1;
use refusal::Refusal;

// The number of a present mapping, which only a partitioned picture codes.
fn put_num(w: &mut BitWriter, out: &mut [u8], partitioned: bool, num: u32) -> Result<(), Refusal>
    ensures { ended w.new out.new result
        ≡ play_on (written w.old out.old) ((num_subpics true partitioned).symbols num) }
{
    if partitioned {
        put_ue_at_most(
            w,
            out,
            num,
            MAX_NUM_SUBPICS_MINUS1,
            Refusal::SubpicIdMapping,
        )
    } else {
        test(num == 0, Refusal::Contradiction)
    }
}

// Ids of `bits` bits each.
fn put_each(w: &mut BitWriter, out: &mut [u8], ids: &[u32], bits: u32) -> Result<(), Refusal>
    requires { bits ≤ 32 }
    ensures { ended w.new out.new result ≡ play_on (written w.old out.old) (each (u bits 27) ids.now) }
{
    for id in ids {
        put_u(w, out, *id, bits, Refusal::SubpicIds)?;
    }
    Ok(())
}

// The mapping, its ids in the table `ids`.
pub fn put_subpic_ids(
    w: &mut BitWriter,
    out: &mut [u8],
    partitioned: bool,
    m: &VvcPpsSubpicIdMapping,
    ids: &[u32],
) -> Result<(), Refusal>
    ensures { ended w.new out.new result
        ≡ play_on (written w.old out.old)
        (symbols_for (subpic_ids partitioned) (subpic_ids_from m.now ids.now)) }
{
    w.put_flag(out, m.present);
    if m.present == 0 {
        return Ok(());
    }
    let num = m.pps_num_subpics_minus1;
    let len = m.pps_subpic_id_len_minus1;
    put_num(w, out, partitioned, num)?;
    put_ue_at_most(w, out, len, 15, Refusal::SubpicIdMapping)?;
    let wanted = num as usize + 1;
    let there = ids.len().min(m.num_subpic_ids as usize);
    // A length over 15 is refused before.
    put_each(w, out, &ids[..there.min(wanted)], len.min(15) + 1)?;
    test(there == wanted, Refusal::SubpicIds)
}
