// The RBSP of a set (H.266 7.3.2.5), read into the lent tables.
ghost use Rattle.std.specs.Prelude.{◌≡◌, OnOk, length};
ghost use Rattle.bit_reader.specs.Gives.{Gives, value_read, held_as};
ghost use Rattle.pps_syntax.specs.Rbsp.{ReadSet, accepted, read_rbsp};
ghost use Rattle.pps_tables.specs.LentMut.{lent_now, SameTables};
ghost use Rattle.syntax.specs.Elements.{one_if};
ghost use Rattle.pps_answer.specs.Answers.{said, answer_of};
ghost use Rattle.pps_answer.specs.Lending.{put_lists};
ghost use Rattle.pps_read.specs.Block.{blocks_read, blocks_record, BlocksPut};

use bit_reader::BitReader;
use pps_answer::{AcceptedPps, answer_of};
use pps_partition::read_partition;
use pps_parts::{read_back, read_front};
use pps_record::VvcPpsPartition;
use pps_tables::LentTablesMut;
use refusal::Refusal;

// The partition block where there is one, zeros where there is none.
fn read_block(
    r: &mut BitReader<'_>,
    partitioned: bool,
    width: u32,
    height: u32,
    tables: &mut LentTablesMut<'_>,
) -> Result<VvcPpsPartition, Refusal>
    ensures answer { Gives (held_as blocks_record (blocks_read partitioned width height)) r.old r.new result }
    ensures tables { let blocks = value_read (blocks_read partitioned width height) r.old in
        OnOk result ((length blocks ≡ one_if partitioned)
        × BlocksPut blocks (lent_now tables.old) (lent_now tables.new)) }
    ensures subpic_ids { tables.new.subpic_ids.now ≡ tables.old.subpic_ids.now }
    ensures same_tables { SameTables tables.old tables.new }
{
    if !partitioned {
        return Ok(VvcPpsPartition::absent());
    }
    read_partition(r, width, height, tables)
}

// The whole set. After a refusal the tables hold what had been read by then, and of a slice entry that is refused its
// explicit slice heights (`read_partition`); the caller clears them.
pub fn read_rbsp(s: &[u8], tables: &mut LentTablesMut<'_>) -> Result<AcceptedPps, Refusal>
    ensures answer { said result ≡ answer_of (read_rbsp s.now) }
    ensures tables { (a : ReadSet) → read_rbsp s.now ≡ accepted a
        → lent_now tables.new ≡ put_lists a.set (lent_now tables.old) }
    ensures same_tables { SameTables tables.old tables.new }
{
    let mut r = BitReader {
        bytes: s,
        bit_pos: 0,
    };
    let front = read_front(&mut r, tables.subpic_ids)?;
    let head = front.head;
    let kind = front.kind;
    let partitioned = kind.pps_no_pic_partition_flag == 0;
    let partition = read_block(
        &mut r,
        partitioned,
        head.pps_pic_width_in_luma_samples,
        head.pps_pic_height_in_luma_samples,
        tables,
    )?;
    let back = read_back(&mut r, partitioned)?;
    answer_of(&mut r, front, partition, back)
}
