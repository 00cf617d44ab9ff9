// Reading a picture parameter set. A returned slice doesn't cross, so the part of the work buffer that the set took is
// told by its length alone.
ghost use Rattle.std.specs.Prelude.{◌≡◌};
ghost use Rattle.pps_answer.specs.Answers.{said};
ghost use Rattle.pps_answer.specs.ParsePps.{parse_pps};
ghost use Rattle.pps_tables.specs.Mutable.{before, after};
ghost use Rattle.vvc_pps.specs.PpsAnswer.{pps_read, held_read, read_held};

use crate::no_pps::no_pps;
use pps_answer::AcceptedPps;
use pps_record::{VvcPps, VvcQpOffsets};
use pps_tables::{ENTRY_LEN, LentTablesMut};
use refusal::Refusal;

#[repr(C)]
#[derive(Clone, Copy)]
pub struct VvcPpsRead {
    pub refused: u8,
    pub bytes_taken: usize,
    pub pps: VvcPps,
    pub triples: [VvcQpOffsets; 6],
}

impl From<Result<AcceptedPps, Refusal>> for VvcPpsRead {
    ghost from_gives = { λ answer read. read ≡ pps_read (said answer) };

    fn from(answer: Result<AcceptedPps, Refusal>) -> VvcPpsRead {
        match answer {
            Ok(a) => {
                let pps = a.pps;
                let triples = a.triples;
                VvcPpsRead {
                    refused: 0,
                    bytes_taken: a.bytes_taken,
                    pps,
                    triples,
                }
            }
            Err(refusal) => {
                let pps = no_pps();
                let triples = [VvcQpOffsets([0; 3]); 6];
                VvcPpsRead {
                    refused: refusal.number(),
                    bytes_taken: 0,
                    pps,
                    triples,
                }
            }
        }
    }
}

#[tactic(auto, using(crate::specs::PpsAnswer::read_held_lem))]
#[unsafe(no_mangle)]
pub extern "C" fn vvc_parse_pps(
    nal: &[u8],
    work: &mut [u8],
    subpic_ids: &mut [u32],
    tile_column_widths: &mut [u32],
    tile_row_heights: &mut [u32],
    entries: &mut [[u32; ENTRY_LEN]],
    split_heights: &mut [u32],
) -> VvcPpsRead
    ensures { let given = before subpic_ids tile_column_widths tile_row_heights entries split_heights in
        let left = after subpic_ids tile_column_widths tile_row_heights entries split_heights in
        held_read result work.new left ≡ read_held (parse_pps nal.now work.old given) }
{
    let mut tables = LentTablesMut {
        subpic_ids,
        tile_column_widths,
        tile_row_heights,
        entries,
        split_heights,
    };
    VvcPpsRead::from(pps_read::parse_pps(nal, work, &mut tables))
}
