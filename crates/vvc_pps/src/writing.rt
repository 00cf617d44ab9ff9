// Writing a picture parameter set. The record and the triples cross by value, these in a struct, since an array alone
// doesn't.
ghost use Rattle.std.specs.Prelude.{◌≡◌};
ghost use Rattle.pps_syntax.specs.WriteAnswers.{write_pps, write_pps_nal};
ghost use Rattle.pps_tables.specs.Parameters.{before};
ghost use Rattle.vvc_pps.specs.Answers.{held_written, written_held};

use crate::VvcByteCount;
use pps_record::{VvcPps, VvcQpOffsets};
use pps_tables::{ENTRY_LEN, LentTables, SliceTables};

#[repr(C)]
#[derive(Clone, Copy)]
pub struct VvcQpOffsetList {
    pub triples: [VvcQpOffsets; 6],
}

// The RBSP.
#[unsafe(no_mangle)]
pub extern "C" fn vvc_write_pps(
    pps: VvcPps,
    triples: VvcQpOffsetList,
    subpic_ids: &[u32],
    tile_column_widths: &[u32],
    tile_row_heights: &[u32],
    entries: &[[u32; ENTRY_LEN]],
    split_heights: &[u32],
    extension: &[u8],
    out: &mut [u8],
) -> VvcByteCount
    ensures { let given = before subpic_ids tile_column_widths tile_row_heights entries split_heights in
        held_written result out.new
        ≡ written_held (write_pps pps triples.triples given extension.now out.old) }
{
    let tables = LentTables {
        subpic_ids,
        tile_column_widths,
        tile_row_heights,
        slices: SliceTables {
            entries,
            split_heights,
        },
    };
    let answer = pps_write::write_pps(&pps, &triples.triples, tables, extension, out);
    VvcByteCount::from(answer)
}

// The NAL unit, with its header.
#[unsafe(no_mangle)]
pub extern "C" fn vvc_write_pps_nal(
    pps: VvcPps,
    triples: VvcQpOffsetList,
    subpic_ids: &[u32],
    tile_column_widths: &[u32],
    tile_row_heights: &[u32],
    entries: &[[u32; ENTRY_LEN]],
    split_heights: &[u32],
    extension: &[u8],
    out: &mut [u8],
) -> VvcByteCount
    ensures { let given = before subpic_ids tile_column_widths tile_row_heights entries split_heights in
        held_written result out.new
        ≡ written_held (write_pps_nal pps triples.triples given extension.now out.old) }
{
    let tables = LentTables {
        subpic_ids,
        tile_column_widths,
        tile_row_heights,
        slices: SliceTables {
            entries,
            split_heights,
        },
    };
    let answer = pps_write::write_pps_nal(&pps, &triples.triples, tables, extension, out);
    VvcByteCount::from(answer)
}
