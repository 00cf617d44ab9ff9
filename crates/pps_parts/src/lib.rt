// The two parts of a set around its partition block.
#![tactic(auto)]

ghost use Rattle.std.specs.Prelude.{◌≡◌};
ghost use Rattle.std.proofs.lemmas.List.Edits.{sets};
ghost use Rattle.bit_reader.specs.Gives.{Gives, value_read, held_as};
ghost use Rattle.syntax.specs.Syntax.{parse};
ghost use Rattle.pps_syntax.specs.Pps.{front, back};
ghost use Rattle.pps_parts.specs.Parts.{front_of, back_of};

use bit_reader::BitReader;
use pps_blocks::chroma::{Chroma, read_chroma};
use pps_blocks::deblocking::read_deblocking;
use pps_blocks::subpic_ids::read_subpic_ids;
use pps_fields::{
    read_conf_win, read_head, read_kind, read_picture_header, read_references, read_scaling_win,
};
use pps_record::groups::{Head, PictureHeaderFlags, PictureKind, References};
use pps_record::{
    VvcPpsConfWinOffsets, VvcPpsDeblocking, VvcPpsScalingWinOffsets, VvcPpsSubpicIdMapping,
};
use refusal::Refusal;

pub mod end;
pub mod taken;

#[derive(Clone, Copy)]
pub struct FrontRead {
    pub head: Head,
    pub conf_win: VvcPpsConfWinOffsets,
    pub scaling_win: VvcPpsScalingWinOffsets,
    pub kind: PictureKind,
    pub subpic_ids: VvcPpsSubpicIdMapping,
}

// What stands before the block; the ids go into the front of their table.
pub fn read_front(r: &mut BitReader<'_>, ids: &mut [u32]) -> Result<FrontRead, Refusal>
    ensures value { Gives (held_as front_of (parse front)) r.old r.new result }
    ensures table { ids.new ≡ sets ids.old 0 (value_read (parse front) r.old).subpic_ids.pps_subpic_id }
{
    let head = read_head(r)?;
    let conf_win = read_conf_win(r)?;
    let scaling_win = read_scaling_win(r)?;
    let kind = read_kind(r);
    let partitioned = kind.pps_no_pic_partition_flag == 0;
    let subpic_ids = read_subpic_ids(r, partitioned, ids)?;
    Ok(FrontRead {
        head,
        conf_win,
        scaling_win,
        kind,
        subpic_ids,
    })
}

#[derive(Clone, Copy)]
pub struct BackRead {
    pub references: References,
    pub chroma: Chroma,
    pub deblocking: VvcPpsDeblocking,
    pub picture_header: PictureHeaderFlags,
}

// What stands behind it.
pub fn read_back(r: &mut BitReader<'_>, partitioned: bool) -> Result<BackRead, Refusal>
    ensures { Gives (held_as back_of (parse (back partitioned))) r.old r.new result }
{
    let references = read_references(r)?;
    let chroma = read_chroma(r)?;
    let with_chroma = chroma.block.present != 0;
    let deblocking = read_deblocking(r, partitioned, with_chroma)?;
    let weighted = (references.pps_weighted_pred_flag != 0)
        | (references.pps_weighted_bipred_flag != 0);
    let picture_header = read_picture_header(r, partitioned, weighted);
    Ok(BackRead {
        references,
        chroma,
        deblocking,
        picture_header,
    })
}
