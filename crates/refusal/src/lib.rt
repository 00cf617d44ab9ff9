// The refusals of docs/BEHAVIOUR.md, and their numbers.
#![tactic(auto)]

ghost use Rattle.std.specs.Prelude.{◌≡◌};
ghost use Rattle.refusal.specs.Numbers.{number};

use std::error::Error;
use std::fmt;

#[derive(Clone, Copy, Debug, PartialEq, Eq)]
pub enum Refusal {
    // A NAL unit under 2 bytes.
    NalTooShort = 1,
    // nal_unit_type is not 16.
    NotPps = 2,
    // A NAL unit to be read, or bytes to be escaped or unescaped, over 65,535 bytes.
    TooLong = 3,
    // The work buffer is shorter than the NAL unit without its header; in unescaping, than the input.
    WorkTooShort = 4,
    // A lent table is below its length; in writing also a count above that length.
    TableTooShort = 5,
    // ue(v) with 32 leading zeros.
    UeTooLong = 6,
    // A width or height of 0.
    EmptyPicture = 7,
    // Subpictures minus 1 over 999, or an id length minus 1 over 15.
    SubpicIdMapping = 8,
    // pps_log2_ctu_size_minus5 over 2.
    CtuSize = 9,
    // Explicit columns minus 1 at least 30, or rows minus 1 at least 990; in writing, none.
    TileCounts = 10,
    // A tile size minus 1 at least the picture's CTBs on that axis.
    TileSize = 11,
    // Explicit tile sizes sum past the picture.
    TileSizesSum = 12,
    // Over 30 columns, or rows over 990 div columns.
    GridTooLarge = 13,
    // N over 999.
    TooManySlices = 14,
    // A slice's width or height passes the grid.
    SlicePastGrid = 15,
    // A split count or height minus 1 at least the row height, or their sum past it.
    SplitHeights = 16,
    // More split slices than N + 1 leaves.
    TooManySplitSlices = 17,
    // A delta of 0, with a magnitude of at least the tile count, or leaving the grid.
    TileIdxDelta = 18,
    // The default walk leaves the grid with slices to come.
    WalkLeavesGrid = 19,
    // A reference index over 14.
    RefIdx = 20,
    // A QP or deblocking offset outside -12 to 12, or a QP list not 1 to 6 long.
    QpOffset = 21,
    // No bit left for the stop bit.
    NoStopBit = 22,
    // A stop bit of 0, or an alignment bit of 1.
    TrailingBits = 23,
    // Writing: a PPS id over 63 or an SPS id over 15.
    ParameterSetId = 24,
    // 4294967295 as ue(v), -2147483648 as se(v).
    NoCode = 25,
    // Writing: an optional part, an inferred value or the number of slice entries contradicts the syntax.
    Contradiction = 26,
    // Writing: a wrong number of subpicture ids, or an id too large for its length.
    SubpicIds = 27,
    // Writing: extension bits that end in 0.
    ExtensionEndsInZero = 28,
    // Writing or escaping: an output shorter than the bytes to be put there.
    OutputTooShort = 29,
}

impl Refusal {
    // The number by which C knows it, 1 to 29.
    #[tactic(auto, using(crate::proofs::Numbers::tagged))]
    pub fn number(self) -> u8
        ensures { result ≡ number self }
    {
        self as u8
    }
}

impl fmt::Display for Refusal {
    fn fmt<W: fmt::Write>(&self, f: &mut fmt::Formatter<W>) -> fmt::Result {
        f.write_str(match self {
            Refusal::NalTooShort => "the NAL unit has fewer than 2 bytes",
            Refusal::NotPps => "the NAL unit is no picture parameter set",
            Refusal::TooLong => "more than 65,535 bytes",
            Refusal::WorkTooShort => "the work buffer is too short",
            Refusal::TableTooShort => "a lent table is too short",
            Refusal::UeTooLong => "an Exp-Golomb code with 32 leading zeros",
            Refusal::EmptyPicture => "the picture's width or height is 0",
            Refusal::SubpicIdMapping => "too many subpictures, or too long ids",
            Refusal::CtuSize => "pps_log2_ctu_size_minus5 is over 2",
            Refusal::TileCounts => "the number of explicit tile columns or rows",
            Refusal::TileSize => "an explicit tile size is not below the picture's",
            Refusal::TileSizesSum => "the explicit tile sizes pass the picture",
            Refusal::GridTooLarge => "too many tile columns or rows",
            Refusal::TooManySlices => "pps_num_slices_in_pic_minus1 is over 999",
            Refusal::SlicePastGrid => "a slice passes the tile grid",
            Refusal::SplitHeights => "the slice heights of a split tile pass its row",
            Refusal::TooManySplitSlices => "a split tile has more slices than are left",
            Refusal::TileIdxDelta => "pps_tile_idx_delta_val leaves the grid",
            Refusal::WalkLeavesGrid => "the slices leave the tile grid",
            Refusal::RefIdx => "a default number of reference indices over 15",
            Refusal::QpOffset => "a QP or deblocking offset, or their list, out of range",
            Refusal::NoStopBit => "no bit is left for the stop bit",
            Refusal::TrailingBits => "wrong trailing bits",
            Refusal::ParameterSetId => "a parameter set id is too large",
            Refusal::NoCode => "a value has no Exp-Golomb code of 32 bits",
            Refusal::Contradiction => "the record contradicts its own flags and counts",
            Refusal::SubpicIds => "wrong subpicture ids",
            Refusal::ExtensionEndsInZero => "the extension bits end in 0",
            Refusal::OutputTooShort => "the output is too short",
        })
    }
}

impl Error for Refusal {}
