// What is lent beside a record to be written or asked about: tables at their stated lengths, and counts that they hold
// (docs/BEHAVIOUR.md, 5).
#![tactic(auto)]

ghost use Rattle.std.specs.Prelude.{◌&&◌, ◌≡◌, leb};
ghost use Rattle.partition.specs.Grid.{max_slices};
ghost use Rattle.pps_syntax.specs.FromRecord.{tables_long, counts_fit};
ghost use Rattle.pps_syntax.specs.SliceTables.{split_total};
ghost use Rattle.pps_tables.specs.Lent.{slices_of, lent_of};

use pps_record::VvcPps;
use pps_record::lengths::SUBPIC_IDS;
use pps_tables::{LentTables, SliceTables};
use tile_sizes::{MAX_NUM_SLICES_MINUS1, MAX_SLICES, MAX_TILE_COLUMNS, MAX_TILES};

// The split counts of the first `n` entries don't sum past their table.
fn split_total_fits(slices: SliceTables<'_>, n: u32) -> bool
    ensures { result ≡ leb (split_total (slices_of slices.entry) 0 n) max_slices }
{
    let mut left: u32 = MAX_SLICES;
    for i in 0..n {
        let c = slices.split_count(i);
        if left < c {
            return false;
        }
        left -= c;
    }
    true
}

// The counts of present parts.
#[tactic(auto, unfolding(pps_syntax::specs::FromRecord::counts_fit))]
fn counts_fit(pps: &VvcPps, tables: LentTables<'_>) -> bool
    ensures { result ≡ counts_fit pps.now (lent_of tables.entry) }
{
    let m = pps.subpic_id_mapping;
    let p = pps.partition;
    let n = p.num_rect_slices;
    (m.present == 0 || m.num_subpic_ids as usize <= SUBPIC_IDS)
        && (p.present == 0
            || p.num_tile_column_widths <= MAX_TILE_COLUMNS
                && p.num_tile_row_heights <= MAX_TILES
                && n <= MAX_NUM_SLICES_MINUS1
                && split_total_fits(tables.slices, n))
}

// Whether all tables are long enough, also those of absent parts, and hold what the record counts in its present parts.
pub fn lent_fits(pps: &VvcPps, tables: LentTables<'_>) -> bool
    ensures { let t = lent_of tables.entry in
        result ≡ (tables_long t && counts_fit pps.now t) }
{
    tables.are_long() && counts_fit(pps, tables)
}
