// Lists of numbers, read into lent tables. A list ends at a refusal: what was read before it is stored, the rest of the
// table stays.
ghost use Rattle.std.specs.Prelude.{◌≡◌, List, ℕ, ◌+◌, ◌≤◌, Ok, min, length, set};
ghost use Rattle.std.proofs.lemmas.List.Edits.{sets};
ghost use Rattle.refusal.specs.Numbers.{number};
ghost use Rattle.bit_reader.specs.Gives.{Gives, value_read, held_as};
ghost use Rattle.syntax.specs.Elements.{u};
ghost use Rattle.syntax.specs.Lists.{many};
ghost use Rattle.pps_fields.specs.Sizes.{sizes_read};
ghost use Rattle.pps_fields.specs.Axis.{Counted, axis_of};

use super::fields::ue_below;
use bit_reader::BitReader;
use refusal::Refusal;
use slice_loop::CtbCount;
use tables::places::put;
use tile_sizes::uniform_sizes;

// Place from + i of the table becomes v; nothing, where the table is shorter.
pub(crate) fn store(table: &mut [u32], from: usize, i: u32, v: u32)
    ensures { table.new ≡ set table.old (from + i) v }
{
    if let Some(place) = from.checked_add(i as usize) {
        put(table, place, v);
    }
}

// The explicit sizes of an axis of tiles or slices: how many there are, the size that repeats behind them, and how many
// sizes there are in all; None where the explicit ones pass the axis.
#[derive(Clone, Copy)]
pub struct AxisRead {
    pub count: u32,
    pub uniform: u32,
    pub sizes: Option<u32>,
}

// The sizes of an axis, of which the explicit ones take so many CTBs.
pub(crate) fn axis_read(count: u32, uniform: u32, taken: u64, total: CtbCount) -> AxisRead
    requires { count ≤ taken }
    ensures { (es : List ℕ) → Counted es count uniform taken → result ≡ axis_of es total.0 }
{
    let length = u64::from(total.0);
    if length < taken {
        return AxisRead {
            count,
            uniform,
            sizes: None,
        };
    }
    let rest = uniform_sizes(uniform, (length - taken) as u32);
    AxisRead {
        count,
        uniform,
        sizes: Some(count + rest),
    }
}

// `count` times ue(v), each a size minus 1 below the axis' length in CTBs; into the table from place `from` on. The
// axis is counted in the same pass, so that nobody looks back into the table.
pub fn read_axis(
    r: &mut BitReader<'_>,
    count: u32,
    total: CtbCount,
    refusal: Refusal,
    table: &mut [u32],
    from: usize,
) -> Result<AxisRead, Refusal>
    ensures axis { Gives (held_as (λ es. axis_of es total.0) (sizes_read count total.0 (number refusal)))
        r.old r.new result }
    ensures table { table.new
        ≡ sets table.old from (value_read (sizes_read count total.0 (number refusal)) r.old) }
{
    let mut uniform: u32 = 1;
    let mut taken: u64 = 0;
    for i in 0..count {
        let v = ue_below(r, total.0, refusal)?;
        store(table, from, i, v);
        uniform = v + 1;
        taken += u64::from(uniform);
    }
    Ok(axis_read(count, uniform, taken, total))
}

// `count` times u(n), n being `bits` and at most 32; into the table from its first place on.
pub fn read_ids(r: &mut BitReader<'_>, count: u32, bits: u32, table: &mut [u32])
    ensures list { let ids = (many count (u (min bits 32) 27) 27).read in
        Gives ids r.old r.new (Ok (value_read ids r.old)) }
    ensures count { length (value_read (many count (u (min bits 32) 27) 27).read r.old) ≡ count }
    ensures table { table.new ≡ sets table.old 0 (value_read (many count (u (min bits 32) 27) 27).read r.old) }
{
    for i in 0..count {
        let v = r.u(bits);
        store(table, 0, i, v);
    }
}
