// The readers over a cursor by value, with any number for a refusal, as in bit_reader's by_cursor. A test with number 0
// refuses nothing.
ghost use Rattle.std.specs.Prelude.{◌≡◌, ltb};
ghost use Rattle.std.proofs.lemmas.List.Edits.{sets};
ghost use Rattle.bit_reader.specs.Reading.{ue_read, demanded};
ghost use Rattle.pps_fields.specs.ByCursor.{tested};
ghost use Rattle.pps_fields.specs.Sizes.{sizes_read};
ghost use Rattle.pps_fields.specs.Axis.{axis_of};

use super::lists::{AxisRead, axis_read, store};
use bit_reader::{BitsRead, Cursor};
use slice_loop::CtbCount;

// A test: refuses with `number` where it fails, unless there is a refusal already.
#[tactic(auto, unfolding(bit_reader::specs::Reading::demanded))]
fn demand(ok: bool, number: u8, c: Cursor) -> Cursor
    ensures { result ≡ demanded ok number c }
{
    if ok | (c.refused != 0) {
        return c;
    }
    Cursor {
        at: c.at,
        refused: number,
    }
}

// ue(v) below `bound`.
#[tactic(auto, unfolding(crate::specs::ByCursor::tested))]
pub fn ue_below(s: &[u8], bound: u32, number: u8, c: Cursor) -> BitsRead
    ensures { result ≡ tested (λ v. ltb v bound) number (ue_read s.now c) }
{
    let v = bit_reader::ue(s, c);
    BitsRead {
        value: v.value,
        next: demand(v.value < bound, number, v.next),
    }
}

// What the sizes that were read say of an axis, and the cursor behind them.
#[derive(Clone, Copy)]
pub struct AxisReadAt {
    pub axis: AxisRead,
    pub next: Cursor,
}

// `count` times ue(v), each a size minus 1 below the axis' length in CTBs; into the table from place `from` on. At a
// refusal the axis is that of the sizes before it.
pub fn read_axis(
    s: &[u8],
    count: u32,
    total: CtbCount,
    number: u8,
    table: &mut [u32],
    from: usize,
    c: Cursor,
) -> AxisReadAt
    ensures axis { let explicit = sizes_read count total.0 number s.now c in
        result ≡ record { axis = axis_of explicit.value total.0; next = explicit.next } }
    ensures table { let explicit = sizes_read count total.0 number s.now c in
        table.new ≡ sets table.old from explicit.value }
{
    let mut cur = c;
    let mut uniform: u32 = 1;
    let mut taken: u64 = 0;
    for i in 0..count {
        let v = ue_below(s, total.0, number, cur);
        cur = v.next;
        if cur.refused != 0 {
            return AxisReadAt {
                axis: axis_read(i, uniform, taken, total),
                next: cur,
            };
        }
        store(table, from, i, v.value);
        uniform = v.value + 1;
        taken += u64::from(uniform);
    }
    AxisReadAt {
        axis: axis_read(count, uniform, taken, total),
        next: cur,
    }
}
