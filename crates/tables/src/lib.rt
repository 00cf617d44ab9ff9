// Tables that a caller lends, and how they are cleared.
#![tactic(auto)]

ghost use Rattle.std.specs.Prelude.{◌≡◌, length};
ghost use Rattle.tables.specs.Tables.{blank};

pub mod places;

// Every place of the table becomes v. (Std's `fill` puts clones: at a T it promises nothing of them, at arrays not their
// length.)
pub fn clear<T: Copy>(table: &mut [T], v: T)
    ensures { table.new ≡ blank (length table.old) v }
{
    for place in table.iter_mut() {
        *place = v;
    }
}
