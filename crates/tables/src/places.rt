// Places of a lent table. A store outside it does nothing.
ghost use Rattle.std.specs.Prelude.{◌≡◌, set};

pub fn put<T: Copy>(table: &mut [T], at: usize, value: T)
    ensures { table.new ≡ set table.old at value }
{
    if at < table.len() {
        table[at] = value;
    }
}
