// Where the columns or the rows of a grid begin.
ghost use Rattle.tile_grid.specs.Starts.{ProperSizes, StartsAt};

use tile_sizes::MAX_TILES;

// Where each of the sizes on an axis of a picture begins, and behind the last where the picture ends.
pub fn starts_of(sizes: &[u32]) -> [u32; MAX_TILES as usize + 1]
    requires { ProperSizes sizes.now }
    ensures { StartsAt sizes.now result }
{
    let mut at = [0u32; MAX_TILES as usize + 1];
    let mut total: u32 = 0;
    for (i, size) in sizes.iter().enumerate() {
        total += *size;
        at[i + 1] = total;
    }
    at
}
