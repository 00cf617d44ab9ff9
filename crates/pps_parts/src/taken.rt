// The part of the work buffer that a set took.
ghost use Rattle.std.specs.Prelude.{◌≡◌};
ghost use Rattle.pps_parts.specs.Taken.{part_taken};

// After an acceptance, over the same buffer and count: the RBSP of the set up to its last byte. Empty where the count
// passes the buffer.
#[tactic(auto, unfolding(crate::specs::Taken::part_taken))]
pub fn bytes_of_set<'a>(work: &'a [u8], bytes_taken: usize) -> &'a [u8]
    ensures { result.now ≡ part_taken work.now bytes_taken }
{
    if bytes_taken > work.len() {
        return &work[..0];
    }
    &work[..bytes_taken]
}
