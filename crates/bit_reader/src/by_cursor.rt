// The readers over a cursor by value, as C calls them. A refusal sticks: behind it they give 0 and leave the cursor.
ghost use Rattle.std.specs.Prelude.{◌≡◌, min};
ghost use Rattle.refusal.specs.Numbers.{refused};
ghost use Rattle.bit_reader.specs.Reading.{u_read, byte_read, ue_read, se_read, trailing_read};
ghost use Rattle.bit_reader.specs.Gives.{reader_at};

use super::{BitReader, BitsRead, ByteRead, Cursor, SignedRead};
use refusal::Refusal;

impl Cursor {
    fn reader<'a>(self, s: &'a [u8]) -> BitReader<'a>
        ensures { result ≡ reader_at s.entry self }
    {
        BitReader {
            bytes: s,
            bit_pos: self.at,
        }
    }

    // Where a reader stands, with what it refused.
    #[tactic(auto, unfolding(refusal::specs::Numbers::refused))]
    fn behind<T: Copy>(r: BitReader, read: Result<T, Refusal>) -> Cursor
        ensures { result ≡ record { at = r.entry.bit_pos; refused = refused read } }
    {
        let refused = match read {
            Ok(_) => 0,
            Err(e) => e.number(),
        };
        Cursor {
            at: r.bit_pos,
            refused,
        }
    }
}

// u(n); more than 32 bits are read as 32.
#[tactic(auto, unfolding(crate::specs::Reading::u_read, crate::specs::Reading::unless_refused))]
pub fn u(s: &[u8], c: Cursor, n: u32) -> BitsRead
    ensures { result ≡ u_read s.now c (min n 32) }
{
    if c.refused != 0 {
        return BitsRead { value: 0, next: c };
    }
    let mut r = c.reader(s);
    let value = r.u(n);
    BitsRead {
        value,
        next: Cursor::behind(r, Ok(value)),
    }
}

// u(n) of at most 8 bits; more are read as 8.
#[tactic(auto, unfolding(crate::specs::Reading::byte_read, crate::specs::Reading::u_read, crate::specs::Reading::unless_refused))]
pub fn small_u(s: &[u8], c: Cursor, n: u32) -> ByteRead
    ensures { result ≡ byte_read s.now c (min n 8) }
{
    if c.refused != 0 {
        return ByteRead { value: 0, next: c };
    }
    let mut r = c.reader(s);
    let value = r.small_u(n);
    let next = Cursor::behind(r, Ok(value));
    ByteRead { value, next }
}

// u(1).
#[tactic(auto, unfolding(crate::specs::Reading::byte_read, crate::specs::Reading::u_read, crate::specs::Reading::unless_refused))]
pub fn flag(s: &[u8], c: Cursor) -> ByteRead
    ensures { result ≡ byte_read s.now c 1 }
{
    if c.refused != 0 {
        return ByteRead { value: 0, next: c };
    }
    let mut r = c.reader(s);
    let value = r.flag();
    let next = Cursor::behind(r, Ok(value));
    ByteRead { value, next }
}

// ue(v).
#[tactic(auto, unfolding(crate::specs::Reading::ue_read, crate::specs::Reading::ue_within, crate::specs::Reading::unless_refused))]
pub fn ue(s: &[u8], c: Cursor) -> BitsRead
    ensures { result ≡ ue_read s.now c }
{
    if c.refused != 0 {
        return BitsRead { value: 0, next: c };
    }
    let mut r = c.reader(s);
    let read = r.ue();
    BitsRead {
        value: read.unwrap_or(0),
        next: Cursor::behind(r, read),
    }
}

// se(v).
#[tactic(auto, unfolding(crate::specs::Reading::se_read, crate::specs::Reading::ue_read, crate::specs::Reading::ue_within, crate::specs::Reading::unless_refused, codes::specs::ExpGolomb::signed_of))]
pub fn se(s: &[u8], c: Cursor) -> SignedRead
    ensures { result ≡ se_read s.now c }
{
    if c.refused != 0 {
        return SignedRead { value: 0, next: c };
    }
    let mut r = c.reader(s);
    let read = r.se();
    SignedRead {
        value: read.unwrap_or(0),
        next: Cursor::behind(r, read),
    }
}

// rbsp_trailing_bits().
#[tactic(auto, unfolding(crate::specs::Reading::trailing_read))]
pub fn rbsp_trailing_bits(s: &[u8], c: Cursor) -> Cursor
    ensures { result ≡ trailing_read s.now c }
{
    if c.refused != 0 {
        return c;
    }
    let mut r = c.reader(s);
    let read = r.rbsp_trailing_bits();
    Cursor::behind(r, read)
}
