// A run of bits out of other bytes, eight at a time.
ghost use Rattle.std.specs.Prelude.{◌≡◌, ◌+◌, ◌-◌, ◌*◌, ◌/◌, ◌%◌, ◌^◌};
ghost use Rattle.codes.specs.Bits.{to_bits};
ghost use Rattle.codes.specs.Bytes.{bits_at, bit_list};
ghost use Rattle.codes.specs.Symbols.{putting};
ghost use Rattle.bit_writer.specs.Writing.{feed};
ghost use Rattle.bit_writer.specs.Stop.{play_on};
ghost use Rattle.bit_writer.specs.Written.{written};

use super::BitWriter;

// Byte `i` as bits are counted, 0 past the end.
#[tactic(auto, using(codes::specs::Bytes::bits_past))]
fn byte_at(src: &[u8], i: usize) -> u8
    ensures { result ≡ bits_at src.now (i * 8) 8 }
{
    if i >= 0x1000_0000_0000_0000 || i >= src.len() {
        return 0;
    }
    src[i]
}

// Eight bits of two bytes, behind the first `from % 8`.
fn eight_of(a: u8, b: u8, from: usize) -> u8
    ensures { result ≡ (a * 256 + b) / 2 ^ (8 - from % 8) % 256 }
{
    let shift = 8 - from % 8;
    (((a as u32 * 256 + b as u32) >> shift) % 256) as u8
}

impl BitWriter {
    // Eight bits make one byte whole, and leave as many bits of the next as there were.
    fn put_eight(&mut self, out: &mut [u8], x: u8)
        ensures { written self.new out.new ≡ feed (written self.old out.old) (to_bits 8 x) }
    {
        let n = self.have % 8;
        let p = 1u64 << (8 - n);
        let v = ((self.cur as u64 * p + (x >> n) as u64) % 256) as u8;
        let q = 1u8 << n;
        self.put_byte(out, v);
        self.cur = x % q;
        self.have = n;
    }

    // `count` bits of `src` from bit `from` on, zeros past its end.
    #[tactic(auto, using(crate::proofs::Copying::copy_turn))]
    pub fn put_copy(&mut self, out: &mut [u8], src: &[u8], from: usize, count: usize)
        ensures { written self.new out.new
            ≡ play_on (written self.old out.old) (putting (bit_list src.now from count)) }
    {
        let first = from / 8;
        let end = first + count / 8;
        let mut a = byte_at(src, first);
        // By itself, since a store to the output may change anything that a reference leads to.
        let mut w = *self;
        for i in first..end {
            let b = byte_at(src, i + 1);
            w.put_eight(out, eight_of(a, b, from));
            a = b;
        }
        let b = byte_at(src, end + 1);
        let left = count % 8;
        w.put_word(out, eight_of(a, b, from) as u64 >> (8 - left), left as u32);
        *self = w;
    }
}
