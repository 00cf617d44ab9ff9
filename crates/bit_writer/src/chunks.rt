// Several bits at once, as many as a byte takes.
ghost use Rattle.std.specs.Prelude.{◌≡◌, ◌+◌, ◌%◌, ◌≤◌, ◌<◌};
ghost use Rattle.codes.specs.Bits.{to_bits};
ghost use Rattle.bit_writer.specs.Writing.{feed};
ghost use Rattle.bit_writer.specs.Written.{written};

use super::BitWriter;

impl BitWriter {
    // The `m` low bits of `x` into the byte that is being made, which has room for them.
    fn put_chunk(&mut self, out: &mut [u8], x: u64, m: u32)
        requires { (0 < m) × (self.old.have % 8 + m ≤ 8) }
        ensures { written self.new out.new ≡ feed (written self.old out.old) (to_bits m x) }
    {
        let p = 1u64 << m;
        let v = ((self.cur as u64 * p + x % p) % 256) as u8;
        let n = self.have % 8 + m as u8;
        if n < 8 {
            self.cur = v;
            self.have = n;
            return;
        }
        self.put_byte(out, v);
    }

    // The `n` low bits of `value`, by as many as fit into a byte.
    #[tactic(auto, using(crate::specs::Chunks::chunk_first), unfolding(codes::specs::Bits::to_bits, crate::specs::Writing::feed))]
    pub(crate) fn put_word(&mut self, out: &mut [u8], value: u64, n: u32)
        requires { n ≤ 64 }
        ensures { written self.new out.new ≡ feed (written self.old out.old) (to_bits n value) }
    {
        let mut k = n;
        // Not a range: the first step takes what the byte has room for, the later ones 8.
        while 0 < k {
            let room = 8 - (self.have % 8) as u32;
            let m = k.min(room);
            k -= m;
            self.put_chunk(out, value >> k, m);
        }
    }
}
