// Writing bits (H.266 7.2, 9.2; the Rust's src/bit_writer.rs) into bytes that the caller lends. A writer stores only
// inside the output and counts always, so that a run over an empty output gives the exact length and any refusal.
#![tactic(auto)]

ghost use Rattle.std.specs.Prelude.{◌≡◌, true, false, List, [], ◌∷◌, ℕ, ◌%◌, min, OnOk, OnErr};
ghost use Rattle.std.proofs.lemmas.List.Edits.{sets};
ghost use Rattle.codes.specs.Bits.{to_bits};
ghost use Rattle.codes.specs.Symbols.{putting, check};
ghost use Rattle.refusal.specs.Numbers.{number};
ghost use Rattle.bit_writer.specs.Writing.{fresh, sink_over, finished, trailing_bits, closed};
ghost use Rattle.codes.specs.Coded.{flag_bit, ue_symbols, se_symbols};
ghost use Rattle.bit_writer.specs.Stop.{play_on};
ghost use Rattle.bit_writer.specs.Written.{written, ended};

use refusal::Refusal;
use tables::places::put;

mod by_value;
mod bytes;
mod chunks;
mod copy;
mod exp_golomb;

// Where writing stands. What refuses says so by its result, and puts nothing.
#[derive(Clone, Copy)]
pub struct BitWriter {
    // Bytes are escaped as they are made.
    pub escape: bool,
    // The run of zero bytes behind, 2 for two and more.
    pub zeros: u8,
    // The place of the next byte in the output, whether or not the output reaches so far.
    pub put: usize,
    // The byte that is being made, and how many bits of it there are.
    pub cur: u8,
    pub have: u8,
}

// A writer and the number of its first refusal, 0 if there is none. It crosses the C interface, by value.
#[repr(C)]
#[derive(Clone, Copy)]
pub struct Sink {
    pub escape: bool,
    pub zeros: u8,
    pub put: usize,
    pub cur: u8,
    pub have: u8,
    pub refused: u8,
}

// A test of a group of fields, beside what is written of it.
#[tactic(auto, unfolding(crate::specs::Stop::play_on, crate::specs::Writing::step, codes::specs::Symbols::check, codes::specs::Symbols::first))]
pub fn test(ok: bool, refusal: Refusal) -> Result<(), Refusal>
    ensures put { (w : BitWriter) (o : List ℕ) → ended w o result ≡ play_on (written w o) (check ok (number refusal)) }
    ensures passed { OnOk result (ok ≡ true) }
    ensures failed { OnErr result (ok ≡ false) }
{
    if ok { Ok(()) } else { Err(refusal) }
}

impl BitWriter {
    // Writes from the front of the output on.
    pub fn new(escape: bool) -> BitWriter
        ensures { (o : List ℕ) → written result o ≡ sink_over (fresh escape 0) o }
    {
        BitWriter {
            escape,
            zeros: 0,
            put: 0,
            cur: 0,
            have: 0,
        }
    }

    // The two bytes of a NAL unit's header, as they are; what follows them is escaped.
    pub fn start_nal(out: &mut [u8], first: u8, second: u8) -> BitWriter
        ensures { written result out.new ≡ sink_over (fresh true 2) (sets out.old 0 (first ∷ second ∷ [])) }
    {
        put(out, 0, first);
        put(out, 1, second);
        BitWriter {
            put: 2,
            ..BitWriter::new(true)
        }
    }

    // One bit; only the low bit of `b` counts.
    #[tactic(auto, unfolding(crate::specs::Stop::play_on, crate::specs::Writing::step, crate::specs::Writing::put_bit, codes::specs::Symbols::putting))]
    pub fn put_bit(&mut self, out: &mut [u8], b: u32)
        ensures { written self.new out.new ≡ play_on (written self.old out.old) (putting (b % 2 ∷ [])) }
    {
        let v = self.cur % 128 * 2 + (b % 2) as u8;
        let n = self.have % 8;
        if n < 7 {
            self.cur = v;
            self.have = n + 1;
            return;
        }
        self.put_byte(out, v);
    }

    // A flag: 1 where `v` is not 0.
    pub fn put_flag(&mut self, out: &mut [u8], v: u8)
        ensures { written self.new out.new ≡ play_on (written self.old out.old) (putting (flag_bit v ∷ [])) }
    {
        self.put_bit(out, u32::from(v != 0));
    }

    // u(n): the `n` low bits of `value`; more than 32 are taken as 32.
    #[tactic(auto, using(crate::proofs::Ended::feed_on))]
    pub fn put_bits(&mut self, out: &mut [u8], value: u32, n: u32)
        ensures { written self.new out.new
            ≡ play_on (written self.old out.old) (putting (to_bits (min n 32) value)) }
    {
        self.put_word(out, u64::from(value), n.min(32));
    }

    // ue(v), which 4294967295 does not have.
    pub fn put_ue(&mut self, out: &mut [u8], v: u32) -> Result<(), Refusal>
        ensures { ended self.new out.new result ≡ play_on (written self.old out.old) (ue_symbols v) }
    {
        self.put_tested(out, u64::from(v))
    }

    // se(v), which -2147483648 does not have.
    #[tactic(auto, unfolding(codes::specs::ExpGolomb::se_code))]
    pub fn put_se(&mut self, out: &mut [u8], v: i32) -> Result<(), Refusal>
        ensures { ended self.new out.new result ≡ play_on (written self.old out.old) (se_symbols v) }
    {
        self.put_tested(out, exp_golomb::code_num(v))
    }

    // rbsp_trailing_bits(): a 1, then zeros to the end of the byte.
    #[tactic(auto, using(crate::proofs::Coding::closing))]
    pub fn put_trailing(&mut self, out: &mut [u8])
        ensures { written self.new out.new
            ≡ play_on (written self.old out.old) (putting (trailing_bits self.old.have)) }
    {
        let m = 7 - self.have % 8;
        self.put_bit(out, 1);
        self.put_word(out, 0, u32::from(m));
    }

    // The end of the payload: an escaped one gets 03 after two final zeros.
    #[tactic(auto, unfolding(crate::specs::Writing::finished, crate::specs::Writing::put_raws, crate::specs::Writing::put_raw, nal::specs::Escape::escape_end))]
    pub fn finish(&mut self, out: &mut [u8])
        ensures { written self.new out.new ≡ finished (written self.old out.old) }
    {
        if self.escape && self.zeros >= 2 {
            self.put_raw(out, 3);
        }
    }

    // The trailing bits, and the end of the payload.
    #[tactic(auto, using(crate::proofs::Coding::closing))]
    pub fn close(&mut self, out: &mut [u8])
        ensures { written self.new out.new ≡ closed (written self.old out.old) }
    {
        self.put_trailing(out);
        self.finish(out);
    }
}
