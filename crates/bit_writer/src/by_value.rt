// A writer as the C interface knows it: it goes in and comes back by value, with the number of its first refusal. Bits
// go on being put after a refusal.
ghost use Rattle.std.specs.Prelude.{◌≡◌, [], ◌∷◌, ◌%◌, ◌≤◌, min, ltb};
ghost use Rattle.codes.specs.Bits.{to_bits};
ghost use Rattle.codes.specs.Bytes.{bit_list};
ghost use Rattle.codes.specs.ExpGolomb.{ue_code};
ghost use Rattle.codes.specs.Symbols.{putting, checked};
ghost use Rattle.codes.specs.Coded.{flag_bit, ue_symbols, se_symbols};
ghost use Rattle.bit_writer.specs.Writing.{fresh, sink_over, play, trailing_bits, finished, closed};
ghost use Rattle.bit_writer.specs.Written.{writer_of, sink_of};
ghost use Rattle.bit_writer.specs.Answers.{answer_of};

use super::exp_golomb::{code_num, has_code};
use super::{BitWriter, Sink};
use refusal::Refusal;

impl Sink {
    // All but the refusal, which its caller keeps.
    fn writer(self) -> BitWriter
        ensures { result ≡ writer_of self }
    {
        BitWriter {
            escape: self.escape,
            zeros: self.zeros,
            put: self.put,
            cur: self.cur,
            have: self.have,
        }
    }

    // A writer's fields, with a refusal's number.
    fn of(w: BitWriter, refused: u8) -> Sink
        ensures { result ≡ sink_of w refused }
    {
        Sink {
            escape: w.escape,
            zeros: w.zeros,
            put: w.put,
            cur: w.cur,
            have: w.have,
            refused,
        }
    }

    pub fn new(escape: bool) -> Sink
        ensures { result ≡ fresh escape 0 }
    {
        Sink::of(BitWriter::new(escape), 0)
    }

    pub fn put_bit(self, out: &mut [u8], b: u32) -> Sink
        ensures { sink_over result out.new ≡ play (sink_over self out.old) (putting (b % 2 ∷ [])) }
    {
        let mut w = self.writer();
        w.put_bit(out, b);
        Sink::of(w, self.refused)
    }

    pub fn put_flag(self, out: &mut [u8], v: u8) -> Sink
        ensures { sink_over result out.new ≡ play (sink_over self out.old) (putting (flag_bit v ∷ [])) }
    {
        let mut w = self.writer();
        w.put_flag(out, v);
        Sink::of(w, self.refused)
    }

    pub fn put_bits(self, out: &mut [u8], value: u32, n: u32) -> Sink
        ensures { sink_over result out.new
            ≡ play (sink_over self out.old) (putting (to_bits (min n 32) value)) }
    {
        let mut w = self.writer();
        w.put_bits(out, value, n);
        Sink::of(w, self.refused)
    }

    pub fn put_copy(self, out: &mut [u8], src: &[u8], from: usize, count: usize) -> Sink
        ensures { sink_over result out.new
            ≡ play (sink_over self out.old) (putting (bit_list src.now from count)) }
    {
        let mut w = self.writer();
        w.put_copy(out, src, from, count);
        Sink::of(w, self.refused)
    }

    // The code of a value that has none is put too, behind its refusal.
    fn put_tested(self, out: &mut [u8], k: u64) -> Sink
        requires { k ≤ 4294967296 }
        ensures { sink_over result out.new
            ≡ play (sink_over self out.old) (checked (ltb k 4294967295) 25 (ue_code k)) }
    {
        let mut w = self.writer();
        w.put_code(out, k);
        if self.refused != 0 || has_code(k) {
            return Sink::of(w, self.refused);
        }
        Sink::of(w, Refusal::NoCode.number())
    }

    pub fn put_ue(self, out: &mut [u8], v: u32) -> Sink
        ensures { sink_over result out.new ≡ play (sink_over self out.old) (ue_symbols v) }
    {
        self.put_tested(out, u64::from(v))
    }

    #[tactic(auto, unfolding(codes::specs::ExpGolomb::se_code))]
    pub fn put_se(self, out: &mut [u8], v: i32) -> Sink
        ensures { sink_over result out.new ≡ play (sink_over self out.old) (se_symbols v) }
    {
        self.put_tested(out, code_num(v))
    }

    pub fn put_trailing(self, out: &mut [u8]) -> Sink
        ensures { sink_over result out.new
            ≡ play (sink_over self out.old) (putting (trailing_bits self.have)) }
    {
        let mut w = self.writer();
        w.put_trailing(out);
        Sink::of(w, self.refused)
    }

    pub fn finish(self, out: &mut [u8]) -> Sink
        ensures { sink_over result out.new ≡ finished (sink_over self out.old) }
    {
        let mut w = self.writer();
        w.finish(out);
        Sink::of(w, self.refused)
    }

    pub fn close(self, out: &mut [u8]) -> Sink
        ensures { sink_over result out.new ≡ closed (sink_over self out.old) }
    {
        let mut w = self.writer();
        w.close(out);
        Sink::of(w, self.refused)
    }

    // What a run says of an output with that much room: the number of bytes; or that of the refusal, 29 if they need
    // more.
    #[tactic(auto, unfolding(crate::specs::Answers::answer_of, crate::specs::Answers::answered, refusal::specs::Numbers::number))]
    pub fn answer(self, room: usize) -> Result<usize, u8>
        ensures { result ≡ answer_of self room }
    {
        if self.refused != 0 {
            return Err(self.refused);
        }
        if room < self.put {
            return Err(Refusal::OutputTooShort.number());
        }
        Ok(self.put)
    }
}
