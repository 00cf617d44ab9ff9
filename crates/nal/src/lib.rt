// Escaping and unescaping of a NAL unit's payload (H.266 7.3.1.1, 7.4.2.1; the Rust's src/nal.rs), between bytes that
// the caller lends.
#![tactic(auto)]

ghost use Rattle.std.specs.Prelude.{◌≡◌, ◌≤◌, leb, length};
ghost use Rattle.tables.specs.Tables.{over};
ghost use Rattle.nal.specs.Escape.{zero_run, is_escape, needs_escape, escape};
ghost use Rattle.nal.specs.Answers.{unescape_answer, unescape_out, escape_answer, escape_out};

use refusal::Refusal;

// The most bytes that are escaped or unescaped in one call.
const MAX_BYTES: usize = 65535;

// Takes the escape bytes out of a payload. Refusals: TooLong, then WorkTooShort if the output is shorter than it.
#[tactic(auto, unfolding(crate::specs::Answers::unescape_answer, crate::specs::Answers::unescape_out, crate::specs::Answers::output_after))]
pub fn ebsp_to_rbsp(ebsp: &[u8], out: &mut [u8]) -> Result<usize, Refusal>
    ensures value { result ≡ unescape_answer ebsp.now out.old }
    ensures out_after { out.new ≡ unescape_out ebsp.now out.old }
{
    if ebsp.len() > MAX_BYTES {
        return Err(Refusal::TooLong);
    }
    if out.len() < ebsp.len() {
        return Err(Refusal::WorkTooShort);
    }
    let mut put: usize = 0;
    let mut z: u8 = 0;
    for &b in ebsp {
        // Most bytes: without a test of their own up to three times slower.
        if b > 3 {
            out[put] = b;
            put += 1;
            z = 0;
            continue;
        }
        if !is_escape(z, b) {
            out[put] = b;
            put += 1;
            z = zero_run(z, b);
            continue;
        }
        z = 0;
    }
    Ok(put)
}

// Puts the escape bytes into a payload. Refusals: TooLong, then OutputTooShort if the output is shorter than the
// escaped bytes.
#[tactic(auto, unfolding(crate::specs::Answers::escape_answer, crate::specs::Answers::escape_out, crate::specs::Answers::output_after))]
pub fn rbsp_to_ebsp(rbsp: &[u8], out: &mut [u8]) -> Result<usize, Refusal>
    ensures value { result ≡ escape_answer rbsp.now out.old }
    ensures out_after { out.new ≡ escape_out rbsp.now out.old }
{
    if rbsp.len() > MAX_BYTES {
        return Err(Refusal::TooLong);
    }
    if !fits_in(rbsp, out.len()) {
        return Err(Refusal::OutputTooShort);
    }
    Ok(escape_into(rbsp, out))
}

// The run of zero bytes that ends with b, after a run of z: 2 stands for two and more.
#[tactic(auto, unfolding(crate::specs::Escape::zero_run))]
pub fn zero_run(z: u8, b: u8) -> u8
    ensures { result ≡ zero_run z b }
{
    if b == 0 { z.min(1) + 1 } else { 0 }
}

#[tactic(auto, unfolding(crate::specs::Escape::is_escape))]
fn is_escape(z: u8, b: u8) -> bool
    ensures { result ≡ is_escape z b }
{
    z >= 2 && b == 3
}

#[tactic(auto, unfolding(crate::specs::Escape::needs_escape))]
pub fn needs_escape(z: u8, b: u8) -> bool
    ensures { result ≡ needs_escape z b }
{
    z >= 2 && b <= 3
}

// Whether the escaped bytes fit. Two bytes become three at the most, so with that much room there is nothing to count.
#[tactic(auto, using(crate::proofs::Putting::lengths))]
fn fits_in(rbsp: &[u8], room: usize) -> bool
    requires { length rbsp.now ≤ 65535 }
    ensures { result ≡ leb (length (escape rbsp.now)) room }
{
    let most = rbsp.len() + rbsp.len() / 2;
    if most <= room {
        return true;
    }
    escaped_len(rbsp) <= room
}

#[tactic(auto, using(crate::proofs::Putting::lengths))]
fn escaped_len(rbsp: &[u8]) -> usize
    requires { length rbsp.now ≤ 65535 }
    ensures { result ≡ length (escape rbsp.now) }
{
    let mut n: usize = 0;
    let mut z: u8 = 0;
    for &b in rbsp {
        if b > 3 {
            n += 1;
            z = 0;
            continue;
        }
        if needs_escape(z, b) {
            n += 2;
            z = zero_run(0, b);
            continue;
        }
        n += 1;
        z = zero_run(z, b);
    }
    if z >= 2 {
        return n + 1;
    }
    n
}

fn escape_into(rbsp: &[u8], out: &mut [u8]) -> usize
    requires { length (escape rbsp.now) ≤ length out.old }
    ensures value { result ≡ length (escape rbsp.now) }
    ensures out_after { out.new ≡ over (escape rbsp.now) out.old }
{
    let mut put: usize = 0;
    let mut z: u8 = 0;
    for &b in rbsp {
        if b > 3 {
            out[put] = b;
            put += 1;
            z = 0;
            continue;
        }
        if needs_escape(z, b) {
            out[put] = 3;
            out[put + 1] = b;
            put += 2;
            z = zero_run(0, b);
            continue;
        }
        out[put] = b;
        put += 1;
        z = zero_run(z, b);
    }
    if z >= 2 {
        out[put] = 3;
        return put + 1;
    }
    put
}
