// Writing a picture parameter set (the Rust's write_pps and write_pps_nal): a record, the triples beside it and its
// lent tables, into bytes that the caller lends.
#![tactic(auto)]

ghost use Rattle.std.specs.Prelude.{◌≡◌, ◌+◌, ◌*◌, leb};
ghost use Rattle.refusal.specs.Answers.{with_number};
ghost use Rattle.pps_syntax.specs.WriteAnswers.{wrote, write_set, write_pps, write_pps_nal};
ghost use Rattle.pps_tables.specs.Lent.{lent_of};
ghost use Rattle.pps_write.specs.Forms.{is_nal};
ghost use Rattle.pps_write.specs.Runs.{counted};

use pps_lent::lent_fits;
use pps_record::{VvcPps, VvcQpOffsets};
use pps_tables::LentTables;
use refusal::Refusal;
use set::put_set;

mod block;
mod set;

// What a set is put as.
#[derive(Clone, Copy)]
enum Form {
    Rbsp,
    // 00 81, then the escaped RBSP.
    NalUnit,
}

// Whether `count` bits from bit `first` on lie in `len` bytes; no sum passes 64 bits.
fn bits_inside(first: usize, count: usize, len: usize) -> bool
    ensures { result ≡ leb (first + count) (len * 8) }
{
    first / 8 + count / 8 + (first % 8 + count % 8 + 7) / 8 <= len
}

// A run over bytes of its own finds any refusal and counts the bytes, so that a refused write changes nothing. What
// fits there is copied; a longer set is put by a second run.
fn write_counted(
    form: Form,
    pps: &VvcPps,
    triples: &[VvcQpOffsets; 6],
    tables: LentTables<'_>,
    extension: &[u8],
    out: &mut [u8],
) -> Result<usize, Refusal>
    ensures { wrote (with_number result) out.new
        ≡ counted (is_nal form) pps.now triples.now (lent_of tables.entry) extension.now out.old }
{
    let room = out.len();
    let mut short = [0u8; 1024];
    let count = put_set(&mut short, form, pps, triples, tables, extension)?;
    if room < count {
        return Err(Refusal::OutputTooShort);
    }
    if count <= 1024 {
        out[..count].copy_from_slice(&short[..count]);
        return Ok(count);
    }
    put_set(out, form, pps, triples, tables, extension)
}

fn write_set(
    form: Form,
    pps: &VvcPps,
    triples: &[VvcQpOffsets; 6],
    tables: LentTables<'_>,
    extension: &[u8],
    out: &mut [u8],
) -> Result<usize, Refusal>
    ensures { wrote (with_number result) out.new
        ≡ write_set (is_nal form) pps.now triples.now (lent_of tables.entry) extension.now out.old }
{
    let count = pps.pps_extension_data_bits;
    let inside = (count == 0)
        | bits_inside(pps.pps_extension_data_first_bit, count, extension.len());
    if lent_fits(pps, tables) & inside {
        return write_counted(form, pps, triples, tables, extension, out);
    }
    Err(Refusal::TableTooShort)
}

// The RBSP, with its trailing bits; the answer is the number of its bytes. Extension bits are taken out of `extension`,
// from the place that the record names on.
pub fn write_pps(
    pps: &VvcPps,
    triples: &[VvcQpOffsets; 6],
    tables: LentTables<'_>,
    extension: &[u8],
    out: &mut [u8],
) -> Result<usize, Refusal>
    ensures { wrote (with_number result) out.new
        ≡ write_pps pps.now triples.now (lent_of tables.entry) extension.now out.old }
{
    write_set(Form::Rbsp, pps, triples, tables, extension, out)
}

// The NAL unit: 00 81, then the escaped RBSP.
pub fn write_pps_nal(
    pps: &VvcPps,
    triples: &[VvcQpOffsets; 6],
    tables: LentTables<'_>,
    extension: &[u8],
    out: &mut [u8],
) -> Result<usize, Refusal>
    ensures { wrote (with_number result) out.new
        ≡ write_pps_nal pps.now triples.now (lent_of tables.entry) extension.now out.old }
{
    write_set(Form::NalUnit, pps, triples, tables, extension, out)
}
