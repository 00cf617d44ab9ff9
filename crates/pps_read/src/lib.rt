// Reading a picture parameter set (the Rust's parse_pps).
#![tactic(auto)]

ghost use Rattle.std.specs.Prelude.{true, ◌≡◌};
ghost use Rattle.pps_syntax.specs.FromRecord.{tables_long};
ghost use Rattle.pps_syntax.specs.Rbsp.{read_rbsp};
ghost use Rattle.pps_tables.specs.LentMut.{lent_now, SameTables};
ghost use Rattle.pps_answer.specs.Answers.{said, answer_of};
ghost use Rattle.pps_answer.specs.Lending.{after_fields};
ghost use Rattle.pps_answer.specs.ParsePps.{outcome, parse_pps};

use payload::unescape_payload;
use pps_answer::AcceptedPps;
use pps_answer::before::before_fields;
use pps_tables::LentTablesMut;
use rbsp::read_rbsp;
use refusal::Refusal;

mod payload;
mod rbsp;

// Reads an RBSP into tables that are cleared before, and again where it is refused.
fn read_into_cleared(s: &[u8], tables: &mut LentTablesMut<'_>) -> Result<AcceptedPps, Refusal>
    requires { tables_long (lent_now tables.old) ≡ true }
    ensures answer { said result ≡ answer_of (read_rbsp s.now) }
    ensures tables { lent_now tables.new ≡ after_fields (read_rbsp s.now) (lent_now tables.old) }
    ensures same_tables { SameTables tables.old tables.new }
{
    tables.clear();
    match read_rbsp(s, tables) {
        Ok(read) => Ok(read),
        Err(refusal) => {
            tables.clear();
            Err(refusal)
        }
    }
}

// Reads a NAL unit with a picture parameter set. The work buffer takes the RBSP; the tables take the lists, in use from
// the front, then zeros.
pub fn parse_pps(
    nal: &[u8],
    work: &mut [u8],
    tables: &mut LentTablesMut<'_>,
) -> Result<AcceptedPps, Refusal>
    ensures outcome { outcome (said result) work.new (lent_now tables.new)
        ≡ parse_pps nal.now work.old (lent_now tables.old) }
    ensures same_tables { SameTables tables.old tables.new }
{
    before_fields(nal, work.len(), tables.are_long())?;
    let count = unescape_payload(nal, work);
    read_into_cleared(&work[..count], tables)
}
