// The tests before the first field.
ghost use Rattle.std.specs.Prelude.{◌≡◌};
ghost use Rattle.refusal.specs.Numbers.{refused};
ghost use Rattle.pps_syntax.specs.Rbsp.{before_fields};

use refusal::Refusal;

pub fn before_fields(nal: &[u8], work_length: usize, tables_long: bool) -> Result<(), Refusal>
    ensures { refused result ≡ before_fields nal.now work_length tables_long }
{
    let header = h266::parse_nal_header(nal)?;
    if header.nal_unit_type != 16 {
        return Err(Refusal::NotPps);
    }
    if nal.len() > 65535 {
        return Err(Refusal::TooLong);
    }
    if work_length < nal.len() - 2 {
        return Err(Refusal::WorkTooShort);
    }
    if !tables_long {
        return Err(Refusal::TableTooShort);
    }
    Ok(())
}
