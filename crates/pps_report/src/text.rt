// A report, a cover and a refusal as text.
use crate::report::Report;
use refusal::Refusal;
use std::fmt;
use tile_grid::Cover;

// The number of a refusal.
#[derive(Clone, Copy)]
pub struct Refused(pub Refusal);

impl fmt::Display for Refused {
    fn fmt<W: fmt::Write>(&self, f: &mut fmt::Formatter<W>) -> fmt::Result {
        let number = self.0.number();
        write!(f, "refused {number}")
    }
}

// The cover's word, and the tile that it names.
#[derive(Clone, Copy)]
pub struct CoverWord(pub Result<Option<Cover>, Refusal>);

impl fmt::Display for CoverWord {
    fn fmt<W: fmt::Write>(&self, f: &mut fmt::Formatter<W>) -> fmt::Result {
        match self.0 {
            Err(refusal) => write!(f, "{}", Refused(refusal)),
            Ok(None) => write!(f, "none"),
            Ok(Some(cover)) => write!(f, "{cover}"),
        }
    }
}

// What is told of a unit: four lines, or one of its refusal.
#[derive(Clone, Copy)]
pub struct Info<'a>(pub &'a Result<Report, Refusal>);

impl fmt::Display for Info<'_> {
    fn fmt<W: fmt::Write>(&self, f: &mut fmt::Formatter<W>) -> fmt::Result {
        match self.0 {
            Ok(report) => write!(f, "{report}"),
            Err(refusal) => writeln!(f, "{}", Refused(*refusal)),
        }
    }
}

impl fmt::Display for Report {
    fn fmt<W: fmt::Write>(&self, f: &mut fmt::Formatter<W>) -> fmt::Result {
        writeln!(f, "accepted {}", self.bytes_taken)?;
        writeln!(f, "picture {} {}", self.width, self.height)?;
        writeln!(
            f,
            "tiles {} {}",
            self.sizes.num_tile_columns, self.sizes.num_tile_rows
        )?;
        writeln!(f, "cover {}", CoverWord(self.cover))
    }
}
