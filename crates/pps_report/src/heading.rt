// The lines above the picture.
use crate::page::Line;
use crate::report::Report;
use crate::text::CoverWord;
use refusal::Refusal;
use std::fmt;
use tile_grid::Cover;

// The picture in numbers, and what the hatching says.
#[derive(Clone, Copy)]
pub struct Heading<'a>(pub &'a Report);

impl fmt::Display for Heading<'_> {
    fn fmt<W: fmt::Write>(&self, f: &mut fmt::Formatter<W>) -> fmt::Result {
        let legend = legend(self.0.cover);
        write!(f, "{}", Line(Numbers(self.0)))?;
        write!(
            f,
            "<text x='200' y='860' font-size='180' fill='#555'>{legend}</text>\n"
        )
    }
}

#[derive(Clone, Copy)]
struct Numbers<'a>(&'a Report);

impl fmt::Display for Numbers<'_> {
    fn fmt<W: fmt::Write>(&self, f: &mut fmt::Formatter<W>) -> fmt::Result {
        let report = self.0;
        write!(f, "picture {} x {}", report.width, report.height)?;
        write!(f, ", tiles {}", report.sizes.num_tile_columns)?;
        write!(f, " x {}", report.sizes.num_tile_rows)?;
        write!(f, ", slices {}", report.plan.num_slices)?;
        write!(f, ", cover {}", CoverWord(report.cover))
    }
}

fn legend(cover: Result<Option<Cover>, Refusal>) -> &'static str {
    match cover {
        Err(_) => "refused",
        Ok(None) => "dashed: tiles, numbered in the corner; no slices are coded",
        Ok(Some(Cover::Whole)) => "dashed: tiles, numbered in the corner; coloured: slices",
        Ok(Some(Cover::Gap(_))) => {
            "dashed: tiles; coloured: slices; red: in no slice; blue lines: in several slices"
        }
        Ok(Some(Cover::Double(_))) =>
            "dashed: tiles; coloured: slices; blue lines: in several slices",
    }
}
