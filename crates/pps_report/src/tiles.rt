// The tiles: borders, numbers, and whether they lie in no slice or in several.
use crate::marks::Number;
use crate::report::Report;
use crate::scale::{Attribute, Frame};
use crate::slices::holds;
use slice_loop::CtbCount;
use std::fmt;
use tile_grid::SliceRect;

#[derive(Clone, Copy)]
struct Tile<'a> {
    number: usize,
    rect: SliceRect,
    slices: &'a [SliceRect],
    frame: Frame,
}

impl Tile<'_> {
    // What marks a tile in no slice or in several, up to the end of its rectangle. A slice holds a tile whole or is cut from it with others that hold
    // the rest, so that as many slices hold the first block as any other.
    fn hatching(&self) -> Option<&'static str> {
        if self.slices.is_empty() {
            return None;
        }
        match self
            .slices
            .iter()
            .filter(|s| holds(s, self.rect.left, self.rect.top))
            .take(2)
            .count()
        {
            0 => Some(" fill='url(#gap)'/>\n"),
            1 => None,
            _ => Some(" fill='url(#double)'/>\n"),
        }
    }
}

impl fmt::Display for Tile<'_> {
    fn fmt<W: fmt::Write>(&self, f: &mut fmt::Formatter<W>) -> fmt::Result {
        let area = self.frame.area(self.rect);
        let stroke = Attribute("stroke-width", self.frame.border / 3);
        if let Some(hatching) = self.hatching() {
            write!(f, "<rect{area}{hatching}")?;
        }
        write!(
            f,
            "<rect{area} fill='none' stroke='#000'{stroke} stroke-dasharray='60 40'/>\n"
        )?;
        write!(f, "{}", Number::in_the_corner(self.number, area))
    }
}

#[derive(Clone, Copy)]
pub struct Tiles<'a> {
    pub report: &'a Report,
    pub frame: Frame,
}

impl fmt::Display for Tiles<'_> {
    fn fmt<W: fmt::Write>(&self, f: &mut fmt::Formatter<W>) -> fmt::Result {
        let column_widths = self.report.sizes.column_widths();
        let mut number = 0usize;
        let mut top = 0u32;
        for &height in self.report.sizes.row_heights() {
            let mut left = 0u32;
            for &width in column_widths {
                let tile = Tile {
                    number,
                    rect: SliceRect {
                        left: CtbCount(left),
                        top: CtbCount(top),
                        width: CtbCount(width),
                        height: CtbCount(height),
                    },
                    slices: self.report.slices(),
                    frame: self.frame,
                };
                write!(f, "{tile}")?;
                number = number.saturating_add(1);
                left = left.saturating_add(width);
            }
            top = top.saturating_add(height);
        }
        Ok(())
    }
}
