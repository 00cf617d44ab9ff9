// CTBs in the units of the drawing. A result that would pass a u32 stays at its largest number.
use crate::report::Report;
use std::fmt;
use tile_grid::SliceRect;
use tile_sizes::in_ctbs;

// Units across the picture, whatever its width.
const WIDTH: u32 = 9600;

// The picture in CTBs, its height in units, and the width of a slice's border.
#[derive(Clone, Copy)]
pub struct Frame {
    ctbs_across: u32,
    ctbs_down: u32,
    pub height: u32,
    pub border: u32,
}

// A rectangle in units.
#[derive(Clone, Copy)]
pub struct Area {
    pub x: u32,
    pub y: u32,
    pub width: u32,
    pub height: u32,
}

// Where a place on an axis of so many CTBs lies, when the axis takes so many units.
fn scaled(place: u32, ctbs: u32, units: u32) -> u32 {
    let at = (place as u64 * units as u64).checked_div(ctbs as u64);
    u32::try_from(at.unwrap_or(0)).unwrap_or(u32::MAX)
}

impl Frame {
    // Blocks are drawn square, unless the picture would then be lower than an eighth of its width or higher than one
    // and a half of it. The more tiles or slices stand side by side, the thinner are their borders.
    pub fn new(report: &Report) -> Frame {
        let ctbs_across = in_ctbs(report.width, report.log2_ctu_size_minus5).0;
        let ctbs_down = in_ctbs(report.height, report.log2_ctu_size_minus5).0;
        let square = scaled(ctbs_down, ctbs_across, WIDTH);
        let columns = report.sizes.num_tile_columns;
        let in_a_column = report.plan.num_slices.checked_div(columns).unwrap_or(0);
        let side_by_side = columns.max(report.sizes.num_tile_rows).max(in_a_column);
        Frame {
            ctbs_across,
            ctbs_down,
            height: square.clamp(1200, 14400),
            border: 320u32.checked_div(side_by_side).unwrap_or(0).clamp(3, 30),
        }
    }

    fn across(self, x: u32) -> u32 {
        scaled(x, self.ctbs_across, WIDTH)
    }

    fn down(self, y: u32) -> u32 {
        scaled(y, self.ctbs_down, self.height)
    }

    pub fn area(self, r: SliceRect) -> Area {
        let x = self.across(r.left.0);
        let y = self.down(r.top.0);
        Area {
            x,
            y,
            width: self
                .across(r.left.0.saturating_add(r.width.0))
                .saturating_sub(x),
            height: self
                .down(r.top.0.saturating_add(r.height.0))
                .saturating_sub(y),
        }
    }
}

impl Area {
    // The same, so much smaller on each side.
    pub fn inset(self, by: u32) -> Area {
        let both = by.saturating_add(by);
        Area {
            x: self.x.saturating_add(by),
            y: self.y.saturating_add(by),
            width: self.width.saturating_sub(both),
            height: self.height.saturating_sub(both),
        }
    }
}

// An attribute of an SVG element, with a number.
#[derive(Clone, Copy)]
pub struct Attribute(pub &'static str, pub u32);

// In pieces of its own: where one can't be written, the others are (`Pieces`).
impl fmt::Display for Attribute {
    fn fmt<W: fmt::Write>(&self, f: &mut fmt::Formatter<W>) -> fmt::Result {
        write!(f, "{}{}{}{}{}", " ", self.0, "='", self.1, "'")
    }
}

// The attributes of an SVG rectangle.
impl fmt::Display for Area {
    fn fmt<W: fmt::Write>(&self, f: &mut fmt::Formatter<W>) -> fmt::Result {
        write!(f, "{}{}", Attribute("x", self.x), Attribute("y", self.y))?;
        write!(f, "{}", Attribute("width", self.width))?;
        write!(f, "{}", Attribute("height", self.height))
    }
}
