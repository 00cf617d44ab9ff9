// Numbers in the drawing.
use crate::scale::{Area, Attribute};
use std::fmt;

// With a white edge, so that it can be read on any colour.
#[derive(Clone, Copy)]
pub struct Number {
    n: usize,
    x: u32,
    y: u32,
    size: u32,
    style: &'static str,
}

impl Number {
    // In the middle of a rectangle, as large as fits but not too large.
    pub fn in_the_middle(n: usize, a: Area) -> Number {
        let size = (a.width / 3).min(a.height / 4 * 3).min(600);
        Number {
            n,
            x: a.x.saturating_add(a.width / 2),
            y: a.y.saturating_add(a.height / 2).saturating_add(size / 3),
            size,
            style: " text-anchor='middle' stroke='#fff' paint-order='stroke'>",
        }
    }

    // A small one in the lower right corner.
    pub fn in_the_corner(n: usize, a: Area) -> Number {
        let size = (a.width / 5).min(a.height / 4).min(180);
        Number {
            n,
            x: a.x.saturating_add(a.width).saturating_sub(size / 2),
            y: a.y.saturating_add(a.height).saturating_sub(size / 2),
            size,
            style: " text-anchor='end' fill='#444' stroke='#fff' paint-order='stroke'>",
        }
    }
}

impl fmt::Display for Number {
    fn fmt<W: fmt::Write>(&self, f: &mut fmt::Formatter<W>) -> fmt::Result {
        let Number {
            n,
            x,
            y,
            size,
            style,
        } = *self;
        write!(f, "<text{}{}", Attribute("x", x), Attribute("y", y))?;
        write!(f, "{}", Attribute("font-size", size))?;
        write!(f, "{}", Attribute("stroke-width", size / 6))?;
        write!(f, "{style}{n}</text>\n")
    }
}
