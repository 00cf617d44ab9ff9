// The slices, and whether they hold a block.
use crate::marks::Number;
use crate::scale::{Attribute, Frame};
use slice_loop::CtbCount;
use std::fmt;
use tile_grid::SliceRect;

// The slice holds the block at x, y.
pub fn holds(slice: &SliceRect, x: CtbCount, y: CtbCount) -> bool {
    within(slice.left, slice.width, x) && within(slice.top, slice.height, y)
}

fn within(first: CtbCount, count: CtbCount, x: CtbCount) -> bool {
    x.0 >= first.0 && x.0 - first.0 < count.0
}

// Each in a colour of its own, neighbours in the order far apart.
#[derive(Clone, Copy)]
pub struct Slices<'a> {
    pub slices: &'a [SliceRect],
    pub frame: Frame,
}

impl fmt::Display for Slices<'_> {
    fn fmt<W: fmt::Write>(&self, f: &mut fmt::Formatter<W>) -> fmt::Result {
        let border = self.frame.border;
        for (i, &slice) in self.slices.iter().enumerate() {
            let area = self.frame.area(slice).inset(border / 2);
            let hue = i % 360 * 137 % 360;
            let stroke = Attribute("stroke-width", border);
            write!(
                f,
                "<rect{area} fill='hsl({hue},70%,75%)' fill-opacity='.6' stroke='#222'{stroke}/>\n"
            )?;
        }
        Ok(())
    }
}

// Their numbers, which stand above the tiles.
#[derive(Clone, Copy)]
pub struct SliceNumbers<'a> {
    pub slices: &'a [SliceRect],
    pub frame: Frame,
}

impl fmt::Display for SliceNumbers<'_> {
    fn fmt<W: fmt::Write>(&self, f: &mut fmt::Formatter<W>) -> fmt::Result {
        for (i, &slice) in self.slices.iter().enumerate() {
            write!(f, "{}", Number::in_the_middle(i, self.frame.area(slice)))?;
        }
        Ok(())
    }
}
