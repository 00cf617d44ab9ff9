// The page around what is drawn.
use crate::scale::Attribute;
use std::fmt;

// So many units are for a picture, below 1,300 for the lines above it.
#[derive(Clone, Copy)]
pub struct Page<T> {
    pub height: u32,
    pub content: T,
}

// A line in large letters.
#[derive(Clone, Copy)]
pub struct Line<T>(pub T);

impl<T> Page<Line<T>> {
    pub fn of_line(text: T) -> Page<Line<T>> {
        Page {
            height: 0,
            content: Line(text),
        }
    }
}

// Both kinds of hatching, and a white ground.
const GROUND: [&str; 5] = [
    "<pattern id='gap' width='80' height='80' patternUnits='userSpaceOnUse' patternTransform='rotate(45)'>",
    "<rect width='80' height='80' fill='#fdd'/><rect width='30' height='80' fill='#d00'/></pattern>\n",
    "<pattern id='double' width='80' height='80' patternUnits='userSpaceOnUse' patternTransform='rotate(-45)'>",
    "<rect width='15' height='80' fill='#00c'/></pattern>\n",
    "</defs>\n<rect width='100%' height='100%' fill='#fff'/>\n",
];

impl<T: fmt::Display> fmt::Display for Page<T> {
    fn fmt<W: fmt::Write>(&self, f: &mut fmt::Formatter<W>) -> fmt::Result {
        let all = self.height.saturating_add(1300);
        let height = Attribute("height", all / 10);
        write!(
            f,
            "<svg xmlns='http://www.w3.org/2000/svg' viewBox='0 0 10000 {all}' \
            width='1000'{height} font-family='sans-serif'>\n<defs>\n"
        )?;
        for part in GROUND {
            write!(f, "{part}")?;
        }
        write!(f, "{}", self.content)?;
        write!(f, "</svg>\n")
    }
}

impl<T: fmt::Display> fmt::Display for Line<T> {
    fn fmt<W: fmt::Write>(&self, f: &mut fmt::Formatter<W>) -> fmt::Result {
        write!(
            f,
            "<text x='200' y='500' font-size='230'>{}</text>\n",
            self.0
        )
    }
}
