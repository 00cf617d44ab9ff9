// A report as SVG: its tiles and its numbered slices, or a line that says why there are none.
use crate::heading::Heading;
use crate::page::{Line, Page};
use crate::report::Report;
use crate::scale::Frame;
use crate::slices::{SliceNumbers, Slices};
use crate::text::Refused;
use crate::tiles::Tiles;
use refusal::Refusal;
use std::fmt;

#[derive(Clone, Copy)]
pub struct Drawing<'a>(pub &'a Result<Report, Refusal>);

impl fmt::Display for Drawing<'_> {
    fn fmt<W: fmt::Write>(&self, f: &mut fmt::Formatter<W>) -> fmt::Result {
        match self.0 {
            Err(refusal) => write!(f, "{}", Page::of_line(Refused(*refusal))),
            Ok(report) if report.sizes.num_tile_columns == 0 => {
                write!(f, "{}", Page::of_line(Unpartitioned(report)))
            }
            Ok(report) => write!(f, "{}", Page::of_picture(report)),
        }
    }
}

#[derive(Clone, Copy)]
struct Unpartitioned<'a>(&'a Report);

impl fmt::Display for Unpartitioned<'_> {
    fn fmt<W: fmt::Write>(&self, f: &mut fmt::Formatter<W>) -> fmt::Result {
        let report = self.0;
        write!(
            f,
            "picture {} x {}, not partitioned into tiles",
            report.width, report.height
        )
    }
}

// The picture stands in an area of its own, 9,600 units wide.
#[derive(Clone, Copy)]
struct Picture<'a> {
    report: &'a Report,
    frame: Frame,
}

impl Page<Picture<'_>> {
    fn of_picture(report: &Report) -> Page<Picture<'_>> {
        let frame = Frame::new(report);
        Page {
            height: frame.height,
            content: Picture { report, frame },
        }
    }
}

impl fmt::Display for Picture<'_> {
    fn fmt<W: fmt::Write>(&self, f: &mut fmt::Formatter<W>) -> fmt::Result {
        let report = self.report;
        let frame = self.frame;
        let slices = report.slices();
        write!(f, "{}", Heading(report))?;
        write!(f, "<g transform='translate(200 1100)'>\n")?;
        write!(f, "{}", Slices { slices, frame })?;
        write!(f, "{}", Tiles { report, frame })?;
        write!(f, "{}", SliceNumbers { slices, frame })?;
        write!(f, "</g>\n")
    }
}
