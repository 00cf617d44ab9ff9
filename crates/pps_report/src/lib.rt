// What the programs say of a NAL unit with a picture parameter set. Each function tells the number of the unit's
// refusal, or 0; what is printed beside it no contract says.
#![tactic(auto)]

ghost use Rattle.std.specs.Prelude.{◌≡◌};
ghost use Rattle.pps_report.specs.Told.{refusal_told};
ghost use Rattle.refusal.specs.Numbers.{refused};

mod drawing;
mod heading;
mod input;
mod marks;
mod page;
mod pieces;
mod report;
mod scale;
mod slices;
mod text;
mod tiles;

use drawing::Drawing;
pub use input::{LARGEST, read_full};
use pieces::Pieces;
use refusal::Refusal;
use report::{Report, report_of};
use std::fmt::Write;
use text::Info;

// The number of a refusal, 0 where there is none.
#[tactic(auto, unfolding(refusal::specs::Numbers::refused))]
fn told(report: &Result<Report, Refusal>) -> u8
    ensures { result ≡ refused report.now }
{
    report.as_ref().err().map_or(0, |refusal| refusal.number())
}

// Prints of a unit: bytes taken, size, tiles and cover, or the number of its refusal.
pub fn print_info(rt: &impl Print, nal: &[u8]) -> u8
    ensures { result ≡ refusal_told nal.now }
{
    let report = report_of(nal);
    let _ = Pieces(rt).write(Info(&report));
    told(&report)
}

// Prints a drawing of a unit's tiles and its numbered slices.
pub fn print_svg(rt: &impl Print, nal: &[u8]) -> u8
    ensures { result ≡ refusal_told nal.now }
{
    let report = report_of(nal);
    let _ = Pieces(rt).write(Drawing(&report));
    told(&report)
}
