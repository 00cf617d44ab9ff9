// Draws the tiles and the numbered slices of the NAL unit on standard input, as SVG. Over 65,535 bytes are refused, so
// that no more than 65,536 need be read.
#![tactic(auto)]

fn main(rt: HostRuntime) {
    let mut nal = [0u8; pps_report::LARGEST];
    let mut input = rt.stdin();
    let count = pps_report::read_full(&mut input, &mut nal);
    pps_report::print_svg(&rt, &nal[..count]);
}
