// Writing what stands around the partition block of a picture parameter set (the Rust's write_pps): the groups of
// fields before and behind it, and the extension bits.
#![tactic(auto)]

pub mod extension;
pub mod parts;
