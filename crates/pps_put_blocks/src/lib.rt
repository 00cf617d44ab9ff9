// Writing the blocks of a picture parameter set but the partition (H.266 7.3.2.5; write_pps of the Rust's
// src/h266/pps.rs), each as its description says.
#![tactic(auto)]

pub mod chroma;
pub mod deblocking;
pub mod subpic_ids;
