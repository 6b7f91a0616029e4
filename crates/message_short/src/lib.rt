//! Reports that tell little, which are most of those that agents send, recognised at a glance.
#![tactic(auto)]

mod decoding;
mod numbers;
mod reading;

pub use decoding::decode_report;
pub use reading::{ShortReport, short_report};
