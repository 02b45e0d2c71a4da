//! The counts of `stat`, of a heap.
#![tactic(auto)]

mod counts;

pub use counts::counts_of;
