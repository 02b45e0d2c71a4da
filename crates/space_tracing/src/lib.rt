//! Tracing: visits of words, scans of objects, so many of them or until nothing is grey.
#![tactic(auto)]

mod tracing;

pub use tracing::{drain, scan, scan_again, scan_some, visit_all, visit_roots};
