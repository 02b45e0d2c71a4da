//! Verdicts, and sweeps page by page.
#![tactic(auto)]

mod verdicts;

pub use space_heap::Walk;
pub use verdicts::{Dead, first_unswept, next_gone, sweep, unswept, verdict};
