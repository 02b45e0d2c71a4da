//! The pieces of a collection: a minor marking, a whole one or the end of a major one with its verdict, the lines that tell a verdict
//! of any kind, and sweeps of the pages that wait; and moves of a compaction with their lines.
#![tactic(auto)]

mod collection;
mod moving;
mod sweeping;

pub use collection::{Collected, collect, tell_gone};
pub use moving::{MovesMade, move_and_tell};
pub use sweeping::{sweep_all, sweep_pages, sweep_until_free};
