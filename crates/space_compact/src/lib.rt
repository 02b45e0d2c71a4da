//! Compaction: objects move to the lowest free addresses of their pools, and references follow.
#![tactic(auto)]

mod fixing;
mod moving;
mod pinning;
#[cfg(test)]
mod tests;

pub use fixing::{Fixed, fix, fix_all, fix_roots};
pub use moving::{Fingers, Moved, begin_moves, move_one, packed};
pub use pinning::pin_now;
