//! Marking of what a major or full verdict must keep, whole or in parts.
#![tactic(auto)]

mod incremental;
mod marking;
#[cfg(test)]
mod tests;

pub use incremental::{Marked, finish, mark, start};
pub use marking::whole;
