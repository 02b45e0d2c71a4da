//! The space: it answers commands, each by lawful outputs.
#![tactic(auto)]

mod counts;
mod discard;
mod engine;
mod refusals;
mod space;
#[cfg(test)]
mod tests;

pub use counts::Counts;
pub use space::{Space, StepFault};
