//! Finalizers: labels that are given to an object, wait in a queue once the object is swept, and run once each.
#![tactic(auto)]

mod finals;

pub use finals::{Finals, Ran};
