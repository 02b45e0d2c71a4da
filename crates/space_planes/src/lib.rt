//! Planes: one bit for each slot of a page.
#![tactic(auto)]

mod formulas;
mod plane;

pub use plane::{MOST_BITS, Plane};
