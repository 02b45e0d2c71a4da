//! Object ids: numbers that are given to objects when first asked for, and that no collection or move changes.
#![tactic(auto)]

mod ids;

pub use ids::{Found, Ids};
