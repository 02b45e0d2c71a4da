//! Minor markings.
#![tactic(auto)]

mod marking;

pub use marking::minor;
