//! Pools: pages of slots, where an allocation finds the lowest free address of its pool.
#![tactic(auto)]

mod pool_page;
mod pools;

pub use pools::{PageFault, Pools};
