//! The write barrier: stores into fields, and objects that it stops protecting.
#![tactic(auto)]

mod stores;
mod unprotected;

pub use stores::store;
pub use unprotected::{raw_store, unprotect};
