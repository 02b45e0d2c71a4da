//! Weak maps: entries from objects to objects that keep neither of them, and that vanish with either.
#![tactic(auto)]

mod weak;

pub use weak::WeakMaps;
