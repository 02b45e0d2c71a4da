//! The heap: objects at addresses, with their fields and the collector's marks.
#![tactic(auto)]

mod addresses;
mod colour;
mod ended_moves;
mod heap;
mod mark_stack;
mod marks;
mod moves;
mod object_words;
mod pins;
mod slot_allocation;
mod slot_notes;
mod sweeps;

pub use colour::Colour;
pub use heap::{FieldReader, Found, Heap, Made, PlaceFault, Walk};
pub use space_pools::PageFault;
