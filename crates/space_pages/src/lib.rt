//! Pages: the words of one page, and the slots that they make up.
#![tactic(auto)]

mod page;

pub use page::{PAGE_WORDS, SlotPage};
