//! What the program holds on to: roots, which are words under names, and the stack of words.
#![tactic(auto)]

mod roots;
mod stack;

pub use roots::Roots;
pub use stack::Stack;
