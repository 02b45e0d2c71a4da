//! The top call: what the program does, from its words and bytes to its bytes and status.
#![tactic(auto)]

mod command_line;
mod end;
mod line;
mod replay;
#[cfg(test)]
mod tests;

pub use replay::run;
