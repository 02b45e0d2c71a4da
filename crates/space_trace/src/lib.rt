//! The lines of a trace: commands are read and written, and events and replies are written.
//! The trace language is this project's own.
#![tactic(auto)]

mod collection_commands;
mod compact_commands;
mod dump_commands;
mod final_commands;
mod id_commands;
mod laws;
mod line_buffer;
mod line_end;
mod marking_commands;
mod new_command;
mod object_commands;
mod operands;
mod peek_line;
mod reader;
mod root_commands;
mod stack_commands;
mod stat_line;
#[cfg(test)]
mod tests;
mod weak_commands;
mod words;
mod writer;

pub use laws::{readings_are_one, spellings_are_read};
pub use reader::{Malformed, read_command};
pub use words::read_number;
pub use writer::{write_command, write_event, write_malformed, write_peek, write_reply};
