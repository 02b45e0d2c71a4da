//! What `dump` and `peek` show of an object: the line of a dump, as JSON, and the stored words.
#![tactic(auto)]

mod hex_text;
mod line;
mod lines;

pub use lines::{dump_line, peek_words};
