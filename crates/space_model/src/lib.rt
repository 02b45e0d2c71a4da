//! What a trace means: its values, commands, replies and states, and which answers are lawful.
#![tactic(auto)]

mod command;
mod event;
mod ident;
mod laws;
mod layout;
mod ledger;
mod object;
mod phase;
mod reply;
mod stat;
mod value;

pub use command::{Command, Input, Operand};
pub use event::{Event, Kind};
pub use ident::Ident;
pub use layout::{
    MOST_FIELDS, MOST_PAGE_SLOTS, MOST_PAGES, PAGE_BYTES, PAGE_WORDS, POOLS, address_of, fields_of,
    page_slots, pool_for, slot_bytes,
};
pub use ledger::{Ledger, Steps};
pub use object::{Guard, Style};
pub use phase::Phase;
pub use reply::{Refusal, Reply};
pub use stat::Stat;
pub use value::{Value, small_of, small_word};
