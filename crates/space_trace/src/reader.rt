// Reads the lines of a trace.
ghost use Rattle.std.specs.Prelude.{◌≡◌, ◌↔◌, ◌∷◌, Option, IsTrue, IfOk, OnErr};
ghost use Rattle.space_model.specs.declared.command.Command.{Command as TheCommand};
ghost use Rattle.space_model.specs.Grammar.{without_cr, IsBlank, IsReading};
ghost use Rattle.space_trace.specs.WordsLeft.{words_in, ReadsWords};

use crate::collection_commands::{read_gc, read_minor, read_stat, read_sweep};
use crate::compact_commands::{read_compact, read_fix, read_move};
use crate::dump_commands::{read_dump, read_exit, read_peek};
use crate::final_commands::{read_final, read_run, read_unfinal};
use crate::id_commands::{read_by_id, read_id};
use crate::marking_commands::{read_finish, read_major, read_mark};
use crate::new_command::read_new;
use crate::object_commands::{read_raw_store, read_same, read_store, read_unprotect};
use crate::root_commands::{read_drop, read_load, read_set};
use crate::stack_commands::{read_pop, read_push, read_raw};
use crate::weak_commands::{
    read_weak_delete, read_weak_get, read_weak_key, read_weak_set, read_weak_size,
};
use crate::words::next_word;
use space_model::Command;

const CR: u8 = b'\r';

/// The line isn't in the grammar.
#[derive(Clone, Copy, Debug, PartialEq, Eq)]
pub struct Malformed;

// The line without one CR at its end.
fn drop_cr(line: &[u8]) -> &[u8]
    ensures { result.now ≡ without_cr line.now }
{
    if let Some((last, rest)) = line.split_last() {
        if *last == CR {
            return rest;
        }
    }
    line
}

// Whether the line is empty, or begins with `;`.
fn is_blank(line: &[u8]) -> bool
    ensures { IsTrue result ↔ IsBlank line.now }
{
    match line.split_first() {
        Some((first, _)) => *first == b';',
        None => true,
    }
}

// The command of a line with this first word. Each is read by the file of its theme.
fn command_of_words(name: &[u8], rest: Option<&[u8]>) -> Option<Command>
    ensures { ReadsWords (name.now ∷ words_in rest.entry) result }
{
    match name {
        _ if name == b"new".as_slice() => read_new(rest),
        _ if name == b"set".as_slice() => read_set(rest),
        _ if name == b"drop".as_slice() => read_drop(rest),
        _ if name == b"push".as_slice() => read_push(rest),
        _ if name == b"raw".as_slice() => read_raw(rest),
        _ if name == b"pop".as_slice() => read_pop(rest),
        _ if name == b"store".as_slice() => read_store(rest),
        _ if name == b"rawstore".as_slice() => read_raw_store(rest),
        _ if name == b"load".as_slice() => read_load(rest),
        _ if name == b"same".as_slice() => read_same(rest),
        _ if name == b"unprotect".as_slice() => read_unprotect(rest),
        _ if name == b"id".as_slice() => read_id(rest),
        _ if name == b"byid".as_slice() => read_by_id(rest),
        _ if name == b"wset".as_slice() => read_weak_set(rest),
        _ if name == b"wget".as_slice() => read_weak_get(rest),
        _ if name == b"wkey".as_slice() => read_weak_key(rest),
        _ if name == b"wsize".as_slice() => read_weak_size(rest),
        _ if name == b"wdel".as_slice() => read_weak_delete(rest),
        _ if name == b"final".as_slice() => read_final(rest),
        _ if name == b"unfinal".as_slice() => read_unfinal(rest),
        _ if name == b"run".as_slice() => read_run(rest),
        _ if name == b"minor".as_slice() => read_minor(rest),
        _ if name == b"gc".as_slice() => read_gc(rest),
        _ if name == b"major".as_slice() => read_major(rest),
        _ if name == b"mark".as_slice() => read_mark(rest),
        _ if name == b"finish".as_slice() => read_finish(rest),
        _ if name == b"sweep".as_slice() => read_sweep(rest),
        _ if name == b"stat".as_slice() => read_stat(rest),
        _ if name == b"dump".as_slice() => read_dump(rest),
        _ if name == b"peek".as_slice() => read_peek(rest),
        _ if name == b"exit".as_slice() => read_exit(rest),
        _ if name == b"compact".as_slice() => read_compact(rest),
        _ if name == b"move".as_slice() => read_move(rest),
        _ if name == b"fix".as_slice() => read_fix(rest),
        _ => None,
    }
}

/// The command of a line without its LF. `None` is an empty line or one that begins with `;`: it is lawful, and has no
/// command. One CR at the end of the line is dropped first.
pub fn read_command(line: &[u8]) -> Result<Option<Command>, Malformed>
    ensures found { IfOk result (λ found. IsReading line.now found) }
    ensures malformed { OnErr result ((found : Option TheCommand) → IsReading line.now found → ⊥) }
{
    let line = drop_cr(line);
    if is_blank(line) {
        return Ok(None);
    }
    let Some((name, rest)) = next_word(Some(line)) else {
        return Err(Malformed);
    };
    match command_of_words(name, rest) {
        Some(command) => Ok(Some(command)),
        None => Err(Malformed),
    }
}
