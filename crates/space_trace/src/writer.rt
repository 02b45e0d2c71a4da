// Writes the lines of a trace. Each goes to the sink as one piece.
ghost use Rattle.std.specs.Prelude.{◌≡◌, ◌≤◌, ◌<◌, ◌+◌, [], ◌∷◌, ◌++◌, length, false, OnOk, OnErr};
ghost use Rattle.arrayvec.specs.ArrayVec.{array_vec_len};
ghost use Rattle.std.specs.Io.KnownBytes.{Appends};
ghost use Rattle.space_io.specs.Causes.{HasCause};
ghost use Rattle.space_io.specs.Sinks.{AppendsPrefix, AppendsPart};
ghost use Rattle.space_model.specs.CommandTexts.{command_pieces};
ghost use Rattle.space_model.specs.Spelling.{text_of_pieces, IsSpelled};
ghost use Rattle.space_model.specs.Texts.{kind_text, event_pieces, value_pieces, refusal_text, truth_text, named_pieces, done_text, reply_pieces, peek_pieces, malformed_pieces, line_of_pieces};
ghost use Rattle.space_model.specs.Layout.{most_fields};
ghost use Rattle.space_trace.specs.StatReplies.{is_stat};

use crate::collection_commands::{put_gc, put_minor, put_stat_command, put_sweep};
use crate::compact_commands::{put_compact, put_fix, put_move};
use crate::dump_commands::{put_dump, put_exit, put_peek_command};
use crate::final_commands::{put_final, put_run, put_unfinal};
use crate::id_commands::{put_by_id, put_id};
use crate::line_buffer::LineBuffer;
use crate::line_end::LineEnd;
use crate::marking_commands::{put_finish, put_major, put_mark};
use crate::new_command::put_new;
use crate::object_commands::{put_raw_store, put_same, put_store, put_unprotect};
use crate::peek_line::{PeekBuffer, put_peek};
use crate::root_commands::{put_drop, put_load, put_set};
use crate::stack_commands::{put_pop, put_push, put_raw};
use crate::stat_line::{StatBuffer, put_stat};
use crate::weak_commands::{
    put_weak_delete, put_weak_get, put_weak_key, put_weak_set, put_weak_size,
};
use arrayvec::ArrayVec;
use space_io::{Sink, WriteFault, write_all};
use space_model::{Command, Event, Kind, Refusal, Reply, Stat, Value};

const LF: u8 = b'\n';

// Puts the command's line into an empty one. Each is put by the file of its theme.
fn put_command(line: &mut LineBuffer, command: Command)
    requires { line.old.items ≡ [] }
    ensures items { line.new.items ≡ text_of_pieces (command_pieces command) }
    ensures len { array_vec_len line.new < 128 }
    ensures spelled { IsSpelled (command_pieces command) }
{
    match command {
        Command::New {
            root,
            fields,
            guard,
            style,
        } => put_new(line, root, fields, guard, style),
        Command::Set { root, value } => put_set(line, root, value),
        Command::DropRoot { root } => put_drop(line, root),
        Command::Push { value } => put_push(line, value),
        Command::Raw { word } => put_raw(line, word),
        Command::Pop => put_pop(line),
        Command::Store {
            object,
            index,
            value,
        } => put_store(line, object, index, value),
        Command::RawStore {
            object,
            index,
            value,
        } => put_raw_store(line, object, index, value),
        Command::Load {
            root,
            object,
            index,
        } => put_load(line, root, object, index),
        Command::Same { left, right } => put_same(line, left, right),
        Command::Unprotect { object } => put_unprotect(line, object),
        Command::Id { object } => put_id(line, object),
        Command::ById { root, id } => put_by_id(line, root, id),
        Command::WeakSet { weak, key, value } => put_weak_set(line, weak, key, value),
        Command::WeakGet { root, weak, key } => put_weak_get(line, root, weak, key),
        Command::WeakKey { weak, key } => put_weak_key(line, weak, key),
        Command::WeakSize { weak } => put_weak_size(line, weak),
        Command::WeakDelete { weak, key } => put_weak_delete(line, weak, key),
        Command::Final { object, label } => put_final(line, object, label),
        Command::Unfinal { object } => put_unfinal(line, object),
        Command::Run { count } => put_run(line, count),
        Command::Minor => put_minor(line),
        Command::Gc => put_gc(line),
        Command::Major => put_major(line),
        Command::Mark { count } => put_mark(line, count),
        Command::Finish => put_finish(line),
        Command::Sweep { count } => put_sweep(line, count),
        Command::Compact => put_compact(line),
        Command::Move { count } => put_move(line, count),
        Command::Fix { count } => put_fix(line, count),
        Command::Stat => put_stat_command(line),
        Command::Dump => put_dump(line),
        Command::Peek { object } => put_peek_command(line, object),
        Command::Exit => put_exit(line),
    }
}

// Writes the line of a command, of the counts or of stored words, and its LF, as one piece.
fn write_line<K: Sink, const N: usize>(
    line: &mut ArrayVec<u8, N>,
    sink: &mut K,
) -> Result<(), WriteFault>
    requires { array_vec_len line.old < N }
    ensures bytes { OnOk result (Appends (K.written sink.old) (K.written sink.new) (line.old.items ++ 10 ∷ [])) }
    ensures prefix { AppendsPrefix (K.written sink.old) (K.written sink.new) (line.old.items ++ 10 ∷ []) }
    ensures part { OnErr result (AppendsPart (K.written sink.old) (K.written sink.new) (line.old.items ++ 10 ∷ [])) }
    ensures cause { HasCause (K.faults sink.old) (K.faults sink.new) result }
{
    line.push(LF);
    write_all(sink, line.as_slice())
}

/// Writes the line of the command. At an `Err` only a prefix of it was written, maybe none.
///
/// A command that no line spells is written too; no clause says how its line is read.
pub fn write_command<K: Sink>(command: &Command, sink: &mut K) -> Result<(), WriteFault>
    ensures bytes { OnOk result (Appends (K.written sink.old) (K.written sink.new) (line_of_pieces (command_pieces command.now))) }
    ensures prefix { AppendsPrefix (K.written sink.old) (K.written sink.new) (line_of_pieces (command_pieces command.now)) }
    ensures part { OnErr result (AppendsPart (K.written sink.old) (K.written sink.new) (line_of_pieces (command_pieces command.now))) }
    ensures cause { HasCause (K.faults sink.old) (K.faults sink.new) result }
    ensures spelled { IsSpelled (command_pieces command.now) }
{
    let mut line = LineBuffer::new();
    put_command(&mut line, *command);
    write_line(&mut line, sink)
}

// The end of each line of output: its LF.
fn line_end() -> LineEnd
    ensures { result ≡ 10 ∷ [] }
{
    let mut line = LineEnd::new();
    line.put(b"\n");
    line
}

fn kind_bytes(kind: Kind) -> &'static [u8]
    ensures text { result.now ≡ kind_text kind }
    ensures len { length result.now ≤ 5 }
{
    match kind {
        Kind::Minor => b"minor",
        Kind::Major => b"major",
        Kind::Full => b"full",
    }
}

// Puts the event's line before its LF.
fn put_event(line: &mut LineEnd, event: &Event)
    requires { line.old ≡ 10 ∷ [] }
    ensures line { line.new ≡ line_of_pieces (event_pieces event.now) }
    ensures spelled { IsSpelled (event_pieces event.now) }
{
    match event {
        Event::Gone { name } => {
            line.put_decimal(*name);
            line.put(b"! gone #");
        }
        Event::Verdict { kind, gone } => {
            line.put_decimal(*gone);
            line.put(b" ");
            line.put(kind_bytes(*kind));
            line.put(b"! verdict ");
        }
        Event::Moved { name, from, to } => {
            line.put_hex(*to);
            line.put(b" ");
            line.put_hex(*from);
            line.put(b" ");
            line.put_decimal(*name);
            line.put(b"! move #");
        }
        Event::Ran { name, label } => {
            line.put(label.bytes());
            line.put(b" ");
            line.put_decimal(*name);
            line.put(b"! final #");
        }
    }
}

// Puts the value before the end of a line, which has 20 bytes at most.
fn put_value(line: &mut LineEnd, value: Value)
    requires { length line.old ≤ 20 }
    ensures line { line.new ≡ text_of_pieces (value_pieces value) ++ line.old }
    ensures spelled { IsSpelled (value_pieces value) }
{
    match value {
        Value::Nil => line.put(b"nil"),
        Value::Small(number) => {
            line.put_decimal(number);
            line.put(b"=");
        }
        Value::Name(name) => {
            line.put_decimal(name);
            line.put(b"#");
        }
    }
}

fn refusal_bytes(why: Refusal) -> &'static [u8]
    ensures text { result.now ≡ refusal_text why }
    ensures len { length result.now ≤ 40 }
{
    match why {
        Refusal::TooLarge => b"error too large",
        Refusal::NoRoot => b"error no root",
        Refusal::NoWord => b"error no word",
        Refusal::NotObject => b"error not an object",
        Refusal::NoField => b"error no field",
        Refusal::Protected => b"error protected",
        Refusal::NoId => b"error no id",
        Refusal::NotMarking => b"error not marking",
        Refusal::NotCompacting => b"error not compacting",
    }
}

// Puts the name that a word has, or that it has none, before the end of a line, which has one byte at most.
fn put_named(line: &mut LineEnd, names: Option<u64>)
    requires { length line.old ≤ 1 }
    ensures line { line.new ≡ text_of_pieces (named_pieces names) ++ line.old }
    ensures len { length line.new ≤ 22 }
    ensures spelled { IsSpelled (named_pieces names) }
{
    match names {
        None => line.put(b"-"),
        Some(name) => {
            line.put_decimal(name);
            line.put(b"#");
        }
    }
}

fn truth_bytes(truth: bool) -> &'static [u8]
    ensures text { result.now ≡ truth_text truth }
    ensures len { length result.now ≤ 5 }
{
    if truth { b"true" } else { b"false" }
}

fn done_bytes(done: bool) -> &'static [u8]
    ensures text { result.now ≡ done_text done }
    ensures len { length result.now ≤ 5 }
{
    if done { b" done" } else { b"" }
}

// Puts the reply's line before its LF, its last piece first. That of the counts has a buffer of its own.
fn put_reply(line: &mut LineEnd, reply: &Reply)
    requires empty { line.old ≡ 10 ∷ [] }
    requires short { is_stat reply.now ≡ false }
    ensures line { line.new ≡ line_of_pieces (reply_pieces reply.now) }
    ensures spelled { IsSpelled (reply_pieces reply.now) }
{
    match reply {
        Reply::Made { name, address } => {
            line.put_hex(*address);
            line.put(b" ");
            line.put_decimal(*name);
            line.put(b"#");
        }
        Reply::Full => line.put(b"full"),
        Reply::NoMemory => line.put(b"no memory"),
        Reply::Done => line.put(b"ok"),
        Reply::Pushed { word, names } => {
            put_named(line, *names);
            line.put(b" names ");
            line.put_hex(*word);
            line.put(b"word ");
        }
        Reply::Read { value } => put_value(line, *value),
        Reply::Truth { yes } => line.put(truth_bytes(*yes)),
        Reply::Number { number } => line.put_decimal(*number),
        Reply::GoneId => line.put(b"gone"),
        Reply::Removed { count } => {
            line.put_decimal(*count);
            line.put(b"removed ");
        }
        Reply::RanCount { count } => {
            line.put_decimal(*count);
            line.put(b"ran ");
        }
        Reply::Scanned { count } => {
            line.put_decimal(*count);
            line.put(b"ok scanned ");
        }
        Reply::Marked { scanned, grey } => {
            line.put_decimal(*grey);
            line.put(b" grey ");
            line.put_decimal(*scanned);
            line.put(b"scanned ");
        }
        Reply::SweepCount { freed, left } => {
            line.put_decimal(u64::from(*left));
            line.put(b" left ");
            line.put_decimal(*freed);
            line.put(b"freed ");
        }
        Reply::MoveCount { moved, done } => {
            line.put(done_bytes(*done));
            line.put_decimal(*moved);
            line.put(b"moved ");
        }
        Reply::FixCount { fixed, done } => {
            line.put(done_bytes(*done));
            line.put_decimal(*fixed);
            line.put(b"fixed ");
        }
        Reply::StatLine { .. } => unreachable!(),
        Reply::Dumped { count } => {
            line.put_decimal(*count);
            line.put(b"ok dumped ");
        }
        Reply::ExitRan { count } => {
            line.put_decimal(*count);
            line.put(b"ok ran ");
        }
        Reply::Refused { why } => line.put(refusal_bytes(*why)),
    }
}

// Puts the line that tells of a malformed or too long one before its LF.
fn put_malformed(line: &mut LineEnd, number: u64)
    requires { line.old ≡ 10 ∷ [] }
    ensures { line.new ≡ line_of_pieces (malformed_pieces number) }
{
    line.put(b": malformed");
    line.put_decimal(number);
    line.put(b"line ");
}

/// Writes the line of the event. At an `Err` only a prefix of it was written, maybe none.
#[inline(always)]
pub fn write_event<K: Sink>(event: &Event, sink: &mut K) -> Result<(), WriteFault>
    ensures bytes { OnOk result (Appends (K.written sink.old) (K.written sink.new) (line_of_pieces (event_pieces event.now))) }
    ensures prefix { AppendsPrefix (K.written sink.old) (K.written sink.new) (line_of_pieces (event_pieces event.now)) }
    ensures part { OnErr result (AppendsPart (K.written sink.old) (K.written sink.new) (line_of_pieces (event_pieces event.now))) }
    ensures cause { HasCause (K.faults sink.old) (K.faults sink.new) result }
    ensures spelled { IsSpelled (event_pieces event.now) }
{
    let mut line = line_end();
    put_event(&mut line, event);
    write_all(sink, line.bytes())
}

// Writes the line of the counts.
fn write_stat<K: Sink>(stat: &Stat, sink: &mut K) -> Result<(), WriteFault>
    ensures bytes { OnOk result (Appends (K.written sink.old) (K.written sink.new) (line_of_pieces (reply_pieces (Reply.StatLine stat.now)))) }
    ensures prefix { AppendsPrefix (K.written sink.old) (K.written sink.new) (line_of_pieces (reply_pieces (Reply.StatLine stat.now))) }
    ensures part { OnErr result (AppendsPart (K.written sink.old) (K.written sink.new) (line_of_pieces (reply_pieces (Reply.StatLine stat.now)))) }
    ensures cause { HasCause (K.faults sink.old) (K.faults sink.new) result }
    ensures spelled { IsSpelled (reply_pieces (Reply.StatLine stat.now)) }
{
    let mut line = StatBuffer::new();
    put_stat(&mut line, stat);
    write_line(&mut line, sink)
}

// Writes the line of a reply that doesn't tell the counts.
fn write_short<K: Sink>(reply: &Reply, sink: &mut K) -> Result<(), WriteFault>
    requires { is_stat reply.now ≡ false }
    ensures bytes { OnOk result (Appends (K.written sink.old) (K.written sink.new) (line_of_pieces (reply_pieces reply.now))) }
    ensures prefix { AppendsPrefix (K.written sink.old) (K.written sink.new) (line_of_pieces (reply_pieces reply.now)) }
    ensures part { OnErr result (AppendsPart (K.written sink.old) (K.written sink.new) (line_of_pieces (reply_pieces reply.now))) }
    ensures cause { HasCause (K.faults sink.old) (K.faults sink.new) result }
    ensures spelled { IsSpelled (reply_pieces reply.now) }
{
    let mut line = line_end();
    put_reply(&mut line, reply);
    write_all(sink, line.bytes())
}

/// Writes the line of the reply. At an `Err` only a prefix of it was written, maybe none.
pub fn write_reply<K: Sink>(reply: &Reply, sink: &mut K) -> Result<(), WriteFault>
    ensures bytes { OnOk result (Appends (K.written sink.old) (K.written sink.new) (line_of_pieces (reply_pieces reply.now))) }
    ensures prefix { AppendsPrefix (K.written sink.old) (K.written sink.new) (line_of_pieces (reply_pieces reply.now)) }
    ensures part { OnErr result (AppendsPart (K.written sink.old) (K.written sink.new) (line_of_pieces (reply_pieces reply.now))) }
    ensures cause { HasCause (K.faults sink.old) (K.faults sink.new) result }
    ensures spelled { IsSpelled (reply_pieces reply.now) }
{
    match reply {
        Reply::StatLine { stat } => write_stat(stat, sink),
        _ => write_short(reply, sink),
    }
}

/// Writes the line of an object that stands at the address, with its stored words. At an `Err` only a prefix of it was written, maybe
/// none.
pub fn write_peek<K: Sink>(address: u64, words: &[u64], sink: &mut K) -> Result<(), WriteFault>
    requires { length words.now ≤ most_fields }
    ensures bytes { OnOk result (Appends (K.written sink.old) (K.written sink.new) (line_of_pieces (peek_pieces address words.now))) }
    ensures prefix { AppendsPrefix (K.written sink.old) (K.written sink.new) (line_of_pieces (peek_pieces address words.now)) }
    ensures part { OnErr result (AppendsPart (K.written sink.old) (K.written sink.new) (line_of_pieces (peek_pieces address words.now))) }
    ensures cause { HasCause (K.faults sink.old) (K.faults sink.new) result }
{
    let mut line = PeekBuffer::new();
    put_peek(&mut line, address, words);
    write_line(&mut line, sink)
}

/// Writes that the line with this number is malformed or too long. At an `Err` only a prefix of it was written, maybe none.
pub fn write_malformed<K: Sink>(number: u64, sink: &mut K) -> Result<(), WriteFault>
    ensures bytes { OnOk result (Appends (K.written sink.old) (K.written sink.new) (line_of_pieces (malformed_pieces number))) }
    ensures prefix { AppendsPrefix (K.written sink.old) (K.written sink.new) (line_of_pieces (malformed_pieces number)) }
    ensures part { OnErr result (AppendsPart (K.written sink.old) (K.written sink.new) (line_of_pieces (malformed_pieces number))) }
    ensures cause { HasCause (K.faults sink.old) (K.faults sink.new) result }
{
    let mut line = line_end();
    put_malformed(&mut line, number);
    write_all(sink, line.bytes())
}
