// The lines of the commands on objects that write no root.
ghost use Rattle.std.specs.Prelude.{◌≡◌, ◌<◌, ◌∷◌, [], codes};
ghost use Rattle.arrayvec.specs.ArrayVec.{array_vec_len};
ghost use Rattle.space_model.specs.CommandTexts.{command_pieces};
ghost use Rattle.space_model.specs.Spelling.{text_of_pieces, IsSpelled};
ghost use Rattle.space_trace.specs.WordsLeft.{words_in, ReadsWords};

use crate::line_buffer::{LineBuffer, put, put_decimal};
use crate::operands::{put_input, put_operand, read_input, read_operand};
use crate::words::{one_word, read_number, three_words, two_words};
use space_model::{Command, Input, Operand};

/// The command of the words after `store`.
pub fn read_store(rest: Option<&[u8]>) -> Option<Command>
    ensures { ReadsWords (codes "store" ∷ words_in rest.entry) result }
{
    let (object, index, value) = three_words(rest)?;
    let object = read_operand(object)?;
    let index = read_number(index)?;
    let value = read_input(value)?;
    Some(Command::Store {
        object,
        index,
        value,
    })
}

#[tactic(auto, using(crate::proofs::PieceLemmas::text_of_pieces_append, crate::proofs::PieceLemmas::spelled_append))]
/// Puts the line of `store` into an empty one.
pub fn put_store(line: &mut LineBuffer, object: Operand, index: u64, value: Input)
    requires { line.old.items ≡ [] }
    ensures items { line.new.items ≡ text_of_pieces (command_pieces (Command.Store object index value)) }
    ensures len { array_vec_len line.new < 128 }
    ensures spelled { IsSpelled (command_pieces (Command.Store object index value)) }
{
    put(line, b"store ");
    put_operand(line, object);
    put(line, b" ");
    put_decimal(line, index);
    put(line, b" ");
    put_input(line, value);
}

/// The command of the words after `rawstore`.
pub fn read_raw_store(rest: Option<&[u8]>) -> Option<Command>
    ensures { ReadsWords (codes "rawstore" ∷ words_in rest.entry) result }
{
    let (object, index, value) = three_words(rest)?;
    let object = read_operand(object)?;
    let index = read_number(index)?;
    let value = read_input(value)?;
    Some(Command::RawStore {
        object,
        index,
        value,
    })
}

#[tactic(auto, using(crate::proofs::PieceLemmas::text_of_pieces_append, crate::proofs::PieceLemmas::spelled_append))]
/// Puts the line of `rawstore` into an empty one.
pub fn put_raw_store(line: &mut LineBuffer, object: Operand, index: u64, value: Input)
    requires { line.old.items ≡ [] }
    ensures items { line.new.items ≡ text_of_pieces (command_pieces (Command.RawStore object index value)) }
    ensures len { array_vec_len line.new < 128 }
    ensures spelled { IsSpelled (command_pieces (Command.RawStore object index value)) }
{
    put(line, b"rawstore ");
    put_operand(line, object);
    put(line, b" ");
    put_decimal(line, index);
    put(line, b" ");
    put_input(line, value);
}

/// The command of the words after `same`.
pub fn read_same(rest: Option<&[u8]>) -> Option<Command>
    ensures { ReadsWords (codes "same" ∷ words_in rest.entry) result }
{
    let (left, right) = two_words(rest)?;
    let left = read_operand(left)?;
    let right = read_operand(right)?;
    Some(Command::Same { left, right })
}

#[tactic(auto, using(crate::proofs::PieceLemmas::text_of_pieces_append, crate::proofs::PieceLemmas::spelled_append))]
/// Puts the line of `same` into an empty one.
pub fn put_same(line: &mut LineBuffer, left: Operand, right: Operand)
    requires { line.old.items ≡ [] }
    ensures items { line.new.items ≡ text_of_pieces (command_pieces (Command.Same left right)) }
    ensures len { array_vec_len line.new < 128 }
    ensures spelled { IsSpelled (command_pieces (Command.Same left right)) }
{
    put(line, b"same ");
    put_operand(line, left);
    put(line, b" ");
    put_operand(line, right);
}

/// The command of the words after `unprotect`.
pub fn read_unprotect(rest: Option<&[u8]>) -> Option<Command>
    ensures { ReadsWords (codes "unprotect" ∷ words_in rest.entry) result }
{
    let object = one_word(rest)?;
    let object = read_operand(object)?;
    Some(Command::Unprotect { object })
}

#[tactic(auto, using(crate::proofs::PieceLemmas::text_of_pieces_append, crate::proofs::PieceLemmas::spelled_append))]
/// Puts the line of `unprotect` into an empty one.
pub fn put_unprotect(line: &mut LineBuffer, object: Operand)
    requires { line.old.items ≡ [] }
    ensures items { line.new.items ≡ text_of_pieces (command_pieces (Command.Unprotect object)) }
    ensures len { array_vec_len line.new < 128 }
    ensures spelled { IsSpelled (command_pieces (Command.Unprotect object)) }
{
    put(line, b"unprotect ");
    put_operand(line, object);
}
