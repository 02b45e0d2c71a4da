// The lines of the commands that write roots.
ghost use Rattle.std.specs.Prelude.{◌≡◌, ◌<◌, ◌∷◌, [], codes};
ghost use Rattle.arrayvec.specs.ArrayVec.{array_vec_len};
ghost use Rattle.space_model.specs.CommandTexts.{command_pieces};
ghost use Rattle.space_model.specs.Spelling.{text_of_pieces, IsSpelled};
ghost use Rattle.space_trace.specs.WordsLeft.{words_in, ReadsWords};

use crate::line_buffer::{LineBuffer, put, put_decimal};
use crate::operands::{put_input, put_operand, read_input, read_operand};
use crate::words::{one_word, read_number, three_words, two_words};
use space_model::{Command, Ident, Input, Operand};

/// The command of the words after `set`.
pub fn read_set(rest: Option<&[u8]>) -> Option<Command>
    ensures { ReadsWords (codes "set" ∷ words_in rest.entry) result }
{
    let (root, value) = two_words(rest)?;
    let root = Ident::read(root)?;
    let value = read_input(value)?;
    Some(Command::Set { root, value })
}

#[tactic(auto, using(crate::proofs::PieceLemmas::text_of_pieces_append, crate::proofs::PieceLemmas::spelled_append))]
/// Puts the line of `set` into an empty one.
pub fn put_set(line: &mut LineBuffer, root: Ident, value: Input)
    requires { line.old.items ≡ [] }
    ensures items { line.new.items ≡ text_of_pieces (command_pieces (Command.Set root value)) }
    ensures len { array_vec_len line.new < 128 }
    ensures spelled { IsSpelled (command_pieces (Command.Set root value)) }
{
    put(line, b"set ");
    put(line, root.bytes());
    put(line, b" ");
    put_input(line, value);
}

/// The command of the words after `drop`.
pub fn read_drop(rest: Option<&[u8]>) -> Option<Command>
    ensures { ReadsWords (codes "drop" ∷ words_in rest.entry) result }
{
    let root = one_word(rest)?;
    let root = Ident::read(root)?;
    Some(Command::DropRoot { root })
}

#[tactic(auto, using(crate::proofs::PieceLemmas::text_of_pieces_append, crate::proofs::PieceLemmas::spelled_append))]
/// Puts the line of `drop` into an empty one.
pub fn put_drop(line: &mut LineBuffer, root: Ident)
    requires { line.old.items ≡ [] }
    ensures items { line.new.items ≡ text_of_pieces (command_pieces (Command.DropRoot root)) }
    ensures len { array_vec_len line.new < 128 }
    ensures spelled { IsSpelled (command_pieces (Command.DropRoot root)) }
{
    put(line, b"drop ");
    put(line, root.bytes());
}

/// The command of the words after `load`.
pub fn read_load(rest: Option<&[u8]>) -> Option<Command>
    ensures { ReadsWords (codes "load" ∷ words_in rest.entry) result }
{
    let (root, object, index) = three_words(rest)?;
    let root = Ident::read(root)?;
    let object = read_operand(object)?;
    let index = read_number(index)?;
    Some(Command::Load {
        root,
        object,
        index,
    })
}

#[tactic(auto, using(crate::proofs::PieceLemmas::text_of_pieces_append, crate::proofs::PieceLemmas::spelled_append))]
/// Puts the line of `load` into an empty one.
pub fn put_load(line: &mut LineBuffer, root: Ident, object: Operand, index: u64)
    requires { line.old.items ≡ [] }
    ensures items { line.new.items ≡ text_of_pieces (command_pieces (Command.Load root object index)) }
    ensures len { array_vec_len line.new < 128 }
    ensures spelled { IsSpelled (command_pieces (Command.Load root object index)) }
{
    put(line, b"load ");
    put(line, root.bytes());
    put(line, b" ");
    put_operand(line, object);
    put(line, b" ");
    put_decimal(line, index);
}
