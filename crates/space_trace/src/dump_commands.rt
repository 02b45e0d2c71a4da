// The lines of the commands that show objects, and of the one that ends all that a trace made.
ghost use Rattle.std.specs.Prelude.{◌≡◌, ◌<◌, ◌∷◌, [], codes};
ghost use Rattle.arrayvec.specs.ArrayVec.{array_vec_len};
ghost use Rattle.space_model.specs.CommandTexts.{command_pieces};
ghost use Rattle.space_model.specs.Spelling.{text_of_pieces, IsSpelled};
ghost use Rattle.space_trace.specs.WordsLeft.{words_in, ReadsWords};

use crate::line_buffer::{LineBuffer, put};
use crate::operands::{put_operand, read_operand};
use crate::words::{next_word, one_word};
use space_model::{Command, Operand};

/// The command of the words after `dump`.
pub fn read_dump(rest: Option<&[u8]>) -> Option<Command>
    ensures { ReadsWords (codes "dump" ∷ words_in rest.entry) result }
{
    if next_word(rest).is_some() {
        return None;
    }
    Some(Command::Dump)
}

#[tactic(auto, using(crate::proofs::PieceLemmas::text_of_pieces_append, crate::proofs::PieceLemmas::spelled_append))]
/// Puts the line of `dump` into an empty one.
pub fn put_dump(line: &mut LineBuffer)
    requires { line.old.items ≡ [] }
    ensures items { line.new.items ≡ text_of_pieces (command_pieces Command.Dump) }
    ensures len { array_vec_len line.new < 128 }
    ensures spelled { IsSpelled (command_pieces Command.Dump) }
{
    put(line, b"dump");
}

/// The command of the words after `peek`.
pub fn read_peek(rest: Option<&[u8]>) -> Option<Command>
    ensures { ReadsWords (codes "peek" ∷ words_in rest.entry) result }
{
    let object = one_word(rest)?;
    let object = read_operand(object)?;
    Some(Command::Peek { object })
}

#[tactic(auto, using(crate::proofs::PieceLemmas::text_of_pieces_append, crate::proofs::PieceLemmas::spelled_append))]
/// Puts the line of `peek` into an empty one.
pub fn put_peek_command(line: &mut LineBuffer, object: Operand)
    requires { line.old.items ≡ [] }
    ensures items { line.new.items ≡ text_of_pieces (command_pieces (Command.Peek object)) }
    ensures len { array_vec_len line.new < 128 }
    ensures spelled { IsSpelled (command_pieces (Command.Peek object)) }
{
    put(line, b"peek ");
    put_operand(line, object);
}

/// The command of the words after `exit`.
pub fn read_exit(rest: Option<&[u8]>) -> Option<Command>
    ensures { ReadsWords (codes "exit" ∷ words_in rest.entry) result }
{
    if next_word(rest).is_some() {
        return None;
    }
    Some(Command::Exit)
}

#[tactic(auto, using(crate::proofs::PieceLemmas::text_of_pieces_append, crate::proofs::PieceLemmas::spelled_append))]
/// Puts the line of `exit` into an empty one.
pub fn put_exit(line: &mut LineBuffer)
    requires { line.old.items ≡ [] }
    ensures items { line.new.items ≡ text_of_pieces (command_pieces Command.Exit) }
    ensures len { array_vec_len line.new < 128 }
    ensures spelled { IsSpelled (command_pieces Command.Exit) }
{
    put(line, b"exit");
}
