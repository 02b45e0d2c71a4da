// The lines of the commands that change the stack.
ghost use Rattle.std.specs.Prelude.{◌≡◌, ◌<◌, ◌∷◌, [], codes};
ghost use Rattle.arrayvec.specs.ArrayVec.{array_vec_len};
ghost use Rattle.space_model.specs.CommandTexts.{command_pieces};
ghost use Rattle.space_model.specs.Spelling.{text_of_pieces, IsSpelled};
ghost use Rattle.space_trace.specs.WordsLeft.{words_in, ReadsWords};

use crate::line_buffer::{LineBuffer, put, put_hex};
use crate::operands::{put_input, read_input};
use crate::words::{next_word, one_word, read_hex};
use space_model::{Command, Input};

/// The command of the words after `push`.
pub fn read_push(rest: Option<&[u8]>) -> Option<Command>
    ensures { ReadsWords (codes "push" ∷ words_in rest.entry) result }
{
    let value = one_word(rest)?;
    let value = read_input(value)?;
    Some(Command::Push { value })
}

#[tactic(auto, using(crate::proofs::PieceLemmas::text_of_pieces_append, crate::proofs::PieceLemmas::spelled_append))]
/// Puts the line of `push` into an empty one.
pub fn put_push(line: &mut LineBuffer, value: Input)
    requires { line.old.items ≡ [] }
    ensures items { line.new.items ≡ text_of_pieces (command_pieces (Command.Push value)) }
    ensures len { array_vec_len line.new < 128 }
    ensures spelled { IsSpelled (command_pieces (Command.Push value)) }
{
    put(line, b"push ");
    put_input(line, value);
}

/// The command of the words after `raw`.
pub fn read_raw(rest: Option<&[u8]>) -> Option<Command>
    ensures { ReadsWords (codes "raw" ∷ words_in rest.entry) result }
{
    let word = one_word(rest)?;
    let word = read_hex(word)?;
    Some(Command::Raw { word })
}

#[tactic(auto, using(crate::proofs::PieceLemmas::text_of_pieces_append, crate::proofs::PieceLemmas::spelled_append))]
/// Puts the line of `raw` into an empty one.
pub fn put_raw(line: &mut LineBuffer, word: u64)
    requires { line.old.items ≡ [] }
    ensures items { line.new.items ≡ text_of_pieces (command_pieces (Command.Raw word)) }
    ensures len { array_vec_len line.new < 128 }
    ensures spelled { IsSpelled (command_pieces (Command.Raw word)) }
{
    put(line, b"raw ");
    put_hex(line, word);
}

/// The command of the words after `pop`.
pub fn read_pop(rest: Option<&[u8]>) -> Option<Command>
    ensures { ReadsWords (codes "pop" ∷ words_in rest.entry) result }
{
    if next_word(rest).is_some() {
        return None;
    }
    Some(Command::Pop)
}

#[tactic(auto, using(crate::proofs::PieceLemmas::text_of_pieces_append, crate::proofs::PieceLemmas::spelled_append))]
/// Puts the line of `pop` into an empty one.
pub fn put_pop(line: &mut LineBuffer)
    requires { line.old.items ≡ [] }
    ensures items { line.new.items ≡ text_of_pieces (command_pieces Command.Pop) }
    ensures len { array_vec_len line.new < 128 }
    ensures spelled { IsSpelled (command_pieces Command.Pop) }
{
    put(line, b"pop");
}
