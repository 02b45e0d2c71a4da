// The lines of the commands of a major marking.
ghost use Rattle.std.specs.Prelude.{◌≡◌, ◌<◌, ◌∷◌, [], codes};
ghost use Rattle.arrayvec.specs.ArrayVec.{array_vec_len};
ghost use Rattle.space_model.specs.CommandTexts.{command_pieces};
ghost use Rattle.space_model.specs.Spelling.{text_of_pieces, IsSpelled};
ghost use Rattle.space_trace.specs.WordsLeft.{words_in, ReadsWords};

use crate::line_buffer::{LineBuffer, put, put_decimal};
use crate::words::{next_word, one_word, read_number};
use space_model::Command;

/// The command of the words after `major`.
pub fn read_major(rest: Option<&[u8]>) -> Option<Command>
    ensures { ReadsWords (codes "major" ∷ words_in rest.entry) result }
{
    if next_word(rest).is_some() {
        return None;
    }
    Some(Command::Major)
}

#[tactic(auto, using(crate::proofs::PieceLemmas::text_of_pieces_append, crate::proofs::PieceLemmas::spelled_append))]
/// Puts the line of `major` into an empty one.
pub fn put_major(line: &mut LineBuffer)
    requires { line.old.items ≡ [] }
    ensures items { line.new.items ≡ text_of_pieces (command_pieces Command.Major) }
    ensures len { array_vec_len line.new < 128 }
    ensures spelled { IsSpelled (command_pieces Command.Major) }
{
    put(line, b"major");
}

/// The command of the words after `mark`.
pub fn read_mark(rest: Option<&[u8]>) -> Option<Command>
    ensures { ReadsWords (codes "mark" ∷ words_in rest.entry) result }
{
    let count = one_word(rest)?;
    let count = read_number(count)?;
    Some(Command::Mark { count })
}

#[tactic(auto, using(crate::proofs::PieceLemmas::text_of_pieces_append, crate::proofs::PieceLemmas::spelled_append))]
/// Puts the line of `mark` into an empty one.
pub fn put_mark(line: &mut LineBuffer, count: u64)
    requires { line.old.items ≡ [] }
    ensures items { line.new.items ≡ text_of_pieces (command_pieces (Command.Mark count)) }
    ensures len { array_vec_len line.new < 128 }
    ensures spelled { IsSpelled (command_pieces (Command.Mark count)) }
{
    put(line, b"mark ");
    put_decimal(line, count);
}

/// The command of the words after `finish`.
pub fn read_finish(rest: Option<&[u8]>) -> Option<Command>
    ensures { ReadsWords (codes "finish" ∷ words_in rest.entry) result }
{
    if next_word(rest).is_some() {
        return None;
    }
    Some(Command::Finish)
}

#[tactic(auto, using(crate::proofs::PieceLemmas::text_of_pieces_append, crate::proofs::PieceLemmas::spelled_append))]
/// Puts the line of `finish` into an empty one.
pub fn put_finish(line: &mut LineBuffer)
    requires { line.old.items ≡ [] }
    ensures items { line.new.items ≡ text_of_pieces (command_pieces Command.Finish) }
    ensures len { array_vec_len line.new < 128 }
    ensures spelled { IsSpelled (command_pieces Command.Finish) }
{
    put(line, b"finish");
}
