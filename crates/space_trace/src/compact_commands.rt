// The lines of the commands of a compaction.
ghost use Rattle.std.specs.Prelude.{◌≡◌, ◌<◌, ◌∷◌, [], codes};
ghost use Rattle.arrayvec.specs.ArrayVec.{array_vec_len};
ghost use Rattle.space_model.specs.CommandTexts.{command_pieces};
ghost use Rattle.space_model.specs.Spelling.{text_of_pieces, IsSpelled};
ghost use Rattle.space_trace.specs.WordsLeft.{words_in, ReadsWords};

use crate::line_buffer::{LineBuffer, put, put_decimal};
use crate::words::{next_word, one_word, read_number};
use space_model::Command;

/// The command of the words after `compact`.
pub fn read_compact(rest: Option<&[u8]>) -> Option<Command>
    ensures { ReadsWords (codes "compact" ∷ words_in rest.entry) result }
{
    if next_word(rest).is_some() {
        return None;
    }
    Some(Command::Compact)
}

#[tactic(auto, using(crate::proofs::PieceLemmas::text_of_pieces_append, crate::proofs::PieceLemmas::spelled_append))]
/// Puts the line of `compact` into an empty one.
pub fn put_compact(line: &mut LineBuffer)
    requires { line.old.items ≡ [] }
    ensures items { line.new.items ≡ text_of_pieces (command_pieces Command.Compact) }
    ensures len { array_vec_len line.new < 128 }
    ensures spelled { IsSpelled (command_pieces Command.Compact) }
{
    put(line, b"compact");
}

/// The command of the words after `move`.
#[inline(always)]
pub fn read_move(rest: Option<&[u8]>) -> Option<Command>
    ensures { ReadsWords (codes "move" ∷ words_in rest.entry) result }
{
    let count = one_word(rest)?;
    let count = read_number(count)?;
    Some(Command::Move { count })
}

#[tactic(auto, using(crate::proofs::PieceLemmas::text_of_pieces_append, crate::proofs::PieceLemmas::spelled_append))]
/// Puts the line of `move` into an empty one.
pub fn put_move(line: &mut LineBuffer, count: u64)
    requires { line.old.items ≡ [] }
    ensures items { line.new.items ≡ text_of_pieces (command_pieces (Command.Move count)) }
    ensures len { array_vec_len line.new < 128 }
    ensures spelled { IsSpelled (command_pieces (Command.Move count)) }
{
    put(line, b"move ");
    put_decimal(line, count);
}

/// The command of the words after `fix`.
#[inline(always)]
pub fn read_fix(rest: Option<&[u8]>) -> Option<Command>
    ensures { ReadsWords (codes "fix" ∷ words_in rest.entry) result }
{
    let count = one_word(rest)?;
    let count = read_number(count)?;
    Some(Command::Fix { count })
}

#[tactic(auto, using(crate::proofs::PieceLemmas::text_of_pieces_append, crate::proofs::PieceLemmas::spelled_append))]
/// Puts the line of `fix` into an empty one.
pub fn put_fix(line: &mut LineBuffer, count: u64)
    requires { line.old.items ≡ [] }
    ensures items { line.new.items ≡ text_of_pieces (command_pieces (Command.Fix count)) }
    ensures len { array_vec_len line.new < 128 }
    ensures spelled { IsSpelled (command_pieces (Command.Fix count)) }
{
    put(line, b"fix ");
    put_decimal(line, count);
}
