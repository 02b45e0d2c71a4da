// The lines of the commands that collect and sweep, and of the one that counts.
ghost use Rattle.std.specs.Prelude.{◌≡◌, ◌<◌, ◌∷◌, [], codes};
ghost use Rattle.arrayvec.specs.ArrayVec.{array_vec_len};
ghost use Rattle.space_model.specs.CommandTexts.{command_pieces};
ghost use Rattle.space_model.specs.Spelling.{text_of_pieces, IsSpelled};
ghost use Rattle.space_trace.specs.WordsLeft.{words_in, ReadsWords};

use crate::line_buffer::{LineBuffer, put, put_decimal};
use crate::words::{next_word, one_word, read_number};
use space_model::Command;

/// The command of the words after `minor`.
pub fn read_minor(rest: Option<&[u8]>) -> Option<Command>
    ensures { ReadsWords (codes "minor" ∷ words_in rest.entry) result }
{
    if next_word(rest).is_some() {
        return None;
    }
    Some(Command::Minor)
}

#[tactic(auto, using(crate::proofs::PieceLemmas::text_of_pieces_append, crate::proofs::PieceLemmas::spelled_append))]
/// Puts the line of `minor` into an empty one.
pub fn put_minor(line: &mut LineBuffer)
    requires { line.old.items ≡ [] }
    ensures items { line.new.items ≡ text_of_pieces (command_pieces Command.Minor) }
    ensures len { array_vec_len line.new < 128 }
    ensures spelled { IsSpelled (command_pieces Command.Minor) }
{
    put(line, b"minor");
}

/// The command of the words after `gc`.
pub fn read_gc(rest: Option<&[u8]>) -> Option<Command>
    ensures { ReadsWords (codes "gc" ∷ words_in rest.entry) result }
{
    if next_word(rest).is_some() {
        return None;
    }
    Some(Command::Gc)
}

#[tactic(auto, using(crate::proofs::PieceLemmas::text_of_pieces_append, crate::proofs::PieceLemmas::spelled_append))]
/// Puts the line of `gc` into an empty one.
pub fn put_gc(line: &mut LineBuffer)
    requires { line.old.items ≡ [] }
    ensures items { line.new.items ≡ text_of_pieces (command_pieces Command.Gc) }
    ensures len { array_vec_len line.new < 128 }
    ensures spelled { IsSpelled (command_pieces Command.Gc) }
{
    put(line, b"gc");
}

/// The command of the words after `sweep`.
pub fn read_sweep(rest: Option<&[u8]>) -> Option<Command>
    ensures { ReadsWords (codes "sweep" ∷ words_in rest.entry) result }
{
    let count = one_word(rest)?;
    let count = read_number(count)?;
    Some(Command::Sweep { count })
}

#[tactic(auto, using(crate::proofs::PieceLemmas::text_of_pieces_append, crate::proofs::PieceLemmas::spelled_append))]
/// Puts the line of `sweep` into an empty one.
pub fn put_sweep(line: &mut LineBuffer, count: u64)
    requires { line.old.items ≡ [] }
    ensures items { line.new.items ≡ text_of_pieces (command_pieces (Command.Sweep count)) }
    ensures len { array_vec_len line.new < 128 }
    ensures spelled { IsSpelled (command_pieces (Command.Sweep count)) }
{
    put(line, b"sweep ");
    put_decimal(line, count);
}

/// The command of the words after `stat`.
pub fn read_stat(rest: Option<&[u8]>) -> Option<Command>
    ensures { ReadsWords (codes "stat" ∷ words_in rest.entry) result }
{
    if next_word(rest).is_some() {
        return None;
    }
    Some(Command::Stat)
}

#[tactic(auto, using(crate::proofs::PieceLemmas::text_of_pieces_append, crate::proofs::PieceLemmas::spelled_append))]
/// Puts the line of `stat` into an empty one.
pub fn put_stat_command(line: &mut LineBuffer)
    requires { line.old.items ≡ [] }
    ensures items { line.new.items ≡ text_of_pieces (command_pieces Command.Stat) }
    ensures len { array_vec_len line.new < 128 }
    ensures spelled { IsSpelled (command_pieces Command.Stat) }
{
    put(line, b"stat");
}
