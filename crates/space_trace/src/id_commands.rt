// The lines of the commands on object ids.
ghost use Rattle.std.specs.Prelude.{◌≡◌, ◌<◌, ◌∷◌, [], codes};
ghost use Rattle.arrayvec.specs.ArrayVec.{array_vec_len};
ghost use Rattle.space_model.specs.CommandTexts.{command_pieces};
ghost use Rattle.space_model.specs.Spelling.{text_of_pieces, IsSpelled};
ghost use Rattle.space_trace.specs.WordsLeft.{words_in, ReadsWords};

use crate::line_buffer::{LineBuffer, put, put_decimal};
use crate::operands::{put_operand, read_operand};
use crate::words::{one_word, read_number, two_words};
use space_model::{Command, Ident, Operand};

/// The command of the words after `id`.
pub fn read_id(rest: Option<&[u8]>) -> Option<Command>
    ensures { ReadsWords (codes "id" ∷ words_in rest.entry) result }
{
    let object = one_word(rest)?;
    let object = read_operand(object)?;
    Some(Command::Id { object })
}

#[tactic(auto, using(crate::proofs::PieceLemmas::text_of_pieces_append, crate::proofs::PieceLemmas::spelled_append))]
/// Puts the line of `id` into an empty one.
pub fn put_id(line: &mut LineBuffer, object: Operand)
    requires { line.old.items ≡ [] }
    ensures items { line.new.items ≡ text_of_pieces (command_pieces (Command.Id object)) }
    ensures len { array_vec_len line.new < 128 }
    ensures spelled { IsSpelled (command_pieces (Command.Id object)) }
{
    put(line, b"id ");
    put_operand(line, object);
}

/// The command of the words after `byid`.
pub fn read_by_id(rest: Option<&[u8]>) -> Option<Command>
    ensures { ReadsWords (codes "byid" ∷ words_in rest.entry) result }
{
    let (root, id) = two_words(rest)?;
    let root = Ident::read(root)?;
    let id = read_number(id)?;
    Some(Command::ById { root, id })
}

#[tactic(auto, using(crate::proofs::PieceLemmas::text_of_pieces_append, crate::proofs::PieceLemmas::spelled_append))]
/// Puts the line of `byid` into an empty one.
pub fn put_by_id(line: &mut LineBuffer, root: Ident, id: u64)
    requires { line.old.items ≡ [] }
    ensures items { line.new.items ≡ text_of_pieces (command_pieces (Command.ById root id)) }
    ensures len { array_vec_len line.new < 128 }
    ensures spelled { IsSpelled (command_pieces (Command.ById root id)) }
{
    put(line, b"byid ");
    put(line, root.bytes());
    put(line, b" ");
    put_decimal(line, id);
}
