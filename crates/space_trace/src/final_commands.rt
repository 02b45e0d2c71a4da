// The lines of the commands on finalizers.
ghost use Rattle.std.specs.Prelude.{◌≡◌, ◌<◌, ◌∷◌, [], codes};
ghost use Rattle.arrayvec.specs.ArrayVec.{array_vec_len};
ghost use Rattle.space_model.specs.CommandTexts.{command_pieces};
ghost use Rattle.space_model.specs.Spelling.{text_of_pieces, IsSpelled};
ghost use Rattle.space_trace.specs.WordsLeft.{words_in, ReadsWords};

use crate::line_buffer::{LineBuffer, put, put_decimal};
use crate::operands::{put_operand, read_operand};
use crate::words::{one_word, read_number, two_words};
use space_model::{Command, Ident, Operand};

/// The command of the words after `final`.
pub fn read_final(rest: Option<&[u8]>) -> Option<Command>
    ensures { ReadsWords (codes "final" ∷ words_in rest.entry) result }
{
    let (object, label) = two_words(rest)?;
    let object = read_operand(object)?;
    let label = Ident::read(label)?;
    Some(Command::Final { object, label })
}

#[tactic(auto, using(crate::proofs::PieceLemmas::text_of_pieces_append, crate::proofs::PieceLemmas::spelled_append))]
/// Puts the line of `final` into an empty one.
pub fn put_final(line: &mut LineBuffer, object: Operand, label: Ident)
    requires { line.old.items ≡ [] }
    ensures items { line.new.items ≡ text_of_pieces (command_pieces (Command.Final object label)) }
    ensures len { array_vec_len line.new < 128 }
    ensures spelled { IsSpelled (command_pieces (Command.Final object label)) }
{
    put(line, b"final ");
    put_operand(line, object);
    put(line, b" ");
    put(line, label.bytes());
}

/// The command of the words after `unfinal`.
pub fn read_unfinal(rest: Option<&[u8]>) -> Option<Command>
    ensures { ReadsWords (codes "unfinal" ∷ words_in rest.entry) result }
{
    let object = one_word(rest)?;
    let object = read_operand(object)?;
    Some(Command::Unfinal { object })
}

#[tactic(auto, using(crate::proofs::PieceLemmas::text_of_pieces_append, crate::proofs::PieceLemmas::spelled_append))]
/// Puts the line of `unfinal` into an empty one.
pub fn put_unfinal(line: &mut LineBuffer, object: Operand)
    requires { line.old.items ≡ [] }
    ensures items { line.new.items ≡ text_of_pieces (command_pieces (Command.Unfinal object)) }
    ensures len { array_vec_len line.new < 128 }
    ensures spelled { IsSpelled (command_pieces (Command.Unfinal object)) }
{
    put(line, b"unfinal ");
    put_operand(line, object);
}

/// The command of the words after `run`.
pub fn read_run(rest: Option<&[u8]>) -> Option<Command>
    ensures { ReadsWords (codes "run" ∷ words_in rest.entry) result }
{
    let count = one_word(rest)?;
    let count = read_number(count)?;
    Some(Command::Run { count })
}

#[tactic(auto, using(crate::proofs::PieceLemmas::text_of_pieces_append, crate::proofs::PieceLemmas::spelled_append))]
/// Puts the line of `run` into an empty one.
pub fn put_run(line: &mut LineBuffer, count: u64)
    requires { line.old.items ≡ [] }
    ensures items { line.new.items ≡ text_of_pieces (command_pieces (Command.Run count)) }
    ensures len { array_vec_len line.new < 128 }
    ensures spelled { IsSpelled (command_pieces (Command.Run count)) }
{
    put(line, b"run ");
    put_decimal(line, count);
}
