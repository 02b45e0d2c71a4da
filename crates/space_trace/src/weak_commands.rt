// The lines of the commands on weak maps.
ghost use Rattle.std.specs.Prelude.{◌≡◌, ◌<◌, ◌∷◌, [], codes};
ghost use Rattle.arrayvec.specs.ArrayVec.{array_vec_len};
ghost use Rattle.space_model.specs.CommandTexts.{command_pieces};
ghost use Rattle.space_model.specs.Spelling.{text_of_pieces, IsSpelled};
ghost use Rattle.space_trace.specs.WordsLeft.{words_in, ReadsWords};

use crate::line_buffer::{LineBuffer, put};
use crate::operands::{put_operand, read_operand};
use crate::words::{one_word, three_words, two_words};
use space_model::{Command, Ident, Operand};

/// The command of the words after `wset`.
pub fn read_weak_set(rest: Option<&[u8]>) -> Option<Command>
    ensures { ReadsWords (codes "wset" ∷ words_in rest.entry) result }
{
    let (weak, key, value) = three_words(rest)?;
    let weak = Ident::read(weak)?;
    let key = read_operand(key)?;
    let value = read_operand(value)?;
    Some(Command::WeakSet { weak, key, value })
}

#[tactic(auto, using(crate::proofs::PieceLemmas::text_of_pieces_append, crate::proofs::PieceLemmas::spelled_append))]
/// Puts the line of `wset` into an empty one.
pub fn put_weak_set(line: &mut LineBuffer, weak: Ident, key: Operand, value: Operand)
    requires { line.old.items ≡ [] }
    ensures items { line.new.items ≡ text_of_pieces (command_pieces (Command.WeakSet weak key value)) }
    ensures len { array_vec_len line.new < 128 }
    ensures spelled { IsSpelled (command_pieces (Command.WeakSet weak key value)) }
{
    put(line, b"wset ");
    put(line, weak.bytes());
    put(line, b" ");
    put_operand(line, key);
    put(line, b" ");
    put_operand(line, value);
}

/// The command of the words after `wget`.
pub fn read_weak_get(rest: Option<&[u8]>) -> Option<Command>
    ensures { ReadsWords (codes "wget" ∷ words_in rest.entry) result }
{
    let (root, weak, key) = three_words(rest)?;
    let root = Ident::read(root)?;
    let weak = Ident::read(weak)?;
    let key = read_operand(key)?;
    Some(Command::WeakGet { root, weak, key })
}

#[tactic(auto, using(crate::proofs::PieceLemmas::text_of_pieces_append, crate::proofs::PieceLemmas::spelled_append))]
/// Puts the line of `wget` into an empty one.
pub fn put_weak_get(line: &mut LineBuffer, root: Ident, weak: Ident, key: Operand)
    requires { line.old.items ≡ [] }
    ensures items { line.new.items ≡ text_of_pieces (command_pieces (Command.WeakGet root weak key)) }
    ensures len { array_vec_len line.new < 128 }
    ensures spelled { IsSpelled (command_pieces (Command.WeakGet root weak key)) }
{
    put(line, b"wget ");
    put(line, root.bytes());
    put(line, b" ");
    put(line, weak.bytes());
    put(line, b" ");
    put_operand(line, key);
}

/// The command of the words after `wkey`.
pub fn read_weak_key(rest: Option<&[u8]>) -> Option<Command>
    ensures { ReadsWords (codes "wkey" ∷ words_in rest.entry) result }
{
    let (weak, key) = two_words(rest)?;
    let weak = Ident::read(weak)?;
    let key = read_operand(key)?;
    Some(Command::WeakKey { weak, key })
}

#[tactic(auto, using(crate::proofs::PieceLemmas::text_of_pieces_append, crate::proofs::PieceLemmas::spelled_append))]
/// Puts the line of `wkey` into an empty one.
pub fn put_weak_key(line: &mut LineBuffer, weak: Ident, key: Operand)
    requires { line.old.items ≡ [] }
    ensures items { line.new.items ≡ text_of_pieces (command_pieces (Command.WeakKey weak key)) }
    ensures len { array_vec_len line.new < 128 }
    ensures spelled { IsSpelled (command_pieces (Command.WeakKey weak key)) }
{
    put(line, b"wkey ");
    put(line, weak.bytes());
    put(line, b" ");
    put_operand(line, key);
}

/// The command of the words after `wsize`.
pub fn read_weak_size(rest: Option<&[u8]>) -> Option<Command>
    ensures { ReadsWords (codes "wsize" ∷ words_in rest.entry) result }
{
    let weak = one_word(rest)?;
    let weak = Ident::read(weak)?;
    Some(Command::WeakSize { weak })
}

#[tactic(auto, using(crate::proofs::PieceLemmas::text_of_pieces_append, crate::proofs::PieceLemmas::spelled_append))]
/// Puts the line of `wsize` into an empty one.
pub fn put_weak_size(line: &mut LineBuffer, weak: Ident)
    requires { line.old.items ≡ [] }
    ensures items { line.new.items ≡ text_of_pieces (command_pieces (Command.WeakSize weak)) }
    ensures len { array_vec_len line.new < 128 }
    ensures spelled { IsSpelled (command_pieces (Command.WeakSize weak)) }
{
    put(line, b"wsize ");
    put(line, weak.bytes());
}

/// The command of the words after `wdel`.
pub fn read_weak_delete(rest: Option<&[u8]>) -> Option<Command>
    ensures { ReadsWords (codes "wdel" ∷ words_in rest.entry) result }
{
    let (weak, key) = two_words(rest)?;
    let weak = Ident::read(weak)?;
    let key = read_operand(key)?;
    Some(Command::WeakDelete { weak, key })
}

#[tactic(auto, using(crate::proofs::PieceLemmas::text_of_pieces_append, crate::proofs::PieceLemmas::spelled_append))]
/// Puts the line of `wdel` into an empty one.
pub fn put_weak_delete(line: &mut LineBuffer, weak: Ident, key: Operand)
    requires { line.old.items ≡ [] }
    ensures items { line.new.items ≡ text_of_pieces (command_pieces (Command.WeakDelete weak key)) }
    ensures len { array_vec_len line.new < 128 }
    ensures spelled { IsSpelled (command_pieces (Command.WeakDelete weak key)) }
{
    put(line, b"wdel ");
    put(line, weak.bytes());
    put(line, b" ");
    put_operand(line, key);
}
