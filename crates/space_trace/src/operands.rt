// The operands and values of a line.
ghost use Rattle.std.specs.Prelude.{◌≡◌, ◌≤◌, ◌+◌, ◌++◌, ℕ, MatchOption};
ghost use Rattle.arrayvec.specs.ArrayVec.{array_vec_len};
ghost use Rattle.space_model.specs.CommandTexts.{operand_pieces, input_pieces};
ghost use Rattle.space_model.specs.Spelling.{text_of_pieces, IsSpelled};
ghost use Rattle.space_model.specs.declared.command.Input.{Input as TheInput};
ghost use Rattle.space_model.specs.declared.command.Operand.{Operand as TheOperand};
ghost use Rattle.space_model.specs.Grammar.{IsOperand, IsInput};

use crate::line_buffer::{LineBuffer, put, put_decimal};
use crate::words::read_number;
use space_model::{Ident, Input, Operand};

// The place of the stack word that the word is.
fn read_place(word: &[u8]) -> Option<u64>
    ensures { MatchOption result ((place : ℕ) → IsOperand word.now (Operand.Word place) → ⊥) (λ place. IsOperand word.now (Operand.Word place)) }
{
    let (first, digits) = word.split_first()?;
    if *first != b'@' {
        return None;
    }
    let place = read_number(digits)?;
    Some(place)
}

/// The operand that the word is.
pub fn read_operand(word: &[u8]) -> Option<Operand>
    ensures { MatchOption result ((operand : TheOperand) → IsOperand word.now operand → ⊥) (λ operand. IsOperand word.now operand) }
{
    if let Some(name) = Ident::read(word) {
        return Some(Operand::Root(name));
    }
    match read_place(word) {
        Some(place) => Some(Operand::Word(place)),
        None => None,
    }
}

// The small integer that the word is.
fn read_small(word: &[u8]) -> Option<u64>
    ensures { MatchOption result ((number : ℕ) → IsInput word.now (Input.Small number) → ⊥) (λ number. IsInput word.now (Input.Small number)) }
{
    let (first, digits) = word.split_first()?;
    if *first != b'=' {
        return None;
    }
    let number = read_number(digits)?;
    if number >= 1 << 62 {
        return None;
    }
    Some(number)
}

/// The value that the word is. `nil` is no ident, so the order of the tests is free.
pub fn read_input(word: &[u8]) -> Option<Input>
    ensures { MatchOption result ((value : TheInput) → IsInput word.now value → ⊥) (λ value. IsInput word.now value) }
{
    if word == b"nil".as_slice() {
        return Some(Input::Nil);
    }
    if let Some(operand) = read_operand(word) {
        return Some(Input::From(operand));
    }
    match read_small(word) {
        Some(number) => Some(Input::Small(number)),
        None => None,
    }
}

/// Puts the operand at the end of the line, which has 90 bytes at most before.
pub fn put_operand(line: &mut LineBuffer, operand: Operand)
    requires { array_vec_len line.old ≤ 90 }
    ensures items { line.new.items ≡ line.old.items ++ text_of_pieces (operand_pieces operand) }
    ensures len { array_vec_len line.new ≤ array_vec_len line.old + 32 }
    ensures spelled { IsSpelled (operand_pieces operand) }
{
    match operand {
        Operand::Root(name) => put(line, name.bytes()),
        Operand::Word(place) => {
            put(line, b"@");
            put_decimal(line, place);
        }
    }
}

/// Puts the value at the end of the line, which has 90 bytes at most before.
pub fn put_input(line: &mut LineBuffer, input: Input)
    requires { array_vec_len line.old ≤ 90 }
    ensures items { line.new.items ≡ line.old.items ++ text_of_pieces (input_pieces input) }
    ensures len { array_vec_len line.new ≤ array_vec_len line.old + 32 }
    ensures spelled { IsSpelled (input_pieces input) }
{
    match input {
        Input::From(operand) => put_operand(line, operand),
        Input::Nil => put(line, b"nil"),
        Input::Small(number) => {
            put(line, b"=");
            put_decimal(line, number);
        }
    }
}
