// The line of the command that makes objects.
ghost use Rattle.std.specs.Prelude.{◌≡◌, ◌≤◌, ◌<◌, ◌∷◌, [], length, codes, MatchOption};
ghost use Rattle.arrayvec.specs.ArrayVec.{array_vec_len};
ghost use Rattle.space_model.specs.CommandTexts.{command_pieces};
ghost use Rattle.space_model.specs.declared.object.Guard.{Guard as TheGuard};
ghost use Rattle.space_model.specs.declared.object.Style.{Style as TheStyle};
ghost use Rattle.space_model.specs.Grammar.{guard_word, style_word};
ghost use Rattle.space_model.specs.Spelling.{text_of_pieces, IsSpelled};
ghost use Rattle.space_trace.specs.WordsLeft.{words_in, ReadsWords};

use crate::line_buffer::{LineBuffer, put, put_decimal};
use crate::words::{four_words, read_number};
use space_model::{Command, Guard, Ident, Style};

// The guard that the word is.
fn read_guard(word: &[u8]) -> Option<Guard>
    ensures { MatchOption result ((guard : TheGuard) → word.now ≡ guard_word guard → ⊥) (λ guard. word.now ≡ guard_word guard) }
{
    if word == b"P".as_slice() {
        return Some(Guard::Protected);
    }
    if word == b"U".as_slice() {
        return Some(Guard::Unprotected);
    }
    None
}

// The style that the word is.
fn read_style(word: &[u8]) -> Option<Style>
    ensures { MatchOption result ((style : TheStyle) → word.now ≡ style_word style → ⊥) (λ style. word.now ≡ style_word style) }
{
    if word == b"M".as_slice() {
        return Some(Style::Movable);
    }
    if word == b"K".as_slice() {
        return Some(Style::Keeping);
    }
    None
}

/// The command of the words after `new`.
pub fn read_new(rest: Option<&[u8]>) -> Option<Command>
    ensures { ReadsWords (codes "new" ∷ words_in rest.entry) result }
{
    let (root, fields, guard, style) = four_words(rest)?;
    let root = Ident::read(root)?;
    let fields = read_number(fields)?;
    let guard = read_guard(guard)?;
    let style = read_style(style)?;
    Some(Command::New {
        root,
        fields,
        guard,
        style,
    })
}

fn guard_bytes(guard: Guard) -> &'static [u8]
    ensures text { result.now ≡ guard_word guard }
    ensures len { length result.now ≤ 1 }
{
    match guard {
        Guard::Protected => b"P",
        Guard::Unprotected => b"U",
    }
}

fn style_bytes(style: Style) -> &'static [u8]
    ensures text { result.now ≡ style_word style }
    ensures len { length result.now ≤ 1 }
{
    match style {
        Style::Movable => b"M",
        Style::Keeping => b"K",
    }
}

#[tactic(auto, using(crate::proofs::PieceLemmas::text_of_pieces_append, crate::proofs::PieceLemmas::spelled_append))]
/// Puts the line of `new` into an empty one.
pub fn put_new(line: &mut LineBuffer, root: Ident, fields: u64, guard: Guard, style: Style)
    requires { line.old.items ≡ [] }
    ensures items { line.new.items ≡ text_of_pieces (command_pieces (Command.New root fields guard style)) }
    ensures len { array_vec_len line.new < 128 }
    ensures spelled { IsSpelled (command_pieces (Command.New root fields guard style)) }
{
    put(line, b"new ");
    put(line, root.bytes());
    put(line, b" ");
    put_decimal(line, fields);
    put(line, b" ");
    put(line, guard_bytes(guard));
    put(line, b" ");
    put(line, style_bytes(style));
}
