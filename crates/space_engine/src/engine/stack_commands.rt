// The commands that change the stack.
ghost use Rattle.std.specs.Prelude.{◌≡◌, ◌++◌, ◌∷◌, [], IfSome, OnOk, OnErr, IfNone};
ghost use Rattle.space_model.specs.declared.command.Command.TheVariants.{Push, Raw, Pop};
ghost use Rattle.space_model.specs.CommandTexts.{IsWritableInput};
ghost use Rattle.space_model.specs.State.{State};
ghost use Rattle.space_engine.specs.Stands.{Holds};
ghost use Rattle.space_engine.specs.Steps.{Answers};
ghost use Rattle.space_engine.specs.Views.{with_stack};

use super::Engine;
use space_model::{Input, Refusal, Reply};
use std::alloc::AllocError as NoMemory;

impl Engine {
    // The word comes on top of the stack. An `Err` changes nothing.
    fn put_word(&mut self, word: u64) -> Result<(), NoMemory>
        ensures ok { OnOk result (self.new ≡ with_stack self.old (self.old.stack ++ word ∷ [])) }
        ensures err { OnErr result (self.new ≡ self.old) }
    {
        self.stack.push(word)
    }

    // Takes the top word away, where there is one.
    fn take_word(&mut self) -> Option<u64>
        ensures top { IfSome result (λ word. self.old.stack ≡ self.new.stack ++ word ∷ []) }
        ensures rest { self.new ≡ with_stack self.old self.new.stack }
        ensures empty { IfNone result (self.old.stack ≡ []) }
        ensures unchanged { IfNone result (self.new ≡ self.old) }
    {
        self.stack.pop()
    }

    /// The word goes on the stack as it is.
    pub fn raw(&mut self, word: u64) -> Reply
        ensures answers { (s : State) → Holds self.old s → Answers s self.new (Raw word) result }
        ensures heap { self.new.heap ≡ self.old.heap }
    {
        let names = self.name_of(word);
        match self.put_word(word) {
            Ok(()) => Reply::Pushed { word, names },
            Err(_) => Reply::NoMemory,
        }
    }

    /// The word of the value goes on the stack.
    pub fn push(&mut self, value: &Input) -> Reply
        requires { IsWritableInput value.now }
        ensures answers { (s : State) → Holds self.old s → Answers s self.new (Push value.now) result }
        ensures heap { self.new.heap ≡ self.old.heap }
    {
        match self.input_word(value) {
            Ok(word) => self.raw(word),
            Err(why) => Reply::Refused { why },
        }
    }

    /// The top word is taken away, where there is one.
    pub fn pop(&mut self) -> Reply
        ensures answers { (s : State) → Holds self.old s → Answers s self.new Pop result }
        ensures heap { self.new.heap ≡ self.old.heap }
    {
        match self.take_word() {
            Some(_) => Reply::Done,
            None => Reply::Refused {
                why: Refusal::NoWord,
            },
        }
    }
}
