// The commands that write roots.
ghost use Rattle.std.specs.Prelude.{◌≡◌, ◌≢◌, ◌<◌, ◌^◌, None, Some, OnOk, OnErr, is_some};
ghost use Rattle.space_model.specs.declared.command.Command.TheVariants.{Set, DropRoot, Load};
ghost use Rattle.space_model.specs.declared.reply.Refusal.{Refusal as TheRefusal};
ghost use Rattle.space_model.specs.declared.reply.Reply.TheVariants.{Refused};
ghost use Rattle.space_model.specs.CommandTexts.{IsWritableInput};
ghost use Rattle.space_model.specs.declared.value.Value.{Value as TheValue};
ghost use Rattle.space_model.specs.Operands.{word_value};
ghost use Rattle.space_model.specs.State.{State};
ghost use Rattle.space_roots.specs.WordRoots.{root_word};
ghost use Rattle.space_engine.specs.Ticks.{IsReplyTicked};
ghost use Rattle.space_engine.specs.Stands.{Holds};
ghost use Rattle.space_engine.specs.Steps.{Answers, HandsOut};
ghost use Rattle.space_engine.specs.Views.{with_root_written, with_root_dropped};

use super::Engine;
use space_model::{Ident, Input, Ledger, Operand, Refusal, Reply, Steps, Value};
use std::alloc::AllocError as NoMemory;

impl Engine {
    // Writes a root; a new one may need memory. An `Err` changes nothing.
    fn put_root(&mut self, root: &Ident, word: u64) -> Result<(), NoMemory>
        ensures ok { OnOk result (self.new ≡ with_root_written self.old root.now word) }
        ensures err { OnErr result (self.new ≡ self.old) }
        ensures absent { OnErr result (root_word self.old.roots root.now ≡ None) }
    {
        self.roots.set(*root, word)
    }

    // Takes a root away, where there is one.
    fn take_root(&mut self, root: &Ident) -> bool
        ensures answer { result ≡ is_some (root_word self.old.roots root.now) }
        ensures rest { self.new ≡ with_root_dropped self.old root.now }
    {
        self.roots.drop_root(*root)
    }

    /// The root holds the value.
    pub fn set(&mut self, root: &Ident, value: &Input) -> Reply
        requires { IsWritableInput value.now }
        ensures answers { (s : State) → Holds self.old s → Answers s self.new (Set root.now value.now) result }
        ensures heap { self.new.heap ≡ self.old.heap }
    {
        let word = match self.input_word(value) {
            Ok(word) => word,
            Err(why) => return Reply::Refused { why },
        };
        match self.put_root(root, word) {
            Ok(()) => Reply::Done,
            Err(_) => Reply::NoMemory,
        }
    }

    /// The root is taken away, where there is one.
    pub fn drop_root(&mut self, root: &Ident) -> Reply
        ensures answers { (s : State) → Holds self.old s → Answers s self.new (DropRoot root.now) result }
        ensures heap { self.new.heap ≡ self.old.heap }
    {
        if self.take_root(root) {
            Reply::Done
        } else {
            Reply::Refused {
                why: Refusal::NoRoot,
            }
        }
    }

    /// The root holds the word, and its value is told.
    pub fn hand_out(&mut self, root: &Ident, word: u64) -> Reply
        ensures written { (s : State) (value : TheValue) → Holds self.old s → word_value s.heap.place word ≡ Some value → HandsOut s self.new root.now value result }
        ensures accepted { (why : TheRefusal) → result ≢ Refused why }
        ensures heap { self.new.heap ≡ self.old.heap }
    {
        let value = self.value_of_word(word).unwrap_or(Value::Nil);
        match self.put_root(root, word) {
            Ok(()) => Reply::Read { value },
            Err(_) => Reply::NoMemory,
        }
    }

    /// The root holds the value of a field.
    pub fn load<L: Ledger>(
        &mut self,
        root: &Ident,
        object: &Operand,
        index: u64,
        steps: &mut Steps<L>,
    ) -> Reply
        requires { steps.old < 2 ^ 62 }
        ensures answers { (s : State) → Holds self.old s → Answers s self.new (Load root.now object.now index) result }
        ensures heap { self.new.heap ≡ self.old.heap }
        ensures ticked { IsReplyTicked (Load root.now object.now index) result steps.old steps.new }
    {
        let word = match self.read(object, index, steps) {
            Ok(word) => word,
            Err(why) => return Reply::Refused { why },
        };
        self.hand_out(root, word)
    }
}
