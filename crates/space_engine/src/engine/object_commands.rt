// The commands that write and compare objects.
ghost use Rattle.std.specs.Prelude.{◌≡◌, ◌<◌, true, false, length, IfOk};
ghost use Rattle.space_model.specs.declared.command.Command.TheVariants.{Store, RawStore, Unprotect};
ghost use Rattle.space_model.specs.ObjectCommands.{written_field, raw_written_field, same_reply};
ghost use Rattle.space_model.specs.Operands.{operand_value, input_value, object_in};
ghost use Rattle.space_model.specs.Refusals.{and_then, both as both_results};
ghost use Rattle.space_model.specs.CommandTexts.{IsWritableInput};
ghost use Rattle.space_model.specs.State.{State};
ghost use Rattle.space_heap.specs.Objects.{is_object, object_of};
ghost use Rattle.space_heap.specs.Generations.{is_protected_at};
ghost use Rattle.space_engine.specs.Stands.{Holds};
ghost use Rattle.space_engine.specs.Steps.{Answers};
ghost use Rattle.space_engine.specs.Turns.{IsOneTurn};
ghost use Rattle.space_engine.specs.Views.{with_field, with_raw_field, with_unprotected};
ghost use Rattle.space_engine.specs.Words.{named_address, written_words};

use super::Engine;
use crate::refusals::{both, is_same};
use space_barrier::{raw_store, store, unprotect};
use space_model::{Guard, Input, Operand, Refusal, Reply};

impl Engine {
    // The address of the object whose field a store writes, and the word that it gets.
    #[inline(always)]
    fn write_place(
        &self,
        object: &Operand,
        index: u64,
        value: &Input,
    ) -> Result<(u64, u64), Refusal>
        requires { IsWritableInput value.now }
        ensures written { (s : State) → Holds self.now s → result ≡ written_words s.heap.place (written_field s.graph (operand_value s object.now) index (input_value s value.now)) }
        ensures there { IfOk result (λ written. is_object self.now.heap written.0 ≡ true) }
        ensures field { IfOk result (λ written. index < length (object_of self.now.heap written.0).fields) }
    {
        let (object, word) = both(self.word_of(object), self.input_word(value))?;
        let address = self.owner_of(object, index)?;
        Ok((address, word))
    }

    // The same, where the write barrier doesn't protect the object.
    fn raw_write_place(
        &self,
        object: &Operand,
        index: u64,
        value: &Input,
    ) -> Result<(u64, u64), Refusal>
        requires { IsWritableInput value.now }
        ensures written { (s : State) → Holds self.now s → result ≡ written_words s.heap.place (raw_written_field s.graph (operand_value s object.now) index (input_value s value.now)) }
        ensures there { IfOk result (λ written. is_object self.now.heap written.0 ≡ true) }
        ensures unprotected { IfOk result (λ written. is_protected_at self.now.heap written.0 ≡ false) }
        ensures field { IfOk result (λ written. index < length (object_of self.now.heap written.0).fields) }
    {
        let (address, word) = self.write_place(object, index, value)?;
        match self.heap.guard(address) {
            Guard::Protected => Err(Refusal::Protected),
            Guard::Unprotected => Ok((address, word)),
        }
    }

    /// The address of the object of an operand.
    pub fn address_of(&self, object: &Operand) -> Result<u64, Refusal>
        ensures address { (s : State) → Holds self.now s → result ≡ named_address s.heap.place (and_then (operand_value s object.now) object_in) }
        ensures there { IfOk result (λ address. is_object self.now.heap address ≡ true) }
    {
        let word = self.word_of(object)?;
        self.heap.object_at(word).ok_or(Refusal::NotObject)
    }

    // Writes the word of a field of the object at this address, with the write barrier.
    fn put_field(&mut self, address: u64, index: u64, word: u64)
        requires there { is_object self.old.heap address ≡ true }
        requires field { index < length (object_of self.old.heap address).fields }
        ensures { self.new ≡ with_field self.old address index word }
    {
        store(&mut self.heap, address, index, word);
    }

    // Writes the word of a field of the object at this address, which the write barrier doesn't protect.
    fn put_raw_field(&mut self, address: u64, index: u64, word: u64)
        requires there { is_object self.old.heap address ≡ true }
        requires unprotected { is_protected_at self.old.heap address ≡ false }
        requires field { index < length (object_of self.old.heap address).fields }
        ensures { self.new ≡ with_raw_field self.old address index word }
    {
        raw_store(&mut self.heap, address, index, word);
    }

    // The write barrier protects the object at this address no more.
    fn put_unprotected(&mut self, address: u64)
        requires { is_object self.old.heap address ≡ true }
        ensures { self.new ≡ with_unprotected self.old address }
    {
        unprotect(&mut self.heap, address);
    }

    /// A field of the object holds the value.
    pub fn store(&mut self, object: &Operand, index: u64, value: &Input) -> Reply
        requires { IsWritableInput value.now }
        ensures answers { (s : State) → Holds self.old s → Answers s self.new (Store object.now index value.now) result }
        ensures turn { IsOneTurn self.old.heap self.new.heap }
    {
        match self.write_place(object, index, value) {
            Ok((address, word)) => {
                self.put_field(address, index, word);
                Reply::Done
            }
            Err(why) => Reply::Refused { why },
        }
    }

    /// A field of an object that the write barrier doesn't protect holds the value.
    pub fn raw_store(&mut self, object: &Operand, index: u64, value: &Input) -> Reply
        requires { IsWritableInput value.now }
        ensures answers { (s : State) → Holds self.old s → Answers s self.new (RawStore object.now index value.now) result }
        ensures turn { IsOneTurn self.old.heap self.new.heap }
    {
        match self.raw_write_place(object, index, value) {
            Ok((address, word)) => {
                self.put_raw_field(address, index, word);
                Reply::Done
            }
            Err(why) => Reply::Refused { why },
        }
    }

    /// The write barrier protects the object no more.
    pub fn unprotect(&mut self, object: &Operand) -> Reply
        ensures answers { (s : State) → Holds self.old s → Answers s self.new (Unprotect object.now) result }
        ensures turn { IsOneTurn self.old.heap self.new.heap }
    {
        match self.address_of(object) {
            Ok(address) => {
                self.put_unprotected(address);
                Reply::Done
            }
            Err(why) => Reply::Refused { why },
        }
    }

    /// Tells whether two values are one.
    pub fn compare(&self, left: &Operand, right: &Operand) -> Reply
        ensures { (s : State) → Holds self.now s → result ≡ same_reply (both_results (operand_value s left.now) (operand_value s right.now)) }
    {
        match both(self.value_of(left), self.value_of(right)) {
            Ok((a, b)) => Reply::Truth { yes: is_same(a, b) },
            Err(why) => Reply::Refused { why },
        }
    }
}
