// What operands stand for: words, names and values.
ghost use Rattle.std.specs.Prelude.{◌≡◌, ◌<◌, ◌≤◌, ◌+◌, ◌^◌, true, length, IfOk, MatchResult};
ghost use Rattle.space_model.specs.RootCommands.{field_value};
ghost use Rattle.space_model.specs.Operands.{input_value, named_by, operand_value, word_value};
ghost use Rattle.space_model.specs.CommandTexts.{IsWritableInput};
ghost use Rattle.space_model.specs.State.{State};
ghost use Rattle.space_heap.specs.Objects.{is_occupied, is_object, object_of};
ghost use Rattle.space_engine.specs.Stands.{Holds};
ghost use Rattle.space_engine.specs.Words.{operand_word, word_result, owner_of_field, field_word};

use super::Engine;
use space_model::{Input, Ledger, Operand, Refusal, Steps, Value, small_of, small_word};

impl Engine {
    /// The name of the object that stands at this address, if one does.
    #[inline(always)]
    pub fn name_of(&self, word: u64) -> Option<u64>
        ensures { (s : State) → Holds self.now s → result ≡ named_by s.heap.place word }
    {
        match self.heap.object_at(word) {
            Some(address) => Some(self.heap.name(address)),
            None => None,
        }
    }

    /// The value of a word, where it has one.
    #[inline(always)]
    pub fn value_of_word(&self, word: u64) -> Option<Value>
        ensures { (s : State) → Holds self.now s → result ≡ word_value s.heap.place word }
    {
        if word == 0 {
            return Some(Value::Nil);
        }
        if let Some(number) = small_of(word) {
            return Some(Value::Small(number));
        }
        let name = self.name_of(word)?;
        Some(Value::Name(name))
    }

    // The word of an operand; that of a root is resolved.
    fn word_at(&self, operand: &Operand) -> Result<u64, Refusal>
        ensures { result ≡ operand_word self.now operand.now }
    {
        match operand {
            Operand::Root(name) => match self.roots.get(*name) {
                Some(word) => Ok(self.heap.resolve(word)),
                None => Err(Refusal::NoRoot),
            },
            Operand::Word(k) => self.stack.word_at(*k).ok_or(Refusal::NoWord),
        }
    }

    /// The value of an operand.
    pub fn value_of(&self, operand: &Operand) -> Result<Value, Refusal>
        ensures { (s : State) → Holds self.now s → result ≡ operand_value s operand.now }
    {
        let word = self.word_at(operand)?;
        self.value_of_word(word).ok_or(Refusal::NotObject)
    }

    /// The word of the value of an operand.
    pub fn word_of(&self, operand: &Operand) -> Result<u64, Refusal>
        ensures { (s : State) → Holds self.now s → result ≡ word_result s.heap.place (operand_value s operand.now) }
    {
        let word = self.word_at(operand)?;
        match self.value_of_word(word) {
            Some(_) => Ok(word),
            None => Err(Refusal::NotObject),
        }
    }

    /// The word of the value that a command is given.
    pub fn input_word(&self, input: &Input) -> Result<u64, Refusal>
        requires { IsWritableInput input.now }
        ensures { (s : State) → Holds self.now s → result ≡ word_result s.heap.place (input_value s input.now) }
    {
        match input {
            Input::From(operand) => self.word_of(operand),
            Input::Nil => Ok(0),
            Input::Small(number) => Ok(small_word(*number)),
        }
    }

    /// The address of the object that the word names, where it has this field.
    #[inline(always)]
    pub fn owner_of(&self, word: u64, index: u64) -> Result<u64, Refusal>
        ensures owner { result ≡ owner_of_field self.now.heap word index }
        ensures there { IfOk result (λ address. is_occupied self.now.heap address ≡ true) }
        ensures object { IfOk result (λ address. is_object self.now.heap address ≡ true) }
        ensures field { IfOk result (λ address. index < length (object_of self.now.heap address).fields) }
    {
        match self.heap.object_at(word) {
            Some(address) => {
                if index < self.heap.field_count(address) {
                    Ok(address)
                } else {
                    Err(Refusal::NoField)
                }
            }
            None => Err(Refusal::NotObject),
        }
    }

    // The word of a field of the object that the word names.
    fn field_of<L: Ledger>(
        &self,
        word: u64,
        index: u64,
        steps: &mut Steps<L>,
    ) -> Result<u64, Refusal>
        requires { steps.old < 2 ^ 62 }
        ensures word { result ≡ field_word self.now.heap word index }
        ensures ticked { MatchResult result (λ _. steps.new ≡ steps.old + 1) (λ _. steps.new ≡ steps.old) }
    {
        let address = self.owner_of(word, index)?;
        Ok(self.heap.field(address, index, steps))
    }

    /// The word of a field of an operand's object.
    pub fn read<L: Ledger>(
        &self,
        object: &Operand,
        index: u64,
        steps: &mut Steps<L>,
    ) -> Result<u64, Refusal>
        requires { steps.old < 2 ^ 62 }
        ensures word { (s : State) → Holds self.now s → result ≡ word_result s.heap.place (field_value s.graph (operand_value s object.now) index) }
        ensures ticked { MatchResult result (λ _. steps.new ≡ steps.old + 1) (λ _. steps.new ≡ steps.old) }
    {
        let word = self.word_of(object)?;
        self.field_of(word, index, steps)
    }
}
