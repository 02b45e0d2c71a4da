// The commands on weak maps.
ghost use Rattle.std.specs.Prelude.{◌≡◌};
ghost use Rattle.space_model.specs.declared.command.Command.TheVariants.{WeakSet, WeakGet, WeakKey, WeakSize, WeakDelete};
ghost use Rattle.space_model.specs.State.{State};
ghost use Rattle.space_engine.specs.Stands.{Holds};
ghost use Rattle.space_engine.specs.Steps.{Answers};

use super::Engine;
use crate::refusals::both;
use space_model::{Ident, Operand, Reply};

impl Engine {
    /// The key has the value in the map.
    pub fn weak_set(&mut self, weak: &Ident, key: &Operand, value: &Operand) -> Reply
        ensures answers { (s : State) → Holds self.old s → Answers s self.new (WeakSet weak.now key.now value.now) result }
        ensures heap { self.new.heap ≡ self.old.heap }
    {
        let (key, value) = match both(self.address_of(key), self.address_of(value)) {
            Ok(addresses) => addresses,
            Err(why) => return Reply::Refused { why },
        };
        let key_name = self.heap.name(key);
        let value_name = self.heap.name(value);
        match self.weak.set(*weak, key_name, key, value_name, value) {
            Ok(()) => Reply::Done,
            Err(_) => Reply::NoMemory,
        }
    }

    /// The root holds the value of the key in the map, or nil where it has none.
    pub fn weak_get(&mut self, root: &Ident, weak: &Ident, key: &Operand) -> Reply
        ensures answers { (s : State) → Holds self.old s → Answers s self.new (WeakGet root.now weak.now key.now) result }
        ensures heap { self.new.heap ≡ self.old.heap }
    {
        let key = match self.address_of(key) {
            Ok(key) => key,
            Err(why) => return Reply::Refused { why },
        };
        match self.weak.get(*weak, self.heap.name(key)) {
            Some(kept) => {
                let word = self.heap.resolve(kept);
                self.hand_out(root, word)
            }
            None => self.hand_out(root, 0),
        }
    }

    /// Tells whether the key has a value in the map.
    pub fn weak_key(&self, weak: &Ident, key: &Operand) -> Reply
        ensures answers { (s : State) → Holds self.now s → Answers s self.now (WeakKey weak.now key.now) result }
    {
        match self.address_of(key) {
            Ok(key) => Reply::Truth {
                yes: self.weak.has(*weak, self.heap.name(key)),
            },
            Err(why) => Reply::Refused { why },
        }
    }

    /// Tells how many entries the map has.
    pub fn weak_size(&self, weak: &Ident) -> Reply
        ensures answers { (s : State) → Holds self.now s → Answers s self.now (WeakSize weak.now) result }
    {
        Reply::Number {
            number: self.weak.size(*weak),
        }
    }

    /// The key has no value in the map any more; tells whether it had one.
    pub fn weak_delete(&mut self, weak: &Ident, key: &Operand) -> Reply
        ensures answers { (s : State) → Holds self.old s → Answers s self.new (WeakDelete weak.now key.now) result }
        ensures heap { self.new.heap ≡ self.old.heap }
    {
        match self.address_of(key) {
            Ok(key) => Reply::Truth {
                yes: self.weak.delete(*weak, self.heap.name(key)),
            },
            Err(why) => Reply::Refused { why },
        }
    }
}
