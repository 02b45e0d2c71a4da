// The commands on object ids.
ghost use Rattle.std.specs.Prelude.{◌≡◌, false, nat_eq, IfOk, OnOk, OnErr};
ghost use Rattle.std.specs.Set.{is_member};
ghost use Rattle.space_model.specs.declared.command.Command.TheVariants.{Id, ById};
ghost use Rattle.space_model.specs.State.{State};
ghost use Rattle.space_ids.specs.GivenIds.{names_in, IsIdOf};
ghost use Rattle.space_engine.specs.Stands.{Holds};
ghost use Rattle.space_engine.specs.Steps.{Answers};
ghost use Rattle.space_engine.specs.Views.{with_given_id};

use super::Engine;
use space_ids::Found;
use space_model::{Ident, Operand, Refusal, Reply};
use std::alloc::AllocError as NoMemory;

impl Engine {
    // The id of the name, whose object stands at this address; a new one may need memory. An `Err` changes nothing.
    fn give_id(&mut self, name: u64, address: u64) -> Result<u64, NoMemory>
        ensures id { IfOk result (IsIdOf self.new.ids name) }
        ensures ok { OnOk result (self.new ≡ with_given_id self.old name address) }
        ensures err { OnErr result (self.new ≡ self.old) }
        ensures absent { OnErr result (is_member nat_eq (names_in self.old.ids) name ≡ false) }
    {
        self.ids.id_of(name, address)
    }

    /// Tells the id of the object, which is given when it is first asked for.
    pub fn id(&mut self, object: &Operand) -> Reply
        ensures answers { (s : State) → Holds self.old s → Answers s self.new (Id object.now) result }
        ensures heap { self.new.heap ≡ self.old.heap }
    {
        let address = match self.address_of(object) {
            Ok(address) => address,
            Err(why) => return Reply::Refused { why },
        };
        let name = self.heap.name(address);
        match self.give_id(name, address) {
            Ok(number) => Reply::Number { number },
            Err(_) => Reply::NoMemory,
        }
    }

    /// The root holds the object that has the id, unless it is gone or the id was never given.
    pub fn by_id(&mut self, root: &Ident, id: u64) -> Reply
        ensures answers { (s : State) → Holds self.old s → Answers s self.new (ById root.now id) result }
        ensures heap { self.new.heap ≡ self.old.heap }
    {
        match self.ids.find(id) {
            Found::Never => Reply::Refused { why: Refusal::NoId },
            Found::Gone => Reply::GoneId,
            Found::Here(kept) => {
                let address = self.heap.resolve(kept);
                self.hand_out(root, address)
            }
        }
    }
}
