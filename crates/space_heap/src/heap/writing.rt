// Writes of fields.
ghost use Rattle.std.specs.Prelude.{◌≡◌, ◌<◌, true, length};
ghost use Rattle.space_heap.specs.Objects.{is_occupied, object_of, written};

use crate::addresses::slot_of;
use crate::heap::Heap;
use crate::object_words::write_field;

impl Heap {
    /// Writes the word of one field of the object. Nothing else changes.
    pub fn write_word(&mut self, address: u64, i: u64, word: u64)
        requires object { is_occupied self.old address ≡ true }
        requires field { i < length (object_of self.old address).fields }
        ensures { self.new ≡ written self.old address i word }
    {
        let (page, slot) = slot_of(&self.pools, address);
        write_field(&mut self.pools, page, slot, i, word);
    }
}
