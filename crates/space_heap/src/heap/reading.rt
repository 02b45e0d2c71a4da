// What is read of the objects.
ghost use Rattle.std.specs.Prelude.{◌≡◌, ◌<◌, ◌≤◌, ◌+◌, ◌^◌, true, if◌then◌else◌, Some, None, length, slice_index_or, MatchOption};
ghost use Rattle.space_heap.specs.Objects.{is_occupied, is_object, object_of, resolved};
ghost use Rattle.space_heap.specs.planes.MarkPlanes.{traits_of};
ghost use Rattle.space_heap.specs.Readings.{reading_of, IsReadWhole, IsNextField};
ghost use Rattle.space_heap.specs.words.Shown.{IsShownBy, IsWordOf};

use crate::addresses::{find_slot, slot_of, word_of};
use crate::colour::Colour;
use crate::heap::Heap;
use crate::marks::{Traits, marks_of};
use crate::object_words::style_in;
use space_model::{Guard, Ledger, MOST_FIELDS, Steps, Style};
use std::marker::Model;

/// A reading of the fields of one object, each once, in their order. Its step was taken when it began.
#[derive(Drop)]
pub struct FieldReader {
    address: u64,
    done: u64,
    count: u64,
}

impl Model for FieldReader {
    ghost use Rattle.std.specs.Prelude.{◌≤◌};
    ghost use Rattle.space_heap.specs.Readings.{Reading};

    ghost Value = { Reading };

    ghost view = { λ r. record { address = r.address; done = r.done; count = r.count } };

    ghost invariant = { λ r. (r.done ≤ r.count) × (r.count ≤ 78) };
}

impl Heap {
    /// The word itself where it names an object: one that isn't gone stands at this address. No word
    /// into the middle of a slot names one (conservative marking of CRuby 3.3).
    pub fn object_at(&self, word: u64) -> Option<u64>
        ensures { result ≡ (if is_object self.now word then Some word else None) }
    {
        match find_slot(&self.pools, word) {
            Some((page, slot)) => {
                if marks_of(&self.marks, page).is_present(slot) {
                    Some(word)
                } else {
                    None
                }
            }
            None => None,
        }
    }

    /// Whether the word names an object.
    pub fn is_object(&self, word: u64) -> bool
        ensures { result ≡ is_object self.now word }
    {
        match self.object_at(word) {
            Some(_) => true,
            None => false,
        }
    }

    // What the planes tell of the object at an address.
    fn traits(&self, address: u64) -> Traits
        requires { is_occupied self.now address ≡ true }
        ensures traits { result ≡ traits_of (object_of self.now address) }
        ensures most { result.age ≤ 3 }
    {
        let (page, slot) = slot_of(&self.pools, address);
        marks_of(&self.marks, page).traits(slot)
    }

    // The words of the object at an address.
    fn words(&self, address: u64) -> &[u64]
        requires { is_occupied self.now address ≡ true }
        ensures shown { IsShownBy (object_of self.now address) result.now }
        ensures most { length result.now ≤ 80 }
    {
        let (page, slot) = slot_of(&self.pools, address);
        self.pools.slot(page, slot)
    }

    // One of the words of the object at an address: those of its first word, its name and its fields.
    fn word(&self, address: u64, k: u64) -> u64
        requires object { is_occupied self.now address ≡ true }
        requires within { k < 2 + length (object_of self.now address).fields }
        ensures word { IsWordOf (object_of self.now address) k result }
        ensures few { length (object_of self.now address).fields ≤ MOST_FIELDS }
    {
        word_of(&self.pools, address, k)
    }

    /// The name of the object at an address, gone or not.
    pub fn name(&self, address: u64) -> u64
        requires { is_occupied self.now address ≡ true }
        ensures { result ≡ (object_of self.now address).name }
    {
        self.word(address, 1)
    }

    /// Its style: how it marks its children.
    pub fn style(&self, address: u64) -> Style
        requires { is_occupied self.now address ≡ true }
        ensures { result ≡ (object_of self.now address).style }
    {
        style_in(self.word(address, 0))
    }

    /// How many fields it has.
    pub fn field_count(&self, address: u64) -> u64
        requires { is_occupied self.now address ≡ true }
        ensures count { result ≡ length (object_of self.now address).fields }
        ensures few { result ≤ MOST_FIELDS }
    {
        self.word(address, 0) / 256
    }

    /// Its guard: whether stores into it go through the write barrier.
    pub fn guard(&self, address: u64) -> Guard
        requires { is_occupied self.now address ≡ true }
        ensures { result ≡ (object_of self.now address).guard }
    {
        self.traits(address).guard
    }

    /// Its colour: how far a marking has come with it.
    pub fn colour(&self, address: u64) -> Colour
        requires { is_occupied self.now address ≡ true }
        ensures { result ≡ (object_of self.now address).colour }
    {
        self.traits(address).colour
    }

    /// Its age; it is old at 3 (CRuby 3.3).
    pub fn age(&self, address: u64) -> u8
        requires { is_occupied self.now address ≡ true }
        ensures age { result ≡ (object_of self.now address).age }
        ensures most { result ≤ 3 }
    {
        self.traits(address).age
    }

    /// Whether it is remembered: a minor marking reads its fields (CRuby 3.3).
    pub fn remembered(&self, address: u64) -> bool
        requires { is_occupied self.now address ≡ true }
        ensures { result ≡ (object_of self.now address).remembered }
    {
        self.traits(address).remembered
    }

    /// Whether it is kept: no minor verdict takes it (the uncollectible objects of CRuby 3.3).
    pub fn kept(&self, address: u64) -> bool
        requires { is_occupied self.now address ≡ true }
        ensures { result ≡ (object_of self.now address).kept }
    {
        self.traits(address).kept
    }

    /// Whether it is pinned: no compaction moves it (CRuby 3.3).
    pub fn pinned(&self, address: u64) -> bool
        requires { is_occupied self.now address ≡ true }
        ensures { result ≡ (object_of self.now address).pinned }
    {
        self.traits(address).pinned
    }

    /// Whether it is gone: a verdict took it, and its page wasn't swept since.
    pub fn gone(&self, address: u64) -> bool
        requires { is_occupied self.now address ≡ true }
        ensures { result ≡ (object_of self.now address).gone }
    {
        self.traits(address).gone
    }

    /// The new address of the object that was moved from this one (`T_MOVED` of CRuby 3.3); any other
    /// word stays.
    pub fn resolve(&self, word: u64) -> u64
        ensures { result ≡ resolved self.now word }
    {
        match find_slot(&self.pools, word) {
            Some((page, slot)) => {
                if marks_of(&self.marks, page).is_moved(slot) {
                    self.pools.slot(page, slot)[1]
                } else {
                    word
                }
            }
            None => word,
        }
    }

    /// The words of the object's fields, in one step. Fields are read by this call, by `field`, and one after another by
    /// `next_field` after `read_fields`.
    pub fn children<L: Ledger>(&self, address: u64, steps: &mut Steps<L>) -> &[u64]
        requires object { is_occupied self.now address ≡ true }
        requires ticks { steps.old + 1 < 2 ^ 64 }
        ensures words { result.now ≡ (object_of self.now address).fields }
        ensures few { length result.now ≤ MOST_FIELDS }
        ensures tick { steps.new ≡ steps.old + 1 }
    {
        let count = self.read_fields(address, steps).count;
        &self.words(address)[2..2 + count as usize]
    }

    /// The word of one field of the object, in one step; where it is the address that an object
    /// left, it is the object's new address.
    pub fn field<L: Ledger>(&self, address: u64, i: u64, steps: &mut Steps<L>) -> u64
        requires object { is_occupied self.now address ≡ true }
        requires field { i < length (object_of self.now address).fields }
        requires ticks { steps.old + 1 < 2 ^ 64 }
        ensures value { result ≡ resolved self.now (slice_index_or (object_of self.now address).fields i 0) }
        ensures tick { steps.new ≡ steps.old + 1 }
    {
        let word = self.children(address, steps)[i as usize];
        self.resolve(word)
    }

    /// Begins a reading of the object's fields, in one step. `next_field` reads them.
    pub fn read_fields<L: Ledger>(&self, address: u64, steps: &mut Steps<L>) -> FieldReader
        requires object { is_occupied self.now address ≡ true }
        requires ticks { steps.old + 1 < 2 ^ 64 }
        ensures begins { result ≡ reading_of self.now address }
        ensures tick { steps.new ≡ steps.old + 1 }
    {
        steps.tick();
        FieldReader {
            address,
            done: 0,
            count: self.field_count(address),
        }
    }

    /// The word of the next field of a reading, or `None` where each was read. The heap may change between two
    /// fields, as long as an object with so many fields stands there.
    pub fn next_field(&self, reader: &mut FieldReader) -> Option<u64>
        requires object { is_occupied self.now reader.old.address ≡ true }
        requires fields { length (object_of self.now reader.old.address).fields ≡ reader.old.count }
        ensures { MatchOption result (IsReadWhole reader.old reader.new) (IsNextField self.now reader.old reader.new) }
    {
        if reader.done == reader.count {
            return None;
        }
        let word = self.word(reader.address, 2 + reader.done);
        reader.done += 1;
        Some(word)
    }
}

#[cfg(test)]
mod tests {
    use super::*;
    use crate::heap::Made;
    use std::test::Fail;

    // An object with so many fields, if there may be one more.
    fn allocate_with(heap: &mut Heap, fields: u64) -> Option<Made>
        requires { fields ≤ MOST_FIELDS }
    {
        if heap.born() >= 1 << 40 {
            return None;
        }
        match heap.place(fields, Guard::Protected, Style::Keeping) {
            Ok(made) => Some(made),
            Err(_) => None,
        }
    }

    #[tactic(auto, using(crate::proofs::ObjectLaws::occupied_from_word))]
    #[test]
    fn a_new_object_has_the_marks_of_a_new_one(rt: HostRuntime) -> Result<(), Fail> {
        let mut heap = Heap::new(rt.alloc(), 1)?;
        assert!(rt; heap.add_page(0) == Ok(0) && allocate_with(&mut heap, 2).is_some());
        if let Some(a) = heap.object_at(0x10000) {
            assert!(rt; heap.name(a) == 1 && heap.field_count(a) == 2 && heap.age(a) == 0);
            assert!(rt; heap.style(a) == Style::Keeping && heap.guard(a) == Guard::Protected);
            assert!(rt; heap.colour(a) == Colour::White && !heap.gone(a) && !heap.pinned(a));
            assert!(rt; !heap.remembered(a) && !heap.kept(a));
        }
        Ok(())
    }
}
