// The calls of the generations.
ghost use Rattle.std.specs.Prelude.{◌≡◌, true};
ghost use Rattle.space_heap.specs.Objects.{is_occupied};
ghost use Rattle.space_heap.specs.Generations.{remembered_as, kept_at, unprotected_at, old_marked, visited_by_aged, is_young_word};
ghost use Rattle.space_heap.specs.words.SlotPlaces.{IsPlace};

use crate::addresses::{find_slot, slot_of};
use crate::heap::Heap;
use crate::marks::{keep_slot, mark_old_pages, marks_of, remember_slot, unprotect_slot};
use space_model::Guard;

impl Heap {
    /// The object is remembered from now on, or isn't any more (CRuby 3.3). Nothing else changes.
    pub fn remember(&mut self, address: u64, remembered: bool)
        requires { is_occupied self.old address ≡ true }
        ensures { self.new ≡ remembered_as self.old address remembered }
    {
        let (page, slot) = slot_of(&self.pools, address);
        remember_slot(&mut self.marks, page, slot, remembered);
    }

    /// The object is kept from now on: no minor verdict takes it (the uncollectible objects of CRuby 3.3). Nothing else
    /// changes.
    pub fn keep(&mut self, address: u64)
        requires { is_occupied self.old address ≡ true }
        ensures { self.new ≡ kept_at self.old address }
    {
        let (page, slot) = slot_of(&self.pools, address);
        self.keep_in_slot(address, page, slot);
    }

    // The same for an object whose slot was found.
    fn keep_in_slot(&mut self, address: u64, page: u32, slot: u32)
        requires object { is_occupied self.old address ≡ true }
        requires place { IsPlace self.old address page slot }
        ensures { self.new ≡ kept_at self.old address }
    {
        keep_slot(&mut self.marks, page, slot);
    }

    /// Visits a word that a field of an object of age 2 or more has: a white object that it names is grey then, the last of the
    /// grey ones, and an unprotected one is kept. The answer is whether it names a protected object of age 0 or 1 (CRuby 3.3).
    /// It takes no memory, and finds the slot of the word once.
    pub fn visit_from_aged(&mut self, word: u64) -> bool
        ensures visited { self.new ≡ visited_by_aged self.old word }
        ensures young { result ≡ is_young_word self.old word }
    {
        let Some((page, slot)) = find_slot(&self.pools, word) else {
            return false;
        };
        let marks = marks_of(&self.marks, page);
        if !marks.is_present(slot) {
            return false;
        }
        let traits = marks.traits(slot);
        self.grey_slot_if_white(word, page, slot);
        match traits.guard {
            Guard::Protected => traits.age < 2,
            Guard::Unprotected => {
                self.keep_in_slot(word, page, slot);
                false
            }
        }
    }

    /// The write barrier doesn't protect the object from now on: it has age 0, and isn't remembered (CRuby 3.3). Nothing
    /// else changes.
    pub fn make_unprotected(&mut self, address: u64)
        requires { is_occupied self.old address ≡ true }
        ensures { self.new ≡ unprotected_at self.old address }
    {
        let (page, slot) = slot_of(&self.pools, address);
        unprotect_slot(&mut self.marks, page, slot);
    }

    /// Begins a minor marking: old and kept objects are black, all others are white, and nothing is grey (CRuby 3.3).
    pub fn mark_old(&mut self)
        ensures { self.new ≡ old_marked self.old }
    {
        mark_old_pages(&mut self.marks);
        self.grey.clear();
    }
}

#[cfg(test)]
mod tests {
    use super::*;
    use crate::colour::Colour;
    use space_model::Style;
    use std::test::Fail;

    // Whether an object was allocated.
    fn is_allocated(heap: &mut Heap) -> bool {
        heap.born() < 1 << 40 && heap.place(0, Guard::Protected, Style::Keeping).is_ok()
    }

    // Keeps the object that an address names, and remembers it.
    #[tactic(auto, using(crate::proofs::ObjectLaws::occupied_from_object))]
    fn note(heap: &mut Heap, address: u64) {
        if heap.is_object(address) {
            heap.keep(address);
        }
        if heap.is_object(address) {
            heap.remember(address, true);
        }
    }

    // Whether an address names an object that is black.
    #[tactic(auto, using(crate::proofs::ObjectLaws::occupied_from_object))]
    fn is_black(heap: &Heap, address: u64) -> bool {
        heap.is_object(address) && heap.colour(address) == Colour::Black
    }

    #[test]
    fn a_minor_marking_begins_with_what_is_kept(rt: HostRuntime) -> Result<(), Fail> {
        let mut heap = Heap::new(rt.alloc(), 1)?;
        assert!(rt; heap.add_page(0) == Ok(0));
        assert!(rt; is_allocated(&mut heap) && is_allocated(&mut heap) && is_allocated(&mut heap));
        note(&mut heap, 0x10028);
        heap.mark_old();
        assert!(rt;
            !is_black(&heap, 0x10000) && is_black(&heap, 0x10028) && !is_black(&heap, 0x10050)
        );
        assert!(rt; heap.next_minor_scan(0) == Some(0x10028));
        assert!(rt; heap.next_minor_scan(0x10029).is_none());
        heap.unmark();
        assert!(rt; !is_black(&heap, 0x10028) && heap.next_minor_scan(0).is_none());
        Ok(())
    }
}
