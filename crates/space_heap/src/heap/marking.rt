// The calls of a marking.
ghost use Rattle.std.specs.Prelude.{◌≡◌, ◌*◌, true, [], length, IfSome, IfNone};
ghost use Rattle.space_heap.specs.Objects.{is_object};
ghost use Rattle.space_heap.specs.Marking.{colour_of, visited, greyed, blackened, unmarked, IsLastGrey, IsCoherent, HasAtMost};
ghost use Rattle.space_heap.specs.words.SlotPlaces.{IsPlace};

use crate::addresses::{find_slot, slot_of};
use crate::colour::Colour;
use crate::heap::Heap;
use crate::mark_stack::push_grey;
use crate::marks::{marks_of, recolour_slot, unmark_pages};

impl Heap {
    /// How many objects are grey. The clause `coherent` holds of every heap.
    pub fn grey_count(&self) -> u64
        ensures count { result ≡ length self.now.grey }
        ensures coherent { IsCoherent self.now }
    {
        self.grey.len() as u64
    }

    /// The address of the object that became grey last, or `None` where none is grey. The clauses
    /// `coherent` and `most` hold of every heap.
    pub fn last_grey(&self) -> Option<u64>
        ensures none { IfNone result (self.now.grey ≡ []) }
        ensures some { IfSome result (IsLastGrey self.now) }
        ensures coherent { IsCoherent self.now }
        ensures most { HasAtMost self.now (1638 * 4096) }
    {
        self.pools.page_count();
        self.grey.last().copied()
    }

    /// Makes the object that a word names grey, the last of the grey ones, where it is white (the colours are those of CRuby
    /// 3.3). Any other word changes nothing. It takes no memory.
    pub fn grey_if_white(&mut self, word: u64)
        ensures { self.new ≡ visited self.old word }
    {
        let Some((page, slot)) = find_slot(&self.pools, word) else {
            return;
        };
        self.grey_slot_if_white(word, page, slot);
    }

    // The same for a word whose slot was found.
    pub(crate) fn grey_slot_if_white(&mut self, word: u64, page: u32, slot: u32)
        requires { IsPlace self.old word page slot }
        ensures { self.new ≡ visited self.old word }
    {
        self.pools.page_count();
        if !marks_of(&self.marks, page).is_white(slot) {
            return;
        }
        recolour_slot(&mut self.marks, page, slot, Colour::Grey);
        push_grey(&mut self.grey, word);
    }

    /// A white object is grey now, and comes last of the grey ones. It takes no memory.
    pub fn grey(&mut self, address: u64)
        requires object { is_object self.old address ≡ true }
        requires white { colour_of self.old address ≡ Colour.White }
        ensures { self.new ≡ greyed self.old address }
    {
        self.grey_if_white(address);
    }

    /// The object that became grey last is black now.
    pub fn blacken(&mut self, address: u64)
        requires { IsLastGrey self.old address }
        ensures { self.new ≡ blackened self.old address }
    {
        let (page, slot) = slot_of(&self.pools, address);
        recolour_slot(&mut self.marks, page, slot, Colour::Black);
        self.grey.pop();
    }

    /// Takes all marks away: each object, gone or not, is white, and neither remembered nor kept.
    pub fn unmark(&mut self)
        ensures { self.new ≡ unmarked self.old }
    {
        unmark_pages(&mut self.marks);
        self.grey.clear();
    }
}

#[cfg(test)]
mod tests {
    use super::*;
    use space_model::{Guard, Style};
    use std::test::Fail;

    // Whether an object was allocated that has one field.
    fn is_allocated(heap: &mut Heap) -> bool {
        heap.born() < 1 << 40 && heap.place(1, Guard::Protected, Style::Keeping).is_ok()
    }

    // The colour of the object that a word names.
    #[tactic(auto, using(crate::proofs::ObjectLaws::occupied_from_word))]
    fn colour(heap: &Heap, word: u64) -> Option<Colour> {
        match heap.object_at(word) {
            Some(address) => Some(heap.colour(address)),
            None => None,
        }
    }

    #[test]
    fn the_object_that_became_grey_last_becomes_black_first(rt: HostRuntime) -> Result<(), Fail> {
        let mut heap = Heap::new(rt.alloc(), 1)?;
        assert!(rt; heap.add_page(0) == Ok(0));
        assert!(rt; is_allocated(&mut heap) && is_allocated(&mut heap) && is_allocated(&mut heap));
        for word in [0x10050, 0x10000, 0x10029, 0x10050] {
            heap.grey_if_white(word);
        }
        assert!(rt; heap.grey_count() == 2 && heap.last_grey() == Some(0x10000));
        if let Some(address) = heap.last_grey() {
            heap.blacken(address);
        }
        assert!(rt; heap.grey_count() == 1 && heap.last_grey() == Some(0x10050));
        assert!(rt; colour(&heap, 0x10000) == Some(Colour::Black));
        assert!(rt; colour(&heap, 0x10028) == Some(Colour::White));
        assert!(rt; colour(&heap, 0x10050) == Some(Colour::Grey));
        heap.unmark();
        assert!(rt; heap.grey_count() == 0 && heap.last_grey().is_none());
        for word in [0x10000, 0x10028, 0x10050] {
            assert!(rt; colour(&heap, word) == Some(Colour::White));
        }
        Ok(())
    }
}
