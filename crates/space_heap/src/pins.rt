// The pins of the objects of a page, and the last of its objects that can be moved.
ghost use Rattle.std.specs.Prelude.{◌≡◌, ◌<◌, length, map, slice_set, vec_capacity, MatchOption};
ghost use Rattle.space_heap.specs.planes.MarkPlanes.{AreWide, marks_at};
ghost use Rattle.space_heap.specs.planes.PinnedMarks.{pinned_marks, unpinned_marks, is_movable_slot};
ghost use Rattle.space_heap.specs.LastBelow.{HasNoneBelow, IsLast};

use crate::marks::Marks;

// Pins the object of a slot of a page.
pub fn pin_slot(marks: &mut Vec<Marks>, page: u32, slot: u32)
    requires there { page < length marks.old.items }
    requires wide { AreWide (marks_at marks.old.items page) (length (marks_at marks.old.items page).object) }
    requires within { slot < length (marks_at marks.old.items page).object }
    ensures items { marks.new.items ≡ slice_set marks.old.items page (pinned_marks (marks_at marks.old.items page) slot) }
    ensures room { vec_capacity marks.new ≡ vec_capacity marks.old }
{
    marks[page as usize].pin(slot);
}

// Takes the pins of all objects away.
pub fn unpin_pages(marks: &mut Vec<Marks>)
    ensures items { marks.new.items ≡ map unpinned_marks marks.old.items }
    ensures room { vec_capacity marks.new ≡ vec_capacity marks.old }
{
    for page in 0..marks.len() {
        marks[page].unpin();
    }
}

impl Marks {
    // Pins the object of the slot.
    fn pin(&mut self, s: u32)
        requires wide { AreWide self.old (length self.old.object) }
        requires within { s < length self.old.object }
        ensures { self.new ≡ pinned_marks self.old s }
    {
        self.pinned.set(s);
    }

    // Takes all pins away.
    fn unpin(&mut self)
        ensures { self.new ≡ unpinned_marks self.old }
    {
        self.pinned.fill(false);
    }

    // Whether the slot holds an object that isn't gone and isn't pinned.
    fn is_movable(&self, s: u32) -> bool
        requires wide { AreWide self.now (length self.now.object) }
        requires within { s < length self.now.object }
        ensures { result ≡ is_movable_slot self.now s }
    {
        self.is_present(s) && !self.pinned.get(s)
    }

    // The last slot below `end` that holds an object that isn't gone and isn't pinned.
    pub fn last_movable(&self, end: u32) -> Option<u32>
        requires { AreWide self.now (length self.now.object) }
        ensures { MatchOption result (HasNoneBelow (is_movable_slot self.now) end) (IsLast (is_movable_slot self.now) end) }
    {
        let mut at = end;
        'slots: while at > 0 {
            let Some(slot) = self.object.last_set_below(at) else {
                return None;
            };
            if self.is_movable(slot) {
                return Some(slot);
            }
            at = slot;
        }
        None
    }
}

#[cfg(test)]
mod tests {
    use crate::heap::Heap;
    use space_model::{Guard, Style};
    use std::test::Fail;

    // Whether an object was allocated that has one field.
    fn is_allocated(heap: &mut Heap) -> bool {
        heap.born() < 1 << 40 && heap.place(1, Guard::Protected, Style::Keeping).is_ok()
    }

    // Pins the object that an address names.
    fn pin(heap: &mut Heap, address: u64) {
        if heap.is_object(address) {
            heap.pin(address);
        }
    }

    #[test]
    fn no_pinned_object_is_the_last_that_can_be_moved(rt: HostRuntime) -> Result<(), Fail> {
        let mut heap = Heap::new(rt.alloc(), 2)?;
        assert!(rt; heap.last_movable(0, 0x20000).is_none());
        assert!(rt; heap.add_page(1) == Ok(0) && heap.add_page(0) == Ok(1));
        assert!(rt; is_allocated(&mut heap) && is_allocated(&mut heap) && is_allocated(&mut heap));
        assert!(rt; heap.last_movable(0, 1 << 40) == Some(0x20050));
        assert!(rt; heap.last_movable(0, 0x20050) == Some(0x20028));
        assert!(rt;
            heap.last_movable(0, 0x20000).is_none() && heap.last_movable(1, 1 << 40).is_none()
        );
        pin(&mut heap, 0x20050);
        assert!(rt; heap.last_movable(0, 1 << 40) == Some(0x20028));
        heap.unpin();
        assert!(rt; heap.last_movable(0, 1 << 40) == Some(0x20050));
        Ok(())
    }

    #[test]
    fn a_new_heap_corrects_no_references(rt: HostRuntime) -> Result<(), Fail> {
        let mut heap = Heap::new(rt.alloc(), 1)?;
        assert!(rt; heap.cursor() == 0 && heap.compactions() == 0 && heap.moves() == 0);
        heap.set_cursor(0x10028);
        assert!(rt; heap.cursor() == 0x10028);
        Ok(())
    }
}
