// The counts of what stands in the slots of all pages.
ghost use Rattle.std.specs.Prelude.{◌≡◌, ◌<◌, length, count_by};
ghost use Rattle.space_model.specs.Counts.{CountIs};
ghost use Rattle.space_heap.specs.HeapView.{page_at};
ghost use Rattle.space_heap.specs.SlotCounts.{IsLive, IsVacant, IsOldObject, IsKeptObject};
ghost use Rattle.space_heap.specs.planes.CountedSlots.{has_counted, IsCounted};

use crate::heap::Heap;
use crate::marks::marks_of;
use crate::slot_notes::Note;

// What is counted: objects that aren't gone, free slots, or those of the objects of which this is noted.
#[derive(Clone, Copy)]
pub enum Counted {
    Live,
    Vacant,
    Noted(Note),
}

impl Heap {
    // How many slots of a page are counted.
    fn count_on(&self, counted: Counted, page: u32) -> u32
        requires { page < length self.now.pages }
        ensures { result ≡ count_by (has_counted counted) (page_at self.now page).slots }
    {
        match counted {
            Counted::Live => marks_of(&self.marks, page).present_count(),
            Counted::Vacant => self.pools.free_plane(page).count(),
            Counted::Noted(note) => marks_of(&self.marks, page).noted_count(note),
        }
    }

    // How many slots of all pages are counted.
    fn count(&self, counted: Counted) -> u64
        ensures { CountIs (IsCounted counted self.now) result }
    {
        let mut count = 0;
        'pages: for page in 0..self.page_count() {
            count += u64::from(self.count_on(counted, page));
        }
        count
    }

    /// How many objects there are that aren't gone: the `heap_live_slots` of CRuby 3.3's `GC.stat`. That a gone object that isn't
    /// swept is neither live nor free is this project's own. It takes no memory, and looks at each page.
    pub fn live_objects(&self) -> u64
        ensures { CountIs (IsLive self.now) result }
    {
        self.count(Counted::Live)
    }

    /// How many slots are free, on all pages that have a pool, those that wait for a sweep too: the `heap_free_slots` of CRuby
    /// 3.3's `GC.stat`. The slot of a gone object is free only once its page was swept, and a spare page has no slots, which is
    /// this project's own. It takes no memory, and looks at each page.
    pub fn free_slots(&self) -> u64
        ensures { CountIs (IsVacant self.now) result }
    {
        self.count(Counted::Vacant)
    }

    /// How many old objects there are that aren't gone: the `old_objects` of CRuby 3.3's `GC.stat`. It takes no memory, and looks at
    /// each slot.
    pub fn old_objects(&self) -> u64
        ensures { CountIs (IsOldObject self.now) result }
    {
        self.count(Counted::Noted(Note::Old))
    }

    /// How many kept objects there are that aren't gone: the `remembered_wb_unprotected_objects` of CRuby 3.3's `GC.stat`. It takes
    /// no memory, and looks at each slot.
    pub fn kept_objects(&self) -> u64
        ensures { CountIs (IsKeptObject self.now) result }
    {
        self.count(Counted::Noted(Note::Kept))
    }
}
