// The calls of a compaction.
ghost use Rattle.std.specs.Prelude.{◌≡◌, ◌<◌, ◌^◌, true, [], length, MatchOption};
ghost use Rattle.space_heap.specs.Objects.{is_object};
ghost use Rattle.space_heap.specs.LastBelow.{HasNoneOnBelow, IsLastOn};
ghost use Rattle.space_heap.specs.LastMovable.{is_movable_in, HasNoMovable, IsLastMovable};
ghost use Rattle.space_heap.specs.Relocation.{IsMove, relocated, ended, pinned_at, unpinned};

use crate::addresses::{first_slot, slot_of};
use crate::ended_moves::end_pages;
use crate::heap::Heap;
use crate::marks::marks_of;
use crate::moves::{move_marks, move_words};
use crate::pins::{pin_slot, unpin_pages};
use space_model::address_of;

impl Heap {
    /// Up to which address a compaction has corrected references; 0 where it corrects none.
    pub fn cursor(&self) -> u64
        ensures { result ≡ self.now.cursor }
    {
        self.cursor
    }

    /// How many compactions ended.
    pub fn compactions(&self) -> u64
        ensures { result ≡ self.now.counters.compactions }
    {
        self.compactions
    }

    /// How many moves there were.
    pub fn moves(&self) -> u64
        ensures { result ≡ self.now.counters.moves }
    {
        self.moves
    }

    /// Changes up to which address a compaction has corrected references.
    pub fn set_cursor(&mut self, cursor: u64)
        ensures { self.new ≡ record self.old { cursor = cursor } }
    {
        self.cursor = cursor;
    }

    /// Pins an object: no move takes it until its pin is taken away (`rb_gc_mark` of CRuby 3.3). Nothing else changes.
    pub fn pin(&mut self, address: u64)
        requires { is_object self.old address ≡ true }
        ensures { self.new ≡ pinned_at self.old address }
    {
        let (page, slot) = slot_of(&self.pools, address);
        pin_slot(&mut self.marks, page, slot);
    }

    /// Takes the pins of all objects away. Nothing else changes.
    pub fn unpin(&mut self)
        ensures { self.new ≡ unpinned self.old }
    {
        unpin_pages(&mut self.marks);
    }

    /// Moves the object at `from` to `to`, which is the lowest free address of its pool: its words and marks go along, and the
    /// slot that it leaves holds the new address and isn't free (`T_MOVED` of CRuby 3.3). The move is counted. It takes no
    /// memory.
    pub fn relocate(&mut self, from: u64, to: u64)
        requires is_move { IsMove self.old from to }
        requires none_grey { self.old.grey ≡ [] }
        requires few { self.old.counters.moves < 2 ^ 62 }
        ensures { self.new ≡ relocated self.old from to }
    {
        let (page, slot) = slot_of(&self.pools, from);
        match self.pools.page_pool(page) {
            Some(pool) => {
                let (to_page, to_slot) = move_words(&mut self.pools, page, slot, to, pool);
                move_marks(&mut self.marks, page, slot, to_page, to_slot);
                self.moves += 1;
            }
            None => unreachable!(),
        }
    }

    /// Ends the moves of a compaction: each slot that an object left is free, and a page without an object is spare. The
    /// compaction is counted. The phase and the cursor stay. It takes no memory.
    pub fn end_moves(&mut self)
        requires few { self.old.counters.compactions < 2 ^ 62 }
        ensures { self.new ≡ ended self.old }
    {
        end_pages(&mut self.pools, &mut self.marks, &mut self.working);
        self.compactions += 1;
    }

    // The highest address below `below` on a page where an object of the pool stands that isn't gone and isn't pinned.
    fn last_on(&self, page: u32, pool: u8, below: u64) -> Option<u64>
        requires { page < length self.now.pages }
        ensures { MatchOption result (HasNoneOnBelow (is_movable_in self.now pool) page below) (IsLastOn (is_movable_in self.now pool) page below) }
    {
        let Some(own) = self.pools.page_pool(page) else {
            return None;
        };
        if own != pool {
            return None;
        }
        let end = first_slot(page, own, below);
        match marks_of(&self.marks, page).last_movable(end) {
            Some(slot) => Some(address_of(page, own, slot)),
            None => None,
        }
    }

    /// The highest address below `below` where an object of the pool stands that isn't gone and isn't pinned, or `None` where
    /// none does.
    pub fn last_movable(&self, pool: u8, below: u64) -> Option<u64>
        ensures { MatchOption result (HasNoMovable self.now pool below) (IsLastMovable self.now pool below) }
    {
        // It begins with the page of `below`, so that a walk over all looks at each slot once.
        let mut page = (below / 65536).min(u64::from(self.page_count()));
        'pages: while page > 0 {
            page -= 1;
            if let Some(address) = self.last_on(page as u32, pool, below) {
                return Some(address);
            }
        }
        None
    }
}
