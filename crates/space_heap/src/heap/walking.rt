// Walks over the objects in the order of their addresses.
ghost use Rattle.std.specs.Prelude.{◌≡◌, ◌<◌, ◌≤◌, ◌+◌, ℕ, length, IfSome, MatchOption};
ghost use Rattle.space_model.specs.Layout.{page_of};
ghost use Rattle.space_heap.specs.HeapView.{HeapView};
ghost use Rattle.space_heap.specs.SoundHeap.{IsSoundHeap};
ghost use Rattle.space_heap.specs.Walks.{HasNoneFrom, HasNoneOn, IsFound, IsFoundOn, HasNoObjectFrom, IsNextObject, HasNoGoneFrom, IsFoundGone, HasNoGoneOn, IsFoundGoneOn, HasNoMinorScanFrom, IsNextMinorScan, HasNoFinishScanFrom, IsNextFinishScan, is_sought, StartsFrom, IsWalkFrom, IsFurther};

use crate::addresses::first_slot;
use crate::heap::Heap;
use crate::marks::{Sought, marks_of};
use space_model::address_of;

/// An object that a walk found.
#[derive(Clone, Copy, Debug, PartialEq, Eq)]
pub struct Found {
    /// Its name.
    pub name: u64,
    /// The address of its slot, in bytes.
    pub address: u64,
}

/// How far a walk over the gone objects has come: the slot of a page that it goes on with, so that no address is taken
/// apart. The heap stays as it is from its first step to its last.
#[derive(Clone, Copy, Debug)]
pub struct Walk {
    page: u32,
    slot: u32,
}

impl Walk {
    /// A walk that begins with the first slot of the first page.
    pub fn new() -> Walk
        ensures { (v : HeapView) → IsWalkFrom v result 0 }
    {
        Walk { page: 0, slot: 0 }
    }
}

impl Heap {
    // What is sought on a page in the first slot from this one on, and that slot. Its name is read where its slot is known.
    fn first_on(&self, sought: Sought, page: u32, start: u32) -> Option<(u32, Found)>
        requires { page < length self.now.pages }
        ensures found { (from : ℕ) → StartsFrom self.now page start from → MatchOption result (HasNoneOn (is_sought sought self.now) page from) (λ at. IsFoundOn sought self.now page from at.1) }
        ensures on { IfSome result (λ at. page_of at.1.address ≡ page) }
        ensures start { IfSome result (λ at. start ≤ at.0) }
        ensures few { IfSome result (λ at. at.0 < 1638) }
        ensures next { IfSome result (λ at. StartsFrom self.now page (at.0 + 1) (at.1.address + 1)) }
    {
        match self.pools.page_pool(page) {
            Some(pool) => match marks_of(&self.marks, page).first(sought, start) {
                Some(slot) => {
                    let address = address_of(page, pool, slot);
                    let name = self.pools.slot(page, slot)[1];
                    Some((slot, Found { name, address }))
                }
                None => None,
            },
            None => None,
        }
    }

    // The first slot of a page whose address isn't below `from`, or a number past its last.
    fn start_on(&self, page: u32, from: u64) -> u32
        requires { page < length self.now.pages }
        ensures { StartsFrom self.now page result from }
    {
        match self.pools.page_pool(page) {
            Some(pool) => first_slot(page, pool, from),
            None => 0,
        }
    }

    // What is sought on a page at the least address from this one on.
    fn next_on(&self, sought: Sought, page: u32, from: u64) -> Option<Found>
        requires { page < length self.now.pages }
        ensures { MatchOption result (HasNoneOn (is_sought sought self.now) page from) (IsFoundOn sought self.now page from) }
    {
        let start = self.start_on(page, from);
        match self.first_on(sought, page, start) {
            Some((_, found)) => Some(found),
            None => None,
        }
    }

    // What is sought at the least address not below `from`.
    fn next_of(&self, sought: Sought, from: u64) -> Option<Found>
        ensures next { MatchOption result (HasNoneFrom (is_sought sought self.now) from) (IsFound sought self.now from) }
        ensures sound { IsSoundHeap self.now }
    {
        // It begins with the page of `from`, so that a walk over all looks at each slot once.
        let mut page = (from / 65536).saturating_sub(1);
        'pages: while page < u64::from(self.page_count()) {
            if let Some(found) = self.next_on(sought, page as u32, from) {
                return Some(found);
            }
            page += 1;
        }
        None
    }

    /// The least address not below `from` that names an object, or `None` where none does.
    pub fn next_object(&self, from: u64) -> Option<u64>
        ensures { MatchOption result (HasNoObjectFrom self.now from) (IsNextObject self.now from) }
    {
        match self.next_of(Sought::Present, from) {
            Some(found) => Some(found.address),
            None => None,
        }
    }

    /// The least address not below `from` of an object that a minor marking scans from its start: it is black, and old and
    /// remembered, or kept; or `None` where there is none. It reads no field.
    pub fn next_minor_scan(&self, from: u64) -> Option<u64>
        ensures next { MatchOption result (HasNoMinorScanFrom self.now from) (IsNextMinorScan self.now from) }
        ensures sound { IsSoundHeap self.now }
    {
        match self.next_of(Sought::MinorScan, from) {
            Some(found) => Some(found.address),
            None => None,
        }
    }

    /// The least address not below `from` of an object that the end of a major marking scans again: it is black, and the
    /// write barrier doesn't protect it; or `None` where there is none. It reads no field.
    pub fn next_finish_scan(&self, from: u64) -> Option<u64>
        ensures next { MatchOption result (HasNoFinishScanFrom self.now from) (IsNextFinishScan self.now from) }
        ensures sound { IsSoundHeap self.now }
    {
        match self.next_of(Sought::FinishScan, from) {
            Some(found) => Some(found.address),
            None => None,
        }
    }

    /// The gone object with the least address not below `from` on a page, or `None` where there is none. The sweep of a page
    /// frees the slots of these.
    pub fn next_gone_on(&self, page: u32, from: u64) -> Option<Found>
        requires { page < length self.now.pages }
        ensures { MatchOption result (HasNoGoneOn self.now page from) (IsFoundGoneOn self.now page from) }
    {
        self.next_on(Sought::Gone, page, from)
    }

    /// The gone object with the least address from where the walk has come to, or `None` where there is none. The walk
    /// goes on behind the object.
    pub fn next_gone(&self, walk: &mut Walk) -> Option<Found>
        ensures next { (from : ℕ) → IsWalkFrom self.now walk.old from → MatchOption result (HasNoGoneFrom self.now from) (IsFoundGone self.now from) }
        ensures behind { IfSome result (λ found. IsWalkFrom self.now walk.new (found.address + 1)) }
        ensures further { IfSome result (λ found. IsFurther self.now walk.old walk.new) }
        ensures sound { IsSoundHeap self.now }
    {
        let mut page = walk.page;
        let mut start = walk.slot;
        'pages: while page < self.page_count() {
            if let Some((slot, found)) = self.first_on(Sought::Gone, page, start) {
                walk.page = page;
                walk.slot = slot + 1;
                return Some(found);
            }
            page += 1;
            start = 0;
        }
        None
    }
}
