// Allocations: a free slot, or a page that the pool gets.
ghost use Rattle.std.specs.Prelude.{◌≡◌, ◌↔◌, ◌<◌, ◌≤◌, ◌+◌, ◌^◌, true, false, length, Err, IfOk, OnErr, MatchOption};
ghost use Rattle.space_model.specs.Layout.{pool_for as pool_of_fields};
ghost use Rattle.space_heap.specs.Slots.{new_object};
ghost use Rattle.space_heap.specs.HeapView.{is_unswept, page_at, no_page, with_page};
ghost use Rattle.space_heap.specs.Objects.{placed};
ghost use Rattle.space_heap.specs.FreeSlots.{IsLeastFree, HasNoFree};
ghost use Rattle.space_heap.specs.NewPages.{spare_count, HasNoSpare, IsLeastSpare, IsNextPage, IsOutOfPages};
ghost use Rattle.space_heap.specs.SoundHeap.{IsSoundHeap};
ghost use Rattle.space_heap.specs.Allocations.{IsAllocation, LacksRoom, NeedsNewPage};

use crate::addresses::slot_count;
use crate::heap::{Heap, Made, PlaceFault};
use crate::mark_stack::reserve_room;
use crate::marks::{Marks, append_page, begin_slot, reset_page};
use crate::slot_allocation::{allocate_slot, pool_of};
use space_model::{Guard, MOST_FIELDS, POOLS, Style};
use space_pools::PageFault;

impl Heap {
    /// The lowest free address of the pool, in bytes, or `None` where none of its pages has a free slot,
    /// but for those that wait for a sweep.
    pub fn lowest_free(&self, pool: u8) -> Option<u64>
        requires { pool < POOLS }
        ensures lowest { MatchOption result (HasNoFree self.now pool) (IsLeastFree self.now pool) }
        ensures sound { IsSoundHeap self.now }
    {
        self.pools.lowest_free(pool)
    }

    /// Allocates an object of so many fields, which are nil, at the lowest free address of the
    /// first pool whose slots have room for them (this project's own order). It takes no memory.
    /// `NoSlot` comes exactly where no address is free for that pool, and then nothing changes.
    pub fn place(&mut self, fields: u64, guard: Guard, style: Style) -> Result<Made, PlaceFault>
        requires few { fields ≤ MOST_FIELDS }
        requires names { self.old.counters.born < 2 ^ 62 }
        ensures full { (result ≡ Err PlaceFault.NoSlot) ↔ HasNoFree self.old (pool_of_fields fields) }
        ensures failed { OnErr result (self.new ≡ self.old) }
        ensures lowest { IfOk result (λ made. IsLeastFree self.old (pool_of_fields fields) made.address) }
        ensures name { IfOk result (λ made. made.name ≡ self.old.counters.born + 1) }
        ensures placed { IfOk result (λ made. self.new ≡ placed self.old made.address (new_object made.name fields guard style)) }
        ensures sound { IsSoundHeap self.old }
    {
        let name = self.born + 1;
        match allocate_slot(&mut self.pools, fields, style, name) {
            Some(allocated) => {
                begin_slot(&mut self.marks, allocated.page, allocated.slot, guard);
                self.born = name;
                Ok(Made {
                    name,
                    address: allocated.address,
                })
            }
            None => Err(PlaceFault::NoSlot),
        }
    }

    /// How many pages are spare.
    pub fn spare_pages(&self) -> u32
        ensures { result ≡ spare_count self.now }
    {
        self.pools.spare_pages()
    }

    // Whether a pool gets a new page next: none is spare, and the limit allows one more.
    fn may_grow(&self) -> bool
        ensures grows { result ≡ true → HasNoSpare self.now × (length self.now.pages < self.now.limit) }
        ensures full { result ≡ false → HasNoSpare self.now → length self.now.pages ≡ self.now.limit }
    {
        if self.spare_pages() > 0 {
            return false;
        }
        self.page_count() < self.limit()
    }

    // Makes the next page, for the pool. First it makes room on the mark stack for its objects.
    fn make_page(&mut self, pool: u8) -> Result<u32, PageFault>
        requires known { pool < POOLS }
        requires none_spare { HasNoSpare self.old }
        requires room { length self.old.pages < self.old.limit }
        ensures added { IfOk result (λ page. (page ≡ length self.old.pages) × (self.new ≡ with_page self.old page pool)) }
        ensures swept { IfOk result (λ page. is_unswept self.old page ≡ false) }
        ensures failed { OnErr result ((result ≡ Err PageFault.NoMemory) × (self.new ≡ self.old)) }
    {
        let slots = slot_count(pool);
        let pages = self.pools.page_count() as usize;
        let Ok(()) = reserve_room(&mut self.grey, pages + 1) else {
            return Err(PageFault::NoMemory);
        };
        let made = match Marks::new(self.alloc, slots) {
            Ok(made) => made,
            Err(_) => return Err(PageFault::NoMemory),
        };
        match self.pools.add_page(pool) {
            Ok(page) => {
                append_page(&mut self.marks, made);
                Ok(page)
            }
            Err(_) => Err(PageFault::NoMemory),
        }
    }

    // Gives a spare page to the pool. No new page may be made.
    fn give_page(&mut self, pool: u8) -> Result<u32, PageFault>
        requires known { pool < POOLS }
        requires full { HasNoSpare self.old → length self.old.pages ≡ self.old.limit }
        ensures next { IfOk result (IsLeastSpare self.old) }
        ensures added { IfOk result (λ page. self.new ≡ with_page self.old page pool) }
        ensures empty { IfOk result (λ page. page_at self.old page ≡ no_page) }
        ensures swept { IfOk result (λ page. is_unswept self.old page ≡ false) }
        ensures at_limit { (result ≡ Err PageFault.AtLimit) ↔ HasNoSpare self.old }
        ensures none_spare { OnErr result (HasNoSpare self.old) }
        ensures failed { OnErr result (self.new ≡ self.old) }
    {
        let slots = slot_count(pool);
        match self.pools.add_page(pool) {
            Ok(page) => {
                reset_page(&mut self.marks, page, slots);
                Ok(page)
            }
            Err(_) => Err(PageFault::AtLimit),
        }
    }

    /// Gives the pool a page whose slots are all free, the lowest spare page or else a new one, and
    /// answers its number (the order is this project's own). A spare page takes no memory. `AtLimit`
    /// comes exactly where no page is spare and there are as many as may be; `NoMemory` comes else, where
    /// none is spare. A failed call changes nothing.
    pub fn add_page(&mut self, pool: u8) -> Result<u32, PageFault>
        requires { pool < POOLS }
        ensures next { IfOk result (IsNextPage self.old) }
        ensures empty { IfOk result (λ page. page_at self.old page ≡ no_page) }
        ensures swept { IfOk result (λ page. is_unswept self.old page ≡ false) }
        ensures added { IfOk result (λ page. self.new ≡ with_page self.old page pool) }
        ensures at_limit { (result ≡ Err PageFault.AtLimit) ↔ IsOutOfPages self.old }
        ensures none_spare { OnErr result (HasNoSpare self.old) }
        ensures failed { OnErr result (self.new ≡ self.old) }
    {
        if self.may_grow() {
            self.make_page(pool)
        } else {
            self.give_page(pool)
        }
    }

    // Allocates an object on a page that its pool gets.
    fn allocate_on_page(
        &mut self,
        fields: u64,
        guard: Guard,
        style: Style,
    ) -> Result<Made, PageFault>
        requires few { fields ≤ MOST_FIELDS }
        requires names { self.old.counters.born < 2 ^ 62 }
        requires none { HasNoFree self.old (pool_of_fields fields) }
        ensures allocated { IfOk result (λ made. IsAllocation self.old self.new fields guard style made.name made.address) }
        ensures at_limit { (result ≡ Err PageFault.AtLimit) ↔ IsOutOfPages self.old }
        ensures no_memory { result ≡ Err PageFault.NoMemory → NeedsNewPage self.old (pool_of_fields fields) }
        ensures failed { OnErr result (self.new ≡ self.old) }
    {
        self.add_page(pool_of(fields))?;
        match self.place(fields, guard, style) {
            Ok(made) => Ok(made),
            Err(PlaceFault::NoSlot) => unreachable!(),
        }
    }

    /// Allocates an object of so many fields, which are nil: at the lowest free address of the first pool
    /// whose slots have room for them, or on the page that this pool gets where no address is free (this
    /// project's own order). `AtLimit` comes exactly where no address is free for the pool, no page is
    /// spare and there are as many as may be. `NoMemory` comes only where the object needs a new page. A
    /// failed call changes nothing.
    pub fn allocate(&mut self, fields: u64, guard: Guard, style: Style) -> Result<Made, PageFault>
        requires few { fields ≤ MOST_FIELDS }
        requires names { self.old.counters.born < 2 ^ 62 }
        ensures allocated { IfOk result (λ made. IsAllocation self.old self.new fields guard style made.name made.address) }
        ensures at_limit { (result ≡ Err PageFault.AtLimit) ↔ LacksRoom self.old (pool_of_fields fields) }
        ensures no_memory { result ≡ Err PageFault.NoMemory → NeedsNewPage self.old (pool_of_fields fields) }
        ensures failed { OnErr result (self.new ≡ self.old) }
        ensures sound { IsSoundHeap self.old }
    {
        match self.place(fields, guard, style) {
            Ok(made) => Ok(made),
            Err(PlaceFault::NoSlot) => self.allocate_on_page(fields, guard, style),
        }
    }
}

#[cfg(test)]
mod tests {
    use super::*;
    use std::test::Fail;

    // An object with so many fields, if there may be one more.
    fn allocate_with(heap: &mut Heap, fields: u64) -> Option<Made>
        requires { fields ≤ MOST_FIELDS }
    {
        if heap.born() >= 1 << 40 {
            return None;
        }
        match heap.place(fields, Guard::Protected, Style::Keeping) {
            Ok(made) => Some(made),
            Err(_) => None,
        }
    }

    #[test]
    fn objects_stand_at_the_lowest_addresses_of_their_pools(rt: HostRuntime) -> Result<(), Fail> {
        let mut heap = Heap::new(rt.alloc(), 2)?;
        assert!(rt; allocate_with(&mut heap, 0).is_none());
        assert!(rt; heap.add_page(0) == Ok(0) && heap.add_page(1) == Ok(1));
        assert!(rt; heap.add_page(1) == Err(PageFault::AtLimit));
        let births = [
            (allocate_with(&mut heap, 3), 1, 0x10000),
            (allocate_with(&mut heap, 4), 2, 0x20000),
            (allocate_with(&mut heap, 0), 3, 0x10028),
        ];
        for (made, name, address) in births {
            assert!(rt; made == Some(Made { name, address }));
        }
        assert!(rt; heap.object_at(0x10028) == Some(0x10028));
        assert!(rt; heap.object_at(0x10029).is_none() && heap.object_at(0x10050).is_none());
        assert!(rt; heap.resolve(0x10028) == 0x10028 && heap.lowest_free(0) == Some(0x10050));
        assert!(rt;
            heap.next_object(0) == Some(0x10000) && heap.next_object(0x10001) == Some(0x10028)
        );
        assert!(rt;
            heap.next_object(0x10029) == Some(0x20000) && heap.next_object(0x20001).is_none()
        );
        assert!(rt; heap.page_count() == 2 && heap.spare_pages() == 0 && heap.born() == 3);
        Ok(())
    }
}
