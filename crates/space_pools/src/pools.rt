// All pages, each of one of the pools or spare.
ghost use Rattle.std.specs.Prelude.{◌≡◌, ◌↔◌, ℕ, ◌<◌, ◌≤◌, [], length, true, false, is_some, Some, Err, IfOk, OnErr, MatchOption};
ghost use Rattle.std.specs.Borrow.{sem};
ghost use Rattle.space_pools.specs.PageSlots.{HoldsSlots, HasEachFree, width_of};
ghost use Rattle.space_pools.specs.Links.{IsClearPast};
ghost use Rattle.space_pools.specs.PoolsView.{page_at, pool_at, IsOnPage, IsOffPages, unswept_at, free_at, used_at, found_at, with_held_page, with_freed_page, with_spare_page};
ghost use Rattle.space_pools.specs.Free.{IsLeastFree, HasNoFree, TakesLeast, IsLowestFreeSlot, AreFull, TakesFreeSlot};
ghost use Rattle.space_pools.specs.Spare.{spare_count, IsSpareAt, HasNoSpare, IsLeastSpare, IsNextPage, IsOutOfPages, with_free_page};
ghost use Rattle.space_pools.specs.Unswept.{unswept_count, HasNoUnswept, IsFirstUnswept, IsNextUnswept};
ghost use Rattle.space_pools.specs.Sound.{IsSoundPools};
ghost use Rattle.space_planes.specs.Planes.{bit};
ghost use Rattle.space_pools.specs.Lending.{LendsSlot};

use crate::pool_page::PoolPage;
use space_model::{POOLS, address_of};
use space_pages::SlotPage;
use space_planes::Plane;
use std::alloc::{AllocError as NoMemory, Global};
use std::marker::Model;

/// Why no page was added.
#[derive(Clone, Copy, Debug, PartialEq, Eq)]
pub enum PageFault {
    /// No page is spare, and there are as many pages as the limit allows.
    AtLimit,
    /// No page is spare, and the machine has no memory for a new one.
    NoMemory,
}

/// The pages of all pools. Pages are numbered from 0 in the order in which they were made, and a
/// page that has no pool is spare (this project's own).
#[derive(Drop)]
pub struct Pools {
    alloc: Global,
    limit: u32,
    pages: Vec<PoolPage>,
    // For each pool the number of a page: allocations pass over each page of the pool below it.
    cursors: [u32; 5],
    spare: u32,
    // The lowest page that waits for a sweep, or `limit` where none does.
    first_unswept: u32,
    unswept: u32,
}

impl Model for Pools {
    ghost use Rattle.space_pools.specs.PoolsView.{PoolsView};

    ghost Value = { PoolsView };

    ghost use Rattle.space_pools.specs.InsidePools.{view_from, ArePools};

    ghost view = { view_from };

    ghost invariant = { ArePools };
}

// The lowest page from `from` on that waits for a sweep, or `limit` where none does.
fn next_unswept(pages: &Vec<PoolPage>, from: u32, limit: u32) -> u32
    requires few { length pages.now.items ≤ limit }
    requires from { from ≤ limit }
    ensures { IsNextUnswept (record { limit = limit; pages = pages.now.items }) from result }
{
    let count = pages.len() as u32;
    let mut page = from;
    'pages: while page < count {
        if pages[page as usize].unswept() {
            return page;
        }
        page += 1;
    }
    limit
}

impl Pools {
    /// Pools without a page, which may get `limit` pages, 1 to 4,096 (this project's own). The list
    /// of pages gets its whole room here, so that only a page's own memory is taken later.
    pub fn new(alloc: Global, limit: u32) -> Result<Pools, NoMemory>
        requires some { 1 ≤ limit }
        requires most { limit ≤ 4096 }
        ensures { IfOk result (λ pools. pools ≡ record { limit = limit; pages = [] }) }
    {
        Ok(Pools {
            alloc,
            limit,
            pages: Vec::with_capacity(alloc, limit as usize)?,
            cursors: [0; 5],
            spare: 0,
            first_unswept: limit,
            unswept: 0,
        })
    }

    /// The most pages that there may be.
    pub fn limit(&self) -> u32
        ensures { result ≡ self.now.limit }
    {
        self.limit
    }

    /// How many pages there are. The clause `sound` holds of all pools: who needs it calls this.
    pub fn page_count(&self) -> u32
        ensures count { result ≡ length self.now.pages }
        ensures sound { IsSoundPools self.now }
    {
        self.pages.len() as u32
    }

    /// How many pages are spare.
    pub fn spare_pages(&self) -> u32
        ensures { result ≡ spare_count self.now }
    {
        self.spare
    }

    /// The pool of a page, or `None` for a spare page.
    pub fn page_pool(&self, page: u32) -> Option<u8>
        requires { page < length self.now.pages }
        ensures pool { result ≡ pool_at self.now page }
        ensures sound { IsSoundPools self.now }
    {
        self.pages[page as usize].pool()
    }

    /// The page that an address is on, and its pool; `None` where no page with a pool is there. The page
    /// numbered 0 begins at 65,536 (this project's own).
    pub fn page_with(&self, address: u64) -> Option<(u32, u8)>
        ensures page { MatchOption result (IsOffPages self.now address) (λ at. IsOnPage self.now address at.0 at.1) }
        ensures sound { IsSoundPools self.now }
    {
        let count = self.page_count();
        if address < 65536 {
            return None;
        }
        let page = address / 65536 - 1;
        if page >= u64::from(count) {
            return None;
        }
        match self.page_pool(page as u32) {
            Some(pool) => Some((page as u32, pool)),
            None => None,
        }
    }

    /// Whether the page waits for a sweep. A spare one doesn't.
    pub fn page_unswept(&self, page: u32) -> bool
        requires { page < length self.now.pages }
        ensures { result ≡ unswept_at self.now page }
    {
        self.pages[page as usize].unswept()
    }

    /// The lowest page that waits for a sweep, or `None` where none does. It isn't searched for: after each
    /// sweep the pools go on from the page that was swept, so between two verdicts each page is passed once.
    pub fn first_unswept(&self) -> Option<u32>
        ensures first { MatchOption result (HasNoUnswept self.now) (IsFirstUnswept self.now) }
        ensures sound { IsSoundPools self.now }
    {
        if self.first_unswept < self.limit {
            Some(self.first_unswept)
        } else {
            None
        }
    }

    /// How many pages wait for a sweep.
    pub fn unswept_pages(&self) -> u32
        ensures count { result ≡ unswept_count self.now }
        ensures sound { IsSoundPools self.now }
    {
        self.unswept
    }

    /// Which slots of a page are free.
    pub fn free_plane(&self, page: u32) -> &Plane
        requires { page < length self.now.pages }
        ensures len { length result.now ≡ length (page_at self.now page).slots }
        ensures bits { (s : ℕ) → bit result.now s ≡ free_at self.now page s }
        ensures sound { IsSoundPools self.now }
    {
        self.pages[page as usize].free_plane()
    }

    /// The words of a page. Of those of its free slots nothing is said; those past its last slot are 0.
    pub fn page(&self, page: u32) -> &SlotPage
        requires { page < length self.now.pages }
        ensures whole { length result.now ≡ 8192 }
        ensures words { HoldsSlots (page_at self.now page) result.now }
        ensures clear_past { IsClearPast (pool_at self.now page) result.now }
        ensures sound { IsSoundPools self.now }
    {
        self.pages[page as usize].words()
    }

    /// Whether the page has this slot and it is free.
    pub fn is_free(&self, page: u32, s: u32) -> bool
        requires { page < length self.now.pages }
        ensures { result ≡ free_at self.now page s }
    {
        self.pages[page as usize].is_free(s)
    }

    /// The words of a slot that isn't free.
    pub fn slot(&self, page: u32, s: u32) -> &[u64]
        requires { used_at self.now page s ≡ true }
        ensures words { found_at self.now page s ≡ Some result.now }
        ensures len { length result.now ≡ width_of (pool_at self.now page) }
    {
        self.pages[page as usize].slot(s)
    }

    /// The words of a slot that isn't free, to be written. All other words stay.
    pub fn slot_mut(&mut self, page: u32, s: u32) -> &mut [u64]
        requires { used_at self.old page s ≡ true }
        ensures* writes_back { sem 𝓛 (LendsSlot self.entry page s result) }
        ensures words { found_at self.old page s ≡ Some result.now }
        ensures len { length result.now ≡ width_of (pool_at self.old page) }
        ensures sound { IsSoundPools self.old }
    {
        let page = &mut self.pages[page as usize];
        page.slot_mut(s)
    }

    // The lowest page of the pool that allocations don't pass over, and its first free slot.
    fn lowest_free_slot(&self, pool: u8) -> Option<(u32, u32)>
        requires { pool < POOLS }
        ensures place { MatchOption result (AreFull self.now pool) (λ place. IsLowestFreeSlot self.now pool place.0 place.1) }
        ensures sound { IsSoundPools self.now }
    {
        let mut page = self.cursors[pool as usize];
        'pages: while page < self.page_count() {
            if let Some(slot) = self.pages[page as usize].first_free_of(pool) {
                return Some((page, slot));
            }
            page += 1;
        }
        None
    }

    /// The lowest free address of the pool, in bytes, or `None` where no page of it has a free slot,
    /// but for those that wait for a sweep. The page numbered 0 begins at 65,536 (this project's own).
    pub fn lowest_free(&self, pool: u8) -> Option<u64>
        requires { pool < POOLS }
        ensures lowest { MatchOption result (HasNoFree self.now pool) (IsLeastFree self.now pool) }
        ensures sound { IsSoundPools self.now }
    {
        match self.lowest_free_slot(pool) {
            Some((page, slot)) => Some(address_of(page, pool, slot)),
            None => None,
        }
    }

    // Takes the first free slot of the lowest page of the pool that has one.
    fn take_free_slot(&mut self, pool: u8, page: u32, slot: u32)
        requires known { pool < POOLS }
        requires place { IsLowestFreeSlot self.old pool page slot }
        ensures { TakesFreeSlot self.old self.new pool page slot }
    {
        self.cursors[pool as usize] = page;
        self.pages[page as usize].take_slot(slot);
    }

    /// Takes the lowest free address of the pool, in bytes: its slot is free no more, and its words
    /// may be any. `None` where no page of the pool has a free slot, but for those that wait for a
    /// sweep; nothing changes then.
    pub fn take(&mut self, pool: u8) -> Option<u64>
        requires { pool < POOLS }
        ensures lowest { MatchOption result (HasNoFree self.old pool) (IsLeastFree self.old pool) }
        ensures used { MatchOption result (self.new ≡ self.old) (TakesLeast self.old self.new pool) }
        ensures sound { IsSoundPools self.old }
    {
        match self.lowest_free_slot(pool) {
            Some((page, slot)) => {
                self.take_free_slot(pool, page, slot);
                Some(address_of(page, pool, slot))
            }
            None => None,
        }
    }

    /// Makes a page wait for a sweep: its slots stay, and allocations pass over it.
    pub fn hold_page(&mut self, page: u32)
        requires there { page < length self.old.pages }
        requires pool { is_some (pool_at self.old page) ≡ true }
        ensures { self.new ≡ with_held_page self.old page }
    {
        self.unswept += u32::from(!self.pages[page as usize].unswept());
        self.first_unswept = page.min(self.first_unswept);
        self.pages[page as usize].hold();
    }

    /// Makes the slots of the plane free, which are all free slots of the page then. The page waits
    /// for no sweep any more.
    pub fn free_page(&mut self, page: u32, free: &Plane)
        requires there { page < length self.old.pages }
        requires pool { is_some (pool_at self.old page) ≡ true }
        requires len { length free.now ≡ length (page_at self.old page).slots }
        requires each { HasEachFree (page_at self.old page) free.now }
        ensures { self.new ≡ with_freed_page self.old page free.now }
    {
        match self.page_pool(page) {
            Some(pool) => {
                self.unswept -= u32::from(self.pages[page as usize].unswept());
                self.pages[page as usize].set_free(free);
                self.cursors[pool as usize] = page.min(self.cursors[pool as usize]);
                self.first_unswept = next_unswept(&self.pages, self.first_unswept, self.limit);
            }
            None => unreachable!(),
        }
    }

    /// Makes a page spare, whether it waits for a sweep or not: what its slots held is dropped. Its memory
    /// stays, for a pool that it is given to.
    pub fn release_page(&mut self, page: u32)
        requires { page < length self.old.pages }
        ensures spare { self.new ≡ with_spare_page self.old page }
        ensures sound { IsSoundPools self.old }
    {
        if self.page_pool(page).is_none() {
            return;
        }
        let waited = self.pages[page as usize].unswept();
        self.pages[page as usize].release();
        self.spare += 1;
        self.unswept -= u32::from(waited);
        self.first_unswept = next_unswept(&self.pages, self.first_unswept, self.limit);
    }

    // The lowest spare page.
    fn lowest_spare(&self) -> Option<u32>
        ensures { MatchOption result (HasNoSpare self.now) (IsLeastSpare self.now) }
    {
        if self.spare == 0 {
            return None;
        }
        let mut page = 0;
        'pages: while page < self.page_count() {
            if self.page_pool(page).is_none() {
                return Some(page);
            }
            page += 1;
        }
        None
    }

    // Gives a spare page to the pool.
    fn give_page(&mut self, page: u32, pool: u8)
        requires known { pool < POOLS }
        requires spare { IsSpareAt self.old page }
        ensures { self.new ≡ with_free_page self.old page pool }
    {
        self.pages[page as usize].give(pool);
        self.spare -= 1;
        self.cursors[pool as usize] = page.min(self.cursors[pool as usize]);
    }

    // Makes the next page, for the pool.
    fn make_page(&mut self, pool: u8) -> Result<(), NoMemory>
        requires known { pool < POOLS }
        requires room { length self.old.pages < self.old.limit }
        ensures made { IfOk result (λ _. self.new ≡ with_free_page self.old (length self.old.pages) pool) }
        ensures failed { OnErr result (self.new ≡ self.old) }
    {
        let made = PoolPage::new(self.alloc, pool)?;
        let page = self.pages.len() as u32;
        self.pages.push_reserved(made);
        self.cursors[pool as usize] = page.min(self.cursors[pool as usize]);
        Ok(())
    }

    /// Gives the pool a page whose slots are all free, the lowest spare page or else a new one, and
    /// answers its number. A spare page takes no memory. A failed call changes nothing.
    pub fn add_page(&mut self, pool: u8) -> Result<u32, PageFault>
        requires { pool < POOLS }
        ensures next { IfOk result (IsNextPage self.old) }
        ensures added { IfOk result (λ page. self.new ≡ with_free_page self.old page pool) }
        ensures at_limit { (result ≡ Err PageFault.AtLimit) ↔ IsOutOfPages self.old }
        ensures none_spare { OnErr result (HasNoSpare self.old) }
        ensures failed { OnErr result (self.new ≡ self.old) }
        ensures sound { IsSoundPools self.old }
    {
        if let Some(page) = self.lowest_spare() {
            self.give_page(page, pool);
            return Ok(page);
        }
        let page = self.page_count();
        if page == self.limit {
            return Err(PageFault::AtLimit);
        }
        match self.make_page(pool) {
            Ok(()) => Ok(page),
            Err(_) => Err(PageFault::NoMemory),
        }
    }
}

#[cfg(test)]
mod tests {
    use super::*;
    use std::test::Fail;

    #[test]
    fn allocations_take_the_lowest_address_of_their_pool(rt: HostRuntime) -> Result<(), Fail> {
        let mut pools = Pools::new(rt.alloc(), 3)?;
        assert!(rt; pools.take(0).is_none());
        assert!(rt; pools.add_page(0) == Ok(0) && pools.add_page(1) == Ok(1));
        let births = [
            (pools.take(0), 0x10000),
            (pools.take(0), 0x10028),
            (pools.take(1), 0x20000),
            (pools.take(1), 0x20050),
            (pools.lowest_free(0), 0x10050),
            (pools.take(0), 0x10050),
        ];
        for (found, wanted) in births {
            assert!(rt; found == Some(wanted));
        }
        assert!(rt; pools.lowest_free(2).is_none());
        assert!(rt; pools.spare_pages() == 0 && pools.page_count() == 2);
        Ok(())
    }

    #[test]
    fn a_full_page_is_followed_by_the_next(rt: HostRuntime) -> Result<(), Fail> {
        let mut pools = Pools::new(rt.alloc(), 2)?;
        assert!(rt; pools.add_page(4) == Ok(0) && pools.add_page(4) == Ok(1));
        for _ in 0..102 {
            assert!(rt; pools.take(4).is_some());
        }
        assert!(rt; pools.take(4) == Some(0x20000));
        assert!(rt; pools.add_page(0) == Err(PageFault::AtLimit));
        assert!(rt; pools.limit() == 2);
        Ok(())
    }

    #[test]
    fn allocations_pass_over_a_page_that_waits_for_a_sweep(rt: HostRuntime) -> Result<(), Fail> {
        let mut pools = Pools::new(rt.alloc(), 2)?;
        assert!(rt; pools.add_page(4) == Ok(0) && pools.add_page(4) == Ok(1));
        if pools.page_count() == 2 && pools.page_pool(0).is_some() {
            assert!(rt; !pools.page_unswept(0) && pools.free_plane(0).count() == 102);
            pools.hold_page(0);
            assert!(rt; pools.take(4) == Some(0x20000));
        }
        Ok(())
    }

    #[test]
    fn the_lowest_page_that_waits_is_known_without_a_search(rt: HostRuntime) -> Result<(), Fail> {
        let mut pools = Pools::new(rt.alloc(), 4)?;
        assert!(rt; pools.first_unswept().is_none() && pools.unswept_pages() == 0);
        for page in 0..3 {
            assert!(rt; pools.add_page(4) == Ok(page));
        }
        for (held, first, count) in [(2, 2, 1), (1, 1, 2), (2, 1, 2)] {
            if held < pools.page_count() && pools.page_pool(held).is_some() {
                pools.hold_page(held);
                assert!(rt; pools.first_unswept() == Some(first) && pools.unswept_pages() == count);
            }
        }
        for (released, first, count) in [(0, Some(1), 2), (1, Some(2), 1), (2, None, 0)] {
            if released < pools.page_count() {
                pools.release_page(released);
                assert!(rt; pools.first_unswept() == first && pools.unswept_pages() == count);
            }
        }
        assert!(rt; pools.spare_pages() == 3);
        Ok(())
    }

    #[tactic(auto, unfolding(space_model::specs::Layout::slot_bytes, space_model::specs::Layout::page_slots), using(crate::proofs::PoolLaws::used_from_not_free))]
    #[test]
    fn the_words_of_a_slot_are_written_and_read(rt: HostRuntime) -> Result<(), Fail> {
        let mut pools = Pools::new(rt.alloc(), 1)?;
        assert!(rt; pools.add_page(0) == Ok(0) && pools.take(0).is_some());
        if pools.page_count() == 1 && pools.page_pool(0) == Some(0) && !pools.is_free(0, 0) {
            pools.slot_mut(0, 0).fill(7);
            assert!(rt; pools.page(0).word(4) == 7 && pools.is_free(0, 1));
        }
        Ok(())
    }
}
