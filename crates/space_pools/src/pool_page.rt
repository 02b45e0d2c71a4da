// One page of the pools: its words, its pool, and which of its slots are free.
ghost use Rattle.std.specs.Prelude.{◌≡◌, ℕ, ◌+◌, ◌*◌, ◌<◌, ◌≤◌, length, slice_index_or, Some, true, false, is_some, IfOk, MatchOption};
ghost use Rattle.std.specs.Borrow.{sem};
ghost use Rattle.space_model.specs.Layout.{page_slots as slots_of_page};
ghost use Rattle.space_planes.specs.Planes.{bit};
ghost use Rattle.space_pools.specs.PageSlots.{free_page, spare_page, free_in, used_in, found_in, width_of, held_in, freed_in, HoldsSlots, HasEachFree, IsPassedOver, IsFirstFree, TakesSlot};
ghost use Rattle.space_pages.specs.Slots.{slot_words, slots_end, words_of};
ghost use Rattle.space_pools.specs.Links.{AreLinked, IsClearPast, with_link};
ghost use Rattle.space_pools.specs.PageLending.{LendsWithin, LendsOnPage};

use space_model::{POOLS, page_slots, slot_bytes};
use space_pages::SlotPage;
use space_planes::Plane;
use std::alloc::{AllocError as NoMemory, Global};
use std::marker::Model;

// A page of the pools. `lowest` is its first free slot, or the number of its slots where none is free.
#[derive(Drop)]
pub struct PoolPage {
    words: SlotPage,
    pool: Option<u8>,
    free: Plane,
    lowest: u32,
    unswept: bool,
}

impl Model for PoolPage {
    ghost use Rattle.space_pools.specs.PageSlots.{PageSlots};

    ghost Value = { PageSlots };

    ghost use Rattle.space_pools.specs.Inside.{page_from, IsPoolPage};

    ghost view = { page_from };

    ghost invariant = { IsPoolPage };
}

#[tactic(auto, using(crate::proofs::Pages::most_slots))]
// How many slots a page of the pool has.
fn slot_count(pool: u8) -> u32
    requires { pool < POOLS }
    ensures count { result ≡ slots_of_page pool }
    ensures most { result ≤ 1638 }
{
    page_slots(pool) as u32
}

// The pool of a page that has one.
fn known(pool: Option<u8>) -> u8
    requires { is_some pool ≡ true }
    ensures { pool ≡ Some result }
{
    match pool {
        Some(its) => its,
        None => unreachable!(),
    }
}

// The first index from `from` on whose bit is 1, or the number of bits where there is none.
fn free_from(free: &Plane, from: u32) -> u32
    requires { from ≤ length free.now }
    ensures start { from ≤ result }
    ensures within { result ≤ length free.now }
    ensures clear { (k : ℕ) → from ≤ k → k < result → bit free.now k ≡ false }
    ensures set { result < length free.now → bit free.now result ≡ true }
{
    let len = free.len();
    match free.first_set_from(from) {
        Some(first) => first,
        None => len,
    }
}

// The words of a slot, to be written. A slice keeps its length, so all words outside of the slot stay.
fn slot_within(words: &mut SlotPage, pool: u8, s: u32) -> &mut [u64]
    requires pool { pool < POOLS }
    requires slot { s < slots_of_page pool }
    ensures* writes_back { sem 𝓛 (LendsWithin words.entry pool s result) }
    ensures words { result.now ≡ slot_words words.old pool s }
    ensures len { length result.now ≡ words_of pool }
{
    words.slot_mut(pool, s)
}

// Writes the first two words of a free slot: 0, and its link.
fn put_link(words: &mut SlotPage, pool: u8, start: usize, s: u32, link: u64)
    requires pool { pool < POOLS }
    requires slot { s < slots_of_page pool }
    requires start { start ≡ words_of pool * s }
    requires whole { length words.old ≡ 8192 }
    ensures { words.new ≡ with_link words.old pool s link }
{
    words.set_word(start, 0);
    words.set_word(start + 1, link);
}

// Writes the links of the slots of the plane, each slot once, from the last one down. All other slots
// and the words past the last one stay.
fn put_links(words: &mut SlotPage, pool: u8, free: &Plane)
    requires pool { pool < POOLS }
    requires slots { length free.now ≡ slots_of_page pool }
    requires whole { length words.old ≡ 8192 }
    ensures whole { length words.new ≡ 8192 }
    ensures linked { AreLinked (Some pool) words.new free.now }
    ensures others { (slot : ℕ) → slot < length free.now → bit free.now slot ≡ false → slot_words words.new pool slot ≡ slot_words words.old pool slot }
    ensures past { (k : ℕ) → slots_end pool ≤ k → slice_index_or words.new k 0 ≡ slice_index_or words.old k 0 }
{
    let width = (slot_bytes(pool) / 8) as usize;
    let mut link = 0;
    let mut s = free.len();
    'slots: while s > 0 {
        s -= 1;
        if free.get(s) {
            put_link(words, pool, width * s as usize, s, link);
            link = u64::from(s) + 1;
        }
    }
}

impl PoolPage {
    // A page of the pool whose slots are all free.
    pub fn new(alloc: Global, pool: u8) -> Result<PoolPage, NoMemory>
        requires { pool < POOLS }
        ensures { IfOk result (λ page. page ≡ free_page pool) }
    {
        let mut free = Plane::new(alloc, slot_count(pool))?;
        free.fill(true);
        let mut words = SlotPage::new(alloc)?;
        put_links(&mut words, pool, &free);
        Ok(PoolPage {
            words,
            pool: Some(pool),
            free,
            lowest: 0,
            unswept: false,
        })
    }

    // Makes it a page of the pool whose slots are all free. Old words past its last slot become 0.
    pub fn give(&mut self, pool: u8)
        requires { pool < POOLS }
        ensures { self.new ≡ free_page pool }
    {
        self.free.reset(slot_count(pool));
        self.free.fill(true);
        self.words.clear_end(pool);
        put_links(&mut self.words, pool, &self.free);
        self.pool = Some(pool);
        self.lowest = 0;
        self.unswept = false;
    }

    // Makes it wait for a sweep. Its slots stay.
    pub fn hold(&mut self)
        ensures { self.new ≡ held_in self.old }
    {
        self.unswept = true;
    }

    // Makes the slots of the plane free. It waits for no sweep then.
    pub fn set_free(&mut self, free: &Plane)
        requires pool { is_some self.old.pool ≡ true }
        requires len { length free.now ≡ length self.old.slots }
        requires each { HasEachFree self.old free.now }
        ensures { self.new ≡ freed_in self.old free.now }
    {
        // Where no further slot becomes free the links stay as they are.
        if free.is_same(&self.free) {
            self.unswept = false;
            return;
        }
        put_links(&mut self.words, known(self.pool), free);
        self.free.copy_from(free);
        self.lowest = free_from(free, 0);
        self.unswept = false;
    }

    // Makes it a spare page.
    pub fn release(&mut self)
        ensures { self.new ≡ spare_page }
    {
        self.free.reset(0);
        self.pool = None;
        self.lowest = 0;
        self.unswept = false;
    }

    // Its pool, which a spare page has none of.
    pub fn pool(&self) -> Option<u8>
        ensures { result ≡ self.now.pool }
    {
        self.pool
    }

    // Whether it waits for a sweep.
    pub fn unswept(&self) -> bool
        ensures { result ≡ self.now.unswept }
    {
        self.unswept
    }

    // Which of its slots are free.
    pub fn free_plane(&self) -> &Plane
        ensures len { length result.now ≡ length self.now.slots }
        ensures bits { (s : ℕ) → bit result.now s ≡ free_in self.now s }
    {
        &self.free
    }

    // Whether the page has this slot and it is free.
    pub fn is_free(&self, s: u32) -> bool
        ensures { result ≡ free_in self.now s }
    {
        s < self.free.len() && self.free.get(s)
    }

    // The first free slot, if it is a page of this pool that doesn't wait for a sweep.
    pub fn first_free_of(&self, pool: u8) -> Option<u32>
        ensures { MatchOption result (self.now.pool ≡ Some pool → IsPassedOver self.now) (λ s. (self.now.pool ≡ Some pool) × IsFirstFree self.now s) }
    {
        match self.pool {
            Some(its) if its == pool && !self.unswept && self.lowest < self.free.len() => {
                Some(self.lowest)
            }
            _ => None,
        }
    }

    // Takes the first free slot, which is free no more.
    pub fn take_slot(&mut self, s: u32)
        requires { IsFirstFree self.old s }
        ensures { TakesSlot self.old self.new s }
    {
        self.lowest = free_from(&self.free, s + 1);
        self.free.clear(s);
    }

    // The words of the page.
    pub fn words(&self) -> &SlotPage
        ensures whole { length result.now ≡ 8192 }
        ensures words { HoldsSlots self.now result.now }
        ensures clear_past { IsClearPast self.now.pool result.now }
    {
        &self.words
    }

    // The words of a slot that isn't free.
    pub fn slot(&self, s: u32) -> &[u64]
        requires { used_in self.now s ≡ true }
        ensures words { found_in self.now s ≡ Some result.now }
        ensures len { length result.now ≡ width_of self.now.pool }
    {
        self.words.slot(known(self.pool), s)
    }

    // The words of a slot that isn't free, to be written.
    pub fn slot_mut(&mut self, s: u32) -> &mut [u64]
        requires { used_in self.old s ≡ true }
        ensures* writes_back { sem 𝓛 (LendsOnPage self.entry s result) }
        ensures words { found_in self.old s ≡ Some result.now }
        ensures len { length result.now ≡ width_of self.old.pool }
    {
        let pool = known(self.pool);
        slot_within(&mut self.words, pool, s)
    }
}
