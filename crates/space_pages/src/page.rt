// The words of a page, and its slots.
ghost use Rattle.std.specs.Prelude.{◌≡◌, ◌+◌, ◌*◌, ◌<◌, ◌≤◌, length, slice_index, slice_set, IfOk};
ghost use Rattle.std.specs.Borrow.{sem};
ghost use Rattle.space_model.specs.Layout.{page_slots as slots_of_page};
ghost use Rattle.space_pages.specs.Slots.{zeroed_page, words_of, slots_end, slot_words, with_slot, with_clear_end};
ghost use Rattle.space_pages.specs.Lending.{LendsSlot};

use space_model::{POOLS, page_slots, slot_bytes};
use std::alloc::{AllocError as NoMemory, Global};
use std::marker::Model;

/// The words of a page: 65,536 bytes without a header (this project's own).
pub const PAGE_WORDS: usize = 8192;

/// A page of words, which are slots of one pool from its start on. The page doesn't know its pool.
#[derive(Drop)]
pub struct SlotPage {
    words: Vec<u64>,
}

impl Model for SlotPage {
    ghost use Rattle.std.specs.Prelude.{◌≡◌, ℕ, List, vec_len};

    ghost Value = { List ℕ };

    ghost view = { λ p. p.words.items };

    ghost invariant = { λ p. vec_len p.words ≡ 8192 };
}

// How many words a slot of the pool has.
fn slot_len(pool: u8) -> usize
    requires { pool < POOLS }
    ensures { result ≡ words_of pool }
{
    (slot_bytes(pool) / 8) as usize
}

// The index of the first word of a slot.
fn slot_start(pool: u8, s: u32) -> usize
    requires pool { pool < POOLS }
    requires slot { s < slots_of_page pool }
    ensures start { result ≡ words_of pool * s }
    ensures within { result + words_of pool ≤ PAGE_WORDS }
{
    slot_len(pool) * s as usize
}

// The index of the first word past the last slot.
fn end_of_slots(pool: u8) -> usize
    requires { pool < POOLS }
    ensures end { result ≡ slots_end pool }
    ensures within { result ≤ PAGE_WORDS }
{
    slot_len(pool) * page_slots(pool) as usize
}

impl SlotPage {
    #[tactic(auto, unfolding(crate::specs::Slots::zeroed_page))]
    /// A page whose words are all 0. An `Err` says that there was no memory for it. No other call takes memory.
    pub fn new(alloc: Global) -> Result<SlotPage, NoMemory>
        ensures { IfOk result (λ page. page ≡ zeroed_page) }
    {
        Ok(SlotPage {
            words: Vec::from_elem(alloc, 0, PAGE_WORDS)?,
        })
    }

    /// The word at an index, counted in words from 0.
    pub fn word(&self, k: usize) -> u64
        requires { k < PAGE_WORDS }
        ensures word { result ≡ slice_index self.now k }
        ensures whole { length self.now ≡ PAGE_WORDS }
    {
        self.words[k]
    }

    /// Writes the word at an index, counted in words from 0.
    pub fn set_word(&mut self, k: usize, word: u64)
        requires { k < PAGE_WORDS }
        ensures { self.new ≡ slice_set self.old k word }
    {
        self.words[k] = word;
    }

    /// The words of a slot, on a page of this pool.
    pub fn slot(&self, pool: u8, s: u32) -> &[u64]
        requires pool { pool < POOLS }
        requires slot { s < slots_of_page pool }
        ensures words { result.now ≡ slot_words self.now pool s }
        ensures len { length result.now ≡ words_of pool }
    {
        let start = slot_start(pool, s);
        &self.words[start..start + slot_len(pool)]
    }

    /// The words of a slot to be written, on a page of this pool. The clause `writes_back`: the page ends with
    /// the words that the caller leaves in the slot, and the others stay.
    pub fn slot_mut(&mut self, pool: u8, s: u32) -> &mut [u64]
        requires pool { pool < POOLS }
        requires slot { s < slots_of_page pool }
        ensures* writes_back { sem 𝓛 (LendsSlot self.entry pool s result) }
        ensures words { result.now ≡ slot_words self.old pool s }
        ensures len { length result.now ≡ words_of pool }
    {
        let start = slot_start(pool, s);
        self.words.slice_mut(start..start + slot_len(pool))
    }

    /// Makes the words past the last slot 0, on a page of this pool. All other words stay.
    pub fn clear_end(&mut self, pool: u8)
        requires { pool < POOLS }
        ensures { self.new ≡ with_clear_end self.old pool }
    {
        let end = end_of_slots(pool);
        self.words.slice_mut(end..PAGE_WORDS).fill(0);
    }

    /// Copies a slot of another page. Both pages are of this pool.
    pub fn copy_slot(&mut self, to: u32, other: &SlotPage, from: u32, pool: u8)
        requires pool { pool < POOLS }
        requires to { to < slots_of_page pool }
        requires from { from < slots_of_page pool }
        ensures { self.new ≡ with_slot self.old pool to (slot_words other.now pool from) }
    {
        let words = other.slot(pool, from);
        self.slot_mut(pool, to).copy_from_slice(words);
    }

    /// Copies a slot to another one of the page, or to itself.
    pub fn copy_within(&mut self, to: u32, from: u32, pool: u8)
        requires pool { pool < POOLS }
        requires to { to < slots_of_page pool }
        requires from { from < slots_of_page pool }
        ensures { self.new ≡ with_slot self.old pool to (slot_words self.old pool from) }
    {
        let start = slot_start(pool, from);
        let target = slot_start(pool, to);
        self.words
            .copy_within(start..start + slot_len(pool), target);
    }
}

#[cfg(test)]
mod tests {
    use super::*;
    use std::test::Fail;

    #[test]
    fn a_new_page_has_only_zeros(rt: HostRuntime) -> Result<(), Fail> {
        let page = SlotPage::new(rt.alloc())?;
        assert!(rt; page.word(0) == 0 && page.word(PAGE_WORDS - 1) == 0);
        Ok(())
    }

    #[tactic(auto, unfolding(space_model::specs::Layout::slot_bytes, space_model::specs::Layout::page_slots))]
    #[test]
    fn each_call_on_a_page_of_the_smallest_slots(rt: HostRuntime) -> Result<(), Fail> {
        let alloc = rt.alloc();
        let mut page = SlotPage::new(alloc)?;
        let mut other = SlotPage::new(alloc)?;
        page.set_word(5, 8);
        page.slot_mut(0, 1).fill(7);
        assert!(rt; page.slot(0, 1) == [7u64; 5].as_slice());
        assert!(rt; page.word(4) == 0 && page.word(10) == 0);
        page.copy_within(1637, 1, 0);
        assert!(rt; page.word(8184) == 0 && page.word(8185) == 7);
        assert!(rt; page.word(8189) == 7 && page.word(8190) == 0);
        other.copy_slot(2, &page, 1637, 0);
        assert!(rt; other.slot(0, 2) == page.slot(0, 1));
        assert!(rt; other.word(9) == 0 && other.word(15) == 0);
        page.set_word(8190, 3);
        page.set_word(8191, 3);
        page.clear_end(0);
        assert!(rt; page.word(8189) == 7 && page.word(8190) == 0 && page.word(8191) == 0);
        Ok(())
    }
}
