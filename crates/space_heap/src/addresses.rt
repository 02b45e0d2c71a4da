// The slot that starts at an address.
ghost use Rattle.std.specs.Prelude.{◌≡◌, ◌↔◌, ℕ, ◌<◌, ◌≤◌, true, false, length, MatchOption, Some};
ghost use Rattle.space_model.specs.Layout.{page_slots as slots_of_page, slot_address};
ghost use Rattle.space_pools.specs.Sound.{IsSoundPools};
ghost use Rattle.space_heap.specs.HeapView.{is_start, slot_number};
ghost use Rattle.space_heap.specs.words.SlotPlaces.{is_slot_of, is_taken_start, words_from, IsSlotAt};
ghost use Rattle.space_heap.specs.words.ObjectWords.{word_at};

use space_model::{POOLS, address_of, page_slots, slot_bytes};
use space_pools::Pools;

// How many slots a page of the pool has.
#[tactic(auto, using(crate::proofs::starts::Starts::few_slots))]
pub fn slot_count(pool: u8) -> u32
    requires { pool < POOLS }
    ensures count { result ≡ slots_of_page pool }
    ensures most { result ≤ 1638 }
{
    page_slots(pool) as u32
}

// The slot that starts at an address on a page of the pool, or `None` where none does.
fn slot_start(pool: u8, word: u64) -> Option<u32>
    requires known { pool < POOLS }
    requires past { 65536 ≤ word }
    ensures { MatchOption result (is_start (Some pool) (slots_of_page pool) word ≡ false) (λ slot. (slot ≡ slot_number (Some pool) word) × (is_start (Some pool) (slots_of_page pool) word ≡ true)) }
{
    let bytes = slot_bytes(pool);
    let slot = word % 65536 / bytes;
    if slot >= page_slots(pool) {
        return None;
    }
    if bytes * slot != word % 65536 {
        return None;
    }
    Some(slot as u32)
}

// The page and the slot that starts at an address, or `None` where none does.
pub fn find_slot(pools: &Pools, word: u64) -> Option<(u32, u32)>
    ensures place { MatchOption result (is_slot_of pools.now word ≡ false) (λ at. IsSlotAt pools.now word at.0 at.1) }
    ensures sound { IsSoundPools pools.now }
{
    match pools.page_with(word) {
        Some((page, pool)) => match slot_start(pool, word) {
            Some(slot) => Some((page, slot)),
            None => None,
        },
        None => None,
    }
}

// The page and the slot that starts at an address, where one does.
pub fn slot_of(pools: &Pools, address: u64) -> (u32, u32)
    requires { is_slot_of pools.now address ≡ true }
    ensures at { IsSlotAt pools.now address result.0 result.1 }
    ensures sound { IsSoundPools pools.now }
{
    match pools.page_with(address) {
        Some((page, pool)) => (page, (address % 65536 / slot_bytes(pool)) as u32),
        None => unreachable!(),
    }
}

// A word of the slot that starts at an address, which isn't free. The size of the slot isn't looked at.
pub fn word_of(pools: &Pools, address: u64, k: u64) -> u64
    requires used { is_taken_start pools.now address ≡ true }
    requires within { k < length (words_from pools.now address) }
    ensures word { result ≡ word_at (words_from pools.now address) k }
    ensures few { length (words_from pools.now address) ≤ 80 }
{
    match pools.page_with(address) {
        Some((page, _)) => pools.page(page).word((address % 65536 / 8 + k) as usize),
        None => unreachable!(),
    }
}

// The first slot of the page whose address isn't below `from`, or a number past its last.
pub fn first_slot(page: u32, pool: u8, from: u64) -> u32
    requires page { page < 4096 }
    requires pool { pool < POOLS }
    ensures { (k : ℕ) → k < slots_of_page pool → (result ≤ k ↔ from ≤ slot_address page pool k) }
{
    let start = address_of(page, pool, 0);
    if from <= start {
        return 0;
    }
    if from - start > 65536 {
        return 1638;
    }
    let bytes = slot_bytes(pool);
    ((from - start + bytes - 1) / bytes) as u32
}
