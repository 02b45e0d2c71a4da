// The words and the planes at a move.
ghost use Rattle.std.specs.Prelude.{◌≡◌, ◌<◌, ◌≤◌, true, length, take, slice_set, vec_capacity, Some};
ghost use Rattle.space_planes.specs.Planes.{bit};
ghost use Rattle.space_pools.specs.Free.{IsLeastFree};
ghost use Rattle.space_pools.specs.PageSlots.{width_of};
ghost use Rattle.space_pools.specs.PoolsView.{pool_at, free_at, used_at, found_at, with_slot_at};
ghost use Rattle.space_heap.specs.planes.MarkPlanes.{marks_at, AreWide};
ghost use Rattle.space_heap.specs.planes.MovedMarks.{bits_from, carried_marks, vacated_marks, with_moved};
ghost use Rattle.space_heap.specs.words.MovedWords.{forward_words, WordsMoved};
ghost use Rattle.space_heap.specs.words.SlotPlaces.{IsSlotAt, SlotChanged};

use crate::addresses::find_slot;
use crate::marks::{Marks, write_bit};
use space_pools::Pools;

// The bits that an object takes along when it moves.
#[derive(Clone, Copy)]
pub struct Bits {
    pub guard: bool,
    pub marked: bool,
    pub black: bool,
    pub age_low: bool,
    pub age_high: bool,
    pub remembered: bool,
    pub kept: bool,
    pub pinned: bool,
}

impl Marks {
    // The bits that the object of the slot takes along.
    fn bits(&self, s: u32) -> Bits
        requires wide { AreWide self.now (length self.now.object) }
        requires within { s < length self.now.object }
        ensures { result ≡ bits_from self.now s }
    {
        Bits {
            guard: self.guard.get(s),
            marked: self.marked.get(s),
            black: self.black.get(s),
            age_low: self.age_low.get(s),
            age_high: self.age_high.get(s),
            remembered: self.remembered.get(s),
            kept: self.kept.get(s),
            pinned: self.pinned.get(s),
        }
    }

    // Marks the slot as that of an object with these bits, which isn't gone.
    fn carry(&mut self, s: u32, bits: Bits)
        requires wide { AreWide self.old (length self.old.object) }
        requires within { s < length self.old.object }
        ensures { self.new ≡ carried_marks self.old s bits }
    {
        self.object.set(s);
        self.moved.clear(s);
        write_bit(&mut self.guard, s, bits.guard);
        write_bit(&mut self.marked, s, bits.marked);
        write_bit(&mut self.black, s, bits.black);
        write_bit(&mut self.age_low, s, bits.age_low);
        write_bit(&mut self.age_high, s, bits.age_high);
        write_bit(&mut self.remembered, s, bits.remembered);
        write_bit(&mut self.kept, s, bits.kept);
        write_bit(&mut self.pinned, s, bits.pinned);
        self.gone.clear(s);
    }

    // Marks the slot as one that its object left.
    fn vacate(&mut self, s: u32)
        requires wide { AreWide self.old (length self.old.object) }
        requires within { s < length self.old.object }
        ensures { self.new ≡ vacated_marks self.old s }
    {
        self.object.clear(s);
        self.moved.set(s);
    }
}

// The bits of a slot of a page that its object takes along.
fn bits_of(marks: &Vec<Marks>, page: u32, slot: u32) -> Bits
    requires there { page < length marks.now.items }
    requires wide { AreWide (marks_at marks.now.items page) (length (marks_at marks.now.items page).object) }
    requires within { slot < length (marks_at marks.now.items page).object }
    ensures { result ≡ bits_from (marks_at marks.now.items page) slot }
{
    marks[page as usize].bits(slot)
}

// Marks a slot of a page as that of an object with these bits.
fn carry_to(marks: &mut Vec<Marks>, page: u32, slot: u32, bits: Bits)
    requires there { page < length marks.old.items }
    requires wide { AreWide (marks_at marks.old.items page) (length (marks_at marks.old.items page).object) }
    requires within { slot < length (marks_at marks.old.items page).object }
    ensures items { marks.new.items ≡ slice_set marks.old.items page (carried_marks (marks_at marks.old.items page) slot bits) }
    ensures room { vec_capacity marks.new ≡ vec_capacity marks.old }
{
    marks[page as usize].carry(slot, bits);
}

// Marks a slot of a page as one that its object left.
fn vacate_slot(marks: &mut Vec<Marks>, page: u32, slot: u32)
    requires there { page < length marks.old.items }
    requires wide { AreWide (marks_at marks.old.items page) (length (marks_at marks.old.items page).object) }
    requires within { slot < length (marks_at marks.old.items page).object }
    ensures items { marks.new.items ≡ slice_set marks.old.items page (vacated_marks (marks_at marks.old.items page) slot) }
    ensures room { vec_capacity marks.new ≡ vec_capacity marks.old }
{
    marks[page as usize].vacate(slot);
}

// Moves the marks of the object of a slot to another slot, and marks the slot as one that its object left.
pub fn move_marks(marks: &mut Vec<Marks>, page: u32, slot: u32, to_page: u32, to_slot: u32)
    requires there { page < length marks.old.items }
    requires wide { AreWide (marks_at marks.old.items page) (length (marks_at marks.old.items page).object) }
    requires within { slot < length (marks_at marks.old.items page).object }
    requires to_there { to_page < length marks.old.items }
    requires to_wide { AreWide (marks_at marks.old.items to_page) (length (marks_at marks.old.items to_page).object) }
    requires to_within { to_slot < length (marks_at marks.old.items to_page).object }
    ensures items { marks.new.items ≡ with_moved marks.old.items page slot to_page to_slot }
    ensures room { vec_capacity marks.new ≡ vec_capacity marks.old }
{
    let bits = bits_of(marks, page, slot);
    carry_to(marks, to_page, to_slot, bits);
    vacate_slot(marks, page, slot);
}

// The words of a slot, which are few.
fn slot_words(pools: &Pools, page: u32, slot: u32) -> &[u64]
    requires { used_at pools.now page slot ≡ true }
    ensures words { found_at pools.now page slot ≡ Some result.now }
    ensures len { length result.now ≡ width_of (pool_at pools.now page) }
    ensures few { length result.now ≤ 80 }
{
    pools.page_count();
    pools.slot(page, slot)
}

// Copies the words of a slot to the front of a list. The answer is how many there are.
fn copy_words(pools: &Pools, page: u32, slot: u32, words: &mut [u64; 80]) -> usize
    requires { used_at pools.now page slot ≡ true }
    ensures most { result ≤ 80 }
    ensures len { result ≡ width_of (pool_at pools.now page) }
    ensures words { found_at pools.now page slot ≡ Some (take result words.new) }
{
    let found = slot_words(pools, page, slot);
    let count = found.len();
    words[..count].copy_from_slice(found);
    count
}

// Writes all words of a slot.
fn put_words(pools: &mut Pools, page: u32, slot: u32, words: &[u64])
    requires used { used_at pools.old page slot ≡ true }
    requires len { length words.now ≡ width_of (pool_at pools.old page) }
    ensures { pools.new ≡ with_slot_at pools.old page slot (Some words.now) }
{
    pools.slot_mut(page, slot).copy_from_slice(words);
}

// Copies the words of a slot to another one of the same width.
fn copy_slot(pools: &mut Pools, from_page: u32, from: u32, to_page: u32, to: u32)
    requires from { used_at pools.old from_page from ≡ true }
    requires to { used_at pools.old to_page to ≡ true }
    requires width { pool_at pools.old to_page ≡ pool_at pools.old from_page }
    ensures { pools.new ≡ with_slot_at pools.old to_page to (found_at pools.old from_page from) }
{
    let mut words = [0; 80];
    let count = copy_words(pools, from_page, from, &mut words);
    put_words(pools, to_page, to, &words[..count]);
}

// Writes the words of a slot that its object left: 2, and its new address.
fn write_forward(pools: &mut Pools, page: u32, slot: u32, to: u64)
    requires { used_at pools.old page slot ≡ true }
    ensures { pools.new ≡ with_slot_at pools.old page slot (forward_words to (found_at pools.old page slot)) }
{
    let words = pools.slot_mut(page, slot);
    words[0] = 2;
    words[1] = to;
}

// Takes the lowest free slot of a pool, and copies the words of a slot of a page of the pool to it.
fn take_copy(pools: &mut Pools, pool: u8, from_page: u32, from: u32, to: u64) -> (u32, u32)
    requires from { used_at pools.old from_page from ≡ true }
    requires its { pool_at pools.old from_page ≡ Some pool }
    requires to { IsLeastFree pools.old pool to }
    ensures at { IsSlotAt pools.old to result.0 result.1 }
    ensures free { free_at pools.old result.0 result.1 ≡ true }
    ensures copied { SlotChanged pools.old pools.new result.0 result.1 (found_at pools.old from_page from) }
{
    pools.page_count();
    match pools.take(pool) {
        Some(address) => match find_slot(pools, address) {
            Some((page, slot)) => {
                copy_slot(pools, from_page, from, page, slot);
                (page, slot)
            }
            None => unreachable!(),
        },
        None => unreachable!(),
    }
}

// Moves the words of a slot to the lowest free slot of its pool, which starts at `to`. The answer is its page and its number.
pub fn move_words(pools: &mut Pools, page: u32, slot: u32, to: u64, pool: u8) -> (u32, u32)
    requires used { used_at pools.old page slot ≡ true }
    requires its { pool_at pools.old page ≡ Some pool }
    requires to { IsLeastFree pools.old pool to }
    ensures at { IsSlotAt pools.old to result.0 result.1 }
    ensures free { free_at pools.old result.0 result.1 ≡ true }
    ensures moved { WordsMoved pools.old pools.new page slot result.0 result.1 to }
{
    let (to_page, to_slot) = take_copy(pools, pool, page, slot, to);
    write_forward(pools, page, slot, to);
    (to_page, to_slot)
}
