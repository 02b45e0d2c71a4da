// The planes of one page, which tell all of its slots but their words.
ghost use Rattle.std.specs.Prelude.{◌≡◌, ◌<◌, ◌≤◌, ℕ, true, false, [], ◌∷◌, ◌++◌, not, ◌&&◌, length, map, slice_set, vec_capacity, IfOk, MatchOption};
ghost use Rattle.space_planes.specs.Planes.{bit};
ghost use Rattle.space_heap.specs.planes.MarkPlanes.{clear_marks, AreWide, new_marks, traits_from, marks_at, guard_from, is_unprotected, colour_from, age_from, is_present, is_minor_scan_in, is_finish_scan_in};
ghost use Rattle.space_heap.specs.Walks.{HasNoneFrom, IsNext, is_sought_in};
ghost use Rattle.space_heap.specs.planes.RecolouredMarks.{is_marked as is_marked_colour, is_black as is_black_colour, recoloured_marks, unmarked_marks, remembered_marks, kept_marks, unprotected_marks, old_marked_marks};

use crate::colour::Colour;
use space_model::Guard;
use space_planes::{MOST_BITS, Plane};
use std::alloc::{AllocError as NoMemory, Global};

// The planes of one page.
#[derive(Drop)]
pub struct Marks {
    pub object: Plane,
    pub moved: Plane,
    pub guard: Plane,
    pub marked: Plane,
    pub black: Plane,
    pub age_low: Plane,
    pub age_high: Plane,
    pub remembered: Plane,
    pub kept: Plane,
    pub pinned: Plane,
    pub gone: Plane,
}

// What the planes tell of one object.
#[derive(Clone, Copy)]
pub struct Traits {
    pub guard: Guard,
    pub colour: Colour,
    pub age: u8,
    pub remembered: bool,
    pub kept: bool,
    pub pinned: bool,
    pub gone: bool,
}

// What a walk over slots seeks: objects that aren't gone, those that are, those that a minor marking scans from its start, or
// those that the end of a major marking scans again.
#[derive(Clone, Copy)]
pub enum Sought {
    Present,
    Gone,
    MinorScan,
    FinishScan,
}

// The guard by its bit.
fn guard_of(unprotected: bool) -> Guard
    ensures { result ≡ guard_from unprotected }
{
    if unprotected {
        Guard::Unprotected
    } else {
        Guard::Protected
    }
}

// The colour by its two bits.
fn colour_of(marked: bool, black: bool) -> Colour
    ensures { result ≡ colour_from marked black }
{
    if !marked {
        Colour::White
    } else if black {
        Colour::Black
    } else {
        Colour::Grey
    }
}

// The age by its two bits.
fn age_of(low: bool, high: bool) -> u8
    ensures age { result ≡ age_from low high }
    ensures most { result ≤ 3 }
{
    u8::from(low) + 2 * u8::from(high)
}

// Writes the bit of a guard.
fn write_guard(plane: &mut Plane, s: u32, guard: Guard)
    requires { s < length plane.old }
    ensures { plane.new ≡ slice_set plane.old s (is_unprotected guard) }
{
    match guard {
        Guard::Protected => plane.clear(s),
        Guard::Unprotected => plane.set(s),
    }
}

// Whether an object of this colour is marked.
fn is_marked(colour: Colour) -> bool
    ensures { result ≡ is_marked_colour colour }
{
    match colour {
        Colour::White => false,
        Colour::Grey | Colour::Black => true,
    }
}

// Whether the fields of an object of this colour were read.
fn is_black(colour: Colour) -> bool
    ensures { result ≡ is_black_colour colour }
{
    match colour {
        Colour::White | Colour::Grey => false,
        Colour::Black => true,
    }
}

// Writes a bit.
pub fn write_bit(plane: &mut Plane, s: u32, bit: bool)
    requires { s < length plane.old }
    ensures { plane.new ≡ slice_set plane.old s bit }
{
    if bit {
        plane.set(s);
    } else {
        plane.clear(s);
    }
}

// The planes of a page.
pub fn marks_of(marks: &Vec<Marks>, page: u32) -> &Marks
    requires { page < length marks.now.items }
    ensures { result.now ≡ marks_at marks.now.items page }
{
    &marks[page as usize]
}

// Marks a slot of a page as that of a new object.
pub fn begin_slot(marks: &mut Vec<Marks>, page: u32, slot: u32, guard: Guard)
    requires there { page < length marks.old.items }
    requires wide { AreWide (marks_at marks.old.items page) (length (marks_at marks.old.items page).object) }
    requires within { slot < length (marks_at marks.old.items page).object }
    ensures items { marks.new.items ≡ slice_set marks.old.items page (new_marks (marks_at marks.old.items page) slot guard) }
    ensures room { vec_capacity marks.new ≡ vec_capacity marks.old }
{
    marks[page as usize].begin(slot, guard);
}

// Gives the object of a slot of a page a colour.
pub fn recolour_slot(marks: &mut Vec<Marks>, page: u32, slot: u32, colour: Colour)
    requires there { page < length marks.old.items }
    requires wide { AreWide (marks_at marks.old.items page) (length (marks_at marks.old.items page).object) }
    requires within { slot < length (marks_at marks.old.items page).object }
    ensures items { marks.new.items ≡ slice_set marks.old.items page (recoloured_marks (marks_at marks.old.items page) slot colour) }
    ensures room { vec_capacity marks.new ≡ vec_capacity marks.old }
{
    marks[page as usize].recolour(slot, colour);
}

// Takes all marks of a marking away.
pub fn unmark_pages(marks: &mut Vec<Marks>)
    ensures items { marks.new.items ≡ map unmarked_marks marks.old.items }
    ensures room { vec_capacity marks.new ≡ vec_capacity marks.old }
{
    for page in 0..marks.len() {
        marks[page].unmark();
    }
}

// The object of a slot of a page is remembered, or isn't any more.
pub fn remember_slot(marks: &mut Vec<Marks>, page: u32, slot: u32, remembered: bool)
    requires there { page < length marks.old.items }
    requires wide { AreWide (marks_at marks.old.items page) (length (marks_at marks.old.items page).object) }
    requires within { slot < length (marks_at marks.old.items page).object }
    ensures items { marks.new.items ≡ slice_set marks.old.items page (remembered_marks (marks_at marks.old.items page) slot remembered) }
    ensures room { vec_capacity marks.new ≡ vec_capacity marks.old }
{
    marks[page as usize].remember(slot, remembered);
}

// The object of a slot of a page is kept.
pub fn keep_slot(marks: &mut Vec<Marks>, page: u32, slot: u32)
    requires there { page < length marks.old.items }
    requires wide { AreWide (marks_at marks.old.items page) (length (marks_at marks.old.items page).object) }
    requires within { slot < length (marks_at marks.old.items page).object }
    ensures items { marks.new.items ≡ slice_set marks.old.items page (kept_marks (marks_at marks.old.items page) slot) }
    ensures room { vec_capacity marks.new ≡ vec_capacity marks.old }
{
    marks[page as usize].keep(slot);
}

// The object of a slot of a page is unprotected.
pub fn unprotect_slot(marks: &mut Vec<Marks>, page: u32, slot: u32)
    requires there { page < length marks.old.items }
    requires wide { AreWide (marks_at marks.old.items page) (length (marks_at marks.old.items page).object) }
    requires within { slot < length (marks_at marks.old.items page).object }
    ensures items { marks.new.items ≡ slice_set marks.old.items page (unprotected_marks (marks_at marks.old.items page) slot) }
    ensures room { vec_capacity marks.new ≡ vec_capacity marks.old }
{
    marks[page as usize].unprotect(slot);
}

// On all pages old and kept objects are black, and all others white.
pub fn mark_old_pages(marks: &mut Vec<Marks>)
    requires { (k : ℕ) → AreWide (marks_at marks.old.items k) (length (marks_at marks.old.items k).object) }
    ensures len { length marks.new.items ≡ length marks.old.items }
    ensures each { (k : ℕ) → marks_at marks.new.items k ≡ old_marked_marks (marks_at marks.old.items k) }
    ensures room { vec_capacity marks.new ≡ vec_capacity marks.old }
{
    'pages: for page in 0..marks.len() {
        marks[page].mark_old();
    }
}

// Makes the planes of a page those of a page of so many slots, without a mark.
pub fn reset_page(marks: &mut Vec<Marks>, page: u32, slots: u32)
    requires there { page < length marks.old.items }
    requires most { slots ≤ MOST_BITS }
    ensures items { marks.new.items ≡ slice_set marks.old.items page (clear_marks slots) }
    ensures room { vec_capacity marks.new ≡ vec_capacity marks.old }
{
    marks[page as usize].reset(slots);
}

// Puts the planes of the next page behind the others.
pub fn append_page(marks: &mut Vec<Marks>, made: Marks)
    requires { length marks.old.items < vec_capacity marks.old }
    ensures items { marks.new.items ≡ marks.old.items ++ made ∷ [] }
    ensures room { vec_capacity marks.old ≤ vec_capacity marks.new }
{
    marks.push_reserved(made);
}

impl Marks {
    // The planes of a page of so many slots. They take all the memory that they will ever need.
    pub fn new(alloc: Global, slots: u32) -> Result<Marks, NoMemory>
        requires { slots ≤ MOST_BITS }
        ensures { IfOk result (λ marks. marks ≡ clear_marks slots) }
    {
        Ok(Marks {
            object: Plane::new(alloc, slots)?,
            moved: Plane::new(alloc, slots)?,
            guard: Plane::new(alloc, slots)?,
            marked: Plane::new(alloc, slots)?,
            black: Plane::new(alloc, slots)?,
            age_low: Plane::new(alloc, slots)?,
            age_high: Plane::new(alloc, slots)?,
            remembered: Plane::new(alloc, slots)?,
            kept: Plane::new(alloc, slots)?,
            pinned: Plane::new(alloc, slots)?,
            gone: Plane::new(alloc, slots)?,
        })
    }

    // Makes them the planes of a page of so many slots, without a mark. It takes no memory.
    pub fn reset(&mut self, slots: u32)
        requires { slots ≤ MOST_BITS }
        ensures { self.new ≡ clear_marks slots }
    {
        self.object.reset(slots);
        self.moved.reset(slots);
        self.guard.reset(slots);
        self.marked.reset(slots);
        self.black.reset(slots);
        self.age_low.reset(slots);
        self.age_high.reset(slots);
        self.remembered.reset(slots);
        self.kept.reset(slots);
        self.pinned.reset(slots);
        self.gone.reset(slots);
    }

    // Marks the slot as that of a new object: every mark that an earlier one left is cleared.
    pub fn begin(&mut self, s: u32, guard: Guard)
        requires wide { AreWide self.old (length self.old.object) }
        requires within { s < length self.old.object }
        ensures { self.new ≡ new_marks self.old s guard }
    {
        self.object.set(s);
        self.moved.clear(s);
        write_guard(&mut self.guard, s, guard);
        self.marked.clear(s);
        self.black.clear(s);
        self.age_low.clear(s);
        self.age_high.clear(s);
        self.remembered.clear(s);
        self.kept.clear(s);
        self.pinned.clear(s);
        self.gone.clear(s);
    }

    // Gives the object of the slot a colour.
    pub fn recolour(&mut self, s: u32, colour: Colour)
        requires wide { AreWide self.old (length self.old.object) }
        requires within { s < length self.old.object }
        ensures { self.new ≡ recoloured_marks self.old s colour }
    {
        write_bit(&mut self.marked, s, is_marked(colour));
        write_bit(&mut self.black, s, is_black(colour));
    }

    // Makes every object white, and neither remembered nor kept.
    pub fn unmark(&mut self)
        ensures { self.new ≡ unmarked_marks self.old }
    {
        self.marked.fill(false);
        self.black.fill(false);
        self.remembered.fill(false);
        self.kept.fill(false);
    }

    // The object of the slot is remembered, or isn't any more.
    pub fn remember(&mut self, s: u32, remembered: bool)
        requires wide { AreWide self.old (length self.old.object) }
        requires within { s < length self.old.object }
        ensures { self.new ≡ remembered_marks self.old s remembered }
    {
        write_bit(&mut self.remembered, s, remembered);
    }

    // The object of the slot is kept.
    pub fn keep(&mut self, s: u32)
        requires wide { AreWide self.old (length self.old.object) }
        requires within { s < length self.old.object }
        ensures { self.new ≡ kept_marks self.old s }
    {
        self.kept.set(s);
    }

    // The object of the slot is unprotected: it has age 0, and isn't remembered.
    pub fn unprotect(&mut self, s: u32)
        requires wide { AreWide self.old (length self.old.object) }
        requires within { s < length self.old.object }
        ensures { self.new ≡ unprotected_marks self.old s }
    {
        self.guard.set(s);
        self.age_low.clear(s);
        self.age_high.clear(s);
        self.remembered.clear(s);
    }

    // Old and kept objects are black, and all others white.
    pub fn mark_old(&mut self)
        requires { AreWide self.old (length self.old.object) }
        ensures { self.new ≡ old_marked_marks self.old }
    {
        self.age_low.and_into(&self.age_high, &mut self.black);
        self.black.and_not_into(&self.guard, &mut self.marked);
        self.marked.or_into(&self.kept, &mut self.black);
        self.marked.copy_from(&self.black);
    }

    // Whether a minor marking scans the object of the slot from its start.
    fn is_minor_scan(&self, s: u32) -> bool
        requires wide { AreWide self.now (length self.now.object) }
        requires within { s < length self.now.object }
        ensures { result ≡ is_minor_scan_in self.now s }
    {
        // Few slots are remembered or kept, so most are passed by after these two marks.
        if !self.remembered.get(s) && !self.kept.get(s) {
            return false;
        }
        let old = self.age_low.get(s) && self.age_high.get(s) && !self.guard.get(s);
        let black = self.marked.get(s) && self.black.get(s);
        self.is_present(s) && black && (old && self.remembered.get(s) || self.kept.get(s))
    }

    // The first slot from `s` on that a minor marking scans from its start.
    fn first_minor_scan(&self, s: u32) -> Option<u32>
        requires { AreWide self.now (length self.now.object) }
        ensures { MatchOption result (HasNoneFrom (is_minor_scan_in self.now) s) (IsNext (is_minor_scan_in self.now) s) }
    {
        let mut at = s;
        'slots: while at < self.object.len() {
            if self.is_minor_scan(at) {
                return Some(at);
            }
            at += 1;
        }
        None
    }

    // Whether the end of a major marking scans the object of the slot again.
    fn is_finish_scan(&self, s: u32) -> bool
        requires wide { AreWide self.now (length self.now.object) }
        requires within { s < length self.now.object }
        ensures { result ≡ is_finish_scan_in self.now s }
    {
        self.guard.get(s) && self.marked.get(s) && self.black.get(s) && self.is_present(s)
    }

    // The first slot from `s` on that the end of a major marking scans again.
    fn first_finish_scan(&self, s: u32) -> Option<u32>
        requires { AreWide self.now (length self.now.object) }
        ensures { MatchOption result (HasNoneFrom (is_finish_scan_in self.now) s) (IsNext (is_finish_scan_in self.now) s) }
    {
        // Few objects are unprotected, so most slots are passed by in their plane, many at once.
        let mut at = s;
        'slots: while at < self.object.len() {
            let Some(slot) = self.guard.first_set_from(at) else {
                return None;
            };
            if self.is_finish_scan(slot) {
                return Some(slot);
            }
            at = slot + 1;
        }
        None
    }

    // Whether the slot holds an object that isn't gone.
    pub fn is_present(&self, s: u32) -> bool
        requires wide { AreWide self.now (length self.now.object) }
        requires within { s < length self.now.object }
        ensures { result ≡ (bit self.now.object s && not (bit self.now.gone s)) }
    {
        self.object.get(s) && !self.gone.get(s)
    }

    // Whether the slot holds a white object that isn't gone.
    pub fn is_white(&self, s: u32) -> bool
        requires wide { AreWide self.now (length self.now.object) }
        requires within { s < length self.now.object }
        ensures { result ≡ (is_present self.now s && not (bit self.now.marked s)) }
    {
        self.is_present(s) && !self.marked.get(s)
    }

    // Whether the object of the slot was moved.
    pub fn is_moved(&self, s: u32) -> bool
        requires { s < length self.now.moved }
        ensures { result ≡ bit self.now.moved s }
    {
        self.moved.get(s)
    }

    // What the planes tell of the object of the slot.
    pub fn traits(&self, s: u32) -> Traits
        requires wide { AreWide self.now (length self.now.object) }
        requires within { s < length self.now.object }
        ensures traits { result ≡ traits_from self.now s }
        ensures most { result.age ≤ 3 }
    {
        Traits {
            guard: guard_of(self.guard.get(s)),
            colour: colour_of(self.marked.get(s), self.black.get(s)),
            age: age_of(self.age_low.get(s), self.age_high.get(s)),
            remembered: self.remembered.get(s),
            kept: self.kept.get(s),
            pinned: self.pinned.get(s),
            gone: self.gone.get(s),
        }
    }

    // The first slot from `s` on that holds an object that isn't gone.
    fn first_present(&self, s: u32) -> Option<u32>
        requires { AreWide self.now (length self.now.object) }
        ensures { MatchOption result (HasNoneFrom (is_present self.now) s) (IsNext (is_present self.now) s) }
    {
        let mut at = s;
        'slots: while at < self.object.len() {
            if self.is_present(at) {
                return Some(at);
            }
            at += 1;
        }
        None
    }

    // The first slot from `s` on that holds what is sought.
    pub fn first(&self, sought: Sought, s: u32) -> Option<u32>
        requires { AreWide self.now (length self.now.object) }
        ensures { MatchOption result (HasNoneFrom (is_sought_in sought self.now) s) (IsNext (is_sought_in sought self.now) s) }
    {
        match sought {
            Sought::Present => self.first_present(s),
            Sought::Gone => self.gone.first_set_from(s),
            Sought::MinorScan => self.first_minor_scan(s),
            Sought::FinishScan => self.first_finish_scan(s),
        }
    }
}
