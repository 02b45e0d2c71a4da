// Corrections of references.
ghost use Rattle.std.specs.Prelude.{◌≡◌, ◌+◌, ◌<◌, ◌≤◌, ◌^◌, ℕ, true, false, length, slice_index_or};
ghost use Rattle.space_heap.specs.Objects.{is_occupied, object_of, resolved, with_object, written};
ghost use Rattle.space_heap.specs.Walks.{HasNoObjectFrom};
ghost use Rattle.space_compact.specs.Visits.{fixed_object, visited, Visits, resolved_roots};

use space_heap::Heap;
use space_model::{Ledger, Steps};
use space_roots::Roots;

/// What a correction came to.
#[derive(Clone, Copy, Debug, PartialEq, Eq)]
pub struct Fixed {
    /// How many objects were visited.
    pub slots: u64,
    /// Whether no object is left to visit.
    pub done: bool,
}

// Resolves the word of a field, which is written where it names another address then.
fn fix_field(heap: &mut Heap, address: u64, i: u64, word: u64)
    requires object { is_occupied heap.old address ≡ true }
    requires field { i < length (object_of heap.old address).fields }
    requires word { word ≡ slice_index_or (object_of heap.old address).fields i 0 }
    ensures { heap.new ≡ written heap.old address i (resolved heap.old word) }
{
    let to = heap.resolve(word);
    if to != word {
        heap.write_word(address, i, to);
    }
}

// Resolves the words of the object's fields, in one step.
fn fix_fields<L: Ledger>(heap: &mut Heap, address: u64, steps: &mut Steps<L>)
    requires object { is_occupied heap.old address ≡ true }
    requires ticks { steps.old + 1 < 2 ^ 64 }
    ensures fixed { heap.new ≡ with_object heap.old address (fixed_object heap.old address) }
    ensures ticks { steps.new ≡ steps.old + 1 }
{
    let mut fields = heap.read_fields(address, steps);
    'fields: for i in 0..heap.field_count(address) {
        if let Some(word) = heap.next_field(&mut fields) {
            fix_field(heap, address, i, word);
        }
    }
}

// Visits an object.
fn visit<L: Ledger>(heap: &mut Heap, address: u64, steps: &mut Steps<L>)
    requires object { is_occupied heap.old address ≡ true }
    requires small { address < 2 ^ 32 }
    requires ticks { steps.old + 1 < 2 ^ 64 }
    ensures visited { heap.new ≡ visited heap.old address }
    ensures ticks { steps.new ≡ steps.old + 1 }
{
    fix_fields(heap, address, steps);
    heap.set_cursor(address + 1);
}

// Visits up to `n` objects, or fewer where none is left. The answer is how many.
fn visit_up_to<L: Ledger>(heap: &mut Heap, n: u64, steps: &mut Steps<L>) -> u64
    requires { steps.old < 2 ^ 62 }
    ensures visits { Visits result heap.old heap.new }
    ensures most { result ≤ n }
    ensures few { result < 2 ^ 23 }
    ensures fewer { result < n → HasNoObjectFrom heap.new heap.new.cursor }
    ensures ticks { steps.new ≡ steps.old + result }
{
    // Its clause `sound` tells that there are few objects, and that their addresses are small.
    heap.page_count();
    let mut slots = 0;
    'visits: while slots < n {
        let Some(address) = heap.next_object(heap.cursor()) else {
            return slots;
        };
        visit(heap, address, steps);
        slots += 1;
    }
    slots
}

/// Visits up to `n` objects, in ascending address from the heap's cursor on: each word of their fields is resolved, in one step
/// for an object, and the cursor is past them (that references are corrected after the moves is CRuby 3.3's, the cut by
/// commands this project's own). It takes no memory.
pub fn fix<L: Ledger>(heap: &mut Heap, n: u64, steps: &mut Steps<L>) -> Fixed
    requires { steps.old < 2 ^ 62 }
    ensures visits { Visits result.slots heap.old heap.new }
    ensures most { result.slots ≤ n }
    ensures few { result.slots < 2 ^ 23 }
    ensures done { result.done ≡ true → HasNoObjectFrom heap.new heap.new.cursor }
    ensures more { result.done ≡ false → (result.slots ≡ n) × (HasNoObjectFrom heap.new heap.new.cursor → ⊥) }
    ensures ticks { steps.new ≡ steps.old + result.slots }
{
    let slots = visit_up_to(heap, n, steps);
    let done = heap.next_object(heap.cursor()).is_none();
    Fixed { slots, done }
}

/// Visits all objects from the heap's cursor on, as `fix` does. The answer is how many. It takes no memory.
pub fn fix_all<L: Ledger>(heap: &mut Heap, steps: &mut Steps<L>) -> u64
    requires { steps.old < 2 ^ 62 }
    ensures visits { Visits result heap.old heap.new }
    ensures few { result < 2 ^ 23 }
    ensures all { HasNoObjectFrom heap.new heap.new.cursor }
    ensures ticks { steps.new ≡ steps.old + result }
{
    visit_up_to(heap, u64::MAX, steps)
}

/// Resolves the words of the roots (CRuby 3.3 corrects them too, in its own order). It takes no memory.
pub fn fix_roots(heap: &Heap, roots: &mut Roots)
    ensures { roots.new ≡ resolved_roots heap.now roots.old }
{
    'roots: for k in 0..roots.len() {
        let word = heap.resolve(roots.at(k));
        roots.put_at(k, word);
    }
}
