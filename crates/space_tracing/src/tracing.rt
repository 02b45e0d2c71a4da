// Visits of words, scans of grey objects, and of black ones again.
ghost use Rattle.std.specs.Prelude.{◌≡◌, ◌≢◌, ◌<◌, ◌≤◌, ◌+◌, ◌^◌, ℕ, true, []};
ghost use Rattle.space_roots.specs.WordRoots.{root_words};
ghost use Rattle.space_heap.specs.Objects.{is_occupied};
ghost use Rattle.space_heap.specs.Marking.{colour_of, IsLastGrey};
ghost use Rattle.space_heap.specs.Generations.{remembered_as};
ghost use Rattle.space_tracing.specs.Scans.{fields_of, has_young_child, visited_all, visited_all_by_aged, read_object, scanned, scans};
ghost use Rattle.space_tracing.specs.Marking.{GoesOn};

use space_heap::{Colour, Heap};
use space_model::{Ledger, Steps};
use space_roots::Roots;

/// Visits words in their order: each white object that one of them names is grey then (conservative marking of CRuby 3.3).
#[tactic(auto, using(crate::proofs::Inside::reading))]
pub fn visit_all(heap: &mut Heap, words: &[u64])
    ensures { heap.new ≡ visited_all heap.old words.now }
{
    for word in words {
        heap.grey_if_white(*word);
    }
}

/// Visits the words of the roots in their order (this project's own).
#[tactic(auto, using(crate::proofs::Inside::reading))]
pub fn visit_roots(heap: &mut Heap, roots: &Roots)
    ensures { heap.new ≡ visited_all heap.old (root_words roots.now) }
{
    for k in 0..roots.len() {
        heap.grey_if_white(roots.at(k));
    }
}

// Visits the fields of an object in their order, in one step.
#[inline(always)]
fn visit_fields<L: Ledger>(heap: &mut Heap, address: u64, steps: &mut Steps<L>)
    requires object { is_occupied heap.old address ≡ true }
    requires ticks { steps.old + 1 < 2 ^ 64 }
    ensures visited { heap.new ≡ visited_all heap.old (fields_of heap.old address) }
    ensures ticks { steps.new ≡ steps.old + 1 }
{
    let mut fields = heap.read_fields(address, steps);
    'fields: while let Some(word) = heap.next_field(&mut fields) {
        heap.grey_if_white(word);
    }
}

// Visits the fields of an object of age 2 or more in their order, in one step: each unprotected child is kept, and the object
// is remembered exactly where it has a protected child of age 0 or 1.
#[inline(always)]
fn visit_fields_of_aged<L: Ledger>(heap: &mut Heap, address: u64, steps: &mut Steps<L>)
    requires object { is_occupied heap.old address ≡ true }
    requires ticks { steps.old + 1 < 2 ^ 64 }
    ensures visited { heap.new ≡ remembered_as (visited_all_by_aged heap.old (fields_of heap.old address)) address (has_young_child heap.old address) }
    ensures ticks { steps.new ≡ steps.old + 1 }
{
    let mut young = false;
    let mut fields = heap.read_fields(address, steps);
    'fields: while let Some(word) = heap.next_field(&mut fields) {
        young = heap.visit_from_aged(word) | young;
    }
    heap.remember(address, young);
}

/// Scans an object that is black, for the first time or again: its fields were visited in their order, in one step. Where it has age 2 or more it is
/// remembered exactly where it has a protected child of age 0 or 1, and its unprotected children are kept (CRuby 3.3).
#[inline(always)]
pub fn scan_again<L: Ledger>(heap: &mut Heap, address: u64, steps: &mut Steps<L>)
    requires object { is_occupied heap.old address ≡ true }
    requires ticks { steps.old + 1 < 2 ^ 64 }
    ensures read { heap.new ≡ read_object heap.old address }
    ensures ticks { steps.new ≡ steps.old + 1 }
{
    if heap.age(address) >= 2 {
        visit_fields_of_aged(heap, address, steps);
    } else {
        visit_fields(heap, address, steps);
    }
}

/// Scans the object that became grey last: it is black, and its fields were visited in their order, in one step. Where it has
/// age 2 or more it is remembered exactly where it has a protected child of age 0 or 1, and its unprotected children are kept
/// (CRuby 3.3).
#[inline(always)]
pub fn scan<L: Ledger>(heap: &mut Heap, address: u64, steps: &mut Steps<L>)
    requires object { is_occupied heap.old address ≡ true }
    requires last { IsLastGrey heap.old address }
    requires ticks { steps.old + 1 < 2 ^ 64 }
    ensures scanned { heap.new ≡ scanned heap.old address }
    ensures ticks { steps.new ≡ steps.old + 1 }
{
    heap.blacken(address);
    scan_again(heap, address, steps);
}

/// Scans until nothing is grey, always the object that became grey last (this project's own). The answer is the number of
/// scans, each in one step.
pub fn drain<L: Ledger>(heap: &mut Heap, steps: &mut Steps<L>) -> u64
    requires { steps.old < 2 ^ 63 }
    ensures goes_on { GoesOn heap.old heap.new result }
    ensures no_list { heap.new.grey ≡ [] }
    ensures none_grey { (n : ℕ) → colour_of heap.new n ≢ Colour.Grey }
    ensures few { result < 2 ^ 23 }
    ensures ticks { steps.new ≡ steps.old + result }
{
    let mut scans: u64 = 0;
    'scans: while let Some(address) = heap.last_grey() {
        scan(heap, address, steps);
        scans += 1;
    }
    scans
}

/// Makes so many scans, always of the object that became grey last (this project's own), or fewer where nothing is grey any
/// more. The answer is the number of scans, each in one step. It takes no memory.
pub fn scan_some<L: Ledger>(heap: &mut Heap, count: u64, steps: &mut Steps<L>) -> u64
    requires { steps.old < 2 ^ 62 }
    ensures scans { heap.new ≡ scans result heap.old }
    ensures few { result ≤ count }
    ensures all { result < count → heap.new.grey ≡ [] }
    ensures goes_on { GoesOn heap.old heap.new result }
    ensures small { result < 2 ^ 23 }
    ensures ticks { steps.new ≡ steps.old + result }
{
    let mut made: u64 = 0;
    'scans: while made < count {
        let Some(address) = heap.last_grey() else {
            return made;
        };
        scan(heap, address, steps);
        made += 1;
    }
    made
}
