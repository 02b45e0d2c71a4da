// A whole marking, and what every marking from roots and stack starts from.
ghost use Rattle.std.specs.Prelude.{◌≡◌, ◌≢◌, ◌↔◌, ◌<◌, ◌+◌, ◌^◌, ℕ, []};
ghost use Rattle.space_model.specs.Counts.{CountIs};
ghost use Rattle.space_roots.specs.WordRoots.{root_words};
ghost use Rattle.space_heap.specs.Marking.{colour_of, unmarked};
ghost use Rattle.space_tracing.specs.Scans.{visited_all};
ghost use Rattle.space_tracing.specs.Graph.{IsLive, SameGraph};
ghost use Rattle.space_tracing.specs.Marking.{IsMarked, IsNoted};

use space_heap::{Colour, Heap};
use space_model::{Ledger, Steps};
use space_roots::{Roots, Stack};
use space_tracing::{drain, visit_all, visit_roots};

// Visits what marking starts from: the words of the roots in their order, and then those of the stack from its bottom.
pub fn visit_starts(heap: &mut Heap, roots: &Roots, stack: &Stack)
    ensures { heap.new ≡ visited_all (visited_all heap.old (root_words roots.now)) stack.now }
{
    visit_roots(heap, roots);
    visit_all(heap, stack.words());
}

/// Marks what is reached from the roots and the stack, as a whole marking of CRuby 3.3 does: every
/// word of the stack that names an object counts. Remembered and kept marks are found anew, by the scans
/// of objects of age 2 or more. The answer is how many objects were scanned, each in one step. The order
/// is this project's own: roots, then the stack from its bottom, then always the object that became grey
/// last. It takes no memory.
pub fn whole<L: Ledger>(heap: &mut Heap, roots: &Roots, stack: &Stack, steps: &mut Steps<L>) -> u64
    requires { steps.old < 2 ^ 62 }
    ensures marked { (n : ℕ) → IsMarked heap.new n ↔ IsLive heap.old (root_words roots.now) stack.now n }
    ensures counted { CountIs (IsLive heap.old (root_words roots.now) stack.now) result }
    ensures few { result < 2 ^ 23 }
    ensures ticks { steps.new ≡ steps.old + result }
    ensures no_list { heap.new.grey ≡ [] }
    ensures none_grey { (n : ℕ) → colour_of heap.new n ≢ Colour.Grey }
    ensures noted { IsNoted (unmarked heap.old) heap.new (IsLive heap.old (root_words roots.now) stack.now) }
    ensures same { SameGraph heap.old heap.new }
{
    heap.unmark();
    visit_starts(heap, roots, stack);
    drain(heap, steps)
}
