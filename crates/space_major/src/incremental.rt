// A major marking in parts: its start, some of its scans, and its end.
ghost use Rattle.std.specs.Prelude.{◌≡◌, ◌≢◌, ◌↔◌, ◌<◌, ◌≤◌, ◌+◌, ◌^◌, ℕ, [], length};
ghost use Rattle.space_roots.specs.WordRoots.{root_words};
ghost use Rattle.space_heap.specs.Marking.{colour_of, IsCoherent};
ghost use Rattle.space_heap.specs.SoundHeap.{IsSoundHeap};
ghost use Rattle.space_heap.specs.Sweeping.{HasNoGone};
ghost use Rattle.space_tracing.specs.Scans.{scans};
ghost use Rattle.space_tracing.specs.Graph.{SameGraph};
ghost use Rattle.space_tracing.specs.Marking.{IsMarked, IsNoted, GoesOn, CountsAre};
ghost use Rattle.space_major.specs.Incremental.{started, IsTricolour, IsMarkedAtEnd, IsFinishScan, IsNewlyBlack, IsFinishScanned, ScansUnprotected};

use crate::marking::visit_starts;
use space_heap::{Colour, Heap};
use space_model::{Ledger, Phase, Steps};
use space_roots::{Roots, Stack};
use space_tracing::{drain, scan_again, scan_some};

/// What some scans came to.
#[derive(Clone, Copy, Debug, PartialEq, Eq)]
pub struct Marked {
    /// How many objects were scanned.
    pub scanned: u64,
    /// How many objects are grey after them.
    pub grey: u64,
}

/// Begins a major marking (incremental marking of CRuby 3.3): all marks are taken away, remembered and kept ones too, and
/// then the objects are grey that roots name, in their order, and that the stack names, from its bottom. Nothing is scanned,
/// and it takes no memory.
pub fn start(heap: &mut Heap, roots: &Roots, stack: &Stack)
    ensures { heap.new ≡ started heap.old (root_words roots.now) stack.now }
{
    heap.unmark();
    heap.set_phase(Phase::Marking);
    visit_starts(heap, roots, stack);
}

/// Makes `n` scans of a major marking, or fewer where nothing is grey any more: always of the object that became grey last,
/// each in one step (this project's own). The grey ones are counted, each once. It takes no memory.
pub fn mark<L: Ledger>(heap: &mut Heap, n: u64, steps: &mut Steps<L>) -> Marked
    requires { steps.old < 2 ^ 62 }
    ensures scans { heap.new ≡ scans result.scanned heap.old }
    ensures few { result.scanned ≤ n }
    ensures all { result.scanned < n → heap.new.grey ≡ [] }
    ensures goes_on { GoesOn heap.old heap.new result.scanned }
    ensures grey { result.grey ≡ length heap.new.grey }
    ensures coherent { IsCoherent heap.new }
    ensures small { result.scanned < 2 ^ 23 }
    ensures ticks { steps.new ≡ steps.old + result.scanned }
{
    let scanned = scan_some(heap, n, steps);
    Marked {
        scanned,
        grey: heap.grey_count(),
    }
}

// Scans the black unprotected objects again, in ascending address. The answer is the number of scans.
fn scan_unprotected<L: Ledger>(heap: &mut Heap, steps: &mut Steps<L>) -> u64
    requires { steps.old < 2 ^ 62 }
    ensures listed { ScansUnprotected heap.old heap.new result }
    ensures few { result ≤ 2 ^ 29 }
    ensures ticks { steps.new ≡ steps.old + result }
    ensures sound { IsSoundHeap heap.new }
{
    let mut scans: u64 = 0;
    let mut from = 0;
    'scans: while let Some(address) = heap.next_finish_scan(from) {
        scan_again(heap, address, steps);
        scans += 1;
        from = address + 1;
    }
    scans
}

/// Ends a major marking, so that nothing is grey: it reads roots and stack again, and scans each black unprotected object
/// again, since no write barrier told of what was stored in it (CRuby 3.3); then it scans what is grey. The answer is how many
/// objects were scanned, each in one step. Which objects are marked is told of heaps without gone objects in which no black
/// protected object has a white child, as the write barrier keeps it; all else is told of every heap. The order is this
/// project's own: roots, the stack from its bottom, the black unprotected objects by ascending address, and always the object
/// that became grey last. The phase stays, and it takes no memory.
pub fn finish<L: Ledger>(heap: &mut Heap, roots: &Roots, stack: &Stack, steps: &mut Steps<L>) -> u64
    requires { steps.old < 2 ^ 62 }
    ensures marked { HasNoGone heap.old → IsTricolour heap.old → (n : ℕ) → IsMarked heap.new n ↔ IsMarkedAtEnd heap.old (root_words roots.now) stack.now n }
    ensures counted { CountsAre (IsFinishScan heap.old) (IsNewlyBlack heap.old heap.new) result }
    ensures noted { IsNoted heap.old heap.new (IsFinishScanned heap.old heap.new) }
    ensures few { result < 2 ^ 24 }
    ensures ticks { steps.new ≡ steps.old + result }
    ensures no_list { heap.new.grey ≡ [] }
    ensures none_grey { (n : ℕ) → colour_of heap.new n ≢ Colour.Grey }
    ensures same { SameGraph heap.old heap.new }
{
    visit_starts(heap, roots, stack);
    let again = scan_unprotected(heap, steps);
    again + drain(heap, steps)
}
