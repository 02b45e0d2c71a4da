// A minor marking.
ghost use Rattle.std.specs.Prelude.{◌≡◌, ◌≢◌, ◌↔◌, ◌<◌, ◌≤◌, ◌+◌, ◌^◌, ℕ, []};
ghost use Rattle.space_roots.specs.WordRoots.{root_words};
ghost use Rattle.space_heap.specs.Marking.{colour_of};
ghost use Rattle.space_heap.specs.Generations.{old_marked};
ghost use Rattle.space_heap.specs.SoundHeap.{IsSoundHeap};
ghost use Rattle.space_heap.specs.Sweeping.{HasNoGone};
ghost use Rattle.space_tracing.specs.Graph.{SameGraph};
ghost use Rattle.space_tracing.specs.Marking.{IsMarked, IsNoted, CountsAre};
ghost use Rattle.space_minor.specs.FirstScans.{ScansListed};
ghost use Rattle.space_minor.specs.Minors.{IsGenerational, IsMinorScan, IsSpared, IsNewlyMarked, IsMinorScanned};

use space_heap::{Colour, Heap};
use space_model::{Ledger, Steps};
use space_roots::{Roots, Stack};
use space_tracing::{drain, scan_again, visit_all, visit_roots};

// Scans what a minor marking scans from its start, in ascending address. The answer is the number of scans.
fn scan_listed<L: Ledger>(heap: &mut Heap, steps: &mut Steps<L>) -> u64
    requires { steps.old < 2 ^ 62 }
    ensures listed { ScansListed heap.old heap.new result }
    ensures few { result ≤ 2 ^ 29 }
    ensures ticks { steps.new ≡ steps.old + result }
    ensures sound { IsSoundHeap heap.new }
{
    let mut scans: u64 = 0;
    let mut from = 0;
    'scans: while let Some(address) = heap.next_minor_scan(from) {
        scan_again(heap, address, steps);
        scans += 1;
        from = address + 1;
    }
    scans
}

/// A minor marking of CRuby 3.3: old and kept objects are marked from its start, and of these only the old ones that are
/// remembered and the kept ones are scanned; then it marks what roots and the stack lead to. The answer is how many objects
/// were scanned, each in one step. Which objects are marked is told of heaps in which each old object that isn't remembered
/// has only old or kept children, as the write barrier keeps it; all else is told of every heap. The order is this project's
/// own: first those that it scans from its start, by ascending address; then roots, the stack from its bottom, and always the
/// object that became grey last. It takes no memory.
pub fn minor<L: Ledger>(heap: &mut Heap, roots: &Roots, stack: &Stack, steps: &mut Steps<L>) -> u64
    requires steps { steps.old < 2 ^ 62 }
    requires none_gone { HasNoGone heap.old }
    ensures marked { IsGenerational heap.old → (n : ℕ) → IsMarked heap.new n ↔ IsSpared heap.old (root_words roots.now) stack.now n }
    ensures counted { CountsAre (IsMinorScan heap.old) (IsNewlyMarked heap.old heap.new) result }
    ensures noted { IsNoted (old_marked heap.old) heap.new (IsMinorScanned heap.old heap.new) }
    ensures few { result < 2 ^ 24 }
    ensures ticks { steps.new ≡ steps.old + result }
    ensures no_list { heap.new.grey ≡ [] }
    ensures none_grey { (n : ℕ) → colour_of heap.new n ≢ Colour.Grey }
    ensures same { SameGraph heap.old heap.new }
{
    heap.mark_old();
    let first = scan_listed(heap, steps);
    visit_roots(heap, roots);
    visit_all(heap, stack.words());
    first + drain(heap, steps)
}
