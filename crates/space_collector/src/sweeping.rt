// Sweeps of the pages that wait, the lowest first: so many, all, or until an address is free.
ghost use Rattle.std.specs.Prelude.{◌≡◌, ◌≢◌, ◌↔◌, ◌<◌, ◌≤◌, ◌+◌, ◌^◌, ℕ, List, true, [], length, min};
ghost use Rattle.space_model.specs.declared.phase.Phase.TheVariants.{Idle, Sweeping};
ghost use Rattle.space_model.specs.Layout.{pool_for as pool_of_fields};
ghost use Rattle.space_finals.specs.FinalLists.{QueuesNames};
ghost use Rattle.space_heap.specs.FreeSlots.{HasNoFree};
ghost use Rattle.space_heap.specs.SoundHeap.{IsSoundHeap};
ghost use Rattle.space_collector.specs.GoneNames.{gone_names, AreGoneOn};
ghost use Rattle.space_collector.specs.PagesSwept.{SweepsPage, SweepsPages, SweepsAll, SweepsUntilFree, LeavesRest};
ghost use Rattle.space_collector.specs.Quiescent.{most_slots, IsQuiescent};

use space_finals::Finals;
use space_heap::Heap;
use space_model::{MOST_FIELDS, POOLS, pool_for};
use space_sweep::{first_unswept, sweep, unswept};

// Queues the finalizers of the gone objects of a page, in ascending order of address. Where none is defined the page isn't
// walked over.
fn queue_gone(heap: &Heap, finals: &mut Finals, page: u32)
    requires { page < length heap.now.pages }
    ensures { (names : List ℕ) × AreGoneOn heap.now page names × QueuesNames finals.old names finals.new }
{
    if !finals.any_defined() {
        return;
    }
    let mut from = 0;
    'gone: while let Some(found) = heap.next_gone_on(page, from) {
        finals.queue(found.name);
        from = found.address + 1;
    }
}

// Sweeps the lowest page that waits, and before that the finalizers of its gone objects are queued. The answer is how many
// slots became free.
fn sweep_page(heap: &mut Heap, finals: &mut Finals) -> u64
    requires some { heap.old.unswept ≢ [] }
    requires few { heap.old.counters.freed < 2 ^ 62 }
    ensures swept { (swept : SweepsPage heap.old finals.old heap.new finals.new) × (swept.freed ≡ result) }
    ensures sound { IsSoundHeap heap.old }
{
    let Some(page) = first_unswept(heap) else {
        unreachable!();
    };
    queue_gone(heap, finals, page);
    sweep(heap)
}

/// Sweeps so many pages that wait, or all where fewer do: the lowest first. Before each the finalizers of its gone objects are
/// queued. The answer is how many slots became free. It takes no memory. Sweeping page by page is CRuby 3.3's; the order is this project's own.
pub fn sweep_pages(heap: &mut Heap, finals: &mut Finals, count: u64) -> u64
    requires quiescent { IsQuiescent heap.old }
    requires few { heap.old.counters.freed < 2 ^ 61 }
    ensures swept { SweepsPages (min count (length heap.old.unswept)) heap.old finals.old heap.new finals.new }
    ensures left { length heap.new.unswept + min count (length heap.old.unswept) ≡ length heap.old.unswept }
    ensures freed { heap.new.counters.freed ≡ heap.old.counters.freed + result }
    ensures gone { length (gone_names heap.new) + result ≡ length (gone_names heap.old) }
    ensures most { result ≤ most_slots }
    ensures rest { LeavesRest heap.old heap.new }
    ensures quiescent { IsQuiescent heap.new }
    ensures sound_before { IsSoundHeap heap.old }
    ensures sound { IsSoundHeap heap.new }
{
    let mut freed = 0;
    'pages: for _ in 0..count.min(u64::from(unswept(heap))) {
        freed += sweep_page(heap, finals);
    }
    freed
}

/// Sweeps each page that waits, the lowest first, and counts each freed slot; where none waits nothing changes. It takes no
/// memory.
pub fn sweep_all(heap: &mut Heap, finals: &mut Finals)
    requires quiescent { IsQuiescent heap.old }
    requires few { heap.old.counters.freed < 2 ^ 61 }
    ensures swept { SweepsAll heap.old finals.old heap.new finals.new }
    ensures none_waits { heap.new.unswept ≡ [] }
    ensures freed { heap.new.counters.freed ≡ heap.old.counters.freed + length (gone_names heap.old) }
    ensures most { heap.new.counters.freed ≤ heap.old.counters.freed + most_slots }
    ensures idle { heap.old.phase ≡ Sweeping → heap.new.phase ≡ Idle }
    ensures same { heap.old.phase ≢ Sweeping → heap.new ≡ heap.old }
    ensures none_queued { heap.old.phase ≢ Sweeping → finals.new ≡ finals.old }
    ensures rest { LeavesRest heap.old heap.new }
    ensures quiescent { IsQuiescent heap.new }
    ensures sound_before { IsSoundHeap heap.old }
    ensures sound { IsSoundHeap heap.new }
{
    let pages = unswept(heap);
    sweep_pages(heap, finals, u64::from(pages));
}

// Whether a page is to be swept for the pool: no address is free for it, and a page waits.
fn needs_sweep(heap: &Heap, pool: u8) -> bool
    requires { pool < POOLS }
    ensures needs { (result ≡ true) ↔ (HasNoFree heap.now pool × (heap.now.unswept ≢ [])) }
    ensures sound { IsSoundHeap heap.now }
{
    match heap.lowest_free(pool) {
        Some(_) => false,
        None => unswept(heap) > 0,
    }
}

/// Sweeps pages that wait, the lowest first, until an address is free for an object with so many fields, or none waits.
/// Where an address is free at once nothing changes. It takes no memory. Sweeping when a slot is needed is CRuby 3.3's.
pub fn sweep_until_free(heap: &mut Heap, finals: &mut Finals, fields: u64)
    requires fields { fields ≤ MOST_FIELDS }
    requires quiescent { IsQuiescent heap.old }
    requires few { heap.old.counters.freed < 2 ^ 61 }
    ensures swept { SweepsUntilFree heap.old finals.old heap.new finals.new (pool_of_fields fields) }
    ensures most { heap.new.counters.freed ≤ heap.old.counters.freed + most_slots }
    ensures rest { LeavesRest heap.old heap.new }
    ensures quiescent { IsQuiescent heap.new }
    ensures sound_before { IsSoundHeap heap.old }
{
    let Some(pool) = pool_for(fields) else {
        unreachable!();
    };
    'pages: while needs_sweep(heap, pool) {
        sweep_page(heap, finals);
    }
}
