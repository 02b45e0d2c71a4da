// The twelve counts of a heap.
ghost use Rattle.std.specs.Prelude.{◌<◌, ◌^◌};
ghost use Rattle.space_heap.specs.SoundHeap.{IsSoundHeap};
ghost use Rattle.space_stat.specs.HeapCounts.{AreHeapCounts};

use space_heap::Heap;
use space_model::Stat;

/// The counts of `stat`, which are numbers of verdicts, pages, slots, objects, compactions and moves, with the names that they have
/// in `GC.stat` of CRuby 3.3. Live objects, free slots, and old and kept objects are counted anew, over all pages; the others
/// are told by the heap's counters. It takes no memory. That a gone object that isn't swept is neither live nor free is this project's
/// own, and so is that a major and a full verdict are both counted as `major_gc_count`.
pub fn counts_of(heap: &Heap) -> Stat
    requires minors { heap.now.counters.minor_verdicts < 2 ^ 62 }
    requires others { heap.now.counters.other_verdicts < 2 ^ 62 }
    ensures counts { AreHeapCounts heap.now result }
    ensures sound { IsSoundHeap heap.now }
{
    let minors = heap.minor_verdicts();
    let others = heap.other_verdicts();
    Stat {
        count: minors + others,
        minor_gc_count: minors,
        major_gc_count: others,
        heap_allocated_pages: u64::from(heap.page_count()),
        heap_live_slots: heap.live_objects(),
        heap_free_slots: heap.free_slots(),
        total_allocated_objects: heap.born(),
        total_freed_objects: heap.freed(),
        old_objects: heap.old_objects(),
        remembered_wb_unprotected_objects: heap.kept_objects(),
        compact_count: heap.compactions(),
        total_moved_objects: heap.moves(),
    }
}

#[cfg(test)]
mod tests {
    use super::*;
    use space_heap::Colour;
    use space_model::{Guard, Kind, Style};
    use std::test::Fail;

    // Whether an object was allocated that has so many fields.
    fn is_allocated(heap: &mut Heap, fields: u64, guard: Guard) -> bool {
        fields <= 78 && heap.born() < 1 << 40 && heap.place(fields, guard, Style::Keeping).is_ok()
    }

    // Marks the object that a word names, where it is white.
    #[tactic(auto, using(space_heap::proofs::ObjectLaws::occupied_from_word, space_heap::proofs::ObjectLaws::object_from_word))]
    fn mark(heap: &mut Heap, word: u64) {
        if let Some(address) = heap.object_at(word) {
            match heap.colour(address) {
                Colour::White => heap.grey(address),
                _ => {}
            }
        }
        if let Some(address) = heap.last_grey() {
            heap.blacken(address);
        }
    }

    // Keeps the object that an address names.
    #[tactic(auto, using(space_heap::proofs::ObjectLaws::occupied_from_object))]
    fn keep(heap: &mut Heap, address: u64) {
        if heap.is_object(address) {
            heap.keep(address);
        }
    }

    // Whether there was a verdict: nothing was grey, and none was gone.
    #[tactic(auto, using(crate::proofs::NoneGone::none_gone_counted))]
    fn settle(heap: &mut Heap, kind: Kind) -> bool {
        if heap.minor_verdicts() >= 1 << 40 || heap.other_verdicts() >= 1 << 40 {
            return false;
        }
        match heap.last_grey() {
            Some(_) => false,
            None if heap.gone_count() == 0 => {
                heap.settle(kind);
                true
            }
            None => false,
        }
    }

    // Sweeps a page, where it waits.
    fn sweep(heap: &mut Heap, page: u32) {
        if page < heap.page_count() && heap.page_unswept(page) && heap.freed() < 1 << 40 {
            heap.sweep_page(page);
        }
    }

    // The counts, where few verdicts were counted.
    fn counts(heap: &Heap) -> Option<Stat> {
        if heap.minor_verdicts() >= 1 << 40 || heap.other_verdicts() >= 1 << 40 {
            return None;
        }
        Some(counts_of(heap))
    }

    // Whether pages of three pools were added, and objects allocated on each.
    fn is_filled(heap: &mut Heap) -> bool {
        heap.add_page(0) == Ok(0)
            && heap.add_page(1) == Ok(1)
            && heap.add_page(2) == Ok(2)
            && is_allocated(heap, 3, Guard::Protected)
            && is_allocated(heap, 3, Guard::Unprotected)
            && is_allocated(heap, 3, Guard::Protected)
            && is_allocated(heap, 8, Guard::Unprotected)
            && is_allocated(heap, 18, Guard::Protected)
    }

    // Whether there were two verdicts with their sweeps, which spare three of the objects, one of them a kept one. One page is spare then.
    fn is_swept_twice(heap: &mut Heap) -> bool {
        for word in [0x10000, 0x10028, 0x20000] {
            mark(heap, word);
        }
        keep(heap, 0x10028);
        for _verdict in 0..2 {
            if !settle(heap, Kind::Minor) {
                return false;
            }
            for page in 0..3 {
                sweep(heap, page);
            }
        }
        true
    }

    #[test]
    fn a_heap_with_objects_of_each_kind(rt: HostRuntime) -> Result<(), Fail> {
        let mut heap = Heap::new(rt.alloc(), 3)?;
        assert!(rt; is_filled(&mut heap) && is_swept_twice(&mut heap));
        // The third verdict makes an object old. What it takes is neither live nor free until its page is swept.
        assert!(rt; is_allocated(&mut heap, 3, Guard::Protected));
        assert!(rt; is_allocated(&mut heap, 8, Guard::Protected));
        assert!(rt; settle(&mut heap, Kind::Full));
        let waiting = Stat {
            count: 3,
            minor_gc_count: 2,
            major_gc_count: 1,
            heap_allocated_pages: 3,
            heap_live_slots: 3,
            heap_free_slots: 1635 + 817,
            total_allocated_objects: 7,
            total_freed_objects: 2,
            old_objects: 1,
            remembered_wb_unprotected_objects: 1,
            compact_count: 0,
            total_moved_objects: 0,
        };
        assert!(rt; counts(&heap) == Some(waiting));
        sweep(&mut heap, 1);
        let swept = Stat {
            heap_free_slots: 1635 + 818,
            total_freed_objects: 3,
            ..waiting
        };
        assert!(rt; counts(&heap) == Some(swept));
        Ok(())
    }
}
