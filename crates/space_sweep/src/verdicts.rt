// A verdict, what it takes, and the sweep of one page after another.
ghost use Rattle.std.specs.Prelude.{◌≡◌, ◌≢◌, ◌↔◌, ◌<◌, ◌+◌, ◌^◌, ℕ, [], length, IfSome, MatchOption};
ghost use Rattle.space_model.specs.Counts.{CountIs};
ghost use Rattle.space_heap.specs.SoundHeap.{IsSoundHeap};
ghost use Rattle.space_heap.specs.Sweeping.{IsGone, settled, HasNoGone};
ghost use Rattle.space_heap.specs.Walks.{HasNoGoneFrom, IsWalkFrom, IsFurther};
ghost use Rattle.space_sweep.specs.Gone.{IsUnmarked, IsNextDead};
ghost use Rattle.space_sweep.specs.Sweeps.{phase_left, IsFirstUnswept, SweepsFirst};

use space_heap::{Heap, Walk};
use space_model::{Kind, Phase};

/// A gone object that waits for the sweep of its page.
#[derive(Clone, Copy, Debug, PartialEq, Eq)]
pub struct Dead {
    /// Its name.
    pub name: u64,
    /// The address of its slot, in bytes.
    pub address: u64,
}

/// A verdict ends a marking: each object that isn't marked is gone, and each page that has a pool
/// waits for a sweep. The answer is how many objects are gone. It takes no memory. That they are counted
/// before the first sweep is this project's own.
pub fn verdict(heap: &mut Heap, kind: Kind) -> u64
    requires none_grey { heap.old.grey ≡ [] }
    requires none_gone { HasNoGone heap.old }
    requires minors { heap.old.counters.minor_verdicts < 2 ^ 62 }
    requires others { heap.old.counters.other_verdicts < 2 ^ 62 }
    ensures settled { heap.new ≡ settled heap.old kind }
    ensures taken { (a : ℕ) → IsGone heap.new a ↔ IsUnmarked heap.old a }
    ensures gone { CountIs (IsGone heap.new) result }
    ensures sound { IsSoundHeap heap.new }
{
    heap.settle(kind);
    heap.gone_count()
}

/// The gone object that isn't swept yet with the least address from where the walk has come to, or `None` where there is
/// none. The walk goes on behind the object.
pub fn next_gone(heap: &Heap, walk: &mut Walk) -> Option<Dead>
    ensures next { (from : ℕ) → IsWalkFrom heap.now walk.old from → MatchOption result (HasNoGoneFrom heap.now from) (IsNextDead heap.now from) }
    ensures behind { IfSome result (λ dead. IsWalkFrom heap.now walk.new (dead.address + 1)) }
    ensures further { IfSome result (λ dead. IsFurther heap.now walk.old walk.new) }
    ensures sound { IsSoundHeap heap.now }
{
    match heap.next_gone(walk) {
        Some(found) => Some(Dead {
            name: found.name,
            address: found.address,
        }),
        None => None,
    }
}

/// The lowest page that waits for a sweep, or `None` where none does. It isn't searched for.
pub fn first_unswept(heap: &Heap) -> Option<u32>
    ensures first { MatchOption result (heap.now.unswept ≡ []) (IsFirstUnswept heap.now) }
    ensures sound { IsSoundHeap heap.now }
{
    heap.first_unswept()
}

/// How many pages wait for a sweep, for a command that sweeps some of them and tells how many are left. They aren't
/// counted one by one.
pub fn unswept(heap: &Heap) -> u32
    ensures count { result ≡ length heap.now.unswept }
    ensures sound { IsSoundHeap heap.now }
{
    heap.unswept_pages()
}

// The phase after the sweep of a page: nothing is under way where no other page waits.
fn next_phase(heap: &Heap) -> Phase
    ensures { result ≡ phase_left heap.now.unswept heap.now.phase }
{
    match heap.first_unswept() {
        Some(_) => heap.phase(),
        None => Phase::Idle,
    }
}

/// Sweeps the lowest page that waits, and it alone. The answer is how many slots became free. After the last
/// page nothing is under way. It takes no memory. Sweeping page by page is CRuby 3.3's; that the lowest comes first is this
/// project's own.
pub fn sweep(heap: &mut Heap) -> u64
    requires some { heap.old.unswept ≢ [] }
    requires few { heap.old.counters.freed < 2 ^ 62 }
    ensures swept { SweepsFirst heap.old heap.new result }
    ensures sound { IsSoundHeap heap.old }
{
    let Some(page) = heap.first_unswept() else {
        unreachable!()
    };
    let before = heap.freed();
    heap.sweep_page(page);
    let phase = next_phase(heap);
    heap.set_phase(phase);
    let after = heap.freed();
    after - before
}

#[cfg(test)]
mod tests {
    use super::*;
    use space_heap::Colour;
    use space_model::{Guard, Style};
    use std::test::Fail;

    // Whether an object was allocated that has so many fields.
    fn is_allocated(heap: &mut Heap, fields: u64) -> bool {
        fields <= 78
            && heap.born() < 1 << 40
            && heap.place(fields, Guard::Protected, Style::Keeping).is_ok()
    }

    // Marks the object that a word names, where it is white.
    #[tactic(auto, using(space_heap::proofs::ObjectLaws::occupied_from_word, space_heap::proofs::ObjectLaws::object_from_word))]
    fn mark(heap: &mut Heap, word: u64) {
        if let Some(address) = heap.object_at(word) {
            match heap.colour(address) {
                Colour::White => heap.grey(address),
                _ => {}
            }
        }
        if let Some(address) = heap.last_grey() {
            heap.blacken(address);
        }
    }

    // How many a verdict took, where nothing is grey and none is gone.
    fn take(heap: &mut Heap, kind: Kind) -> Option<u64> {
        if heap.minor_verdicts() >= 1 << 40 || heap.other_verdicts() >= 1 << 40 {
            return None;
        }
        match heap.last_grey() {
            Some(_) => None,
            None => match heap.next_gone(&mut Walk::new()) {
                Some(_) => None,
                None => Some(verdict(heap, kind)),
            },
        }
    }

    // How many slots the next sweep freed.
    fn sweep_next(heap: &mut Heap) -> Option<u64> {
        match first_unswept(heap) {
            Some(_) if heap.freed() < 1 << 40 => Some(sweep(heap)),
            _ => None,
        }
    }

    #[test]
    fn what_is_not_marked_is_gone_until_its_page_is_swept(rt: HostRuntime) -> Result<(), Fail> {
        let mut heap = Heap::new(rt.alloc(), 3)?;
        assert!(rt; heap.add_page(0) == Ok(0) && heap.add_page(1) == Ok(1));
        for fields in [3, 3, 3, 8] {
            assert!(rt; is_allocated(&mut heap, fields));
        }
        mark(&mut heap, 0x10028);
        assert!(rt; take(&mut heap, Kind::Full) == Some(3));
        let mut walk = Walk::new();
        for (name, address) in [(1, 0x10000), (3, 0x10050), (4, 0x20000)] {
            assert!(rt; next_gone(&heap, &mut walk) == Some(Dead { name, address }));
        }
        assert!(rt; next_gone(&heap, &mut walk).is_none() && heap.object_at(0x10000).is_none());
        assert!(rt; heap.lowest_free(0).is_none() && heap.phase() == Phase::Sweeping);
        assert!(rt; first_unswept(&heap) == Some(0) && unswept(&heap) == 2);
        assert!(rt; sweep_next(&mut heap) == Some(2));
        assert!(rt; heap.lowest_free(0) == Some(0x10000) && heap.phase() == Phase::Sweeping);
        assert!(rt; first_unswept(&heap) == Some(1) && unswept(&heap) == 1);
        assert!(rt; sweep_next(&mut heap) == Some(1) && sweep_next(&mut heap).is_none());
        assert!(rt; first_unswept(&heap).is_none() && unswept(&heap) == 0);
        assert!(rt; heap.phase() == Phase::Idle && heap.spare_pages() == 1);
        assert!(rt; heap.freed() == 3 && heap.other_verdicts() == 1 && heap.minor_verdicts() == 0);
        Ok(())
    }
}
