// Stores into fields with the write barrier.
ghost use Rattle.std.specs.Prelude.{◌≡◌, ◌<◌, true, false, length};
ghost use Rattle.space_heap.specs.Objects.{is_object, object_of};
ghost use Rattle.space_model.specs.Ages.{is_protected_guard};
ghost use Rattle.space_heap.specs.planes.RecolouredMarks.{is_black as is_black_colour};
ghost use Rattle.space_heap.specs.Generations.{is_old as is_old_object};
ghost use Rattle.space_barrier.specs.Barrier.{is_marking as is_marking_phase, remembered_for, greyed_for, barred, stored};

use space_heap::{Colour, Heap};
use space_model::{Guard, Phase};

// Whether stores into an object with this guard go through the write barrier.
pub fn is_protected(guard: Guard) -> bool
    ensures { result ≡ is_protected_guard guard }
{
    match guard {
        Guard::Protected => true,
        Guard::Unprotected => false,
    }
}

// Whether a marking is under way.
fn is_marking(phase: Phase) -> bool
    ensures { result ≡ is_marking_phase phase }
{
    match phase {
        Phase::Marking => true,
        Phase::Idle | Phase::Sweeping | Phase::Moving | Phase::Fixing => false,
    }
}

// Whether it is the colour of an object whose fields were read.
fn is_black(colour: Colour) -> bool
    ensures { result ≡ is_black_colour colour }
{
    match colour {
        Colour::White | Colour::Grey => false,
        Colour::Black => true,
    }
}

// Whether the object is old: it is protected, and has age 3.
#[tactic(auto, using(crate::proofs::StoreLaws::storing))]
fn is_old(heap: &Heap, address: u64) -> bool
    requires { is_object heap.now address ≡ true }
    ensures { result ≡ is_old_object (object_of heap.now address) }
{
    is_protected(heap.guard(address)) && heap.age(address) >= 3
}

// An object of age 2 or more is remembered where the child that it gets isn't old.
#[tactic(auto, using(crate::proofs::StoreLaws::storing))]
fn remember_for(heap: &mut Heap, address: u64, child: u64)
    requires object { is_object heap.old address ≡ true }
    requires child { is_object heap.old child ≡ true }
    ensures { heap.new ≡ remembered_for heap.old address child }
{
    if heap.age(address) >= 2 && !is_old(heap, child) {
        heap.remember(address, true);
    }
}

// In a marking a white child that a black object gets is grey.
#[tactic(auto, using(crate::proofs::StoreLaws::storing))]
fn grey_for(heap: &mut Heap, address: u64, child: u64)
    requires object { is_object heap.old address ≡ true }
    requires child { is_object heap.old child ≡ true }
    ensures { heap.new ≡ greyed_for heap.old address child }
{
    if is_marking(heap.phase()) && is_black(heap.colour(address)) {
        heap.grey_if_white(child);
    }
}

// The write barrier, after a protected object got a child.
#[tactic(auto, using(crate::proofs::StoreLaws::storing))]
fn bar(heap: &mut Heap, address: u64, child: u64)
    requires object { is_object heap.old address ≡ true }
    requires child { is_object heap.old child ≡ true }
    ensures { heap.new ≡ barred heap.old address child }
{
    remember_for(heap, address, child);
    grey_for(heap, address, child);
}

/// Writes a word into a field of an object, with the write barrier of CRuby 3.3. Where the word names an object and the
/// barrier protects the one that has the field: this is remembered where it has age 2 or more and the child isn't old; and
/// during a marking a white child of a black one becomes grey. It takes no memory.
#[tactic(auto, using(crate::proofs::StoreLaws::storing))]
pub fn store(heap: &mut Heap, address: u64, i: u64, word: u64)
    requires object { is_object heap.old address ≡ true }
    requires field { i < length (object_of heap.old address).fields }
    ensures { heap.new ≡ stored heap.old address i word }
{
    heap.write_word(address, i, word);
    if heap.is_object(word) && is_protected(heap.guard(address)) {
        bar(heap, address, word);
    }
}

#[cfg(test)]
mod tests {
    use super::*;
    use space_model::Style;
    use std::test::Fail;

    // Whether an object was allocated that has one field.
    fn is_allocated(heap: &mut Heap) -> bool {
        heap.born() < 1 << 40 && heap.place(1, Guard::Protected, Style::Keeping).is_ok()
    }

    // A store of a word into the field of the object that an address names.
    #[tactic(auto, using(space_heap::proofs::ObjectLaws::occupied_from_object))]
    fn write(heap: &mut Heap, address: u64, word: u64) {
        if heap.is_object(address) && heap.field_count(address) == 1 {
            store(heap, address, 0, word);
        }
    }

    // Whether the object that an address names is remembered.
    #[tactic(auto, using(space_heap::proofs::ObjectLaws::occupied_from_object))]
    fn is_remembered(heap: &Heap, address: u64) -> bool {
        heap.is_object(address) && heap.remembered(address)
    }

    #[test]
    fn a_young_object_is_not_remembered(rt: HostRuntime) -> Result<(), Fail> {
        let mut heap = Heap::new(rt.alloc(), 1)?;
        assert!(rt;
            heap.add_page(0) == Ok(0) && is_allocated(&mut heap) && is_allocated(&mut heap)
        );
        write(&mut heap, 0x10000, 0x10028);
        assert!(rt; !is_remembered(&heap, 0x10000) && !is_remembered(&heap, 0x10028));
        Ok(())
    }
}
