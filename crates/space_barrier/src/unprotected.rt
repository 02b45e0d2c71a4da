// Stores into objects that the write barrier doesn't protect, and how it stops protecting one.
ghost use Rattle.std.specs.Prelude.{◌≡◌, ◌<◌, true, false, length};
ghost use Rattle.space_heap.specs.Objects.{is_object, object_of, written};
ghost use Rattle.space_heap.specs.Generations.{is_protected_at};
ghost use Rattle.space_barrier.specs.Barrier.{unprotected};

use crate::stores::is_protected;
use space_heap::Heap;

/// Writes a word into a field of an object that the write barrier doesn't protect. Nothing else changes: no colour, age,
/// remembered or kept mark, and no pin. It takes no memory.
#[tactic(auto, using(crate::proofs::StoreLaws::storing))]
pub fn raw_store(heap: &mut Heap, address: u64, i: u64, word: u64)
    requires object { is_object heap.old address ≡ true }
    requires unprotected { is_protected_at heap.old address ≡ false }
    requires field { i < length (object_of heap.old address).fields }
    ensures { heap.new ≡ written heap.old address i word }
{
    heap.write_word(address, i, word);
}

/// The write barrier stops protecting an object (CRuby 3.3): it has age 0 and isn't remembered, and one that had age 2 or
/// more is kept. An unprotected object stays as it is. It takes no memory.
#[tactic(auto, using(crate::proofs::StoreLaws::unprotecting))]
pub fn unprotect(heap: &mut Heap, address: u64)
    requires object { is_object heap.old address ≡ true }
    ensures { heap.new ≡ unprotected heap.old address }
{
    if !is_protected(heap.guard(address)) {
        return;
    }
    let aged = heap.age(address) >= 2;
    heap.make_unprotected(address);
    if aged {
        heap.keep(address);
    }
}
