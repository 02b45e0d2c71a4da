// The line of an object in a dump, and its stored words.
ghost use Rattle.std.specs.Prelude.{◌≡◌, ◌≤◌, ◌<◌, ◌+◌, ◌^◌, true, length, IfOk};
ghost use Rattle.space_model.specs.Ages.{is_protected_guard};
ghost use Rattle.space_model.specs.Layout.{most_fields, slot_bytes as bytes_of_slot, pool_for as pool_of_fields};
ghost use Rattle.space_model.specs.Spelling.{text_of_pieces, IsSpelled};
ghost use Rattle.space_model.specs.Texts.{dump_pieces};
ghost use Rattle.space_heap.specs.Objects.{is_object, object_of};
ghost use Rattle.space_heap.specs.Generations.{is_old as is_old_object};
ghost use Rattle.space_dump.specs.HeapLines.{line_at};
ghost use Rattle.space_dump.specs.Shown.{shown};

use crate::line::Line;
use space_heap::Heap;
use space_model::{Guard, Ledger, Steps, pool_for, slot_bytes};
use std::alloc::{AllocError as NoMemory, Global};

// Whether the write barrier protects an object with this guard.
fn is_protected(guard: Guard) -> bool
    ensures { result ≡ is_protected_guard guard }
{
    match guard {
        Guard::Protected => true,
        Guard::Unprotected => false,
    }
}

// The bytes of the slot of an object with so many fields.
#[tactic(auto, unfolding(space_model::specs::Layout::pool_for))]
fn slot_size(fields: u64) -> u64
    requires { fields ≤ most_fields }
    ensures { result ≡ bytes_of_slot (pool_of_fields fields) }
{
    match pool_for(fields) {
        Some(pool) => slot_bytes(pool),
        None => unreachable!(),
    }
}

// Whether the object is old: the write barrier protects it, and it has age 3.
#[tactic(auto, using(space_heap::proofs::ObjectLaws::occupied_from_object))]
fn is_old(heap: &Heap, address: u64) -> bool
    requires { is_object heap.now address ≡ true }
    ensures { result ≡ is_old_object (object_of heap.now address) }
{
    is_protected(heap.guard(address)) && heap.age(address) >= 3
}

// What the line of the object at the address tells, whose fields have these words.
#[tactic(auto, using(space_heap::proofs::ObjectLaws::occupied_from_object))]
fn line_of<'a>(heap: &'a Heap, words: &'a [u64], address: u64) -> Line<'a>
    requires object { is_object heap.now address ≡ true }
    requires words { words.now ≡ (object_of heap.now address).fields }
    requires few { length words.now ≤ most_fields }
    ensures line { shown result ≡ line_at heap.now address }
    ensures spelled { IsSpelled (dump_pieces (line_at heap.now address)) }
{
    let fields = words.len() as u64;
    Line {
        heap,
        words,
        address,
        fields,
        old: is_old(heap, address),
        style: heap.style(address),
        wb_protected: is_protected(heap.guard(address)),
        name: heap.name(address),
        slot_size: slot_size(fields),
    }
}

#[tactic(auto, using(space_heap::proofs::ObjectLaws::occupied_from_object))]
/// The line of the object at the address, without its LF: the compact text of a JSON object, whose keys stand in ascending order.
/// Each field's word is resolved, so the references are present addresses. Its fields are read in one step, also where the
/// answer is an `Err`, which tells of no memory. The keys are this project's own, after `ObjectSpace.dump_all` of CRuby 3.3.
pub fn dump_line<L: Ledger>(
    alloc: Global,
    heap: &Heap,
    address: u64,
    steps: &mut Steps<L>,
) -> Result<Vec<u8>, NoMemory>
    requires object { is_object heap.now address ≡ true }
    requires steps { steps.old < 2 ^ 62 }
    ensures line { IfOk result (λ line. line.items ≡ text_of_pieces (dump_pieces (line_at heap.now address))) }
    ensures spelled { IsSpelled (dump_pieces (line_at heap.now address)) }
    ensures ticked { steps.new ≡ steps.old + 1 }
{
    let words = heap.children(address, steps);
    let line = line_of(heap, words, address);
    match serde_json::to_vec(alloc, &line) {
        Ok(text) => Ok(text),
        Err(_) => Err(NoMemory),
    }
}

#[tactic(auto, using(space_heap::proofs::ObjectLaws::occupied_from_object))]
/// The words of the object's fields as they are stored, none of them resolved. They are read in one step.
pub fn peek_words<'a, L: Ledger>(heap: &'a Heap, address: u64, steps: &mut Steps<L>) -> &'a [u64]
    requires object { is_object heap.now address ≡ true }
    requires steps { steps.old < 2 ^ 62 }
    ensures words { result.now ≡ (object_of heap.now address).fields }
    ensures few { length result.now ≤ most_fields }
    ensures ticked { steps.new ≡ steps.old + 1 }
{
    heap.children(address, steps)
}

#[cfg(test)]
mod tests {
    use super::*;
    use crate::hex_text::HexText;
    use space_model::Style;
    use std::sync::ledger::Blank;
    use std::test::Fail;

    const FIRST: &str =
        "{\"address\":\"0x10000\",\"fields\":0,\"flags\":{\"old\":false,\"style\":\"M\",\"wb_protected\":true},\"name\":1,\"references\":[],\"slot_size\":40,\"type\":\"OBJECT\"}";

    const SECOND: &str =
        "{\"address\":\"0x10028\",\"fields\":2,\"flags\":{\"old\":false,\"style\":\"K\",\"wb_protected\":true},\"name\":2,\"references\":[\"0x10028\"],\"slot_size\":40,\"type\":\"OBJECT\"}";

    const THIRD: &str =
        "{\"address\":\"0x20000\",\"fields\":5,\"flags\":{\"old\":false,\"style\":\"K\",\"wb_protected\":false},\"name\":3,\"references\":[\"0x10028\",\"0x10000\",\"0x10028\"],\"slot_size\":80,\"type\":\"OBJECT\"}";

    // Whether an object was allocated that has so many fields.
    fn is_allocated(heap: &mut Heap, fields: u64, guard: Guard, style: Style) -> bool {
        fields <= 78 && heap.born() < 1 << 40 && heap.place(fields, guard, style).is_ok()
    }

    // Writes the word of a field, where an object at the address has it.
    #[tactic(auto, using(space_heap::proofs::ObjectLaws::occupied_from_object))]
    fn write(heap: &mut Heap, address: u64, field: u64, word: u64) {
        if heap.is_object(address) && field < heap.field_count(address) {
            heap.write_word(address, field, word);
        }
    }

    // Three objects. The last one has two references, one of them twice, with nil and a small integer between.
    fn heap_with_three(alloc: Global) -> Result<Option<Heap>, NoMemory> {
        let mut heap = Heap::new(alloc, 2)?;
        if heap.add_page(0) != Ok(0)
            || heap.add_page(1) != Ok(1)
            || !is_allocated(&mut heap, 0, Guard::Protected, Style::Movable)
            || !is_allocated(&mut heap, 2, Guard::Protected, Style::Keeping)
            || !is_allocated(&mut heap, 5, Guard::Unprotected, Style::Keeping)
        {
            return Ok(None);
        }
        write(&mut heap, 0x10028, 1, 0x10028);
        write(&mut heap, 0x20000, 0, 0x10028);
        write(&mut heap, 0x20000, 2, 85);
        write(&mut heap, 0x20000, 3, 0x10000);
        write(&mut heap, 0x20000, 4, 0x10028);
        Ok(Some(heap))
    }

    #[test]
    fn lines_and_stored_words(rt: HostRuntime) -> Result<(), Fail> {
        let Some(heap) = heap_with_three(rt.alloc())? else {
            panic!(rt; "no objects");
        };
        // Each object's address, its line and its stored words.
        let first: (u64, &str, &[u64]) = (0x10000, FIRST, &[]);
        let second: (u64, &str, &[u64]) = (0x10028, SECOND, &[0, 0x10028]);
        let third: (u64, &str, &[u64]) = (0x20000, THIRD, &[0x10028, 0, 85, 0x10000, 0x10028]);
        for (address, line, words) in [first, second, third] {
            let mut steps = Steps::start(Blank::new(1));
            assert!(rt; heap.is_object(address));
            assert!(rt;
                dump_line(rt.alloc(), &heap, address, &mut steps)?.as_slice() == line.as_bytes(),
                "at {address}"
            );
            assert!(rt;
                peek_words(&heap, address, &mut steps) == words && steps.count() == 2,
                "at {address}"
            );
        }
        Ok(())
    }

    // The digits of addresses with zeros, and all digits.
    #[test]
    fn texts_in_base_16(rt: HostRuntime) -> Result<(), Fail> {
        for (number, text) in [
            (0, "0x0"),
            (0x10a0, "0x10a0"),
            (0x1234_5678_9abc_def0, "0x123456789abcdef0"),
            (u64::MAX, "0xffffffffffffffff"),
        ] {
            let mut digits = HexText::new();
            digits.put(number);
            assert!(rt; digits.bytes() == text.as_bytes());
        }
        Ok(())
    }
}
