// Moves and corrections of small heaps.
use crate::{Fixed, Moved, begin_moves, fix, fix_all, fix_roots, move_one, packed, pin_now};
use space_heap::{Colour, Heap, Walk};
use space_model::{Guard, Ident, Kind, Steps, Style};
use space_roots::{Roots, Stack};
use std::sync::ledger::Blank;
use std::test::Fail;

// Whether an object was allocated that has so many fields.
fn is_allocated(heap: &mut Heap, fields: u64, style: Style) -> bool {
    fields <= 78 && heap.born() < 1 << 40 && heap.place(fields, Guard::Protected, style).is_ok()
}

// Writes a field of the object that a word names.
#[tactic(auto, using(space_heap::proofs::ObjectLaws::occupied_from_word))]
fn write(heap: &mut Heap, word: u64, i: u64, field: u64) {
    if let Some(address) = heap.object_at(word) {
        if i < heap.field_count(address) {
            heap.write_word(address, i, field);
        }
    }
}

// The word of a field as it was written, where there is no large number of steps yet.
#[tactic(auto, using(space_heap::proofs::ObjectLaws::occupied_from_word))]
fn written(heap: &Heap, word: u64, i: usize, steps: &mut Steps<Blank>) -> Option<u64> {
    if steps.count() >= 1 << 40 {
        return None;
    }
    match heap.object_at(word) {
        Some(address) => heap.children(address, steps).get(i).copied(),
        None => None,
    }
}

// The name of the object that a word names, or 0 where it names none.
#[tactic(auto, using(space_heap::proofs::ObjectLaws::occupied_from_word))]
fn name(heap: &Heap, word: u64) -> u64 {
    match heap.object_at(word) {
        Some(address) => heap.name(address),
        None => 0,
    }
}

// Marks the object that a word names, where it is white.
#[tactic(auto, using(space_heap::proofs::ObjectLaws::occupied_from_word, space_heap::proofs::ObjectLaws::object_from_word))]
fn mark(heap: &mut Heap, word: u64) {
    if let Some(address) = heap.object_at(word) {
        match heap.colour(address) {
            Colour::White => heap.grey(address),
            _ => {}
        }
    }
    if let Some(address) = heap.last_grey() {
        heap.blacken(address);
    }
}

// Whether a full verdict was taken, where nothing is grey and none is gone.
fn is_settled(heap: &mut Heap) -> bool {
    if heap.minor_verdicts() >= 1 << 40 || heap.other_verdicts() >= 1 << 40 {
        return false;
    }
    match heap.last_grey() {
        Some(_) => false,
        None => match heap.next_gone(&mut Walk::new()) {
            Some(_) => false,
            None => {
                heap.settle(Kind::Full);
                true
            }
        },
    }
}

// Sweeps the first page that waits.
fn sweep_next(heap: &mut Heap) {
    if heap.freed() >= 1 << 40 {
        return;
    }
    if let Some(page) = heap.first_unswept() {
        heap.sweep_page(page);
    }
}

// Whether each slot but those of these objects was freed, on at most two pages.
fn are_kept(heap: &mut Heap, kept: &[u64]) -> bool {
    for word in kept {
        mark(heap, *word);
    }
    if !is_settled(heap) {
        return false;
    }
    for _ in 0..2 {
        sweep_next(heap);
    }
    heap.first_unswept().is_none()
}

// The next move after pins were made anew, and whether the heap is packed then; where nothing is grey and there is no large
// number of steps or moves yet.
fn move_next(
    heap: &mut Heap,
    stack: &Stack,
    steps: &mut Steps<Blank>,
) -> Option<(Option<Moved>, bool)> {
    if steps.count() >= 1 << 40 {
        return None;
    }
    pin_now(heap, stack, steps);
    if heap.moves() >= 1 << 40 {
        return None;
    }
    match heap.last_grey() {
        Some(_) => None,
        None => {
            let mut fingers = begin_moves(heap);
            let moved = move_one(heap, &mut fingers);
            Some((moved, packed(heap, &mut fingers)))
        }
    }
}

// A correction of up to so many objects, where there is no large number of steps yet.
fn fix_some(heap: &mut Heap, n: u64, steps: &mut Steps<Blank>) -> Option<Fixed> {
    if steps.count() >= 1 << 40 {
        return None;
    }
    Some(fix(heap, n, steps))
}

// A correction of all objects that are left, where there is no large number of steps yet.
fn fix_rest(heap: &mut Heap, steps: &mut Steps<Blank>) -> Option<u64> {
    if steps.count() >= 1 << 40 {
        return None;
    }
    Some(fix_all(heap, steps))
}

#[test]
fn the_highest_object_moves_first_and_references_follow(rt: HostRuntime) -> Result<(), Fail> {
    let mut heap = Heap::new(rt.alloc(), 1)?;
    let mut steps = Steps::start(Blank::new(1));
    let mut roots = Roots::new(rt.alloc());
    let stack = Stack::new(rt.alloc());
    let Some(ident) = Ident::read(b"a") else {
        return Err(Fail::from("not a name"));
    };

    // Object 1 holds 5 and 4, a root holds 5, and 2 and 3 are freed.
    assert!(rt; heap.add_page(0) == Ok(0));
    for fields in [2, 0, 0, 0, 0] {
        assert!(rt; is_allocated(&mut heap, fields, Style::Movable));
    }
    write(&mut heap, 0x10000, 0, 0x100a0);
    write(&mut heap, 0x10000, 1, 0x10078);
    assert!(rt; roots.set(ident, 0x100a0) == Ok(()));
    assert!(rt; are_kept(&mut heap, &[0x10000, 0x10078, 0x100a0]));

    let first = Moved {
        name: 5,
        from: 0x100a0,
        to: 0x10028,
    };
    let second = Moved {
        name: 4,
        from: 0x10078,
        to: 0x10050,
    };
    for (moved, is_packed) in [(Some(first), false), (Some(second), true), (None, true)] {
        assert!(rt; move_next(&mut heap, &stack, &mut steps) == Some((moved, is_packed)));
    }
    assert!(rt; heap.moves() == 2 && steps.count() == 0);
    assert!(rt; name(&heap, 0x10028) == 5 && name(&heap, 0x10050) == 4);
    assert!(rt; name(&heap, 0x10078) == 0 && heap.resolve(0x100a0) == 0x10028);

    // Fields and roots still hold the words of before.
    assert!(rt; written(&heap, 0x10000, 0, &mut steps) == Some(0x100a0));
    assert!(rt;
        fix_some(&mut heap, 2, &mut steps)
            == Some(Fixed {
                slots: 2,
                done: false
            })
    );
    assert!(rt; heap.cursor() == 0x10029);
    assert!(rt; written(&heap, 0x10000, 0, &mut steps) == Some(0x10028));
    assert!(rt; written(&heap, 0x10000, 1, &mut steps) == Some(0x10050));
    assert!(rt;
        fix_some(&mut heap, 9, &mut steps)
            == Some(Fixed {
                slots: 1,
                done: true
            })
    );
    fix_roots(&heap, &mut roots);
    assert!(rt; roots.get(ident) == Some(0x10028) && steps.count() == 6);
    Ok(())
}

#[test]
fn what_the_stack_or_an_object_of_style_k_holds_stays(rt: HostRuntime) -> Result<(), Fail> {
    let mut heap = Heap::new(rt.alloc(), 1)?;
    let mut steps = Steps::start(Blank::new(1));
    let mut stack = Stack::new(rt.alloc());

    // Object 1 is of style K and holds 3; 2 is freed.
    assert!(rt; heap.add_page(0) == Ok(0) && is_allocated(&mut heap, 1, Style::Keeping));
    for _ in 0..4 {
        assert!(rt; is_allocated(&mut heap, 1, Style::Movable));
    }
    write(&mut heap, 0x10000, 0, 0x10050);
    assert!(rt; are_kept(&mut heap, &[0x10000, 0x10050, 0x10078, 0x100a0]));

    // The stack names 4 and 5, and then 5 no more, which moves. What is left isn't pinned by 4.
    assert!(rt; stack.push(0x10078) == Ok(()) && stack.push(0x100a0) == Ok(()));
    assert!(rt; move_next(&mut heap, &stack, &mut steps) == Some((None, true)));
    assert!(rt; stack.pop() == Some(0x100a0));
    let moved = Moved {
        name: 5,
        from: 0x100a0,
        to: 0x10028,
    };
    assert!(rt; move_next(&mut heap, &stack, &mut steps) == Some((Some(moved), true)));
    assert!(rt; name(&heap, 0x10028) == 5 && name(&heap, 0x10050) == 3);

    // One object of style K, one step for each time that pins were made.
    assert!(rt; steps.count() == 2);
    Ok(())
}

#[test]
fn pools_are_packed_one_after_another(rt: HostRuntime) -> Result<(), Fail> {
    let mut heap = Heap::new(rt.alloc(), 2)?;
    let mut steps = Steps::start(Blank::new(1));
    let stack = Stack::new(rt.alloc());
    assert!(rt; heap.add_page(1) == Ok(0) && heap.add_page(0) == Ok(1));
    for fields in [4, 4, 1, 1] {
        assert!(rt; is_allocated(&mut heap, fields, Style::Movable));
    }
    write(&mut heap, 0x10050, 3, 0x20028);
    assert!(rt; are_kept(&mut heap, &[0x10050, 0x20028]));
    let small = Moved {
        name: 4,
        from: 0x20028,
        to: 0x20000,
    };
    let large = Moved {
        name: 2,
        from: 0x10050,
        to: 0x10000,
    };
    for (moved, is_packed) in [(Some(small), false), (Some(large), true), (None, true)] {
        assert!(rt; move_next(&mut heap, &stack, &mut steps) == Some((moved, is_packed)));
    }
    assert!(rt; fix_rest(&mut heap, &mut steps) == Some(2) && steps.count() == 2);
    assert!(rt; written(&heap, 0x10000, 3, &mut steps) == Some(0x20000));
    assert!(rt; fix_rest(&mut heap, &mut steps) == Some(0));
    Ok(())
}
