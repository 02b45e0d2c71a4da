// Markings of small heaps.
use crate::{Marked, finish, mark, start, whole};
use space_heap::{Colour, Heap};
use space_model::{Guard, Ident, Steps, Style};
use space_roots::{Roots, Stack};
use std::sync::ledger::Blank;
use std::test::Fail;

// Whether so many objects of one field were allocated.
fn are_allocated(heap: &mut Heap, count: u64, guard: Guard) -> bool {
    for _ in 0..count {
        if heap.born() >= 1 << 40 || heap.place(1, guard, Style::Keeping).is_err() {
            return false;
        }
    }
    true
}

// Writes the field of the object that a word names.
#[tactic(auto, using(space_heap::proofs::ObjectLaws::occupied_from_word))]
fn write(heap: &mut Heap, word: u64, field: u64) {
    if let Some(address) = heap.object_at(word) {
        if heap.field_count(address) == 1 {
            heap.write_word(address, 0, field);
        }
    }
}

// The colour of the object that a word names.
#[tactic(auto, using(space_heap::proofs::ObjectLaws::occupied_from_word))]
fn colour(heap: &Heap, word: u64) -> Option<Colour> {
    match heap.object_at(word) {
        Some(address) => Some(heap.colour(address)),
        None => None,
    }
}

// Whether the word names an object that is black.
fn is_black(heap: &Heap, word: u64) -> bool {
    colour(heap, word) == Some(Colour::Black)
}

// The scans of a whole marking, where there is no large number of steps yet.
fn mark_whole(
    heap: &mut Heap,
    roots: &Roots,
    stack: &Stack,
    steps: &mut Steps<Blank>,
) -> Option<u64> {
    if steps.count() >= 1 << 40 {
        return None;
    }
    Some(whole(heap, roots, stack, steps))
}

// The scans of the end of a marking, where there is no large number of steps yet.
fn mark_to_the_end(
    heap: &mut Heap,
    roots: &Roots,
    stack: &Stack,
    steps: &mut Steps<Blank>,
) -> Option<u64> {
    if steps.count() >= 1 << 40 {
        return None;
    }
    Some(finish(heap, roots, stack, steps))
}

// How many of so many scans were made and how many objects are grey then, where there is no large number of steps yet.
fn mark_some(heap: &mut Heap, n: u64, steps: &mut Steps<Blank>) -> Option<(u64, u64)> {
    if steps.count() >= 1 << 40 {
        return None;
    }
    let Marked { scanned, grey } = mark(heap, n, steps);
    Some((scanned, grey))
}

#[test]
fn what_a_root_or_the_stack_leads_to_is_marked(rt: HostRuntime) -> Result<(), Fail> {
    let mut heap = Heap::new(rt.alloc(), 1)?;
    assert!(rt; heap.add_page(0) == Ok(0) && are_allocated(&mut heap, 6, Guard::Protected));
    let mut roots = Roots::new(rt.alloc());
    let mut stack = Stack::new(rt.alloc());
    let Some(name) = Ident::read(b"a") else {
        return Err(Fail::from("not a name"));
    };

    // Object 1 is held by a root, 2 by 1, and 4 by the stack; 3 holds 1, and 5 and 6 each other.
    assert!(rt; roots.set(name, 0x10000) == Ok(()));
    for word in [7, 0x10078, 0x10001] {
        assert!(rt; stack.push(word) == Ok(()));
    }
    for (word, field) in [
        (0x10000, 0x10028),
        (0x10028, 0x10000),
        (0x10050, 0x10000),
        (0x10078, 0x10029),
        (0x100a0, 0x100c8),
        (0x100c8, 0x100a0),
    ] {
        write(&mut heap, word, field);
    }
    let mut steps = Steps::start(Blank::new(1));
    for taken in [3, 6] {
        assert!(rt; mark_whole(&mut heap, &roots, &stack, &mut steps) == Some(3));
        assert!(rt; steps.count() == taken && heap.grey_count() == 0);
        for (word, marked) in [
            (0x10000, true),
            (0x10028, true),
            (0x10050, false),
            (0x10078, true),
            (0x100a0, false),
            (0x100c8, false),
        ] {
            assert!(rt; is_black(&heap, word) == marked, "{word}");
        }
    }
    Ok(())
}

#[test]
fn the_last_grey_one_is_scanned_first(rt: HostRuntime) -> Result<(), Fail> {
    let mut heap = Heap::new(rt.alloc(), 1)?;
    assert!(rt; heap.add_page(0) == Ok(0) && are_allocated(&mut heap, 4, Guard::Protected));
    let roots = Roots::new(rt.alloc());
    let mut stack = Stack::new(rt.alloc());
    let mut steps = Steps::start(Blank::new(1));

    // The stack names 1 and then 3, and 3 holds 2.
    assert!(rt; stack.push(0x10000) == Ok(()) && stack.push(0x10050) == Ok(()));
    write(&mut heap, 0x10050, 0x10028);
    start(&mut heap, &roots, &stack);
    assert!(rt; heap.grey_count() == 2 && steps.count() == 0);
    for (wanted, order) in [(2, 0x10050), (1, 0x10028), (0, 0x10000)] {
        assert!(rt; !is_black(&heap, order), "{order}");
        assert!(rt;
            mark_some(&mut heap, 1, &mut steps) == Some((1, wanted)),
            "{order}"
        );
        assert!(rt; is_black(&heap, order), "{order}");
    }
    assert!(rt; colour(&heap, 0x10078) == Some(Colour::White));

    // Nothing is grey any more.
    assert!(rt; mark_some(&mut heap, 5, &mut steps) == Some((0, 0)) && steps.count() == 3);
    Ok(())
}

#[test]
fn the_end_reads_again_what_no_barrier_told_of(rt: HostRuntime) -> Result<(), Fail> {
    let mut heap = Heap::new(rt.alloc(), 1)?;
    assert!(rt; heap.add_page(0) == Ok(0));
    assert!(rt; are_allocated(&mut heap, 1, Guard::Unprotected));
    assert!(rt; are_allocated(&mut heap, 4, Guard::Protected));
    let mut roots = Roots::new(rt.alloc());
    let mut stack = Stack::new(rt.alloc());
    let mut steps = Steps::start(Blank::new(1));
    let Some(name) = Ident::read(b"a") else {
        return Err(Fail::from("not a name"));
    };
    assert!(rt; stack.push(0x10000) == Ok(()));
    start(&mut heap, &roots, &stack);
    assert!(rt; mark_some(&mut heap, 7, &mut steps) == Some((1, 0)) && is_black(&heap, 0x10000));

    // After that 1, which is unprotected and black, holds 2, a root names 3, and the stack 4.
    write(&mut heap, 0x10000, 0x10028);
    assert!(rt; roots.set(name, 0x10050) == Ok(()) && stack.push(0x10078) == Ok(()));
    assert!(rt; heap.grey_count() == 0 && colour(&heap, 0x10028) == Some(Colour::White));
    assert!(rt; mark_to_the_end(&mut heap, &roots, &stack, &mut steps) == Some(4));
    assert!(rt; steps.count() == 5 && heap.grey_count() == 0);
    for word in [0x10000, 0x10028, 0x10050, 0x10078] {
        assert!(rt; is_black(&heap, word), "{word}");
    }
    assert!(rt; colour(&heap, 0x100a0) == Some(Colour::White));
    Ok(())
}
