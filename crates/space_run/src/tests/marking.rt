// A major marking over commands: its scans, what the write barrier tells it, its end, and its counts.
use super::is_answered;
use std::test::Fail;

#[test]
fn mark_and_finish_are_refused_where_no_marking_is_under_way(rt: HostRuntime) -> Result<(), Fail> {
    let session = [
        ("finish", "error not marking\n"),
        ("mark 1", "error not marking\n"),
        ("sweep 5", "freed 0 left 0\n"),
        ("gc", "! verdict full 0\nok scanned 0\n"),
        ("new a 0 P M", "#1 0x10000\n"),
        ("major", "ok\n"),
        ("finish", "! verdict major 0\nok scanned 1\n"),
        ("finish", "error not marking\n"),
        ("mark 1", "error not marking\n"),
        ("sweep 1", "freed 0 left 0\n"),
        ("mark 0", "error not marking\n"),
    ];
    assert!(rt; is_answered(rt.alloc(), &["replay"], &session)?);
    Ok(())
}

// The roots make a and b grey, and then the stack s, which is scanned first. Then b is: of its children x and y the last one is scanned next, and
// what that holds after it.
#[test]
fn the_object_that_became_grey_last_is_scanned_first(rt: HostRuntime) -> Result<(), Fail> {
    let session = [
        ("new a 0 P M", "#1 0x10000\n"),
        ("new b 2 P M", "#2 0x10028\n"),
        ("new x 0 P M", "#3 0x10050\n"),
        ("new y 1 P M", "#4 0x10078\n"),
        ("new z 0 P M", "#5 0x100a0\n"),
        ("new s 0 P M", "#6 0x100c8\n"),
        ("store b 0 x", "ok\n"),
        ("store b 1 y", "ok\n"),
        ("store y 0 z", "ok\n"),
        ("push s", "word 0x100c8 names #6\n"),
        ("drop x", "ok\n"),
        ("drop y", "ok\n"),
        ("drop z", "ok\n"),
        ("drop s", "ok\n"),
        ("major", "ok\n"),
        ("mark 0", "scanned 0 grey 3\n"),
        ("mark 1", "scanned 1 grey 2\n"),
        ("mark 1", "scanned 1 grey 3\n"),
        ("mark 1", "scanned 1 grey 3\n"),
        ("mark 1", "scanned 1 grey 2\n"),
        ("mark 1", "scanned 1 grey 1\n"),
        ("mark 18446744073709551615", "scanned 1 grey 0\n"),
        ("mark 1", "scanned 0 grey 0\n"),
        ("finish", "! verdict major 0\nok scanned 0\n"),
    ];
    assert!(rt; is_answered(rt.alloc(), &["replay"], &session)?);
    Ok(())
}

// Only a holds b, once it is dropped, and a isn't scanned again.
#[test]
fn a_store_into_a_black_object_makes_the_child_grey(rt: HostRuntime) -> Result<(), Fail> {
    let session = [
        ("new a 1 P M", "#1 0x10000\n"),
        ("major", "ok\n"),
        ("mark 10", "scanned 1 grey 0\n"),
        ("new b 0 P M", "#2 0x10028\n"),
        ("store a 0 b", "ok\n"),
        ("drop b", "ok\n"),
        ("mark 1", "scanned 1 grey 0\n"),
        ("store a 0 a", "ok\n"),
        ("mark 1", "scanned 0 grey 0\n"),
        ("finish", "! verdict major 0\nok scanned 0\n"),
    ];
    assert!(rt; is_answered(rt.alloc(), &["replay"], &session)?);
    Ok(())
}

// The grey object is scanned later, and the unprotected one at the end.
#[test]
fn a_store_into_another_object_makes_nothing_grey(rt: HostRuntime) -> Result<(), Fail> {
    let session = [
        ("new a 1 P M", "#1 0x10000\n"),
        ("new u 1 U M", "#2 0x10028\n"),
        ("major", "ok\n"),
        ("mark 1", "scanned 1 grey 1\n"),
        ("new b 0 P M", "#3 0x10050\n"),
        ("new c 0 P M", "#4 0x10078\n"),
        ("store a 0 b", "ok\n"),
        ("store u 0 c", "ok\n"),
        ("drop b", "ok\n"),
        ("drop c", "ok\n"),
        ("mark 0", "scanned 0 grey 1\n"),
        ("mark 1", "scanned 1 grey 1\n"),
        ("mark 1", "scanned 1 grey 0\n"),
        ("finish", "! verdict major 0\nok scanned 2\n"),
        ("load d u 0", "#4\n"),
    ];
    assert!(rt; is_answered(rt.alloc(), &["replay"], &session)?);
    Ok(())
}

#[test]
fn finish_scans_a_black_unprotected_object_again(rt: HostRuntime) -> Result<(), Fail> {
    let session = [
        ("new u 1 U M", "#1 0x10000\n"),
        ("major", "ok\n"),
        ("mark 10", "scanned 1 grey 0\n"),
        ("new b 0 P M", "#2 0x10028\n"),
        ("rawstore u 0 b", "ok\n"),
        ("drop b", "ok\n"),
        ("finish", "! verdict major 0\nok scanned 2\n"),
        ("load c u 0", "#2\n"),
    ];
    assert!(rt; is_answered(rt.alloc(), &["replay"], &session)?);
    Ok(())
}

// Of the two unprotected objects v is black, and u grey until the end. So the four scans are one of v again, and those of u, b and c.
#[test]
fn finish_scans_a_grey_unprotected_object_once(rt: HostRuntime) -> Result<(), Fail> {
    let session = [
        ("new u 1 U M", "#1 0x10000\n"),
        ("new v 1 U M", "#2 0x10028\n"),
        ("major", "ok\n"),
        ("mark 1", "scanned 1 grey 1\n"),
        ("new b 0 P M", "#3 0x10050\n"),
        ("new c 0 P M", "#4 0x10078\n"),
        ("rawstore u 0 b", "ok\n"),
        ("rawstore v 0 c", "ok\n"),
        ("drop b", "ok\n"),
        ("drop c", "ok\n"),
        ("finish", "! verdict major 0\nok scanned 4\n"),
        ("load d u 0", "#3\n"),
        ("load e v 0", "#4\n"),
    ];
    assert!(rt; is_answered(rt.alloc(), &["replay"], &session)?);
    Ok(())
}

#[test]
fn an_object_that_was_black_when_it_lost_the_barrier_is_scanned_again(
    rt: HostRuntime,
) -> Result<(), Fail> {
    let session = [
        ("new a 1 P M", "#1 0x10000\n"),
        ("major", "ok\n"),
        ("mark 10", "scanned 1 grey 0\n"),
        ("unprotect a", "ok\n"),
        ("new b 0 P M", "#2 0x10028\n"),
        ("rawstore a 0 b", "ok\n"),
        ("drop b", "ok\n"),
        ("finish", "! verdict major 0\nok scanned 2\n"),
    ];
    assert!(rt; is_answered(rt.alloc(), &["replay"], &session)?);
    Ok(())
}

// All of them are white until `finish`: a root holds b, the stack d, and nothing leads to c.
#[test]
fn what_is_born_in_a_marking_stays_only_where_it_is_reached(rt: HostRuntime) -> Result<(), Fail> {
    let session = [
        ("new a 1 P M", "#1 0x10000\n"),
        ("major", "ok\n"),
        ("mark 1", "scanned 1 grey 0\n"),
        ("new b 0 P M", "#2 0x10028\n"),
        ("new c 0 P M", "#3 0x10050\n"),
        ("new d 0 P M", "#4 0x10078\n"),
        ("push d", "word 0x10078 names #4\n"),
        ("drop c", "ok\n"),
        ("drop d", "ok\n"),
        ("mark 9", "scanned 0 grey 0\n"),
        ("finish", "! gone #3\n! verdict major 1\nok scanned 2\n"),
        ("same b @0", "false\n"),
    ];
    assert!(rt; is_answered(rt.alloc(), &["replay"], &session)?);
    Ok(())
}

// When the marking began only a led to b and c. Before a is scanned both are taken from it: b is loaded into a root, and nothing leads to c.
#[test]
fn what_was_taken_away_before_its_scan_stays_only_where_it_is_reached(
    rt: HostRuntime,
) -> Result<(), Fail> {
    let session = [
        ("new a 2 P M", "#1 0x10000\n"),
        ("new b 0 P M", "#2 0x10028\n"),
        ("new c 0 P M", "#3 0x10050\n"),
        ("store a 0 b", "ok\n"),
        ("store a 1 c", "ok\n"),
        ("drop b", "ok\n"),
        ("drop c", "ok\n"),
        ("major", "ok\n"),
        ("load d a 0", "#2\n"),
        ("store a 0 nil", "ok\n"),
        ("store a 1 nil", "ok\n"),
        ("mark 9", "scanned 1 grey 0\n"),
        ("finish", "! gone #3\n! verdict major 1\nok scanned 1\n"),
    ];
    assert!(rt; is_answered(rt.alloc(), &["replay"], &session)?);
    Ok(())
}

// The root c is dropped after the marking began with it: so it was marked, and only a whole collection takes it.
#[test]
fn what_was_marked_stays_until_the_next_verdict(rt: HostRuntime) -> Result<(), Fail> {
    let session = [
        ("new a 0 P M", "#1 0x10000\n"),
        ("new b 0 P M", "#2 0x10028\n"),
        ("drop b", "ok\n"),
        ("new c 0 P M", "#3 0x10050\n"),
        ("major", "ok\n"),
        ("drop c", "ok\n"),
        ("mark 10", "scanned 2 grey 0\n"),
        ("finish", "! gone #2\n! verdict major 1\nok scanned 0\n"),
        ("gc", "! gone #3\n! verdict full 1\nok scanned 1\n"),
    ];
    assert!(rt; is_answered(rt.alloc(), &["replay"], &session)?);
    Ok(())
}

// These verdicts count too: after three of any kind the object is old, and no minor collection scans or takes it.
#[test]
fn a_major_verdict_makes_objects_older(rt: HostRuntime) -> Result<(), Fail> {
    let session = [
        ("new a 0 P M", "#1 0x10000\n"),
        ("major", "ok\n"),
        ("finish", "! verdict major 0\nok scanned 1\n"),
        ("major", "ok\n"),
        ("finish", "! verdict major 0\nok scanned 1\n"),
        ("minor", "! verdict minor 0\nok scanned 1\n"),
        ("drop a", "ok\n"),
        ("minor", "! verdict minor 0\nok scanned 0\n"),
        ("major", "ok\n"),
        ("finish", "! gone #1\n! verdict major 1\nok scanned 0\n"),
    ];
    assert!(rt; is_answered(rt.alloc(), &["replay"], &session)?);
    Ok(())
}

// `major` keeps nothing, and the scan of the old parent keeps its unprotected child again. A major verdict is counted with the full ones, and
// what it took waits for its sweep.
#[test]
fn stat_counts_in_a_marking_and_after_it(rt: HostRuntime) -> Result<(), Fail> {
    let session = [
        ("new a 1 P M", "#1 0x10000\n"),
        ("minor", "! verdict minor 0\nok scanned 1\n"),
        ("minor", "! verdict minor 0\nok scanned 1\n"),
        ("minor", "! verdict minor 0\nok scanned 1\n"),
        ("new u 1 U M", "#2 0x10028\n"),
        ("store a 0 u", "ok\n"),
        ("minor", "! verdict minor 0\nok scanned 2\n"),
        ("drop u", "ok\n"),
        ("new b 0 P M", "#3 0x10050\n"),
        ("drop b", "ok\n"),
        ("major", "ok\n"),
        (
            "stat",
            "stat count=4 minor_gc_count=4 major_gc_count=0 heap_allocated_pages=1 heap_live_slots=3 heap_free_slots=1635 total_allocated_objects=3 total_freed_objects=0 old_objects=1 remembered_wb_unprotected_objects=0 compact_count=0 total_moved_objects=0\n",
        ),
        ("mark 1", "scanned 1 grey 1\n"),
        ("finish", "! gone #3\n! verdict major 1\nok scanned 1\n"),
        (
            "stat",
            "stat count=5 minor_gc_count=4 major_gc_count=1 heap_allocated_pages=1 heap_live_slots=2 heap_free_slots=1635 total_allocated_objects=3 total_freed_objects=0 old_objects=1 remembered_wb_unprotected_objects=1 compact_count=0 total_moved_objects=0\n",
        ),
        ("sweep 9", "freed 1 left 0\n"),
        ("minor", "! verdict minor 0\nok scanned 1\n"),
    ];
    assert!(rt; is_answered(rt.alloc(), &["replay"], &session)?);
    Ok(())
}
