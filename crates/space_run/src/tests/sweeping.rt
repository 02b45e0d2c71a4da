// Sweeps: pages that wait after a verdict, `sweep`, the sweeps of `new` and of collections, and the counts of `stat`.
use super::{is_answered, replayed};
use std::test::Fail;

// While its page waits, what is gone is named no more, and its slot isn't free. After the sweep an object may stand there, which the word names.
#[test]
fn a_slot_is_free_after_the_sweep_of_its_page(rt: HostRuntime) -> Result<(), Fail> {
    let session = [
        ("new a 3 P M", "#1 0x10000\n"),
        ("new b 3 P M", "#2 0x10028\n"),
        ("drop b", "ok\n"),
        ("raw 0x10028", "word 0x10028 names #2\n"),
        ("gc", "! verdict full 0\nok scanned 2\n"),
        ("pop", "ok\n"),
        ("gc", "! gone #2\n! verdict full 1\nok scanned 1\n"),
        ("raw 0x10028", "word 0x10028 names -\n"),
        ("sweep 1", "freed 1 left 0\n"),
        ("new c 3 P M", "#3 0x10028\n"),
        ("same c @0", "true\n"),
    ];
    assert!(rt; is_answered(rt.alloc(), &["replay"], &session)?);
    Ok(())
}

// A gone object is neither live nor free. The last line finds the first page spare by the `sweep`, and the second one by its own sweep.
#[test]
fn stat_counts_what_waits_and_what_was_freed(rt: HostRuntime) -> Result<(), Fail> {
    let session = [
        ("new a 0 P M", "#1 0x10000\n"),
        ("new b 4 P M", "#2 0x20000\n"),
        ("drop a", "ok\n"),
        ("drop b", "ok\n"),
        (
            "gc",
            "! gone #1\n! gone #2\n! verdict full 2\nok scanned 0\n",
        ),
        ("sweep 1", "freed 1 left 1\n"),
        (
            "stat",
            "stat count=1 minor_gc_count=0 major_gc_count=1 heap_allocated_pages=2 heap_live_slots=0 heap_free_slots=818 total_allocated_objects=2 total_freed_objects=1 old_objects=0 remembered_wb_unprotected_objects=0 compact_count=0 total_moved_objects=0\n",
        ),
        ("new c 4 P M", "#3 0x10000\n"),
    ];
    assert!(rt; is_answered(rt.alloc(), &["replay"], &session)?);
    Ok(())
}

#[test]
fn stat_counts_old_and_kept_objects(rt: HostRuntime) -> Result<(), Fail> {
    let session = [
        ("new a 1 P M", "#1 0x10000\n"),
        ("minor", "! verdict minor 0\nok scanned 1\n"),
        ("minor", "! verdict minor 0\nok scanned 1\n"),
        ("minor", "! verdict minor 0\nok scanned 1\n"),
        ("new u 1 U M", "#2 0x10028\n"),
        ("store a 0 u", "ok\n"),
        ("minor", "! verdict minor 0\nok scanned 2\n"),
        (
            "stat",
            "stat count=4 minor_gc_count=4 major_gc_count=0 heap_allocated_pages=1 heap_live_slots=2 heap_free_slots=1636 total_allocated_objects=2 total_freed_objects=0 old_objects=1 remembered_wb_unprotected_objects=1 compact_count=0 total_moved_objects=0\n",
        ),
        ("unprotect a", "ok\n"),
        (
            "stat",
            "stat count=4 minor_gc_count=4 major_gc_count=0 heap_allocated_pages=1 heap_live_slots=2 heap_free_slots=1636 total_allocated_objects=2 total_freed_objects=0 old_objects=0 remembered_wb_unprotected_objects=2 compact_count=0 total_moved_objects=0\n",
        ),
    ];
    assert!(rt; is_answered(rt.alloc(), &["replay"], &session)?);
    Ok(())
}

// Where no page waits none is swept, and a page on which nothing is gone waits as well.
#[test]
fn sweep_sweeps_what_waits_and_no_more(rt: HostRuntime) -> Result<(), Fail> {
    let session = [
        ("sweep 1", "freed 0 left 0\n"),
        ("gc", "! verdict full 0\nok scanned 0\n"),
        ("sweep 1", "freed 0 left 0\n"),
        ("new a 3 P M", "#1 0x10000\n"),
        ("new b 8 P M", "#2 0x20000\n"),
        ("new c 18 P M", "#3 0x30000\n"),
        ("sweep 1", "freed 0 left 0\n"),
        ("drop c", "ok\n"),
        ("gc", "! gone #3\n! verdict full 1\nok scanned 2\n"),
        ("sweep 0", "freed 0 left 3\n"),
        ("sweep 2", "freed 0 left 1\n"),
        ("sweep 18446744073709551615", "freed 1 left 0\n"),
        ("sweep 1", "freed 0 left 0\n"),
    ];
    assert!(rt; is_answered(rt.alloc(), &["replay"], &session)?);
    Ok(())
}

// The free slots of a page that waits are counted, and no object is made in them: `new` sweeps the page first, and takes the slot that this
// makes free, which is lower.
#[test]
fn no_object_is_made_on_a_page_that_waits(rt: HostRuntime) -> Result<(), Fail> {
    let session = [
        ("new a 0 P M", "#1 0x10000\n"),
        ("new b 0 P M", "#2 0x10028\n"),
        ("drop b", "ok\n"),
        ("gc", "! gone #2\n! verdict full 1\nok scanned 1\n"),
        (
            "stat",
            "stat count=1 minor_gc_count=0 major_gc_count=1 heap_allocated_pages=1 heap_live_slots=1 heap_free_slots=1636 total_allocated_objects=2 total_freed_objects=0 old_objects=0 remembered_wb_unprotected_objects=0 compact_count=0 total_moved_objects=0\n",
        ),
        ("new c 0 P M", "#3 0x10028\n"),
        ("sweep 1", "freed 0 left 0\n"),
        (
            "stat",
            "stat count=1 minor_gc_count=0 major_gc_count=1 heap_allocated_pages=1 heap_live_slots=2 heap_free_slots=1636 total_allocated_objects=3 total_freed_objects=1 old_objects=0 remembered_wb_unprotected_objects=0 compact_count=0 total_moved_objects=0\n",
        ),
    ];
    assert!(rt; is_answered(rt.alloc(), &["replay"], &session)?);
    Ok(())
}

// The first page is full, and two objects stand on the second one. The `new` needs the sweep of the first alone, so the second still waits.
#[test]
fn new_sweeps_no_further_than_it_needs(rt: HostRuntime) -> Result<(), Fail> {
    let mut trace = Vec::new(rt.alloc());
    for _ in 0..102 {
        trace.extend_from_slice(b"new t 78 P M\n")?;
    }
    trace.extend_from_slice(b"new a 78 P M\nnew b 78 P M\ndrop b\ngc\n")?;
    trace.extend_from_slice(b"new c 78 P M\nsweep 0\nsweep 9\n")?;
    let (status, text) = replayed(rt.alloc(), &["replay"], &trace, &[], &[])?;
    assert_eq!(rt; status, 0);
    assert!(rt;
        text.ends_with(
            b"\n! gone #101\n! gone #104\n! verdict full 102\nok scanned 2\n#105 0x10000\nfreed 0 left 1\nfreed 1 left 0\n"
        )
    );
    Ok(())
}

// No slot fits, though all pages were swept for it. By their sweeps both are spare, and the lowest serves the other size. There may be no
// third page, and no collection comes.
#[test]
fn new_takes_the_lowest_page_that_sweeps_made_spare(rt: HostRuntime) -> Result<(), Fail> {
    let session = [
        ("new a 0 P M", "#1 0x10000\n"),
        ("new b 4 P M", "#2 0x20000\n"),
        ("drop a", "ok\n"),
        ("drop b", "ok\n"),
        (
            "gc",
            "! gone #1\n! gone #2\n! verdict full 2\nok scanned 0\n",
        ),
        ("new c 9 P M", "#3 0x10000\n"),
        ("sweep 1", "freed 0 left 0\n"),
        ("new d 19 P M", "#4 0x20000\n"),
    ];
    assert!(rt; is_answered(rt.alloc(), &["replay", "--pages", "2"], &session)?);
    Ok(())
}

// What is gone since the verdict before waits no longer than until the next one, of either kind.
#[test]
fn a_collection_first_completes_the_sweep(rt: HostRuntime) -> Result<(), Fail> {
    let session = [
        ("new a 0 P M", "#1 0x10000\n"),
        ("new b 0 P M", "#2 0x10028\n"),
        ("drop a", "ok\n"),
        ("gc", "! gone #1\n! verdict full 1\nok scanned 1\n"),
        ("drop b", "ok\n"),
        ("minor", "! gone #2\n! verdict minor 1\nok scanned 0\n"),
        (
            "stat",
            "stat count=2 minor_gc_count=1 major_gc_count=1 heap_allocated_pages=1 heap_live_slots=0 heap_free_slots=1637 total_allocated_objects=2 total_freed_objects=1 old_objects=0 remembered_wb_unprotected_objects=0 compact_count=0 total_moved_objects=0\n",
        ),
        ("gc", "! verdict full 0\nok scanned 0\n"),
        (
            "stat",
            "stat count=3 minor_gc_count=1 major_gc_count=2 heap_allocated_pages=1 heap_live_slots=0 heap_free_slots=0 total_allocated_objects=2 total_freed_objects=2 old_objects=0 remembered_wb_unprotected_objects=0 compact_count=0 total_moved_objects=0\n",
        ),
        ("sweep 1", "freed 0 left 0\n"),
    ];
    assert!(rt; is_answered(rt.alloc(), &["replay"], &session)?);
    Ok(())
}

// At the limit no collection is needed where a sweep gives room. After `full` no page waits.
#[test]
fn new_sweeps_before_it_collects(rt: HostRuntime) -> Result<(), Fail> {
    let session = [
        ("new a 0 P M", "#1 0x10000\n"),
        ("drop a", "ok\n"),
        ("gc", "! gone #1\n! verdict full 1\nok scanned 0\n"),
        ("new b 4 P M", "#2 0x10000\n"),
        ("new c 0 P M", "! verdict full 0\nfull\n"),
        ("sweep 1", "freed 0 left 0\n"),
    ];
    assert!(rt; is_answered(rt.alloc(), &["replay", "--pages", "1"], &session)?);
    Ok(())
}
