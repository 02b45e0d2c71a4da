// What a command does first with a major marking, or a sweep, that is under way.
use super::{is_answered, replayed};
use std::test::Fail;

// By the major verdict of the first marking b and c go, and both are swept before the second one begins, which finds a white again. So the
// next object stands where b stood.
#[test]
fn major_completes_the_marking_that_is_under_way(rt: HostRuntime) -> Result<(), Fail> {
    let session = [
        ("new a 0 P M", "#1 0x10000\n"),
        ("new b 0 P M", "#2 0x10028\n"),
        ("drop b", "ok\n"),
        ("major", "ok\n"),
        ("mark 1", "scanned 1 grey 0\n"),
        ("new c 0 P M", "#3 0x10050\n"),
        ("drop c", "ok\n"),
        ("major", "! gone #2\n! gone #3\n! verdict major 2\nok\n"),
        ("sweep 1", "freed 0 left 0\n"),
        ("mark 0", "scanned 0 grey 1\n"),
        ("new d 0 P M", "#4 0x10028\n"),
        ("finish", "! verdict major 0\nok scanned 2\n"),
    ];
    assert!(rt; is_answered(rt.alloc(), &["replay"], &session)?);
    Ok(())
}

// Pages that wait since the verdict before are swept first.
#[test]
fn major_completes_the_sweep_that_is_under_way(rt: HostRuntime) -> Result<(), Fail> {
    let session = [
        ("new a 0 P M", "#1 0x10000\n"),
        ("gc", "! verdict full 0\nok scanned 1\n"),
        ("drop a", "ok\n"),
        ("gc", "! gone #1\n! verdict full 1\nok scanned 0\n"),
        ("major", "ok\n"),
        ("sweep 1", "freed 0 left 0\n"),
        (
            "stat",
            "stat count=2 minor_gc_count=0 major_gc_count=2 heap_allocated_pages=1 heap_live_slots=0 heap_free_slots=0 total_allocated_objects=1 total_freed_objects=1 old_objects=0 remembered_wb_unprotected_objects=0 compact_count=0 total_moved_objects=0\n",
        ),
        ("mark 1", "scanned 0 grey 0\n"),
        ("finish", "! verdict major 0\nok scanned 0\n"),
    ];
    assert!(rt; is_answered(rt.alloc(), &["replay"], &session)?);
    Ok(())
}

// The marking that `gc` completes leaves b, which it began with, and takes c. Then `gc` takes b; the slot of c is free by then, that of b waits.
#[test]
fn gc_completes_the_marking_before_its_own(rt: HostRuntime) -> Result<(), Fail> {
    let session = [
        ("new a 0 P M", "#1 0x10000\n"),
        ("new b 0 P M", "#2 0x10028\n"),
        ("new c 0 P M", "#3 0x10050\n"),
        ("drop c", "ok\n"),
        ("major", "ok\n"),
        ("drop b", "ok\n"),
        (
            "gc",
            "! gone #3\n! verdict major 1\n! gone #2\n! verdict full 1\nok scanned 1\n",
        ),
        ("mark 1", "error not marking\n"),
        ("sweep 1", "freed 1 left 0\n"),
        (
            "stat",
            "stat count=2 minor_gc_count=0 major_gc_count=2 heap_allocated_pages=1 heap_live_slots=1 heap_free_slots=1637 total_allocated_objects=3 total_freed_objects=2 old_objects=0 remembered_wb_unprotected_objects=0 compact_count=0 total_moved_objects=0\n",
        ),
    ];
    assert!(rt; is_answered(rt.alloc(), &["replay"], &session)?);
    Ok(())
}

#[test]
fn minor_completes_the_marking_before_its_own(rt: HostRuntime) -> Result<(), Fail> {
    let session = [
        ("new a 0 P M", "#1 0x10000\n"),
        ("new b 0 P M", "#2 0x10028\n"),
        ("new c 0 P M", "#3 0x10050\n"),
        ("drop c", "ok\n"),
        ("major", "ok\n"),
        ("drop b", "ok\n"),
        (
            "minor",
            "! gone #3\n! verdict major 1\n! gone #2\n! verdict minor 1\nok scanned 1\n",
        ),
        ("finish", "error not marking\n"),
        ("sweep 1", "freed 1 left 0\n"),
    ];
    assert!(rt; is_answered(rt.alloc(), &["replay"], &session)?);
    Ok(())
}

// There may be one page, and that has slots of another size. The first time a root holds a; the second time a is marked, so the major verdict
// leaves it. The third time that takes b, so the page would do; but a whole collection comes all the same.
#[test]
fn new_at_the_limit_completes_the_marking_and_collects(rt: HostRuntime) -> Result<(), Fail> {
    let session = [
        ("new a 0 P M", "#1 0x10000\n"),
        ("major", "ok\n"),
        ("new b 4 P M", "! verdict major 0\n! verdict full 0\nfull\n"),
        ("mark 1", "error not marking\n"),
        ("major", "ok\n"),
        ("drop a", "ok\n"),
        (
            "new b 4 P M",
            "! verdict major 0\n! gone #1\n! verdict full 1\n#2 0x10000\n",
        ),
        ("drop b", "ok\n"),
        ("major", "ok\n"),
        (
            "new c 0 P M",
            "! gone #2\n! verdict major 1\n! verdict full 0\n#3 0x10000\n",
        ),
        ("finish", "error not marking\n"),
    ];
    assert!(rt; is_answered(rt.alloc(), &["replay", "--pages", "1"], &session)?);
    Ok(())
}

// Below the limit a marking goes on: the object is made on one more page.
#[test]
fn new_below_the_limit_leaves_the_marking(rt: HostRuntime) -> Result<(), Fail> {
    let mut trace = Vec::new(rt.alloc());
    trace.extend_from_slice(b"new t 78 P M\nmajor\n")?;
    for _ in 0..102 {
        trace.extend_from_slice(b"new t 78 P M\n")?;
    }
    trace.extend_from_slice(b"mark 9\n")?;
    let (status, text) = replayed(rt.alloc(), &["replay", "--pages", "2"], &trace, &[], &[])?;
    assert_eq!(rt; status, 0);
    assert!(rt; text.ends_with(b"\n#102 0x1fc80\n#103 0x20000\nscanned 1 grey 0\n"));
    Ok(())
}
