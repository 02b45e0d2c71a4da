// What a command does first with a compaction that is under way.
use super::is_answered;
use std::test::Fail;

// All moves are made, each with its line, and all references are corrected, before the collection's own marking.
#[test]
fn minor_completes_the_compaction(rt: HostRuntime) -> Result<(), Fail> {
    let session = [
        ("new a 2 P M", "#1 0x10000\n"),
        ("new x 0 P M", "#2 0x10028\n"),
        ("new w 0 P M", "#3 0x10050\n"),
        ("new y 0 P M", "#4 0x10078\n"),
        ("new z 0 P M", "#5 0x100a0\n"),
        ("store a 0 z", "ok\n"),
        ("store a 1 y", "ok\n"),
        ("drop x", "ok\n"),
        ("drop w", "ok\n"),
        ("drop y", "ok\n"),
        ("drop z", "ok\n"),
        (
            "compact",
            "! gone #2\n! gone #3\n! verdict full 2\nok scanned 3\n",
        ),
        (
            "minor",
            "! move #5 0x100a0 0x10028\n! move #4 0x10078 0x10050\n! verdict minor 0\nok scanned 3\n",
        ),
        ("peek a", "at 0x10000 0x10028 0x10050\n"),
        ("move 1", "error not compacting\n"),
    ];
    assert!(rt; is_answered(rt.alloc(), &["replay"], &session)?);
    Ok(())
}

// No slot of its size is free, so the compaction is completed before a page is taken; and a page is taken without a collection.
#[test]
fn new_completes_the_compaction_before_it_takes_a_page(rt: HostRuntime) -> Result<(), Fail> {
    let session = [
        ("new a 2 P M", "#1 0x10000\n"),
        ("new x 0 P M", "#2 0x10028\n"),
        ("new w 0 P M", "#3 0x10050\n"),
        ("new y 0 P M", "#4 0x10078\n"),
        ("new z 0 P M", "#5 0x100a0\n"),
        ("store a 0 z", "ok\n"),
        ("store a 1 y", "ok\n"),
        ("drop x", "ok\n"),
        ("drop w", "ok\n"),
        ("drop y", "ok\n"),
        ("drop z", "ok\n"),
        (
            "compact",
            "! gone #2\n! gone #3\n! verdict full 2\nok scanned 3\n",
        ),
        (
            "new e 8 P M",
            "! move #5 0x100a0 0x10028\n! move #4 0x10078 0x10050\n#6 0x20000\n",
        ),
        ("peek a", "at 0x10000 0x10028 0x10050\n"),
        ("fix 1", "error not compacting\n"),
    ];
    assert!(rt; is_answered(rt.alloc(), &["replay"], &session)?);
    Ok(())
}

// A compaction whose references are being corrected has no moves left to make, so its completion tells none.
#[test]
fn a_correction_is_completed_without_lines(rt: HostRuntime) -> Result<(), Fail> {
    let session = [
        ("new a 1 P M", "#1 0x10000\n"),
        ("new x 0 P M", "#2 0x10028\n"),
        ("new z 0 P M", "#3 0x10050\n"),
        ("store a 0 z", "ok\n"),
        ("drop x", "ok\n"),
        ("compact", "! gone #2\n! verdict full 1\nok scanned 2\n"),
        ("move 1", "! move #3 0x10050 0x10028\nmoved 1 done\n"),
        ("fix 0", "fixed 0\n"),
        ("peek a", "at 0x10000 0x10050\n"),
        ("major", "ok\n"),
        ("peek a", "at 0x10000 0x10028\n"),
        ("fix 1", "error not compacting\n"),
        ("finish", "! verdict major 0\nok scanned 2\n"),
    ];
    assert!(rt; is_answered(rt.alloc(), &["replay"], &session)?);
    Ok(())
}

// The first compaction is completed before the second one begins, and each is counted once.
#[test]
fn compact_completes_the_compaction_before_its_own(rt: HostRuntime) -> Result<(), Fail> {
    let session = [
        ("new x 0 P M", "#1 0x10000\n"),
        ("new z 0 P M", "#2 0x10028\n"),
        ("drop x", "ok\n"),
        ("compact", "! gone #1\n! verdict full 1\nok scanned 1\n"),
        (
            "compact",
            "! move #2 0x10028 0x10000\n! verdict full 0\nok scanned 1\n",
        ),
        ("move 1", "moved 0 done\n"),
        ("fix 9", "fixed 1 done\n"),
        (
            "stat",
            "stat count=2 minor_gc_count=0 major_gc_count=2 heap_allocated_pages=1 heap_live_slots=1 heap_free_slots=1637 total_allocated_objects=2 total_freed_objects=1 old_objects=0 remembered_wb_unprotected_objects=0 compact_count=2 total_moved_objects=1\n",
        ),
    ];
    assert!(rt; is_answered(rt.alloc(), &["replay"], &session)?);
    Ok(())
}

#[test]
fn exit_completes_the_compaction(rt: HostRuntime) -> Result<(), Fail> {
    let session = [
        ("new x 0 P M", "#1 0x10000\n"),
        ("new z 0 P M", "#2 0x10028\n"),
        ("final z bye", "ok\n"),
        ("drop x", "ok\n"),
        ("compact", "! gone #1\n! verdict full 1\nok scanned 1\n"),
        (
            "exit",
            "! move #2 0x10028 0x10000\n! gone #2\n! verdict full 1\n! final #2 bye\nok ran 1\n",
        ),
        ("move 1", "error not compacting\n"),
    ];
    assert!(rt; is_answered(rt.alloc(), &["replay"], &session)?);
    Ok(())
}
