// Compactions over commands: their beginning, their moves, reads between these, the corrections of references, and their end.
use super::is_answered;
use std::test::Fail;

#[test]
fn move_and_fix_are_refused_where_no_compaction_is_under_way(rt: HostRuntime) -> Result<(), Fail> {
    let session = [
        ("finish", "error not marking\n"),
        ("mark 1", "error not marking\n"),
        ("move 1", "error not compacting\n"),
        ("fix 1", "error not compacting\n"),
        ("sweep 5", "freed 0 left 0\n"),
        ("gc", "! verdict full 0\nok scanned 0\n"),
        ("major", "ok\n"),
        ("move 0", "error not compacting\n"),
        ("fix 0", "error not compacting\n"),
        ("finish", "! verdict major 0\nok scanned 0\n"),
    ];
    assert!(rt; is_answered(rt.alloc(), &["replay"], &session)?);
    Ok(())
}

// The highest object moves to the lowest free slot. What its owner has stored is its old address until the correction; each read leads to it all
// the same. The word of its old address names nothing, and the pushed word keeps y where it is. Its slot is free only when the compaction has ended.
#[test]
fn reads_follow_a_move_and_the_slot_is_free_at_the_end(rt: HostRuntime) -> Result<(), Fail> {
    let session = [
        ("new a 2 P M", "#1 0x10000\n"),
        ("new x 0 P M", "#2 0x10028\n"),
        ("new w 0 P M", "#3 0x10050\n"),
        ("new y 0 P M", "#4 0x10078\n"),
        ("new z 0 P M", "#5 0x100a0\n"),
        ("store a 0 z", "ok\n"),
        ("store a 1 y", "ok\n"),
        ("drop x", "ok\n"),
        ("drop w", "ok\n"),
        ("drop y", "ok\n"),
        ("drop z", "ok\n"),
        (
            "compact",
            "! gone #2\n! gone #3\n! verdict full 2\nok scanned 3\n",
        ),
        ("move 1", "! move #5 0x100a0 0x10028\nmoved 1\n"),
        ("load b a 0", "#5\n"),
        ("peek a", "at 0x10000 0x100a0 0x10078\n"),
        ("raw 0x100a0", "word 0x100a0 names -\n"),
        ("load c a 1", "#4\n"),
        ("push c", "word 0x10078 names #4\n"),
        ("move 9", "moved 0 done\n"),
        ("fix 2", "fixed 2\n"),
        ("peek a", "at 0x10000 0x10028 0x10078\n"),
        ("move 1", "error not compacting\n"),
        ("fix 9", "fixed 1 done\n"),
        ("new d 0 P M", "#6 0x10050\n"),
    ];
    assert!(rt; is_answered(rt.alloc(), &["replay"], &session)?);
    Ok(())
}

// Without pages there is nothing to move and nothing to visit. A `move` of no moves tells whether any is left, and a `fix` of no visits ends the
// compaction where no visit is left.
#[test]
fn a_compaction_of_nothing_ends_at_once(rt: HostRuntime) -> Result<(), Fail> {
    let session = [
        ("compact", "! verdict full 0\nok scanned 0\n"),
        ("move 0", "moved 0 done\n"),
        ("fix 0", "fixed 0 done\n"),
        ("fix 0", "error not compacting\n"),
        (
            "stat",
            "stat count=1 minor_gc_count=0 major_gc_count=1 heap_allocated_pages=0 heap_live_slots=0 heap_free_slots=0 total_allocated_objects=0 total_freed_objects=0 old_objects=0 remembered_wb_unprotected_objects=0 compact_count=1 total_moved_objects=0\n",
        ),
    ];
    assert!(rt; is_answered(rt.alloc(), &["replay"], &session)?);
    Ok(())
}

// The correction may come before the space is packed; then c stays. A page isn't spare before the end of a compaction.
#[test]
fn fix_ends_the_moves(rt: HostRuntime) -> Result<(), Fail> {
    let session = [
        ("new a 0 P M", "#1 0x10000\n"),
        ("new b 0 P M", "#2 0x10028\n"),
        ("new c 0 P M", "#3 0x10050\n"),
        ("drop a", "ok\n"),
        ("drop b", "ok\n"),
        (
            "compact",
            "! gone #1\n! gone #2\n! verdict full 2\nok scanned 1\n",
        ),
        ("fix 0", "fixed 0\n"),
        ("move 1", "error not compacting\n"),
        ("fix 1", "fixed 1 done\n"),
        ("push c", "word 0x10050 names #3\n"),
    ];
    assert!(rt; is_answered(rt.alloc(), &["replay"], &session)?);
    Ok(())
}

// The root, the id and both sides of the entry lead to the objects at their new addresses, in the moves, in the correction and after it.
#[test]
fn ids_and_weak_maps_follow_moves(rt: HostRuntime) -> Result<(), Fail> {
    let session = [
        ("new g 0 P M", "#1 0x10000\n"),
        ("new h 0 P M", "#2 0x10028\n"),
        ("new k 0 P M", "#3 0x10050\n"),
        ("new v 0 P M", "#4 0x10078\n"),
        ("id v", "8\n"),
        ("wset m k v", "ok\n"),
        ("drop g", "ok\n"),
        ("drop h", "ok\n"),
        (
            "compact",
            "! gone #1\n! gone #2\n! verdict full 2\nok scanned 2\n",
        ),
        (
            "move 9",
            "! move #4 0x10078 0x10000\n! move #3 0x10050 0x10028\nmoved 2 done\n",
        ),
        ("byid r 8", "#4\n"),
        ("same r v", "true\n"),
        ("wget s m k", "#4\n"),
        ("same s v", "true\n"),
        ("fix 0", "fixed 0\n"),
        ("byid r 8", "#4\n"),
        ("fix 9", "fixed 2 done\n"),
        ("new x 0 P M", "#5 0x10050\n"),
        ("new y 0 P M", "#6 0x10078\n"),
        ("byid r 8", "#4\n"),
        ("wget s m k", "#4\n"),
        ("push s", "word 0x10000 names #4\n"),
        ("push k", "word 0x10028 names #3\n"),
    ];
    assert!(rt; is_answered(rt.alloc(), &["replay"], &session)?);
    Ok(())
}

// In the first pool two objects stand above free slots, and in the second one. The first pool is packed first, its highest object before the other.
// A new object takes the lowest slot that no move took yet.
#[test]
fn pools_are_packed_one_after_another(rt: HostRuntime) -> Result<(), Fail> {
    let session = [
        ("new p 4 P M", "#1 0x10000\n"),
        ("new q 4 P M", "#2 0x10050\n"),
        ("new a 0 P M", "#3 0x20000\n"),
        ("new b 0 P M", "#4 0x20028\n"),
        ("new c 0 P M", "#5 0x20050\n"),
        ("new d 0 P M", "#6 0x20078\n"),
        ("drop p", "ok\n"),
        ("drop a", "ok\n"),
        ("drop b", "ok\n"),
        (
            "compact",
            "! gone #1\n! gone #3\n! gone #4\n! verdict full 3\nok scanned 3\n",
        ),
        ("move 1", "! move #6 0x20078 0x20000\nmoved 1\n"),
        ("new e 0 P M", "#7 0x20028\n"),
        ("move 1", "! move #2 0x10050 0x10000\nmoved 1 done\n"),
        ("fix 9", "fixed 4 done\n"),
        ("new f 0 P M", "#8 0x20078\n"),
    ];
    assert!(rt; is_answered(rt.alloc(), &["replay"], &session)?);
    Ok(())
}
