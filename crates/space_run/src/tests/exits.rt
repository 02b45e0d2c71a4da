// `exit`: what it takes, what it runs, and that the space goes on.
use super::is_answered;
use std::test::Fail;

#[test]
fn an_exit_takes_all_and_runs_what_waits(rt: HostRuntime) -> Result<(), Fail> {
    let session = [
        ("new a 0 P M", "#1 0x10000\n"),
        ("final a bye", "ok\n"),
        ("new b 0 P M", "#2 0x10028\n"),
        ("push b", "word 0x10028 names #2\n"),
        (
            "exit",
            "! gone #1\n! gone #2\n! verdict full 2\n! final #1 bye\nok ran 1\n",
        ),
        ("same a a", "error no root\n"),
        ("new c 4 P M", "#3 0x10000\n"),
    ];
    assert!(rt; is_answered(rt.alloc(), &["replay"], &session)?);
    Ok(())
}

// No stack word, root, id, weak entry or finalizer leads to anything any more; ids go on where they were.
#[test]
fn nothing_is_left_but_the_ids(rt: HostRuntime) -> Result<(), Fail> {
    let session = [
        ("new a 1 U K", "#1 0x10000\n"),
        ("store a 0 a", "ok\n"),
        ("id a", "8\n"),
        ("wset m a a", "ok\n"),
        ("final a one", "ok\n"),
        ("push a", "word 0x10000 names #1\n"),
        (
            "exit",
            "! gone #1\n! verdict full 1\n! final #1 one\nok ran 1\n",
        ),
        ("pop", "error no word\n"),
        ("drop a", "error no root\n"),
        ("byid a 8", "gone\n"),
        ("wsize m", "0\n"),
        ("dump", "ok dumped 0\n"),
        ("exit", "! verdict full 0\nok ran 0\n"),
        ("new b 0 P M", "#2 0x10000\n"),
        ("id b", "16\n"),
        ("exit", "! gone #2\n! verdict full 1\nok ran 0\n"),
    ];
    assert!(rt; is_answered(rt.alloc(), &["replay"], &session)?);
    Ok(())
}

// A marking is ended first, with its own verdict; what it takes runs before what the exit takes, and what waited before both.
#[test]
fn an_exit_completes_what_is_under_way(rt: HostRuntime) -> Result<(), Fail> {
    let session = [
        ("new a 0 P M", "#1 0x10000\n"),
        ("new b 0 P M", "#2 0x10028\n"),
        ("new c 0 P M", "#3 0x10050\n"),
        ("final a first", "ok\n"),
        ("final b third", "ok\n"),
        ("final c second", "ok\n"),
        ("drop a", "ok\n"),
        ("gc", "! gone #1\n! verdict full 1\nok scanned 2\n"),
        ("drop c", "ok\n"),
        ("major", "ok\n"),
        (
            "exit",
            "! gone #3\n! verdict major 1\n! gone #2\n! verdict full 1\n! final #1 first\n! final #3 second\n! final #2 third\nok ran 3\n",
        ),
        ("mark 1", "error not marking\n"),
        ("sweep 9", "freed 0 left 0\n"),
        ("run 9", "ran 0\n"),
        (
            "stat",
            "stat count=3 minor_gc_count=0 major_gc_count=3 heap_allocated_pages=1 heap_live_slots=0 heap_free_slots=0 total_allocated_objects=3 total_freed_objects=3 old_objects=0 remembered_wb_unprotected_objects=0 compact_count=0 total_moved_objects=0\n",
        ),
    ];
    assert!(rt; is_answered(rt.alloc(), &["replay"], &session)?);
    Ok(())
}

// Finalizers that wait already run too, though nothing is taken.
#[test]
fn an_exit_runs_what_waited_before(rt: HostRuntime) -> Result<(), Fail> {
    let session = [
        ("exit", "! verdict full 0\nok ran 0\n"),
        ("new a 0 P M", "#1 0x10000\n"),
        ("final a one", "ok\n"),
        ("final a two", "ok\n"),
        ("drop a", "ok\n"),
        ("minor", "! gone #1\n! verdict minor 1\nok scanned 0\n"),
        ("sweep 1", "freed 1 left 0\n"),
        ("run 1", "! final #1 one\nran 1\n"),
        ("exit", "! verdict full 0\n! final #1 two\nok ran 1\n"),
        ("exit", "! verdict full 0\nok ran 0\n"),
    ];
    assert!(rt; is_answered(rt.alloc(), &["replay"], &session)?);
    Ok(())
}
