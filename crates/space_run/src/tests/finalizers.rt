// Finalizers: they wait until their object is gone and swept, and run once.
use super::is_answered;
use std::test::Fail;

#[test]
fn a_finalizer_waits_for_the_sweep_and_runs_once(rt: HostRuntime) -> Result<(), Fail> {
    let session = [
        ("new a 0 P M", "#1 0x10000\n"),
        ("final a one", "ok\n"),
        ("final a two", "ok\n"),
        ("new b 0 P M", "#2 0x10028\n"),
        ("final b three", "ok\n"),
        ("unfinal b", "removed 1\n"),
        ("drop a", "ok\n"),
        ("gc", "! gone #1\n! verdict full 1\nok scanned 1\n"),
        ("run 9", "ran 0\n"),
        ("sweep 9", "freed 1 left 0\n"),
        ("run 1", "! final #1 one\nran 1\n"),
        ("run 9", "! final #1 two\nran 1\n"),
        ("gc", "! verdict full 0\nok scanned 1\n"),
        ("sweep 9", "freed 0 left 0\n"),
        ("run 9", "ran 0\n"),
    ];
    assert!(rt; is_answered(rt.alloc(), &["replay"], &session)?);
    Ok(())
}

// Objects that go together are queued by ascending address, and each one's finalizers in the order of definition, however these are mixed.
#[test]
fn the_queue_goes_by_address_and_then_by_definition(rt: HostRuntime) -> Result<(), Fail> {
    let session = [
        ("new a 0 P M", "#1 0x10000\n"),
        ("new big 4 P M", "#2 0x20000\n"),
        ("new b 0 P M", "#3 0x10028\n"),
        ("final big last", "ok\n"),
        ("final b x", "ok\n"),
        ("final a y", "ok\n"),
        ("final b w", "ok\n"),
        ("drop a", "ok\n"),
        ("drop big", "ok\n"),
        ("drop b", "ok\n"),
        (
            "gc",
            "! gone #1\n! gone #3\n! gone #2\n! verdict full 3\nok scanned 0\n",
        ),
        ("sweep 1", "freed 2 left 1\n"),
        ("run 2", "! final #1 y\n! final #3 x\nran 2\n"),
        ("sweep 1", "freed 1 left 0\n"),
        ("run 0", "ran 0\n"),
        ("run 9", "! final #3 w\n! final #2 last\nran 2\n"),
    ];
    assert!(rt; is_answered(rt.alloc(), &["replay"], &session)?);
    Ok(())
}

// A later object in the same slot has none of them.
#[test]
fn each_sweep_queues_what_it_frees(rt: HostRuntime) -> Result<(), Fail> {
    let session = [
        ("new a 78 P M", "#1 0x10000\n"),
        ("final a by_new", "ok\n"),
        ("drop a", "ok\n"),
        ("minor", "! gone #1\n! verdict minor 1\nok scanned 0\n"),
        ("new a 78 P M", "#2 0x10000\n"),
        ("unfinal a", "removed 0\n"),
        ("run 9", "! final #1 by_new\nran 1\n"),
        ("final a by_gc", "ok\n"),
        ("drop a", "ok\n"),
        ("gc", "! gone #2\n! verdict full 1\nok scanned 0\n"),
        ("gc", "! verdict full 0\nok scanned 0\n"),
        ("run 9", "! final #2 by_gc\nran 1\n"),
        ("new a 0 P M", "#3 0x10000\n"),
        ("final a by_major", "ok\n"),
        ("drop a", "ok\n"),
        ("major", "ok\n"),
        ("run 9", "ran 0\n"),
        ("finish", "! gone #3\n! verdict major 1\nok scanned 0\n"),
        ("major", "ok\n"),
        ("run 9", "! final #3 by_major\nran 1\n"),
    ];
    assert!(rt; is_answered(rt.alloc(), &["replay"], &session)?);
    Ok(())
}

// What lives keeps its finalizers, and what is taken away doesn't run. A label may be that of another.
#[test]
fn finalizers_stay_with_what_lives(rt: HostRuntime) -> Result<(), Fail> {
    let session = [
        ("new a 1 P M", "#1 0x10000\n"),
        ("new b 0 P M", "#2 0x10028\n"),
        ("store a 0 b", "ok\n"),
        ("drop b", "ok\n"),
        ("push a", "word 0x10000 names #1\n"),
        ("drop a", "ok\n"),
        ("load b @0 0", "#2\n"),
        ("final b same", "ok\n"),
        ("final b same", "ok\n"),
        ("drop b", "ok\n"),
        ("gc", "! verdict full 0\nok scanned 2\n"),
        ("sweep 9", "freed 0 left 0\n"),
        ("run 9", "ran 0\n"),
        ("store @0 0 nil", "ok\n"),
        ("gc", "! gone #2\n! verdict full 1\nok scanned 1\n"),
        ("sweep 9", "freed 1 left 0\n"),
        ("final @0 never", "ok\n"),
        ("unfinal @0", "removed 1\n"),
        ("unfinal @0", "removed 0\n"),
        ("pop", "ok\n"),
        ("gc", "! gone #1\n! verdict full 1\nok scanned 0\n"),
        ("sweep 9", "freed 1 left 0\n"),
        ("run 9", "! final #2 same\n! final #2 same\nran 2\n"),
        ("run 9", "ran 0\n"),
    ];
    assert!(rt; is_answered(rt.alloc(), &["replay"], &session)?);
    Ok(())
}

#[test]
fn only_objects_have_finalizers(rt: HostRuntime) -> Result<(), Fail> {
    let session = [
        ("final a f", "error no root\n"),
        ("unfinal a", "error no root\n"),
        ("final @0 f", "error no word\n"),
        ("set n nil", "ok\n"),
        ("final n f", "error not an object\n"),
        ("set n =4", "ok\n"),
        ("unfinal n", "error not an object\n"),
        ("raw 0x10000", "word 0x10000 names -\n"),
        ("final @0 f", "error not an object\n"),
        ("run 18446744073709551615", "ran 0\n"),
    ];
    assert!(rt; is_answered(rt.alloc(), &["replay"], &session)?);
    Ok(())
}
