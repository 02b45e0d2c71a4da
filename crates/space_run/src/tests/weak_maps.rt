// Weak maps: what is set and read, and which entries go with which objects.
use super::is_answered;
use std::test::Fail;

// Only the map led to v. Its id is the first that was given.
#[test]
fn an_entry_goes_with_its_value(rt: HostRuntime) -> Result<(), Fail> {
    let session = [
        ("new k 0 P M", "#1 0x10000\n"),
        ("new v 0 P M", "#2 0x10028\n"),
        ("wset m k v", "ok\n"),
        ("id v", "8\n"),
        ("wsize m", "1\n"),
        ("wkey m k", "true\n"),
        ("drop v", "ok\n"),
        ("gc", "! gone #2\n! verdict full 1\nok scanned 1\n"),
        ("wget r m k", "nil\n"),
        ("wsize m", "0\n"),
        ("wdel m k", "false\n"),
        ("byid r 8", "gone\n"),
        ("byid r 16", "error no id\n"),
        ("id k", "16\n"),
        ("byid r 16", "#1\n"),
    ];
    assert!(rt; is_answered(rt.alloc(), &["replay"], &session)?);
    Ok(())
}

#[test]
fn a_key_has_in_each_map_the_value_that_was_set_last(rt: HostRuntime) -> Result<(), Fail> {
    let session = [
        ("new k 0 P M", "#1 0x10000\n"),
        ("new v 0 P M", "#2 0x10028\n"),
        ("new w 0 P M", "#3 0x10050\n"),
        ("wset m k v", "ok\n"),
        ("wget r m k", "#2\n"),
        ("wset m k w", "ok\n"),
        ("wget r m k", "#3\n"),
        ("same r w", "true\n"),
        ("wsize m", "1\n"),
        ("wset n k k", "ok\n"),
        ("wset n v w", "ok\n"),
        ("wget r n k", "#1\n"),
        ("wget r m k", "#3\n"),
        ("wsize n", "2\n"),
        ("wsize m", "1\n"),
    ];
    assert!(rt; is_answered(rt.alloc(), &["replay"], &session)?);
    Ok(())
}

// The fields of j and k hold the same. A key stays the same while its fields change, whichever operand names it.
#[test]
fn keys_are_told_apart_by_identity(rt: HostRuntime) -> Result<(), Fail> {
    let session = [
        ("new j 1 P M", "#1 0x10000\n"),
        ("new k 1 P M", "#2 0x10028\n"),
        ("new v 0 P M", "#3 0x10050\n"),
        ("store j 0 =7", "ok\n"),
        ("store k 0 =7", "ok\n"),
        ("wset m j v", "ok\n"),
        ("wkey m j", "true\n"),
        ("wkey m k", "false\n"),
        ("wget r m k", "nil\n"),
        ("wsize m", "1\n"),
        ("wset m k k", "ok\n"),
        ("wsize m", "2\n"),
        ("store j 0 =8", "ok\n"),
        ("wget r m j", "#3\n"),
        ("set i j", "ok\n"),
        ("wkey m i", "true\n"),
        ("push j", "word 0x10000 names #1\n"),
        ("wget r m @0", "#3\n"),
        ("wdel m @0", "true\n"),
        ("wkey m j", "false\n"),
        ("wget r m k", "#2\n"),
    ];
    assert!(rt; is_answered(rt.alloc(), &["replay"], &session)?);
    Ok(())
}

#[test]
fn wget_writes_nil_where_the_key_has_no_value(rt: HostRuntime) -> Result<(), Fail> {
    let session = [
        ("new k 0 P M", "#1 0x10000\n"),
        ("set r =5", "ok\n"),
        ("wget r m k", "nil\n"),
        ("push r", "word 0x0 names -\n"),
        ("wget q m k", "nil\n"),
        ("drop q", "ok\n"),
        ("wset m k k", "ok\n"),
        ("wget k m k", "#1\n"),
        // The root is read before it is written.
        ("wget k n k", "nil\n"),
        ("wget k n k", "error not an object\n"),
    ];
    assert!(rt; is_answered(rt.alloc(), &["replay"], &session)?);
    Ok(())
}

#[test]
fn wdel_takes_one_entry_of_one_map(rt: HostRuntime) -> Result<(), Fail> {
    let session = [
        ("new k 0 P M", "#1 0x10000\n"),
        ("new v 0 P M", "#2 0x10028\n"),
        ("wdel m k", "false\n"),
        ("wset m k v", "ok\n"),
        ("wset n k v", "ok\n"),
        ("wset n v v", "ok\n"),
        ("wdel m v", "false\n"),
        ("wdel m k", "true\n"),
        ("wdel m k", "false\n"),
        ("wkey m k", "false\n"),
        ("wget r m k", "nil\n"),
        ("wsize m", "0\n"),
        ("wdel n k", "true\n"),
        ("wsize n", "1\n"),
        ("wkey n v", "true\n"),
        ("wset m k k", "ok\n"),
        ("wget r m k", "#1\n"),
        ("wsize m", "1\n"),
    ];
    assert!(rt; is_answered(rt.alloc(), &["replay"], &session)?);
    Ok(())
}

// The names of maps and those of roots have nothing to do with each other.
#[test]
fn a_map_of_which_nothing_is_known_is_empty(rt: HostRuntime) -> Result<(), Fail> {
    let session = [
        ("wsize m", "0\n"),
        ("wsize m", "0\n"),
        ("new k 0 P M", "#1 0x10000\n"),
        ("wkey m k", "false\n"),
        ("wsize m", "0\n"),
        ("drop m", "error no root\n"),
        ("wset k k k", "ok\n"),
        ("wsize k", "1\n"),
        ("drop k", "ok\n"),
        ("wsize k", "1\n"),
        ("gc", "! gone #1\n! verdict full 1\nok scanned 0\n"),
        ("wsize k", "0\n"),
    ];
    assert!(rt; is_answered(rt.alloc(), &["replay"], &session)?);
    Ok(())
}

// The object k is gone: as a key in m, as a value in n. Nothing else changes by the sweep.
#[test]
fn a_minor_verdict_takes_entries_before_any_sweep(rt: HostRuntime) -> Result<(), Fail> {
    let session = [
        ("new k 0 P M", "#1 0x10000\n"),
        ("new v 0 P M", "#2 0x10028\n"),
        ("new w 0 P M", "#3 0x10050\n"),
        ("wset m k v", "ok\n"),
        ("wset m w v", "ok\n"),
        ("wset n v k", "ok\n"),
        ("wset n w v", "ok\n"),
        ("drop k", "ok\n"),
        ("wsize m", "2\n"),
        ("minor", "! gone #1\n! verdict minor 1\nok scanned 2\n"),
        ("wsize m", "1\n"),
        ("wsize n", "1\n"),
        ("wkey n v", "false\n"),
        ("wget r n v", "nil\n"),
        ("wget r m w", "#2\n"),
        ("sweep 9", "freed 1 left 0\n"),
        ("wsize m", "1\n"),
        ("wget r n w", "#2\n"),
    ];
    assert!(rt; is_answered(rt.alloc(), &["replay"], &session)?);
    Ok(())
}

// Nothing leads to the old object k any more, which only a major or a full verdict takes.
#[test]
fn an_entry_stays_as_long_as_its_objects(rt: HostRuntime) -> Result<(), Fail> {
    let session = [
        ("new k 0 P M", "#1 0x10000\n"),
        ("new v 0 P M", "#2 0x10028\n"),
        ("wset m v k", "ok\n"),
        ("minor", "! verdict minor 0\nok scanned 2\n"),
        ("minor", "! verdict minor 0\nok scanned 2\n"),
        ("minor", "! verdict minor 0\nok scanned 2\n"),
        ("drop k", "ok\n"),
        ("minor", "! verdict minor 0\nok scanned 0\n"),
        ("wget r m v", "#1\n"),
        ("drop r", "ok\n"),
        ("gc", "! gone #1\n! verdict full 1\nok scanned 1\n"),
        ("wget r m v", "nil\n"),
    ];
    assert!(rt; is_answered(rt.alloc(), &["replay"], &session)?);
    Ok(())
}

#[test]
fn a_major_verdict_takes_entries_when_it_comes(rt: HostRuntime) -> Result<(), Fail> {
    let session = [
        ("new k 0 P M", "#1 0x10000\n"),
        ("new v 0 P M", "#2 0x10028\n"),
        ("new w 0 P M", "#3 0x10050\n"),
        ("wset m k v", "ok\n"),
        ("wset m v w", "ok\n"),
        ("wset m w k", "ok\n"),
        ("drop k", "ok\n"),
        ("major", "ok\n"),
        ("mark 9", "scanned 2 grey 0\n"),
        ("wsize m", "3\n"),
        ("finish", "! gone #1\n! verdict major 1\nok scanned 0\n"),
        ("wsize m", "1\n"),
        ("wkey m w", "false\n"),
        ("wget r m v", "#3\n"),
    ];
    assert!(rt; is_answered(rt.alloc(), &["replay"], &session)?);
    Ok(())
}

#[test]
fn the_verdict_of_a_completion_takes_entries(rt: HostRuntime) -> Result<(), Fail> {
    let session = [
        ("new k 0 P M", "#1 0x10000\n"),
        ("new v 0 P M", "#2 0x10028\n"),
        ("wset m k v", "ok\n"),
        ("wset m v v", "ok\n"),
        ("drop k", "ok\n"),
        ("major", "ok\n"),
        ("wsize m", "2\n"),
        ("major", "! gone #1\n! verdict major 1\nok\n"),
        ("wsize m", "1\n"),
        ("wget r m v", "#2\n"),
    ];
    assert!(rt; is_answered(rt.alloc(), &["replay"], &session)?);
    Ok(())
}

// The first `finish` finds v by the root r, and c by v. In the second marking r is dropped again before it is read.
#[test]
fn a_white_value_that_wget_hands_out_stays_while_it_is_reached(
    rt: HostRuntime,
) -> Result<(), Fail> {
    let session = [
        ("new k 0 P M", "#1 0x10000\n"),
        ("new v 1 P M", "#2 0x10028\n"),
        ("new c 0 P M", "#3 0x10050\n"),
        ("store v 0 c", "ok\n"),
        ("wset m k v", "ok\n"),
        ("drop v", "ok\n"),
        ("drop c", "ok\n"),
        ("major", "ok\n"),
        ("mark 9", "scanned 1 grey 0\n"),
        ("wget r m k", "#2\n"),
        ("finish", "! verdict major 0\nok scanned 2\n"),
        ("wsize m", "1\n"),
        ("load d r 0", "#3\n"),
        ("drop r", "ok\n"),
        ("drop d", "ok\n"),
        ("major", "ok\n"),
        ("mark 9", "scanned 1 grey 0\n"),
        ("wget r m k", "#2\n"),
        ("drop r", "ok\n"),
        (
            "finish",
            "! gone #2\n! gone #3\n! verdict major 2\nok scanned 0\n",
        ),
        ("wget r m k", "nil\n"),
    ];
    assert!(rt; is_answered(rt.alloc(), &["replay"], &session)?);
    Ok(())
}

#[test]
fn an_object_in_the_slot_of_a_key_is_another_key(rt: HostRuntime) -> Result<(), Fail> {
    let session = [
        ("new k 0 P M", "#1 0x10000\n"),
        ("new v 0 P M", "#2 0x10028\n"),
        ("wset m k v", "ok\n"),
        ("drop k", "ok\n"),
        ("gc", "! gone #1\n! verdict full 1\nok scanned 1\n"),
        ("new j 0 P M", "#3 0x10000\n"),
        ("wkey m j", "false\n"),
        ("wget r m j", "nil\n"),
        ("wsize m", "0\n"),
        ("wset m j v", "ok\n"),
        ("wget r m j", "#2\n"),
    ];
    assert!(rt; is_answered(rt.alloc(), &["replay"], &session)?);
    Ok(())
}

#[test]
fn refusals_of_weak_maps_go_by_the_one_order(rt: HostRuntime) -> Result<(), Fail> {
    let session = [
        ("set n nil", "ok\n"),
        ("set i =4", "ok\n"),
        ("new a 0 P M", "#1 0x10000\n"),
        ("wset m n q", "error no root\n"),
        ("wset m q n", "error no root\n"),
        ("wset m @0 q", "error no root\n"),
        ("wset m n @0", "error no word\n"),
        ("wset m a n", "error not an object\n"),
        ("wset m i a", "error not an object\n"),
        ("raw 0x10028", "word 0x10028 names -\n"),
        ("wset m a @0", "error not an object\n"),
        ("wset m @0 @1", "error no word\n"),
        ("wget r m q", "error no root\n"),
        ("wget r m @1", "error no word\n"),
        ("wget r m @0", "error not an object\n"),
        ("wget r m i", "error not an object\n"),
        ("drop r", "error no root\n"),
        ("wkey m q", "error no root\n"),
        ("wkey m @1", "error no word\n"),
        ("wkey m n", "error not an object\n"),
        ("wdel m q", "error no root\n"),
        ("wdel m @1", "error no word\n"),
        ("wdel m @0", "error not an object\n"),
        ("wsize m", "0\n"),
    ];
    assert!(rt; is_answered(rt.alloc(), &["replay"], &session)?);
    Ok(())
}
