// Ages, the write barrier and minor collections: what is read, what stays and what goes.
use super::is_answered;
use std::test::Fail;

// Three verdicts make the parent old, and a minor collection reads it then only where it got a child that wasn't old. No store may pass the
// barrier by.
#[test]
fn a_minor_collection_finds_the_young_child_of_an_old_parent(rt: HostRuntime) -> Result<(), Fail> {
    let session = [
        ("new a 1 P M", "#1 0x10000\n"),
        ("minor", "! verdict minor 0\nok scanned 1\n"),
        ("minor", "! verdict minor 0\nok scanned 1\n"),
        ("minor", "! verdict minor 0\nok scanned 1\n"),
        ("new b 0 P M", "#2 0x10028\n"),
        ("store a 0 b", "ok\n"),
        ("drop b", "ok\n"),
        ("minor", "! verdict minor 0\nok scanned 2\n"),
        ("rawstore a 0 nil", "error protected\n"),
        ("load c a 0", "#2\n"),
        ("store a 0 nil", "ok\n"),
        ("drop c", "ok\n"),
        ("minor", "! gone #2\n! verdict minor 1\nok scanned 1\n"),
        ("minor", "! verdict minor 0\nok scanned 0\n"),
    ];
    assert!(rt; is_answered(rt.alloc(), &["replay"], &session)?);
    Ok(())
}

// The child of an old parent is kept, and read each time: so what a store without the barrier put into it is found. It stays, though nothing
// holds it any more, until a whole collection.
#[test]
fn an_unprotected_child_is_kept_until_a_whole_collection(rt: HostRuntime) -> Result<(), Fail> {
    let session = [
        ("new a 1 P M", "#1 0x10000\n"),
        ("minor", "! verdict minor 0\nok scanned 1\n"),
        ("minor", "! verdict minor 0\nok scanned 1\n"),
        ("minor", "! verdict minor 0\nok scanned 1\n"),
        ("new u 1 U M", "#2 0x10028\n"),
        ("store a 0 u", "ok\n"),
        ("drop u", "ok\n"),
        ("minor", "! verdict minor 0\nok scanned 2\n"),
        ("new b 0 P M", "#3 0x10050\n"),
        ("load u a 0", "#2\n"),
        ("rawstore u 0 b", "ok\n"),
        ("drop b", "ok\n"),
        ("drop u", "ok\n"),
        ("minor", "! verdict minor 0\nok scanned 2\n"),
        ("store a 0 nil", "ok\n"),
        ("minor", "! verdict minor 0\nok scanned 2\n"),
        (
            "gc",
            "! gone #2\n! gone #3\n! verdict full 2\nok scanned 1\n",
        ),
    ];
    assert!(rt; is_answered(rt.alloc(), &["replay"], &session)?);
    Ok(())
}

// Of all that may be wrong this comes last; and where the barrier protects the object no more, it isn't wrong.
#[test]
fn error_protected_is_the_last_of_all_refusals(rt: HostRuntime) -> Result<(), Fail> {
    let session = [
        ("drop q", "error no root\n"),
        ("pop", "error no word\n"),
        ("new a 1 P M", "#1 0x10000\n"),
        ("load b a 1", "error no field\n"),
        ("set b nil", "ok\n"),
        ("store b 0 a", "error not an object\n"),
        ("store b 9 q", "error no root\n"),
        ("store a 1 @0", "error no word\n"),
        ("rawstore a 1 nil", "error no field\n"),
        ("rawstore a 0 nil", "error protected\n"),
        ("unprotect a", "ok\n"),
        ("rawstore a 0 =5", "ok\n"),
        ("same a b", "false\n"),
    ];
    assert!(rt; is_answered(rt.alloc(), &["replay"], &session)?);
    Ok(())
}

// The third minor collection scans the parent at age 2, with a child of age 0, so that it is remembered as it becomes old. The fourth one finds
// the child through it, though no store came since.
#[test]
fn a_parent_is_remembered_as_it_becomes_old(rt: HostRuntime) -> Result<(), Fail> {
    let session = [
        ("new a 1 P M", "#1 0x10000\n"),
        ("minor", "! verdict minor 0\nok scanned 1\n"),
        ("minor", "! verdict minor 0\nok scanned 1\n"),
        ("new u 0 P M", "#2 0x10028\n"),
        ("store a 0 u", "ok\n"),
        ("drop u", "ok\n"),
        ("minor", "! verdict minor 0\nok scanned 2\n"),
        ("minor", "! verdict minor 0\nok scanned 2\n"),
    ];
    assert!(rt; is_answered(rt.alloc(), &["replay"], &session)?);
    Ok(())
}
