// Objects and roots: what is made, written, read and compared, and what is refused.
use super::is_answered;
use std::test::Fail;

#[test]
fn fields_and_roots_are_read_back(rt: HostRuntime) -> Result<(), Fail> {
    let session = [
        ("new a 1 P M", "#1 0x10000\n"),
        ("store a 0 a", "ok\n"),
        ("load b a 0", "#1\n"),
        ("same a b", "true\n"),
        ("new c 3 P M", "#2 0x10028\n"),
        ("same a c", "false\n"),
        ("set d =7", "ok\n"),
        ("store c 2 d", "ok\n"),
        ("load e c 2", "=7\n"),
        ("load e c 0", "nil\n"),
    ];
    assert!(rt; is_answered(rt.alloc(), &["replay"], &session)?);
    Ok(())
}

#[test]
fn a_root_that_is_written_is_read_first(rt: HostRuntime) -> Result<(), Fail> {
    let session = [
        ("new a 1 P M", "#1 0x10000\n"),
        ("store a 0 =5", "ok\n"),
        ("load a a 0", "=5\n"),
        ("load a a 0", "error not an object\n"),
        // A refused command makes no root.
        ("load r a 0", "error not an object\n"),
        ("same r r", "error no root\n"),
    ];
    assert!(rt; is_answered(rt.alloc(), &["replay"], &session)?);
    Ok(())
}

#[test]
fn refusals_go_by_their_order_over_all_operands(rt: HostRuntime) -> Result<(), Fail> {
    let session = [
        ("set b nil", "ok\n"),
        ("store b 9 q", "error no root\n"),
        ("store b 9 @0", "error no word\n"),
        ("store b 9 b", "error not an object\n"),
        ("new a 0 P M", "#1 0x10000\n"),
        ("store a 9 a", "error no field\n"),
        ("new e 79 P M", "error too large\n"),
        ("drop e", "error no root\n"),
    ];
    assert!(rt; is_answered(rt.alloc(), &["replay"], &session)?);
    Ok(())
}

#[test]
fn each_size_has_pages_of_its_own(rt: HostRuntime) -> Result<(), Fail> {
    let session = [
        ("new a 3 P M", "#1 0x10000\n"),
        ("new b 3 P M", "#2 0x10028\n"),
        ("new c 4 P M", "#3 0x20000\n"),
        ("new d 78 P M", "#4 0x30000\n"),
        ("new f 38 P M", "#5 0x40000\n"),
        ("new g 9 P M", "#6 0x50000\n"),
        ("new h 8 P M", "#7 0x20050\n"),
    ];
    assert!(rt; is_answered(rt.alloc(), &["replay"], &session)?);
    Ok(())
}
