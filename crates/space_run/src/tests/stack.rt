// The stack: words that are pushed, and what they name.
use super::is_answered;
use std::test::Fail;

#[test]
fn words_are_told_and_read_by_their_place(rt: HostRuntime) -> Result<(), Fail> {
    let session = [
        ("new a 0 P M", "#1 0x10000\n"),
        ("push a", "word 0x10000 names #1\n"),
        ("push =5", "word 0xb names -\n"),
        ("push nil", "word 0x0 names -\n"),
        ("set b @2", "ok\n"),
        ("same a b", "true\n"),
        ("same @1 @0", "false\n"),
        ("push @1", "word 0xb names -\n"),
        ("set b @4", "error no word\n"),
        ("pop", "ok\n"),
        ("pop", "ok\n"),
        ("pop", "ok\n"),
        ("pop", "ok\n"),
        ("pop", "error no word\n"),
    ];
    assert!(rt; is_answered(rt.alloc(), &["replay"], &session)?);
    Ok(())
}

#[test]
fn a_word_without_a_value_is_no_operand(rt: HostRuntime) -> Result<(), Fail> {
    let session = [
        ("new a 3 P M", "#1 0x10000\n"),
        ("raw 0x10029", "word 0x10029 names -\n"),
        ("store a 0 @0", "ok\n"),
        ("load s a 0", "=32788\n"),
        ("raw 0x10008", "word 0x10008 names -\n"),
        ("set c @0", "error not an object\n"),
        (
            "raw 0xffffffffffffffff",
            "word 0xffffffffffffffff names -\n",
        ),
        ("push @0", "error not an object\n"),
        (
            "push =4611686018427387903",
            "word 0x7fffffffffffffff names -\n",
        ),
        ("same @0 @0", "true\n"),
    ];
    assert!(rt; is_answered(rt.alloc(), &["replay"], &session)?);
    Ok(())
}
