// What no move moves: what a stack word names, and what an object of style K holds.
use super::is_answered;
use std::test::Fail;

// What is pinned is found anew by each `move`. What is stored is the address at which the object stands now.
#[test]
fn an_object_of_style_k_pins_what_it_holds(rt: HostRuntime) -> Result<(), Fail> {
    let session = [
        ("new k 1 P K", "#1 0x10000\n"),
        ("new g 0 P M", "#2 0x10028\n"),
        ("new c 0 P M", "#3 0x10050\n"),
        ("drop g", "ok\n"),
        ("compact", "! gone #2\n! verdict full 1\nok scanned 2\n"),
        ("store k 0 c", "ok\n"),
        ("move 9", "moved 0 done\n"),
        ("store k 0 nil", "ok\n"),
        ("move 9", "! move #3 0x10050 0x10028\nmoved 1 done\n"),
        ("store k 0 c", "ok\n"),
        ("fix 9", "fixed 2 done\n"),
        ("peek k", "at 0x10000 0x10028\n"),
    ];
    assert!(rt; is_answered(rt.alloc(), &["replay"], &session)?);
    Ok(())
}

#[test]
fn a_raw_store_pins_as_a_store_does(rt: HostRuntime) -> Result<(), Fail> {
    let session = [
        ("new k 1 U K", "#1 0x10000\n"),
        ("new g 0 P M", "#2 0x10028\n"),
        ("new c 0 P M", "#3 0x10050\n"),
        ("drop g", "ok\n"),
        ("compact", "! gone #2\n! verdict full 1\nok scanned 2\n"),
        ("rawstore k 0 c", "ok\n"),
        ("move 9", "moved 0 done\n"),
        ("rawstore k 0 nil", "ok\n"),
        ("move 9", "! move #3 0x10050 0x10028\nmoved 1 done\n"),
        ("rawstore k 0 c", "ok\n"),
        ("fix 9", "fixed 2 done\n"),
        ("peek k", "at 0x10000 0x10028\n"),
    ];
    assert!(rt; is_answered(rt.alloc(), &["replay"], &session)?);
    Ok(())
}

// The word that stays on the stack names c where it stood, so b moves in its place; after the pop c does. A word of the address that it left names nothing.
#[test]
fn a_stack_word_pins_until_it_is_popped(rt: HostRuntime) -> Result<(), Fail> {
    let session = [
        ("new g 0 P M", "#1 0x10000\n"),
        ("new h 0 P M", "#2 0x10028\n"),
        ("new b 0 P M", "#3 0x10050\n"),
        ("new c 0 P M", "#4 0x10078\n"),
        ("push c", "word 0x10078 names #4\n"),
        ("drop g", "ok\n"),
        ("drop h", "ok\n"),
        (
            "compact",
            "! gone #1\n! gone #2\n! verdict full 2\nok scanned 2\n",
        ),
        ("move 9", "! move #3 0x10050 0x10000\nmoved 1 done\n"),
        ("same c @0", "true\n"),
        ("pop", "ok\n"),
        ("move 9", "! move #4 0x10078 0x10028\nmoved 1 done\n"),
        ("raw 0x10078", "word 0x10078 names -\n"),
        ("raw 0x10028", "word 0x10028 names #4\n"),
        ("fix 9", "fixed 2 done\n"),
        ("same c @0", "true\n"),
    ];
    assert!(rt; is_answered(rt.alloc(), &["replay"], &session)?);
    Ok(())
}
