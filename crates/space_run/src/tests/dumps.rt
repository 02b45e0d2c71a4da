// The commands that show objects: `dump` and `peek`.
use super::is_answered;
use std::test::Fail;

#[test]
fn a_dump_shows_each_object_and_peek_its_words(rt: HostRuntime) -> Result<(), Fail> {
    let dump =
        "{\"address\":\"0x10000\",\"fields\":3,\"flags\":{\"old\":false,\"style\":\"K\",\"wb_protected\":true},\"name\":1,\"references\":[\"0x10028\"],\"slot_size\":40,\"type\":\"OBJECT\"}\n{\"address\":\"0x10028\",\"fields\":0,\"flags\":{\"old\":false,\"style\":\"M\",\"wb_protected\":false},\"name\":2,\"references\":[],\"slot_size\":40,\"type\":\"OBJECT\"}\nok dumped 2\n";
    let session = [
        ("new a 3 P K", "#1 0x10000\n"),
        ("new b 0 U M", "#2 0x10028\n"),
        ("store a 0 b", "ok\n"),
        ("store a 2 =7", "ok\n"),
        ("dump", dump),
        ("peek a", "at 0x10000 0x10028 0x0 0xf\n"),
        ("peek b", "at 0x10028\n"),
    ];
    assert!(rt; is_answered(rt.alloc(), &["replay"], &session)?);
    Ok(())
}

// By ascending address, whatever the names; references in the order of fields, as often as they are there.
#[test]
fn a_dump_goes_by_address_and_its_references_by_field(rt: HostRuntime) -> Result<(), Fail> {
    let dump =
        "{\"address\":\"0x10000\",\"fields\":8,\"flags\":{\"old\":false,\"style\":\"M\",\"wb_protected\":true},\"name\":1,\"references\":[\"0x20000\",\"0x10000\",\"0x20000\"],\"slot_size\":80,\"type\":\"OBJECT\"}\n{\"address\":\"0x10050\",\"fields\":4,\"flags\":{\"old\":false,\"style\":\"M\",\"wb_protected\":true},\"name\":3,\"references\":[],\"slot_size\":80,\"type\":\"OBJECT\"}\n{\"address\":\"0x20000\",\"fields\":78,\"flags\":{\"old\":false,\"style\":\"M\",\"wb_protected\":true},\"name\":2,\"references\":[\"0x10050\"],\"slot_size\":640,\"type\":\"OBJECT\"}\nok dumped 3\n";
    let session = [
        ("dump", "ok dumped 0\n"),
        ("new a 8 P M", "#1 0x10000\n"),
        ("new b 78 P M", "#2 0x20000\n"),
        ("new c 4 P M", "#3 0x10050\n"),
        ("store a 1 b", "ok\n"),
        ("store a 2 =9", "ok\n"),
        ("store a 5 a", "ok\n"),
        ("store a 7 b", "ok\n"),
        ("store b 77 c", "ok\n"),
        ("dump", dump),
    ];
    assert!(rt; is_answered(rt.alloc(), &["replay"], &session)?);
    Ok(())
}

// Three verdicts make old what the write barrier protects. What is gone is in no dump, before its sweep too.
#[test]
fn a_dump_tells_what_is_old_and_leaves_the_gone_out(rt: HostRuntime) -> Result<(), Fail> {
    let young =
        "{\"address\":\"0x10000\",\"fields\":0,\"flags\":{\"old\":false,\"style\":\"M\",\"wb_protected\":true},\"name\":1,\"references\":[],\"slot_size\":40,\"type\":\"OBJECT\"}\n{\"address\":\"0x10028\",\"fields\":0,\"flags\":{\"old\":false,\"style\":\"M\",\"wb_protected\":false},\"name\":2,\"references\":[],\"slot_size\":40,\"type\":\"OBJECT\"}\nok dumped 2\n";
    let old =
        "{\"address\":\"0x10000\",\"fields\":0,\"flags\":{\"old\":true,\"style\":\"M\",\"wb_protected\":true},\"name\":1,\"references\":[],\"slot_size\":40,\"type\":\"OBJECT\"}\nok dumped 1\n";
    let bare =
        "{\"address\":\"0x10000\",\"fields\":0,\"flags\":{\"old\":false,\"style\":\"M\",\"wb_protected\":false},\"name\":1,\"references\":[],\"slot_size\":40,\"type\":\"OBJECT\"}\nok dumped 1\n";
    let session = [
        ("new a 0 P M", "#1 0x10000\n"),
        ("new b 0 U M", "#2 0x10028\n"),
        ("minor", "! verdict minor 0\nok scanned 2\n"),
        ("minor", "! verdict minor 0\nok scanned 2\n"),
        ("dump", young),
        ("drop b", "ok\n"),
        ("minor", "! gone #2\n! verdict minor 1\nok scanned 1\n"),
        ("dump", old),
        ("sweep 9", "freed 1 left 0\n"),
        ("dump", old),
        ("unprotect a", "ok\n"),
        ("dump", bare),
    ];
    assert!(rt; is_answered(rt.alloc(), &["replay"], &session)?);
    Ok(())
}

// Neither changes anything, in a marking too.
#[test]
fn what_is_shown_is_not_changed(rt: HostRuntime) -> Result<(), Fail> {
    let dump =
        "{\"address\":\"0x10000\",\"fields\":1,\"flags\":{\"old\":false,\"style\":\"M\",\"wb_protected\":true},\"name\":1,\"references\":[],\"slot_size\":40,\"type\":\"OBJECT\"}\n{\"address\":\"0x10028\",\"fields\":0,\"flags\":{\"old\":false,\"style\":\"M\",\"wb_protected\":true},\"name\":2,\"references\":[],\"slot_size\":40,\"type\":\"OBJECT\"}\nok dumped 2\n";
    let session = [
        ("new a 1 P M", "#1 0x10000\n"),
        ("new b 0 P M", "#2 0x10028\n"),
        ("drop b", "ok\n"),
        ("major", "ok\n"),
        ("mark 0", "scanned 0 grey 1\n"),
        ("dump", dump),
        ("peek a", "at 0x10000 0x0\n"),
        ("dump", dump),
        ("mark 9", "scanned 1 grey 0\n"),
        ("finish", "! gone #2\n! verdict major 1\nok scanned 0\n"),
    ];
    assert!(rt; is_answered(rt.alloc(), &["replay"], &session)?);
    Ok(())
}

#[test]
fn only_objects_are_shown(rt: HostRuntime) -> Result<(), Fail> {
    let session = [
        ("peek a", "error no root\n"),
        ("peek @0", "error no word\n"),
        ("set n nil", "ok\n"),
        ("peek n", "error not an object\n"),
        ("new a 1 P M", "#1 0x10000\n"),
        ("store a 0 =0", "ok\n"),
        ("peek a", "at 0x10000 0x1\n"),
        ("store a 0 =4611686018427387903", "ok\n"),
        ("peek a", "at 0x10000 0x7fffffffffffffff\n"),
        ("raw 0x10001", "word 0x10001 names -\n"),
        ("peek @0", "error not an object\n"),
    ];
    assert!(rt; is_answered(rt.alloc(), &["replay"], &session)?);
    Ok(())
}

// All that a command on every table leaves, and what is written of it.
#[test]
fn memory_is_asked_for_and_given(rt: HostRuntime) -> Result<(), Fail> {
    let dump =
        "{\"address\":\"0x10000\",\"fields\":1,\"flags\":{\"old\":false,\"style\":\"M\",\"wb_protected\":true},\"name\":1,\"references\":[],\"slot_size\":40,\"type\":\"OBJECT\"}\nok dumped 1\n";
    let session = [
        ("new a 1 P M", "#1 0x10000\n"),
        ("set b a", "ok\n"),
        ("push a", "word 0x10000 names #1\n"),
        ("raw 0x0", "word 0x0 names -\n"),
        ("id a", "8\n"),
        ("wset m a a", "ok\n"),
        ("final a f", "ok\n"),
        ("load c a 0", "nil\n"),
        ("byid d 8", "#1\n"),
        ("wget e m a", "#1\n"),
        ("wdel m a", "true\n"),
        ("dump", dump),
    ];
    assert!(rt; is_answered(rt.alloc(), &["replay"], &session)?);
    Ok(())
}
