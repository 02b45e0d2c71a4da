// Object ids: when they are given, and what they lead to while objects go.
use super::is_answered;
use std::test::Fail;

#[test]
fn ids_are_given_in_the_order_of_asking(rt: HostRuntime) -> Result<(), Fail> {
    let session = [
        ("new a 0 P M", "#1 0x10000\n"),
        ("new b 0 P M", "#2 0x10028\n"),
        ("new c 0 U K", "#3 0x10050\n"),
        ("id c", "8\n"),
        ("id a", "16\n"),
        ("id c", "8\n"),
        ("set d b", "ok\n"),
        ("id d", "24\n"),
        ("id b", "24\n"),
        ("id a", "16\n"),
        ("byid r 8", "#3\n"),
        ("same r c", "true\n"),
        ("byid r 00024", "#2\n"),
        ("same r b", "true\n"),
    ];
    assert!(rt; is_answered(rt.alloc(), &["replay"], &session)?);
    Ok(())
}

// No root is made, and one that is there keeps its value.
#[test]
fn an_id_that_was_never_given_is_refused(rt: HostRuntime) -> Result<(), Fail> {
    let session = [
        ("byid r 8", "error no id\n"),
        ("new a 0 P M", "#1 0x10000\n"),
        ("new b 0 P M", "#2 0x10028\n"),
        ("id b", "8\n"),
        ("byid r 0", "error no id\n"),
        ("byid r 4", "error no id\n"),
        ("byid r 9", "error no id\n"),
        ("byid r 16", "error no id\n"),
        ("byid r 18446744073709551608", "error no id\n"),
        ("byid r 18446744073709551615", "error no id\n"),
        ("drop r", "error no root\n"),
        ("byid a 16", "error no id\n"),
        ("id a", "16\n"),
        ("byid a 8", "#2\n"),
        ("same a b", "true\n"),
    ];
    assert!(rt; is_answered(rt.alloc(), &["replay"], &session)?);
    Ok(())
}

// An asking that is refused gives no id.
#[test]
fn only_objects_have_ids(rt: HostRuntime) -> Result<(), Fail> {
    let session = [
        ("id a", "error no root\n"),
        ("id @0", "error no word\n"),
        ("set n nil", "ok\n"),
        ("id n", "error not an object\n"),
        ("set n =4", "ok\n"),
        ("id n", "error not an object\n"),
        ("new a 0 P M", "#1 0x10000\n"),
        ("id a", "8\n"),
    ];
    assert!(rt; is_answered(rt.alloc(), &["replay"], &session)?);
    Ok(())
}

// The word on the top names nothing, as what stood there is gone, until another object is made there.
#[test]
fn a_stack_word_has_the_id_of_what_it_names(rt: HostRuntime) -> Result<(), Fail> {
    let session = [
        ("new a 0 P M", "#1 0x10000\n"),
        ("push a", "word 0x10000 names #1\n"),
        ("new b 0 P M", "#2 0x10028\n"),
        ("drop b", "ok\n"),
        ("gc", "! gone #2\n! verdict full 1\nok scanned 1\n"),
        ("raw 0x10028", "word 0x10028 names -\n"),
        ("id @0", "error not an object\n"),
        ("id @1", "8\n"),
        ("id a", "8\n"),
        ("id @2", "error no word\n"),
        ("new c 0 P M", "#3 0x10028\n"),
        ("id @0", "16\n"),
        ("byid r 16", "#3\n"),
        ("same r c", "true\n"),
    ];
    assert!(rt; is_answered(rt.alloc(), &["replay"], &session)?);
    Ok(())
}

// The page of b waits at first. Once it was swept another object stands where b stood, and has an id of its own. No root is written by all that.
#[test]
fn the_id_of_what_is_gone_leads_to_nothing_ever_again(rt: HostRuntime) -> Result<(), Fail> {
    let session = [
        ("new a 0 P M", "#1 0x10000\n"),
        ("new b 0 P M", "#2 0x10028\n"),
        ("id b", "8\n"),
        ("drop b", "ok\n"),
        ("minor", "! gone #2\n! verdict minor 1\nok scanned 1\n"),
        ("byid r 8", "gone\n"),
        ("drop r", "error no root\n"),
        ("byid a 8", "gone\n"),
        ("id a", "16\n"),
        ("sweep 1", "freed 1 left 0\n"),
        ("byid r 8", "gone\n"),
        ("new c 0 P M", "#3 0x10028\n"),
        ("byid r 8", "gone\n"),
        ("id c", "24\n"),
        ("byid r 8", "gone\n"),
        ("byid a 8", "gone\n"),
        ("byid a 16", "#1\n"),
        ("byid r 24", "#3\n"),
    ];
    assert!(rt; is_answered(rt.alloc(), &["replay"], &session)?);
    Ok(())
}

// Nothing led to the object when the marking began.
#[test]
fn a_white_object_that_byid_hands_out_stays(rt: HostRuntime) -> Result<(), Fail> {
    let session = [
        ("new a 0 P M", "#1 0x10000\n"),
        ("id a", "8\n"),
        ("drop a", "ok\n"),
        ("major", "ok\n"),
        ("byid b 8", "#1\n"),
        ("finish", "! verdict major 0\nok scanned 1\n"),
        ("id b", "8\n"),
        ("drop b", "ok\n"),
        ("gc", "! gone #1\n! verdict full 1\nok scanned 0\n"),
        ("byid b 8", "gone\n"),
    ];
    assert!(rt; is_answered(rt.alloc(), &["replay"], &session)?);
    Ok(())
}

// The black object a gets the one that was handed out: so this is grey, and then its child c.
#[test]
fn the_write_barrier_saves_what_byid_hands_out(rt: HostRuntime) -> Result<(), Fail> {
    let session = [
        ("new a 1 P M", "#1 0x10000\n"),
        ("new b 1 P M", "#2 0x10028\n"),
        ("new c 0 P M", "#3 0x10050\n"),
        ("store b 0 c", "ok\n"),
        ("id b", "8\n"),
        ("drop b", "ok\n"),
        ("drop c", "ok\n"),
        ("major", "ok\n"),
        ("mark 9", "scanned 1 grey 0\n"),
        ("byid d 8", "#2\n"),
        ("store a 0 d", "ok\n"),
        ("drop d", "ok\n"),
        ("mark 9", "scanned 2 grey 0\n"),
        ("finish", "! verdict major 0\nok scanned 0\n"),
        ("load e a 0", "#2\n"),
        ("load e e 0", "#3\n"),
    ];
    assert!(rt; is_answered(rt.alloc(), &["replay"], &session)?);
    Ok(())
}

// The verdict of the completion takes a, and that of the collection which `new` needs takes b.
#[test]
fn every_verdict_tells_which_ids_lead_to_nothing(rt: HostRuntime) -> Result<(), Fail> {
    let session = [
        ("new a 0 P M", "#1 0x10000\n"),
        ("new b 0 P M", "#2 0x10028\n"),
        ("id b", "8\n"),
        ("id a", "16\n"),
        ("drop a", "ok\n"),
        ("major", "ok\n"),
        ("byid b 8", "#2\n"),
        ("major", "! gone #1\n! verdict major 1\nok\n"),
        ("byid r 16", "gone\n"),
        ("finish", "! verdict major 0\nok scanned 1\n"),
        ("drop b", "ok\n"),
        ("new c 4 P M", "! gone #2\n! verdict full 1\n#3 0x10000\n"),
        ("byid r 8", "gone\n"),
        ("id c", "24\n"),
    ];
    assert!(rt; is_answered(rt.alloc(), &["replay", "--pages", "1"], &session)?);
    Ok(())
}
