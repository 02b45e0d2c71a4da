// Whole collections: what goes, what stays, and what is free after it.
use super::{is_answered, words_of};
use crate::run;
use space_io::{MemorySink, MemorySource};
use std::test::Fail;

#[test]
fn a_cycle_goes_when_nothing_leads_to_it(rt: HostRuntime) -> Result<(), Fail> {
    let session = [
        ("new a 1 P M", "#1 0x10000\n"),
        ("store a 0 a", "ok\n"),
        ("push a", "word 0x10000 names #1\n"),
        ("drop a", "ok\n"),
        ("gc", "! verdict full 0\nok scanned 1\n"),
        ("pop", "ok\n"),
        ("gc", "! gone #1\n! verdict full 1\nok scanned 0\n"),
    ];
    assert!(rt; is_answered(rt.alloc(), &["replay"], &session)?);
    Ok(())
}

#[test]
fn the_slots_of_the_gone_are_used_again(rt: HostRuntime) -> Result<(), Fail> {
    let session = [
        ("new a 3 P M", "#1 0x10000\n"),
        ("new b 3 P M", "#2 0x10028\n"),
        ("drop b", "ok\n"),
        ("gc", "! gone #2\n! verdict full 1\nok scanned 1\n"),
        ("new c 3 P M", "#3 0x10028\n"),
    ];
    assert!(rt; is_answered(rt.alloc(), &["replay"], &session)?);
    Ok(())
}

// A page on which nothing is left serves another pool. A word of what is gone names nothing, until an object stands there.
#[test]
fn an_empty_page_serves_another_pool(rt: HostRuntime) -> Result<(), Fail> {
    let session = [
        ("new a 0 P M", "#1 0x10000\n"),
        ("raw 0x10000", "word 0x10000 names #1\n"),
        ("pop", "ok\n"),
        ("drop a", "ok\n"),
        ("gc", "! gone #1\n! verdict full 1\nok scanned 0\n"),
        ("raw 0x10000", "word 0x10000 names -\n"),
        ("new b 38 P M", "#2 0x10000\n"),
        ("raw 0x10000", "word 0x10000 names #2\n"),
    ];
    assert!(rt; is_answered(rt.alloc(), &["replay"], &session)?);
    Ok(())
}

// Nothing is gone, so there is no room. A root that is new isn't there after it, and a free slot takes no page.
#[test]
fn full_comes_after_a_collection(rt: HostRuntime) -> Result<(), Fail> {
    let session = [
        ("new a 0 P M", "#1 0x10000\n"),
        ("new b 4 P M", "! verdict full 0\nfull\n"),
        ("same a b", "error no root\n"),
        ("new c 3 P M", "#2 0x10028\n"),
    ];
    assert!(rt; is_answered(rt.alloc(), &["replay", "--pages", "1"], &session)?);
    Ok(())
}

// The root holds its old value during the collection, so the page isn't spare until it is dropped.
#[test]
fn a_root_holds_its_value_while_new_collects(rt: HostRuntime) -> Result<(), Fail> {
    let session = [
        ("new a 0 P M", "#1 0x10000\n"),
        ("new a 4 P M", "! verdict full 0\nfull\n"),
        ("same a a", "true\n"),
        ("drop a", "ok\n"),
        ("new a 4 P M", "! gone #1\n! verdict full 1\n#2 0x10000\n"),
    ];
    assert!(rt; is_answered(rt.alloc(), &["replay", "--pages", "1"], &session)?);
    Ok(())
}

#[test]
fn a_chain_that_fills_the_heap_goes_at_once(rt: HostRuntime) -> Result<(), Fail> {
    let alloc = rt.alloc();
    let mut trace = b"new h 1 P M\n".to_vec(alloc)?;
    for _ in 1..1638 {
        trace.extend_from_slice(b"new t 1 P M\nstore t 0 h\nset h t\n")?;
    }
    trace.extend_from_slice(b"drop t\nnew x 0 P M\ndrop h\nnew x 0 P M\n")?;
    let words = words_of(alloc, &["replay", "--pages", "1"])?;
    let mut source = MemorySource::new(trace, 1 << 16, Vec::new(alloc));
    let mut sink = MemorySink::new(alloc, 1 << 20, 1 << 16, Vec::new(alloc))?;
    assert_eq!(rt; run(alloc, &words, &mut source, &mut sink), 0);
    let text = sink.bytes();
    assert!(rt; text.ends_with(b"\n! gone #1638\n! verdict full 1638\n#1639 0x10000\n"));
    // The 1,638 lines before these two, and the answers before them.
    let end = text.len().saturating_sub(20_250);
    assert!(rt;
        text[end..].starts_with(b"\nok\n! verdict full 0\nfull\nok\n! gone #1\n! gone #2\n")
    );
    Ok(())
}

#[test]
fn the_last_of_all_slots_is_used(rt: HostRuntime) -> Result<(), Fail> {
    let alloc = rt.alloc();
    let mut trace = Vec::new(alloc);
    for _ in 0..419_329 {
        trace.extend_from_slice(b"new a 0 P M\n")?;
    }
    let words = words_of(alloc, &["replay"])?;
    let mut source = MemorySource::new(trace, 1 << 16, Vec::new(alloc));
    let mut sink = MemorySink::new(alloc, 1 << 24, 1 << 16, Vec::new(alloc))?;
    assert_eq!(rt; run(alloc, &words, &mut source, &mut sink), 0);
    let text = sink.bytes();
    assert!(rt; text.ends_with(b"\n! gone #419327\n! verdict full 419327\n#419329 0x1000000\n"));
    Ok(())
}
