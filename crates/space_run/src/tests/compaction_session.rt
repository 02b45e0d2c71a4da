// A longer trace with a compaction in it, as a user may have it.
use super::words_of;
use crate::run;
use space_io::{MemorySink, MemorySource};
use std::alloc::Global;
use std::test::Fail;

// The lines that fill ten fields of the list, from the one whose number has these tens on; of the fourth ten only eight.
fn add_children(trace: &mut Vec<u8>, tens: u8, units: &[u8]) -> Result<(), Fail> {
    for unit in units {
        trace.extend_from_slice(b"new t 8 P M\nstore list ")?;
        trace.push(tens)?;
        trace.push(*unit)?;
        trace.extend_from_slice(b" t\n")?;
    }
    Ok(())
}

// 38 children of a list, many objects that only their root leads to, and a cache; minor collections, a marking with a raw store into the cache, and
// a compaction. The cache and its child stand above the slots of what is gone, and move to the lowest of them.
fn session_trace(alloc: Global) -> Result<Vec<u8>, Fail> {
    let mut trace = b"new list 38 P M\n".to_vec(alloc)?;
    add_children(&mut trace, b'0', b"0123456789")?;
    add_children(&mut trace, b'1', b"0123456789")?;
    add_children(&mut trace, b'2', b"0123456789")?;
    add_children(&mut trace, b'3', b"01234567")?;
    trace.extend_from_slice(b"drop t\n")?;
    for _ in 0..160 {
        trace.extend_from_slice(b"new t 3 P M\n")?;
    }
    trace.extend_from_slice(b"new cache 3 U M\nwset w list t\nminor\nminor\n")?;
    trace.extend_from_slice(b"major\nmark 10\nrawstore cache 0 t\ndrop t\nfinish\nsweep 9\n")?;
    trace.extend_from_slice(b"compact\nmove 9\nfix 100\npeek cache\nwsize w\nstat\n")?;
    Ok(trace)
}

// The answers to the trace, where it is replayed to its end.
fn answers(alloc: Global, trace: Vec<u8>) -> Result<(u8, Vec<u8>), Fail> {
    let words = words_of(alloc, &["replay"])?;
    let mut source = MemorySource::new(trace, 1 << 16, Vec::new(alloc));
    let mut sink = MemorySink::new(alloc, 1 << 20, 1 << 16, Vec::new(alloc))?;
    let status = run(alloc, &words, &mut source, &mut sink);
    Ok((status, sink.bytes().to_vec(alloc)?))
}

#[test]
fn a_user_compacts_what_is_left(rt: HostRuntime) -> Result<(), Fail> {
    let alloc = rt.alloc();
    let (status, text) = answers(alloc, session_trace(alloc)?)?;
    assert_eq!(rt; status, 0);
    assert!(rt; text.starts_with(b"#1 0x10000\n"));
    assert!(rt;
        text.ends_with(
            b"\n! gone #197\n! gone #198\n! verdict minor 159\nok scanned 41\n! verdict minor 0\nok scanned 41\nok\nscanned 10 grey 31\nok\nok\n! verdict major 0\nok scanned 32\nfreed 0 left 0\n! verdict full 0\nok scanned 41\n! move #200 0x31900 0x30000\n! move #199 0x318d8 0x30028\nmoved 2 done\nfixed 41 done\nat 0x30000 0x30028 0x0 0x0\n1\nstat count=4 minor_gc_count=2 major_gc_count=2 heap_allocated_pages=3 heap_live_slots=41 heap_free_slots=2620 total_allocated_objects=200 total_freed_objects=159 old_objects=40 remembered_wb_unprotected_objects=0 compact_count=1 total_moved_objects=2\n"
        )
    );
    Ok(())
}

// The object that was moved last stands highest.
#[test]
fn a_dump_after_a_compaction_has_the_new_addresses(rt: HostRuntime) -> Result<(), Fail> {
    let alloc = rt.alloc();
    let mut trace = session_trace(alloc)?;
    trace.extend_from_slice(b"dump\n")?;
    let (status, text) = answers(alloc, trace)?;
    assert_eq!(rt; status, 0);
    assert!(rt;
        text.ends_with(
            b"\n{\"address\":\"0x30000\",\"fields\":3,\"flags\":{\"old\":false,\"style\":\"M\",\"wb_protected\":false},\"name\":200,\"references\":[\"0x30028\"],\"slot_size\":40,\"type\":\"OBJECT\"}\n{\"address\":\"0x30028\",\"fields\":3,\"flags\":{\"old\":true,\"style\":\"M\",\"wb_protected\":true},\"name\":199,\"references\":[],\"slot_size\":40,\"type\":\"OBJECT\"}\nok dumped 41\n"
        )
    );
    Ok(())
}
