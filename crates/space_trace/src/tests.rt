// Each form of a line once, with texts that were written by hand.
use crate::{read_command, write_command, write_event, write_peek, write_reply};
use space_io::MemorySink;
use space_model::{Event, Ident, Kind, PAGE_BYTES, Refusal, Reply, Stat, Value};
use std::alloc::{AllocError as NoMemory, Global};
use std::test::Fail;

// The line, and how its command is spelled.
const FORMS: [(&[u8], &[u8]); 69] = [
    (b"new a 3 P M", b"new a 3 P M\n"),
    (b"new a 79 P M", b"new a 79 P M\n"),
    (
        b"new a 18446744073709551615 P M",
        b"new a 18446744073709551615 P M\n",
    ),
    (b"new Ab_9 000 P M", b"new Ab_9 0 P M\n"),
    (b"new a 3 U M", b"new a 3 U M\n"),
    (b"new a 3 P K", b"new a 3 P K\n"),
    (b"new a 3 U K", b"new a 3 U K\n"),
    (b"set _a b", b"set _a b\n"),
    (b"set a nil", b"set a nil\n"),
    (
        b"set a =4611686018427387903",
        b"set a =4611686018427387903\n",
    ),
    (b"set a =00007", b"set a =7\n"),
    (
        b"store a 18446744073709551615 nil",
        b"store a 18446744073709551615 nil\n",
    ),
    (
        b"rawstore a 18446744073709551615 =5",
        b"rawstore a 18446744073709551615 =5\n",
    ),
    (b"rawstore @2 00 b", b"rawstore @2 0 b\n"),
    (b"load a b 10", b"load a b 10\n"),
    (b"load a @007 1", b"load a @7 1\n"),
    (b"set a @0", b"set a @0\n"),
    (
        b"same @0 @18446744073709551615",
        b"same @0 @18446744073709551615\n",
    ),
    (b"drop a", b"drop a\n"),
    (b"push nil", b"push nil\n"),
    (b"push @1\r", b"push @1\n"),
    (b"push =5", b"push =5\n"),
    (b"raw 0x0", b"raw 0x0\n"),
    (b"raw 0x00ff", b"raw 0xff\n"),
    (b"raw 0xfedcba9876543210", b"raw 0xfedcba9876543210\n"),
    (b"pop", b"pop\n"),
    (b"same a b", b"same a b\n"),
    (b"same a b\r", b"same a b\n"),
    (b"unprotect a", b"unprotect a\n"),
    (b"unprotect @0", b"unprotect @0\n"),
    (b"id a", b"id a\n"),
    (b"id @007\r", b"id @7\n"),
    (b"byid a 0", b"byid a 0\n"),
    (
        b"byid a 18446744073709551615",
        b"byid a 18446744073709551615\n",
    ),
    (b"byid a 008", b"byid a 8\n"),
    (b"wset a b c", b"wset a b c\n"),
    (b"wset m @0 @01", b"wset m @0 @1\n"),
    (
        b"wset a2345678901234567890123456789012 b2345678901234567890123456789012 c2345678901234567890123456789012",
        b"wset a2345678901234567890123456789012 b2345678901234567890123456789012 c2345678901234567890123456789012\n",
    ),
    (b"wget a b c", b"wget a b c\n"),
    (b"wget a m @2", b"wget a m @2\n"),
    (b"wkey a b", b"wkey a b\n"),
    (b"wkey m @3", b"wkey m @3\n"),
    (b"wsize m", b"wsize m\n"),
    (b"wdel a b\r", b"wdel a b\n"),
    (b"minor", b"minor\n"),
    (b"gc", b"gc\n"),
    (b"major", b"major\n"),
    (b"mark 0", b"mark 0\n"),
    (b"mark 00010\r", b"mark 10\n"),
    (b"mark 18446744073709551615", b"mark 18446744073709551615\n"),
    (b"finish", b"finish\n"),
    (b"sweep 0", b"sweep 0\n"),
    (b"sweep 007", b"sweep 7\n"),
    (
        b"sweep 18446744073709551615",
        b"sweep 18446744073709551615\n",
    ),
    (b"stat\r", b"stat\n"),
    (b"final a bye", b"final a bye\n"),
    (b"final @007 _1", b"final @7 _1\n"),
    (
        b"final a2345678901234567890123456789012 b2345678901234567890123456789012",
        b"final a2345678901234567890123456789012 b2345678901234567890123456789012\n",
    ),
    (b"unfinal @0", b"unfinal @0\n"),
    (b"run 0", b"run 0\n"),
    (b"run 18446744073709551615", b"run 18446744073709551615\n"),
    (b"dump", b"dump\n"),
    (b"peek a", b"peek a\n"),
    (b"exit\r", b"exit\n"),
    (b"compact", b"compact\n"),
    (b"move 0", b"move 0\n"),
    (b"move 18446744073709551615", b"move 18446744073709551615\n"),
    (b"fix 007\r", b"fix 7\n"),
    (b"fix 18446744073709551615", b"fix 18446744073709551615\n"),
];

// Lines without a command.
const BLANK: [&[u8]; 5] = [b"", b"\r", b";", b"; a comment", b";same a b\r"];

const MALFORMED: [&[u8]; 106] = [
    b" ",
    b" ; a comment",
    b"\r\r",
    b"\r;",
    b" same a b",
    b"same a b ",
    b"same  a b",
    b"same a b\r\r",
    b"same a\r b",
    b"same a",
    b"same a b c",
    b"same @ b",
    b"same @18446744073709551616 b",
    b"same @x b",
    b"set @0 a",
    b"drop @0",
    b"drop",
    b"push",
    b"push nil nil",
    b"raw 0x",
    b"raw 0xFF",
    b"raw 00",
    b"raw 0x00000000000000000",
    b"raw 5",
    b"raw 0xg",
    b"pop a",
    b"pop ",
    b"Same a b",
    b"new a 3 M P",
    b"new a 3 P",
    b"new a 3 u M",
    b"new a 3 P k",
    b"new a 3 PU M",
    b"rawstore a 0",
    b"rawstore nil 0 a",
    b"unprotect",
    b"unprotect nil",
    b"unprotect a b",
    b"id",
    b"id nil",
    b"id a b",
    b"byid a",
    b"byid @0 8",
    b"byid a =8",
    b"byid a 18446744073709551616",
    b"wset m a",
    b"wset m a nil",
    b"wset m a b c",
    b"wset @0 a b",
    b"wget a m",
    b"wget @0 m a",
    b"wget a @0 b",
    b"wkey m",
    b"wkey m =1",
    b"wsize",
    b"wsize @0",
    b"wsize m a",
    b"wdel m nil",
    b"wdel m a b",
    b"new a 000000000000000000001 P M",
    b"new a 0x1 P M",
    b"new nil 1 P M",
    b"new 1a 1 P M",
    b"new a23456789012345678901234567890123 1 P M",
    b"load a b 18446744073709551616",
    b"load a nil 0",
    b"set a =4611686018427387904",
    b"set a =",
    b"set a 1",
    b"get a",
    b"minor a",
    b"gc ",
    b"gc a",
    b"major 1",
    b"mark",
    b"mark -1",
    b"mark 1 2",
    b"mark 18446744073709551616",
    b"finish ",
    b"sweep",
    b"sweep a",
    b"sweep 1 2",
    b"sweep 18446744073709551616",
    b"stat 0",
    b"Stat",
    b"final a",
    b"final a nil",
    b"final a @0",
    b"final a b c",
    b"unfinal",
    b"unfinal nil",
    b"run",
    b"run  1",
    b"dump a",
    b"peek",
    b"peek a b",
    b"exit 1",
    b"compact 1",
    b"compacts",
    b"move",
    b"move a",
    b"move 1 2",
    b"move 18446744073709551616",
    b"fix ",
    b"fix nil",
    b"fix 1 2",
];

const EVENTS: [(Event, &[u8]); 6] = [
    (Event::Gone { name: 7 }, b"! gone #7\n"),
    (
        Event::Verdict {
            kind: Kind::Minor,
            gone: 0,
        },
        b"! verdict minor 0\n",
    ),
    (
        Event::Verdict {
            kind: Kind::Major,
            gone: 12,
        },
        b"! verdict major 12\n",
    ),
    (
        Event::Verdict {
            kind: Kind::Full,
            gone: 3,
        },
        b"! verdict full 3\n",
    ),
    (
        Event::Moved {
            name: 3,
            from: 65576,
            to: 0,
        },
        b"! move #3 0x10028 0x0\n",
    ),
    (
        Event::Moved {
            name: u64::MAX,
            from: u64::MAX,
            to: u64::MAX,
        },
        b"! move #18446744073709551615 0xffffffffffffffff 0xffffffffffffffff\n",
    ),
];

const COUNTS: Stat = Stat {
    count: 1,
    minor_gc_count: 2,
    major_gc_count: 3,
    heap_allocated_pages: 4,
    heap_live_slots: 5,
    heap_free_slots: 6,
    total_allocated_objects: 7,
    total_freed_objects: 8,
    old_objects: 9,
    remembered_wb_unprotected_objects: 10,
    compact_count: 11,
    total_moved_objects: 12,
};

const MOST_COUNTS: Stat = Stat {
    count: u64::MAX,
    minor_gc_count: u64::MAX,
    major_gc_count: u64::MAX,
    heap_allocated_pages: u64::MAX,
    heap_live_slots: u64::MAX,
    heap_free_slots: u64::MAX,
    total_allocated_objects: u64::MAX,
    total_freed_objects: u64::MAX,
    old_objects: u64::MAX,
    remembered_wb_unprotected_objects: u64::MAX,
    compact_count: u64::MAX,
    total_moved_objects: u64::MAX,
};

const REPLIES: [(Reply, &[u8]); 41] = [
    (
        Reply::Made {
            name: 1,
            address: PAGE_BYTES,
        },
        b"#1 0x10000\n",
    ),
    (
        Reply::Made {
            name: 20,
            address: 0,
        },
        b"#20 0x0\n",
    ),
    (
        Reply::Made {
            name: 18446744073709551615,
            address: 18446744073709551615,
        },
        b"#18446744073709551615 0xffffffffffffffff\n",
    ),
    (Reply::Full, b"full\n"),
    (Reply::NoMemory, b"no memory\n"),
    (Reply::Done, b"ok\n"),
    (
        Reply::Pushed {
            word: 65576,
            names: Some(12),
        },
        b"word 0x10028 names #12\n",
    ),
    (
        Reply::Pushed {
            word: 0,
            names: None,
        },
        b"word 0x0 names -\n",
    ),
    (Reply::Read { value: Value::Nil }, b"nil\n"),
    (
        Reply::Read {
            value: Value::Small(5),
        },
        b"=5\n",
    ),
    (
        Reply::Read {
            value: Value::Name(9),
        },
        b"#9\n",
    ),
    (Reply::Truth { yes: true }, b"true\n"),
    (Reply::Truth { yes: false }, b"false\n"),
    (Reply::Number { number: 0 }, b"0\n"),
    (
        Reply::Number {
            number: 18446744073709551615,
        },
        b"18446744073709551615\n",
    ),
    (Reply::GoneId, b"gone\n"),
    (Reply::Removed { count: 1 }, b"removed 1\n"),
    (Reply::RanCount { count: 0 }, b"ran 0\n"),
    (Reply::Dumped { count: 41 }, b"ok dumped 41\n"),
    (
        Reply::ExitRan {
            count: 18446744073709551615,
        },
        b"ok ran 18446744073709551615\n",
    ),
    (Reply::Scanned { count: 0 }, b"ok scanned 0\n"),
    (
        Reply::Scanned {
            count: 18446744073709551615,
        },
        b"ok scanned 18446744073709551615\n",
    ),
    (
        Reply::Marked {
            scanned: 10,
            grey: 0,
        },
        b"scanned 10 grey 0\n",
    ),
    (
        Reply::Marked {
            scanned: 18446744073709551615,
            grey: 18446744073709551615,
        },
        b"scanned 18446744073709551615 grey 18446744073709551615\n",
    ),
    (Reply::SweepCount { freed: 1, left: 0 }, b"freed 1 left 0\n"),
    (
        Reply::SweepCount {
            freed: 18446744073709551615,
            left: 4294967295,
        },
        b"freed 18446744073709551615 left 4294967295\n",
    ),
    (
        Reply::MoveCount {
            moved: 0,
            done: true,
        },
        b"moved 0 done\n",
    ),
    (
        Reply::MoveCount {
            moved: 5,
            done: false,
        },
        b"moved 5\n",
    ),
    (
        Reply::FixCount {
            fixed: 18446744073709551615,
            done: true,
        },
        b"fixed 18446744073709551615 done\n",
    ),
    (
        Reply::FixCount {
            fixed: 0,
            done: false,
        },
        b"fixed 0\n",
    ),
    (
        Reply::StatLine { stat: COUNTS },
        b"stat count=1 minor_gc_count=2 major_gc_count=3 heap_allocated_pages=4 heap_live_slots=5 heap_free_slots=6 total_allocated_objects=7 total_freed_objects=8 old_objects=9 remembered_wb_unprotected_objects=10 compact_count=11 total_moved_objects=12\n",
    ),
    (
        Reply::StatLine { stat: MOST_COUNTS },
        b"stat count=18446744073709551615 minor_gc_count=18446744073709551615 major_gc_count=18446744073709551615 heap_allocated_pages=18446744073709551615 heap_live_slots=18446744073709551615 heap_free_slots=18446744073709551615 total_allocated_objects=18446744073709551615 total_freed_objects=18446744073709551615 old_objects=18446744073709551615 remembered_wb_unprotected_objects=18446744073709551615 compact_count=18446744073709551615 total_moved_objects=18446744073709551615\n",
    ),
    (
        Reply::Refused {
            why: Refusal::TooLarge,
        },
        b"error too large\n",
    ),
    (
        Reply::Refused {
            why: Refusal::NoRoot,
        },
        b"error no root\n",
    ),
    (
        Reply::Refused {
            why: Refusal::NoWord,
        },
        b"error no word\n",
    ),
    (
        Reply::Refused {
            why: Refusal::NotObject,
        },
        b"error not an object\n",
    ),
    (
        Reply::Refused {
            why: Refusal::NoField,
        },
        b"error no field\n",
    ),
    (
        Reply::Refused {
            why: Refusal::Protected,
        },
        b"error protected\n",
    ),
    (Reply::Refused { why: Refusal::NoId }, b"error no id\n"),
    (
        Reply::Refused {
            why: Refusal::NotMarking,
        },
        b"error not marking\n",
    ),
    (
        Reply::Refused {
            why: Refusal::NotCompacting,
        },
        b"error not compacting\n",
    ),
];

// A sink that takes three bytes a call.
fn small_sink(alloc: Global) -> Result<MemorySink, NoMemory> {
    MemorySink::new(alloc, 600, 3, Vec::new(alloc))
}

#[test]
fn forms_are_read_and_written(rt: HostRuntime) -> Result<(), Fail> {
    for (line, spelling) in FORMS {
        let mut sink = small_sink(rt.alloc())?;
        let Ok(Some(command)) = read_command(line) else {
            return Err(Fail::from("a line is malformed"));
        };
        assert!(rt; write_command(&command, &mut sink).is_ok());
        assert!(rt; sink.bytes() == spelling);
    }
    Ok(())
}

#[test]
fn blank_lines_have_no_command(rt: HostRuntime) -> Result<(), Fail> {
    for line in BLANK {
        let Ok(None) = read_command(line) else {
            return Err(Fail::from("a line is no blank"));
        };
    }
    Ok(())
}

#[test]
fn other_lines_are_malformed(rt: HostRuntime) -> Result<(), Fail> {
    for line in MALFORMED {
        assert!(rt; read_command(line).is_err());
    }
    Ok(())
}

#[test]
fn outputs_have_their_texts(rt: HostRuntime) -> Result<(), Fail> {
    for (event, text) in EVENTS {
        let mut sink = small_sink(rt.alloc())?;
        assert!(rt; write_event(&event, &mut sink).is_ok());
        assert!(rt; sink.bytes() == text);
    }
    for (reply, text) in REPLIES {
        let mut sink = small_sink(rt.alloc())?;
        assert!(rt; write_reply(&reply, &mut sink).is_ok());
        assert!(rt; sink.bytes() == text);
    }
    Ok(())
}

// Addresses and stored words, and the lines that show them.
const PEEKS: [(u64, &[u64], &[u8]); 2] = [
    (
        65536,
        &[65576, 0, 15, u64::MAX],
        b"at 0x10000 0x10028 0x0 0xf 0xffffffffffffffff\n",
    ),
    (0, &[], b"at 0x0\n"),
];

#[test]
fn stored_words_have_their_texts(rt: HostRuntime) -> Result<(), Fail> {
    for (address, words, text) in PEEKS {
        if words.len() > 78 {
            return Err(Fail::from("too many words"));
        }
        let mut sink = small_sink(rt.alloc())?;
        assert!(rt; write_peek(address, words, &mut sink).is_ok());
        assert!(rt; sink.bytes() == text);
    }
    Ok(())
}

#[test]
fn a_finalizer_that_ran_has_its_text(rt: HostRuntime) -> Result<(), Fail> {
    for (text, line) in LABELS {
        let Some(label) = Ident::read(text) else {
            return Err(Fail::from("no label"));
        };
        let name = u64::MAX;
        let mut sink = small_sink(rt.alloc())?;
        assert!(rt; write_event(&Event::Ran { name, label }, &mut sink).is_ok());
        assert!(rt; sink.bytes() == line);
    }
    Ok(())
}

// Labels, and the lines of finalizers that ran.
const LABELS: [(&[u8], &[u8]); 2] = [
    (
        b"a2345678901234567890123456789012",
        b"! final #18446744073709551615 a2345678901234567890123456789012\n",
    ),
    (b"_", b"! final #18446744073709551615 _\n"),
];

#[test]
fn an_output_is_one_piece(rt: HostRuntime) -> Result<(), Fail> {
    // The second call of the sink would fail.
    for (reply, text) in REPLIES {
        let mut sink = MemorySink::new(rt.alloc(), 600, 600, [2u64].to_vec(rt.alloc())?)?;
        assert!(rt; write_reply(&reply, &mut sink).is_ok());
        assert!(rt; sink.bytes() == text);
    }
    for (event, text) in EVENTS {
        let mut sink = MemorySink::new(rt.alloc(), 600, 600, [2u64].to_vec(rt.alloc())?)?;
        assert!(rt; write_event(&event, &mut sink).is_ok());
        assert!(rt; sink.bytes() == text);
    }
    Ok(())
}

#[test]
fn a_failing_sink_has_a_prefix(rt: HostRuntime) -> Result<(), Fail> {
    let failing = [3u64].to_vec(rt.alloc())?;
    let mut sink = MemorySink::new(rt.alloc(), 300, 2, failing)?;
    assert!(rt; write_reply(&Reply::NoMemory, &mut sink).is_err());
    assert!(rt; sink.bytes() == b"no m".as_slice());
    Ok(())
}
