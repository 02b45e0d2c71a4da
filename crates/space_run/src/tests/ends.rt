// How a replay ends: its words, lines that stop it, and calls that fail.
use super::{replayed, words_of};
use crate::run;
use space_io::{BufferedSink, MemorySink, MemorySource, Source};
use std::test::Fail;

#[test]
fn words_are_accepted_or_refused(rt: HostRuntime) -> Result<(), Fail> {
    let cases: [(&[&str], u8); 13] = [
        (&["replay", "--pages", "1"], 0),
        (&["replay", "--pages", "4096"], 0),
        (&["replay", "--pages", "00000000000000000256"], 0),
        (&[], 2),
        (&[""], 2),
        (&["Replay"], 2),
        (&["replay", "--pages"], 2),
        (&["replay", "--pages", "0"], 2),
        (&["replay", "--pages", "4097"], 2),
        (&["replay", "--pages", "+1"], 2),
        (&["replay", "--pages", "000000000000000000256"], 2),
        (&["replay", "--pages", "1", "1"], 2),
        (&["--pages", "1", "replay"], 2),
    ];
    for (texts, wanted) in cases {
        let (status, text) = replayed(rt.alloc(), texts, b"new a 0 P M\n", &[], &[])?;
        assert_eq!(rt; status, wanted);
        assert!(rt; text.is_empty() == (wanted == 2));
    }
    Ok(())
}

// Blank lines have no answer and count; one CR is dropped, and two aren't.
#[test]
fn a_malformed_line_is_told_with_its_number(rt: HostRuntime) -> Result<(), Fail> {
    let trace: &[u8] = b"; a comment\n\n\r\nnew a 0 P M\r\n;\nset b a\r\r\nset c a\n";
    let (status, text) = replayed(rt.alloc(), &["replay"], trace, &[], &[])?;
    assert_eq!(rt; status, 3);
    assert!(rt; text.as_slice() == b"#1 0x10000\nline 6: malformed\n".as_slice());
    Ok(())
}

#[test]
fn a_line_has_4096_bytes_at_most(rt: HostRuntime) -> Result<(), Fail> {
    let alloc = rt.alloc();
    let cases: [(usize, u8, &[u8]); 2] = [(4097, 3, b"line 1: malformed\n"), (4096, 0, b"")];
    for (count, wanted_status, wanted) in cases {
        let mut trace = b";".to_vec(alloc)?;
        for _ in 1..count {
            trace.push(b'x')?;
        }
        let (status, text) = replayed(alloc, &["replay"], &trace, &[], &[])?;
        assert_eq!(rt; status, wanted_status);
        assert!(rt; text.as_slice() == wanted);
    }
    Ok(())
}

#[test]
fn faults_end_a_replay(rt: HostRuntime) -> Result<(), Fail> {
    let births: &[u8] = b"new a 0 P M\nnew b 0 P M\nnew c 0 P M\n";
    // The calls of the source and of the sink that fail.
    let cases: [(&[u8], &[u64], &[u64], u8, &[u8]); 4] = [
        (births, &[3], &[], 4, b"#1 0x10000\n#2 0x10028\n"),
        (births, &[], &[2], 5, b"#1 0x10"),
        (b"gc\n", &[], &[1], 5, b""),
        // The read that would tell the end of an unfinished line: it may be malformed, but was not taken whole.
        (b"foo", &[2], &[], 4, b""),
    ];
    for (trace, reads, writes, wanted_status, wanted) in cases {
        let (status, text) = replayed(rt.alloc(), &["replay"], trace, reads, writes)?;
        assert_eq!(rt; status, wanted_status);
        assert!(rt; text.as_slice() == wanted);
    }
    Ok(())
}

#[test]
fn no_more_is_read_than_is_needed(rt: HostRuntime) -> Result<(), Fail> {
    let alloc = rt.alloc();
    let words = words_of(alloc, &["replay"])?;
    let trace: &[u8] = b"new a 0 P M\nnew b 0 P M\nnew c 0 P X\nnew d 0 P M\n";
    // Each read gives one line, and each answer is one write. The write that fails, the status, and the first line that is left.
    let cases: [(u64, u8, &[u8]); 3] = [
        (1, 5, b"new b 0 P M\n"),
        (2, 5, b"new c 0 P X\n"),
        (9, 3, b"new d 0 P M\n"),
    ];
    for (failing, wanted, left) in cases {
        let mut source = MemorySource::new(trace.to_vec(alloc)?, 12, Vec::new(alloc));
        let mut sink = MemorySink::new(alloc, 1_000, 100, [failing].to_vec(alloc)?)?;
        assert_eq!(rt; run(alloc, &words, &mut source, &mut sink), wanted);
        let mut next = [0u8; 12];
        assert!(rt; source.read(&mut next) == Ok(12));
        assert!(rt; next.as_slice() == left);
    }
    Ok(())
}

// Through a buffer the answers to the lines of one read are one write, and are out before the next read.
#[test]
fn answers_are_gathered_until_the_next_read(rt: HostRuntime) -> Result<(), Fail> {
    let alloc = rt.alloc();
    let words = words_of(alloc, &["replay"])?;
    let trace: &[u8] = b"new a 0 P M\nnew b 0 P M\npush a\nfoo\n";
    // The bytes of a read, the read and the write that fail, if any, the status, and what is written.
    let cases: [(usize, u64, u64, u8, &[u8]); 5] = [
        (
            100,
            0,
            0,
            3,
            b"#1 0x10000\n#2 0x10028\nword 0x10000 names #1\nline 4: malformed\n",
        ),
        (12, 3, 0, 4, b"#1 0x10000\n#2 0x10028\n"),
        (12, 0, 2, 5, b"#1 0x10000\n"),
        (24, 2, 0, 4, b"#1 0x10000\n#2 0x10028\n"),
        (100, 0, 1, 5, b""),
    ];
    for (most, failing_read, failing_write, wanted, written) in cases {
        let mut source = MemorySource::new(
            trace.to_vec(alloc)?,
            most,
            [failing_read].to_vec(alloc)?,
        );
        let inner = MemorySink::new(alloc, 1_000, 100, [failing_write].to_vec(alloc)?)?;
        let mut sink = BufferedSink::new(alloc, inner)?;
        assert_eq!(rt; run(alloc, &words, &mut source, &mut sink), wanted);
        assert!(rt; sink.inner().bytes() == written);
    }
    Ok(())
}
