// `run` on traces in memory, with the answers that its definitions give, written out by hand.
mod collections;
mod compaction;
mod compaction_completion;
mod compaction_pins;
mod compaction_session;
mod completion;
mod dumps;
mod ends;
mod exits;
mod finalizers;
mod generations;
mod ids;
mod marking;
mod objects;
mod stack;
mod sweeping;
mod weak_maps;

use crate::run;
use space_io::{MemorySink, MemorySource};
use std::alloc::Global;
use std::test::Fail;

// The words of a command line.
fn words_of(alloc: Global, texts: &[&str]) -> Result<Vec<String>, Fail> {
    let mut words = Vec::new(alloc);
    for text in texts {
        words.push(String::from_str(alloc, text)?)?;
    }
    Ok(words)
}

// The status, and what was written. Exactly these calls of the source and of the sink fail; the first one has the number 1.
fn replayed(
    alloc: Global,
    texts: &[&str],
    trace: &[u8],
    failing_reads: &[u64],
    failing_writes: &[u64],
) -> Result<(u8, Vec<u8>), Fail> {
    let words = words_of(alloc, texts)?;
    let mut source = MemorySource::new(trace.to_vec(alloc)?, 15, failing_reads.to_vec(alloc)?);
    let mut sink = MemorySink::new(alloc, 10_000, 7, failing_writes.to_vec(alloc)?)?;
    let status = run(alloc, &words, &mut source, &mut sink);
    Ok((status, sink.bytes().to_vec(alloc)?))
}

// Whether a trace of these lines, replayed with these words, is answered so, to its end. A line has any number of answers, each with its LF.
fn is_answered(alloc: Global, texts: &[&str], session: &[(&str, &str)]) -> Result<bool, Fail> {
    let mut trace = Vec::new(alloc);
    let mut wanted = Vec::new(alloc);
    for (line, answers) in session {
        trace.extend_from_slice(line.as_bytes())?;
        trace.push(b'\n')?;
        wanted.extend_from_slice(answers.as_bytes())?;
    }
    let (status, text) = replayed(alloc, texts, &trace, &[], &[])?;
    Ok(status == 0 && text.as_slice() == wanted.as_slice())
}
