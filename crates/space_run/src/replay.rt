// Replays a trace.
ghost use Rattle.std.specs.Prelude.{◌≡◌, ◌≢◌, ◌⊎◌, ◌≤◌, ℕ, List, false};
ghost use Rattle.space_io.specs.Causes.{Rose};
ghost use Rattle.space_io.specs.Reading.{at_start};
ghost use Rattle.space_model.specs.State.{opening};
ghost use Rattle.space_run.specs.Ends.{EndsAs, HasFailed};
ghost use Rattle.space_run.specs.Replays.{Replays, StopsAtLine, TellsMalformed, HasFailedRead, HasFailedWrite, HasReachedLimit, IsReplay, IsWholeInput};
ghost use Rattle.space_run.specs.Replays.{IsBadInput, IsCalm};
ghost use Rattle.space_engine.specs.Stands.{Stands};

use crate::command_line::page_limit;
use crate::end::End;
use crate::line::answer_line;
use space_engine::Space;
use space_io::{Lines, Sink, Source};
use space_model::Steps;
use std::alloc::Global;
use std::sync::ledger::Blank;

// Answers the lines of the source, to its end.
fn replay<S: Source, K: Sink>(
    mut lines: Lines,
    mut space: Space,
    source: &mut S,
    sink: &mut K,
) -> End
    requires lines { lines ≡ at_start }
    requires able { space.is_spent ≡ false }
    requires turns { space.turns ≡ 0 }
    requires stands { Stands space (opening space.parts.heap.limit) }

    ensures ends { EndsAs space.parts.heap.limit (S.rest source.old) (S.rest source.new) (S.ends source.old) (S.ends source.new) (K.written sink.old)
        (K.written sink.new) result }
    ensures held { result ≢ End.WriteFault → K.held sink.new ≡ 0 }
    ensures failed { HasFailed (S.faults source.old) (S.faults source.new) (K.faults sink.old) (K.faults sink.new) result }
    ensures reads_counted { S.faults source.old ≤ S.faults source.new }
    ensures writes_counted { K.faults sink.old ≤ K.faults sink.new }
{
    let mut steps = Steps::start(Blank::new(1));
    'each_line: loop {
        if let Some(end) = answer_line(&mut lines, &mut space, &mut steps, source, sink) {
            return end;
        }
    }
}

/// Does what the words say, those after the program's name, and answers the status of the program.
///
/// The words are `replay`, or `replay --pages N` with N from 1 to 4,096 in 1 to 20 digits: the trace of the source is
/// replayed on a space of at most N pages, else 256, and each line is answered on the sink. The statuses are this
/// project's own:
///
/// | status | when |
/// |---|---|
/// | 0 | the input was read to its end, and each command was answered |
/// | 1 | memory was lacking before anything was read or written |
/// | 2 | the words aren't those of a replay; nothing is read or written |
/// | 3 | a line is malformed or longer than 4,096 bytes; those before it are answered, and `line L: malformed` is written last |
/// | 4 | a read failed; each whole line that came before is answered |
/// | 5 | a write failed; a prefix of the answers was written, with the line that tells of a malformed one where it was due |
/// | 6 | 2^32 bytes were taken, which is the most; each whole line of them is answered |
pub fn run<S: Source, K: Sink>(
    alloc: Global,
    words: &Vec<String>,
    source: &mut S,
    sink: &mut K,
) -> u8
    // Each command of the input had lawful outputs, from the opening on, and they were written.
    ensures done { (limit : ℕ) → IsReplay words.now.items limit → result ≡ 0 →
        Replays limit (S.rest source.old) (S.rest source.new) (K.written sink.old) (K.written sink.new) }

    // The words are refused exactly where they are no replay, and then nothing is read or written.
    ensures refused { ((limit : ℕ) → IsReplay words.now.items limit → ⊥) → result ≡ 2 }
    ensures accepted { (limit : ℕ) → IsReplay words.now.items limit → result ≢ 2 }
    ensures unread { result ≡ 2 → source.new ≡ source.old }
    ensures unwritten { result ≡ 2 → sink.new ≡ sink.old }

    // Where memory is lacking, the words are those of a replay, and nothing is read or written either.
    ensures unopened { result ≡ 1 → ((limit : ℕ) × IsReplay words.now.items limit) × (source.new ≡ source.old) × (sink.new ≡ sink.old) }

    // Every other end has its cause.
    ensures malformed { (limit : ℕ) → IsReplay words.now.items limit → result ≡ 3 →
        StopsAtLine limit (S.rest source.old) (S.rest source.new) (S.ends source.old) (S.ends source.new) (K.written sink.old) (K.written sink.new) }
    ensures read_fault { result ≡ 4 → Rose (S.faults source.old) (S.faults source.new) }
    ensures answered { (limit : ℕ) → IsReplay words.now.items limit → result ≡ 4 →
        HasFailedRead limit (S.rest source.old) (S.rest source.new) (K.written sink.old) (K.written sink.new) }
    ensures write_fault { result ≡ 5 → Rose (K.faults sink.old) (K.faults sink.new) }
    ensures prefix { (limit : ℕ) → IsReplay words.now.items limit → result ≡ 5 →
        HasFailedWrite limit (S.rest source.old) (S.rest source.new) (S.ends source.old) (S.ends source.new) (K.written sink.old) (K.written sink.new) }
    ensures limit { (limit : ℕ) → IsReplay words.now.items limit → result ≡ 6 →
        HasReachedLimit limit (S.rest source.old) (S.rest source.new) (K.written sink.old) (K.written sink.new) }
    ensures status { result ≤ 6 }

    // The sink holds nothing at an end that isn't its own fault. A read may fail, so this is so before each read too.
    ensures none_held { (result ≡ 0) ⊎ (result ≡ 3) ⊎ (result ≡ 4) ⊎ (result ≡ 6) → K.held sink.new ≡ 0 }

    // A failed call ends the replay, and is the only one that failed. The counts of faults never fall.
    ensures no_read_swallowed { result ≢ 4 → S.faults source.new ≡ S.faults source.old }
    ensures no_write_swallowed { result ≢ 5 → K.faults sink.new ≡ K.faults sink.old }
    ensures reads_counted { S.faults source.old ≤ S.faults source.new }
    ensures writes_counted { K.faults sink.old ≤ K.faults sink.new }

    // A source that told its end isn't read again: it may tell it once more. At status 0 it told it, and at 4 and 6 it didn't.
    ensures ended { result ≡ 0 → Rose (S.ends source.old) (S.ends source.new) }
    ensures not_ended { (result ≡ 4) ⊎ (result ≡ 6) → S.ends source.new ≡ S.ends source.old }
    ensures ended_once { (S.ends source.new ≡ S.ends source.old) ⊎ Rose (S.ends source.old) (S.ends source.new) }

    // An input of fewer than 2^32 bytes, where no call fails and there is memory to begin with, is replayed to its end, if each line is
    // a command or blank, and else to the first line that is malformed or too long.
    ensures complete { (limit : ℕ) → IsReplay words.now.items limit → IsWholeInput (S.rest source.old) →
        IsCalm (S.faults source.old) (S.faults source.new) (K.faults sink.old) (K.faults sink.new) → (result ≡ 0) ⊎ (result ≡ 1) }
    ensures stops { (limit : ℕ) (lines : List (List ℕ)) → IsReplay words.now.items limit → IsBadInput (S.rest source.old) lines →
        IsCalm (S.faults source.old) (S.faults source.new) (K.faults sink.old) (K.faults sink.new) →
        ((result ≡ 3) × TellsMalformed limit lines (K.written sink.old) (K.written sink.new)) ⊎ (result ≡ 1) }
{
    let Some(limit) = page_limit(words) else {
        return 2;
    };
    let Ok(lines) = Lines::new(alloc) else {
        return 1;
    };
    let Ok(space) = Space::new(alloc, limit) else {
        return 1;
    };
    replay(lines, space, source, sink).status()
}
