// One line of a replay.
ghost use Rattle.std.specs.Prelude.{◌≡◌, ◌≢◌, ◌⊎◌, ◌+◌, ◌<◌, ◌≤◌, ◌^◌, ℕ, List, Option, false, is_none, IfSome, IfOk, OnOk, MatchOption, IsTrue};
ghost use Rattle.std.specs.Io.KnownBytes.{Appends, Keeps};
ghost use Rattle.space_io.specs.Causes.{Rose, HasCause};
ghost use Rattle.space_io.specs.Sinks.{AppendsPrefix};
ghost use Rattle.space_model.specs.Lines.{HasNoLf};
ghost use Rattle.space_model.specs.Texts.{line_of_pieces, malformed_pieces};
ghost use Rattle.space_run.specs.Ends.{EndsAs, HasFailed};
ghost use Rattle.space_run.specs.Progress.{HasReplayed};

use crate::end::End;
use space_engine::Space;
use space_io::{Failed, LineFault, Lines, Sink, Source};
use space_model::Steps;
use space_trace::{read_command, write_malformed};
use std::alloc::Global;
use std::sync::ledger::Blank;

// Writes that the line is malformed, and hands it on.
fn stop_at<K: Sink>(number: u64, sink: &mut K) -> End
    ensures ends { (result ≡ End.Malformed) ⊎ (result ≡ End.WriteFault) }
    ensures written { result ≡ End.Malformed → Appends (K.written sink.old) (K.written sink.new) (line_of_pieces (malformed_pieces number)) }
    ensures prefix { AppendsPrefix (K.written sink.old) (K.written sink.new) (line_of_pieces (malformed_pieces number)) }
    ensures held { result ≡ End.Malformed → K.held sink.new ≡ 0 }
    ensures failed { HasFailed 0 0 (K.faults sink.old) (K.faults sink.new) result }
    ensures counted { K.faults sink.old ≤ K.faults sink.new }
{
    if write_malformed(number, sink).is_err() || sink.flush().is_err() {
        return End::WriteFault;
    }
    End::Malformed
}

// Hands on what the sink holds, where the next line can't be given without reading: so each answer is out before more is read.
fn flush_before_read<K: Sink>(lines: &mut Lines, sink: &mut K) -> Result<(), Failed>
    ensures lines { lines.new ≡ lines.old }
    ensures held { OnOk result ((HasNoLf lines.old.pending → ⊥) ⊎ (K.held sink.new ≡ 0)) }
    ensures bytes { Keeps (K.written sink.old) (K.written sink.new) }
    ensures cause { HasCause (K.faults sink.old) (K.faults sink.new) result }
{
    if lines.has_whole_line() {
        return Ok(());
    }
    sink.flush()
}

// Answers the next line of the source. It says how the replay ends, where it does.
pub fn answer_line<S: Source, K: Sink>(
    lines: &mut Lines,
    space: &mut Space,
    steps: &mut Steps<Blank>,
    source: &mut S,
    sink: &mut K,
) -> Option<End>
    requires able { space.old.is_spent ≡ false }
    requires turns { space.old.turns < 2 ^ 34 }
    requires steps { steps.old < 2 ^ 61 }

    // Whatever came before, the replay goes on by one line, or it ends so.
    ensures line { (limit : ℕ) (rest written : Option (List ℕ)) (ends : ℕ) →
        HasReplayed limit rest (S.rest source.old) ends (S.ends source.old) written (K.written sink.old) lines.old space.old →
        MatchOption result (HasReplayed limit rest (S.rest source.new) ends (S.ends source.new) written (K.written sink.new) lines.new space.new)
        (EndsAs limit rest (S.rest source.new) ends (S.ends source.new) written (K.written sink.new)) }
    ensures held { IfSome result (λ end. end ≢ End.WriteFault → K.held sink.new ≡ 0) }
    ensures failed { MatchOption result ((S.faults source.new ≡ S.faults source.old) × (K.faults sink.new ≡ K.faults sink.old))
        (HasFailed (S.faults source.old) (S.faults source.new) (K.faults sink.old) (K.faults sink.new)) }
    ensures reads_counted { S.faults source.old ≤ S.faults source.new }
    ensures writes_counted { K.faults sink.old ≤ K.faults sink.new }

    // There are fewer lines than may be given, and the space and the ledger are ready for the next one.
    ensures number { IsTrue (is_none result) → (lines.new.number ≡ lines.old.number + 1) × (lines.new.number ≤ 2 ^ 32) }
    ensures able { IsTrue (is_none result) → space.new.is_spent ≡ false }
    ensures turns { IsTrue (is_none result) → space.new.turns ≤ space.old.turns + 1 }
    ensures steps { IsTrue (is_none result) → steps.new ≤ steps.old + 2 ^ 26 }
{
    let given = lines.number();
    if flush_before_read(lines, sink).is_err() {
        return Some(End::WriteFault);
    }
    let line = match lines.next(source) {
        Ok(Some(line)) => line,
        Ok(None) => return Some(End::Complete),
        Err(LineFault::ReadFault) => return Some(End::ReadFault),
        Err(LineFault::InputLimit) => return Some(End::InputLimit),
        Err(LineFault::TooLong) => return Some(stop_at(given + 1, sink)),
    };
    let Ok(found) = read_command(line.bytes) else {
        return Some(stop_at(given + 1, sink));
    };
    let Some(command) = found else {
        return None;
    };
    if space.step(&command, sink, steps).is_err() {
        return Some(End::WriteFault);
    }
    None
}
