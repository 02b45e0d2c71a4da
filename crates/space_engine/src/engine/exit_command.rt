// The command that ends all that a trace made.
ghost use Rattle.std.specs.Prelude.{◌≡◌, ◌<◌, ◌≤◌, ◌+◌, ◌*◌, ◌^◌, ℕ, length, map, IfOk, OnErr, MatchResult};
ghost use Rattle.std.specs.Io.KnownBytes.{Appends};
ghost use Rattle.space_io.specs.Causes.{HasCause};
ghost use Rattle.space_io.specs.Sinks.{AppendsPrefix};
ghost use Rattle.space_model.specs.declared.command.Command.TheVariants.{Exit};
ghost use Rattle.space_model.specs.declared.event.Kind.TheVariants.{Full};
ghost use Rattle.space_model.specs.Outputs.{Told};
ghost use Rattle.space_model.specs.Texts.{text_of};
ghost use Rattle.space_model.specs.Verdicts.{verdict_events};
ghost use Rattle.space_collector.specs.GoneNames.{gone_names};
ghost use Rattle.space_collector.specs.Quiescent.{most_slots};
ghost use Rattle.space_engine.specs.Answered.{IsWritten, IsWrittenInPart};
ghost use Rattle.space_engine.specs.HeapCollections.{AreTold, AreCut, HasJudged, IsEmptied, IsTickedExit};
ghost use Rattle.space_engine.specs.Ticks.{RisesByFewer, most_ticks};
ghost use Rattle.space_engine.specs.Turns.{CanAnswer, IsOneTurn};
ghost use Rattle.space_engine.specs.Views.{without_starts};

use super::Engine;
use super::completion::Completed;
use crate::counts::{Counts, NONE};
use space_collector::{collect, sweep_all, tell_gone};
use space_io::{Sink, WriteFault};
use space_model::{Kind, Ledger, Reply, Steps};
use space_trace::write_reply;

impl Engine {
    // No root and no stack word is left.
    fn drop_starts(&mut self)
        ensures { self.new ≡ without_starts self.old }
    {
        self.roots.clear_all();
        self.stack.clear_all();
    }

    // Writes the lines of a full verdict, unless a write failed before. The answer is how many objects are gone by the completion
    // before it and by the verdict.
    fn tell_after<K: Sink>(
        &self,
        ended: Result<Completed, WriteFault>,
        gone: u64,
        sink: &mut K,
    ) -> Result<Completed, WriteFault>
        requires counted { gone ≡ length (gone_names self.now.heap) }
        requires few { gone ≤ most_slots }
        requires few_before { IfOk ended (λ before. before.gone ≤ most_slots) }
        ensures done { IfOk result (λ total. IfOk ended (λ before. (total.gone ≡ before.gone + gone) × (total.moves ≡ before.moves) × Appends (K.written sink.old) (K.written sink.new) (text_of (map Told (verdict_events Full (gone_names self.now.heap)))))) }
        ensures told { IfOk result (λ total. OnErr ended ⊥) }
        ensures fault { OnErr result (MatchResult ended (λ before. AppendsPrefix (K.written sink.old) (K.written sink.new) (text_of (map Told (verdict_events Full (gone_names self.now.heap))))) (λ _. K.written sink.new ≡ K.written sink.old)) }
        ensures cause { IfOk ended (λ before. HasCause (K.faults sink.old) (K.faults sink.new) result) }
        ensures calm { OnErr ended (K.faults sink.new ≡ K.faults sink.old) }
    {
        let before = ended?;
        tell_gone(&self.heap, Kind::Full, gone, sink)?;
        Ok(Completed {
            gone: before.gone + gone,
            moves: before.moves,
        })
    }

    // Completes what is under way, takes all roots and stack words away and collects whole, so that all objects are gone, writes the
    // lines of both, and sweeps all pages. The answer is what the lines tell. All of it is done after a
    // failed write too.
    fn empty_and_tell<K: Sink, L: Ledger>(
        &mut self,
        sink: &mut K,
        steps: &mut Steps<L>,
    ) -> Result<Completed, WriteFault>
        requires able { CanAnswer self.old.heap }
        requires steps { steps.old < 2 ^ 61 }
        ensures done { IfOk result (λ told. AreTold (IsTickedExit self.old self.new steps.old steps.new) told.gone told.moves (K.written sink.old) (K.written sink.new)) }
        ensures fault { OnErr result (AreCut (λ events. (ended : ℕ) × IsEmptied self.old self.new ended events) (K.written sink.old) (K.written sink.new)) }
        ensures cause { HasCause (K.faults sink.old) (K.faults sink.new) result }
        ensures judged { HasJudged 0 2 (2 * most_slots) 1 self.old.heap self.new.heap }
        ensures steps { RisesByFewer most_ticks steps.old steps.new }
    {
        let ended = self.complete(sink, steps);
        self.drop_starts();

        // This comes also after a failed write, as do the sweeps: the command is done then too.
        let collected = collect(&mut self.heap, &self.roots, &self.stack, Kind::Full, steps);
        self.purge();
        let told = self.tell_after(ended, collected.gone, sink);
        sweep_all(&mut self.heap, &mut self.finals);
        told
    }

    /// Completes what is under way, takes all roots and stack words away, collects whole and sweeps all pages, so that no object
    /// is left, and runs each finalizer that waits. The reply is how many ran. That finalizers run at the exit is CRuby 3.3's.
    pub fn exit<K: Sink, L: Ledger>(
        &mut self,
        sink: &mut K,
        steps: &mut Steps<L>,
    ) -> Result<Counts, WriteFault>
        requires able { CanAnswer self.old.heap }
        requires steps { steps.old < 2 ^ 61 }
        ensures done { IfOk result (λ counts. IsWritten self.old self.new Exit counts (K.written sink.old) (K.written sink.new) steps.old steps.new) }
        ensures fault { OnErr result (IsWrittenInPart self.old self.new Exit (K.written sink.old) (K.written sink.new)) }
        ensures cause { HasCause (K.faults sink.old) (K.faults sink.new) result }
        ensures turn { IsOneTurn self.old.heap self.new.heap }
        ensures steps { RisesByFewer most_ticks steps.old steps.new }
    {
        let emptied = self.empty_and_tell(sink, steps);
        let waiting = self.finals.len();
        let emptied = match emptied {
            Ok(told) => told,
            Err(fault) => {
                self.drop_queue();
                return Err(fault);
            }
        };
        let ran = self.run_and_tell(waiting, sink)?;
        write_reply(&Reply::ExitRan { count: ran }, sink)?;
        Ok(Counts {
            gone: emptied.gone,
            moves: emptied.moves,
            finals: ran,
            ..NONE
        })
    }
}
