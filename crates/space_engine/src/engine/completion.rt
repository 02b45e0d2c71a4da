// What completes the work that is under way: the end of a marking, sweeps of all pages, moves until the heap is packed, and the
// correction of all references.
ghost use Rattle.std.specs.Prelude.{◌≡◌, ◌<◌, ◌≤◌, ◌+◌, ◌^◌, ℕ, IfOk, OnErr};
ghost use Rattle.space_io.specs.Causes.{HasCause};
ghost use Rattle.space_model.specs.declared.event.Kind.TheVariants.{Major};
ghost use Rattle.space_model.specs.declared.phase.Phase.TheVariants.{Idle, Moving, Fixing};
ghost use Rattle.space_heap.specs.SoundHeap.{IsSoundHeap};
ghost use Rattle.space_roots.specs.WordRoots.{root_words};
ghost use Rattle.space_collector.specs.Quiescent.{CanCollect, IsQuiescent, most_slots};
ghost use Rattle.space_engine.specs.HeapCollections.{AreTold, AreCut, CompletesFixes, CompletesMoves, HasJudged, IsCompletion, IsHeapCompletion, IsTelling, IsTickedCompletion};
ghost use Rattle.space_engine.specs.Ticks.{RisesByFewer};
ghost use Rattle.space_engine.specs.Turns.{CanCompleteAndCollect, IsAtRest};
ghost use Rattle.space_engine.specs.Views.{compaction_ended, fixing_begun, with_completed, with_judged};

use super::Engine;
use space_collector::{Collected, collect, move_and_tell, sweep_all, tell_gone};
use space_compact::{fix_all, fix_roots};
use space_io::{Sink, WriteFault};
use space_model::{Kind, Ledger, Phase, Steps};

/// What the lines of a completion tell.
#[derive(Clone, Copy, Debug, PartialEq, Eq)]
pub struct Completed {
    /// How many objects are gone.
    pub gone: u64,
    /// How many moves were made.
    pub moves: u64,
}

impl Engine {
    /// No address is kept any more of the ids of what is gone, and no weak map has an entry of it.
    pub fn purge(&mut self)
        ensures { self.new ≡ with_judged self.old self.old.heap }
    {
        self.ids.purge(&self.heap);
        self.weak.purge(&self.heap);
    }

    /// Ends the marking that is under way: what it leaves unmarked is gone, and the lines of its verdict are written. The gone
    /// wait for a sweep.
    pub fn end_marking<K: Sink, L: Ledger>(
        &mut self,
        sink: &mut K,
        steps: &mut Steps<L>,
    ) -> Result<Collected, WriteFault>
        requires able { CanCollect Major self.old.heap }
        requires steps { steps.old < 2 ^ 62 }
        ensures done { IfOk result (λ ended. AreTold (IsTelling self.old.heap self.new.heap Major (root_words self.old.roots) self.old.stack ended.scans) ended.gone 0 (K.written sink.old) (K.written sink.new)) }
        ensures fault { OnErr result (AreCut (λ events. (scans : ℕ) × IsTelling self.old.heap self.new.heap Major (root_words self.old.roots) self.old.stack scans events) (K.written sink.old) (K.written sink.new)) }
        ensures cause { HasCause (K.faults sink.old) (K.faults sink.new) result }
        ensures rest { self.new ≡ with_judged self.old self.new.heap }
        ensures judged { HasJudged 0 1 0 0 self.old.heap self.new.heap }
        ensures few { IfOk result (λ ended. ended.gone ≤ most_slots) }
        ensures ticked { IfOk result (λ ended. steps.new ≡ steps.old + ended.scans) }
        ensures steps { RisesByFewer (2 ^ 24) steps.old steps.new }
    {
        let ended = collect(&mut self.heap, &self.roots, &self.stack, Kind::Major, steps);
        self.purge();
        tell_gone(&self.heap, Kind::Major, ended.gone, sink)?;
        Ok(ended)
    }

    // Completes what is under way outside a compaction: a marking is ended, and then each page that waits is swept. The answer is
    // what ended the marking. The pages are swept after a failed write too.
    fn complete_at_rest<K: Sink, L: Ledger>(
        &mut self,
        sink: &mut K,
        steps: &mut Steps<L>,
    ) -> Result<Collected, WriteFault>
        requires rests { IsAtRest self.old.heap }
        requires able { CanCompleteAndCollect self.old.heap }
        requires steps { steps.old < 2 ^ 62 }
        ensures done { IfOk result (λ ended. AreTold (IsHeapCompletion self.old.heap self.old.finals self.new.heap self.new.finals (root_words self.old.roots) self.old.stack ended.scans) ended.gone 0 (K.written sink.old) (K.written sink.new)) }
        ensures fault { OnErr result (AreCut (λ events. (scans : ℕ) × IsHeapCompletion self.old.heap self.old.finals self.new.heap self.new.finals (root_words self.old.roots) self.old.stack scans events) (K.written sink.old) (K.written sink.new)) }
        ensures cause { HasCause (K.faults sink.old) (K.faults sink.new) result }
        ensures rest { self.new ≡ with_completed self.old self.new.heap self.new.finals }
        ensures idle { self.new.heap.phase ≡ Idle }
        ensures judged { HasJudged 0 1 most_slots 0 self.old.heap self.new.heap }
        ensures few { IfOk result (λ ended. ended.gone ≤ most_slots) }
        ensures ticked { IfOk result (λ ended. steps.new ≡ steps.old + ended.scans) }
        ensures still { self.old.heap.phase ≡ Idle → steps.new ≡ steps.old }
        ensures steps { RisesByFewer (2 ^ 24) steps.old steps.new }
    {
        let ended = if self.heap.phase() == Phase::Marking {
            self.end_marking(sink, steps)
        } else {
            Ok(Collected { scans: 0, gone: 0 })
        };
        sweep_all(&mut self.heap, &mut self.finals);
        ended
    }

    /// References are corrected from now on, and no object moves any more.
    pub fn begin_fixing(&mut self)
        ensures { self.new ≡ fixing_begun self.old }
    {
        self.heap.set_phase(Phase::Fixing);
        self.heap.set_cursor(0);
    }

    /// Ends a compaction: what roots, ids and weak maps keep is corrected, and the slots that objects left are free.
    pub fn end_compaction(&mut self)
        requires few { self.old.heap.counters.compactions < 2 ^ 62 }
        ensures ended { self.new ≡ compaction_ended self.old }
        ensures sound { IsSoundHeap self.old.heap }
    {
        // Its clause `sound` tells that the heap is sound.
        self.heap.page_count();
        fix_roots(&self.heap, &mut self.roots);
        self.ids.refix(&self.heap);
        self.weak.refix(&self.heap);
        self.heap.end_moves();
        self.heap.set_cursor(0);
        self.heap.set_phase(Phase::Idle);
    }

    /// Completes the correction of references: each object that wasn't yet is visited, and the compaction ends.
    pub fn complete_fixes<L: Ledger>(&mut self, steps: &mut Steps<L>)
        requires fixing { self.old.heap.phase ≡ Fixing }
        requires quiescent { IsQuiescent self.old.heap }
        requires few { self.old.heap.counters.compactions < 2 ^ 62 }
        requires steps { steps.old < 2 ^ 62 }
        ensures fixes { CompletesFixes self.old self.new }
        ensures idle { self.new.heap.phase ≡ Idle }
        ensures judged { HasJudged 0 0 0 1 self.old.heap self.new.heap }
        ensures steps { RisesByFewer (2 ^ 23) steps.old steps.new }
    {
        fix_all(&mut self.heap, steps);
        self.end_compaction();
    }

    /// Completes a compaction whose objects may still move: moves are made until the heap is packed, a line for each, and all
    /// references are corrected. The answer is how many moves the lines tell. All of it is done after a failed write too.
    pub fn complete_moves<K: Sink, L: Ledger>(
        &mut self,
        sink: &mut K,
        steps: &mut Steps<L>,
    ) -> Result<u64, WriteFault>
        requires moving { self.old.heap.phase ≡ Moving }
        requires able { CanCompleteAndCollect self.old.heap }
        requires steps { steps.old < 2 ^ 61 + 2 ^ 26 }
        ensures done { IfOk result (λ moves. AreTold (CompletesMoves self.old self.new) 0 moves (K.written sink.old) (K.written sink.new)) }
        ensures fault { OnErr result (AreCut (CompletesMoves self.old self.new) (K.written sink.old) (K.written sink.new)) }
        ensures cause { HasCause (K.faults sink.old) (K.faults sink.new) result }
        ensures idle { self.new.heap.phase ≡ Idle }
        ensures judged { HasJudged 0 0 0 1 self.old.heap self.new.heap }
        ensures few { IfOk result (λ moves. moves ≤ most_slots) }
        ensures steps { RisesByFewer (2 ^ 24) steps.old steps.new }
    {
        let (made, told) = move_and_tell(&mut self.heap, &self.stack, u64::MAX, sink, steps);
        self.begin_fixing();
        self.complete_fixes(steps);
        told?;
        Ok(made.moved)
    }

    /// Completes what is under way: a marking is ended, each page that waits is swept, moves are made until the heap is packed, and
    /// all references are corrected. The answer is what the lines of it tell. All of it is done after a failed write too.
    pub fn complete<K: Sink, L: Ledger>(
        &mut self,
        sink: &mut K,
        steps: &mut Steps<L>,
    ) -> Result<Completed, WriteFault>
        requires able { CanCompleteAndCollect self.old.heap }
        requires steps { steps.old < 2 ^ 61 + 2 ^ 26 }
        ensures done { IfOk result (λ told. AreTold (IsTickedCompletion self.old self.new steps.old steps.new) told.gone told.moves (K.written sink.old) (K.written sink.new)) }
        ensures fault { OnErr result (AreCut (λ events. (scans : ℕ) × IsCompletion self.old self.new scans events) (K.written sink.old) (K.written sink.new)) }
        ensures cause { HasCause (K.faults sink.old) (K.faults sink.new) result }
        ensures judged { HasJudged 0 1 most_slots 1 self.old.heap self.new.heap }
        ensures idle { self.new.heap.phase ≡ Idle }
        ensures rest { IsAtRest self.old.heap → self.new ≡ with_completed self.old self.new.heap self.new.finals }
        ensures few { IfOk result (λ told. told.gone ≤ most_slots) }
        ensures few_moves { IfOk result (λ told. told.moves ≤ most_slots) }
        ensures still { self.old.heap.phase ≡ Idle → steps.new ≡ steps.old }
        ensures steps { RisesByFewer (2 ^ 24) steps.old steps.new }
    {
        match self.heap.phase() {
            Phase::Moving => {
                let moves = self.complete_moves(sink, steps)?;
                Ok(Completed { gone: 0, moves })
            }
            Phase::Fixing => {
                self.complete_fixes(steps);
                Ok(Completed { gone: 0, moves: 0 })
            }
            Phase::Idle | Phase::Marking | Phase::Sweeping => {
                let ended = self.complete_at_rest(sink, steps)?;
                Ok(Completed {
                    gone: ended.gone,
                    moves: 0,
                })
            }
        }
    }
}
