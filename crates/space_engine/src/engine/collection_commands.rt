// The commands that collect, and the collection that `new` may do too.
ghost use Rattle.std.specs.Prelude.{◌≡◌, ◌≢◌, ◌⊎◌, ◌<◌, ◌+◌, ◌^◌, ℕ, IfOk, OnErr};
ghost use Rattle.space_io.specs.Causes.{HasCause};
ghost use Rattle.space_model.specs.declared.command.Command.{Command as TheCommand};
ghost use Rattle.space_model.specs.declared.phase.Phase.TheVariants.{Idle, Sweeping};
ghost use Rattle.space_collector.specs.Quiescent.{most_slots};
ghost use Rattle.space_engine.specs.Ticks.{RisesByFewer, most_ticks};
ghost use Rattle.space_engine.specs.Answered.{IsAnswered, IsCutOff};
ghost use Rattle.space_engine.specs.Turns.{CanAnswer, CanCompleteAndCollect, IsAtRest, IsOneTurn};
ghost use Rattle.space_engine.specs.Views.{with_finals, with_judged};
ghost use Rattle.space_engine.specs.HeapCollections.{AreTold, AreCut, HasJudged, IsCollecting, IsCollected, IsTickedCollection};

use super::{Answer, Engine};
use space_collector::{collect, tell_gone};
use space_io::{Sink, WriteFault};
use space_model::{Kind, Ledger, Reply, Steps};

/// What a collection did, with the completion before it.
#[derive(Clone, Copy, Debug, PartialEq, Eq)]
pub struct Collection {
    /// How many objects its marking scanned.
    pub scans: u64,
    /// How many objects are gone, by the completion too.
    pub gone: u64,
    /// How many moves the completion made.
    pub moves: u64,
}

impl Engine {
    /// A collection by this kind, a minor or a full one: what is under way is completed, what the marking leaves unmarked is
    /// gone, and the lines of both are written. The gone wait for a sweep. The answer counts the scans of the marking, and what
    /// is gone by the completion too.
    pub fn collect_and_tell<K: Sink, L: Ledger>(
        &mut self,
        kind: Kind,
        sink: &mut K,
        steps: &mut Steps<L>,
    ) -> Result<Collection, WriteFault>
        requires able { CanCompleteAndCollect self.old.heap }
        requires other { kind ≢ Kind.Major }
        requires steps { steps.old < 2 ^ 61 + 2 ^ 24 }
        ensures done { IfOk result (λ collected. AreTold (IsTickedCollection self.old self.new kind collected.scans steps.old steps.new) collected.gone collected.moves (K.written sink.old) (K.written sink.new)) }
        ensures fault { OnErr result (AreCut (λ events. (ended scans : ℕ) × IsCollected self.old self.new kind ended scans events) (K.written sink.old) (K.written sink.new)) }
        ensures cause { HasCause (K.faults sink.old) (K.faults sink.new) result }
        ensures rest { IsAtRest self.old.heap → self.new ≡ with_finals (with_judged self.old self.new.heap) self.new.finals }
        ensures judged { HasJudged 1 2 most_slots 1 self.old.heap self.new.heap }
        ensures settled { (self.new.heap.phase ≡ Idle) ⊎ (self.new.heap.phase ≡ Sweeping) }
        ensures still { self.old.heap.phase ≡ Idle → RisesByFewer (2 ^ 24) steps.old steps.new }
        ensures steps { RisesByFewer most_ticks steps.old steps.new }
    {
        let ended = self.complete(sink, steps);

        // This comes also after a failed write: the command is done then too, so the state after it is the same whether or not
        // its lines were written.
        let collected = collect(&mut self.heap, &self.roots, &self.stack, kind, steps);
        self.purge();
        let ended = ended?;
        tell_gone(&self.heap, kind, collected.gone, sink)?;
        Ok(Collection {
            scans: collected.scans,
            gone: ended.gone + collected.gone,
            moves: ended.moves,
        })
    }

    /// Collects by this kind, and replies how many objects were scanned.
    pub fn collect_and_reply<K: Sink, L: Ledger>(
        &mut self,
        kind: Kind,
        sink: &mut K,
        steps: &mut Steps<L>,
    ) -> Result<Answer, WriteFault>
        requires able { CanAnswer self.old.heap }
        requires other { kind ≢ Kind.Major }
        requires steps { steps.old < 2 ^ 61 }
        ensures done { (command : TheCommand) → IsCollecting command kind → IfOk result (λ answer. IsAnswered self.old self.new command answer.reply answer.gone answer.moves (K.written sink.old) (K.written sink.new) steps.old steps.new) }
        ensures fault { (command : TheCommand) → IsCollecting command kind → OnErr result (IsCutOff self.old self.new command (K.written sink.old) (K.written sink.new)) }
        ensures cause { HasCause (K.faults sink.old) (K.faults sink.new) result }
        ensures turn { IsOneTurn self.old.heap self.new.heap }
        ensures steps { RisesByFewer most_ticks steps.old steps.new }
    {
        let Collection { scans, gone, moves } = self.collect_and_tell(kind, sink, steps)?;
        Ok(Answer {
            reply: Reply::Scanned { count: scans },
            gone,
            moves,
        })
    }
}
