// The commands of a compaction: its beginning after a whole collection, some of its moves, and some of its corrections of
// references, or its end.
ghost use Rattle.std.specs.Prelude.{◌≡◌, ◌<◌, ◌^◌, IfOk, OnErr};
ghost use Rattle.space_io.specs.Causes.{HasCause};
ghost use Rattle.space_model.specs.declared.command.Command.TheVariants.{Compact, Move, Fix};
ghost use Rattle.space_model.specs.declared.phase.Phase.TheVariants.{Fixing};
ghost use Rattle.space_model.specs.State.{State};
ghost use Rattle.space_collector.specs.Quiescent.{IsQuiescent};
ghost use Rattle.space_engine.specs.Answered.{IsAnswered, IsCutOff};
ghost use Rattle.space_engine.specs.Stands.{Holds};
ghost use Rattle.space_engine.specs.Steps.{Answers};
ghost use Rattle.space_engine.specs.Ticks.{RisesByFewer, IsReplyTicked, most_ticks};
ghost use Rattle.space_engine.specs.Turns.{CanAnswer, IsOneTurn, IsWork};

use super::collection_commands::Collection;
use super::{Answer, Engine, silent};
use space_collector::{move_and_tell, sweep_all};
use space_compact::fix;
use space_io::{Sink, WriteFault};
use space_model::{Kind, Ledger, Phase, Refusal, Reply, Steps};

// There is no compaction that could do this.
const NOT_COMPACTING: Reply = Reply::Refused {
    why: Refusal::NotCompacting,
};

impl Engine {
    /// Begins a compaction: a whole collection, after what is under way was completed, and the sweep of all pages; from then on
    /// objects may move.
    pub fn compact<K: Sink, L: Ledger>(
        &mut self,
        sink: &mut K,
        steps: &mut Steps<L>,
    ) -> Result<Answer, WriteFault>
        requires able { CanAnswer self.old.heap }
        requires steps { steps.old < 2 ^ 61 }
        ensures done { IfOk result (λ answer. IsAnswered self.old self.new Compact answer.reply answer.gone answer.moves (K.written sink.old) (K.written sink.new) steps.old steps.new) }
        ensures fault { OnErr result (IsCutOff self.old self.new Compact (K.written sink.old) (K.written sink.new)) }
        ensures cause { HasCause (K.faults sink.old) (K.faults sink.new) result }
        ensures turn { IsOneTurn self.old.heap self.new.heap }
        ensures steps { RisesByFewer most_ticks steps.old steps.new }
    {
        let collected = self.collect_and_tell(Kind::Full, sink, steps);

        // This comes also after a failed write: the command is done then too.
        sweep_all(&mut self.heap, &mut self.finals);
        self.heap.set_phase(Phase::Moving);
        let Collection { scans, gone, moves } = collected?;
        Ok(Answer {
            reply: Reply::Scanned { count: scans },
            gone,
            moves,
        })
    }

    /// Makes so many moves, or fewer where the heap is packed, a line for each, and replies how many it made and whether the heap
    /// is packed.
    pub fn move_objects<K: Sink, L: Ledger>(
        &mut self,
        count: u64,
        sink: &mut K,
        steps: &mut Steps<L>,
    ) -> Result<Answer, WriteFault>
        requires able { CanAnswer self.old.heap }
        requires steps { steps.old < 2 ^ 61 }
        ensures done { IfOk result (λ answer. IsAnswered self.old self.new (Move count) answer.reply answer.gone answer.moves (K.written sink.old) (K.written sink.new) steps.old steps.new) }
        ensures fault { OnErr result (IsCutOff self.old self.new (Move count) (K.written sink.old) (K.written sink.new)) }
        ensures cause { HasCause (K.faults sink.old) (K.faults sink.new) result }
        ensures turn { IsOneTurn self.old.heap self.new.heap }
        ensures steps { RisesByFewer most_ticks steps.old steps.new }
    {
        if self.heap.phase() != Phase::Moving {
            return Ok(silent(NOT_COMPACTING));
        }
        let (made, told) = move_and_tell(&mut self.heap, &self.stack, count, sink, steps);
        told?;
        Ok(Answer {
            reply: Reply::MoveCount {
                moved: made.moved,
                done: made.done,
            },
            gone: 0,
            moves: made.moved,
        })
    }

    /// Corrects the references of so many objects, or of fewer where none is left, and replies how many they were and whether the
    /// compaction ended, which it does where none is left. No object moves any more.
    pub fn fix<L: Ledger>(&mut self, count: u64, steps: &mut Steps<L>) -> Reply
        requires able { CanAnswer self.old.heap }
        requires steps { steps.old < 2 ^ 62 }
        ensures answers { (s : State) → Holds self.old s → Answers s self.new (Fix count) result }
        ensures ticked { IsReplyTicked (Fix count) result steps.old steps.new }
        ensures turn { IsOneTurn self.old.heap self.new.heap }
        ensures steps { RisesByFewer most_ticks steps.old steps.new }
    {
        match self.heap.phase() {
            Phase::Moving => {
                self.begin_fixing();
                self.fix_some(count, steps)
            }
            Phase::Fixing => self.fix_some(count, steps),
            Phase::Idle | Phase::Marking | Phase::Sweeping => NOT_COMPACTING,
        }
    }

    // The same, once the correction of references has begun.
    fn fix_some<L: Ledger>(&mut self, count: u64, steps: &mut Steps<L>) -> Reply
        requires fixing { self.old.heap.phase ≡ Fixing }
        requires few { self.old.heap.counters.compactions < 2 ^ 62 }
        requires steps { steps.old < 2 ^ 62 }
        ensures answers { (s : State) → Holds self.old s → Answers s self.new (Fix count) result }
        ensures ticked { IsReplyTicked (Fix count) result steps.old steps.new }
        ensures work { IsQuiescent self.old.heap → IsWork 0 1 self.old.heap self.new.heap }
        ensures steps { RisesByFewer most_ticks steps.old steps.new }
    {
        let fixed = fix(&mut self.heap, count, steps);
        if fixed.done {
            self.end_compaction();
        }
        Reply::FixCount {
            fixed: fixed.slots,
            done: fixed.done,
        }
    }
}
