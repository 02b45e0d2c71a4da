// The commands of a major marking: its start, some of its scans, and its end.
ghost use Rattle.std.specs.Prelude.{◌≡◌, ◌<◌, ◌^◌, IfOk, OnErr};
ghost use Rattle.space_io.specs.Causes.{HasCause};
ghost use Rattle.space_model.specs.declared.command.Command.TheVariants.{Major, Mark, Finish};
ghost use Rattle.space_model.specs.State.{State};
ghost use Rattle.space_engine.specs.Answered.{IsAnswered, IsCutOff};
ghost use Rattle.space_engine.specs.Stands.{Holds};
ghost use Rattle.space_engine.specs.Steps.{Answers};
ghost use Rattle.space_engine.specs.Ticks.{RisesByFewer, IsReplyTicked, most_ticks};
ghost use Rattle.space_engine.specs.Turns.{CanAnswer, IsOneTurn};

use super::completion::Completed;
use super::{Answer, Engine, silent};
use space_io::{Sink, WriteFault};
use space_major as major;
use space_model::{Ledger, Phase, Refusal, Reply, Steps};

// There is no marking to go on with.
const NOT_MARKING: Reply = Reply::Refused {
    why: Refusal::NotMarking,
};

impl Engine {
    /// Begins a major marking, after what is under way was completed: the objects that roots hold and stack words name are grey.
    pub fn major<K: Sink, L: Ledger>(
        &mut self,
        sink: &mut K,
        steps: &mut Steps<L>,
    ) -> Result<Answer, WriteFault>
        requires able { CanAnswer self.old.heap }
        requires steps { steps.old < 2 ^ 61 }
        ensures done { IfOk result (λ answer. IsAnswered self.old self.new Major answer.reply answer.gone answer.moves (K.written sink.old) (K.written sink.new) steps.old steps.new) }
        ensures fault { OnErr result (IsCutOff self.old self.new Major (K.written sink.old) (K.written sink.new)) }
        ensures cause { HasCause (K.faults sink.old) (K.faults sink.new) result }
        ensures turn { IsOneTurn self.old.heap self.new.heap }
        ensures steps { RisesByFewer most_ticks steps.old steps.new }
    {
        let ended = self.complete(sink, steps);

        // This comes also after a failed write: the command is done then too.
        major::start(&mut self.heap, &self.roots, &self.stack);
        let Completed { gone, moves } = ended?;
        Ok(Answer {
            reply: Reply::Done,
            gone,
            moves,
        })
    }

    /// Makes so many scans of the marking that is under way, or fewer where nothing is grey any more, and replies how many it
    /// made and how many objects are grey.
    pub fn mark<L: Ledger>(&mut self, count: u64, steps: &mut Steps<L>) -> Reply
        requires able { CanAnswer self.old.heap }
        requires steps { steps.old < 2 ^ 62 }
        ensures answers { (s : State) → Holds self.old s → Answers s self.new (Mark count) result }
        ensures ticked { IsReplyTicked (Mark count) result steps.old steps.new }
        ensures turn { IsOneTurn self.old.heap self.new.heap }
        ensures steps { RisesByFewer most_ticks steps.old steps.new }
    {
        if self.heap.phase() != Phase::Marking {
            return NOT_MARKING;
        }
        let marked = major::mark(&mut self.heap, count, steps);
        Reply::Marked {
            scanned: marked.scanned,
            grey: marked.grey,
        }
    }

    /// Ends the marking that is under way, and replies how many objects were scanned for that.
    pub fn finish<K: Sink, L: Ledger>(
        &mut self,
        sink: &mut K,
        steps: &mut Steps<L>,
    ) -> Result<Answer, WriteFault>
        requires able { CanAnswer self.old.heap }
        requires steps { steps.old < 2 ^ 62 }
        ensures done { IfOk result (λ answer. IsAnswered self.old self.new Finish answer.reply answer.gone answer.moves (K.written sink.old) (K.written sink.new) steps.old steps.new) }
        ensures fault { OnErr result (IsCutOff self.old self.new Finish (K.written sink.old) (K.written sink.new)) }
        ensures cause { HasCause (K.faults sink.old) (K.faults sink.new) result }
        ensures turn { IsOneTurn self.old.heap self.new.heap }
        ensures steps { RisesByFewer most_ticks steps.old steps.new }
    {
        if self.heap.phase() != Phase::Marking {
            return Ok(silent(NOT_MARKING));
        }
        let ended = self.end_marking(sink, steps)?;
        Ok(Answer {
            reply: Reply::Scanned { count: ended.scans },
            gone: ended.gone,
            moves: 0,
        })
    }
}
