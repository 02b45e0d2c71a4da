// The parts of a space, and its answers.
ghost use Rattle.std.specs.Prelude.{◌≡◌, ◌≤◌, ◌<◌, ◌+◌, ◌^◌, IfOk, OnErr};
ghost use Rattle.space_io.specs.Causes.{HasCause};
ghost use Rattle.space_model.specs.Given.{IsGiven};
ghost use Rattle.space_model.specs.State.{opening};
ghost use Rattle.space_engine.specs.Ticks.{RisesByFewer, most_ticks};
ghost use Rattle.space_engine.specs.Answered.{IsAnswered, IsCutOff, IsWritten, IsWrittenInPart};
ghost use Rattle.space_engine.specs.Stands.{Holds};
ghost use Rattle.space_engine.specs.Steps.{IsEventful, IsQuiet};
ghost use Rattle.space_engine.specs.Turns.{CanAnswer, IsOneTurn};
ghost use Rattle.space_engine.specs.Views.{empty_view};

mod collection_commands;
mod compact_commands;
mod completion;
mod dump_commands;
mod exit_command;
mod final_commands;
mod id_commands;
mod marking_commands;
mod new_command;
mod object_commands;
mod operand_words;
mod replies;
mod root_commands;
mod stack_commands;
mod sweep_commands;
mod weak_commands;

use crate::counts::{Counts, counts_of_answer};
use space_finals::Finals;
use space_heap::Heap;
use space_ids::Ids;
use space_io::{Sink, WriteFault};
use space_model::{Command, Kind, Ledger, Phase, Reply, Steps};
use space_roots::{Roots, Stack};
use space_trace::write_reply;
use space_weak::WeakMaps;
use std::alloc::{AllocError as NoMemory, Global};
use std::marker::Model;

/// The reply to a command, whose events were written.
#[derive(Clone, Copy, Debug, PartialEq, Eq)]
pub struct Answer {
    pub reply: Reply,
    /// How many objects the events tell to be gone.
    pub gone: u64,
    /// How many moves they tell.
    pub moves: u64,
}

// The answer of a command that told no events.
fn silent(reply: Reply) -> Answer
    ensures reply { result.reply ≡ reply }
    ensures gone { result.gone ≡ 0 }
    ensures moves { result.moves ≡ 0 }
{
    Answer {
        reply,
        gone: 0,
        moves: 0,
    }
}

/// The objects in their slots, what roots and the stack hold, object ids, weak maps and finalizers.
#[derive(Drop)]
pub struct Engine {
    heap: Heap,
    roots: Roots,
    stack: Stack,
    ids: Ids,
    weak: WeakMaps,
    finals: Finals,
    // For the lines of dumps.
    alloc: Global,
}

impl Model for Engine {
    ghost use Rattle.space_engine.specs.Views.{View};

    ghost Value = { View };

    ghost use Rattle.space_engine.specs.Inside.{view_of};

    ghost view = { view_of };
}

impl Engine {
    /// Nothing is there yet.
    pub fn new(alloc: Global, limit: u32) -> Result<Engine, NoMemory>
        requires some { 1 ≤ limit }
        requires most { limit ≤ 4096 }
        ensures view { IfOk result (λ engine. engine ≡ empty_view limit) }
        ensures holds { Holds (empty_view limit) (opening limit) }
    {
        Ok(Engine {
            heap: Heap::new(alloc, limit)?,
            roots: Roots::new(alloc),
            stack: Stack::new(alloc),
            ids: Ids::new(alloc),
            weak: WeakMaps::new(alloc),
            finals: Finals::new(alloc),
            alloc,
        })
    }

    /// What the collector is at.
    pub fn phase(&self) -> Phase
        ensures { result ≡ self.now.heap.phase }
    {
        self.heap.phase()
    }

    // Answers a command that tells events, which are written, and its reply is the answer. An `Err` comes after a failed write;
    // what the command does is done then too.
    fn answer<K: Sink, L: Ledger>(
        &mut self,
        command: &Command,
        sink: &mut K,
        steps: &mut Steps<L>,
    ) -> Result<Answer, WriteFault>
        requires eventful { IsEventful command.now }
        requires given { IsGiven command.now }
        requires able { CanAnswer self.old.heap }
        requires steps { steps.old < 2 ^ 61 }
        ensures done { IfOk result (λ answer. IsAnswered self.old self.new command.now answer.reply answer.gone answer.moves (K.written sink.old) (K.written sink.new) steps.old steps.new) }
        ensures fault { OnErr result (IsCutOff self.old self.new command.now (K.written sink.old) (K.written sink.new)) }
        ensures cause { HasCause (K.faults sink.old) (K.faults sink.new) result }
        ensures turn { IsOneTurn self.old.heap self.new.heap }
        ensures steps { RisesByFewer most_ticks steps.old steps.new }
    {
        match command {
            Command::New {
                root,
                fields,
                guard,
                style,
            } => self.create(root, *fields, *guard, *style, sink, steps),
            Command::Minor => self.collect_and_reply(Kind::Minor, sink, steps),
            Command::Gc => self.collect_and_reply(Kind::Full, sink, steps),
            Command::Major => self.major(sink, steps),
            Command::Finish => self.finish(sink, steps),
            Command::Compact => self.compact(sink, steps),
            Command::Move { count } => self.move_objects(*count, sink, steps),
            _ => unreachable!(),
        }
    }

    // Answers such a command, and writes its reply too.
    fn answer_and_reply<K: Sink, L: Ledger>(
        &mut self,
        command: &Command,
        sink: &mut K,
        steps: &mut Steps<L>,
    ) -> Result<Counts, WriteFault>
        requires eventful { IsEventful command.now }
        requires given { IsGiven command.now }
        requires able { CanAnswer self.old.heap }
        requires steps { steps.old < 2 ^ 61 }
        ensures done { IfOk result (λ counts. IsWritten self.old self.new command.now counts (K.written sink.old) (K.written sink.new) steps.old steps.new) }
        ensures fault { OnErr result (IsWrittenInPart self.old self.new command.now (K.written sink.old) (K.written sink.new)) }
        ensures cause { HasCause (K.faults sink.old) (K.faults sink.new) result }
        ensures turn { IsOneTurn self.old.heap self.new.heap }
        ensures steps { RisesByFewer most_ticks steps.old steps.new }
    {
        let answer = self.answer(command, sink, steps)?;
        write_reply(&answer.reply, sink)?;
        Ok(counts_of_answer(&answer.reply, answer.gone, answer.moves))
    }

    // Replies to a command that tells no events, and writes the reply.
    #[inline(always)]
    fn reply_and_write<K: Sink, L: Ledger>(
        &mut self,
        command: &Command,
        sink: &mut K,
        steps: &mut Steps<L>,
    ) -> Result<Counts, WriteFault>
        requires quiet { IsQuiet command.now }
        requires given { IsGiven command.now }
        requires able { CanAnswer self.old.heap }
        requires steps { steps.old < 2 ^ 61 }
        ensures done { IfOk result (λ counts. IsWritten self.old self.new command.now counts (K.written sink.old) (K.written sink.new) steps.old steps.new) }
        ensures fault { OnErr result (IsWrittenInPart self.old self.new command.now (K.written sink.old) (K.written sink.new)) }
        ensures cause { HasCause (K.faults sink.old) (K.faults sink.new) result }
        ensures turn { IsOneTurn self.old.heap self.new.heap }
        ensures steps { RisesByFewer most_ticks steps.old steps.new }
    {
        let reply = self.reply(command, steps);
        write_reply(&reply, sink)?;
        Ok(counts_of_answer(&reply, 0, 0))
    }

    /// Carries out a command: its outputs are written, and the answer counts them. An `Err` comes after a failed write; what
    /// the command does is done then too.
    pub fn step<K: Sink, L: Ledger>(
        &mut self,
        command: &Command,
        sink: &mut K,
        steps: &mut Steps<L>,
    ) -> Result<Counts, WriteFault>
        requires given { IsGiven command.now }
        requires able { CanAnswer self.old.heap }
        requires steps { steps.old < 2 ^ 61 }
        ensures done { IfOk result (λ counts. IsWritten self.old self.new command.now counts (K.written sink.old) (K.written sink.new) steps.old steps.new) }
        ensures fault { OnErr result (IsWrittenInPart self.old self.new command.now (K.written sink.old) (K.written sink.new)) }
        ensures cause { HasCause (K.faults sink.old) (K.faults sink.new) result }
        ensures turn { IsOneTurn self.old.heap self.new.heap }
        ensures steps { RisesByFewer most_ticks steps.old steps.new }
    {
        match command {
            Command::Run { count } => self.run(*count, sink),
            Command::Dump => self.dump(sink, steps),
            Command::Peek { object } => self.peek(object, sink, steps),
            Command::Exit => self.exit(sink, steps),
            Command::New { .. }
            | Command::Minor
            | Command::Gc
            | Command::Major
            | Command::Finish
            | Command::Compact
            | Command::Move { .. } => self.answer_and_reply(command, sink, steps),
            _ => self.reply_and_write(command, sink, steps),
        }
    }
}
