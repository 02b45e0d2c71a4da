// The space, as its users see it.
ghost use Rattle.std.specs.Prelude.{◌≡◌, ◌≤◌, ◌<◌, ◌+◌, ◌^◌, false, IfOk, OnErr, is_err};
ghost use Rattle.space_io.specs.Causes.{HasCause};
ghost use Rattle.space_io.specs.Sinks.{AppendsPrefix};
ghost use Rattle.space_model.specs.Given.{IsGiven};
ghost use Rattle.space_model.specs.State.{State, opening};
ghost use Rattle.space_model.specs.Texts.{text_of};
ghost use Rattle.space_engine.specs.Ticks.{RisesByFewer, most_ticks};
ghost use Rattle.space_engine.specs.Stands.{Stands};
ghost use Rattle.space_engine.specs.Steps.{AreDone, LawfulSteps};
ghost use Rattle.space_engine.specs.Views.{empty_space};

use crate::counts::Counts;
use crate::engine::Engine;
use space_io::Sink;
use space_model::{Command, Ledger, Phase, Steps};
use std::alloc::{AllocError as NoMemory, Global};
use std::marker::Model;

/// Why a step ended before its outputs were written.
#[derive(Clone, Copy, Debug, PartialEq, Eq)]
pub enum StepFault {
    /// A write failed.
    WriteFault,
}

/// An object space, which answers commands.
#[derive(Drop)]
pub struct Space {
    engine: Engine,
    turns: u64,
    is_spent: bool,
}

impl Model for Space {
    ghost use Rattle.space_engine.specs.Views.{SpaceView};

    ghost Value = { SpaceView };

    ghost use Rattle.space_engine.specs.Inside.{space_of, IsWithin};

    ghost view = { space_of };

    ghost invariant = { IsWithin };
}

impl Space {
    /// The space before the first command, with so many pages of 65,536 bytes at most. The error says that there is no memory
    /// for its tables.
    pub fn new(alloc: Global, limit: u32) -> Result<Space, NoMemory>
        requires some { 1 ≤ limit }
        requires most { limit ≤ 4096 }
        ensures view { IfOk result (λ space. space ≡ empty_space limit) }
        ensures stands { IfOk result (λ space. Stands space (opening limit)) }
    {
        let engine = Engine::new(alloc, limit)?;
        Ok(Space {
            engine,
            turns: 0,
            is_spent: false,
        })
    }

    /// What the collector is at.
    pub fn phase(&self) -> Phase
        ensures { (s : State) → Stands self.now s → result ≡ s.collector.phase }
    {
        self.engine.phase()
    }

    /// The number of commands so far.
    pub fn turns(&self) -> u64
        ensures { result ≡ self.now.turns }
    {
        self.turns
    }

    /// Answers a command: writes its events, the lines of the objects that it shows, and its reply. The answer counts them.
    ///
    /// An `Err` comes only after a failed write. The command is done then too, a prefix of its lines was written, and the space
    /// is spent: it takes no further command. The ledger counts each reading of an object's fields.
    pub fn step<K: Sink, L: Ledger>(
        &mut self,
        command: &Command,
        sink: &mut K,
        steps: &mut Steps<L>,
    ) -> Result<Counts, StepFault>
        requires able { self.old.is_spent ≡ false }
        requires given { IsGiven command.now }
        requires turns { self.old.turns < 2 ^ 34 }
        requires steps { steps.old < 2 ^ 61 }

        // The outputs are lawful, from each state that the space stands for, and it stands for a state after them. They
        // were written, and the counts are theirs. The ledger's count rises as they tell.
        ensures done { IfOk result (λ counts. LawfulSteps self.old self.new command.now (λ s outputs. AreDone s command.now counts (K.written sink.old) (K.written sink.new) steps.old steps.new outputs)) }
        ensures fault { OnErr result (LawfulSteps self.old self.new command.now (λ s outputs. AppendsPrefix (K.written sink.old) (K.written sink.new) (text_of outputs))) }
        ensures cause { HasCause (K.faults sink.old) (K.faults sink.new) result }
        ensures spent { self.new.is_spent ≡ is_err result }
        ensures turns { self.new.turns ≡ self.old.turns + 1 }
        ensures steps { RisesByFewer most_ticks steps.old steps.new }
    {
        self.turns += 1;
        match self.engine.step(command, sink, steps) {
            Ok(counts) => Ok(counts),
            Err(_) => {
                self.is_spent = true;
                Err(StepFault::WriteFault)
            }
        }
    }
}
