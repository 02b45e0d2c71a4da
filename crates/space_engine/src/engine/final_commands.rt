// The commands on finalizers: they are defined, taken away, and run.
ghost use Rattle.std.specs.Prelude.{◌≡◌, ◌++◌, ◌∷◌, [], ℕ, length, map, take, drop, IfOk, IfSome, IfNone, MatchOption, OnOk, OnErr};
ghost use Rattle.std.specs.Io.KnownBytes.{Appends};
ghost use Rattle.space_io.specs.Causes.{HasCause};
ghost use Rattle.space_io.specs.Sinks.{AppendsPrefix};
ghost use Rattle.space_model.specs.declared.command.Command.TheVariants.{Final, Unfinal, Run};
ghost use Rattle.space_model.specs.FinalCommands.{ran_events};
ghost use Rattle.space_model.specs.Finalizers.{labels_of, without_name};
ghost use Rattle.space_model.specs.Outputs.{Told};
ghost use Rattle.space_model.specs.State.{State};
ghost use Rattle.space_model.specs.Spelling.{IsSpelled};
ghost use Rattle.space_model.specs.Texts.{text_of, event_pieces, AreSpelled};
ghost use Rattle.space_finals.specs.FinalLists.{HaveSameLabels};
ghost use Rattle.space_engine.specs.Answered.{IsWritten, IsWrittenInPart};
ghost use Rattle.space_engine.specs.Stands.{Holds};
ghost use Rattle.space_engine.specs.Steps.{Answers};
ghost use Rattle.space_engine.specs.Views.{with_finals, with_queue};

use super::Engine;
use crate::counts::{Counts, NONE};
use space_finals::Ran;
use space_io::{Sink, WriteFault};
use space_model::{Event, Ident, Operand, Reply};
use space_trace::{write_event, write_reply};
use std::alloc::AllocError as NoMemory;

impl Engine {
    // The name has one finalizer more; it may need memory. An `Err` changes nothing.
    fn put_final(&mut self, name: u64, label: &Ident) -> Result<(), NoMemory>
        ensures defined { OnOk result (HaveSameLabels self.new.finals.finals (self.old.finals.finals ++ (name, label.now) ∷ [])) }
        ensures queue { self.new.finals.queue ≡ self.old.finals.queue }
        ensures rest { self.new ≡ with_finals self.old self.new.finals }
        ensures err { OnErr result (self.new ≡ self.old) }
    {
        self.finals.define(name, *label)
    }

    // The name has no finalizers any more, and the answer is how many it had.
    fn take_finals_of(&mut self, name: u64) -> u64
        ensures count { result ≡ length (labels_of self.old.finals.finals name) }
        ensures defined { HaveSameLabels self.new.finals.finals (without_name self.old.finals.finals name) }
        ensures queue { self.new.finals.queue ≡ self.old.finals.queue }
        ensures rest { self.new ≡ with_finals self.old self.new.finals }
    {
        self.finals.undefine(name)
    }

    /// The object has one finalizer more, which comes after its others.
    pub fn define_final(&mut self, object: &Operand, label: &Ident) -> Reply
        ensures answers { (s : State) → Holds self.old s → Answers s self.new (Final object.now label.now) result }
        ensures heap { self.new.heap ≡ self.old.heap }
    {
        let address = match self.address_of(object) {
            Ok(address) => address,
            Err(why) => return Reply::Refused { why },
        };
        let name = self.heap.name(address);
        match self.put_final(name, label) {
            Ok(()) => Reply::Done,
            Err(_) => Reply::NoMemory,
        }
    }

    /// The object has no finalizers any more, and the reply is how many it had.
    pub fn take_finals(&mut self, object: &Operand) -> Reply
        ensures answers { (s : State) → Holds self.old s → Answers s self.new (Unfinal object.now) result }
        ensures heap { self.new.heap ≡ self.old.heap }
    {
        let address = match self.address_of(object) {
            Ok(address) => address,
            Err(why) => return Reply::Refused { why },
        };
        let name = self.heap.name(address);
        Reply::Removed {
            count: self.take_finals_of(name),
        }
    }

    // Takes the oldest finalizer that waits, where there is one.
    fn take_queued(&mut self) -> Option<Ran>
        ensures oldest { MatchOption result (self.old.finals.queue ≡ []) (λ ran. self.old.finals.queue ≡ (ran.name, ran.label) ∷ self.new.finals.queue) }
        ensures none { IfNone result (self.new.finals.queue ≡ []) }
        ensures spelled { IfSome result (λ ran. IsSpelled (event_pieces (Event.Ran ran.name ran.label))) }
        ensures rest { self.new ≡ with_queue self.old self.new.finals.queue }
    {
        self.finals.run_one()
    }

    // So many finalizers that wait count as run, or all where fewer wait, and no line tells of them.
    fn skip_queued(&mut self, count: u64)
        ensures spelled { AreSpelled (map Told (ran_events (take count self.old.finals.queue))) }
        ensures rest { self.new ≡ with_queue self.old (drop count self.old.finals.queue) }
    {
        let mut skipped = 0;
        'skipped: while skipped < count {
            let Some(_) = self.take_queued() else {
                return;
            };
            skipped += 1;
        }
    }

    /// So many finalizers that wait run, the oldest first, or all where fewer wait, and the lines of their events are written. After
    /// a failed write the others run too, without lines. The answer is how many ran.
    pub fn run_and_tell<K: Sink>(&mut self, count: u64, sink: &mut K) -> Result<u64, WriteFault>
        ensures done { OnOk result (Appends (K.written sink.old) (K.written sink.new) (text_of (map Told (ran_events (take count self.old.finals.queue))))) }
        ensures fault { OnErr result (AppendsPrefix (K.written sink.old) (K.written sink.new) (text_of (map Told (ran_events (take count self.old.finals.queue))))) }
        ensures cause { HasCause (K.faults sink.old) (K.faults sink.new) result }
        ensures ran { IfOk result (λ ran. ran ≡ length (take count self.old.finals.queue)) }
        ensures spelled { AreSpelled (map Told (ran_events (take count self.old.finals.queue))) }
        ensures rest { self.new ≡ with_queue self.old (drop count self.old.finals.queue) }
    {
        let mut ran = 0;
        'run: while ran < count {
            let Some(next) = self.take_queued() else {
                return Ok(ran);
            };
            ran += 1;
            let event = Event::Ran {
                name: next.name,
                label: next.label,
            };
            let Ok(()) = write_event(&event, sink) else {
                self.skip_queued(count - ran);
                return Err(WriteFault);
            };
        }
        Ok(ran)
    }

    /// No finalizer waits any more: those that did count as run, and no line tells of them.
    pub fn drop_queue(&mut self)
        ensures spelled { AreSpelled (map Told (ran_events self.old.finals.queue)) }
        ensures rest { self.new ≡ with_queue self.old [] }
    {
        let waiting = self.finals.len();
        self.skip_queued(waiting);
    }

    /// Runs so many finalizers that wait, or all where fewer do, and replies how many ran.
    pub fn run<K: Sink>(&mut self, count: u64, sink: &mut K) -> Result<Counts, WriteFault>
        ensures done { (ticks : ℕ) → IfOk result (λ counts. IsWritten self.old self.new (Run count) counts (K.written sink.old) (K.written sink.new) ticks ticks) }
        ensures fault { OnErr result (IsWrittenInPart self.old self.new (Run count) (K.written sink.old) (K.written sink.new)) }
        ensures cause { HasCause (K.faults sink.old) (K.faults sink.new) result }
        ensures heap { self.new.heap ≡ self.old.heap }
    {
        let ran = self.run_and_tell(count, sink)?;
        write_reply(&Reply::RanCount { count: ran }, sink)?;
        Ok(Counts {
            finals: ran,
            ..NONE
        })
    }
}
