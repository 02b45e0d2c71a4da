// The commands that tell no events: each has one reply.
ghost use Rattle.std.specs.Prelude.{◌≡◌, ◌<◌, ◌^◌};
ghost use Rattle.space_model.specs.Given.{IsGiven};
ghost use Rattle.space_model.specs.State.{State};
ghost use Rattle.space_engine.specs.Stands.{Holds};
ghost use Rattle.space_engine.specs.Steps.{Answers, IsQuiet};
ghost use Rattle.space_engine.specs.Ticks.{RisesByFewer, IsReplyTicked, most_ticks};
ghost use Rattle.space_engine.specs.Turns.{CanAnswer, IsOneTurn};

use super::Engine;
use space_model::{Command, Ledger, Reply, Steps};

impl Engine {
    /// Replies to a command that tells no events.
    pub fn reply<L: Ledger>(&mut self, command: &Command, steps: &mut Steps<L>) -> Reply
        requires quiet { IsQuiet command.now }
        requires given { IsGiven command.now }
        requires able { CanAnswer self.old.heap }
        requires steps { steps.old < 2 ^ 62 }
        ensures answers { (s : State) → Holds self.old s → Answers s self.new command.now result }
        ensures ticked { IsReplyTicked command.now result steps.old steps.new }
        ensures turn { IsOneTurn self.old.heap self.new.heap }
        ensures steps { RisesByFewer most_ticks steps.old steps.new }
    {
        match command {
            Command::Set { root, value } => self.set(root, value),
            Command::DropRoot { root } => self.drop_root(root),
            Command::Push { value } => self.push(value),
            Command::Raw { word } => self.raw(*word),
            Command::Pop => self.pop(),
            Command::Store {
                object,
                index,
                value,
            } => self.store(object, *index, value),
            Command::RawStore {
                object,
                index,
                value,
            } => self.raw_store(object, *index, value),
            Command::Load {
                root,
                object,
                index,
            } => self.load(root, object, *index, steps),
            Command::Same { left, right } => self.compare(left, right),
            Command::Unprotect { object } => self.unprotect(object),
            Command::Id { object } => self.id(object),
            Command::ById { root, id } => self.by_id(root, *id),
            Command::WeakSet { weak, key, value } => self.weak_set(weak, key, value),
            Command::WeakGet { root, weak, key } => self.weak_get(root, weak, key),
            Command::WeakKey { weak, key } => self.weak_key(weak, key),
            Command::WeakSize { weak } => self.weak_size(weak),
            Command::WeakDelete { weak, key } => self.weak_delete(weak, key),
            Command::Final { object, label } => self.define_final(object, label),
            Command::Unfinal { object } => self.take_finals(object),
            Command::Mark { count } => self.mark(*count, steps),
            Command::Sweep { count } => self.sweep(*count),
            Command::Fix { count } => self.fix(*count, steps),
            Command::Stat => self.stat(),
            Command::New { .. }
            | Command::Run { .. }
            | Command::Minor
            | Command::Gc
            | Command::Major
            | Command::Finish
            | Command::Compact
            | Command::Move { .. }
            | Command::Dump
            | Command::Peek { .. }
            | Command::Exit => unreachable!(),
        }
    }
}
