// The command that sweeps pages, and the one that counts.
ghost use Rattle.space_model.specs.declared.command.Command.TheVariants.{Sweep, Stat};
ghost use Rattle.space_model.specs.State.{State};
ghost use Rattle.space_engine.specs.Stands.{Holds};
ghost use Rattle.space_engine.specs.Steps.{Answers};
ghost use Rattle.space_engine.specs.Turns.{CanAnswer, IsOneTurn};

use super::Engine;
use space_collector::sweep_pages;
use space_model::Reply;
use space_stat::counts_of;
use space_sweep::unswept;

impl Engine {
    /// Sweeps so many pages that wait, or all where fewer do, and replies how many slots became free and how many pages still
    /// wait.
    pub fn sweep(&mut self, count: u64) -> Reply
        requires able { CanAnswer self.old.heap }
        ensures answers { (s : State) → Holds self.old s → Answers s self.new (Sweep count) result }
        ensures turn { IsOneTurn self.old.heap self.new.heap }
    {
        let freed = sweep_pages(&mut self.heap, &mut self.finals, count);
        let left = unswept(&self.heap);
        Reply::SweepCount { freed, left }
    }

    /// Replies the counts of the space.
    pub fn stat(&self) -> Reply
        requires able { CanAnswer self.now.heap }
        ensures answers { (s : State) → Holds self.now s → Answers s self.now Stat result }
    {
        let stat = counts_of(&self.heap);
        Reply::StatLine { stat }
    }
}
