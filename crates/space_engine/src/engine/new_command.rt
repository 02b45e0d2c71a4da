// The command that makes objects: a place for its root, an allocation, before which a compaction is completed and pages that wait are
// swept where that is needed, and where there is no room a whole collection and one more allocation.
ghost use Rattle.std.specs.Prelude.{◌≡◌, ◌⊎◌, ◌↔◌, ◌≤◌, ◌<◌, ◌+◌, ◌^◌, ℕ, List, length, if◌then◌else◌, true, None, Err, IfOk, OnOk, OnErr, IsSome};
ghost use Rattle.space_io.specs.Causes.{HasCause};
ghost use Rattle.space_model.specs.declared.command.Command.TheVariants.{New};
ghost use Rattle.space_model.specs.declared.event.Event.{Event};
ghost use Rattle.space_model.specs.declared.phase.Phase.TheVariants.{Idle};
ghost use Rattle.space_model.specs.declared.reply.Reply.{Reply as TheReply};
ghost use Rattle.space_model.specs.Layout.{pool_for as pool_of_fields};
ghost use Rattle.space_heap.specs.Allocations.{LacksRoom, NeedsNewPage};
ghost use Rattle.space_heap.specs.FreeSlots.{HasNoFree};
ghost use Rattle.space_heap.specs.SoundHeap.{IsSoundHeap};
ghost use Rattle.space_roots.specs.WordRoots.{root_word};
ghost use Rattle.space_engine.specs.Ticks.{RisesByFewer, most_ticks};
ghost use Rattle.space_collector.specs.Quiescent.{most_slots, IsQuiescent};
ghost use Rattle.space_engine.specs.Allocations.{IsCompletedInNeed, IsCreated, IsLastReply, IsReserved, IsRetried, IsRootedAllocation, IsSwept, IsTickedCreation, IsTickedInNeed, NeedsCompletion};
ghost use Rattle.space_engine.specs.Answered.{IsAnswered, IsCutOff};
ghost use Rattle.space_engine.specs.HeapCollections.{AreCut, AreTold, HasJudged, IsCompletion};
ghost use Rattle.space_engine.specs.Turns.{CanAnswer, CanCompleteAndCollect, IsAtRest, IsCompacting, IsOneTurn, IsQuietWork, IsWork};
ghost use Rattle.space_engine.specs.Views.{View, with_root_dropped, with_root_written};

use super::collection_commands::Collection;
use super::{Answer, Engine, silent};
use crate::discard::Discard;
use space_collector::sweep_until_free;
use space_heap::{Made, PageFault};
use space_io::{Sink, WriteFault};
use space_model::{
    Guard, Ident, Kind, Ledger, MOST_FIELDS, Phase, Refusal, Reply, Steps, Style, pool_for,
};
use std::alloc::AllocError as NoMemory;

impl Engine {
    // Makes a place for the root, and tells whether it is new. An `Err` changes nothing.
    fn reserve_root(&mut self, root: &Ident) -> Result<bool, NoMemory>
        ensures ok { IfOk result (λ is_new. IsReserved self.old self.new root.now is_new) }
        ensures there { OnOk result (IsSome (root_word self.new.roots root.now)) }
        ensures err { OnErr result (self.new ≡ self.old) }
        ensures absent { OnErr result (root_word self.old.roots root.now ≡ None) }
    {
        self.roots.reserve_for(*root)
    }

    // Takes the place of a new root away again.
    fn free_root(&mut self, root: &Ident, is_new: bool)
        ensures { self.new ≡ (if is_new then with_root_dropped self.old root.now else self.old) }
    {
        if is_new {
            self.roots.drop_root(*root);
        }
    }

    // The root that is there holds the word.
    fn hold(&mut self, root: &Ident, word: u64)
        requires { IsSome (root_word self.old.roots root.now) }
        ensures { self.new ≡ with_root_written self.old root.now word }
    {
        if self.roots.set(*root, word).is_err() {
            unreachable!();
        }
    }

    // Whether no address is free for an object with so many fields, but for those on pages that wait for a sweep.
    fn lacks_address(&self, fields: u64) -> bool
        requires few { fields ≤ MOST_FIELDS }
        ensures lacks { (result ≡ true) ↔ HasNoFree self.now.heap (pool_of_fields fields) }
        ensures sound { IsSoundHeap self.now.heap }
    {
        let Some(pool) = pool_for(fields) else {
            unreachable!();
        };
        self.heap.lowest_free(pool).is_none()
    }

    // Whether a compaction is under way and no address is free for an object with so many fields.
    fn needs_completion(&self, fields: u64) -> bool
        requires few { fields ≤ MOST_FIELDS }
        ensures needs { (result ≡ true) ↔ NeedsCompletion self.now.heap (pool_of_fields fields) }
        ensures sound { IsCompacting self.now.heap → IsSoundHeap self.now.heap }
    {
        match self.heap.phase() {
            Phase::Idle | Phase::Marking | Phase::Sweeping => false,
            Phase::Moving | Phase::Fixing => self.lacks_address(fields),
        }
    }

    // Completes the compaction that is under way. The answer is how many moves its lines tell. All of it is done after a failed write
    // too.
    fn complete_compaction<K: Sink, L: Ledger>(
        &mut self,
        sink: &mut K,
        steps: &mut Steps<L>,
    ) -> Result<u64, WriteFault>
        requires compacting { IsCompacting self.old.heap }
        requires able { CanCompleteAndCollect self.old.heap }
        requires steps { steps.old < 2 ^ 61 }
        ensures done { IfOk result (λ moves. AreTold (λ events. (scans : ℕ) × IsCompletion self.old self.new scans events) 0 moves (K.written sink.old) (K.written sink.new)) }
        ensures fault { OnErr result (AreCut (λ events. (scans : ℕ) × IsCompletion self.old self.new scans events) (K.written sink.old) (K.written sink.new)) }
        ensures cause { HasCause (K.faults sink.old) (K.faults sink.new) result }
        ensures idle { self.new.heap.phase ≡ Idle }
        ensures judged { HasJudged 0 0 0 1 self.old.heap self.new.heap }
        ensures steps { RisesByFewer (2 ^ 24) steps.old steps.new }
    {
        if self.heap.phase() == Phase::Moving {
            return self.complete_moves(sink, steps);
        }
        self.complete_fixes(steps);
        Ok(0)
    }

    // Completes the compaction that is under way, if there is one, where no address is free for an object with so many fields: so no
    // page is taken before. The answer is how many moves the lines tell. All of it is done after a failed write too.
    fn complete_in_need<K: Sink, L: Ledger>(
        &mut self,
        fields: u64,
        sink: &mut K,
        steps: &mut Steps<L>,
    ) -> Result<u64, WriteFault>
        requires few { fields ≤ MOST_FIELDS }
        requires able { CanCompleteAndCollect self.old.heap }
        requires steps { steps.old < 2 ^ 61 }
        ensures done { IfOk result (λ moves. AreTold (IsTickedInNeed self.old self.new (pool_of_fields fields) steps.old steps.new) 0 moves (K.written sink.old) (K.written sink.new)) }
        ensures fault { OnErr result (AreCut (IsCompletedInNeed self.old self.new (pool_of_fields fields)) (K.written sink.old) (K.written sink.new)) }
        ensures cause { HasCause (K.faults sink.old) (K.faults sink.new) result }
        ensures ready { NeedsCompletion self.new.heap (pool_of_fields fields) → ⊥ }
        ensures there { (root : List ℕ) → IsSome (root_word self.old.roots root) → IsSome (root_word self.new.roots root) }
        ensures work { IsQuietWork 0 1 self.old.heap self.new.heap }
        ensures still { (steps.new ≡ steps.old) ⊎ (self.new.heap.phase ≡ Idle) }
        ensures steps { RisesByFewer (2 ^ 24) steps.old steps.new }
    {
        if self.needs_completion(fields) {
            self.complete_compaction(sink, steps)
        } else {
            Ok(0)
        }
    }

    // Allocates an object, for which pages that wait are swept where no address is free, and the root, whose place was made,
    // holds it. An `Err` leaves the sweeps.
    fn allocate_for_root(
        &mut self,
        root: &Ident,
        fields: u64,
        guard: Guard,
        style: Style,
    ) -> Result<Made, PageFault>
        requires few { fields ≤ MOST_FIELDS }
        requires names { self.old.heap.counters.born < 2 ^ 62 }
        requires there { IsSome (root_word self.old.roots root.now) }
        requires quiescent { IsQuiescent self.old.heap }
        requires freed { self.old.heap.counters.freed < 2 ^ 61 }
        ensures allocated { IfOk result (λ made. IsRootedAllocation self.old self.new root.now fields guard style made.name made.address) }
        ensures at_limit { result ≡ Err PageFault.AtLimit → LacksRoom self.new.heap (pool_of_fields fields) }
        ensures no_memory { result ≡ Err PageFault.NoMemory → NeedsNewPage self.new.heap (pool_of_fields fields) }
        ensures failed { OnErr result (IsSwept self.old self.new (pool_of_fields fields)) }
        ensures work { IsWork 1 0 self.old.heap self.new.heap }
    {
        sweep_until_free(&mut self.heap, &mut self.finals, fields);
        let made = self.heap.allocate(fields, guard, style)?;
        self.hold(root, made.address);
        Ok(made)
    }

    // Allocates where there are as many pages as may be, so that a page takes no memory. The place of a new root is taken
    // away again where there is no room.
    fn allocate_at_limit(
        &mut self,
        root: &Ident,
        is_new: bool,
        fields: u64,
        guard: Guard,
        style: Style,
    ) -> Reply
        requires few { fields ≤ MOST_FIELDS }
        requires names { self.old.heap.counters.born < 2 ^ 62 }
        requires there { IsSome (root_word self.old.roots root.now) }
        requires quiescent { IsQuiescent self.old.heap }
        requires freed { self.old.heap.counters.freed < 2 ^ 61 }
        requires limit { length self.old.heap.pages ≡ self.old.heap.limit }
        ensures last { IsLastReply self.old self.new root.now is_new fields guard style result }
        ensures work { IsWork 1 0 self.old.heap self.new.heap }
    {
        match self.allocate_for_root(root, fields, guard, style) {
            Ok(made) => Reply::Made {
                name: made.name,
                address: made.address,
            },
            Err(PageFault::AtLimit) => {
                self.free_root(root, is_new);
                Reply::Full
            }
            Err(PageFault::NoMemory) => unreachable!(),
        }
    }

    // Goes on where there was no room, though all pages were swept: a whole collection, and one more allocation. Until then the
    // root, whose place was made, holds what it held before.
    fn create_at_limit<K: Sink, L: Ledger>(
        &mut self,
        root: &Ident,
        is_new: bool,
        fields: u64,
        guard: Guard,
        style: Style,
        sink: &mut K,
        steps: &mut Steps<L>,
    ) -> Result<Answer, WriteFault>
        requires few { fields ≤ MOST_FIELDS }
        requires there { IsSome (root_word self.old.roots root.now) }
        requires full { LacksRoom self.old.heap (pool_of_fields fields) }
        requires rests { IsAtRest self.old.heap }
        requires names { self.old.heap.counters.born < 2 ^ 62 }
        requires able { CanCompleteAndCollect self.old.heap }
        requires freed { self.old.heap.counters.freed < 2 ^ 60 + most_slots }
        requires steps { steps.old < 2 ^ 61 + 2 ^ 24 }
        ensures done { IfOk result (λ answer. AreTold (λ events. (ended scans : ℕ) × IsRetried self.old self.new root.now is_new fields guard style answer.reply ended scans events × (steps.new ≡ steps.old + ended + scans)) answer.gone 0 (K.written sink.old) (K.written sink.new)) }
        ensures fault { OnErr result (AreCut (λ events. (reply : TheReply) × (ended scans : ℕ) × IsRetried self.old self.new root.now is_new fields guard style reply ended scans events) (K.written sink.old) (K.written sink.new)) }
        ensures cause { HasCause (K.faults sink.old) (K.faults sink.new) result }
        ensures work { IsWork 2 1 self.old.heap self.new.heap }
        ensures still { self.old.heap.phase ≡ Idle → RisesByFewer (2 ^ 24) steps.old steps.new }
        ensures steps { RisesByFewer most_ticks steps.old steps.new }
    {
        let collected = self.collect_and_tell(Kind::Full, sink, steps);

        // This comes also after a failed write: the command is done then too, so the state after it is the same whether or not
        // its lines were written.
        let reply = self.allocate_at_limit(root, is_new, fields, guard, style);
        let Collection { gone, .. } = collected?;
        Ok(Answer {
            reply,
            gone,
            moves: 0,
        })
    }

    // Allocates, where no compaction has to be completed for it: at once, or after a whole collection. The place of a new root is
    // taken away again where there is no room or no memory.
    fn create_ready<K: Sink, L: Ledger>(
        &mut self,
        root: &Ident,
        is_new: bool,
        fields: u64,
        guard: Guard,
        style: Style,
        sink: &mut K,
        steps: &mut Steps<L>,
    ) -> Result<Answer, WriteFault>
        requires few { fields ≤ MOST_FIELDS }
        requires there { IsSome (root_word self.old.roots root.now) }
        requires ready { NeedsCompletion self.old.heap (pool_of_fields fields) → ⊥ }
        requires names { self.old.heap.counters.born < 2 ^ 62 }
        requires able { CanCompleteAndCollect self.old.heap }
        requires freed { self.old.heap.counters.freed < 2 ^ 60 }
        requires steps { steps.old < 2 ^ 61 + 2 ^ 24 }
        ensures done { IfOk result (λ answer. AreTold (IsTickedCreation self.old self.new root.now is_new fields guard style answer.reply steps.old steps.new) answer.gone 0 (K.written sink.old) (K.written sink.new)) }
        ensures fault { OnErr result (AreCut (IsCreated self.old self.new root.now is_new fields guard style) (K.written sink.old) (K.written sink.new)) }
        ensures cause { HasCause (K.faults sink.old) (K.faults sink.new) result }
        ensures work { IsWork 3 1 self.old.heap self.new.heap }
        ensures still { self.old.heap.phase ≡ Idle → RisesByFewer (2 ^ 24) steps.old steps.new }
        ensures steps { RisesByFewer most_ticks steps.old steps.new }
    {
        match self.allocate_for_root(root, fields, guard, style) {
            Ok(made) => Ok(silent(Reply::Made {
                name: made.name,
                address: made.address,
            })),
            Err(PageFault::NoMemory) => {
                self.free_root(root, is_new);
                Ok(silent(Reply::NoMemory))
            }
            Err(PageFault::AtLimit) => {
                self.create_at_limit(root, is_new, fields, guard, style, sink, steps)
            }
        }
    }

    // The same after a failed write: its lines aren't written.
    fn create_unwritten<L: Ledger>(
        &mut self,
        root: &Ident,
        is_new: bool,
        fields: u64,
        guard: Guard,
        style: Style,
        steps: &mut Steps<L>,
    )
        requires few { fields ≤ MOST_FIELDS }
        requires there { IsSome (root_word self.old.roots root.now) }
        requires ready { NeedsCompletion self.old.heap (pool_of_fields fields) → ⊥ }
        requires names { self.old.heap.counters.born < 2 ^ 62 }
        requires able { CanCompleteAndCollect self.old.heap }
        requires freed { self.old.heap.counters.freed < 2 ^ 60 }
        requires steps { steps.old < 2 ^ 61 + 2 ^ 24 }
        ensures creates { (events : List Event) × IsCreated self.old self.new root.now is_new fields guard style events }
        ensures work { IsWork 3 1 self.old.heap self.new.heap }
        ensures still { self.old.heap.phase ≡ Idle → RisesByFewer (2 ^ 24) steps.old steps.new }
        ensures steps { RisesByFewer most_ticks steps.old steps.new }
    {
        let mut sink = Discard;
        let _ = self.create_ready(root, is_new, fields, guard, style, &mut sink, steps);
    }

    // Makes an object, and the root, whose place was made, holds it. All of it is done after a failed write too, so the state after it
    // is the same whether or not its lines were written. `v` is the space before the place was made.
    fn create_reserved<K: Sink, L: Ledger>(
        &mut self,
        root: &Ident,
        is_new: bool,
        fields: u64,
        guard: Guard,
        style: Style,
        sink: &mut K,
        steps: &mut Steps<L>,
    ) -> Result<Answer, WriteFault>
        requires few { fields ≤ MOST_FIELDS }
        requires there { IsSome (root_word self.old.roots root.now) }
        requires able { CanAnswer self.old.heap }
        requires steps { steps.old < 2 ^ 61 }
        ensures done { (v : View) → IsReserved v self.old root.now is_new → IfOk result (λ answer. IsAnswered v self.new (New root.now fields guard style) answer.reply answer.gone answer.moves (K.written sink.old) (K.written sink.new) steps.old steps.new) }
        ensures fault { (v : View) → IsReserved v self.old root.now is_new → OnErr result (IsCutOff v self.new (New root.now fields guard style) (K.written sink.old) (K.written sink.new)) }
        ensures cause { HasCause (K.faults sink.old) (K.faults sink.new) result }
        ensures turn { IsOneTurn self.old.heap self.new.heap }
        ensures steps { RisesByFewer most_ticks steps.old steps.new }
    {
        match self.complete_in_need(fields, sink, steps) {
            Ok(moves) => {
                let made = self.create_ready(root, is_new, fields, guard, style, sink, steps)?;
                Ok(Answer {
                    reply: made.reply,
                    gone: made.gone,
                    moves,
                })
            }
            Err(fault) => {
                self.create_unwritten(root, is_new, fields, guard, style, steps);
                Err(fault)
            }
        }
    }

    /// Makes an object, and the root holds it. Where no address is free, a compaction that is under way is completed first; and where
    /// there is no room then, a whole collection comes first.
    pub fn create<K: Sink, L: Ledger>(
        &mut self,
        root: &Ident,
        fields: u64,
        guard: Guard,
        style: Style,
        sink: &mut K,
        steps: &mut Steps<L>,
    ) -> Result<Answer, WriteFault>
        requires able { CanAnswer self.old.heap }
        requires steps { steps.old < 2 ^ 61 }
        ensures done { IfOk result (λ answer. IsAnswered self.old self.new (New root.now fields guard style) answer.reply answer.gone answer.moves (K.written sink.old) (K.written sink.new) steps.old steps.new) }
        ensures fault { OnErr result (IsCutOff self.old self.new (New root.now fields guard style) (K.written sink.old) (K.written sink.new)) }
        ensures cause { HasCause (K.faults sink.old) (K.faults sink.new) result }
        ensures turn { IsOneTurn self.old.heap self.new.heap }
        ensures steps { RisesByFewer most_ticks steps.old steps.new }
    {
        let Some(_) = pool_for(fields) else {
            let why = Refusal::TooLarge;
            return Ok(silent(Reply::Refused { why }));
        };
        let is_new = match self.reserve_root(root) {
            Ok(is_new) => is_new,
            Err(_) => return Ok(silent(Reply::NoMemory)),
        };
        self.create_reserved(root, is_new, fields, guard, style, sink, steps)
    }
}
