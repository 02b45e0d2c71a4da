// Moves of a compaction, with their lines.
ghost use Rattle.std.specs.Prelude.{◌≡◌, ◌<◌, ◌≤◌, ◌+◌, ◌++◌, ◌^◌, ℕ, List, [], Option};
ghost use Rattle.space_io.specs.Causes.{HasCause};
ghost use Rattle.space_model.specs.declared.event.Event.TheVariants.{Moved as MovedEvent};
ghost use Rattle.space_model.specs.declared.phase.Phase.TheVariants.{Moving};
ghost use Rattle.space_model.specs.Texts.{event_pieces, line_of_pieces};
ghost use Rattle.space_heap.specs.SoundHeap.{IsSoundHeap};
ghost use Rattle.space_compact.specs.Moves.{IsPacked, AreFingers};
ghost use Rattle.space_compact.specs.Pins.{PinsNow};
ghost use Rattle.space_collector.specs.HeapMoves.{AreMovesTold, KeepsBut};
ghost use Rattle.space_collector.specs.MovesWritten.{IsWritten, AreMovesMade};
ghost use Rattle.space_collector.specs.Quiescent.{IsQuiescent};

use space_compact::{Fingers, Moved, begin_moves, move_one, packed, pin_now};
use space_heap::Heap;
use space_io::{Sink, WriteFault};
use space_model::{Event, Ledger, Steps};
use space_roots::Stack;
use space_trace::write_event;

/// What some moves of a compaction came to.
#[derive(Clone, Copy, Debug, PartialEq, Eq)]
pub struct MovesMade {
    /// How many moves were made.
    pub moved: u64,
    /// Whether no further one can be: the heap is packed.
    pub done: bool,
}

// Writes the line of a move. Where a write failed before nothing is written, and that failure stays.
fn tell_move<K: Sink>(
    made: Moved,
    told: Result<(), WriteFault>,
    sink: &mut K,
) -> Result<(), WriteFault>
    ensures written { (before : Option (List ℕ)) → (text : List ℕ) → IsWritten told before (K.written sink.old) text → IsWritten result before (K.written sink.new) (text ++ line_of_pieces (event_pieces (MovedEvent made.name made.from made.to))) }
    ensures cause { (faults : ℕ) → HasCause faults (K.faults sink.old) told → HasCause faults (K.faults sink.new) result }
{
    match told {
        Ok(()) => {
            let event = Event::Moved {
                name: made.name,
                from: made.from,
                to: made.to,
            };
            write_event(&event, sink)
        }
        Err(fault) => Err(fault),
    }
}

// Makes moves, so many or fewer where the heap is packed before, and writes the line of each until a write fails. The answer is
// how many moves were made, and whether a write failed.
fn make_moves<K: Sink>(
    heap: &mut Heap,
    fingers: &mut Fingers,
    count: u64,
    sink: &mut K,
) -> (u64, Result<(), WriteFault>)
    requires fingers { AreFingers heap.old fingers.old }
    requires sound { IsSoundHeap heap.old }
    requires none_grey { heap.old.grey ≡ [] }
    requires few { heap.old.counters.moves < 2 ^ 61 }
    ensures made { AreMovesMade heap.old heap.new result.0 result.1 (K.written sink.old) (K.written sink.new) }
    ensures at_most { result.0 ≤ count }
    ensures all { result.0 < count → IsPacked heap.new }
    ensures cause { HasCause (K.faults sink.old) (K.faults sink.new) result.1 }
    ensures fingers { AreFingers heap.new fingers.new }
{
    let mut moved = 0;
    let mut told = Ok(());
    'moves: while moved < count {
        let Some(made) = move_one(heap, fingers) else {
            return (moved, told);
        };
        told = tell_move(made, told, sink);
        moved += 1;
    }
    (moved, told)
}

// Pins anew what may not be moved, and begins the moves of a command.
fn pin_and_begin<L: Ledger>(heap: &mut Heap, stack: &Stack, steps: &mut Steps<L>) -> Fingers
    requires { steps.old < 2 ^ 62 }
    ensures pins { PinsNow heap.old heap.new stack.now }
    ensures fingers { AreFingers heap.new result }
    ensures sound { IsSoundHeap heap.new }
    ensures few { steps.new < steps.old + 2 ^ 23 }
    ensures counts { steps.old ≤ steps.new }
{
    pin_now(heap, stack, steps);
    // Its clause `sound` tells that there are few slots.
    heap.page_count();
    begin_moves(heap)
}

/// Pins anew what the stack and objects of style K pin, and then makes moves, at most so many, each with its line; it makes
/// fewer where no further object can be moved. After a failed write the moves go on without lines, and the answer tells of the
/// failure. It takes no memory. That a command makes so many moves is this project's own.
pub fn move_and_tell<K: Sink, L: Ledger>(
    heap: &mut Heap,
    stack: &Stack,
    count: u64,
    sink: &mut K,
    steps: &mut Steps<L>,
) -> (MovesMade, Result<(), WriteFault>)
    requires none_grey { heap.old.grey ≡ [] }
    requires few { heap.old.counters.moves < 2 ^ 61 }
    requires steps { steps.old < 2 ^ 62 }
    ensures told { AreMovesTold heap.old heap.new stack.now count result.0.moved result.0.done result.1 (K.written sink.old) (K.written sink.new) }
    ensures cause { HasCause (K.faults sink.old) (K.faults sink.new) result.1 }
    ensures ticked { (steps.old ≤ steps.new) × (steps.new < steps.old + 2 ^ 23) }
    ensures keeps { KeepsBut heap.old heap.new result.0.moved }
    ensures quiescent { heap.old.phase ≡ Moving → IsQuiescent heap.old → IsQuiescent heap.new }
{
    let mut fingers = pin_and_begin(heap, stack, steps);
    let (moved, told) = make_moves(heap, &mut fingers, count, sink);
    let done = packed(heap, &mut fingers);
    (MovesMade { moved, done }, told)
}
