// The pieces of a collection: `collect`, which is a marking and its verdict, and the lines of the verdict.
ghost use Rattle.std.specs.Prelude.{◌≡◌, ◌<◌, ◌≤◌, ◌+◌, ◌^◌, length, map, OnOk, OnErr};
ghost use Rattle.std.specs.Io.KnownBytes.{Appends};
ghost use Rattle.space_io.specs.Causes.{HasCause};
ghost use Rattle.space_io.specs.Sinks.{AppendsPrefix};
ghost use Rattle.space_model.specs.Outputs.{Told};
ghost use Rattle.space_model.specs.Texts.{text_of};
ghost use Rattle.space_model.specs.Verdicts.{verdict_events};
ghost use Rattle.space_heap.specs.Sweeping.{HasNoGone};
ghost use Rattle.space_roots.specs.WordRoots.{root_words};
ghost use Rattle.space_collector.specs.GoneNames.{gone_names};
ghost use Rattle.space_collector.specs.HeapVerdicts.{IsKindMarking, IsHeapVerdict};
ghost use Rattle.space_collector.specs.Quiescent.{most_slots, CanCollect, IsQuiescent};

use space_heap::Heap;
use space_io::{Sink, WriteFault};
use space_major::{finish, whole};
use space_minor::minor;
use space_model::{Event, Kind, Ledger, Steps};
use space_roots::{Roots, Stack};
use space_sweep::{Walk, next_gone, verdict};
use space_trace::write_event;

/// What a marking and its verdict did.
#[derive(Clone, Copy, Debug, PartialEq, Eq)]
pub struct Collected {
    /// How many objects were scanned.
    pub scans: u64,
    /// How many objects are gone.
    pub gone: u64,
}

// The marking of a collection of this kind: by `Major` it is the end of the marking that is under way. The answer is how many
// objects were scanned.
fn mark<L: Ledger>(
    heap: &mut Heap,
    roots: &Roots,
    stack: &Stack,
    kind: Kind,
    steps: &mut Steps<L>,
) -> u64
    requires steps { steps.old < 2 ^ 62 }
    requires none_gone { HasNoGone heap.old }
    ensures marking { IsKindMarking heap.old heap.new kind (root_words roots.now) stack.now result }
    ensures few { result < 2 ^ 24 }
    ensures ticked { steps.new ≡ steps.old + result }
{
    match kind {
        Kind::Minor => minor(heap, roots, stack, steps),
        Kind::Major => finish(heap, roots, stack, steps),
        Kind::Full => whole(heap, roots, stack, steps),
    }
}

/// Marks what roots and the stack lead to, as a minor or a whole marking of CRuby 3.3 does, or ends the major marking that is
/// under way, and then carries out a verdict of the kind: all other objects are gone, and each page that has a pool waits for a
/// sweep. A minor marking spares old and kept objects too; the end of a major one spares what was marked before and what that
/// leads to; a full verdict comes after a whole marking. The answer counts objects. It takes no memory, frees no slot and tells
/// nothing. That the verdict is on all pages before the first sweep is this project's own.
pub fn collect<L: Ledger>(
    heap: &mut Heap,
    roots: &Roots,
    stack: &Stack,
    kind: Kind,
    steps: &mut Steps<L>,
) -> Collected
    requires able { CanCollect kind heap.old }
    requires steps { steps.old < 2 ^ 62 }
    ensures verdict { IsHeapVerdict heap.old heap.new kind (root_words roots.now) stack.now result.scans }
    ensures few { result.scans < 2 ^ 24 }
    ensures gone { result.gone ≡ length (gone_names heap.new) }
    ensures most { result.gone ≤ most_slots }
    ensures quiescent { IsQuiescent heap.new }
    ensures ticked { steps.new ≡ steps.old + result.scans }
{
    let scans = mark(heap, roots, stack, kind, steps);
    let gone = verdict(heap, kind);
    Collected { scans, gone }
}

/// Writes the lines of a verdict of any kind: one for each gone object, in ascending address, and one with their number,
/// which the caller knows from the verdict. An `Err` comes exactly where a write failed, and no further line is written
/// then. The lines and their order are this project's own.
pub fn tell_gone<K: Sink>(
    heap: &Heap,
    kind: Kind,
    gone: u64,
    sink: &mut K,
) -> Result<(), WriteFault>
    requires counted { gone ≡ length (gone_names heap.now) }
    ensures done { OnOk result (Appends (K.written sink.old) (K.written sink.new) (text_of (map Told (verdict_events kind (gone_names heap.now))))) }
    ensures fault { OnErr result (AppendsPrefix (K.written sink.old) (K.written sink.new) (text_of (map Told (verdict_events kind (gone_names heap.now))))) }
    ensures cause { HasCause (K.faults sink.old) (K.faults sink.new) result }
{
    let mut walk = Walk::new();
    'told: while let Some(object) = next_gone(heap, &mut walk) {
        write_event(&Event::Gone { name: object.name }, sink)?;
    }
    write_event(&Event::Verdict { kind, gone }, sink)
}
