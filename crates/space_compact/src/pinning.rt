// Pins.
ghost use Rattle.std.specs.Prelude.{◌≡◌, ◌+◌, ◌<◌, ◌≤◌, ◌^◌, true, false};
ghost use Rattle.space_heap.specs.Objects.{is_occupied, object_of};
ghost use Rattle.space_compact.specs.Pins.{pinned_word, pinned_words, child_words, is_keeping as is_keeping_style, PinsNow, PinsKept};

use space_heap::Heap;
use space_model::{Ledger, Steps, Style};
use space_roots::Stack;

// Whether objects of this style pin their children.
fn is_keeping(style: Style) -> bool
    ensures { result ≡ is_keeping_style style }
{
    match style {
        Style::Movable => false,
        Style::Keeping => true,
    }
}

// Pins the object that the word names.
fn pin_word(heap: &mut Heap, word: u64)
    ensures { heap.new ≡ pinned_word heap.old word }
{
    if let Some(address) = heap.object_at(word) {
        heap.pin(address);
    }
}

// Pins the objects that the words name.
#[tactic(auto, using(crate::proofs::PinMarks::pinning))]
fn pin_words(heap: &mut Heap, words: &[u64])
    ensures { heap.new ≡ pinned_words heap.old words.now }
{
    for word in words {
        pin_word(heap, *word);
    }
}

// Pins the objects that the words of the stack name.
fn pin_stack(heap: &mut Heap, stack: &Stack)
    ensures { heap.new ≡ pinned_words heap.old stack.now }
{
    pin_words(heap, stack.words());
}

// Pins the children of an object, in one step.
fn pin_children<L: Ledger>(heap: &mut Heap, address: u64, steps: &mut Steps<L>)
    requires object { is_occupied heap.old address ≡ true }
    requires ticks { steps.old + 1 < 2 ^ 64 }
    ensures pinned { heap.new ≡ pinned_words heap.old (child_words heap.old address) }
    ensures ticks { steps.new ≡ steps.old + 1 }
{
    let mut fields = heap.read_fields(address, steps);
    'fields: while let Some(word) = heap.next_field(&mut fields) {
        let word = heap.resolve(word);
        pin_word(heap, word);
    }
}

// Pins the children of an object, in one step, where it is of style K.
fn pin_if_keeping<L: Ledger>(heap: &mut Heap, address: u64, steps: &mut Steps<L>)
    requires object { is_occupied heap.old address ≡ true }
    requires ticks { steps.old + 1 < 2 ^ 64 }
    ensures kept { is_keeping_style (object_of heap.old address).style ≡ true → heap.new ≡ pinned_words heap.old (child_words heap.old address) }
    ensures others { is_keeping_style (object_of heap.old address).style ≡ false → heap.new ≡ heap.old }
    ensures ticks { steps.new ≤ steps.old + 1 }
    ensures counts { steps.old ≤ steps.new }
{
    if is_keeping(heap.style(address)) {
        pin_children(heap, address, steps);
    }
}

// Pins the children of all objects of style K, each object's in one step.
fn pin_kept<L: Ledger>(heap: &mut Heap, steps: &mut Steps<L>)
    requires { steps.old < 2 ^ 62 }
    ensures pins { PinsKept heap.old heap.new }
    ensures few { steps.new < steps.old + 2 ^ 23 }
    ensures counts { steps.old ≤ steps.new }
{
    // Its clause `sound` tells that there are few objects, and that their addresses are small.
    heap.page_count();
    let mut from = 0;
    'objects: while let Some(address) = heap.next_object(from) {
        pin_if_keeping(heap, address, steps);
        from = address + 1;
    }
}

/// Pins exactly the objects that a word of the stack names, and those that an object of style K holds in a field
/// (`rb_gc_mark` of CRuby 3.3), as fields are read: through the slots that objects left. All other pins are taken away. Each
/// object of style K costs one step. It takes no memory.
pub fn pin_now<L: Ledger>(heap: &mut Heap, stack: &Stack, steps: &mut Steps<L>)
    requires { steps.old < 2 ^ 62 }
    ensures pins { PinsNow heap.old heap.new stack.now }
    ensures few { steps.new < steps.old + 2 ^ 23 }
    ensures counts { steps.old ≤ steps.new }
{
    heap.unpin();
    pin_stack(heap, stack);
    pin_kept(heap, steps);
}
