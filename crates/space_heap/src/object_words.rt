// The words of an object's slot.
ghost use Rattle.std.specs.Prelude.{◌≡◌, ◌<◌, ◌≤◌, ◌+◌, length, Some, true};
ghost use Rattle.space_pools.specs.PageSlots.{width_of};
ghost use Rattle.space_pools.specs.PoolsView.{pool_at, used_at, found_at, with_slot_at};
ghost use Rattle.space_heap.specs.words.ObjectWords.{style_number as number_of_style, style_from, object_words, with_word};

use space_model::{MOST_FIELDS, Style};
use space_pools::Pools;

// The number that stands for a style.
fn style_number(style: Style) -> u64
    ensures { result ≡ number_of_style style }
{
    match style {
        Style::Movable => 0,
        Style::Keeping => 1,
    }
}

// The style of an object by its first word.
pub fn style_in(first: u64) -> Style
    ensures { result ≡ style_from first }
{
    if first / 4 % 2 == 1 {
        Style::Keeping
    } else {
        Style::Movable
    }
}

// Writes every word of a new object whose fields are nil.
fn write_object(words: &mut [u64], fields: u64, style: Style, name: u64)
    requires wide { 2 ≤ length words.old }
    requires few { fields ≤ MOST_FIELDS }
    ensures { words.new ≡ object_words (length words.old) fields style name }
{
    words.fill(0);

    // Bit 0 tells an object from a free slot, bit 2 has the style, and the bits from 8 on have the number of fields.
    words[0] = 1 + 4 * style_number(style) + 256 * fields;
    words[1] = name;
}

// Writes every word of a new object into a slot.
pub fn write_slot(pools: &mut Pools, page: u32, slot: u32, fields: u64, style: Style, name: u64)
    requires used { used_at pools.old page slot ≡ true }
    requires few { fields ≤ MOST_FIELDS }
    ensures { pools.new ≡ with_slot_at pools.old page slot (Some (object_words (width_of (pool_at pools.old page)) fields style name)) }
{
    write_object(pools.slot_mut(page, slot), fields, style, name);
}

// Writes one word of a slot.
pub fn write_field(pools: &mut Pools, page: u32, slot: u32, i: u64, word: u64)
    requires used { used_at pools.old page slot ≡ true }
    requires within { 2 + i < width_of (pool_at pools.old page) }
    ensures { pools.new ≡ with_slot_at pools.old page slot (with_word i word (found_at pools.old page slot)) }
{
    let words = pools.slot_mut(page, slot);
    words[2 + i as usize] = word;
}
