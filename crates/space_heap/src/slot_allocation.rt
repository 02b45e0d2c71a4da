// The slot of a new object.
ghost use Rattle.std.specs.Prelude.{◌≡◌, ◌<◌, ◌≤◌, ◌^◌, Some, MatchOption, IfSome};
ghost use Rattle.space_model.specs.Layout.{pool_for as pool_of_fields};
ghost use Rattle.space_pages.specs.Slots.{words_of};
ghost use Rattle.space_pools.specs.Free.{IsLeastFree, HasNoFree};
ghost use Rattle.space_pools.specs.Sound.{IsSoundPools};
ghost use Rattle.space_heap.specs.words.ObjectWords.{object_words};
ghost use Rattle.space_heap.specs.words.SlotPlaces.{IsSlotAt, SlotChanged};

use crate::addresses::find_slot;
use crate::object_words::write_slot;
use space_model::{MOST_FIELDS, POOLS, Style, pool_for};
use space_pools::Pools;

// Where a new object stands.
#[derive(Clone, Copy)]
pub struct AllocatedSlot {
    pub address: u64,
    pub page: u32,
    pub slot: u32,
}

// The pool of an object with so many fields.
pub fn pool_of(fields: u64) -> u8
    requires { fields ≤ MOST_FIELDS }
    ensures pool { result ≡ pool_of_fields fields }
    ensures known { result < POOLS }
{
    match pool_for(fields) {
        Some(pool) => pool,
        None => unreachable!(),
    }
}

// Writes a new object into the slot at the lowest free address of its pool.
pub fn allocate_slot(
    pools: &mut Pools,
    fields: u64,
    style: Style,
    name: u64,
) -> Option<AllocatedSlot>
    requires { fields ≤ MOST_FIELDS }
    ensures lowest { MatchOption result (HasNoFree pools.old (pool_of_fields fields)) (λ allocated. IsLeastFree pools.old (pool_of_fields fields) allocated.address) }
    ensures at { IfSome result (λ allocated. IsSlotAt pools.old allocated.address allocated.page allocated.slot) }
    ensures written { MatchOption result (pools.new ≡ pools.old) (λ allocated. SlotChanged pools.old pools.new allocated.page allocated.slot (Some (object_words (words_of (pool_of_fields fields)) fields style name))) }
    ensures sound { IsSoundPools pools.old }
{
    match pools.take(pool_of(fields)) {
        Some(address) => match find_slot(pools, address) {
            Some((page, slot)) => {
                write_slot(pools, page, slot, fields, style, name);
                Some(AllocatedSlot {
                    address,
                    page,
                    slot,
                })
            }
            None => unreachable!(),
        },
        None => None,
    }
}
