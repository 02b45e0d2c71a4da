// The mark stack: the addresses of the grey objects.
ghost use Rattle.std.specs.Prelude.{◌≡◌, ◌<◌, ◌≤◌, ◌*◌, [], ◌∷◌, ◌++◌, vec_len, vec_capacity, OnOk};

use space_planes::MOST_BITS;
use std::alloc::AllocError as NoMemory;

// Makes sure that there is room for each slot of so many pages.
pub fn reserve_room(grey: &mut Vec<u64>, pages: usize) -> Result<(), NoMemory>
    requires { pages ≤ 4096 }
    ensures items { grey.new.items ≡ grey.old.items }
    ensures places { OnOk result (1638 * pages ≤ vec_capacity grey.new) }
    ensures room { vec_capacity grey.old ≤ vec_capacity grey.new }
{
    let wanted = MOST_BITS as usize * pages;
    grey.reserve(wanted.saturating_sub(grey.len()))
}

// Puts an address on top, in room that is there.
pub fn push_grey(grey: &mut Vec<u64>, address: u64)
    requires { vec_len grey.old < vec_capacity grey.old }
    ensures items { grey.new.items ≡ grey.old.items ++ address ∷ [] }
    ensures room { vec_capacity grey.old ≤ vec_capacity grey.new }
{
    grey.push_reserved(address);
}
