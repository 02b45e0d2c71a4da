// Pools, slots and addresses.
ghost use Rattle.std.specs.Prelude.{◌≡◌, ◌+◌, ◌<◌, ◌≤◌, MatchOption};
ghost use Rattle.space_model.specs.Layout.{slot_bytes as bytes_of_slot, page_slots as slots_of_page, fields_of as fields_of_pool, pool_for as pool_of_fields, slot_address};

/// The number of size pools (CRuby 3.3).
pub const POOLS: u8 = 5;

/// The most fields of an object, which are those of the last pool.
pub const MOST_FIELDS: usize = 78;

/// The bytes of a page (CRuby 3.3; that it has no header is this project's own).
pub const PAGE_BYTES: u64 = 65536;

/// The words of a page, of 8 bytes each.
pub const PAGE_WORDS: usize = 8192;

/// The most slots of a page, which are those of the first pool.
pub const MOST_PAGE_SLOTS: u32 = 1638;

/// The most pages that a limit may allow (this project's own).
pub const MOST_PAGES: u32 = 4096;

#[tactic(auto, unfolding(crate::specs::Layout::slot_bytes))]
/// The bytes of a slot of the pool: 40, 80, 160, 320 or 640 (CRuby 3.3).
pub fn slot_bytes(pool: u8) -> u64
    requires { pool < POOLS }
    ensures { result ≡ bytes_of_slot pool }
{
    match pool {
        0 => 40,
        1 => 80,
        2 => 160,
        3 => 320,
        4 => 640,
        _ => unreachable!(),
    }
}

#[tactic(auto, unfolding(crate::specs::Layout::slot_bytes, crate::specs::Layout::fields_of))]
/// The most fields of an object in the pool: the words of its slot, but for the first two.
pub fn fields_of(pool: u8) -> u64
    requires { pool < POOLS }
    ensures fields { result ≡ fields_of_pool pool }
    ensures last { 1 + pool ≡ POOLS → result ≡ MOST_FIELDS }
{
    match pool {
        0 => 3,
        1 => 8,
        2 => 18,
        3 => 38,
        4 => MOST_FIELDS as u64,
        _ => unreachable!(),
    }
}

#[tactic(auto, unfolding(crate::specs::Layout::slot_bytes, crate::specs::Layout::page_slots))]
/// The slots of a page of the pool. A page has no header (this project's own).
pub fn page_slots(pool: u8) -> u64
    requires { pool < POOLS }
    ensures { result ≡ slots_of_page pool }
{
    match pool {
        0 => u64::from(MOST_PAGE_SLOTS),
        1 => 819,
        2 => 409,
        3 => 204,
        4 => 102,
        _ => unreachable!(),
    }
}

#[tactic(auto, unfolding(crate::specs::Layout::pool_for))]
/// The first pool whose objects may have so many fields, or `None` where no object may.
pub fn pool_for(fields: u64) -> Option<u8>
    ensures { MatchOption result (MOST_FIELDS < fields) (λ pool. (pool ≡ pool_of_fields fields) × (fields ≤ MOST_FIELDS)) }
{
    match fields {
        0..=3 => Some(0),
        4..=8 => Some(1),
        9..=18 => Some(2),
        19..=38 => Some(3),
        39.. if fields <= MOST_FIELDS as u64 => Some(4),
        _ => None,
    }
}

#[tactic(auto, unfolding(crate::specs::Layout::slot_bytes, crate::specs::Layout::page_slots, crate::specs::Layout::slot_address))]
/// The address, in bytes, of a slot of a page whose pool this is. The page numbered 0 begins at `PAGE_BYTES` (this project's own).
pub fn address_of(page: u32, pool: u8, slot: u32) -> u64
    requires pool { pool < POOLS }
    requires page { page < MOST_PAGES }
    requires slot { slot < slots_of_page pool }
    ensures { result ≡ slot_address page pool slot }
{
    PAGE_BYTES * (u64::from(page) + 1) + slot_bytes(pool) * u64::from(slot)
}
