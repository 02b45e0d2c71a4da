// Moves of objects.
ghost use Rattle.std.specs.Prelude.{◌≡◌, ◌+◌, ◌<◌, ◌≤◌, ◌^◌, ℕ, [], true, false, MatchOption};
ghost use Rattle.space_heap.specs.LastMovable.{is_movable_in};
ghost use Rattle.space_compact.specs.Moves.{IsPackedIn, IsPacked, IsMoveIn, IsNextMove, AreFingers, room_of, Moves};

use space_heap::Heap;
use space_model::{PAGE_BYTES, POOLS};

/// How far the moves of one command have come: the pools below `pool` are packed, and in it each object that can be moved stands
/// below `high` (one of the two fingers of CRuby 3.3; the other one is the lowest free address). They hold while the pins
/// stay, so for one command.
#[derive(Clone, Copy)]
pub struct Fingers {
    /// The pool that comes next.
    pub pool: u8,
    /// The address below which its objects that can be moved stand.
    pub high: u64,
}

// A move that can be made: of the highest object of the pool that can be moved, to the pool's lowest free address.
#[derive(Clone, Copy)]
struct Move {
    pool: u8,
    from: u64,
    to: u64,
}

/// A move that was made.
#[derive(Clone, Copy, Debug, PartialEq, Eq)]
pub struct Moved {
    /// The object's name.
    pub name: u64,
    /// The address that it left.
    pub from: u64,
    /// Its address now.
    pub to: u64,
}

// The move of a pool, of an object below `high`.
fn move_in(heap: &Heap, pool: u8, high: u64) -> Option<Move>
    requires known { pool < POOLS }
    requires below { (a : ℕ) → is_movable_in heap.now pool a ≡ true → a < high }
    ensures { MatchOption result (IsPackedIn heap.now pool) (λ m. (m.pool ≡ pool) × (m.from < high) × IsMoveIn heap.now m.pool m.from m.to) }
{
    match heap.lowest_free(pool) {
        Some(to) => match heap.last_movable(pool, high) {
            Some(from) if to < from => Some(Move { pool, from, to }),
            _ => None,
        },
        None => None,
    }
}

// Fingers at the top of a pool.
fn begin_pool(heap: &Heap, pool: u8) -> Fingers
    requires { (before : ℕ) → before < pool → IsPackedIn heap.now before }
    ensures pool { result.pool ≡ pool }
    ensures fingers { AreFingers heap.now result }
{
    // The first page begins at PAGE_BYTES.
    let high = (heap.page_count() as u64 + 1) * PAGE_BYTES;
    Fingers { pool, high }
}

/// Fingers at the top of the first pool, for the moves of one command. That pools are packed one after another is this
/// project's own.
pub fn begin_moves(heap: &Heap) -> Fingers
    ensures { AreFingers heap.now result }
{
    begin_pool(heap, 0)
}

// The next move, or `None` where the heap is packed.
fn next_move(heap: &Heap, fingers: &mut Fingers) -> Option<Move>
    requires { AreFingers heap.now fingers.old }
    ensures next { MatchOption result (IsPacked heap.now) (λ m. IsNextMove heap.now m.pool m.from m.to) }
    ensures fingers { AreFingers heap.now fingers.new }
    ensures above { MatchOption result (POOLS ≤ fingers.new.pool) (λ m. (fingers.new.pool ≡ m.pool) × (fingers.new.high ≡ m.from + 1)) }
    ensures room { room_of fingers.new ≤ room_of fingers.old }
{
    'pools: while fingers.pool < POOLS {
        if let Some(found) = move_in(heap, fingers.pool, fingers.high) {
            fingers.high = found.from + 1;
            return Some(found);
        }
        *fingers = begin_pool(heap, fingers.pool + 1);
    }
    None
}

/// Whether the heap is packed: in no pool an object that can be moved stands above a free slot, so that the two fingers have met
/// in each (CRuby 3.3). Over the calls of one command with the same fingers each slot is looked at once.
pub fn packed(heap: &Heap, fingers: &mut Fingers) -> bool
    requires { AreFingers heap.now fingers.old }
    ensures packed { result ≡ true → IsPacked heap.now }
    ensures not_packed { result ≡ false → IsPacked heap.now → ⊥ }
    ensures fingers { AreFingers heap.now fingers.new }
    ensures room { room_of fingers.new ≤ room_of fingers.old }
{
    next_move(heap, fingers).is_none()
}

/// Makes the next move, or answers `None` where the heap is packed, and then changes nothing. It is the move of the highest
/// object that can be moved to the lowest free address of its pool (the two fingers and `T_MOVED` of CRuby 3.3), in the first
/// pool that isn't packed (this project's own). It takes no memory.
pub fn move_one(heap: &mut Heap, fingers: &mut Fingers) -> Option<Moved>
    requires fingers { AreFingers heap.old fingers.old }
    requires none_grey { heap.old.grey ≡ [] }
    requires few { heap.old.counters.moves < 2 ^ 62 }
    ensures moves { MatchOption result (IsPacked heap.old) (Moves heap.old heap.new) }
    ensures lower { MatchOption result (heap.new ≡ heap.old) (λ moved. moved.to < moved.from) }
    ensures fingers { AreFingers heap.new fingers.new }
    ensures room { MatchOption result (room_of fingers.new ≤ room_of fingers.old) (λ _. room_of fingers.new < room_of fingers.old) }
{
    match next_move(heap, fingers) {
        Some(next) => {
            let name = heap.name(next.from);
            heap.relocate(next.from, next.to);
            fingers.high = next.from;
            Some(Moved {
                name,
                from: next.from,
                to: next.to,
            })
        }
        None => None,
    }
}
