// The heap: the words of all pages with the marks of their slots.
ghost use Rattle.std.specs.Prelude.{◌≡◌, ◌<◌, ◌≤◌, length, IfOk};
ghost use Rattle.space_heap.specs.HeapView.{empty_heap, pool_at};
ghost use Rattle.space_heap.specs.SoundHeap.{IsSoundHeap};

mod allocating;
mod counting;
mod generations;
mod marking;
mod moving;
mod reading;
mod sweeping;
mod walking;
mod writing;

use crate::marks::Marks;
pub use reading::FieldReader;
use space_model::Phase;
use space_planes::{MOST_BITS, Plane};
use space_pools::Pools;
use std::alloc::{AllocError as NoMemory, Global};
use std::marker::Model;
pub use walking::{Found, Walk};

/// Objects at addresses, with their fields and the collector's marks.
#[derive(Drop)]
pub struct Heap {
    alloc: Global,
    pools: Pools,
    // The planes of each page.
    marks: Vec<Marks>,
    // The mark stack.
    grey: Vec<u64>,
    born: u64,
    minor_verdicts: u64,
    other_verdicts: u64,
    freed: u64,
    compactions: u64,
    moves: u64,
    phase: Phase,
    // In a compaction that corrects references, the end of the last object that was visited; else 0.
    cursor: u64,
    // The plane that a formula over a page is computed into.
    working: Plane,
}

impl Model for Heap {
    ghost use Rattle.space_heap.specs.HeapView.{HeapView};

    ghost Value = { HeapView };

    ghost use Rattle.space_heap.specs.Inside.{view_from, IsHeap};

    ghost view = { view_from };

    ghost invariant = { IsHeap };
}

/// An object that was allocated.
#[derive(Clone, Copy, Debug, PartialEq, Eq)]
pub struct Made {
    /// Its name: one more than the number of those allocated before.
    pub name: u64,
    /// The address of its slot, in bytes.
    pub address: u64,
}

/// Why no object was allocated.
#[derive(Clone, Copy, Debug, PartialEq, Eq)]
pub enum PlaceFault {
    /// No page of the pool has a free slot, but for those that wait for a sweep.
    NoSlot,
}

impl Heap {
    /// A heap without a page, which may get `limit` pages, 1 to 4,096 (this project's own). It takes
    /// the memory that verdicts and sweeps work in, so that they take none. An `Err` says that there was
    /// no memory for it.
    pub fn new(alloc: Global, limit: u32) -> Result<Heap, NoMemory>
        requires some { 1 ≤ limit }
        requires most { limit ≤ 4096 }
        ensures { IfOk result (λ heap. heap ≡ empty_heap limit) }
    {
        Ok(Heap {
            alloc,
            pools: Pools::new(alloc, limit)?,
            marks: Vec::with_capacity(alloc, limit as usize)?,
            grey: Vec::new(alloc),
            born: 0,
            minor_verdicts: 0,
            other_verdicts: 0,
            freed: 0,
            compactions: 0,
            moves: 0,
            phase: Phase::Idle,
            cursor: 0,
            working: Plane::new(alloc, MOST_BITS)?,
        })
    }

    /// The most pages that there may be.
    pub fn limit(&self) -> u32
        ensures { result ≡ self.now.limit }
    {
        self.pools.limit()
    }

    /// How many objects were ever allocated, which is the last name too.
    pub fn born(&self) -> u64
        ensures { result ≡ self.now.counters.born }
    {
        self.born
    }

    /// What the collector is at.
    pub fn phase(&self) -> Phase
        ensures { result ≡ self.now.phase }
    {
        self.phase
    }

    /// How many pages there are. The clause `sound` holds of every heap: who needs it calls this.
    #[tactic(auto, using(crate::proofs::fields::Views::reading))]
    pub fn page_count(&self) -> u32
        ensures count { result ≡ length self.now.pages }
        ensures limited { length self.now.pages ≤ self.now.limit }
        ensures sound { IsSoundHeap self.now }
    {
        self.pools.page_count()
    }

    /// The pool of a page, or `None` for a spare page. It is 0 to 4: the clause `sound` of `page_count`
    /// says so.
    #[tactic(auto, using(crate::proofs::fields::Views::reading))]
    pub fn page_pool(&self, page: u32) -> Option<u8>
        requires { page < length self.now.pages }
        ensures { result ≡ pool_at self.now page }
    {
        self.pools.page_pool(page)
    }
}
