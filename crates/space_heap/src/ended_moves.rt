// The words and the planes after the moves of a compaction ended.
ghost use Rattle.std.specs.Prelude.{◌≡◌, ◌<◌, ℕ, ◌||◌, true, is_some, length, slice_set, vec_capacity};
ghost use Rattle.space_planes.specs.Planes.{bit};
ghost use Rattle.space_pools.specs.PoolsView.{page_at, pool_at, free_at, with_freed_page};
ghost use Rattle.space_heap.specs.Inside.{AreAllMarks};
ghost use Rattle.space_heap.specs.planes.MarkPlanes.{marks_at};
ghost use Rattle.space_heap.specs.planes.MovedMarks.{ended_marks, EndsPage, EndsPages};

use crate::marks::{Marks, marks_of, reset_page};
use space_planes::Plane;
use space_pools::Pools;

// Makes the slots of a page that objects left free.
fn free_left(pools: &mut Pools, marks: &Marks, page: u32, working: &mut Plane)
    requires there { page < length pools.old.pages }
    requires pool { is_some (pool_at pools.old page) ≡ true }
    requires wide { length marks.now.moved ≡ length (page_at pools.old page).slots }
    ensures page { pools.new ≡ with_freed_page pools.old page working.new }
    ensures bits { (s : ℕ) → bit working.new s ≡ (free_at pools.old page s || bit marks.now.moved s) }
{
    working.reset(marks.moved.len());
    pools.free_plane(page).or_into(&marks.moved, working);
    pools.free_page(page, working);
}

// No slot of the page is one that an object left any more.
fn forget_left(marks: &mut Vec<Marks>, page: u32)
    requires { page < length marks.old.items }
    ensures items { marks.new.items ≡ slice_set marks.old.items page (ended_marks (marks_at marks.old.items page)) }
    ensures room { vec_capacity marks.new ≡ vec_capacity marks.old }
{
    marks[page as usize].moved.fill(false);
}

// Makes the slots of a page with a pool free that objects left, and the page spare where no object is on it.
fn end_pooled(pools: &mut Pools, marks: &mut Vec<Marks>, page: u32, working: &mut Plane)
    requires there { page < length pools.old.pages }
    requires pool { is_some (pool_at pools.old page) ≡ true }
    requires all { AreAllMarks pools.old marks.old.items }
    ensures ended { EndsPage pools.old pools.new marks.old.items marks.new.items page }
    ensures room { vec_capacity marks.new ≡ vec_capacity marks.old }
{
    // The free slots of a page that is made spare need no links.
    if marks_of(marks, page).object.first_set_from(0).is_none() {
        pools.release_page(page);
        reset_page(marks, page, 0);
        return;
    }
    free_left(pools, marks_of(marks, page), page, working);
    forget_left(marks, page);
}

// The same of any page: nothing changes where it is spare.
fn end_page(pools: &mut Pools, marks: &mut Vec<Marks>, page: u32, working: &mut Plane)
    requires there { page < length pools.old.pages }
    requires all { AreAllMarks pools.old marks.old.items }
    ensures ended { EndsPage pools.old pools.new marks.old.items marks.new.items page }
    ensures room { vec_capacity marks.new ≡ vec_capacity marks.old }
{
    if pools.page_pool(page).is_none() {
        return;
    }
    end_pooled(pools, marks, page, working);
}

// The same of all pages.
pub fn end_pages(pools: &mut Pools, marks: &mut Vec<Marks>, working: &mut Plane)
    requires { AreAllMarks pools.old marks.old.items }
    ensures ended { EndsPages pools.old pools.new marks.old.items marks.new.items }
    ensures room { vec_capacity marks.new ≡ vec_capacity marks.old }
{
    'pages: for page in 0..pools.page_count() {
        end_page(pools, marks, page, working);
    }
}
