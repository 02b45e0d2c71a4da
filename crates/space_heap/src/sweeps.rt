// The planes and the pools at a verdict, and at the sweep of a page.
ghost use Rattle.std.specs.Prelude.{◌≡◌, ◌<◌, ℕ, true, false, ◌||◌, length, slice_set, vec_capacity, is_some, count_by, IsTrue, IsFalse};
ghost use Rattle.space_planes.specs.Planes.{bit};
ghost use Rattle.space_pools.specs.PoolsView.{pool_at, page_at, unswept_at, free_at, with_page, with_freed_page};
ghost use Rattle.space_pools.specs.Sound.{IsSoundPools};
ghost use Rattle.space_heap.specs.planes.MarkPlanes.{AreWide, marks_at, age_from, is_present};
ghost use Rattle.space_heap.specs.planes.SweptPlanes.{settled_age, IsSettled, swept_marks, waiting_page, HoldsPages, HasNoPooled, SweepsPage};
ghost use Rattle.space_heap.specs.Sweeping.{has_gone};
ghost use Rattle.space_heap.specs.Inside.{page_in, AreAllMarks};

use crate::marks::{Marks, marks_of, reset_page};
use space_planes::Plane;
use space_pools::Pools;
use std::mem::swap;

// Raises the age of each slot that is marked and protected by one, up to 3.
fn raise_ages(low: &mut Plane, high: &mut Plane, marked: &Plane, guard: &Plane)
    requires low { length low.old ≡ length marked.now }
    requires high { length high.old ≡ length marked.now }
    requires guard { length guard.now ≡ length marked.now }
    ensures low { length low.new ≡ length low.old }
    ensures high { length high.new ≡ length high.old }
    ensures ages { (s : ℕ) → age_from (bit low.new s) (bit high.new s) ≡ settled_age (bit marked.now s) (bit guard.now s) (bit low.old s) (bit high.old s) }
{
    marked.count_up(guard, low, high);
}

// The objects that aren't marked are gone, and each protected other one is older.
fn settle_page(marks: &mut Marks)
    requires { AreWide marks.old (length marks.old.object) }
    ensures { IsSettled marks.old marks.new }
{
    marks.object.and_not_into(&marks.marked, &mut marks.gone);
    raise_ages(
        &mut marks.age_low,
        &mut marks.age_high,
        &marks.marked,
        &marks.guard,
    );
}

// The objects of all pages that aren't marked are gone, and each protected other one is older.
pub fn settle_pages(marks: &mut Vec<Marks>)
    requires { (k : ℕ) → AreWide (marks_at marks.old.items k) (length (marks_at marks.old.items k).object) }
    ensures len { length marks.new.items ≡ length marks.old.items }
    ensures each { (k : ℕ) → IsSettled (marks_at marks.old.items k) (marks_at marks.new.items k) }
    ensures room { vec_capacity marks.new ≡ vec_capacity marks.old }
{
    'pages: for page in 0..marks.len() {
        settle_page(&mut marks[page]);
    }
}

// Makes a page wait for a sweep where it has a pool, and answers whether it has one.
fn hold(pools: &mut Pools, page: u32) -> bool
    requires { page < length pools.old.pages }
    ensures page { pools.new ≡ with_page pools.old page (waiting_page (page_at pools.old page)) }
    ensures pool { result ≡ is_some (pool_at pools.old page) }
{
    if pools.page_pool(page).is_none() {
        return false;
    }
    pools.hold_page(page);
    true
}

// Makes each page with a pool wait for a sweep, and answers whether there is one.
pub fn hold_pages(pools: &mut Pools) -> bool
    ensures held { HoldsPages pools.old pools.new }
    ensures some { result ≡ true → (k : ℕ) × (is_some (pool_at pools.old k) ≡ true) }
    ensures none { result ≡ false → HasNoPooled pools.old }
{
    let mut some = false;
    'pages: for page in 0..pools.page_count() {
        if hold(pools, page) {
            some = true;
        }
    }
    some
}

// Makes the slots of the gone objects of a page free.
fn free_gone(pools: &mut Pools, marks: &Marks, page: u32, working: &mut Plane)
    requires there { page < length pools.old.pages }
    requires unswept { unswept_at pools.old page ≡ true }
    requires wide { length marks.now.gone ≡ length (page_at pools.old page).slots }
    ensures page { pools.new ≡ with_freed_page pools.old page working.new }
    ensures bits { (s : ℕ) → bit working.new s ≡ (free_at pools.old page s || bit marks.now.gone s) }
    ensures len { length working.new ≡ length marks.now.gone }
    ensures sound { IsSoundPools pools.old }
{
    working.reset(marks.gone.len());
    pools.free_plane(page).or_into(&marks.gone, working);
    pools.free_page(page, working);
}

// The gone objects stand no more. What the working plane holds afterwards isn't told.
fn clear_gone(marks: &mut Marks, working: &mut Plane)
    requires wide { AreWide marks.old (length marks.old.object) }
    requires len { length working.old ≡ length marks.old.object }
    ensures { marks.new ≡ swept_marks marks.old }
{
    marks.object.and_not_into(&marks.gone, working);
    swap(&mut marks.object, working);
    marks.gone.fill(false);
}

// The gone objects of a page stand no more.
fn clear_gone_on(marks: &mut Vec<Marks>, page: u32, working: &mut Plane)
    requires there { page < length marks.old.items }
    requires wide { AreWide (marks_at marks.old.items page) (length (marks_at marks.old.items page).object) }
    requires len { length working.old ≡ length (marks_at marks.old.items page).object }
    ensures items { marks.new.items ≡ slice_set marks.old.items page (swept_marks (marks_at marks.old.items page)) }
    ensures room { vec_capacity marks.new ≡ vec_capacity marks.old }
{
    clear_gone(&mut marks[page as usize], working);
}

// Whether each object of the page is gone and no slot of it was left by one, so that its sweep makes it spare.
fn is_emptied(marks: &Marks) -> bool
    requires wide { AreWide marks.now (length marks.now.object) }
    requires gone { (s : ℕ) → bit marks.now.gone s ≡ true → bit marks.now.object s ≡ true }
    ensures empty { IsTrue result → (s : ℕ) → (is_present marks.now s || bit marks.now.moved s) ≡ false }
    ensures used { IsFalse result → (s : ℕ) × ((is_present marks.now s || bit marks.now.moved s) ≡ true) }
{
    if !marks.object.is_same(&marks.gone) {
        return false;
    }
    marks.moved.first_set_from(0).is_none()
}

// Sweeps a page, and answers how many slots of gone objects became free.
pub fn sweep_one(pools: &mut Pools, marks: &mut Vec<Marks>, page: u32, working: &mut Plane) -> u32
    requires there { page < length pools.old.pages }
    requires unswept { unswept_at pools.old page ≡ true }
    requires all { AreAllMarks pools.old marks.old.items }
    ensures swept { SweepsPage pools.old pools.new marks.old.items marks.new.items page }
    ensures gone { result ≡ count_by has_gone (page_in pools.old marks.old.items page).slots }
    ensures sound { IsSoundPools pools.old }
    ensures room { vec_capacity marks.new ≡ vec_capacity marks.old }
{
    let gone = marks_of(marks, page).gone.count();
    // A page that its sweep empties is made spare at once: its free slots need no links.
    if is_emptied(marks_of(marks, page)) {
        pools.release_page(page);
        reset_page(marks, page, 0);
        return gone;
    }
    free_gone(pools, marks_of(marks, page), page, working);
    clear_gone_on(marks, page, working);
    gone
}
