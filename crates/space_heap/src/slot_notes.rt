// How many objects of a page aren't gone, and how many of these are old, or kept.
ghost use Rattle.std.specs.Prelude.{◌≡◌, ◌<◌, ◌≤◌, ◌+◌, if◌then◌else◌, length, count_by};
ghost use Rattle.std.specs.List.{range_with_len};
ghost use Rattle.space_planes.specs.Planes.{count_set};
ghost use Rattle.space_heap.specs.planes.MarkPlanes.{AreWide};
ghost use Rattle.space_heap.specs.planes.CountedSlots.{is_noted_in};

use crate::marks::Marks;

// What the planes note of an object: that it is old, or that it is kept.
#[derive(Clone, Copy)]
pub enum Note {
    Old,
    Kept,
}

// 1 where it is so.
fn one_if(so: bool) -> u32
    ensures one { result ≡ (if so then 1 else 0) }
    ensures few { result ≤ 1 }
{
    u32::from(so)
}

impl Marks {
    // How many objects of the page aren't gone.
    pub fn present_count(&self) -> u32
        requires { count_set self.now.gone ≤ count_set self.now.object }
        ensures { result + count_set self.now.gone ≡ count_set self.now.object }
    {
        self.object.count() - self.gone.count()
    }

    // Whether the slot holds an object that isn't gone and is so.
    fn is_noted(&self, note: Note, s: u32) -> bool
        requires wide { AreWide self.now (length self.now.object) }
        requires within { s < length self.now.object }
        ensures { result ≡ is_noted_in note self.now s }
    {
        match note {
            Note::Old => {
                let old = self.age_low.get(s) && self.age_high.get(s) && !self.guard.get(s);
                self.is_present(s) && old
            }
            Note::Kept => self.is_present(s) && self.kept.get(s),
        }
    }

    // How many slots of the page hold an object that isn't gone and is so.
    pub fn noted_count(&self, note: Note) -> u32
        requires { AreWide self.now (length self.now.object) }
        ensures { result ≡ count_by (is_noted_in note self.now) (range_with_len 0 (length self.now.object)) }
    {
        let mut count = 0;
        'slots: for s in 0..self.object.len() {
            count += one_if(self.is_noted(note, s));
        }
        count
    }
}
