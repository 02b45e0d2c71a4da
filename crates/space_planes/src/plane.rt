// One bit for each slot of a page.
ghost use Rattle.std.specs.Prelude.{◌≡◌, ◌↔◌, ◌<◌, ◌≤◌, IsTrue, true, false, length, replicate, slice_set, IfOk, MatchOption};
ghost use Rattle.space_planes.specs.Planes.{bit, count_set, set_in_both, set_in_either, set_in_first_only, IsCountedUp, IsClearFrom, IsFirstSet, IsClearBelow, IsLastSet};

use crate::formulas;
use std::alloc::{AllocError as NoMemory, Global};
use std::marker::Model;

/// The most bits of a plane, which are the slots of a page whose slots have 40 bytes, the least of
/// CRuby 3.3. A page has 65,536 bytes and no header (this project's own).
pub const MOST_BITS: u32 = 1638;

/// A plane of bits, one for each slot of a page. Bits are counted from 0, and 1 is `true`.
#[derive(Drop)]
pub struct Plane {
    bits: Vec<bool>,
}

impl Model for Plane {
    ghost use Rattle.std.specs.Prelude.{◌≤◌, Bool, List, vec_len, vec_capacity};

    ghost Value = { List Bool };

    ghost view = { λ p. p.bits.items };

    // With this room, a reset takes no memory.
    ghost invariant = { λ p. (vec_len p.bits ≤ 1638) × (1638 ≤ vec_capacity p.bits) };
}

impl Plane {
    /// A plane of so many bits, which are all 0. It takes the memory for `MOST_BITS` bits, and no other call
    /// takes any. An `Err` says that there was none.
    pub fn new(alloc: Global, bits: u32) -> Result<Plane, NoMemory>
        requires { bits ≤ MOST_BITS }
        ensures { IfOk result (λ plane. plane ≡ replicate bits false) }
    {
        let mut plane = Plane {
            bits: Vec::with_capacity(alloc, MOST_BITS as usize)?,
        };
        plane.reset(bits);
        Ok(plane)
    }

    /// Makes it a plane of so many bits, which are all 0. It takes no memory.
    pub fn reset(&mut self, bits: u32)
        requires { bits ≤ MOST_BITS }
        ensures { self.new ≡ replicate bits false }
    {
        self.bits.clear();
        if self.bits.resize(bits as usize, false).is_err() {
            unreachable!();
        }
    }

    /// How many bits the plane has.
    pub fn len(&self) -> u32
        ensures len { result ≡ length self.now }
        ensures most { result ≤ MOST_BITS }
    {
        self.bits.len() as u32
    }

    /// The bit at an index.
    pub fn get(&self, i: u32) -> bool
        requires { i < length self.now }
        ensures { result ≡ bit self.now i }
    {
        self.bits[i as usize]
    }

    /// Makes a bit 1.
    pub fn set(&mut self, i: u32)
        requires { i < length self.old }
        ensures { self.new ≡ slice_set self.old i true }
    {
        self.bits[i as usize] = true;
    }

    /// Makes a bit 0.
    pub fn clear(&mut self, i: u32)
        requires { i < length self.old }
        ensures { self.new ≡ slice_set self.old i false }
    {
        self.bits[i as usize] = false;
    }

    /// Gives every bit this value.
    pub fn fill(&mut self, bit: bool)
        ensures { self.new ≡ replicate (length self.old) bit }
    {
        self.bits.fill(bit);
    }

    /// Gives every bit the value that it has in another plane.
    pub fn copy_from(&mut self, other: &Plane)
        requires { length other.now ≡ length self.old }
        ensures { self.new ≡ other.now }
    {
        self.bits.copy_from_slice(&other.bits);
    }

    /// Whether another plane has the same bits.
    pub fn is_same(&self, other: &Plane) -> bool
        ensures { IsTrue result ↔ self.now ≡ other.now }
    {
        self.bits.as_slice() == other.bits.as_slice()
    }

    /// How many bits are 1.
    pub fn count(&self) -> u32
        ensures { result ≡ count_set self.now }
    {
        let mut count = 0;
        for bit in &self.bits {
            if *bit {
                count += 1;
            }
        }
        count
    }

    /// Writes 1 into `out` where `self` has 1 and `other` has 0, and 0 elsewhere.
    pub fn and_not_into(&self, other: &Plane, out: &mut Plane)
        requires other_len { length other.now ≡ length self.now }
        requires out_len { length out.old ≡ length self.now }
        ensures bits { out.new ≡ set_in_first_only self.now other.now }
        ensures len { length out.new ≡ length self.now }
    {
        formulas::and_not(&self.bits, &other.bits, &mut out.bits);
    }

    /// Writes 1 into `out` where both have 1, and 0 elsewhere.
    pub fn and_into(&self, other: &Plane, out: &mut Plane)
        requires other_len { length other.now ≡ length self.now }
        requires out_len { length out.old ≡ length self.now }
        ensures bits { out.new ≡ set_in_both self.now other.now }
        ensures len { length out.new ≡ length self.now }
    {
        formulas::and(&self.bits, &other.bits, &mut out.bits);
    }

    /// Writes 1 into `out` where one of them has 1, or both have, and 0 elsewhere.
    pub fn or_into(&self, other: &Plane, out: &mut Plane)
        requires other_len { length other.now ≡ length self.now }
        requires out_len { length out.old ≡ length self.now }
        ensures bits { out.new ≡ set_in_either self.now other.now }
        ensures len { length out.new ≡ length self.now }
    {
        formulas::or(&self.bits, &other.bits, &mut out.bits);
    }

    /// Counts up by one, to 3 at most, at each index where `self` has 1 and `skipped` has 0. A count is 0 to 3, and its bits
    /// are those of `low` and `high`.
    pub fn count_up(&self, skipped: &Plane, low: &mut Plane, high: &mut Plane)
        requires skipped { length skipped.now ≡ length self.now }
        requires low { length low.old ≡ length self.now }
        requires high { length high.old ≡ length self.now }
        ensures { IsCountedUp self.now skipped.now low.old high.old low.new high.new }
    {
        formulas::count_up(&self.bits, &skipped.bits, &mut low.bits, &mut high.bits);
    }

    /// The first index from `i` on whose bit is 1. Past the end there is none.
    // A walk over many bits asks for each of them.
    #[inline(always)]
    pub fn first_set_from(&self, i: u32) -> Option<u32>
        ensures { MatchOption result (IsClearFrom self.now i) (IsFirstSet self.now i) }
    {
        if i >= self.len() {
            return None;
        }
        // Bits that are 1 often stand side by side: then the next one is found at once.
        if self.get(i) {
            return Some(i);
        }
        let mut at = formulas::pass_clear(&self.bits, i as usize) as u32;
        while at < self.len() {
            if self.get(at) {
                return Some(at);
            }
            at += 1;
        }
        None
    }

    /// The last index below `i` whose bit is 1. Past the end there is none.
    pub fn last_set_below(&self, i: u32) -> Option<u32>
        ensures { MatchOption result (IsClearBelow self.now i) (IsLastSet self.now i) }
    {
        let mut at = i.min(self.len());
        while at > 0 {
            at -= 1;
            if self.get(at) {
                return Some(at);
            }
        }
        None
    }
}

#[cfg(test)]
mod tests {
    use super::*;
    use std::test::Fail;

    #[test]
    fn a_new_plane_has_so_many_bits_and_all_are_0(rt: HostRuntime) -> Result<(), Fail> {
        let plane = Plane::new(rt.alloc(), MOST_BITS)?;
        assert!(rt; plane.len() == MOST_BITS);
        assert!(rt; plane.count() == 0);
        Ok(())
    }

    #[test]
    fn each_call_on_two_small_planes(rt: HostRuntime) -> Result<(), Fail> {
        let alloc = rt.alloc();
        let mut left = Plane::new(alloc, 5)?;
        let mut right = Plane::new(alloc, 9)?;
        let mut out = Plane::new(alloc, 5)?;
        left.set(1);
        left.set(3);
        right.reset(5);
        right.fill(true);
        right.clear(3);
        assert!(rt; right.get(4) && !right.get(3));
        left.and_not_into(&right, &mut out);
        assert!(rt; out.count() == 1 && out.get(3));
        left.and_into(&right, &mut out);
        assert!(rt; out.count() == 1 && out.get(1));
        left.or_into(&right, &mut out);
        assert!(rt; out.count() == 5);
        out.copy_from(&left);
        assert!(rt; out.count() == 2 && out.get(1) && out.is_same(&left));
        let places = [
            (left.first_set_from(1), Some(1)),
            (left.first_set_from(2), Some(3)),
            (left.first_set_from(4), None),
            (left.last_set_below(5), Some(3)),
            (left.last_set_below(3), Some(1)),
            (left.last_set_below(1), None),
        ];
        for (found, wanted) in places {
            assert!(rt; found == wanted);
        }
        Ok(())
    }
}
