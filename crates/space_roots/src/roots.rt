// The roots, in the order in which they were made.
ghost use Rattle.std.specs.Prelude.{◌≡◌, ◌<◌, ◌^◌, ◌∷◌, ◌++◌, [], length, slice_get, is_none, is_some, None, Some, true, false, IfOk, OnOk, OnErr, IsSome, Ok};
ghost use Rattle.std.specs.List.{IsDistinct};
ghost use Rattle.std.specs.Str.{bytes_eq};
ghost use Rattle.space_roots.specs.WordRoots.{root_word, root_idents, root_words, with_root_word, with_word_at, without_root};

use indexmap::IndexMap;
use space_model::Ident;
use std::alloc::{AllocError as NoMemory, Global};
use std::marker::Model;

/// The names of roots and the words that they hold, seen as a list of pairs.
#[derive(Drop)]
pub struct Roots {
    map: IndexMap<Ident, u64>,
}

impl Model for Roots {
    ghost use Rattle.std.specs.Prelude.{ℕ, List};

    ghost Value = { List (List ℕ × ℕ) };

    ghost view = { λ roots. roots.map.entries };
}

impl Roots {
    /// No root is there yet. It takes no memory.
    pub fn new(alloc: Global) -> Roots
        ensures { result ≡ [] }
    {
        Roots {
            map: IndexMap::new(alloc),
        }
    }

    /// The number of roots.
    pub fn len(&self) -> usize
        ensures len { result ≡ length self.now }
        ensures small { result < 2 ^ 63 }
        // No two roots have one name.
        ensures distinct { IsDistinct bytes_eq (root_idents self.now) }
    {
        self.map.len()
    }

    /// The word that the root holds, or `None` where there is no such root.
    pub fn get(&self, name: Ident) -> Option<u64>
        ensures { result ≡ root_word self.now name }
    {
        self.map.get(&name).copied()
    }

    /// Makes sure that there is such a root, so that a `set` of it can't fail. A new one comes last, with the word 0. The answer is
    /// whether it is new. Only a new one wants memory, and an `Err` changes nothing.
    pub fn reserve_for(&mut self, name: Ident) -> Result<bool, NoMemory>
        ensures answer { IfOk result (λ added. added ≡ is_none (root_word self.old name)) }
        ensures added { result ≡ Ok true → self.new ≡ self.old ++ (name, 0) ∷ [] }
        ensures kept { result ≡ Ok false → self.new ≡ self.old }
        ensures there { OnOk result (IsSome (root_word self.new name)) }
        ensures err { OnErr result (self.new ≡ self.old) }
        ensures absent { OnErr result (root_word self.old name ≡ None) }
    {
        if self.get(name).is_some() {
            return Ok(false);
        }
        self.set(name, 0)?;
        Ok(true)
    }

    /// The root holds the word; a new one comes last. Only a new one wants memory, and an `Err` changes nothing.
    pub fn set(&mut self, name: Ident, word: u64) -> Result<(), NoMemory>
        ensures ok { OnOk result (self.new ≡ with_root_word self.old name word) }
        ensures err { OnErr result (self.new ≡ self.old) }
        ensures absent { OnErr result (root_word self.old name ≡ None) }
    {
        let Ok(_) = self.map.insert(name, word) else {
            return Err(NoMemory);
        };
        Ok(())
    }

    /// Takes the root away, where there is one, and the others keep their order. The answer is whether there was one.
    pub fn drop_root(&mut self, name: Ident) -> bool
        ensures answer { result ≡ is_some (root_word self.old name) }
        ensures rest { self.new ≡ without_root self.old name }
        ensures gone { root_word self.new name ≡ None }
    {
        self.map.shift_remove(&name).is_some()
    }

    /// The word of the root at an index.
    pub fn at(&self, k: usize) -> u64
        requires { k < length self.now }
        ensures { slice_get (root_words self.now) k ≡ Some result }
    {
        self.map[k]
    }

    /// The root at an index holds the word. The names and the other words stay.
    pub fn put_at(&mut self, k: usize, word: u64)
        requires { k < length self.old }
        ensures written { self.new ≡ with_word_at self.old k word }
        ensures names { root_idents self.new ≡ root_idents self.old }
        ensures len { length self.new ≡ length self.old }
    {
        self.map[k] = word;
    }

    /// Takes all roots away.
    pub fn clear_all(&mut self)
        ensures { self.new ≡ [] }
    {
        self.map.clear();
    }
}

#[cfg(test)]
mod tests {
    use super::*;
    use std::test::Fail;

    fn name(text: &[u8]) -> Result<Ident, Fail> {
        let Some(name) = Ident::read(text) else {
            return Err(Fail::from("not a name"));
        };
        Ok(name)
    }

    // Whether these are the words of all roots, in order.
    fn hold(roots: &Roots, words: &[u64]) -> bool {
        if roots.len() != words.len() {
            return false;
        }
        for k in 0..words.len() {
            if roots.at(k) != words[k] {
                return false;
            }
        }
        true
    }

    #[test]
    fn roots_stand_in_the_order_of_their_making(rt: HostRuntime) -> Result<(), Fail> {
        let mut roots = Roots::new(rt.alloc());
        let a = name(b"a")?;
        let b = name(b"b")?;
        let c = name(b"c")?;

        // A name, the answer for it, and the words after.
        let reserved: [(Ident, bool, &[u64]); 4] = [
            (a, true, &[0]),
            (b, true, &[0, 0]),
            (a, false, &[0, 0]),
            (c, true, &[0, 0, 0]),
        ];
        for (name, is_new, words) in reserved {
            assert!(rt; roots.reserve_for(name) == Ok(is_new));
            assert!(rt; hold(&roots, words));
        }

        // A name, its word, and the words after.
        let written: [(Ident, u64, &[u64]); 4] = [
            (c, 7, &[0, 0, 7]),
            (a, 5, &[5, 0, 7]),
            (b, 3, &[5, 3, 7]),
            (a, 9, &[9, 3, 7]),
        ];
        for (name, word, words) in written {
            assert!(rt; roots.set(name, word) == Ok(()));
            assert!(rt; roots.get(name) == Some(word));
            assert!(rt; hold(&roots, words));
        }

        assert!(rt; roots.drop_root(a) && !roots.drop_root(a));
        assert!(rt; roots.get(a) == None && hold(&roots, &[3, 7]));
        assert!(rt; roots.set(a, 1) == Ok(()));
        if roots.len() == 3 {
            roots.put_at(1, 8);
        }
        assert!(rt; hold(&roots, &[3, 8, 1]));
        roots.clear_all();
        assert!(rt; roots.get(c) == None && hold(&roots, &[]));
        Ok(())
    }
}
