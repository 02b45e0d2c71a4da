// The stack of words.
ghost use Rattle.std.specs.Prelude.{◌≡◌, ◌++◌, ◌∷◌, [], reverse, slice_get, IfSome, IfNone, OnOk, OnErr};

use std::alloc::{AllocError as NoMemory, Global};
use std::marker::Model;

/// A stack of words, seen as the list of them from the bottom to the top.
#[derive(Drop)]
pub struct Stack {
    words: Vec<u64>,
}

impl Model for Stack {
    ghost use Rattle.std.specs.Prelude.{ℕ, List};

    ghost Value = { List ℕ };

    ghost view = { λ stack. stack.words.items };
}

impl Stack {
    /// No word is there yet. It takes no memory.
    pub fn new(alloc: Global) -> Stack
        ensures { result ≡ [] }
    {
        Stack {
            words: Vec::new(alloc),
        }
    }

    /// The word comes on top. An `Err` changes nothing.
    pub fn push(&mut self, word: u64) -> Result<(), NoMemory>
        ensures ok { OnOk result (self.new ≡ self.old ++ word ∷ []) }
        ensures err { OnErr result (self.new ≡ self.old) }
    {
        let Ok(()) = self.words.push(word) else {
            return Err(NoMemory);
        };
        Ok(())
    }

    /// Takes the top word away, or gives `None` where there is no word.
    pub fn pop(&mut self) -> Option<u64>
        ensures top { IfSome result (λ word. self.old ≡ self.new ++ word ∷ []) }
        ensures empty { IfNone result (self.old ≡ []) }
        ensures unchanged { IfNone result (self.new ≡ self.old) }
    {
        self.words.pop()
    }

    /// The word at a place from the top, of which the top's is 0, or `None` where there is no such word.
    pub fn word_at(&self, k: u64) -> Option<u64>
        ensures { result ≡ slice_get (reverse self.now) k }
    {
        let len = self.words.len() as u64;
        if k >= len {
            return None;
        }
        Some(self.words[(len - 1 - k) as usize])
    }

    /// The words, from the bottom to the top.
    pub fn words(&self) -> &[u64]
        ensures { result.now ≡ self.now }
    {
        self.words.as_slice()
    }

    /// Takes all words away.
    pub fn clear_all(&mut self)
        ensures { self.new ≡ [] }
    {
        self.words.clear();
    }
}

#[cfg(test)]
mod tests {
    use super::*;
    use std::test::Fail;

    #[test]
    fn places_count_from_the_top(rt: HostRuntime) -> Result<(), Fail> {
        let mut stack = Stack::new(rt.alloc());
        assert!(rt; stack.pop() == None && stack.word_at(0) == None);
        for word in [5, 7, 9] {
            assert!(rt; stack.push(word) == Ok(()));
            assert!(rt; stack.word_at(0) == Some(word));
        }

        // A place from the top, and its word.
        for (k, wanted) in [
            (0, Some(9)),
            (1, Some(7)),
            (2, Some(5)),
            (3, None),
            (u64::MAX, None),
        ] {
            assert!(rt; stack.word_at(k) == wanted, "at {k}");
        }
        assert!(rt; stack.words() == [5, 7, 9].as_slice());
        assert!(rt; stack.pop() == Some(9) && stack.word_at(0) == Some(7));
        stack.clear_all();
        assert!(rt; stack.words().is_empty() && stack.pop() == None);
        Ok(())
    }
}
