// Values, and the words that stand for small integers.
ghost use Rattle.std.specs.Prelude.{◌≡◌, ◌<◌, ◌^◌, ℕ, MatchOption};
ghost use Rattle.space_model.specs.Words.{small_number_word, IsSmallWord};

/// What a field or a root holds.
#[derive(Clone, Copy, Debug, PartialEq, Eq)]
pub enum Value {
    /// Nil, whose word is 0 (this project's own).
    Nil,
    /// A small integer, which is below 2^62.
    Small(u64),
    /// The object with this name. Names are 1, 2, 3 in the order of allocation.
    Name(u64),
}

/// The word of a small integer: its low bit is 1, as in CRuby 3.3.
pub fn small_word(number: u64) -> u64
    requires { number < 2 ^ 62 }
    ensures { result ≡ small_number_word number }
{
    2 * number + 1
}

/// The small integer that a word stands for: an odd word below 2^63 stands for one, and no other word does.
pub fn small_of(word: u64) -> Option<u64>
    ensures { MatchOption result ((number : ℕ) → IsSmallWord word number → ⊥) (λ number. IsSmallWord word number) }
{
    if word % 2 == 1 && word < 1 << 63 {
        Some(word / 2)
    } else {
        None
    }
}
