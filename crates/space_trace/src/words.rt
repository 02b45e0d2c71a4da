// The words of a line, which one space parts, and its numbers.
ghost use Rattle.std.specs.Prelude.{◌≡◌, ◌<◌, ◌≤◌, ◌+◌, ◌++◌, [], ◌∷◌, ℕ, List, codes, length, take, drop, IsTrue, MatchOption};
ghost use Rattle.std.specs.Char.{digit_value};
ghost use Rattle.std.specs.List.{All};
ghost use Rattle.std.specs.Str.Parse.{digits_value};
ghost use Rattle.space_model.specs.Grammar.{IsNumber, IsHex, is_hex_digit};
ghost use Rattle.space_trace.specs.WordsLeft.{words_in, HasNoSpace, IsWordCut};

const SPACE: u8 = b' ';

// Where the first space is.
fn space_at(line: &[u8]) -> Option<usize>
    ensures { MatchOption result (HasNoSpace line.now) (λ i. IsWordCut line.now (take i line.now) (drop (i + 1) line.now) × (i < length line.now)) }
{
    for (i, b) in line.iter().enumerate() {
        if *b == SPACE {
            return Some(i);
        }
    }
    None
}

/// Takes the first word off what is left of a line. Nothing is left behind the last word, and an empty text behind
/// a space at the end.
pub fn next_word<'a>(rest: Option<&'a [u8]>) -> Option<(&'a [u8], Option<&'a [u8]>)>
    ensures { MatchOption result (words_in rest.entry ≡ []) (λ found. words_in rest.entry ≡ found.0.now ∷ words_in found.1) }
{
    let line = rest?;
    match space_at(line) {
        Some(i) => Some((&line[..i], Some(&line[i + 1..]))),
        None => Some((line, None)),
    }
}

/// The word, where exactly one is left.
pub fn one_word<'a>(rest: Option<&'a [u8]>) -> Option<&'a [u8]>
    ensures { MatchOption result ((a : List ℕ) → words_in rest.entry ≡ a ∷ [] → ⊥) (λ w. words_in rest.entry ≡ w.now ∷ []) }
{
    let (first, rest) = next_word(rest)?;
    if next_word(rest).is_some() {
        return None;
    }
    Some(first)
}

/// The words, where exactly two are left.
pub fn two_words<'a>(rest: Option<&'a [u8]>) -> Option<(&'a [u8], &'a [u8])>
    ensures { MatchOption result ((a b : List ℕ) → words_in rest.entry ≡ a ∷ b ∷ [] → ⊥) (λ w. words_in rest.entry ≡ w.0.now ∷ w.1.now ∷ []) }
{
    let (first, rest) = next_word(rest)?;
    let (second, rest) = next_word(rest)?;
    if next_word(rest).is_some() {
        return None;
    }
    Some((first, second))
}

/// The words, where exactly three are left.
pub fn three_words<'a>(rest: Option<&'a [u8]>) -> Option<(&'a [u8], &'a [u8], &'a [u8])>
    ensures { MatchOption result ((a b c : List ℕ) → words_in rest.entry ≡ a ∷ b ∷ c ∷ [] → ⊥) (λ w. words_in rest.entry ≡ w.0.now ∷ w.1.now ∷ w.2.now ∷ []) }
{
    let (first, rest) = next_word(rest)?;
    let (second, rest) = next_word(rest)?;
    let (third, rest) = next_word(rest)?;
    if next_word(rest).is_some() {
        return None;
    }
    Some((first, second, third))
}

/// The words, where exactly four are left.
pub fn four_words<'a>(rest: Option<&'a [u8]>) -> Option<(&'a [u8], &'a [u8], &'a [u8], &'a [u8])>
    ensures { MatchOption result ((a b c d : List ℕ) → words_in rest.entry ≡ a ∷ b ∷ c ∷ d ∷ [] → ⊥) (λ w. words_in rest.entry ≡ w.0.now ∷ w.1.now ∷ w.2.now ∷ w.3.now ∷ []) }
{
    let (first, rest) = next_word(rest)?;
    let (second, rest) = next_word(rest)?;
    let (third, rest) = next_word(rest)?;
    let (fourth, rest) = next_word(rest)?;
    if next_word(rest).is_some() {
        return None;
    }
    Some((first, second, third, fourth))
}

/// The number that the digits stand for.
pub fn read_number(text: &[u8]) -> Option<u64>
    ensures { MatchOption result ((number : ℕ) → IsNumber text.now number → ⊥) (λ number. IsNumber text.now number) }
{
    if text.is_empty() || text.len() > 20 {
        return None;
    }
    let mut number = 0u64;
    for b in text {
        if *b < 48 || *b > 57 {
            return None;
        }
        // 20 digits may be more than a u64 has.
        number = number.checked_mul(10)?.checked_add(u64::from(*b - 48))?;
    }
    Some(number)
}

// Whether the byte is a digit in base 16: `0` to `9` and `a` to `f`.
fn is_hex(b: u8) -> bool
    ensures { result ≡ is_hex_digit b }
{
    (48 <= b && b <= 57) || (97 <= b && b <= 102)
}

// The value of a digit in base 16.
fn hex_digit(b: u8) -> u64
    requires { IsTrue (is_hex_digit b) }
    ensures value { result ≡ digit_value b }
    ensures small { result < 16 }
{
    if b < 97 {
        u64::from(b - 48)
    } else {
        u64::from(b - 87)
    }
}

// The number that the digits in base 16 stand for.
fn hex_value(digits: &[u8]) -> u64
    requires digits { All (λ b. IsTrue (is_hex_digit b)) digits.now }
    requires short { length digits.now ≤ 16 }
    ensures { result ≡ digits_value 16 digits.now }
{
    let mut number = 0u64;
    for b in digits {
        number = number * 16 + hex_digit(*b);
    }
    number
}

// What follows `0x`.
fn after_prefix(text: &[u8]) -> Option<&[u8]>
    ensures { MatchOption result ((digits : List ℕ) → text.now ≡ codes "0x" ++ digits → ⊥) (λ digits. text.now ≡ codes "0x" ++ digits.now) }
{
    let (zero, rest) = text.split_first()?;
    let (x, digits) = rest.split_first()?;
    if *zero != b'0' || *x != b'x' {
        return None;
    }
    Some(digits)
}

/// The number in base 16 that the text stands for, with `0x` before its digits.
pub fn read_hex(text: &[u8]) -> Option<u64>
    ensures { MatchOption result ((number : ℕ) → IsHex text.now number → ⊥) (λ number. IsHex text.now number) }
{
    let digits = after_prefix(text)?;
    if digits.is_empty() || digits.len() > 16 || !digits.iter().all(|b| is_hex(*b)) {
        return None;
    }
    Some(hex_value(digits))
}
