// The words of the command line.
ghost use Rattle.std.specs.Prelude.{◌≡◌, ◌<◌, ◌↔◌, ℕ, List, Some, IsTrue, MatchOption, map, slice_get, vec_len};
ghost use Rattle.std.specs.String.{string_bytes};
ghost use Rattle.space_model.specs.Grammar.{IsNumber};
ghost use Rattle.space_run.specs.Replays.{IsReplay};

use space_trace::read_number;

/// The most pages of a space, where the words say nothing of them.
const PAGES: u32 = 256;

/// The most pages that the words may allow.
const MOST_PAGES: u64 = 4096;

// Whether the word at a place is this text.
fn is_word(words: &Vec<String>, place: usize, text: &str) -> bool
    requires { place < vec_len words.now }
    ensures { IsTrue result ↔ (slice_get (map string_bytes words.now.items) place ≡ Some text.now) }
{
    words[place].as_str() == text
}

// The number that the word at a place is.
fn number_at(words: &Vec<String>, place: usize) -> Option<u64>
    requires { place < vec_len words.now }
    ensures { (digits : List ℕ) → slice_get (map string_bytes words.now.items) place ≡ Some digits →
        MatchOption result ((number : ℕ) → IsNumber digits number → ⊥) (IsNumber digits) }
{
    read_number(words[place].as_bytes())
}

// The most pages of the space, where the words are those of a replay.
pub fn page_limit(words: &Vec<String>) -> Option<u32>
    ensures { MatchOption result ((limit : ℕ) → IsReplay words.now.items limit → ⊥) (IsReplay words.now.items) }
{
    if words.is_empty() || !is_word(words, 0, "replay") {
        return None;
    }
    if words.len() == 1 {
        return Some(PAGES);
    }
    if words.len() != 3 || !is_word(words, 1, "--pages") {
        return None;
    }
    let pages = number_at(words, 2)?;
    if pages == 0 || pages > MOST_PAGES {
        return None;
    }
    Some(pages as u32)
}
