// The line of `peek`, which shows the stored words of an object.
ghost use Rattle.std.specs.Prelude.{◌≡◌, ◌≤◌, ◌<◌, ◌+◌, ◌*◌, ◌++◌, [], length};
ghost use Rattle.arrayvec.specs.ArrayVec.{array_vec_len};
ghost use Rattle.space_model.specs.Layout.{most_fields};
ghost use Rattle.space_model.specs.Spelling.{text_of_pieces, IsSpelled};
ghost use Rattle.space_model.specs.Texts.{stored_pieces, peek_pieces};

use crate::line_buffer::{put, put_hex};
use arrayvec::ArrayVec;

/// It has room for an address and 78 words, and takes no memory.
pub type PeekBuffer = ArrayVec<u8, 1536>;

// Puts the words at the end, each behind a space.
fn put_stored(line: &mut PeekBuffer, words: &[u64])
    requires { array_vec_len line.old + 19 * length words.now ≤ 1536 }
    ensures items { line.new.items ≡ line.old.items ++ text_of_pieces (stored_pieces words.now) }
    ensures len { array_vec_len line.new ≤ array_vec_len line.old + 19 * length words.now }
{
    for word in words {
        put(line, b" ");
        put_hex(line, *word);
    }
}

/// Puts the line of an object that stands at the address and has these stored words into an empty one.
pub fn put_peek(line: &mut PeekBuffer, address: u64, words: &[u64])
    requires empty { line.old.items ≡ [] }
    requires few { length words.now ≤ most_fields }
    ensures items { line.new.items ≡ text_of_pieces (peek_pieces address words.now) }
    ensures len { array_vec_len line.new < 1536 }
{
    put(line, b"at ");
    put_hex(line, address);
    put_stored(line, words);
}
