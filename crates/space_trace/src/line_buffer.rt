// The line of a command, which is built before it is written.
ghost use Rattle.std.specs.Prelude.{◌≡◌, ◌≤◌, ◌+◌, ◌++◌, length};
ghost use Rattle.std.specs.Fmt.{decimal};
ghost use Rattle.arrayvec.specs.ArrayVec.{array_vec_len};
ghost use Rattle.space_model.specs.Spelling.{hex};

use crate::line_end::LineEnd;
use arrayvec::ArrayVec;
use itoa::Buffer;

/// A line takes no memory: the longest but for those of `stat` and `peek` has fewer bytes than this.
pub type LineBuffer = ArrayVec<u8, 128>;

/// Puts the text at the end.
pub fn put<const N: usize>(line: &mut ArrayVec<u8, N>, text: &[u8])
    requires { array_vec_len line.old + length text.now ≤ N }
    ensures items { line.new.items ≡ line.old.items ++ text.now }
    ensures len { array_vec_len line.new ≡ array_vec_len line.old + length text.now }
{
    if line.try_extend_from_slice(text).is_err() {
        unreachable!();
    }
}

/// Puts the number in base 10 at the end.
pub fn put_decimal<const N: usize>(line: &mut ArrayVec<u8, N>, number: u64)
    requires { array_vec_len line.old + 20 ≤ N }
    ensures items { line.new.items ≡ line.old.items ++ decimal number }
    ensures len { array_vec_len line.new ≤ array_vec_len line.old + 20 }
{
    let mut buffer = Buffer::new();
    put(line, buffer.format(number).as_bytes());
}

/// Puts the number in base 16 at the end, behind `0x`.
pub fn put_hex<const N: usize>(line: &mut ArrayVec<u8, N>, number: u64)
    requires { array_vec_len line.old + 18 ≤ N }
    ensures items { line.new.items ≡ line.old.items ++ hex number }
    ensures len { array_vec_len line.new ≤ array_vec_len line.old + 18 }
{
    let mut digits = LineEnd::new();
    digits.put_hex(number);
    put(line, digits.bytes());
}
