// A line of output, which is built from its end.
ghost use Rattle.std.specs.Prelude.{◌≡◌, ◌≤◌, ◌<◌, ◌+◌, ◌++◌, [], false, length};
ghost use Rattle.std.specs.Fmt.{digit_glyph, decimal};
ghost use Rattle.std.specs.Int.Digits.{digits_of};
ghost use Rattle.space_model.specs.Spelling.{hex_digits, hex};

use itoa::write_digits;
use std::marker::Model;

/// What stands at the end of a line. Pieces are put before it, the last one first, so that the digits of a number are
/// written where they stay. It takes no memory: the longest line of output has fewer bytes than its 72.
#[derive(Drop)]
pub struct LineEnd {
    bytes: [u8; 72],
    // Where it starts.
    start: usize,
}

impl Model for LineEnd {
    ghost use Rattle.std.specs.Prelude.{◌≡◌, ◌≤◌, ℕ, List, length, drop};

    ghost Value = { List ℕ };

    ghost view = { λ l. drop l.start l.bytes };

    ghost invariant = { λ l. (l.start ≤ 72) × (length l.bytes ≡ 72) };
}

// The digit's byte: `0` to `9` and `a` to `f`.
fn glyph(digit: u8) -> u8
    requires { digit < 16 }
    ensures { result ≡ digit_glyph false digit }
{
    if digit < 10 {
        b'0' + digit
    } else {
        b'a' + (digit - 10)
    }
}

impl LineEnd {
    /// Nothing yet.
    pub fn new() -> LineEnd
        ensures { result ≡ [] }
    {
        LineEnd {
            bytes: [0; 72],
            start: 72,
        }
    }

    /// Its bytes.
    pub fn bytes(&self) -> &[u8]
        ensures { result.now ≡ self.now }
    {
        &self.bytes[self.start..]
    }

    /// Puts the text before it.
    pub fn put(&mut self, text: &[u8])
        requires { length text.now + length self.old ≤ 72 }
        ensures { self.new ≡ text.now ++ self.old }
    {
        let start = self.start - text.len();
        self.bytes[start..self.start].copy_from_slice(text);
        self.start = start;
    }

    /// Puts the number before it, in base 10.
    pub fn put_decimal(&mut self, number: u64)
        requires { length self.old ≤ 52 }
        ensures items { self.new ≡ decimal number ++ self.old }
        ensures len { length self.new ≤ length self.old + 20 }
    {
        self.start = write_digits(number, &mut self.bytes, self.start);
    }

    // Puts the digits of the number before it, in base 16, and none for 0.
    fn put_hex_digits(&mut self, number: u64)
        requires { length (digits_of 16 number) + length self.old ≤ 72 }
        ensures items { self.new ≡ hex_digits number ++ self.old }
        ensures len { length self.new ≡ length (digits_of 16 number) + length self.old }
    {
        let mut left = number;
        'digits: while left > 0 {
            self.put(&[glyph((left % 16) as u8)]);
            left /= 16;
        }
    }

    /// Puts the number before it, in base 16 behind `0x`.
    pub fn put_hex(&mut self, number: u64)
        requires { length self.old ≤ 54 }
        ensures items { self.new ≡ hex number ++ self.old }
        ensures len { length self.new ≤ length self.old + 18 }
    {
        if number == 0 {
            self.put(b"0x0");
        } else {
            self.put_hex_digits(number);
            self.put(b"0x");
        }
    }
}
