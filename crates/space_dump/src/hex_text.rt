// A number in base 16.
ghost use Rattle.std.specs.Prelude.{◌≡◌, ◌<◌, ◌≤◌, ◌==◌, ◌∷◌, [], false, length, codes, if◌then◌else◌};
ghost use Rattle.std.specs.Fmt.{digit_glyph};
ghost use Rattle.space_model.specs.Spelling.{hex_digits, hex};

use std::marker::Model;

/// The text of a number in base 16 behind `0x`, which is written from its end.
#[derive(Drop)]
pub struct HexText {
    bytes: [u8; 18],
    // Where it starts.
    start: usize,
}

impl Model for HexText {
    ghost use Rattle.std.specs.Prelude.{◌≡◌, ◌≤◌, ℕ, List, length, drop};

    ghost Value = { List ℕ };

    ghost view = { λ t. drop t.start t.bytes };

    ghost invariant = { λ t. (t.start ≤ 18) × (length t.bytes ≡ 18) };
}

// The digit's byte: `0` to `9` and `a` to `f`.
#[inline(always)]
fn glyph(digit: u8) -> u8
    requires { digit < 16 }
    ensures { result ≡ digit_glyph false digit }
{
    if digit < 10 {
        b'0' + digit
    } else {
        b'a' + (digit - 10)
    }
}

impl HexText {
    /// No text yet.
    #[inline(always)]
    pub fn new() -> HexText
        ensures { result ≡ [] }
    {
        HexText {
            bytes: [0; 18],
            start: 18,
        }
    }

    /// Puts the text of the number into an empty one.
    #[inline(always)]
    pub fn put(&mut self, number: u64)
        requires { self.old ≡ [] }
        ensures { self.new ≡ hex number }
    {
        self.put_number(number);
        self.push(b'x');
        self.push(b'0');
    }

    /// Its bytes.
    #[inline(always)]
    pub fn bytes(&self) -> &[u8]
        ensures { result.now ≡ self.now }
    {
        &self.bytes[self.start..]
    }

    // Puts the digits of the number into an empty text, one for 0.
    #[inline(always)]
    fn put_number(&mut self, number: u64)
        requires { self.old ≡ [] }
        ensures digits { self.new ≡ (if number == 0 then codes "0" else hex_digits number) }
        ensures few { length self.new ≤ 16 }
    {
        if number == 0 {
            self.push(b'0');
        } else {
            self.push_digits(number);
        }
    }

    // Puts a byte before it.
    #[inline(always)]
    fn push(&mut self, byte: u8)
        requires { length self.old < 18 }
        ensures { self.new ≡ byte ∷ self.old }
    {
        self.start -= 1;
        self.bytes[self.start] = byte;
    }

    // Puts the digits of the number into an empty text, and none for 0.
    #[inline(always)]
    fn push_digits(&mut self, number: u64)
        requires { self.old ≡ [] }
        ensures digits { self.new ≡ hex_digits number }
        ensures few { length self.new ≤ 16 }
    {
        let mut left = number;
        'digits: while left > 0 {
            self.push(glyph((left % 16) as u8));
            left /= 16;
        }
    }
}
