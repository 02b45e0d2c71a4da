// The names of roots, weak maps and finalizers.
ghost use Rattle.std.specs.Prelude.{◌≡◌, ◌↔◌, ◌≤◌, ◌-◌, ◌++◌, length, take, replicate, IsTrue, MatchOption};
ghost use Rattle.std.specs.Str.{bytes_eq};
ghost use Rattle.std.proofs.Common.{rules};
ghost use Rattle.std.specs.Cmp.Rules.{comparing, hashing};
ghost use Rattle.std.specs.Hash as fed;
ghost use Rattle.space_model.specs.Idents.{IsIdent, is_first_byte, is_later_byte};

use std::hash::{Hash, Hasher};
use std::marker::Model;

/// A name of 1 to 32 bytes: letters, digits and `_` of ASCII, of which the first is no digit. It isn't `nil`.
#[derive(Clone, Copy)]
pub struct Ident {
    // The bytes past the length are 0.
    bytes: [u8; 32],
    len: u8,
}

impl Model for Ident {
    ghost use Rattle.std.specs.Prelude.{ℕ, List, length, replicate, take, ◌++◌, ◌-◌};

    ghost Value = { List ℕ };

    ghost use Rattle.space_model.specs.StoredIdents.{IsStored, stored_back};

    ghost view = { λ a. take a.len a.bytes };

    ghost invariant = { λ a. IsStored a.bytes a.len };

    ghost inverse = { λ text. record { bytes = text ++ replicate (32 - length text) 0; len = length text } };

    ghost inverse_ok = { stored_back };
}

// Whether the byte may stand first.
fn is_first(b: u8) -> bool
    ensures { result ≡ is_first_byte b }
{
    (97 <= b && b <= 122) || ((65 <= b && b <= 90) || b == 95)
}

// Whether the byte may stand after the first.
fn is_later(b: u8) -> bool
    ensures { result ≡ is_later_byte b }
{
    is_first(b) || (48 <= b && b <= 57)
}

// Whether the text is a name.
fn is_ident(text: &[u8]) -> bool
    ensures { IsTrue result ↔ IsIdent text.now }
{
    if text.is_empty() || text.len() > 32 {
        return false;
    }
    is_first(text[0]) && text.iter().all(|b| is_later(*b)) && text != b"nil".as_slice()
}

impl Ident {
    /// The name that the text is, or `None` where it is none.
    pub fn read(text: &[u8]) -> Option<Ident>
        ensures { MatchOption result (IsIdent text.now → ⊥) (λ ident. (ident ≡ text.now) × IsIdent text.now) }
    {
        if !is_ident(text) {
            return None;
        }
        let mut bytes = [0; 32];
        bytes[..text.len()].copy_from_slice(text);
        Some(Ident {
            bytes,
            len: text.len() as u8,
        })
    }

    /// The text of the name.
    pub fn bytes(&self) -> &[u8]
        ensures text { result.now ≡ self.now }
        ensures ident { IsIdent self.now }
    {
        &self.bytes[..usize::from(self.len)]
    }
}

impl PartialEq for Ident {
    ghost eq = { bytes_eq };

    ghost laws = { Prim.search (comparing, rules) };

    fn eq(&self, other: &Ident) -> bool {
        self.bytes() == other.bytes()
    }
}

impl Eq for Ident {
    ghost laws = { Prim.search (comparing, rules) };
}

impl Hash for Ident {
    ghost hash_input = { fed.slice fed.u8 };

    ghost respects_eq = { Prim.search (hashing, rules) };

    fn hash<H: Hasher>(&self, state: &mut H) {
        self.bytes().hash(state);
    }
}
