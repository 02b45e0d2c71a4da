// The colours of a marking.

/// How far a marking has come with an object (the three colours of CRuby 3.3).
#[derive(Clone, Copy, Debug, PartialEq, Eq)]
pub enum Colour {
    /// Not marked.
    White,
    /// Marked, and its fields wait to be read.
    Grey,
    /// Marked, and its fields were read.
    Black,
}
