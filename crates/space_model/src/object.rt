// What an object has besides its fields.

/// Whether stores into an object go through the write barrier (CRuby 3.3; Sasada 2019).
///
/// An unprotected object is stored into without telling the collector, and is never promoted.
#[derive(Clone, Copy, Debug, PartialEq, Eq)]
pub enum Guard {
    /// Write-barrier protected.
    Protected,
    /// Write-barrier unprotected.
    Unprotected,
}

/// How an object marks its children: `rb_gc_mark_movable` and `rb_gc_mark` of CRuby 3.3.
#[derive(Clone, Copy, Debug, PartialEq, Eq)]
pub enum Style {
    /// Its children may be moved by a compaction.
    Movable,
    /// It pins its children.
    Keeping,
}
