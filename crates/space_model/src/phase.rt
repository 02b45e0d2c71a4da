// What the collector is at.

/// The phase of a space. The five phases and their order are this project's own.
#[derive(Clone, Copy, Debug, PartialEq, Eq)]
pub enum Phase {
    /// Nothing is under way.
    Idle,
    /// A marking goes on over commands.
    Marking,
    /// Some pages wait for a sweep.
    Sweeping,
    /// A compaction moves objects.
    Moving,
    /// A compaction corrects fields.
    Fixing,
}
