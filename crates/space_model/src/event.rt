// What happens in a command before it is answered.
use crate::Ident;

/// Which verdict ends a marking.
#[derive(Clone, Copy, Debug, PartialEq, Eq)]
pub enum Kind {
    /// It ends a minor marking.
    Minor,
    /// It ends a marking that went on over commands.
    Major,
    /// It ends a whole marking.
    Full,
}

/// A line that is written before the reply of a command.
#[derive(Clone, Copy, PartialEq, Eq)]
pub enum Event {
    /// The object with this name is gone.
    Gone { name: u64 },
    /// A verdict was given, and this many objects are gone by it.
    Verdict { kind: Kind, gone: u64 },
    /// The object with this name was moved from the first address to the second, both a number of bytes.
    Moved { name: u64, from: u64, to: u64 },
    /// The finalizer of the object with this name ran that was defined with this label.
    Ran { name: u64, label: Ident },
}
