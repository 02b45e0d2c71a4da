// What a command is answered.
use crate::{Stat, Value};

/// Why a command was refused. The refusal that stands first here is the answer, where several apply.
#[derive(Clone, Copy, Debug, PartialEq, Eq)]
pub enum Refusal {
    /// An object can't have so many fields.
    TooLarge,
    /// An operand is no root.
    NoRoot,
    /// The stack has no word at that place.
    NoWord,
    /// An object is needed and the value is none, or a value is needed and the stack word has none.
    NotObject,
    /// The object has no such field.
    NoField,
    /// The write barrier protects the object.
    Protected,
    /// The id was never given.
    NoId,
    /// No major marking is under way.
    NotMarking,
    /// No compaction is under way that could do this.
    NotCompacting,
}

/// The last line of a command.
#[derive(Clone, Copy, Debug, PartialEq, Eq)]
pub enum Reply {
    /// The object with this name was allocated at this address, a number of bytes.
    Made { name: u64, address: u64 },
    /// No object of this size can be made, after a whole collection too: there are as many pages as may be, none is spare, and
    /// none has a free slot for it.
    Full,
    /// Out of memory.
    NoMemory,
    /// The command was done.
    Done,
    /// The word went on the stack, and names the object with this name, if any.
    Pushed { word: u64, names: Option<u64> },
    /// The value that was read.
    Read { value: Value },
    /// The answer to a question.
    Truth { yes: bool },
    /// An id, or a number of entries.
    Number { number: u64 },
    /// The object that has the id is gone.
    GoneId,
    /// So many finalizers were taken away.
    Removed { count: u64 },
    /// So many finalizers ran.
    RanCount { count: u64 },
    /// A marking was done, or ended, with so many scans: each reads the fields of one object.
    Scanned { count: u64 },
    /// A major marking made so many scans more, and so many objects that it has marked wait for theirs.
    Marked { scanned: u64, grey: u64 },
    /// So many slots of gone objects were made free, and so many pages with a pool still wait for a sweep.
    SweepCount { freed: u64, left: u32 },
    /// So many objects were moved, and whether no further one can be.
    MoveCount { moved: u64, done: bool },
    /// The references of so many objects were corrected, and whether the compaction ended.
    FixCount { fixed: u64, done: bool },
    /// The counts of the space.
    StatLine { stat: Stat },
    /// So many objects were listed.
    Dumped { count: u64 },
    /// Nothing is left of what the trace made, and so many finalizers ran.
    ExitRan { count: u64 },
    /// The command was refused, and nothing was changed.
    Refused { why: Refusal },
}
