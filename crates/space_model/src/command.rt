// The commands of a trace. The language is this project's own.
use crate::{Guard, Ident, Style};

/// What a command reads: a root, or a word of the stack by its place from the top, which is 0.
#[derive(Clone, Copy)]
pub enum Operand {
    /// The value that the root holds.
    Root(Ident),
    /// The value of the stack word at this place.
    Word(u64),
}

/// A value that a command is given.
#[derive(Clone, Copy)]
pub enum Input {
    /// The value of an operand.
    From(Operand),
    /// Nil.
    Nil,
    /// A small integer, which a line spells below 2^62.
    Small(u64),
}

/// One line of a trace. It holds no memory of its own.
#[derive(Clone, Copy)]
pub enum Command {
    /// Makes an object whose fields are nil; the root holds it.
    New {
        root: Ident,
        fields: u64,
        guard: Guard,
        style: Style,
    },
    /// The root holds the value; a new root comes last.
    Set {
        root: Ident,
        value: Input,
    },
    /// The root is taken away; the others keep their order.
    DropRoot {
        root: Ident,
    },
    /// The word of the value goes on the stack.
    Push {
        value: Input,
    },
    /// The word goes on the stack as it is.
    Raw {
        word: u64,
    },
    /// The top word of the stack is taken away.
    Pop,
    /// A field of the object becomes the value.
    Store {
        object: Operand,
        index: u64,
        value: Input,
    },
    /// A field of an object that the write barrier doesn't protect becomes the value, and the collector isn't told.
    RawStore {
        object: Operand,
        index: u64,
        value: Input,
    },
    /// The root holds the value of a field of the object; a new root comes last.
    Load {
        root: Ident,
        object: Operand,
        index: u64,
    },
    /// Tells whether two values are one.
    Same {
        left: Operand,
        right: Operand,
    },
    /// The write barrier protects the object no more (`rb_gc_writebarrier_unprotect` of CRuby 3.3).
    Unprotect {
        object: Operand,
    },
    /// Tells the id of the object, which is given when it is first asked for (`object_id` of CRuby 3.3).
    Id {
        object: Operand,
    },
    /// The root holds the object that has the id (`ObjectSpace._id2ref` of CRuby 3.3); a new root comes last.
    ById {
        root: Ident,
        id: u64,
    },
    /// The key has the value in the weak map, which keeps neither of them (`ObjectSpace::WeakMap` of CRuby 3.3).
    WeakSet {
        weak: Ident,
        key: Operand,
        value: Operand,
    },
    /// The root holds the value of the key in the weak map, or nil where it has none; a new root comes last.
    WeakGet {
        root: Ident,
        weak: Ident,
        key: Operand,
    },
    /// Tells whether the key has a value in the weak map.
    WeakKey {
        weak: Ident,
        key: Operand,
    },
    /// Tells how many entries the weak map has.
    WeakSize {
        weak: Ident,
    },
    /// The entry of the key is taken out of the weak map; tells whether there was one.
    WeakDelete {
        weak: Ident,
        key: Operand,
    },
    /// Defines a finalizer of the object, which is a label (`ObjectSpace.define_finalizer` of CRuby 3.3).
    Final {
        object: Operand,
        label: Ident,
    },
    /// Takes all finalizers of the object away (`ObjectSpace.undefine_finalizer` of CRuby 3.3); tells how many they were.
    Unfinal {
        object: Operand,
    },
    /// Runs so many finalizers of objects that are gone and swept, or all where fewer wait.
    Run {
        count: u64,
    },
    /// A minor collection: young objects go that no root, no stack word, no old object and no object that is kept leads to.
    Minor,
    /// A whole collection: what no root and no stack word leads to goes (`GC.start` of CRuby 3.3).
    Gc,
    /// A major marking begins, after what was under way was completed. It goes on over later commands (the incremental marking of CRuby 3.3).
    Major,
    /// The major marking that is under way makes so many scans, or all that are left where fewer are.
    Mark {
        count: u64,
    },
    /// The major marking that is under way ends, and its verdict is given.
    Finish,
    /// Sweeps so many pages that wait, or all where fewer do.
    Sweep {
        count: u64,
    },
    /// A whole collection and the sweep of all pages; then a compaction begins, which goes on over later commands (`GC.compact` of
    /// CRuby 3.3).
    Compact,
    /// The compaction that is under way makes so many moves, or all that are left where fewer are.
    Move {
        count: u64,
    },
    /// The compaction that is under way corrects the references of so many objects; where none is left it ends.
    Fix {
        count: u64,
    },
    /// Tells the counts of the space.
    Stat,
    /// Lists the objects that aren't gone, each by a line of JSON (`ObjectSpace.dump_all` of CRuby 3.3).
    Dump,
    /// Tells where the object stands, and the words of its fields as they are stored.
    Peek {
        object: Operand,
    },
    /// Ends all that the trace made: roots and stack words go, then all objects, and every finalizer runs. The space stays.
    Exit,
}
