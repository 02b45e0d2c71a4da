// What is counted of the outputs of a command.
ghost use Rattle.std.specs.Prelude.{◌≡◌};
ghost use Rattle.space_engine.specs.Counting.{no_counts, reply_counts, sum_of_counts};

use space_model::Reply;

/// How many of each the outputs of a command tell.
#[derive(Clone, Copy, Debug, PartialEq, Eq)]
pub struct Counts {
    /// Objects that were made.
    pub objects: u64,
    /// Objects that are gone.
    pub gone: u64,
    /// Objects that were moved.
    pub moves: u64,
    /// Finalizers that ran.
    pub finals: u64,
    /// Replies `full`.
    pub full: u64,
    /// Refusals.
    pub errors: u64,
    /// Replies `no memory`.
    pub no_memory: u64,
}

/// Nothing was counted.
pub const NONE: Counts = Counts {
    objects: 0,
    gone: 0,
    moves: 0,
    finals: 0,
    full: 0,
    errors: 0,
    no_memory: 0,
};

// What is counted of a reply.
fn counts_of_reply(reply: &Reply) -> Counts
    ensures { result ≡ reply_counts reply.now }
{
    match reply {
        Reply::Made { .. } => Counts { objects: 1, ..NONE },
        Reply::Full => Counts { full: 1, ..NONE },
        Reply::NoMemory => Counts {
            no_memory: 1,
            ..NONE
        },
        Reply::Refused { .. } => Counts { errors: 1, ..NONE },
        _ => NONE,
    }
}

/// What is counted of a reply, of so many gone objects and of so many that were moved.
pub fn counts_of_answer(reply: &Reply, gone: u64, moves: u64) -> Counts
    ensures { result ≡ sum_of_counts (record no_counts { gone = gone; moves = moves }) (reply_counts reply.now) }
{
    Counts {
        gone,
        moves,
        ..counts_of_reply(reply)
    }
}
