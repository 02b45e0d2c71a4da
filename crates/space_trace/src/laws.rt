// What holds of the trace language.
ghost use Rattle.space_trace.specs.Laws.{SpellingsAreRead, SpellingsDiffer, ReadingsAreOne, CommandsAreOne};

/// The spelling of a command is read as that command, and two commands have two spellings.
pub fn spellings_are_read()
    ensures read { SpellingsAreRead }
    ensures differ { SpellingsDiffer }
{}

/// A line is at most one command, and an input at most one list of commands. So what `read_command` finds is the
/// only command that the line is.
pub fn readings_are_one()
    ensures line { ReadingsAreOne }
    ensures input { CommandsAreOne }
{}
