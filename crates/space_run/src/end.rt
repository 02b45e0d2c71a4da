// How a replay ends.
ghost use Rattle.std.specs.Prelude.{◌≡◌};
ghost use Rattle.space_run.specs.Ends.{status_of};

// How a replay ends. Its status is the program's.
#[derive(Clone, Copy, Debug, PartialEq, Eq)]
pub enum End {
    // The input was read to its end, and each command was answered.
    Complete,
    // A line is malformed or too long, and that was written.
    Malformed,
    // A read failed.
    ReadFault,
    // A write or a flush failed.
    WriteFault,
    // As many bytes were taken as may be.
    InputLimit,
}

impl End {
    // The status of the program.
    pub fn status(self) -> u8
        ensures { result ≡ status_of self }
    {
        match self {
            End::Complete => 0,
            End::Malformed => 3,
            End::ReadFault => 4,
            End::WriteFault => 5,
            End::InputLimit => 6,
        }
    }
}
