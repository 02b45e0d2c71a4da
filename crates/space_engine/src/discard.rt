// A sink for lines that aren't to be written.
ghost use Rattle.std.specs.Prelude.{◌≤◌, ◌<◌, length, None, IfOk};
ghost use Rattle.std.specs.Io.KnownBytes.{WriteAppends, Keeps};
ghost use Rattle.space_io.specs.Causes.{HasCause};
ghost use Rattle.space_io.specs.Sinks.{HoldsNoMore, HoldsNone};

use space_io::{Failed, Sink};

/// A sink that keeps nothing, and never fails.
#[derive(Clone, Copy, Debug, PartialEq, Eq)]
pub struct Discard;

impl Sink for Discard {
    ghost written = { λ _. None };

    ghost faults = { λ _. 0 };

    ghost held = { λ _. 0 };

    /// Takes the whole piece.
    fn write(&mut self, piece: &[u8]) -> Result<usize, Failed>
        requires { 0 < length piece.now }
        ensures bound { IfOk result (λ n. (0 < n) × (n ≤ length piece.now)) }
        ensures bytes { WriteAppends None None result piece.now }
        ensures cause { HasCause 0 0 result }
        ensures held { HoldsNoMore 0 0 result }
    {
        Ok(piece.len())
    }

    /// Does nothing, since nothing is held.
    fn flush(&mut self) -> Result<(), Failed>
        ensures bytes { Keeps None None }
        ensures held { HoldsNone 0 result }
        ensures cause { HasCause 0 0 result }
    {
        Ok(())
    }
}
