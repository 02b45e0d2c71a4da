// A sink that gathers what is written, and hands it on in large pieces.
ghost use Rattle.std.specs.Prelude.{◌≡◌, ◌≤◌, ◌<◌, ◌+◌, [], length, Ok, IfOk, OnOk};
ghost use Rattle.std.specs.Io.KnownBytes.{WriteAppends, Keeps, append_known};
ghost use Rattle.space_io.specs.Causes.{HasCause};
ghost use Rattle.space_io.specs.Buffered.{MOST_HELD as most_held};
ghost use Rattle.space_io.specs.Sinks.{HoldsNoMore, HoldsNone};

use crate::bytes::drop_front;
use crate::{Failed, Sink};
use std::alloc::{AllocError as NoMemory, Global};
use std::marker::Model;

/// The most bytes that are held.
const MOST_HELD: usize = 65_536;

/// A sink that gathers up to 64 KiB of what is written to it, and hands them on to another sink where they are as many, and at `flush`.
///
/// What was written is what the other sink was given, and then what is held. All its memory is taken by `new`.
#[derive(Drop)]
pub struct BufferedSink<K> {
    inner: K,
    bytes: Vec<u8>,
}

impl<K> Model for BufferedSink<K> {
    ghost use Rattle.space_io.specs.Buffered.{Buffered, IsBuffered};

    ghost Value = { Buffered K };

    ghost view = { λ a. record { inner = a.inner; bytes = a.bytes.items } };

    ghost invariant = { IsBuffered };
}

impl<K: Sink + Drop> BufferedSink<K> {
    /// A sink that hands on to this one. The error says that there is no memory for the buffer.
    pub fn new(alloc: Global, inner: K) -> Result<Self, NoMemory>
        ensures inner { IfOk result (λ s. s.inner ≡ inner) }
        ensures empty { IfOk result (λ s. s.bytes ≡ []) }
    {
        let bytes = Vec::with_capacity(alloc, MOST_HELD)?;
        Ok(BufferedSink { inner, bytes })
    }

    /// The sink that bytes are handed on to.
    pub fn inner(&self) -> &K
        ensures { result.now ≡ self.now.inner }
    {
        &self.inner
    }

    // Hands on all that is held, and takes it off the buffer as far as the other sink took it.
    fn hand_on(&mut self) -> Result<(), Failed>
        ensures bytes { Keeps (append_known (K.written self.old.inner) self.old.bytes) (append_known (K.written self.new.inner) self.new.bytes) }
        ensures held { K.held self.new.inner + length self.new.bytes ≤ K.held self.old.inner + length self.old.bytes }
        ensures empty { OnOk result (self.new.bytes ≡ []) }
        ensures cause { HasCause (K.faults self.old.inner) (K.faults self.new.inner) result }
    {
        while !self.bytes.is_empty() {
            let count = self.inner.write(&self.bytes)?;
            drop_front(&mut self.bytes, count);
        }
        Ok(())
    }
}

impl<K: Sink + Drop> Sink for BufferedSink<K> {
    ghost written = { λ s. append_known (K.written s.inner) s.bytes };

    ghost faults = { λ s. K.faults s.inner };

    ghost held = { λ s. K.held s.inner + length s.bytes };

    /// Takes as much of the piece as there is room for. Where there is none, what is held is handed on first.
    fn write(&mut self, piece: &[u8]) -> Result<usize, Failed>
        requires { 0 < length piece.now }
        ensures bound { IfOk result (λ n. (0 < n) × (n ≤ length piece.now)) }
        ensures bytes { WriteAppends (append_known (K.written self.old.inner) self.old.bytes)
            (append_known (K.written self.new.inner) self.new.bytes) result piece.now }
        ensures cause { HasCause (K.faults self.old.inner) (K.faults self.new.inner) result }
        ensures held { HoldsNoMore (K.held self.old.inner + length self.old.bytes) (K.held self.new.inner + length self.new.bytes) result }
        // A piece that there is room for is taken whole, and nothing is handed on while there is any room.
        ensures fits { length self.old.bytes + length piece.now ≤ most_held → result ≡ Ok (length piece.now) }
        ensures gathers { length self.old.bytes < most_held → self.new.inner ≡ self.old.inner }
    {
        if self.bytes.len() == MOST_HELD {
            self.hand_on()?;
        }
        let count = piece.len().min(MOST_HELD - self.bytes.len());
        if self.bytes.extend_from_slice(&piece[..count]).is_err() {
            unreachable!();
        }
        Ok(count)
    }

    /// Hands on all that is held, and flushes the other sink.
    fn flush(&mut self) -> Result<(), Failed>
        ensures bytes { Keeps (append_known (K.written self.old.inner) self.old.bytes) (append_known (K.written self.new.inner) self.new.bytes) }
        ensures held { HoldsNone (K.held self.new.inner + length self.new.bytes) result }
        ensures cause { HasCause (K.faults self.old.inner) (K.faults self.new.inner) result }
    {
        self.hand_on()?;
        self.inner.flush()
    }
}

#[cfg(test)]
mod tests {
    use super::*;
    use crate::{MemorySink, write_all};
    use std::test::Fail;

    #[test]
    fn bytes_are_handed_on_in_large_pieces(rt: HostRuntime) -> Result<(), Fail> {
        let alloc = rt.alloc();
        let inner = MemorySink::new(alloc, 200_000, 200_000, Vec::new(alloc))?;
        let mut sink = BufferedSink::new(alloc, inner)?;
        for _ in 0..10_000 {
            assert!(rt; write_all(&mut sink, b"#1 0x10000\n").is_ok());
        }
        assert_eq!(rt; sink.inner().bytes().len(), 65_536);
        assert!(rt; sink.flush().is_ok());
        assert_eq!(rt; sink.inner().bytes().len(), 110_000);
        assert!(rt;
            sink.inner()
                .bytes()
                .ends_with(b"\n#1 0x10000\n#1 0x10000\n")
        );
        Ok(())
    }

    #[test]
    fn a_failed_flush_loses_nothing(rt: HostRuntime) -> Result<(), Fail> {
        let alloc = rt.alloc();
        // The call of the other sink that fails, and what it was given before; a call takes 3 bytes at most.
        let cases: [(u64, &[u8]); 3] = [(1, b""), (2, b"abc"), (3, b"abcdef")];
        for (failing, given) in cases {
            let inner = MemorySink::new(alloc, 100, 3, [failing].to_vec(alloc)?)?;
            let mut sink = BufferedSink::new(alloc, inner)?;
            assert!(rt; write_all(&mut sink, b"abcdefgh").is_ok());
            assert!(rt; sink.flush() == Err(Failed));
            assert!(rt; sink.inner().bytes() == given);
            assert!(rt; sink.flush().is_ok());
            assert!(rt; sink.inner().bytes() == b"abcdefgh".as_slice());
        }
        Ok(())
    }
}
