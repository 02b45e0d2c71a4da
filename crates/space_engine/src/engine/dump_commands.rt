// The commands that show objects.
ghost use Rattle.std.specs.Prelude.{◌≡◌, ◌<◌, ◌+◌, ◌++◌, ◌∷◌, ◌^◌, [], true, IfOk, OnErr};
ghost use Rattle.space_io.specs.Causes.{HasCause};
ghost use Rattle.space_io.specs.Sinks.{AppendsPrefix};
ghost use Rattle.space_model.specs.declared.command.Command.TheVariants.{Dump, Peek};
ghost use Rattle.space_model.specs.Texts.{text_of, dump_pieces, line_of_pieces};
ghost use Rattle.space_dump.specs.HeapLines.{line_at};
ghost use Rattle.space_heap.specs.Objects.{is_object};
ghost use Rattle.space_heap.specs.SoundHeap.{IsSoundHeap};
ghost use Rattle.space_engine.specs.Answered.{IsWritten, IsWrittenInPart};
ghost use Rattle.space_engine.specs.HeapDumps.{AreListed, lines_at, object_addresses};
ghost use Rattle.space_engine.specs.Ticks.{RisesByFewer, most_ticks};
ghost use Rattle.space_engine.specs.Turns.{CanAnswer};

use super::Engine;
use crate::counts::{Counts, NONE, counts_of_answer};
use space_dump::{dump_line, peek_words};
use space_io::{Sink, WriteFault, write_all};
use space_model::{Ledger, Operand, Reply, Steps};
use space_trace::{write_peek, write_reply};
use std::alloc::AllocError as NoMemory;

const LF: u8 = b'\n';

impl Engine {
    // The line of the object at the address, with its LF.
    fn line_of<L: Ledger>(&self, address: u64, steps: &mut Steps<L>) -> Result<Vec<u8>, NoMemory>
        requires object { is_object self.now.heap address ≡ true }
        requires steps { steps.old < 2 ^ 62 }
        ensures line { IfOk result (λ line. line.items ≡ line_of_pieces (dump_pieces (line_at self.now.heap address))) }
        ensures ticked { steps.new ≡ steps.old + 1 }
    {
        let mut line = dump_line(self.alloc, &self.heap, address, steps)?;
        line.push(LF)?;
        Ok(line)
    }

    // Writes a line for each object, in ascending order of address. The reply is their number, or that there was no memory for a
    // line.
    fn list<K: Sink, L: Ledger>(
        &self,
        sink: &mut K,
        steps: &mut Steps<L>,
    ) -> Result<Reply, WriteFault>
        requires sound { IsSoundHeap self.now.heap }
        requires steps { steps.old < 2 ^ 61 }
        ensures done { IfOk result (λ reply. AreListed self.now.heap reply (K.written sink.old) (K.written sink.new) steps.old steps.new) }
        ensures fault { OnErr result (AppendsPrefix (K.written sink.old) (K.written sink.new) (text_of (lines_at self.now.heap (object_addresses self.now.heap)))) }
        ensures cause { HasCause (K.faults sink.old) (K.faults sink.new) result }
        ensures steps { RisesByFewer most_ticks steps.old steps.new }
    {
        let mut count = 0;
        let mut from = 0;
        'objects: while let Some(address) = self.heap.next_object(from) {
            let Ok(line) = self.line_of(address, steps) else {
                return Ok(Reply::NoMemory);
            };
            write_all(sink, line.as_slice())?;
            count += 1;
            from = address + 1;
        }
        Ok(Reply::Dumped { count })
    }

    /// Writes a line for each object that isn't gone, in ascending order of address, and then their number. Where there is no memory
    /// for a line, those before it were written.
    pub fn dump<K: Sink, L: Ledger>(
        &self,
        sink: &mut K,
        steps: &mut Steps<L>,
    ) -> Result<Counts, WriteFault>
        requires able { CanAnswer self.now.heap }
        requires steps { steps.old < 2 ^ 61 }
        ensures done { IfOk result (λ counts. IsWritten self.now self.now Dump counts (K.written sink.old) (K.written sink.new) steps.old steps.new) }
        ensures fault { OnErr result (IsWrittenInPart self.now self.now Dump (K.written sink.old) (K.written sink.new)) }
        ensures cause { HasCause (K.faults sink.old) (K.faults sink.new) result }
        ensures steps { RisesByFewer most_ticks steps.old steps.new }
    {
        // Its clause `sound` tells that no heap has many objects.
        self.heap.page_count();
        let reply = self.list(sink, steps)?;
        write_reply(&reply, sink)?;
        Ok(counts_of_answer(&reply, 0, 0))
    }

    /// Writes where the object stands and the words of its fields, as they are stored.
    pub fn peek<K: Sink, L: Ledger>(
        &self,
        object: &Operand,
        sink: &mut K,
        steps: &mut Steps<L>,
    ) -> Result<Counts, WriteFault>
        requires steps { steps.old < 2 ^ 61 }
        ensures done { IfOk result (λ counts. IsWritten self.now self.now (Peek object.now) counts (K.written sink.old) (K.written sink.new) steps.old steps.new) }
        ensures fault { OnErr result (IsWrittenInPart self.now self.now (Peek object.now) (K.written sink.old) (K.written sink.new)) }
        ensures cause { HasCause (K.faults sink.old) (K.faults sink.new) result }
        ensures steps { RisesByFewer most_ticks steps.old steps.new }
    {
        let address = match self.address_of(object) {
            Ok(address) => address,
            Err(why) => {
                let reply = Reply::Refused { why };
                write_reply(&reply, sink)?;
                return Ok(counts_of_answer(&reply, 0, 0));
            }
        };
        let words = peek_words(&self.heap, address, steps);
        write_peek(address, words, sink)?;
        Ok(NONE)
    }
}
