// The line of a dump as serde's data. It is sent event by event, so that it takes no memory but for its text.
ghost use Rattle.std.specs.Prelude.{◌≡◌, OnOk};
ghost use Rattle.serde.specs.Event.{Logs, text};
ghost use Rattle.space_model.specs.Spelling.{hex};
ghost use Rattle.space_model.specs.Texts.{style_text};
ghost use Rattle.space_dump.specs.HeapLines.{references_in};
ghost use Rattle.space_dump.specs.LineEvents.{SendsAll, first_events, flag_events, name_events, reference_events, last_events, line_events};

use crate::hex_text::HexText;
use serde::{Described, Serialize, Serializer};
use space_heap::Heap;
use space_model::Style;

/// What a line tells, and the words that lead to the references.
#[derive(Drop)]
pub struct Line<'a> {
    pub heap: &'a Heap,
    pub words: &'a [u64],
    pub address: u64,
    pub fields: u64,
    pub old: bool,
    pub style: Style,
    pub wb_protected: bool,
    pub name: u64,
    pub slot_size: u64,
}

impl Described for Line<'_> {
    ghost use Rattle.space_dump.specs.LineEvents.{SendsAll, line_events};
    ghost use Rattle.space_dump.specs.Shown.{shown};

    ghost writes = { λ line. SendsAll (line_events (shown line)) };
}

impl Serialize for Line<'_> {
    fn serialize<S: Serializer>(&self, out: &mut S) -> Result<(), S::Error> {
        self.send_first(out)?;
        self.send_flags(out)?;
        self.send_name(out)?;
        self.send_references(out)?;
        self.send_last(out)
    }
}

// An address, as text.
fn send_address<S: Serializer>(address: u64, out: &mut S) -> Result<(), S::Error>
    ensures { OnOk result (Logs (S.written out.old) (S.written out.new) (text (hex address))) }
{
    let mut digits = HexText::new();
    digits.put(address);
    match str::from_utf8(digits.bytes()) {
        Ok(text) => out.str(text),
        Err(_) => Err(out.custom("no text")),
    }
}

// The letter of a style.
fn style_letter(style: Style) -> &'static str
    ensures { result.now ≡ style_text style }
{
    match style {
        Style::Movable => "M",
        Style::Keeping => "K",
    }
}

impl Line<'_> {
    ghost use Rattle.space_dump.specs.Shown.{shown};

    fn send_first<S: Serializer>(&self, out: &mut S) -> Result<(), S::Error>
        ensures { OnOk result (SendsAll (first_events (shown self.now)) (S.written out.old) (S.written out.new)) }
    {
        out.begin_map(Some(7))?;
        out.key("address")?;
        send_address(self.address, out)?;
        out.key("fields")?;
        out.u64(self.fields)?;
        out.key("flags")
    }

    fn send_flags<S: Serializer>(&self, out: &mut S) -> Result<(), S::Error>
        ensures { OnOk result (SendsAll (flag_events (shown self.now)) (S.written out.old) (S.written out.new)) }
    {
        out.begin_map(Some(3))?;
        out.key("old")?;
        out.bool(self.old)?;
        out.key("style")?;
        out.str(style_letter(self.style))?;
        out.key("wb_protected")?;
        out.bool(self.wb_protected)?;
        out.end_map()
    }

    fn send_name<S: Serializer>(&self, out: &mut S) -> Result<(), S::Error>
        ensures { OnOk result (SendsAll (name_events (shown self.now)) (S.written out.old) (S.written out.new)) }
    {
        out.key("name")?;
        out.u64(self.name)?;
        out.key("references")?;
        out.begin_seq(None)
    }

    // The addresses that the words lead to, in their order.
    fn send_references<S: Serializer>(&self, out: &mut S) -> Result<(), S::Error>
        ensures { OnOk result (SendsAll (reference_events (references_in self.now.heap.now self.now.words.now)) (S.written out.old) (S.written out.new)) }
    {
        for word in self.words {
            let address = self.heap.resolve(*word);
            if self.heap.is_object(address) {
                send_address(address, out)?;
            }
        }
        out.end_seq()
    }

    fn send_last<S: Serializer>(&self, out: &mut S) -> Result<(), S::Error>
        ensures { OnOk result (SendsAll (last_events (shown self.now)) (S.written out.old) (S.written out.new)) }
    {
        out.key("slot_size")?;
        out.u64(self.slot_size)?;
        out.key("type")?;
        out.str("OBJECT")?;
        out.end_map()
    }
}
