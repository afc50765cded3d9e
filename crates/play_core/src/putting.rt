// Text that is put into a sink.
ghost use Rattle.std.specs.Prelude.{◌≡◌, ◌≤◌, length, drop, map, true, OnOk, OnErr};
ghost use Rattle.trace_text.specs.Text.{fault_text};
ghost use Rattle.play_core.specs.Devices.{writing, PutsAll, PutsPart};
ghost use Rattle.play_core.specs.Ends.{LinesPut, StopPut};
ghost use Rattle.play_core.specs.Runs.{HandsOn, TextPut};

use crate::{Status, Step};
use line_text::Line;
use source_sink::{Failed, Sink};
use space_core::Space;
use trace_text::{TraceFault, fault_line};

// What stands from there on.
fn from(text: &[u8], at: usize) -> &[u8]
    requires { at ≤ length text.now }
    ensures { result.now ≡ drop at text.now }
{
    &text[at..]
}

// Puts all of the text, however the sink parts it.
pub(crate) fn put_all<K: Sink>(sink: &mut K, text: &[u8], space: &Space) -> Result<(), Failed>
    ensures ok { OnOk result (PutsAll (writing K.holds K.faults sink.old) (writing K.holds K.faults sink.new) text.now) }
    ensures err { OnErr result (PutsPart (writing K.holds K.faults sink.old) (writing K.holds K.faults sink.new) text.now) }
{
    let mut at = 0;
    while at < text.len() {
        at += sink.put(from(text, at), space)?;
    }
    Ok(())
}

// Hands on what was put, of a run that ends with this status.
pub(crate) fn hand_on<K: Sink>(sink: &mut K, status: Status) -> Status
    ensures hands_on { HandsOn status (writing K.holds K.faults sink.old) (writing K.holds K.faults sink.new) result }
    ensures flushed { (result ≡ Status.WriteFault → ⊥) → K.flushed sink.new ≡ true }
{
    match sink.flush() {
        Ok(()) => status,
        Err(_) => Status::WriteFault,
    }
}

// Puts one text, which is all that is told, and hands it on.
pub(crate) fn put_only<K: Sink>(sink: &mut K, text: &[u8], status: Status, space: &Space) -> Status
    ensures put { TextPut status text.now (writing K.holds K.faults sink.old) (writing K.holds K.faults sink.new) result }
    ensures flushed { (result ≡ Status.WriteFault → ⊥) → K.flushed sink.new ≡ true }
{
    match put_all(sink, text, space) {
        Ok(()) => hand_on(sink, status),
        Err(_) => Status::WriteFault,
    }
}

// Puts each line as a piece.
pub(crate) fn put_lines<K: Sink>(sink: &mut K, lines: &[Line], space: &Space) -> Result<(), Failed>
    ensures { LinesPut (writing K.holds K.faults sink.old) (writing K.holds K.faults sink.new) (map (λ line. line.bytes) lines.now) result }
{
    for line in lines {
        put_all(sink, line.as_str().as_bytes(), space)?;
    }
    Ok(())
}

// Puts the line of a fault.
pub(crate) fn put_fault<K: Sink>(
    sink: &mut K,
    number: u64,
    fault: &TraceFault,
    space: &Space,
) -> Step
    ensures { StopPut (writing K.holds K.faults sink.old) (writing K.holds K.faults sink.new) (fault_text number fault.now) result }
{
    match put_all(sink, fault_line(number, fault).as_str().as_bytes(), space) {
        Ok(()) => Step::Stops,
        Err(_) => Step::SinkFailed,
    }
}
