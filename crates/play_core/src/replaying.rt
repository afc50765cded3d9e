// A whole trace.
ghost use Rattle.std.specs.Prelude.{◌≡◌, ◌≤◌, [], length, take, false, true};
ghost use Rattle.play_core.specs.Devices.{reading, writing};
ghost use Rattle.play_core.specs.Ends.{run_at, rules_at, HeldAt, Fed, Lasts, Finishes};
ghost use Rattle.play_core.specs.Lines.{IsOpen};
ghost use Rattle.play_core.specs.Place.{place_of, told_at};
ghost use Rattle.play_core.specs.Ran.{Ran};
ghost use Rattle.play_core.specs.Told.{reported};

use crate::feeding::{feed_next, perform_line};
use crate::putting::hand_on;
use crate::reader::{MOST_INPUT, Reader};
use crate::report::put_report;
use crate::{Status, Step};
use heap_core::Heap;
use layer_core::Layer;
use line_text::Line;
use source_sink::{Sink, Source};
use space_core::Space;

// The first so many bytes.
fn front(bytes: &[u8], count: usize) -> &[u8]
    requires { count ≤ length bytes.now }
    ensures { result.now ≡ take count bytes.now }
{
    &bytes[..count]
}

// Takes all bytes, as far as nothing ends the run.
fn feed_all<L: Layer, K: Sink>(
    heap: &mut Heap<L>,
    space: &mut Space,
    sink: &mut K,
    reader: &mut Reader,
    bytes: &[u8],
) -> Step
    requires opened { IsOpen reader.old.begun.items }
    requires short { length reader.old.begun.items ≤ 256 }
    requires held { HeldAt L.model heap.old space.old }
    ensures fed { Fed (rules_at L.model heap.old) (place_of reader.old (run_at L.model heap.old space.old)) bytes.now
        (place_of reader.new (run_at L.model heap.new space.new))
        (writing K.holds K.faults sink.old) (writing K.holds K.faults sink.new) result }
    ensures held { HeldAt L.model heap.new space.new }
    ensures rules { rules_at L.model heap.new ≡ rules_at L.model heap.old }
{
    let mut answer = Line::new();
    let mut at = 0;
    while at < bytes.len() {
        let (step, taken) = feed_next(heap, space, sink, &mut answer, reader, &bytes[at..]);
        match step {
            Step::Goes => at += taken,
            step => return step,
        }
    }
    Step::Goes
}

// Performs what is left as the last line.
fn last_line<L: Layer, K: Sink>(
    heap: &mut Heap<L>,
    space: &mut Space,
    sink: &mut K,
    reader: &Reader,
) -> Step
    requires opened { IsOpen reader.now.begun.items }
    requires short { length reader.now.begun.items ≤ 256 }
    requires held { HeldAt L.model heap.old space.old }
    ensures lasts { Lasts (rules_at L.model heap.old) (told_at (rules_at L.model heap.old) (place_of reader.now (run_at L.model heap.old space.old)) [])
        (run_at L.model heap.new space.new) (writing K.holds K.faults sink.old) (writing K.holds K.faults sink.new) result }
    ensures held { HeldAt L.model heap.new space.new }
    ensures rules { rules_at L.model heap.new ≡ rules_at L.model heap.old }
{
    if reader.begun.is_empty() {
        return Step::Goes;
    }
    let mut answer = Line::new();
    perform_line(
        heap,
        space,
        sink,
        &mut answer,
        reader.number,
        reader.begun.as_slice(),
    )
}

// Puts the report at the end of a trace.
fn finish_report<L: Layer, K: Sink>(heap: &Heap<L>, space: &Space, sink: &mut K) -> Status
    requires { HeldAt L.model heap.now space.now }
    ensures { Finishes (reported (rules_at L.model heap.now) (run_at L.model heap.now space.now)) (run_at L.model heap.now space.now)
        (writing K.holds K.faults sink.old) (writing K.holds K.faults sink.new) result }
{
    match put_report(heap, space, sink) {
        Ok(()) => Status::Good,
        Err(_) => Status::WriteFault,
    }
}

// Performs what is left as the last line, and puts the report.
fn finish<L: Layer, K: Sink>(
    heap: &mut Heap<L>,
    space: &mut Space,
    sink: &mut K,
    reader: &Reader,
) -> Status
    requires opened { IsOpen reader.now.begun.items }
    requires short { length reader.now.begun.items ≤ 256 }
    requires held { HeldAt L.model heap.old space.old }
    ensures finishes { Finishes (told_at (rules_at L.model heap.old) (place_of reader.now (run_at L.model heap.old space.old)) [])
        (run_at L.model heap.new space.new) (writing K.holds K.faults sink.old) (writing K.holds K.faults sink.new) result }
    ensures held { HeldAt L.model heap.new space.new }
    ensures rules { rules_at L.model heap.new ≡ rules_at L.model heap.old }
{
    match last_line(heap, space, sink, reader) {
        Step::Goes => finish_report(heap, space, sink),
        Step::Stops => Status::Trace,
        Step::SinkFailed => Status::WriteFault,
    }
}

// Takes the trace that the source gives, and puts its answers and the report into the sink. What was put is handed on
// each time before the source is asked.
fn replay_to_end<L: Layer, S: Source, K: Sink>(
    heap: &mut Heap<L>,
    space: &mut Space,
    source: &mut S,
    sink: &mut K,
) -> Status
    requires opened { S.finished source.old ≡ false }
    requires held { HeldAt L.model heap.old space.old }
    ensures ran { Ran (rules_at L.model heap.old) (run_at L.model heap.old space.old) (run_at L.model heap.new space.new)
        (reading S.left S.faults S.finished source.old) (reading S.left S.faults S.finished source.new)
        (writing K.holds K.faults sink.old) (writing K.holds K.faults sink.new) result }
    ensures flushed { result ≡ Status.ReadFault → K.flushed sink.new ≡ true }
    ensures held { HeldAt L.model heap.new space.new }
    ensures rules { rules_at L.model heap.new ≡ rules_at L.model heap.old }
{
    let mut reader = Reader::new();
    let mut room = [0u8; 4096];
    'taking: loop {
        match sink.flush() {
            Ok(()) => {}
            Err(_) => return Status::WriteFault,
        }
        let missing = MOST_INPUT + 1 - reader.before - reader.begun.len();
        let want = missing.min(4096);
        let into = &mut room[..want];
        let count = match source.take(into) {
            Ok(count) => count,
            Err(_) => return Status::ReadFault,
        };
        if count == 0 {
            return finish(heap, space, sink, &reader);
        }
        match feed_all(heap, space, sink, &mut reader, front(into, count)) {
            Step::Goes => {}
            Step::Stops => return Status::Trace,
            Step::SinkFailed => return Status::WriteFault,
        }
    }
}

// Replays the trace that the source gives, and hands on its answers and the report.
pub(crate) fn replay<L: Layer, S: Source, K: Sink>(
    heap: &mut Heap<L>,
    space: &mut Space,
    source: &mut S,
    sink: &mut K,
) -> Status
    requires opened { S.finished source.old ≡ false }
    requires held { HeldAt L.model heap.old space.old }
    ensures ran { Ran (rules_at L.model heap.old) (run_at L.model heap.old space.old) (run_at L.model heap.new space.new)
        (reading S.left S.faults S.finished source.old) (reading S.left S.faults S.finished source.new)
        (writing K.holds K.faults sink.old) (writing K.holds K.faults sink.new) result }
    ensures flushed { (result ≡ Status.WriteFault → ⊥) → K.flushed sink.new ≡ true }
    ensures held { HeldAt L.model heap.new space.new }
    ensures rules { rules_at L.model heap.new ≡ rules_at L.model heap.old }
{
    match replay_to_end(heap, space, source, sink) {
        Status::Good => hand_on(sink, Status::Good),
        Status::Trace => hand_on(sink, Status::Trace),
        status => status,
    }
}
