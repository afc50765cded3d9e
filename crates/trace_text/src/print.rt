// The text of calls, answers and faults.
ghost use Rattle.std.specs.Prelude.{◌≡◌, ◌≤◌, ◌<◌, ◌+◌, ◌*◌, ◌++◌, ◌∷◌, [], length, decimal};
ghost use Rattle.std.specs.Char.{digit_char};
ghost use Rattle.arrayvec.specs.ArrayString.{array_string_len};
ghost use Rattle.trace_text.specs.Text.{answer_text, call_text, fault_text, fault_words, line_fault_words, call_fault_words, asked_text, most_asked, octets_text, path_text, said_text};

use crate::{LineFault, TraceFault};
use heap_core::{Answer, Call, CallFault, Octets, Path};
use line_text::{Line, push_number};

// Appends words and a number.
fn push_counted(line: &mut Line, words: &str, number: u64)
    requires { array_string_len line.old + length words.now + 20 ≤ 512 }
    ensures bytes { line.new.bytes ≡ line.old.bytes ++ (words.now ++ decimal number) }
    ensures len { array_string_len line.new ≤ array_string_len line.old + length words.now + 20 }
{
    line.push_str(words);
    push_number(line, number);
}

// The lower-case hexadecimal digit with this value.
fn hex_digit(value: u8) -> char
    requires { value < 16 }
    ensures digit { result ≡ digit_char value }
    ensures ascii { result < 128 }
{
    if value < 10 {
        char::from(b'0' + value)
    } else {
        char::from(b'a' + (value - 10))
    }
}

// Appends bytes, two digits each.
fn push_octets(line: &mut Line, octets: &Octets)
    requires { array_string_len line.old + 128 ≤ 512 }
    ensures bytes { line.new.bytes ≡ line.old.bytes ++ octets_text octets.now }
    ensures len { array_string_len line.new ≤ array_string_len line.old + 128 }
{
    for k in 0..octets.len() {
        let byte = octets.at(k);
        line.push(hex_digit(byte / 16));
        line.push(hex_digit(byte % 16));
    }
}

// Appends a path, its steps joined by points.
fn push_path(line: &mut Line, path: &Path)
    requires { array_string_len line.old + 168 ≤ 512 }
    ensures bytes { line.new.bytes ≡ line.old.bytes ++ path_text path.now }
    ensures len { array_string_len line.new ≤ array_string_len line.old + 168 }
{
    for k in 0..path.len() {
        if k > 0 {
            line.push_str(".");
        }
        push_number(line, u64::from(path.at(k)));
    }
}

// Appends what stands in front of an answer: the letter of the call, and what tells it apart.
fn push_asked(line: &mut Line, call: &Call)
    requires { array_string_len line.old + 191 ≤ 512 }
    ensures bytes { line.new.bytes ≡ line.old.bytes ++ asked_text call.now }
    ensures len { array_string_len line.new ≤ array_string_len line.old + most_asked call.now }
{
    match call {
        Call::Allocate { name, .. } => push_counted(line, "a ", u64::from(*name)),
        Call::Aligned { name, .. } => push_counted(line, "l ", u64::from(*name)),
        Call::Expand { name, .. } => push_counted(line, "e ", u64::from(*name)),
        Call::Reallocate { name, .. } => push_counted(line, "r ", u64::from(*name)),
        Call::Free { name } => push_counted(line, "f ", u64::from(*name)),
        Call::FreeAll => line.push_str("z"),
        Call::Owns { name } => push_counted(line, "o ", u64::from(*name)),
        Call::OwnsAt { name, path } => {
            push_counted(line, "p ", u64::from(*name));
            line.push_str(" ");
            push_path(line, path);
        }
        Call::Good { size } => push_counted(line, "g ", *size),
        Call::Write { name, .. } => push_counted(line, "w ", u64::from(*name)),
        Call::Read { name, .. } => push_counted(line, "d ", u64::from(*name)),
    }
}

// Appends what stands in a call's line behind what its answer begins with.
#[tactic(auto, unfolding(crate::specs::Text::call_text))]
fn push_rest(line: &mut Line, call: &Call)
    requires begun { line.old.bytes ≡ asked_text call.now }
    requires room { array_string_len line.old ≤ most_asked call.now }
    ensures bytes { line.new.bytes ≡ call_text call.now }
    ensures len { array_string_len line.new ≤ 256 }
{
    match call {
        Call::Allocate { size, .. } | Call::Reallocate { size, .. } => push_counted(
            line, " ", *size,
        ),
        Call::Aligned { size, align, .. } => {
            push_counted(line, " ", *size);
            push_counted(line, " ", *align);
        }
        Call::Expand { delta, .. } => push_counted(line, " ", *delta),
        Call::Write { offset, bytes, .. } => {
            push_counted(line, " ", *offset);
            line.push_str(" ");
            push_octets(line, bytes);
        }
        Call::Read { offset, len, .. } => {
            push_counted(line, " ", *offset);
            push_counted(line, " ", *len);
        }
        Call::Free { .. }
        | Call::FreeAll
        | Call::Owns { .. }
        | Call::OwnsAt { .. }
        | Call::Good { .. } => {}
    }
}

/// The line that says a call, without its newline. `read_line` reads it back.
pub fn print_call(call: &Call) -> Line
    ensures bytes { result.bytes ≡ call_text call.now }
    ensures len { array_string_len result ≤ 256 }
{
    let mut line = Line::new();
    push_asked(&mut line, call);
    push_rest(&mut line, call);
    line
}

// Appends what is answered.
fn push_answer(line: &mut Line, call: &Call, answer: &Answer)
    requires { array_string_len line.old + 129 ≤ 512 }
    ensures bytes { line.new.bytes ≡ line.old.bytes ++ said_text call.now answer.now }
    ensures len { array_string_len line.new ≤ array_string_len line.old + 129 }
{
    match answer {
        Answer::Placed { place } => push_counted(line, " ", *place),
        Answer::Null => line.push_str(" null"),
        Answer::Said { yes } => line.push_str(if *yes { " true" } else { " false" }),
        Answer::Moved { place } => push_counted(line, " true ", *place),
        Answer::Gone => line.push_str(" gone"),
        Answer::Size { size } => push_counted(line, " ", *size),
        Answer::Done => line.push_str(match call {
            Call::FreeAll => " done",
            _ => " ok",
        }),
        Answer::Bytes { bytes } => {
            line.push_str(" ");
            push_octets(line, bytes);
        }
    }
}

/// Makes the line the one that answers a call, with its newline, in place of what it held: the letter of the call, the
/// name, path or size that it asks about, and the answer. A place is an offset in the area in bytes.
#[tactic(auto, unfolding(crate::specs::Text::answer_text), using(crate::proofs::Printing::most_asked_le))]
pub fn answer_line(line: &mut Line, call: &Call, answer: &Answer)
    ensures { line.new.bytes ≡ answer_text call.now answer.now }
{
    line.clear();
    push_asked(line, call);
    push_answer(line, call, answer);
    line.push_str("\n");
}

// Appends words and a column.
fn push_column(line: &mut Line, words: &str, column: u32)
    requires { array_string_len line.old + length words.now + 20 ≤ 512 }
    ensures bytes { line.new.bytes ≡ line.old.bytes ++ (words.now ++ decimal column) }
    ensures len { array_string_len line.new ≤ array_string_len line.old + length words.now + 20 }
{
    push_counted(line, words, u64::from(column));
}

// Appends what the fault of a line is called.
fn push_line_fault(line: &mut Line, fault: &LineFault)
    requires { array_string_len line.old + 47 ≤ 512 }
    ensures bytes { line.new.bytes ≡ line.old.bytes ++ line_fault_words fault.now }
    ensures len { array_string_len line.new ≤ array_string_len line.old + 47 }
{
    match fault {
        LineFault::TooLong => line.push_str("too long"),
        LineFault::BadLine { column } => push_column(line, "bad line at column ", *column),
        LineFault::NumberTooLarge { column } => {
            push_column(line, "number too large at column ", *column);
        }
    }
}

// What the fault of a call is called.
fn words_of(fault: &CallFault) -> &'static str
    ensures words { result.now ≡ call_fault_words fault.now }
    ensures len { length result.now ≤ 20 }
{
    match fault {
        CallFault::NameLive => "name is live",
        CallFault::NameNotLive => "name is not live",
        CallFault::TooManyLive => "too many live blocks",
        CallFault::OutOfBlock => "outside the block",
        CallFault::NotOffered => "not offered",
        CallFault::NotServing => "not serving",
        CallFault::NoSuchLayer => "no such layer",
    }
}

/// The line that tells a fault of the line with this number, with its newline: `line N: ` and what the fault is called.
#[tactic(auto, unfolding(crate::specs::Text::fault_text))]
pub fn fault_line(number: u64, fault: &TraceFault) -> Line
    ensures { result.bytes ≡ fault_text number fault.now }
{
    let mut line = Line::new();
    push_counted(&mut line, "line ", number);
    line.push_str(": ");
    match fault {
        TraceFault::Line { fault } => push_line_fault(&mut line, fault),
        TraceFault::Call { fault } => line.push_str(words_of(fault)),
        TraceFault::TooMuchInput => line.push_str("too much input"),
    }
    line.push_str("\n");
    line
}
